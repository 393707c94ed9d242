// The configuration of a storm.

ghost use Rattle.std.specs.Prelude.{◌≡◌, IfOk};
ghost use Rattle.storm_texts.specs.Config as spec;
ghost use Rattle.storm_texts.specs.Config.{config_text};

use sso_base::{Blob, NoMemory};
use std::alloc::Global;

#[tactic(auto, unfolding(crate::specs::Config::provider_text))]
fn provider() -> &'static str
    ensures { result.now ≡ spec.provider_text }
{
    "version = 1
[provider]
issuer = \"http://127.0.0.1:8080\"
listen = \"127.0.0.1:8080\"
salt = \"00112233445566778899aabbccddeeff\"
"
}

#[tactic(auto, unfolding(crate::specs::Config::users_text))]
fn users() -> &'static str
    ensures { result.now ≡ spec.users_text }
{
    "[[user]]
id = \"alice\"
salt = \"73616c74\"
rounds = 1
proof = \"120fb6cffcf8b32c43e7225256c4f837a86548c92ccc35480805987cb70be17b\"
[user.claims]
name = \"Alice Adams\"
email = \"alice@example.org\"
email_verified = true
[[user]]
id = \"bob\"
salt = \"73616c74\"
rounds = 2
proof = \"ae4d0c95af6b46d32d0adff928f06dd02a303f8ef3c251dfd6e2d85a95474c43\"
"
}

#[tactic(auto, unfolding(crate::specs::Config::clients_text))]
fn clients() -> &'static str
    ensures { result.now ≡ spec.clients_text }
{
    "[[client]]
id = \"shop-client\"
secret = \"shop-secret-shop-secret-shop-secret\"
consent = \"given\"
redirect_uris = [\"http://127.0.0.1:8081/cb\"]
logout_uri = \"http://127.0.0.1:8081/logout\"
logout_session = true
[[client]]
id = \"news-client\"
secret = \"news-secret-news-secret-news-secret\"
redirect_uris = [\"http://127.0.0.1:8082/cb\"]
response_types = [\"id_token token\"]
consent = \"given\"
logout_uri = \"http://127.0.0.1:8082/logout\"
[[client]]
id = \"mail-client\"
secret = \"mail-secret-mail-secret-mail-secret\"
redirect_uris = [\"http://127.0.0.1:8083/cb\"]
response_types = [\"code id_token\"]
consent = \"given\"
"
}

#[tactic(auto, unfolding(crate::specs::Config::parties_text))]
fn parties() -> &'static str
    ensures { result.now ≡ spec.parties_text }
{
    "[[party]]
name = \"shop\"
client = \"shop-client\"
redirect_uri = \"http://127.0.0.1:8081/cb\"
listen = \"127.0.0.1:8081\"
scope = \"openid profile\"
[[party]]
name = \"news\"
client = \"news-client\"
redirect_uri = \"http://127.0.0.1:8082/cb\"
listen = \"127.0.0.1:8082\"
response_type = \"id_token token\"
[[party]]
name = \"mail\"
client = \"mail-client\"
redirect_uri = \"http://127.0.0.1:8083/cb\"
listen = \"127.0.0.1:8083\"
response_type = \"code id_token\"
scope = \"openid email\"
userinfo = true
signed = true
"
}

/// The configuration of every storm: two users, and three clients, each of which is a party and has the users' consent. It
/// equals `examples/sample.toml`, except that the client of the party `shop` does not prompt the users for consent.
#[tactic(auto, unfolding(crate::specs::Config::config_text))]
pub fn storm_config(alloc: Global) -> Result<Blob, NoMemory>
    ensures { IfOk result (λ b. b ≡ config_text) }
{
    let mut text = String::from_str(alloc, provider())?;
    text.push_str(users())?;
    text.push_str(clients())?;
    text.push_str(parties())?;
    Ok(Blob::from_vec(text.into_bytes()))
}
