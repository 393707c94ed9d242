// The configuration that the tables of cases over the whole program share.

use crate::rows::{
    ALICE, ALICES_CLAIMS, BOB, MAIL_CLIENT, MAIL_PARTY, NEWS_CLIENT, NEWS_PARTY, PROVIDER,
    SHOP_CLIENT, SHOP_PARTY,
};
use sso_base::NoMemory;
use std::alloc::Global;

const SHOP_LINES: &str = "logout_uri = \"http://127.0.0.1:8081/logout\"
logout_session = true
";

const NEWS_LINES: &str = "response_types = [\"id_token token\"]
consent = \"given\"
logout_uri = \"http://127.0.0.1:8082/logout\"
";

const NEWS_PARTY_LINES: &str = "response_type = \"id_token token\"\n";

const MAIL_LINES: &str = "response_types = [\"code id_token\"]
consent = \"given\"
";

const MAIL_PARTY_LINES: &str = "response_type = \"code id_token\"
scope = \"openid email\"
userinfo = true
signed = true
";

// The provider and its two users.
fn users(alloc: Global) -> Result<String, NoMemory> {
    Ok([
        PROVIDER,
        ALICE,
        ALICES_CLAIMS,
        "email_verified = true\n",
        BOB,
    ]
    .concat(alloc)?)
}

/// Two users, and three clients, each of which is a party: the configuration of `examples/sample.toml`.
pub fn sample(alloc: Global) -> Result<String, NoMemory> {
    let users = users(alloc)?;
    let clients = [
        SHOP_CLIENT,
        SHOP_LINES,
        NEWS_CLIENT,
        NEWS_LINES,
        MAIL_CLIENT,
        MAIL_LINES,
    ]
    .concat(alloc)?;
    let parties = [
        SHOP_PARTY,
        "scope = \"openid profile\"\n",
        NEWS_PARTY,
        NEWS_PARTY_LINES,
        MAIL_PARTY,
        MAIL_PARTY_LINES,
    ]
    .concat(alloc)?;
    Ok([users.as_str(), clients.as_str(), parties.as_str()].concat(alloc)?)
}

/// The same without the clients and parties `shop` and `mail`.
pub fn news_alone(alloc: Global) -> Result<String, NoMemory> {
    let users = users(alloc)?;
    Ok([
        users.as_str(),
        NEWS_CLIENT,
        NEWS_LINES,
        NEWS_PARTY,
        NEWS_PARTY_LINES,
    ]
    .concat(alloc)?)
}
