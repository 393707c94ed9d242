// The relying parties of the table `party` and their provider.

use sample_configuration::{
    ALICE, ALICES_CLAIMS, BOB, MAIL_CLIENT, MAIL_PARTY, NEWS_CLIENT, NEWS_PARTY, OLD_SEALS,
    PROVIDER, SHOP_CLIENT, SHOP_PARTY, with_full_pages, with_two_secrets,
};
use sso_base::NoMemory;
use std::alloc::Global;

/// The issuer of the cases.
pub const LOCAL: &str = "http://127.0.0.1:8080";

/// Another issuer.
pub const ELSEWHERE: &str = "https://op.example";

/// The authorization endpoint at the other issuer, which has a query.
pub const ELSEWHERE_AUTHORIZE: &str = "https://op.example/authorize?tenant=1";

// The lines after the rows that are shared with other tables.
const SHOP_LINES: &str = "logout_uri = \"http://127.0.0.1:8081/logout\"
logout_session = true
";

const NEWS_LINES: &str = "response_types = [\"id_token token\"]
logout_uri = \"http://127.0.0.1:8082/logout\"
";

const MAIL_LINES: &str = "response_types = [\"code id_token\"]
subject = \"pairwise\"
logout_uri = \"http://127.0.0.1:8083/logout\"
logout_session = true
";

const SHOP_PARTY_LINES: &str = "scope = \"openid profile\"\n";

const NEWS_PARTY_LINES: &str = "response_type = \"id_token token\"\n";

const MAIL_PARTY_LINES: &str = "response_type = \"code id_token\"
scope = \"openid email\"
userinfo = true
signed = true
";

// More clients, and the party of each.
const CLIENTS: &str = r#"[[client]]
id = "wiki-client"
secret = "wiki-secret-wiki-secret-wiki-secret"
redirect_uris = ["http://127.0.0.1:8085/cb"]
response_types = ["code id_token token"]
consent = "given"
[[client]]
id = "bank-client"
secret = "bank-secret-bank-secret-bank-secret"
redirect_uris = ["http://127.0.0.1:8084/cb?a=1&b"]
[[client]]
id = "blog-client"
secret = "blog-secret-blog-secret-blog-secret"
redirect_uris = ["http://127.0.0.1:8086/cb"]
response_types = ["id_token"]
consent = "given"
[[client]]
id = "chat-client"
secret = "chat-secret-chat-secret-chat-secret"
redirect_uris = ["http://127.0.0.1:8087/cb"]
response_types = ["code token"]
consent = "given"
[[client]]
id = "feed-client"
secret = "feed-secret-feed-secret-feed-secret"
redirect_uris = ["http://127.0.0.1:8088/cb?a=1"]
response_types = ["id_token token"]
consent = "given"
[[client]]
id = "desk-client"
secret = "desk-secret-desk-secret-desk-secret"
redirect_uris = ["http://127.0.0.1:8089/cb"]
"#;

const PARTIES: &str = r#"[[party]]
name = "bank"
client = "bank-client"
redirect_uri = "http://127.0.0.1:8084/cb?a=1&b"
listen = "127.0.0.1:8084"
scope = "openid address"
prompt = "login consent"
max_age = 999999999
signed = true
[[party]]
name = "wiki"
client = "wiki-client"
redirect_uri = "http://127.0.0.1:8085/cb"
listen = "127.0.0.1:8085"
response_type = "code id_token token"
scope = "email openid"
userinfo = true
[[party]]
name = "blog"
client = "blog-client"
redirect_uri = "http://127.0.0.1:8086/cb"
listen = "127.0.0.1:8086"
response_type = "id_token"
scope = "openid profile email"
userinfo = true
[[party]]
name = "chat"
client = "chat-client"
redirect_uri = "http://127.0.0.1:8087/cb"
listen = "127.0.0.1:8087"
response_type = "code token"
userinfo = true
[[party]]
name = "feed"
client = "feed-client"
redirect_uri = "http://127.0.0.1:8088/cb?a=1"
listen = "127.0.0.1:8088"
response_type = "id_token token"
scope = "openid profile"
userinfo = true
[[party]]
name = "desk"
client = "desk-client"
redirect_uri = "http://127.0.0.1:8089/cb"
listen = "127.0.0.1:8089"
prompt = "none"
max_age = 0
"#;

// The head, and the users alice, who has claims, and bob, with the password `password`.
fn provider(alloc: Global, issuer: &str) -> Result<String, NoMemory> {
    let provider = PROVIDER.replacen(alloc, LOCAL, issuer, 1)?;
    Ok([provider.as_str(), ALICE, ALICES_CLAIMS, BOB].concat(alloc)?)
}

/// The configuration whose provider has this issuer. Its parties:
///
/// | Party | Response type | Details |
/// |---|---|---|
/// | `shop` | `code` | has a logout URI, receives the `sid` |
/// | `news` | `id_token token` | has a logout URI |
/// | `mail` | `code id_token` | has pairwise subjects and a logout URI, receives the `sid`, requests UserInfo, signs its requests |
/// | `bank` | `code` | requests a login and consent, signs its requests, has a redirect URI with a query |
/// | `wiki` | `code id_token token` | requests UserInfo |
/// | `blog` | `id_token` | would request UserInfo, but has no access token |
/// | `chat` | `code token` | requests UserInfo |
/// | `feed` | `id_token token` | requests UserInfo, has a redirect URI with a query |
/// | `desk` | `code` | requests that no page is shown |
pub fn configuration(alloc: Global, issuer: &str) -> Result<String, NoMemory> {
    let provider = provider(alloc, issuer)?;
    let clients = [
        SHOP_CLIENT,
        SHOP_LINES,
        NEWS_CLIENT,
        NEWS_LINES,
        CLIENTS,
        MAIL_CLIENT,
        MAIL_LINES,
    ]
    .concat(alloc)?;
    let parties = [
        SHOP_PARTY,
        SHOP_PARTY_LINES,
        NEWS_PARTY,
        NEWS_PARTY_LINES,
        MAIL_PARTY,
        MAIL_PARTY_LINES,
        PARTIES,
    ]
    .concat(alloc)?;
    Ok([provider.as_str(), clients.as_str(), parties.as_str()].concat(alloc)?)
}

/// The configuration of the cases in which the clients of `shop`, `news` and `mail` have an old secret too. They seal with it if
/// `secrets` is `old seals`.
pub fn configuration_with(alloc: Global, secrets: &str) -> Result<String, NoMemory> {
    let lines = if secrets == "old seals" {
        OLD_SEALS
    } else {
        ""
    };
    let file = configuration(alloc, LOCAL)?;
    with_two_secrets(alloc, file.as_str(), lines)
}

/// The configuration of the cases with full pages.
pub fn configuration_with_pages(alloc: Global) -> Result<String, NoMemory> {
    let file = configuration(alloc, LOCAL)?;
    with_full_pages(alloc, file.as_str())
}
