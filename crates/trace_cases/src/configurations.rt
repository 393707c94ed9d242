// The configurations of the cases.

use client_registry::{Registry, read_registry};
use sample_configuration::{
    ALICE, ALICES_CLAIMS, ANY_CLIENT, BOB, MAIL_CLIENT, MAIL_PARTY, NEWS_CLIENT, NEWS_PARTY,
    OLD_SEALS, PROVIDER, SHOP_CLIENT, SHOP_PARTY, news_alone, sample, with_full_pages,
    with_old_secrets, with_two_secrets,
};
use sso_base::NoMemory;
use std::alloc::Global;

const WIDE_PROVIDER: &str = r#"version = 1
[provider]
issuer = "https://op.example/a"
listen = "127.0.0.1:8080"
salt = "00112233445566778899aabbccddeeff"
"#;

const WIDE_SHOP: &str = r#"[[client]]
id = "shop-client"
secret = "shop-secret-shop-secret-shop-secret"
redirect_uris = ["https://shop.example/cb?a=1&b", "https://shop.example/other"]
subject = "pairwise"
logout_uri = "https://shop.example/logout?c=2"
logout_session = true
[[party]]
name = "shop"
client = "shop-client"
redirect_uri = "https://shop.example/cb?a=1&b"
listen = "127.0.0.1:8081"
scope = "openid address"
"#;

const WIDE_ANY_LINES: &str = r#"consent = "given"
logout_uri = "https://a.b/logout"
"#;

const WIDE_NEWS: &str = r#"[[client]]
id = "news-client"
secret = "news-secret-news-secret-news-secret"
redirect_uris = ["https://news.example/cb"]
response_types = ["id_token token"]
consent = "given"
logout_uri = "https://news.example/logout"
[[party]]
name = "news"
client = "news-client"
redirect_uri = "https://news.example/cb"
listen = "127.0.0.1:8082"
response_type = "id_token token"
max_age = 60
"#;

const WIDE_MAIL: &str = r#"[[client]]
id = "mail-client"
secret = "mail-secret-mail-secret-mail-secret"
redirect_uris = ["https://mail.example/cb"]
response_types = ["code id_token token"]
consent = "given"
[[party]]
name = "mail"
client = "mail-client"
redirect_uri = "https://mail.example/cb"
listen = "127.0.0.1:8083"
response_type = "code id_token token"
scope = "openid email"
prompt = "login"
userinfo = true
signed = true
"#;

// The line of the logout URI of `news`, and the same with a line after which logout tokens for `news` have a `sid`.
const NEWS_LOGOUT: &str = "logout_uri = \"http://127.0.0.1:8082/logout\"\n";

const NEWS_LOGOUT_OF_SESSIONS: &str = "logout_uri = \"http://127.0.0.1:8082/logout\"
logout_session = true
";

fn wide(alloc: Global) -> Result<String, NoMemory> {
    Ok([
        WIDE_PROVIDER,
        ALICE,
        ALICES_CLAIMS,
        BOB,
        WIDE_SHOP,
        ANY_CLIENT,
        WIDE_ANY_LINES,
        WIDE_NEWS,
        WIDE_MAIL,
    ]
    .concat(alloc)?)
}

// The sample with this response type at `mail`.
fn sample_with(alloc: Global, response_type: &str) -> Result<String, NoMemory> {
    Ok(sample(alloc)?.replace(alloc, "code id_token", response_type)?)
}

// The sample with an old secret for each client, and these lines after it.
fn two_secrets(alloc: Global, lines: &str) -> Result<String, NoMemory> {
    let file = sample(alloc)?;
    with_two_secrets(alloc, file.as_str(), lines)
}

// The same in the first version, which ignores the old secrets.
fn ignored_secrets(alloc: Global) -> Result<String, NoMemory> {
    let file = sample(alloc)?;
    with_old_secrets(alloc, file.as_str(), OLD_SEALS)
}

// The sample in which logout tokens for `news` have a `sid`, as those for `shop` have.
fn two_sids(alloc: Global) -> Result<String, NoMemory> {
    Ok(sample(alloc)?.replace(alloc, NEWS_LOGOUT, NEWS_LOGOUT_OF_SESSIONS)?)
}

/// The registry for which the traces of the table `lines` are read.
pub fn registry(alloc: Global) -> Result<Option<Registry>, NoMemory> {
    let file = [
        PROVIDER,
        SHOP_CLIENT,
        NEWS_CLIENT,
        MAIL_CLIENT,
        SHOP_PARTY,
        NEWS_PARTY,
        MAIL_PARTY,
    ]
    .concat(alloc)?;
    Ok(read_registry(alloc, file.as_bytes()).ok())
}

// The sample with full pages.
fn full_pages(alloc: Global) -> Result<String, NoMemory> {
    let file = sample(alloc)?;
    with_full_pages(alloc, file.as_str())
}

/// The configuration with this name: `sample`, `news`, `wide`, `two secrets`, `old seals`, `first version`, `two sids`,
/// `full pages`, or a response type.
pub fn configuration(alloc: Global, name: &str) -> Result<String, NoMemory> {
    match name {
        "sample" => sample(alloc),
        "news" => news_alone(alloc),
        "wide" => wide(alloc),
        "two secrets" => two_secrets(alloc, ""),
        "old seals" => two_secrets(alloc, OLD_SEALS),
        "first version" => ignored_secrets(alloc),
        "two sids" => two_sids(alloc),
        "full pages" => full_pages(alloc),
        _ => sample_with(alloc, name),
    }
}
