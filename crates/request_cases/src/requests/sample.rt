// The configuration of the cases, and named texts.

use sample_configuration::{
    ALICE, ANY_CLIENT, MAIL_CLIENT, NEWS_CLIENT, OLD_SEALS, PROVIDER, SHOP_CLIENT,
    in_second_version, with_old_secret,
};
use sso_base::NoMemory;
use std::alloc::Global;

const NEWS_LINES: &str = "response_types = [\"id_token token\"]
consent = \"given\"
";

// One user and four clients.
fn one_secret_each(alloc: Global) -> Result<String, NoMemory> {
    Ok([
        PROVIDER,
        ALICE,
        SHOP_CLIENT,
        NEWS_CLIENT,
        NEWS_LINES,
        MAIL_CLIENT,
        ANY_CLIENT,
    ]
    .concat(alloc)?)
}

/// One user and four clients. The second requires no consent and has one response type, and the last has every response type.
/// `mail-client` and `shop-client` have an old secret too, which only `shop-client` seals with.
pub fn sample(alloc: Global) -> Result<String, NoMemory> {
    let file = one_secret_each(alloc)?;
    let first = with_old_secret(alloc, file.as_str(), "mail", "")?;
    let both = with_old_secret(alloc, first.as_str(), "shop", OLD_SEALS)?;
    in_second_version(alloc, both.as_str())
}

/// The text with this name.
pub fn text(name: &str) -> Option<&'static str> {
    match name {
        "beside" => Some("client_id=a&response_type=code"),
        "news" => Some(
            "client_id=news-client&redirect_uri=http://127.0.0.1:8082/cb&response_type=id_token token",
        ),
        "any" => Some(
            "client_id=any-client&redirect_uri=https://a.b/2&nonce=n1&max_age=0300&prompt=consent",
        ),
        _ => None,
    }
}
