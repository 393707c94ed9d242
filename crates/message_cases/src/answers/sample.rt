// The clients and users of the cases, and named texts.

use sample_configuration::{
    ALICE, ALICES_CLAIMS, BOB, ESCAPED_CLIENT, NEWS_CLIENT, OLD_SEALS, PROVIDER, SHOP_CLIENT,
    in_second_version, with_old_secret,
};
use sso_base::NoMemory;
use std::alloc::Global;

const MORE_CLAIMS: &str = "email_verified = true
updated_at = 1000
phone_number = \"+1 555\"
[user.claims.address]
country = \"Utopia\"
";

// Three clients and two users.
fn one_secret_each(alloc: Global) -> Result<String, NoMemory> {
    let users = [PROVIDER, ALICE, ALICES_CLAIMS, MORE_CLAIMS, BOB].concat(alloc)?;
    let clients = [
        SHOP_CLIENT,
        "subject = \"pairwise\"\n",
        ESCAPED_CLIENT,
        NEWS_CLIENT,
    ]
    .concat(alloc)?;
    Ok([users.as_str(), clients.as_str()].concat(alloc)?)
}

/// Three clients and two users. The first client is pairwise, and forms write the second's id and secret with escapes. The first
/// and the third have an old secret too, which only the third seals with. One user holds claims of each kind.
pub fn sample(alloc: Global) -> Result<String, NoMemory> {
    let file = one_secret_each(alloc)?;
    let first = with_old_secret(alloc, file.as_str(), "shop", "")?;
    let both = with_old_secret(alloc, first.as_str(), "news", OLD_SEALS)?;
    in_second_version(alloc, both.as_str())
}

/// The text with this name:
///
/// - the credentials of clients by HTTP Basic, with the old secret too, computed with Python's urllib and base64;
/// - those of the first client by parameters, with either secret, and the rest of a good token request;
/// - a word of 32 equal bytes, in hex, with its text by Python's base64.
pub fn text(name: &str) -> Option<&'static str> {
    match name {
        "shop" => Some("Basic c2hvcC1jbGllbnQ6c2hvcC1zZWNyZXQtc2hvcC1zZWNyZXQtc2hvcC1zZWNyZXQ="),
        "shop's old" => Some(
            "Basic c2hvcC1jbGllbnQ6c2hvcC1vbGRpZXMtc2hvcC1vbGRpZXMtc2hvcC1vbGRpZXM=",
        ),
        "escaped" => Some(
            "Basic YSU3RWI6eCUzQXklMjV6JTJCJTI2JTNEJTJGJTNGJTIzJTVCJTVEJTQwJTIxJTI0JTI4JTI5KiUyQyUzQiUzQyUzRSU3RXNlY3JldHNlY3JldA==",
        ),
        "posted" => Some("client_id=shop-client&client_secret=shop-secret-shop-secret-shop-secret"),
        "posted old" => Some(
            "client_id=shop-client&client_secret=shop-oldies-shop-oldies-shop-oldies",
        ),
        "code" => Some("grant_type=authorization_code&code=c&redirect_uri=u"),
        "zeros" => Some("0000000000000000000000000000000000000000000000000000000000000000"),
        "ones" => Some("0101010101010101010101010101010101010101010101010101010101010101"),
        "ffs" => Some("ffffffffffffffffffffffffffffffffffffffffffffffffffffffffffffffff"),
        "state" => Some("AgICAgICAgICAgICAgICAgICAgICAgICAgICAgICAgI"),
        _ => None,
    }
}
