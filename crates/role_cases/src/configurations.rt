// The configurations of the table `provider`, by the names in its call `provider`.

use sample_configuration::{
    ALICE, ALICES_CLAIMS, BOB, MAIL_CLIENT, NEWS_CLIENT, OLD_SEALS, PROVIDER, SHOP_CLIENT,
    with_full_pages, with_old_secrets, with_two_secrets,
};
use sso_base::NoMemory;
use std::alloc::Global;

const SHOP_LINES: &str = "consent = \"ask\"
logout_uri = \"http://127.0.0.1:8081/logout\"
";

const NEWS_LINES: &str = "response_types = [\"code\", \"id_token token\"]
subject = \"pairwise\"
consent = \"given\"
";

const MAIL_LINES: &str =
    "response_types = [\"code\", \"id_token\", \"id_token token\", \"code id_token\", \"code token\", \"code id_token token\"]
subject = \"pairwise\"
consent = \"given\"
logout_uri = \"http://127.0.0.1:8083/logout\"
logout_session = true
";

// A client whose redirect URI has a query.
const WIKI_CLIENT: &str = "[[client]]
id = \"wiki-client\"
secret = \"wiki-secret-wiki-secret-wiki-secret\"
redirect_uris = [\"http://127.0.0.1:8085/cb?x\"]
response_types = [\"code\", \"id_token token\"]
consent = \"given\"
";

// Two users with the password `password`, of whom the first has claims. The first client requires consent and has a logout URI.
// The second has all response types and a logout URI, and receives the `sid`. The third also has the response type `id_token
// token`. The second and the third have pairwise subjects.
fn shop(alloc: Global) -> Result<String, NoMemory> {
    let users = [
        PROVIDER,
        ALICE,
        ALICES_CLAIMS,
        "phone_number = \"+1 555\"\n",
        BOB,
    ]
    .concat(alloc)?;
    let clients = [
        SHOP_CLIENT,
        SHOP_LINES,
        MAIL_CLIENT,
        MAIL_LINES,
        NEWS_CLIENT,
        NEWS_LINES,
    ]
    .concat(alloc)?;
    Ok([users.as_str(), clients.as_str()].concat(alloc)?)
}

// The same clients, each with an old secret too and with these lines after it.
fn two_secrets(alloc: Global, lines: &str) -> Result<String, NoMemory> {
    let file = shop(alloc)?;
    with_two_secrets(alloc, file.as_str(), lines)
}

// The same in the first version, which ignores the keys.
fn ignored_secrets(alloc: Global) -> Result<String, NoMemory> {
    let file = shop(alloc)?;
    with_old_secrets(alloc, file.as_str(), OLD_SEALS)
}

// The same with full pages.
fn full_pages(alloc: Global) -> Result<String, NoMemory> {
    let file = shop(alloc)?;
    with_full_pages(alloc, file.as_str())
}

// The head of a configuration whose provider has this issuer.
fn provider_at(alloc: Global, issuer: &str) -> Result<String, NoMemory> {
    Ok(PROVIDER.replacen(alloc, "http://127.0.0.1:8080", issuer, 1)?)
}

// One user with the password `password`, and one client. The provider's paths are below `/op`.
fn below_a_path(alloc: Global) -> Result<String, NoMemory> {
    let provider = provider_at(alloc, "http://127.0.0.1:8080/op")?;
    Ok([
        provider.as_str(),
        ALICE,
        SHOP_CLIENT,
        "consent = \"given\"\n",
    ]
    .concat(alloc)?)
}

// One user with the password `password`, and two clients, of which the first requires consent. The provider's paths are below
// `/sso`.
fn https(alloc: Global) -> Result<String, NoMemory> {
    let provider = provider_at(alloc, "https://op.example/sso/")?;
    let rows = [ALICE, SHOP_CLIENT, "consent = \"ask\"\n", WIKI_CLIENT].concat(alloc)?;
    Ok([provider.as_str(), rows.as_str()].concat(alloc)?)
}

/// The configuration with this name, or an empty one if there is none.
pub fn configuration(alloc: Global, name: &str) -> Result<String, NoMemory> {
    match name {
        "shop" => shop(alloc),
        "two secrets" => two_secrets(alloc, ""),
        "old seals" => two_secrets(alloc, OLD_SEALS),
        "first version" => ignored_secrets(alloc),
        "full pages" => full_pages(alloc),
        "below a path" => below_a_path(alloc),
        "https" => https(alloc),
        _ => Ok(String::new(alloc)),
    }
}
