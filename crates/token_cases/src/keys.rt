// The secret of a client under which a text is opened.

use crate::sealed::told_unsealed;
use case_lines::given_text;
use client_keys::opening_key;
use client_registry::Client;
use jws_compact::unseal;
use registered_url::WebUrls;
use sso_base::{NoMemory, Text, Texts};
use std::alloc::Global;

/// The answer of a call of this module; none if the call is another module's.
pub fn answer(alloc: Global, fields: &[&str]) -> Option<Result<String, NoMemory>> {
    match fields {
        ["open", secret, old, text] => Some(open_text(alloc, secret, old, text)),
        _ => None,
    }
}

/// The client `c` with this secret and this old secret; `-` is none.
pub fn client_with(alloc: Global, secret: &str, old: &str) -> Result<Client, NoMemory> {
    Ok(Client {
        id: Text::new(alloc, "c")?,
        secret: Text::new(alloc, secret)?,
        old_secret: given_text(alloc, old)?,
        seals_old: false,
        redirects: Texts::new(alloc),
        types: [true, false, false, false, false, false],
        pairwise: false,
        asks_consent: false,
        logout: None,
        logout_session: false,
        redirect_urls: WebUrls::new(alloc),
        logout_url: None,
        title: Text::new(alloc, "c")?,
    })
}

fn opened(alloc: Global, client: &Client, text: &[u8]) -> Result<String, NoMemory> {
    let key = opening_key(alloc, client, text)?;
    let answer = unseal(alloc, key.as_str().as_bytes(), text);
    let contents = told_unsealed(alloc, &answer)?;
    Ok(format!(in alloc; "under {}: {contents}", key.as_str())?)
}

// `open|SECRET|OLD|TEXT`: the secret under which a text of the client is opened, and its contents, or why it is refused.
fn open_text(alloc: Global, secret: &str, old: &str, text: &str) -> Result<String, NoMemory> {
    let client = client_with(alloc, secret, old)?;
    opened(alloc, &client, text.as_bytes())
}
