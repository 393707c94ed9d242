// The secret of a client under which a text is opened.

ghost use Rattle.std.specs.Prelude.{◌≡◌, IfOk};
ghost use Rattle.client_keys.specs.Opening as spec;

use client_registry::Client;
use jws_compact::{JwsNo, unseal};
use sso_base::{NoMemory, Text};
use std::alloc::Global;

// Whether a text has a wrong MAC under the key, and no other error before that.
fn has_bad_mac(alloc: Global, key: &Text, text: &[u8]) -> Result<bool, NoMemory>
    ensures { IfOk result (λ b. b ≡ spec.has_bad_mac key.now text.now) }
{
    match unseal(alloc, key.as_str().as_bytes(), text) {
        Ok(_) => Ok(false),
        Err(JwsNo::BadMac) => Ok(true),
        Err(JwsNo::NoMemory) => Err(NoMemory),
        Err(_) => Ok(false),
    }
}

/// The secret under which a text of the client is opened: its secret, or its old secret if it has one and only the MAC of the
/// text is wrong under the secret. So a text is opened if it is sealed under either secret, and its MAC is wrong if and only if
/// it is wrong under both.
#[tactic(auto, unfolding(crate::specs::Opening::opening))]
pub fn opening_key<'a>(alloc: Global, client: &'a Client, text: &[u8]) -> Result<&'a Text, NoMemory>
    ensures { IfOk result (λ key. key.now ≡ spec.opening client.now text.now) }
{
    let Some(old) = &client.old_secret else {
        return Ok(&client.secret);
    };
    if has_bad_mac(alloc, &client.secret, text)? {
        Ok(old)
    } else {
        Ok(&client.secret)
    }
}
