// Writing cookies.

ghost use Rattle.std.specs.Prelude.{◌≡◌, IfOk};
ghost use Rattle.http_reply.specs.Cookies as spec;

use crate::joining::concatenated;
use sso_base::{NoMemory, Text, Word};
use std::alloc::Global;

fn secure_mark(secure: bool) -> &'static str
    ensures { result.now ≡ spec.secure_mark secure }
{
    if secure { "; Secure" } else { "" }
}

// A cookie of this name and value.
fn cookie_text(alloc: Global, name: &str, value: &str, mark: &str) -> Result<Text, NoMemory>
    ensures { IfOk result (λ t. t ≡ spec.cookie_text name.now value.now mark.now) }
{
    let pieces = [name, "=", value, "; Path=/; HttpOnly; SameSite=Lax", mark];
    Ok(Text::from_string(pieces.concat(alloc)?))
}

/// The name under which a cookie is set and read: this one, behind the prefix `__Host-` if `host`. A user agent takes a cookie with
/// that prefix only from the host itself, over https, so no other host of the same site can set one (RFC 6265bis, 4.1.3.2).
pub fn cookie_name(alloc: Global, host: bool, name: &str) -> Result<Text, NoMemory>
    ensures { IfOk result (λ t. t ≡ spec.cookie_name host name.now) }
{
    if host {
        concatenated(alloc, "__Host-", name)
    } else {
        Text::new(alloc, name)
    }
}

/// The value of a `Set-Cookie` field (RFC 6265, 4.1.1) that sets a cookie of this name to the word's text, 43 characters of
/// base64url: `NAME=WORD; Path=/; HttpOnly; SameSite=Lax`, and `; Secure` if `secure`. The user agent returns the cookie for
/// every path, hides it from scripts, and omits it from cross-site POSTs. If `secure`, it is sent over https only.
///
/// The name is written unchanged. A user agent reads the same name if it is a token (RFC 6265, 4.1.1).
pub fn cookie(alloc: Global, secure: bool, name: &str, word: &Word) -> Result<Text, NoMemory>
    ensures { IfOk result (λ t. t ≡ spec.cookie secure name.now word.now) }
{
    let value = word.to_text(alloc)?;
    cookie_text(alloc, name, value.as_str(), secure_mark(secure))
}
