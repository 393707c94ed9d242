// Sealing: writing the compact serialization (RFC 7515, 7.1).

ghost use Rattle.std.specs.Prelude.{◌≡◌, ◌++◌, ◌∷◌, ◌≤◌, [], length, IfOk, OnOk, string_bytes};
ghost use Rattle.sso_base.specs.Base64Url.{b64u};
ghost use Rattle.jws_compact.specs.Jws.{signing_input, compact_form, Sealed, header_bytes, seal_text};

use base64::engine::general_purpose::URL_SAFE_NO_PAD;
use sso_base::{NoMemory, Text};
use std::alloc::Global;

/// The kind of a sealed text, named by its header's `typ` (RFC 7515, 4.1.9).
#[derive(Clone, Copy, PartialEq, Eq)]
pub enum Typ {
    /// A JSON Web Token, `JWT` (RFC 7519, 5.1).
    Jwt,
    /// A logout token, `logout+jwt` (OpenID Connect Back-Channel Logout, 2.4).
    LogoutJwt,
}

// The header that is written for a kind.
#[tactic(auto, unfolding(crate::specs::Jws::header_bytes))]
fn header_text(typ: Typ) -> &'static [u8]
    ensures { result.now ≡ header_bytes typ }
{
    match typ {
        Typ::Jwt => b"{\"alg\":\"HS256\",\"typ\":\"JWT\"}",
        Typ::LogoutJwt => b"{\"alg\":\"HS256\",\"typ\":\"logout+jwt\"}",
    }
}

// Appends the base64url encoding of bytes to a text.
#[tactic(auto, unfolding(sso_base::specs::Base64Url::b64u))]
fn push_spelled(text: &mut String, bytes: &[u8]) -> Result<(), NoMemory>
    ensures { OnOk result (string_bytes text.new ≡ string_bytes text.old ++ b64u bytes.now) }
{
    URL_SAFE_NO_PAD.encode_string(bytes, text)?;
    Ok(())
}

// Appends a dot to a text.
fn push_dot(text: &mut String) -> Result<(), NoMemory>
    ensures { OnOk result (string_bytes text.new ≡ string_bytes text.old ++ 46 ∷ []) }
{
    text.push_str(".")?;
    Ok(())
}

// The signing input: the header and the payload, encoded, with a dot between them.
fn signed_text(alloc: Global, header: &[u8], payload: &[u8]) -> Result<String, NoMemory>
    ensures { IfOk result (λ s. string_bytes s ≡ signing_input header.now payload.now) }
{
    let mut signed = String::new(alloc);
    push_spelled(&mut signed, header)?;
    push_dot(&mut signed)?;
    push_spelled(&mut signed, payload)?;
    Ok(signed)
}

// The compact serialization of a header and a payload.
fn compact_text(
    alloc: Global,
    key: &[u8],
    header: &[u8],
    payload: &[u8],
) -> Result<String, NoMemory>
    ensures { IfOk result (λ s. string_bytes s ≡ compact_form key.now header.now payload.now) }
{
    let mut text = signed_text(alloc, header, payload)?;
    let mac = hmac256::mac(key, text.as_bytes());
    push_dot(&mut text)?;
    push_spelled(&mut text, &mac)?;
    Ok(text)
}

/// The sealed text of `payload` under `key`. Its header is `{"alg":"HS256","typ":"JWT"}` or
/// `{"alg":"HS256","typ":"logout+jwt"}` (RFC 7515, 7.1; RFC 7518, 3.2).
///
/// The key has any length. The payload is any bytes, at most 6,000 of them.
pub fn seal(alloc: Global, key: &[u8], typ: Typ, payload: &[u8]) -> Result<Text, NoMemory>
    requires { length payload.now ≤ 6000 }
    ensures text { IfOk result (λ t. t ≡ seal_text key.now typ payload.now) }
    ensures sealed { IfOk result (λ t. Sealed key.now (header_bytes typ) payload.now t) }
{
    let text = compact_text(alloc, key, header_text(typ), payload)?;
    Ok(Text::from_string(text))
}
