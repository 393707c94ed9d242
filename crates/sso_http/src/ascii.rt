// Values in ASCII as texts.

ghost use Rattle.std.specs.Prelude.{◌≡◌, true, map, option_and_then, IfOk};
ghost use Rattle.sso_base.specs.Texts as texts;
ghost use Rattle.sso_http.specs.Ascii as spec;
ghost use Rattle.sso_http.specs.Fields.{first_of};

use crate::fields::first;
use sso_base::{NoMemory, Text};
use std::alloc::Global;

// Whether each byte is ASCII.
fn is_ascii(value: &[u8]) -> bool
    ensures { result ≡ texts.is_ascii value.now }
{
    value.iter().all(|&b| b < 128)
}

/// The text of bytes that are ASCII.
pub(crate) fn ascii_text(bytes: &[u8]) -> &str
    requires { texts.is_ascii bytes.now ≡ true }
    ensures { result.now ≡ bytes.now }
{
    std::str::from_utf8(bytes).unwrap()
}

// The text of a value, if it is ASCII.
fn text_if_ascii(alloc: Global, value: &[u8]) -> Result<Option<Text>, NoMemory>
    ensures { IfOk result (λ t. t ≡ spec.if_ascii value.now) }
{
    if !is_ascii(value) {
        return Ok(None);
    }
    Ok(Some(Text::new(alloc, ascii_text(value))?))
}

/// The credentials of a request (RFC 9110, 11.6.2), from the values of its `Authorization` fields: the first value, if it is
/// ASCII.
pub(crate) fn credentials(alloc: Global, values: &[&[u8]]) -> Result<Option<Text>, NoMemory>
    ensures { IfOk result (λ t. t ≡ option_and_then spec.if_ascii (first_of (map (λ v. v.now) values.now))) }
{
    match first(values) {
        Some(value) => text_if_ascii(alloc, value),
        None => Ok(None),
    }
}
