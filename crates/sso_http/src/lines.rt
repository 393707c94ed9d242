// Writes lines of a head.

ghost use Rattle.std.specs.Prelude.{◌≡◌, ◌++◌, map, decimal, string_bytes, IfOk, OnOk};
ghost use Rattle.std.specs.List.{concat};
ghost use Rattle.sso_http.specs.Writing as spec;

use sso_base::{Blob, NoMemory, Text};
use std::alloc::Global;

/// Writes pieces one after another.
pub(crate) fn put_all(out: &mut String, pieces: &[&str]) -> Result<(), NoMemory>
    ensures { OnOk result (string_bytes out.new ≡ string_bytes out.old ++ concat (map (λ p. p.now) pieces.now)) }
{
    for piece in pieces {
        out.push_str(piece)?;
    }
    Ok(())
}

/// Writes a field.
#[tactic(auto, unfolding(crate::specs::Writing::field))]
pub(crate) fn put_field(out: &mut String, name: &str, value: &str) -> Result<(), NoMemory>
    ensures { OnOk result (string_bytes out.new ≡ string_bytes out.old ++ spec.field name.now value.now) }
{
    put_all(out, &[name, ": ", value, "\r\n"])
}

/// Writes a field, if it has a value.
pub(crate) fn put_field_if(
    out: &mut String,
    name: &str,
    value: &Option<Text>,
) -> Result<(), NoMemory>
    ensures { OnOk result (string_bytes out.new ≡ string_bytes out.old ++ spec.field_if name.now value.now) }
{
    match value {
        Some(value) => put_field(out, name, value.as_str()),
        None => Ok(()),
    }
}

/// Writes the last field of a head, and the empty line after it.
#[tactic(auto, unfolding(crate::specs::Writing::last_lines))]
pub(crate) fn put_last(out: &mut String) -> Result<(), NoMemory>
    ensures { OnOk result (string_bytes out.new ≡ string_bytes out.old ++ spec.last_lines) }
{
    put_all(out, &["Connection: close", "\r\n", "\r\n"])
}

/// Writes that the reply must not be stored.
#[tactic(auto, unfolding(crate::specs::Writing::no_store))]
pub(crate) fn put_no_store(out: &mut String) -> Result<(), NoMemory>
    ensures { OnOk result (string_bytes out.new ≡ string_bytes out.old ++ spec.no_store) }
{
    put_field(out, "Cache-Control", "no-store")
}

/// Writes the media type of a form.
#[tactic(auto, unfolding(crate::specs::Writing::form_type))]
pub(crate) fn put_form_type(out: &mut String) -> Result<(), NoMemory>
    ensures { OnOk result (string_bytes out.new ≡ string_bytes out.old ++ spec.form_type) }
{
    put_field(out, "Content-Type", "application/x-www-form-urlencoded")
}

/// Writes a field whose value is a number.
pub(crate) fn put_number(
    alloc: Global,
    out: &mut String,
    name: &str,
    number: usize,
) -> Result<(), NoMemory>
    ensures { OnOk result (string_bytes out.new ≡ string_bytes out.old ++ spec.field name.now (decimal number)) }
{
    let text = number.to_string(alloc)?;
    put_field(out, name, &text)
}

/// A head and a body.
pub(crate) fn with_body(alloc: Global, head: &str, body: &[u8]) -> Result<Blob, NoMemory>
    ensures { IfOk result (λ b. b ≡ head.now ++ body.now) }
{
    let mut bytes = Vec::from_slice(alloc, head.as_bytes())?;
    bytes.extend_from_slice(body)?;
    Ok(Blob::from_vec(bytes))
}
