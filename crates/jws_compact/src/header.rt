// Reading a header's object.

ghost use Rattle.std.specs.Prelude.{◌≡◌, List, ℕ, Some, None, IfOk, MatchOption, option_map, codes};
ghost use Rattle.serde_json.specs.View.{view};
ghost use Rattle.jws_compact.specs.Jws.{read_object, text_member, is_hs256, has_crit};
ghost use Rattle.jws_compact.specs.Header.{IsHeaderOf};

use serde_json::Value;
use sso_base::{NoMemory, Text};
use std::alloc::Global;

// The JSON object whose text these bytes are.
#[tactic(auto, unfolding(crate::specs::Jws::read_object))]
fn object_of(alloc: Global, bytes: &[u8]) -> Result<Option<Value>, NoMemory>
    ensures { IfOk result (λ o. option_map view o ≡ read_object bytes.now) }
{
    match Value::from_slice(alloc, bytes) {
        Ok(value) => {
            if value.is_object() {
                Ok(Some(value))
            } else {
                Ok(None)
            }
        }
        Err(error) => {
            if error.is_memory() {
                Err(NoMemory)
            } else {
                Ok(None)
            }
        }
    }
}

// Whether `alg` is the string HS256.
#[tactic(auto, unfolding(crate::specs::Jws::is_hs256))]
fn names_hs256(header: &Value) -> bool
    ensures { result ≡ is_hs256 (view header.now) }
{
    match header.get("alg").and_then(Value::as_str) {
        Some(name) => name == "HS256",
        None => false,
    }
}

#[tactic(auto, unfolding(crate::specs::Jws::has_crit))]
fn is_critical(header: &Value) -> bool
    ensures { result ≡ has_crit (view header.now) }
{
    header.get("crit").is_some()
}

// The header's `typ`, if it is a string.
fn type_of(alloc: Global, header: &Value) -> Result<Option<Text>, NoMemory>
    ensures { IfOk result (λ o. o ≡ text_member (codes "typ") (view header.now)) }
{
    match header.get("typ").and_then(Value::as_str) {
        Some(name) => Ok(Some(Text::new(alloc, name)?)),
        None => Ok(None),
    }
}

// The facts about a header that decide whether it is accepted.
#[derive(Drop)]
pub(crate) struct Header {
    pub(crate) hs256: bool,
    pub(crate) critical: bool,
    pub(crate) typ: Option<Text>,
}

// Reads a header. `None` if the bytes are not the text of a JSON object.
#[tactic(auto, unfolding(crate::specs::Jws::typ_of))]
pub(crate) fn header_of(alloc: Global, bytes: &[u8]) -> Result<Option<Header>, NoMemory>
    ensures { IfOk result (λ o. MatchOption o (read_object bytes.now ≡ None) (λ h. IsHeaderOf bytes.now h)) }
{
    let Some(object) = object_of(alloc, bytes)? else {
        return Ok(None);
    };
    Ok(Some(Header {
        hs256: names_hs256(&object),
        critical: is_critical(&object),
        typ: type_of(alloc, &object)?,
    }))
}
