//! What every claim set keeps, for the proofs: its texts are UTF-8, its numbers have 64 bits, and its names are in order. The
//! call does nothing.

ghost use Rattle.std.specs.Prelude.{◌≡◌, false};
ghost use Rattle.serde_json.specs.View.{view, items_view, members_view};
ghost use Rattle.serde_json.specs.Written.{has_float, items_have_float, members_have_float};
ghost use Rattle.claim_set.specs.Fitting.{Fits, ItemsFit, MembersFit, ClaimsFit};

use crate::claim_set::ClaimSet;
use serde_json::{Map, Value};

// A value of whole numbers fits.
#[cycle(fits)]
fn know_value(value: &Value)
    requires { has_float (view value.now) ≡ false }
    ensures { Fits (view value.now) }
{
    match value {
        Value::Null | Value::Bool(_) => {}
        Value::Number(number) => {
            let _natural = number.as_u64();
            let _whole = number.as_i64();
        }
        Value::String(text) => {
            let _text = text.as_str();
        }
        Value::Array(items) => know_items(items),
        Value::Object(members) => know_members(members),
    }
}

// So do the items of an array.
#[cycle(fits)]
fn know_items(items: &Vec<Value>)
    requires { items_have_float (items_view items.now.items) ≡ false }
    ensures { ItemsFit (items_view items.now.items) }
{
    for item in items {
        know_value(item);
    }
}

// So do the members of an object.
#[cycle(fits)]
fn know_members(members: &Map<String, Value>)
    requires { members_have_float (members_view members.now.entries) ≡ false }
    ensures { MembersFit (members_view members.now.entries) }
{
    for (name, member) in members.iter() {
        let _name = name.as_str();
        know_value(member);
    }
}

/// Claims fit: their names and texts are UTF-8, their numbers are whole and have 64 bits, their names are in order, each once,
/// and they nest at most 127 deep. They are so written and read again ([`crate::write_claims`]).
pub fn know_claims(claims: &ClaimSet)
    ensures { ClaimsFit claims.now }
{
    let Some(map) = claims.value.as_object() else {
        unreachable!()
    };
    know_members(map);
}
