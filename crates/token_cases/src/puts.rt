// Claims that are put into a set.

use crate::claims::{refused, set_of, written};
use case_lines::{given, given_text, given_texts, told};
use claim_set::{ClaimNo, ClaimSet, read_claims};
use sso_base::NoMemory;
use std::alloc::Global;

/// The answer of a call of this module; none if the call is another module's.
///
/// `put|KIND|SET|NAME|VALUE`: the set, with the value for the name. `put audience|SET|TEXT,TEXT`: the set for these clients.
pub fn answer(alloc: Global, fields: &[&str]) -> Option<Result<String, NoMemory>> {
    match fields {
        ["put", kind, set, name, value] => Some(put(alloc, kind, set, name, value)),
        ["put audience", set, clients] => Some(put(alloc, "audience", set, "aud", clients)),
        _ => None,
    }
}

fn put_number(set: &mut ClaimSet, name: &str, value: &str) -> Result<bool, NoMemory> {
    match value.parse::<u64>() {
        Ok(number) => {
            set.put_number(name, number)?;
            Ok(true)
        }
        Err(_) => Ok(false),
    }
}

// Puts a claim set, which must leave room for one more level.
fn put_low_set(set: &mut ClaimSet, name: &str, inner: ClaimSet) -> Result<bool, NoMemory> {
    if inner.depth() > 126 {
        return Ok(false);
    }
    set.put_set(name, inner)?;
    Ok(true)
}

fn put_set(
    set: &mut ClaimSet,
    name: &str,
    inner: Result<ClaimSet, ClaimNo>,
) -> Result<bool, NoMemory> {
    match inner {
        Ok(inner) => put_low_set(set, name, inner),
        Err(_why) => Ok(false),
    }
}

// Puts a value, if there is one.
fn put_if(
    alloc: Global,
    set: &mut ClaimSet,
    kind: &str,
    name: &str,
    value: &str,
) -> Result<bool, NoMemory> {
    match kind {
        "text if there" => set.put_text_if(name, &given_text(alloc, value)?)?,
        "number if there" => {
            set.put_number_if(
                name,
                given(value).and_then(|digits| digits.parse::<u64>().ok()),
            )?;
        }
        _ => return Ok(false),
    }
    Ok(true)
}

// Puts a value, and returns whether there is one of this kind.
fn put_value(
    alloc: Global,
    set: &mut ClaimSet,
    kind: &str,
    name: &str,
    value: &str,
) -> Result<bool, NoMemory> {
    match kind {
        "text" => set.put_text(name, value)?,
        "flag" => set.put_flag(name, value == "true")?,
        "texts" => set.put_texts(name, &given_texts(alloc, value, ',')?)?,
        "audience" => set.put_audience(&given_texts(alloc, value, ',')?)?,
        "number" => return put_number(set, name, value),
        "set" => return put_set(set, name, read_claims(alloc, value.as_bytes())),
        _ => return put_if(alloc, set, kind, name, value),
    }
    Ok(true)
}

fn put_in(
    alloc: Global,
    mut set: ClaimSet,
    kind: &str,
    name: &str,
    value: &str,
) -> Result<String, NoMemory> {
    if put_value(alloc, &mut set, kind, name, value)? {
        written(alloc, &set)
    } else {
        told(alloc, "no such value")
    }
}

fn put(alloc: Global, kind: &str, set: &str, name: &str, value: &str) -> Result<String, NoMemory> {
    match set_of(alloc, set)? {
        Ok(set) => put_in(alloc, set, kind, name, value),
        Err(why) => refused(alloc, &why),
    }
}
