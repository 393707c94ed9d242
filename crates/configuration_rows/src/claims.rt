// A user's claims, from a table of the configuration.

ghost use Rattle.std.specs.Prelude.{◌≡◌, IfOk, IfSome, OnOk};
ghost use Rattle.toml.specs.View.{view, table_view};
ghost use Rattle.serde_json.specs.Data.{no_members, put, string};
ghost use Rattle.claim_set.specs.Fitting.{ClaimsFit};
ghost use Rattle.configuration_rows.specs.Claims.{text_value, flag_value, seconds_value, address_value, claim_value, claims_in, claims_onto, texts_onto, Puts};

use crate::values::natural_of;
use claim_set::ClaimSet;
use oidc_words::{ClaimKind, kind_of_claim};
use sso_base::NoMemory;
use std::alloc::Global;
use toml::{Table, Value};

// Sets a claim to this text.
#[tactic(auto, using(crate::proofs::FittingClaims::text_fits))]
fn put_string(claims: &mut ClaimSet, name: &str, text: &str) -> Result<(), NoMemory>
    ensures ok { OnOk result (claims.new ≡ put name.now (string text.now) claims.old) }
    ensures fits { OnOk result (ClaimsFit claims.old → ClaimsFit claims.new) }
{
    claims.put_text(name, text)
}

// Sets a claim to the text value, if it is one. Returns whether it is.
fn put_text(claims: &mut ClaimSet, name: &str, value: &Value) -> Result<bool, NoMemory>
    ensures puts { IfOk result (λ taken. Puts name.now (text_value (view value.now)) claims.old claims.new taken) }
    ensures fits { IfOk result (λ taken. ClaimsFit claims.old → ClaimsFit claims.new) }
{
    match value.as_str() {
        Some(text) => {
            put_string(claims, name, text)?;
            Ok(true)
        }
        None => Ok(false),
    }
}

fn put_flag(claims: &mut ClaimSet, name: &str, value: &Value) -> Result<bool, NoMemory>
    ensures puts { IfOk result (λ taken. Puts name.now (flag_value (view value.now)) claims.old claims.new taken) }
    ensures fits { IfOk result (λ taken. ClaimsFit claims.old → ClaimsFit claims.new) }
{
    match value.as_bool() {
        Some(flag) => {
            claims.put_flag(name, flag)?;
            Ok(true)
        }
        None => Ok(false),
    }
}

// A number of seconds below 2^40.
fn put_seconds(claims: &mut ClaimSet, name: &str, value: &Value) -> Result<bool, NoMemory>
    ensures puts { IfOk result (λ taken. Puts name.now (seconds_value (view value.now)) claims.old claims.new taken) }
    ensures fits { IfOk result (λ taken. ClaimsFit claims.old → ClaimsFit claims.new) }
{
    match natural_of(value) {
        Some(number) if number < 1 << 40 => {
            claims.put_number(name, number)?;
            Ok(true)
        }
        _ => Ok(false),
    }
}

// The claims in a table of texts.
#[tactic(auto, using(crate::proofs::FittingClaims::none_fits))]
fn texts_of_table(alloc: Global, table: &Table) -> Result<Option<ClaimSet>, NoMemory>
    ensures value { IfOk result (λ o. o ≡ texts_onto (table_view table.now) no_members) }
    ensures fits { IfOk result (λ o. IfSome o (λ c. ClaimsFit c)) }
{
    let mut claims = ClaimSet::new(alloc);
    for (name, value) in table.iter() {
        if !put_text(&mut claims, name.as_str(), value)? {
            return Ok(None);
        }
    }
    Ok(Some(claims))
}

// A table of texts (OpenID Connect Core 1.0, 5.1.1).
#[tactic(auto, using(crate::proofs::Addresses::address_nests))]
fn put_address(
    claims: &mut ClaimSet,
    alloc: Global,
    name: &str,
    value: &Value,
) -> Result<bool, NoMemory>
    ensures puts { IfOk result (λ taken. Puts name.now (address_value (view value.now)) claims.old claims.new taken) }
    ensures fits { IfOk result (λ taken. ClaimsFit claims.old → ClaimsFit claims.new) }
{
    let Some(table) = value.as_table() else {
        return Ok(false);
    };
    match texts_of_table(alloc, table)? {
        Some(address) => {
            claims.put_set(name, address)?;
            Ok(true)
        }
        None => Ok(false),
    }
}

// Sets a claim to the value, if the name is known and the value is of its kind.
fn put_claim(
    claims: &mut ClaimSet,
    alloc: Global,
    name: &str,
    value: &Value,
) -> Result<bool, NoMemory>
    ensures puts { IfOk result (λ taken. Puts name.now (claim_value name.now (view value.now)) claims.old claims.new taken) }
    ensures fits { IfOk result (λ taken. ClaimsFit claims.old → ClaimsFit claims.new) }
{
    match kind_of_claim(name) {
        Some(ClaimKind::Text) => put_text(claims, name, value),
        Some(ClaimKind::Flag) => put_flag(claims, name, value),
        Some(ClaimKind::Seconds) => put_seconds(claims, name, value),
        Some(ClaimKind::Address) => put_address(claims, alloc, name, value),
        None => Ok(false),
    }
}

#[tactic(auto, using(crate::proofs::FittingClaims::none_fits))]
fn claims_of_table(alloc: Global, table: &Table) -> Result<Option<ClaimSet>, NoMemory>
    ensures value { IfOk result (λ o. o ≡ claims_onto (table_view table.now) no_members) }
    ensures fits { IfOk result (λ o. IfSome o (λ c. ClaimsFit c)) }
{
    let mut claims = ClaimSet::new(alloc);
    for (name, value) in table.iter() {
        if !put_claim(&mut claims, alloc, name.as_str(), value)? {
            return Ok(None);
        }
    }
    Ok(Some(claims))
}

/// The claims in a value, if it is a table of known claims, each of its kind (OpenID Connect Core 1.0, 5.1).
pub fn claims_of(alloc: Global, value: &Value) -> Result<Option<ClaimSet>, NoMemory>
    ensures value { IfOk result (λ o. o ≡ claims_in (view value.now)) }
    ensures fits { IfOk result (λ o. IfSome o (λ c. ClaimsFit c)) }
{
    match value.as_table() {
        Some(table) => claims_of_table(alloc, table),
        None => Ok(None),
    }
}
