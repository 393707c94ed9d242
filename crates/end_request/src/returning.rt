// Reading where a browser may be sent after a sign-out from a configuration.

ghost use Rattle.std.specs.Prelude.{◌≡◌, ◌⊎◌, ◌++◌, [], not, map, option_map, nat_lt, Some, None, Ok, Err, IfOk, IfErr, OnOk, string_bytes};
ghost use Rattle.toml.specs.Data.{get};
ghost use Rattle.toml.specs.View.{view, items_view};
ghost use Rattle.configuration_rows.specs.declared.no.RegNo.TheVariants as no;
ghost use Rattle.configuration_rows.specs.Refusals.{least, note_if, each};
ghost use Rattle.configuration_rows.specs.declared.row.Row.TheVariants as row_of;
ghost use Rattle.configuration_rows.specs.Paths.{path_text, place_text};
ghost use Rattle.configuration_rows.specs.Values.{as_texts, items_texts};
ghost use Rattle.configuration_rows.specs.Kinds.{are_urls};
ghost use Rattle.client_registry.specs.Reading.{document_in};
ghost use Rattle.end_request.specs.Returning as spec;

use crate::returns::Returns;
use configuration_rows::RegNo;
use configuration_rows::refusals::Refusals;
use configuration_rows::values::{rows_at, text_or, texts_at, url_of};
use sso_base::{NoMemory, Text, Texts};
use std::alloc::Global;
use toml::Value;

/// The key of a client with its URIs.
const RETURNS_KEY: &str = "post_logout_redirect_uris";

/// The most URIs of a client.
const MOST_RETURNS: usize = 16;

// ---- values

fn texts_in(alloc: Global, items: &[Value]) -> Result<Option<Vec<Text>>, NoMemory>
    ensures { IfOk result (λ o. option_map (λ v. v.items) o ≡ items_texts (items_view items.now)) }
{
    let mut texts = Vec::new(alloc);
    for item in items {
        let Some(text) = item.as_str() else {
            return Ok(None);
        };
        texts.push(Text::new(alloc, text)?)?;
    }
    Ok(Some(texts))
}

// The texts of an array that contains only texts.
fn texts_of(alloc: Global, value: &Value) -> Result<Option<Vec<Text>>, NoMemory>
    ensures { IfOk result (λ o. option_map (λ v. v.items) o ≡ as_texts (view value.now)) }
{
    match value.as_array() {
        Some(items) => texts_in(alloc, items),
        None => Ok(None),
    }
}

// Whether the row has a value at the key that is no array of texts.
fn is_other_kind(alloc: Global, row: &Value) -> Result<bool, NoMemory>
    ensures { IfOk result (λ b. b ≡ spec.is_other_kind (get spec.returns_key (view row.now))) }
{
    let Some(value) = row.get(RETURNS_KEY) else {
        return Ok(false);
    };
    match texts_of(alloc, value)? {
        Some(_) => Ok(false),
        None => Ok(true),
    }
}

fn are_all_urls(alloc: Global, texts: &[Text]) -> Result<bool, NoMemory>
    ensures { IfOk result (λ b. b ≡ are_urls texts.now) }
{
    for text in texts {
        if url_of(alloc, text.as_str())?.is_none() {
            return Ok(false);
        }
    }
    Ok(true)
}

// Appends a table's name and an index, as `client[0]`.
fn push_place(alloc: Global, text: &mut String, name: &str, place: usize) -> Result<(), NoMemory>
    ensures { OnOk result (string_bytes text.new ≡ string_bytes text.old ++ place_text name.now place) }
{
    text.push_str(name)?;
    text.push_str("[")?;
    let number = place.to_string(alloc)?;
    text.push_str(number.as_str())?;
    text.push_str("]")?;
    Ok(())
}

// The path of a key of the client at this index, as `client[0].secret`.
fn path_of(alloc: Global, place: usize, key: &str) -> Result<Text, NoMemory>
    ensures { IfOk result (λ t. t ≡ path_text (row_of.Client place) key.now) }
{
    let mut text = String::new(alloc);
    push_place(alloc, &mut text, "client", place)?;
    text.push_str(".")?;
    text.push_str(key)?;
    Ok(Text::from_string(text))
}

// The path of the key with the URIs.
fn path_at(alloc: Global, place: usize) -> Result<Text, NoMemory>
    ensures { IfOk result (λ t. t ≡ spec.path_at place) }
{
    path_of(alloc, place, RETURNS_KEY)
}

// ---- the errors of a client's row

fn note_kind(refusals: &mut Refusals, place: usize, other: bool) -> Result<(), NoMemory>
    ensures { OnOk result (refusals.new ≡ refusals.old ++ note_if other (no.WrongKind (spec.path_at place))) }
{
    if !other {
        return Ok(());
    }
    let path = path_at(refusals.alloc(), place)?;
    refusals.note(RegNo::WrongKind(path))
}

fn note_url(refusals: &mut Refusals, place: usize, good: bool) -> Result<(), NoMemory>
    ensures { OnOk result (refusals.new ≡ refusals.old ++ note_if (not good) (no.BadUrl (spec.path_at place))) }
{
    if good {
        return Ok(());
    }
    let path = path_at(refusals.alloc(), place)?;
    refusals.note(RegNo::BadUrl(path))
}

fn note_count(refusals: &mut Refusals, id: &str, count: usize) -> Result<(), NoMemory>
    ensures { OnOk result (refusals.new ≡ refusals.old ++ note_if (nat_lt spec.most_returns count) (no.TooMany id.now)) }
{
    if count <= MOST_RETURNS {
        return Ok(());
    }
    let id = Text::new(refusals.alloc(), id)?;
    refusals.note(RegNo::TooMany(id))
}

// Notes the errors of a client's row at the key.
fn returns_row(refusals: &mut Refusals, place: usize, row: &Value) -> Result<(), NoMemory>
    ensures { OnOk result (refusals.new ≡ refusals.old ++ spec.returns_row place (view row.now)) }
{
    let alloc = refusals.alloc();
    let uris = texts_at(alloc, row, RETURNS_KEY)?;
    note_kind(refusals, place, is_other_kind(alloc, row)?)?;
    note_url(refusals, place, are_all_urls(alloc, &uris)?)?;
    note_count(refusals, text_or(row, "id", ""), uris.len())
}

fn returns_rows(refusals: &mut Refusals, rows: &[Value]) -> Result<(), NoMemory>
    ensures { OnOk result (refusals.new ≡ refusals.old ++ each spec.returns_row (map view rows.now)) }
{
    for (place, row) in rows.iter().enumerate() {
        returns_row(refusals, place, row)?;
    }
    Ok(())
}

// Returns the error that is reported, if there is one.
#[tactic(auto, using(client_registry::proofs::Guiltless::nothing))]
fn unless_guilty(refusals: Refusals) -> Result<(), RegNo>
    ensures ok { IfOk result (λ u. refusals ≡ []) }
    ensures err { IfErr result (λ e. least refusals ≡ Some e) }
{
    match refusals.least() {
        Some(refusal) => Err(refusal),
        None => Ok(()),
    }
}

// Checks the rows of the clients.
fn judge_returns(alloc: Global, rows: &[Value]) -> Result<(), RegNo>
    ensures ok { IfOk result (λ u. each spec.returns_row (map view rows.now) ≡ []) }
    ensures err { IfErr result (λ e. (e ≡ RegNo.NoMemory) ⊎ (least (each spec.returns_row (map view rows.now)) ≡ Some e)) }
{
    let mut refusals = Refusals::new(alloc);
    returns_rows(&mut refusals, rows)?;
    unless_guilty(refusals)
}

// ---- the URIs

// The texts, in a list of texts.
fn list_of(alloc: Global, texts: &[Text]) -> Result<Texts, NoMemory>
    ensures { IfOk result (λ t. t ≡ texts.now) }
{
    let mut list = Texts::new(alloc);
    for text in texts {
        list.push(text.copy(alloc)?)?;
    }
    Ok(list)
}

// The URIs of a client's row.
fn row_returns(alloc: Global, row: &Value) -> Result<Texts, NoMemory>
    ensures { IfOk result (λ t. t ≡ spec.row_returns (view row.now)) }
{
    let uris = texts_at(alloc, row, RETURNS_KEY)?;
    list_of(alloc, &uris)
}

fn returns_of(alloc: Global, rows: &[Value]) -> Result<Vec<Texts>, NoMemory>
    ensures { IfOk result (λ v. v.items ≡ map spec.row_returns (map view rows.now)) }
{
    let mut lists = Vec::new(alloc);
    for row in rows {
        lists.push(row_returns(alloc, row)?)?;
    }
    Ok(lists)
}

// ---- a configuration

// The table whose TOML text the bytes are.
#[tactic(auto, using(client_registry::proofs::Documents::document_read, client_registry::proofs::Documents::document_refused))]
fn document(alloc: Global, bytes: &[u8]) -> Result<Value, RegNo>
    ensures ok { IfOk result (λ v. document_in bytes.now ≡ Some (view v)) }
    ensures err { IfErr result (λ e. (e ≡ RegNo.NoMemory) ⊎ ((e ≡ RegNo.NotToml) × (document_in bytes.now ≡ None))) }
{
    match toml::table_from_slice(alloc, bytes) {
        Ok(table) => Ok(Value::Table(table)),
        Err(error) => {
            if error.is_memory() {
                Err(RegNo::NoMemory)
            } else {
                Err(RegNo::NotToml)
            }
        }
    }
}

// Where browsers may be sent by the configuration with this table.
#[tactic(auto, using(crate::proofs::Returned::returned, crate::proofs::Returned::refused))]
fn returns_in(alloc: Global, root: &Value) -> Result<Returns, RegNo>
    ensures ok { IfOk result (λ r. spec.returns_in (Some (view root.now)) ≡ Ok r) }
    ensures err { IfErr result (λ e. (e ≡ RegNo.NoMemory) ⊎ (spec.returns_in (Some (view root.now)) ≡ Err e)) }
{
    let rows = rows_at(root, "client");
    judge_returns(alloc, rows)?;
    let clients = returns_of(alloc, rows)?;
    Ok(Returns::from_clients(clients))
}

/// Reads where a browser may be sent after a sign-out, from a configuration that `read_registry` accepts: the key
/// `post_logout_redirect_uris` of each client, an optional array of at most 16 URLs (RP-Initiated Logout 1.0, 3.1).
///
/// # Errors
///
/// - `WrongKind` if a value is no array of texts;
/// - `BadUrl` if one of its texts violates the rule for URLs;
/// - `TooMany` with the id of the client if there are more than 16.
///
/// Of several errors the first in this order is returned, and of several of one kind that of the first client. A configuration that
/// is not TOML is `NotToml`.
#[tactic(auto, unfolding(crate::specs::Returning::returns_read))]
pub fn read_returns(alloc: Global, bytes: &[u8]) -> Result<Returns, RegNo>
    ensures answers { IfOk result (λ r. spec.returns_read bytes.now ≡ Ok r) }
    ensures refuses { IfErr result (λ e. (e ≡ RegNo.NoMemory) ⊎ (spec.returns_read bytes.now ≡ Err e)) }
{
    let root = document(alloc, bytes)?;
    returns_in(alloc, &root)
}
