// Values of a configuration, each of the requested kind.

ghost use Rattle.std.specs.Prelude.{◌≡◌, [], map, IfOk, option_map, option_copied};
ghost use Rattle.toml.specs.Data.{table, no_members};
ghost use Rattle.toml.specs.View.{view, items_view};
ghost use Rattle.registered_url.specs.Rule.{url_of as url_in};
ghost use Rattle.configuration_rows.specs.Values as spec;
ghost use Rattle.configuration_rows.specs.Values.{as_natural, as_texts, items_texts, hex_bytes};

use hex::FromHexError;
use registered_url::{UrlNo, WebUrl, read_url};
use sso_base::{NoMemory, Text};
use std::alloc::Global;
use toml::Value;

// A natural number.
pub(crate) fn natural_of(value: &Value) -> Option<u64>
    ensures { result ≡ as_natural (view value.now) }
{
    match value.as_integer() {
        Some(number) if number >= 0 => Some(number as u64),
        _ => None,
    }
}

// The bytes of a text of hexadecimal digits, two for each byte.
pub(crate) fn hex_of(alloc: Global, text: &str) -> Result<Option<Vec<u8>>, NoMemory>
    ensures { IfOk result (λ o. option_map (λ v. v.items) o ≡ hex_bytes text.now) }
{
    match hex::decode(alloc, text) {
        Ok(bytes) => Ok(Some(bytes)),
        Err(FromHexError::OutOfMemory) => Err(NoMemory),
        Err(_) => Ok(None),
    }
}

fn texts_in(alloc: Global, items: &[Value]) -> Result<Option<Vec<Text>>, NoMemory>
    ensures { IfOk result (λ o. option_map (λ v. v.items) o ≡ items_texts (items_view items.now)) }
{
    let mut texts = Vec::new(alloc);
    for item in items {
        let Some(text) = item.as_str() else {
            return Ok(None);
        };
        texts.push(Text::new(alloc, text)?)?;
    }
    Ok(Some(texts))
}

// The texts of an array that contains only texts.
pub(crate) fn texts_of(alloc: Global, value: &Value) -> Result<Option<Vec<Text>>, NoMemory>
    ensures { IfOk result (λ o. option_map (λ v. v.items) o ≡ as_texts (view value.now)) }
{
    match value.as_array() {
        Some(items) => texts_in(alloc, items),
        None => Ok(None),
    }
}

/// The text at a key.
pub fn text_at<'a>(row: &'a Value, key: &str) -> Option<&'a str>
    ensures { option_copied result ≡ spec.text_at key.now (view row.now) }
{
    match row.get(key) {
        Some(value) => value.as_str(),
        None => None,
    }
}

/// The text at a key, or this default.
pub fn text_or<'a>(row: &'a Value, key: &str, other: &'a str) -> &'a str
    ensures { result.now ≡ spec.text_or key.now other.now (view row.now) }
{
    match text_at(row, key) {
        Some(text) => text,
        None => other,
    }
}

/// The natural number at a key.
pub fn natural_at(row: &Value, key: &str) -> Option<u64>
    ensures { result ≡ spec.natural_at key.now (view row.now) }
{
    match row.get(key) {
        Some(value) => natural_of(value),
        None => None,
    }
}

/// The flag at a key; false if there is none.
pub fn flag_at(row: &Value, key: &str) -> bool
    ensures { result ≡ spec.flag_at key.now (view row.now) }
{
    match row.get(key) {
        Some(value) => match value.as_bool() {
            Some(flag) => flag,
            None => false,
        },
        None => false,
    }
}

/// The bytes of the hexadecimal text at a key; empty if there is none.
pub fn hex_at(alloc: Global, row: &Value, key: &str) -> Result<Vec<u8>, NoMemory>
    ensures { IfOk result (λ v. v.items ≡ spec.hex_at key.now (view row.now)) }
{
    let Some(text) = text_at(row, key) else {
        return Ok(Vec::new(alloc));
    };
    match hex_of(alloc, text)? {
        Some(bytes) => Ok(bytes),
        None => Ok(Vec::new(alloc)),
    }
}

/// The texts of the array at a key; empty if there is none.
pub fn texts_at(alloc: Global, row: &Value, key: &str) -> Result<Vec<Text>, NoMemory>
    ensures { IfOk result (λ v. v.items ≡ spec.texts_at key.now (view row.now)) }
{
    let Some(value) = row.get(key) else {
        return Ok(Vec::new(alloc));
    };
    match texts_of(alloc, value)? {
        Some(texts) => Ok(texts),
        None => Ok(Vec::new(alloc)),
    }
}

/// The URL in a text, if it satisfies the rule for URLs.
pub fn url_of(alloc: Global, text: &str) -> Result<Option<WebUrl>, NoMemory>
    ensures { IfOk result (λ o. o ≡ url_in text.now) }
{
    match read_url(alloc, text) {
        Ok(url) => Ok(Some(url)),
        Err(UrlNo::BadUrl) => Ok(None),
        Err(UrlNo::NoMemory) => Err(NoMemory),
    }
}

/// The URL at a key, if there is one that satisfies the rule for URLs.
pub fn url_at(alloc: Global, row: &Value, key: &str) -> Result<Option<WebUrl>, NoMemory>
    ensures { IfOk result (λ o. o ≡ spec.url_at key.now (view row.now)) }
{
    match text_at(row, key) {
        Some(text) => url_of(alloc, text),
        None => Ok(None),
    }
}

/// The rows of the array at a key; empty if there is none.
#[tactic(auto, using(crate::proofs::ArrayRows::rows_of_items))]
pub fn rows_at<'a>(root: &'a Value, key: &str) -> &'a [Value]
    ensures { map view result.now ≡ spec.rows_at key.now (view root.now) }
{
    match root.get(key) {
        Some(value) => match value.as_array() {
            Some(rows) => rows.as_slice(),
            None => &[],
        },
        None => &[],
    }
}

/// The value at a key; the empty table if there is none.
pub fn table_at<'a>(root: &'a Value, key: &str, empty: &'a Value) -> &'a Value
    requires { view empty.now ≡ table no_members }
    ensures { view result.now ≡ spec.table_at key.now (view root.now) }
{
    match root.get(key) {
        Some(value) => value,
        None => empty,
    }
}
