// Walks over JSON values.

ghost use Rattle.std.specs.Prelude.{◌≡◌, ◌≤◌, ◌<◌, ◌+◌, option_map, IfOk};
ghost use Rattle.serde_json.specs.Data.{depth, items_depth, members_depth};
ghost use Rattle.serde_json.specs.Written.{has_float, items_have_float, members_have_float};
ghost use Rattle.serde_json.specs.View.{view, items_view, members_view};
ghost use Rattle.claim_set.specs.Claims.{text_items, member_names};
ghost use Rattle.claim_set.specs.Kinds.{data_texts, item_texts};
ghost use Rattle.claim_set.specs.Reading.{first_float};

use serde_json::{Map, Value};
use sso_base::{NoMemory, Text, Texts};
use std::alloc::Global;

// Whether some number in the value is not an integer.
#[cycle(floats)]
fn holds_float(value: &Value) -> bool
    ensures { result ≡ has_float (view value.now) }
{
    match value {
        Value::Null | Value::Bool(_) | Value::String(_) => false,
        Value::Number(number) => number.is_f64(),
        Value::Array(items) => items_hold_float(items),
        Value::Object(members) => members_hold_float(members),
    }
}

// Whether some item contains such a number.
#[cycle(floats)]
fn items_hold_float(items: &Vec<Value>) -> bool
    ensures { result ≡ items_have_float (items_view items.now.items) }
{
    for item in items {
        if holds_float(item) {
            return true;
        }
    }
    false
}

// Whether the value of some member contains such a number.
#[cycle(floats)]
fn members_hold_float(members: &Map<String, Value>) -> bool
    ensures { result ≡ members_have_float (members_view members.now.entries) }
{
    for (_key, member) in members.iter() {
        if holds_float(member) {
            return true;
        }
    }
    false
}

// The first name whose value contains a number that is not an integer.
pub(crate) fn first_with_float(members: &Map<String, Value>) -> Option<&str>
    ensures { option_map (λ s. s.now) result ≡ first_float (members_view members.now.entries) }
{
    for (key, member) in members.iter() {
        if holds_float(member) {
            return Some(key.as_str());
        }
    }
    None
}

// How deep arrays and objects nest: 0 for any other value.
#[cycle(depths)]
pub(crate) fn depth_of(value: &Value) -> u32
    requires { depth (view value.now) ≤ 127 }
    ensures { result ≡ depth (view value.now) }
{
    match value {
        Value::Null | Value::Bool(_) | Value::String(_) | Value::Number(_) => 0,
        Value::Array(items) => items_depth_of(items) + 1,
        Value::Object(members) => members_depth_of(members) + 1,
    }
}

// How deep they nest inside the deepest item.
#[cycle(depths)]
fn items_depth_of(items: &Vec<Value>) -> u32
    requires { items_depth (items_view items.now.items) ≤ 127 }
    ensures { result ≡ items_depth (items_view items.now.items) }
{
    let mut most = 0;
    for item in items {
        most = most.max(depth_of(item));
    }
    most
}

// How deep they nest inside the deepest member.
#[cycle(depths)]
fn members_depth_of(members: &Map<String, Value>) -> u32
    requires { members_depth (members_view members.now.entries) ≤ 127 }
    ensures { result ≡ members_depth (members_view members.now.entries) }
{
    let mut most = 0;
    for (_key, member) in members.iter() {
        most = most.max(depth_of(member));
    }
    most
}

// The names of the members.
pub(crate) fn names_in(alloc: Global, members: &Map<String, Value>) -> Result<Texts, NoMemory>
    ensures { IfOk result (λ names. names ≡ member_names (members_view members.now.entries)) }
{
    let mut names = Texts::new(alloc);
    for (name, _value) in members.iter() {
        names.push(Text::new(alloc, name.as_str())?)?;
    }
    Ok(names)
}

// The texts in a string, or in an array of strings.
pub(crate) fn texts_in(alloc: Global, value: &Value) -> Result<Option<Texts>, NoMemory>
    ensures { IfOk result (λ o. o ≡ data_texts (view value.now)) }
{
    match value {
        Value::String(text) => {
            let mut texts = Texts::new(alloc);
            texts.push(Text::new(alloc, text.as_str())?)?;
            Ok(Some(texts))
        }
        Value::Array(items) => texts_of(alloc, items),
        Value::Null | Value::Bool(_) | Value::Number(_) | Value::Object(_) => Ok(None),
    }
}

// The texts in the items, if each is a string.
fn texts_of(alloc: Global, items: &Vec<Value>) -> Result<Option<Texts>, NoMemory>
    ensures { IfOk result (λ o. o ≡ item_texts (items_view items.now.items)) }
{
    let mut texts = Texts::new(alloc);
    for item in items {
        let Some(text) = item.as_str() else {
            return Ok(None);
        };
        texts.push(Text::new(alloc, text)?)?;
    }
    Ok(Some(texts))
}

// The texts as strings.
pub(crate) fn items_of_texts(alloc: Global, texts: &Texts) -> Result<Vec<Value>, NoMemory>
    ensures { IfOk result (λ v. items_view v.items ≡ text_items texts.now) }
{
    let mut items = Vec::new(alloc);
    for i in 0..texts.count() {
        items.push(Value::try_from_str(alloc, texts.at(i))?)?;
    }
    Ok(items)
}
