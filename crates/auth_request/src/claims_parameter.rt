// What the parameter `claims` requests (OpenID Connect Core 1.0, 5.5).

ghost use Rattle.std.specs.Prelude.{◌≡◌, ◌++◌, IfOk, OnOk};
ghost use Rattle.serde_json.specs.Find.{get, as_str};
ghost use Rattle.serde_json.specs.Read.{read};
ghost use Rattle.serde_json.specs.View.{view, items_view, members_view};
ghost use Rattle.auth_request.specs.ClaimsParameter as spec;

use oidc_words::is_standard_claim;
use serde_json::{Map, Value};
use sso_base::{NoMemory, Text, Texts};
use std::alloc::Global;

// What is requested, and whether the parameter has its form. In another form it requests nothing.
#[derive(Drop)]
pub(crate) struct Asked {
    pub(crate) fits: bool,
    // The subjects, of which the user must be one.
    pub(crate) subs: Option<Texts>,
    // The names of claims, in the order of their bytes.
    pub(crate) id_asked: Texts,
    pub(crate) info_asked: Texts,
}

fn nothing(alloc: Global, fits: bool) -> Asked
    ensures { result ≡ spec.nothing fits }
{
    Asked {
        fits,
        subs: None,
        id_asked: Texts::new(alloc),
        info_asked: Texts::new(alloc),
    }
}

// ---- its form

// Whether this is a possible value for one claim (5.5.1).
fn is_claim_request(value: &Value) -> bool
    ensures { result ≡ spec.is_claim_request (view value.now) }
{
    value.is_null() || value.is_object()
}

fn are_claim_requests(members: &Map<String, Value>) -> bool
    ensures { result ≡ spec.are_claim_requests (members_view members.now.entries) }
{
    for (_name, value) in members.iter() {
        if !is_claim_request(value) {
            return false;
        }
    }
    true
}

// Whether the member of this name is absent, or an object of requests for claims.
fn has_part(claims: &Value, name: &str) -> bool
    ensures { result ≡ spec.is_part (get name.now (view claims.now)) }
{
    match claims.get(name) {
        None => true,
        Some(part) => match part.as_object() {
            None => false,
            Some(members) => are_claim_requests(members),
        },
    }
}

fn is_claims_request(claims: &Value) -> bool
    ensures { result ≡ spec.is_claims_request (view claims.now) }
{
    claims.is_object() && has_part(claims, "userinfo") && has_part(claims, "id_token")
}

// ---- what it requests

// The standard claims among the names.
fn standard_names(alloc: Global, members: &Map<String, Value>) -> Result<Texts, NoMemory>
    ensures { IfOk result (λ ts. ts ≡ spec.standard_names (members_view members.now.entries)) }
{
    let mut names = Texts::new(alloc);
    for (name, _value) in members.iter() {
        if is_standard_claim(name.as_str()) {
            names.push(Text::new(alloc, name.as_str())?)?;
        }
    }
    Ok(names)
}

fn names_at(alloc: Global, claims: &Value, name: &str) -> Result<Texts, NoMemory>
    ensures { IfOk result (λ ts. ts ≡ spec.names_at name.now (view claims.now)) }
{
    match claims.get(name) {
        None => Ok(Texts::new(alloc)),
        Some(part) => match part.as_object() {
            None => Ok(Texts::new(alloc)),
            Some(members) => standard_names(alloc, members),
        },
    }
}

// Adds the text, unless it is empty: that is no user's subject, and weighs nothing.
fn push_filled(alloc: Global, texts: &mut Texts, text: &str) -> Result<(), NoMemory>
    ensures { OnOk result (texts.new ≡ texts.old ++ spec.if_filled text.now) }
{
    if text.is_empty() {
        return Ok(());
    }
    texts.push(Text::new(alloc, text)?)
}

// Adds the text, where the value is one.
fn push_text(alloc: Global, texts: &mut Texts, value: &Value) -> Result<(), NoMemory>
    ensures { OnOk result (texts.new ≡ texts.old ++ spec.one_text (as_str (view value.now))) }
{
    match value.as_str() {
        None => Ok(()),
        Some(text) => push_filled(alloc, texts, text),
    }
}

// Adds the texts among the elements.
fn push_items(alloc: Global, texts: &mut Texts, items: &Vec<Value>) -> Result<(), NoMemory>
    ensures { OnOk result (texts.new ≡ texts.old ++ spec.item_texts (items_view items.now.items)) }
{
    for item in items {
        push_text(alloc, texts, item)?;
    }
    Ok(())
}

// Adds what `value` names.
fn push_value(alloc: Global, texts: &mut Texts, sub: &Value) -> Result<(), NoMemory>
    ensures { OnOk result (texts.new ≡ texts.old ++ spec.value_texts (view sub.now)) }
{
    match sub.get("value") {
        None => Ok(()),
        Some(value) => push_text(alloc, texts, value),
    }
}

// Adds what `values` names.
fn push_values(alloc: Global, texts: &mut Texts, sub: &Value) -> Result<(), NoMemory>
    ensures { OnOk result (texts.new ≡ texts.old ++ spec.values_texts (view sub.now)) }
{
    match sub.get("values") {
        None => Ok(()),
        Some(values) => match values.as_array() {
            None => Ok(()),
            Some(items) => push_items(alloc, texts, items),
        },
    }
}

// The subjects that a request for the claim `sub` names.
fn subs_of(alloc: Global, sub: &Value) -> Result<Option<Texts>, NoMemory>
    ensures { IfOk result (λ o. o ≡ spec.subs_of (view sub.now)) }
{
    let named = sub.get("value").is_some() || sub.get("values").is_some();
    if !named {
        return Ok(None);
    }
    let mut subs = Texts::new(alloc);
    push_value(alloc, &mut subs, sub)?;
    push_values(alloc, &mut subs, sub)?;
    subs.shrink_to_fit();
    Ok(Some(subs))
}

fn subs_in(alloc: Global, claims: &Value) -> Result<Option<Texts>, NoMemory>
    ensures { IfOk result (λ o. o ≡ spec.subs_in (view claims.now)) }
{
    match claims.get("id_token") {
        None => Ok(None),
        Some(part) => match part.get("sub") {
            None => Ok(None),
            Some(sub) => subs_of(alloc, sub),
        },
    }
}

fn asked_in(alloc: Global, claims: &Value) -> Result<Asked, NoMemory>
    ensures { IfOk result (λ a. a ≡ spec.asked_in (view claims.now)) }
{
    if !is_claims_request(claims) {
        return Ok(nothing(alloc, false));
    }
    Ok(Asked {
        fits: true,
        subs: subs_in(alloc, claims)?,
        id_asked: names_at(alloc, claims, "id_token")?,
        info_asked: names_at(alloc, claims, "userinfo")?,
    })
}

// What the text requests.
fn asked_by(alloc: Global, text: &str) -> Result<Asked, NoMemory>
    ensures { IfOk result (λ a. a ≡ spec.asked_by (read text.now)) }
{
    match Value::from_str(alloc, text) {
        Ok(claims) => asked_in(alloc, &claims),
        Err(error) => {
            if error.is_memory() {
                Err(NoMemory)
            } else {
                Ok(nothing(alloc, false))
            }
        }
    }
}

// What the parameter requests, if it is there.
#[tactic(auto, unfolding(crate::specs::ClaimsParameter::claims_of))]
pub(crate) fn claims_of(alloc: Global, claims: &Option<Text>) -> Result<Asked, NoMemory>
    ensures { IfOk result (λ a. a ≡ spec.claims_of claims.now) }
{
    match claims {
        None => Ok(nothing(alloc, true)),
        Some(text) => asked_by(alloc, text.as_str()),
    }
}
