// The rules for a party's redirect URI and response type, and the client that it uses.

ghost use Rattle.std.specs.Prelude.{◌≡◌, ◌++◌, map, codes, Some, IfOk, OnOk, option_map};
ghost use Rattle.std.specs.List.{list_any};
ghost use Rattle.std.specs.Str.{bytes_eq};
ghost use Rattle.toml.specs.View.{view};
ghost use Rattle.sso_base.specs.Texts.{has_text};
ghost use Rattle.configuration_rows.specs.Kinds.{passes};
ghost use Rattle.configuration_rows.specs.Values.{text_at as text_in};
ghost use Rattle.configuration_rows.specs.Rows as spec;

use crate::no::RegNo;
use crate::refusals::Refusals;
use crate::row::Row;
use crate::values::{text_at, text_or, texts_at, url_at, url_of};
use oidc_words::{BEGIN_PATH, HOME_PATH, LEAVE_PATH, is_one_of, number_of_type};
use registered_url::WebUrl;
use sso_base::{NoMemory, Text, Texts};
use std::alloc::Global;
use toml::Value;

fn has_id(id: &str, client: &Value) -> bool
    ensures { result ≡ passes (bytes_eq id.now) (text_in (codes "id") (view client.now)) }
{
    match text_at(client, "id") {
        Some(other) => id == other,
        None => false,
    }
}

// The first client with this id.
fn client_with<'a>(id: &str, clients: &'a [Value]) -> Option<&'a Value>
    ensures { option_map (λ v. view v.now) result ≡ spec.client_with id.now (map view clients.now) }
{
    for client in clients {
        if has_id(id, client) {
            return Some(client);
        }
    }
    None
}

// The client of a party, if it is known.
fn client_of<'a>(clients: &'a [Value], party: &Value) -> Option<&'a Value>
    ensures { option_map (λ v. view v.now) result ≡ spec.client_of (map view clients.now) (view party.now) }
{
    match text_at(party, "client") {
        Some(id) => client_with(id, clients),
        None => None,
    }
}

// Whether the text is one of these.
pub(crate) fn is_among(text: &str, texts: &[Text]) -> bool
    ensures { result ≡ has_text text.now texts.now }
{
    for other in texts {
        if text == other.as_str() {
            return true;
        }
    }
    false
}

fn is_answer_name(name: &str) -> bool
    ensures { result ≡ has_text name.now spec.answer_names }
{
    is_one_of(
        name,
        &["state", "error", "code", "access_token", "id_token"],
    )
}

#[tactic(auto, using(sso_base::proofs::ListSteps::drop_at))]
fn has_answer_name(names: &Texts) -> bool
    ensures { result ≡ list_any (λ name. has_text name spec.answer_names) names.now }
{
    for place in 0..names.count() {
        if is_answer_name(names.at(place)) {
            return true;
        }
    }
    false
}

fn is_own_path(path: &str) -> bool
    ensures { result ≡ has_text path.now spec.own_paths }
{
    is_one_of(path, &[HOME_PATH, BEGIN_PATH, LEAVE_PATH])
}

fn has_path(path: &str, url: &Option<WebUrl>) -> bool
    ensures { result ≡ spec.has_path path.now url.now }
{
    match url {
        Some(url) => path == url.path.as_str(),
        None => false,
    }
}

// Whether the redirect URI is not one of the client's, or has the path of its logout URI.
fn is_not_of(alloc: Global, client: &Value, text: &str, url: &WebUrl) -> Result<bool, NoMemory>
    ensures { IfOk result (λ b. b ≡ spec.is_not_of (Some (view client.now)) text.now url.now) }
{
    let texts = texts_at(alloc, client, "redirect_uris")?;
    if !is_among(text, &texts) {
        return Ok(true);
    }
    let logout = url_at(alloc, client, "logout_uri")?;
    Ok(has_path(url.path.as_str(), &logout))
}

fn is_misdirected(
    alloc: Global,
    client: Option<&Value>,
    text: &str,
    url: &WebUrl,
) -> Result<bool, NoMemory>
    ensures { IfOk result (λ b. b ≡ spec.misdirects (option_map (λ v. view v.now) client.entry) (Some text.now) (Some url.now)) }
{
    let names = url.query_names(alloc)?;
    if has_answer_name(&names) || is_own_path(url.path.as_str()) {
        return Ok(true);
    }
    match client {
        Some(client) => is_not_of(alloc, client, text, url),
        None => Ok(false),
    }
}

fn misdirects(alloc: Global, clients: &[Value], party: &Value) -> Result<bool, NoMemory>
    ensures { IfOk result (λ b. b ≡ spec.party_misdirects (map view clients.now) (view party.now)) }
{
    let Some(text) = text_at(party, "redirect_uri") else {
        return Ok(false);
    };
    match url_of(alloc, text)? {
        Some(url) => is_misdirected(alloc, client_of(clients, party), text, &url),
        None => Ok(false),
    }
}

// Checks the redirect URI of a party. It is one of its client's, and its query has no name of a response parameter. Its path is
// neither one that the party serves itself nor the path of the logout URI.
pub(crate) fn redirect_rule(
    refusals: &mut Refusals,
    clients: &[Value],
    row: Row,
    party: &Value,
) -> Result<(), NoMemory>
    ensures { OnOk result (refusals.new ≡ refusals.old ++ spec.redirect_rule (map view clients.now) row (view party.now)) }
{
    let alloc = refusals.alloc();
    if !misdirects(alloc, clients, party)? {
        return Ok(());
    }
    refusals.note(RegNo::BadUrl(row.path(alloc, "redirect_uri")?))
}

/// The response types of a client; `code` if it states none.
pub fn response_texts(alloc: Global, client: &Value) -> Result<Vec<Text>, NoMemory>
    ensures { IfOk result (λ v. v.items ≡ spec.response_texts (view client.now)) }
{
    if client.get("response_types").is_some() {
        return texts_at(alloc, client, "response_types");
    }
    let mut texts = Vec::new(alloc);
    texts.push(Text::new(alloc, "code")?)?;
    Ok(texts)
}

/// Whether one of the texts is the response type of this number.
pub fn has_type(number: usize, texts: &[Text]) -> bool
    ensures { result ≡ spec.has_type number texts.now }
{
    for text in texts {
        if number_of_type(text.as_str()) == Some(number) {
            return true;
        }
    }
    false
}

#[tactic(auto, unfolding(crate::specs::Rows::lacks_type))]
fn lacks_type(alloc: Global, clients: &[Value], party: &Value) -> Result<bool, NoMemory>
    ensures { IfOk result (λ b. b ≡ spec.party_lacks_type (map view clients.now) (view party.now)) }
{
    let Some(client) = client_of(clients, party) else {
        return Ok(false);
    };
    let texts = response_texts(alloc, client)?;
    match number_of_type(text_or(party, "response_type", "code")) {
        Some(number) => Ok(!has_type(number, &texts)),
        None => Ok(false),
    }
}

// Checks the response type of a party: its client must have it.
pub(crate) fn type_rule(
    refusals: &mut Refusals,
    clients: &[Value],
    row: Row,
    party: &Value,
) -> Result<(), NoMemory>
    ensures { OnOk result (refusals.new ≡ refusals.old ++ spec.type_rule (map view clients.now) row (view party.now)) }
{
    let alloc = refusals.alloc();
    if !lacks_type(alloc, clients, party)? {
        return Ok(());
    }
    refusals.note(RegNo::WrongKind(row.path(alloc, "response_type")?))
}
