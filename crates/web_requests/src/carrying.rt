// A message from one server to another, as it arrives.

ghost use Rattle.std.specs.Prelude.{◌≡◌, ◌<◌, [], length, option_map, slice_get, unwrap_or, IfOk, IfSome};
ghost use Rattle.client_registry.specs.Numbers.{party_client};
ghost use Rattle.client_registry.specs.Records.{no_url};
ghost use Rattle.sso_base.specs.Texts.{is_given};
ghost use Rattle.web_requests.specs.Carrying as spec;

use crate::following::provider_path;
use crate::sent::{Sent, under_number};
use client_registry::{Client, Registry};
use oidc_words::{TOKEN_PATH, USERINFO_PATH};
use op_exchange::OpReply;
use registered_url::WebUrl;
use rp_exchange::RpReply;
use sso_base::{Ask, Blob, Message, Messages, Method, NoMemory, Text, copied_text};
use sso_places::{To, WorldReply};
use std::alloc::Global;

// The message with this number.
fn message_at(messages: &Messages, number: u64) -> Option<&Message>
    ensures { option_map (λ m. m.now) result ≡ slice_get messages.now number }
{
    if number >= messages.count() as u64 {
        return None;
    }
    Some(messages.at(number as usize))
}

// The message with this number in a reply.
fn message_of(reply: &WorldReply, number: u64) -> Option<&Message>
    ensures { option_map (λ m. m.now) result ≡ slice_get (spec.messages_of reply.now) number }
{
    match reply {
        WorldReply::Provider(OpReply::SignedOut { messages }) => message_at(messages, number),
        WorldReply::Party(RpReply::Exchange { message, .. } | RpReply::Fetch { message, .. })
            if number == 0 => Some(message),
        _ => None,
    }
}

// Whether there is a text, and it is this one.
fn is_text(text: &Option<Text>, other: &str) -> bool
    ensures { result ≡ is_given other.now text.now }
{
    match text {
        Some(text) => text.equals(other),
        None => false,
    }
}

// The row of the client that a party is. Reading the count makes the registry's invariant known.
fn client_of_party(registry: &Registry, party: u32) -> &Client
    requires { party < length registry.now.parties }
    ensures { result.now ≡ party_client registry.now party }
{
    let _parties = registry.parties();
    let number = registry.party(party).client;
    registry.client(number)
}

// The first party whose client has this logout URI.
fn party_of_logout(registry: &Registry, uri: &str) -> Option<u32>
    ensures party { result ≡ spec.party_of_logout registry.now uri.now }
    ensures below { IfSome result (λ n. n < length registry.now.parties) }
{
    for number in 0..registry.parties() {
        if is_text(&client_of_party(registry, number).logout, uri) {
            return Some(number);
        }
    }
    None
}

fn method_of(body: &Option<Blob>) -> Method
    ensures { result ≡ spec.method_of body.now }
{
    match body {
        Some(_) => Method::Post,
        None => Method::Get,
    }
}

fn copied_body(alloc: Global, body: &Option<Blob>) -> Result<Option<Blob>, NoMemory>
    ensures { IfOk result (λ o. o ≡ body.now) }
{
    match body {
        Some(form) => Ok(Some(form.copy(alloc)?)),
        None => Ok(None),
    }
}

// A message at a path, with a query.
fn message_ask(alloc: Global, path: Text, query: &[u8], message: &Message) -> Result<Ask, NoMemory>
    ensures { IfOk result (λ a. a ≡ spec.message_ask path query.now message.now) }
{
    Ok(Ask {
        method: method_of(&message.body),
        path,
        query: Blob::new(alloc, query)?,
        body: copied_body(alloc, &message.body)?,
        first: None,
        second: None,
        auth: copied_text(alloc, &message.auth)?,
    })
}

fn at_provider(
    alloc: Global,
    registry: &Registry,
    path: &str,
    message: &Message,
) -> Result<Sent, NoMemory>
    ensures { IfOk result (λ s. s ≡ spec.at_provider registry.now path.now message.now) }
{
    let path = provider_path(alloc, registry, path)?;
    let ask = message_ask(alloc, path, &[], message)?;
    Ok(under_number(0, To::Provider, ask))
}

// The query of a URL, empty if it has none.
fn query_of(url: &WebUrl) -> &[u8]
    ensures { result.now ≡ unwrap_or url.now.query [] }
{
    match &url.query {
        Some(query) => query.as_str().as_bytes(),
        None => &[],
    }
}

// A message to the logout URI of a client; if it has none, the path is empty.
fn logout_ask(alloc: Global, url: &Option<WebUrl>, message: &Message) -> Result<Ask, NoMemory>
    ensures { IfOk result (λ a. a ≡ spec.logout_ask (unwrap_or url.now no_url) message.now) }
{
    match url {
        Some(url) => message_ask(alloc, url.path.copy(alloc)?, query_of(url), message),
        None => message_ask(alloc, Text::new(alloc, "")?, &[], message),
    }
}

fn at_party(
    alloc: Global,
    registry: &Registry,
    message: &Message,
    party: u32,
) -> Result<Sent, NoMemory>
    requires { party < length registry.now.parties }
    ensures { IfOk result (λ s. s ≡ spec.at_party registry.now message.now party) }
{
    let client = client_of_party(registry, party);
    let ask = logout_ask(alloc, &client.logout_url, message)?;
    Ok(under_number(0, To::Party(party), ask))
}

// A message to the token endpoint, to UserInfo, or to a logout URI of the registry.
fn delivered(
    alloc: Global,
    registry: &Registry,
    message: &Message,
) -> Result<Option<Sent>, NoMemory>
    ensures { IfOk result (λ o. o ≡ spec.delivered registry.now message.now) }
{
    let to = message.to.as_str();
    let provider = registry.provider();
    if provider.token.equals(to) {
        return Ok(Some(at_provider(alloc, registry, TOKEN_PATH, message)?));
    }
    if is_text(&provider.userinfo, to) {
        return Ok(Some(at_provider(alloc, registry, USERINFO_PATH, message)?));
    }
    match party_of_logout(registry, to) {
        Some(party) => Ok(Some(at_party(alloc, registry, message, party)?)),
        None => Ok(None),
    }
}

/// The request that delivers the message with this number, from 0, of a reply. It is the token request or the UserInfo request
/// of a party (OpenID Connect Core 1.0, 3.1.3.1 and 5.3.1), or a logout request of a sign-out (Back-Channel Logout 1.0, 2.5).
/// `None` if the reply has no such message, or if no role has its URL.
///
/// A server sends it, so it has the number 0 and no cookies. The provider receives what goes to its token endpoint or its
/// UserInfo endpoint. Otherwise the first party receives it whose client has that logout URI; several clients may have the same
/// one.
#[tactic(auto, unfolding(crate::specs::Carrying::carried))]
pub fn carried(
    alloc: Global,
    registry: &Registry,
    reply: &WorldReply,
    number: u64,
) -> Result<Option<Sent>, NoMemory>
    ensures { IfOk result (λ o. o ≡ spec.carried registry.now reply.now number) }
{
    match message_of(reply, number) {
        Some(message) => delivered(alloc, registry, message),
        None => Ok(None),
    }
}
