// Where a reply sends a browser on.

ghost use Rattle.std.specs.Prelude.{◌≡◌, drop, option_map, IfOk};
ghost use Rattle.std.specs.Option.{option_copied};
ghost use Rattle.std.specs.List.{after_first, position_from};
ghost use Rattle.std.specs.Str.{bytes_eq};
ghost use Rattle.sso_base.specs.RequestLine.{is_question};
ghost use Rattle.auth_answer.specs.Printing.{answer_form, refusal_form};
ghost use Rattle.web_requests.specs.Locations as spec;

use auth_answer::{Answer, print_answer, print_refusal};
use client_registry::{Client, Registry};
use oidc_words::Refusal;
use op_exchange::OpReply;
use registered_url::WebUrl;
use rp_exchange::RpReply;
use sso_base::{Blob, NoMemory, Text, Texts};
use sso_places::WorldReply;
use std::alloc::Global;

/// Where a browser is sent on in the course of a login.
#[derive(Drop)]
pub enum Location {
    /// To the authorization endpoint of the provider.
    Provider {
        /// The authorization request, as a form.
        query: Blob,
    },
    /// To a redirection URI of a client.
    Client {
        /// The redirection URI.
        redirect: Text,
        /// Whether the authorization response is in the fragment. If not, it is in the query.
        fragment: bool,
        /// The authorization response, as a form. In the query it comes after what is registered there.
        form: Blob,
    },
}

// ---- redirection URIs, as they are registered

fn is_same(one: &str, other: &str) -> bool
    ensures { result ≡ bytes_eq one.now other.now }
{
    one == other
}

// The place of a text in a list, from 0.
fn place_of(texts: &Texts, text: &str) -> Option<usize>
    ensures { result ≡ position_from (λ t. bytes_eq t text.now) 0 texts.now }
{
    for place in 0..texts.count() {
        if is_same(texts.at(place), text) {
            return Some(place);
        }
    }
    None
}

// What is kept of a redirection URI of a client.
fn kept_url<'a>(uri: &str, client: &'a Client) -> Option<&'a WebUrl>
    ensures { option_map (λ u. u.now) result ≡ spec.kept_url uri.now client.now }
{
    let place = place_of(&client.redirects, uri)?;
    client.redirect_urls.as_slice().get(place)
}

// The query of a redirection URI, where it has one.
fn registered_query<'a>(registry: &'a Registry, uri: &str) -> Option<&'a Text>
    ensures { option_map (λ t. t.now) result ≡ spec.registered_query registry.now uri.now }
{
    let number = registry.client_of_uri(uri)?;
    let url = kept_url(uri, registry.client(number))?;
    url.query.as_ref()
}

// ---- forms

// What follows so many bytes of a text.
fn after(text: &Text, count: usize) -> &[u8]
    ensures { result.now ≡ drop count text.now }
{
    let bytes = text.as_str().as_bytes();
    if count > bytes.len() {
        return &[];
    }
    bytes.split_at(count).1
}

// The form of an answer.
#[tactic(auto, using(crate::proofs::FormsBehind::answer_after))]
fn answer_form(alloc: Global, answer: &Answer) -> Result<Blob, NoMemory>
    ensures { IfOk result (λ b. b ≡ answer_form answer.now) }
{
    let location = print_answer(alloc, answer)?;
    Blob::new(alloc, after(&location, answer.redirect.as_str().len() + 1))
}

// The form of a refusal.
#[tactic(auto, using(crate::proofs::FormsBehind::refusal_after))]
fn refusal_form(alloc: Global, refusal: &Refusal) -> Result<Blob, NoMemory>
    ensures { IfOk result (λ b. b ≡ refusal_form refusal.now) }
{
    let location = print_refusal(alloc, refusal)?;
    Blob::new(alloc, after(&location, refusal.redirect.as_str().len() + 1))
}

// A form behind a query.
fn behind(alloc: Global, query: Option<&Text>, form: Blob) -> Result<Blob, NoMemory>
    ensures { IfOk result (λ b. b ≡ spec.behind (option_copied query.entry) form) }
{
    let Some(query) = query else {
        return Ok(form);
    };
    let mut whole = Vec::from_slice(alloc, query.as_str().as_bytes())?;
    whole.extend_from_slice(b"&")?;
    whole.extend_from_slice(form.as_bytes())?;
    Ok(Blob::from_vec(whole))
}

// A form at a redirection URI.
pub(crate) fn location_at(
    alloc: Global,
    registry: &Registry,
    uri: &Text,
    fragment: bool,
    form: Blob,
) -> Result<Location, NoMemory>
    ensures { IfOk result (λ l. l ≡ spec.location_at registry.now uri.now fragment form) }
{
    let redirect = uri.copy(alloc)?;
    let form = if fragment {
        form
    } else {
        behind(alloc, registered_query(registry, uri.as_str()), form)?
    };
    Ok(Location::Client {
        redirect,
        fragment,
        form,
    })
}

// ---- replies

// Where an answer sends a browser on.
pub(crate) fn answer_location(
    alloc: Global,
    registry: &Registry,
    answer: &Answer,
) -> Result<Location, NoMemory>
    ensures { IfOk result (λ l. l ≡ spec.answer_at registry.now answer.now) }
{
    let form = answer_form(alloc, answer)?;
    location_at(alloc, registry, &answer.redirect, answer.fragment, form)
}

fn refusal_location(
    alloc: Global,
    registry: &Registry,
    refusal: &Refusal,
) -> Result<Location, NoMemory>
    ensures { IfOk result (λ l. l ≡ spec.refusal_at registry.now refusal.now) }
{
    let form = refusal_form(alloc, refusal)?;
    location_at(alloc, registry, &refusal.redirect, refusal.fragment, form)
}

// What follows the first `?`.
fn query_in(location: &Text) -> &str
    ensures { result.now ≡ after_first is_question location.now }
{
    match location.as_str().split_once('?') {
        Some((_, query)) => query,
        None => "",
    }
}

/// The location to which a reply sends a browser (RFC 9110, 10.2.2): an authorization request of a party to the provider
/// (OpenID Connect Core 1.0, 3.1.2.1), or a response of the provider to its redirection URI (3.1.2.5 and 3.1.2.6). `None` for
/// any other reply, also for a login that succeeded.
///
/// No location is read as a URL again. The request is what follows the first `?` of its location. A response in the query comes
/// after the query that is registered (RFC 6749, 3.1.2).
#[tactic(auto, unfolding(crate::specs::Locations::location_of))]
pub fn location_of(
    alloc: Global,
    registry: &Registry,
    reply: &WorldReply,
) -> Result<Option<Location>, NoMemory>
    ensures { IfOk result (λ o. o ≡ spec.location_of registry.now reply.now) }
{
    match reply {
        WorldReply::Provider(OpReply::Answered { answer, .. }) => {
            Ok(Some(answer_location(alloc, registry, answer)?))
        }
        WorldReply::Provider(OpReply::Refused { refusal, .. }) => {
            Ok(Some(refusal_location(alloc, registry, refusal)?))
        }
        WorldReply::Party(RpReply::Ask { to, .. }) => {
            let query = Blob::new(alloc, query_in(to).as_bytes())?;
            Ok(Some(Location::Provider { query }))
        }
        _ => Ok(None),
    }
}
