// Requests that follow a location.

ghost use Rattle.std.specs.Prelude.{◌≡◌, ◌<◌, ◌++◌, length, option_map, IfOk, IfSome};
ghost use Rattle.web_requests.specs.Following as spec;

use crate::location::Location;
use crate::sent::{Sent, got, posted, under_number};
use client_registry::Registry;
use oidc_words::AUTHORIZE_PATH;
use sso_base::{Ask, Blob, NoMemory, Text};
use sso_places::{Jar, To};
use std::alloc::Global;

// A path of the provider.
pub(crate) fn provider_path(
    alloc: Global,
    registry: &Registry,
    path: &str,
) -> Result<Text, NoMemory>
    ensures { IfOk result (λ t. t ≡ registry.now.prefix ++ path.now) }
{
    let mut whole = String::from_str(alloc, registry.prefix().as_str())?;
    whole.push_str(path)?;
    Ok(Text::from_string(whole))
}

// The party with a redirect URI.
#[tactic(auto, using(sso_base::proofs::ListSteps::drop_at))]
fn party_of_uri(registry: &Registry, uri: &str) -> Option<u32>
    ensures party { result ≡ spec.party_of_uri registry.now uri.now }
    ensures below { IfSome result (λ n. n < length registry.now.parties) }
{
    for number in 0..registry.parties() {
        if registry.party(number).redirect.equals(uri) {
            return Some(number);
        }
    }
    None
}

// A response at the path of a redirect URI.
fn response_ask(
    alloc: Global,
    path: &Text,
    fragment: bool,
    form: &Blob,
    jar: &Jar,
) -> Result<Ask, NoMemory>
    ensures { IfOk result (λ a. a ≡ spec.response_ask path.now fragment form.now jar.now) }
{
    let path = path.copy(alloc)?;
    if fragment {
        let form = form.copy(alloc)?;
        Ok(posted(alloc, path, Some(form), jar))
    } else {
        got(alloc, path, form.as_bytes(), jar)
    }
}

// The request to the provider.
fn to_provider(
    alloc: Global,
    registry: &Registry,
    from: u32,
    query: &Blob,
    jar: &Jar,
) -> Result<Sent, NoMemory>
    ensures { IfOk result (λ s. s ≡ spec.request_sent registry.now from query.now jar.now) }
{
    let path = provider_path(alloc, registry, AUTHORIZE_PATH)?;
    let ask = got(alloc, path, query.as_bytes(), jar)?;
    Ok(under_number(from, To::Provider, ask))
}

// The request to a redirect URI, if a party has it.
fn to_client(
    alloc: Global,
    registry: &Registry,
    from: u32,
    redirect: &Text,
    fragment: bool,
    form: &Blob,
    jar: &Jar,
) -> Result<Option<Sent>, NoMemory>
    ensures { IfOk result (λ o. o ≡ option_map (spec.response_sent registry.now from fragment form.now jar.now) (spec.party_of_uri registry.now redirect.now)) }
{
    let Some(number) = party_of_uri(registry, redirect.as_str()) else {
        return Ok(None);
    };
    let path = &registry.party(number).redirect_url.path;
    let ask = response_ask(alloc, path, fragment, form, jar)?;
    Ok(Some(under_number(from, To::Party(number), ask)))
}

/// The role that serves a location: the provider for an authorization request (OpenID Connect Core 1.0, 3.1.2.1), and the party
/// with the redirect URI for a response (3.1.2.5). `None` if no party has it. It takes no memory.
pub fn receiver(registry: &Registry, location: &Location) -> Option<To>
    ensures { result ≡ spec.receiver registry.now location.now }
{
    match location {
        Location::Provider { .. } => Some(To::Provider),
        Location::Client { redirect, .. } => {
            let number = party_of_uri(registry, redirect.as_str())?;
            Some(To::Party(number))
        }
    }
}

/// The request with which a browser follows a location, with its cookies for the [`receiver`]. `None` if the location has no
/// receiver.
///
/// An authorization request is a GET of the provider's authorization endpoint. A response in the query is a GET of the path of
/// the registered redirect URI. A response in the fragment is posted to this path by the page that is served there (OpenID
/// Connect Core 1.0, 3.2.2.5 and 15.5.3).
#[tactic(auto, unfolding(crate::specs::Following::followed))]
pub fn followed(
    alloc: Global,
    registry: &Registry,
    from: u32,
    location: &Location,
    jar: &Jar,
) -> Result<Option<Sent>, NoMemory>
    ensures { IfOk result (λ o. o ≡ spec.followed registry.now from location.now jar.now) }
{
    match location {
        Location::Provider { query } => Ok(Some(to_provider(alloc, registry, from, query, jar)?)),
        Location::Client {
            redirect,
            fragment,
            form,
        } => to_client(alloc, registry, from, redirect, *fragment, form, jar),
    }
}
