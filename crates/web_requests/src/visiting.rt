// Requests that a browser sends on its own.

ghost use Rattle.std.specs.Prelude.{◌≡◌, IfOk};
ghost use Rattle.web_requests.specs.Visiting as spec;

use crate::following::provider_path;
use crate::sent::{Sent, got, posted, under_number};
use client_registry::Registry;
use oidc_words::{BEGIN_PATH, HOME_PATH, LEAVE_PATH, SIGNOUT_PATH};
use sso_base::{NoMemory, Text};
use sso_places::{Jar, To};
use std::alloc::Global;

/// The request that begins a login at a party: a GET of `/login` there (our own path), with the browser's cookies for the
/// party.
pub fn login_begun(alloc: Global, from: u32, party: u32, jar: &Jar) -> Result<Sent, NoMemory>
    ensures { IfOk result (λ s. s ≡ spec.login_begun from party jar.now) }
{
    let path = Text::new(alloc, BEGIN_PATH)?;
    let ask = got(alloc, path, &[], jar)?;
    Ok(under_number(from, To::Party(party), ask))
}

/// The request that shows who is logged in at a party: a GET of `/` there (our own path), with the browser's cookies for the
/// party.
pub fn party_visited(alloc: Global, from: u32, party: u32, jar: &Jar) -> Result<Sent, NoMemory>
    ensures { IfOk result (λ s. s ≡ spec.party_visited from party jar.now) }
{
    let path = Text::new(alloc, HOME_PATH)?;
    let ask = got(alloc, path, &[], jar)?;
    Ok(under_number(from, To::Party(party), ask))
}

/// The request that leaves a party: a POST to `/leave` there (our own path), with the browser's cookies for the party.
pub fn party_left(alloc: Global, from: u32, party: u32, jar: &Jar) -> Result<Sent, NoMemory>
    ensures { IfOk result (λ s. s ≡ spec.party_left from party jar.now) }
{
    let path = Text::new(alloc, LEAVE_PATH)?;
    let ask = posted(alloc, path, None, jar);
    Ok(under_number(from, To::Party(party), ask))
}

/// The request that signs out at the provider: a POST to `/signout` below its issuer (our own path), with the browser's cookies
/// for the provider.
pub fn signed_out(
    alloc: Global,
    registry: &Registry,
    from: u32,
    jar: &Jar,
) -> Result<Sent, NoMemory>
    ensures { IfOk result (λ s. s ≡ spec.signed_out registry.now from jar.now) }
{
    let path = provider_path(alloc, registry, SIGNOUT_PATH)?;
    let ask = posted(alloc, path, None, jar);
    Ok(under_number(from, To::Provider, ask))
}
