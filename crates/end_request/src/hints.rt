// The client of a hint.

ghost use Rattle.std.specs.Prelude.{◌≡◌, IfOk};
ghost use Rattle.id_token.specs.Reading.{audience_in};
ghost use Rattle.end_request.specs.Hints as spec;

use client_keys::opening_key;
use client_registry::{Client, Registry};
use id_token::{IdClaims, IdNo, named_audience, read_id};
use sso_base::{NoMemory, Text, Texts};
use std::alloc::Global;

/// An ID Token, or why it is none.
type IdRead = Result<IdClaims, IdNo>;

// Reads an ID Token of the client.
fn read_as_id(alloc: Global, client: &Client, text: &Text) -> Result<IdRead, NoMemory>
    ensures { IfOk result (λ id. id ≡ spec.id_read_for client.now text.now) }
{
    let text = text.as_str().as_bytes();
    let key = opening_key(alloc, client, text)?;
    match read_id(alloc, key.as_str().as_bytes(), text) {
        Err(IdNo::NoMemory) => Err(NoMemory),
        id => Ok(id),
    }
}

// Whether this is an ID Token of the issuer for the client.
fn is_for(issuer: &str, id: &str, read: &IdRead) -> bool
    ensures { result ≡ spec.is_for issuer.now id.now read.now }
{
    match read {
        Ok(claims) => claims.iss.equals(issuer) && claims.aud.has(id),
        Err(_) => false,
    }
}

fn is_hint_for(alloc: Global, issuer: &str, hint: &Text, client: &Client) -> Result<bool, NoMemory>
    ensures { IfOk result (λ b. b ≡ spec.is_hint_for issuer.now hint.now client.now) }
{
    let read = read_as_id(alloc, client, hint)?;
    Ok(is_for(issuer, client.id.as_str(), &read))
}

// Whether a request that names this client, or none, may be of the client with the number n.
fn may_be(named: Option<u32>, n: u32) -> bool
    ensures { result ≡ spec.may_be named n }
{
    match named {
        None => true,
        Some(m) => n == m,
    }
}

// Whether this audience has the client.
fn is_named(aud: &Option<Texts>, id: &str) -> bool
    ensures { result ≡ spec.names aud.now id.now }
{
    match aud {
        Some(aud) => aud.has(id),
        None => false,
    }
}

// Whether a hint with this audience fits the client. No key is tried for a client that the hint does not name.
#[tactic(auto, using(crate::proofs::Naming::unnamed_misses))]
fn fits(
    alloc: Global,
    issuer: &str,
    named: Option<u32>,
    hint: &Text,
    aud: &Option<Texts>,
    n: u32,
    client: &Client,
) -> Result<bool, NoMemory>
    requires { aud.now ≡ audience_in hint.now }
    ensures { IfOk result (λ b. b ≡ spec.fits issuer.now named hint.now n client.now) }
{
    if !may_be(named, n) {
        return Ok(false);
    }
    if !is_named(aud, client.id.as_str()) {
        return Ok(false);
    }
    is_hint_for(alloc, issuer, hint, client)
}

// The first client that a hint with this audience fits.
fn fitting_of(
    alloc: Global,
    registry: &Registry,
    named: Option<u32>,
    hint: &Text,
    aud: &Option<Texts>,
) -> Result<Option<u32>, NoMemory>
    requires { aud.now ≡ audience_in hint.now }
    ensures { IfOk result (λ n. n ≡ spec.fitting_from registry.now.provider.issuer named hint.now 0 registry.now.clients) }
{
    let issuer = registry.provider().issuer.as_str();
    for n in 0..registry.clients() {
        if fits(alloc, issuer, named, hint, aud, n, registry.client(n))? {
            return Ok(Some(n));
        }
    }
    Ok(None)
}

/// The first client that a hint fits: the hint is an ID Token of the provider for the client, sealed under one of the client's
/// secrets. If the request names a client, it is that one or none. The audience is read once; only the secrets of clients in it
/// are tried.
pub(crate) fn fitting(
    alloc: Global,
    registry: &Registry,
    named: Option<u32>,
    hint: &Text,
) -> Result<Option<u32>, NoMemory>
    ensures { IfOk result (λ n. n ≡ spec.fitting_from registry.now.provider.issuer named hint.now 0 registry.now.clients) }
{
    let aud = named_audience(alloc, hint.as_str().as_bytes())?;
    fitting_of(alloc, registry, named, hint, &aud)
}
