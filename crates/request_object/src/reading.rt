// Reading a request object, or rejecting a text for the first reason that applies.

ghost use Rattle.std.specs.Prelude.{◌≡◌, ◌⊎◌, Ok, Err, IfOk, IfErr, IsFalse};
ghost use Rattle.sso_base.specs.Texts.{is_other as is_other_text};
ghost use Rattle.request_params.specs.declared.params.Params.{Params};
ghost use Rattle.request_object.specs.Object.{IsRequestObject};
ghost use Rattle.request_object.specs.Reading.{lacks as lacks_text, judged, request_of, request_read, hides_memory};

use crate::no::ObjNo;
use crate::raw::{RawRequest, raw_claims};
use claim_set::{ClaimSet, read_claims};
use client_keys::opening_key;
use client_registry::Client;
use jws_compact::unseal;
use request_params::Params;
use sso_base::{Text, Texts};
use std::alloc::Global;

// Whether there is a text, and it differs from this one.
fn is_other(text: &Text, given: &Option<Text>) -> bool
    ensures { result ≡ is_other_text text.now given.now }
{
    match given {
        None => false,
        Some(given) => !given.equals(text.as_str()),
    }
}

// Whether there are texts, and this one is not among them.
fn lacks(text: &Text, given: &Option<Texts>) -> bool
    ensures { result ≡ lacks_text text.now given.now }
{
    match given {
        None => false,
        Some(texts) => !texts.has(text.as_str()),
    }
}

// The parameters among the claims, if the object is the client's, for this issuer, and contains no request object.
#[tactic(auto, unfolding(crate::specs::Reading::judged))]
fn params_in(client: &Client, issuer: &Text, raw: RawRequest) -> Result<Params, ObjNo>
    ensures ok { IfOk result (λ p. judged client.now issuer.now raw ≡ Ok p) }
    ensures err { IfErr result (λ e. judged client.now issuer.now raw ≡ Err e) }
    ensures memory_is_outermost { IfErr result (λ e. IsFalse (hides_memory e)) }
{
    let RawRequest { first, last } = raw;
    if is_other(&client.id, &first.iss) {
        return Err(ObjNo::Issuer);
    }
    if lacks(issuer, &first.aud) {
        return Err(ObjNo::Audience);
    }
    if last.request.is_some() || last.request_uri.is_some() {
        return Err(ObjNo::Nested);
    }
    Ok(Params {
        response_type: last.response_type,
        client_id: first.client_id,
        redirect_uri: last.redirect_uri,
        scope: last.scope,
        state: last.state,
        nonce: first.nonce,
        response_mode: last.response_mode,
        prompt: first.prompt,
        max_age: first.max_age,
        claims: first.claims,
        request: last.request,
        request_uri: last.request_uri,
        registration: last.registration,
    })
}

// The parameters in a claim set.
#[tactic(auto, unfolding(crate::specs::Reading::request_of))]
fn request_in(
    alloc: Global,
    client: &Client,
    issuer: &Text,
    claims: &ClaimSet,
) -> Result<Params, ObjNo>
    ensures ok { IfOk result (λ p. request_of client.now issuer.now claims.now ≡ Ok p) }
    ensures err { IfErr result (λ e. (e ≡ ObjNo.NoMemory) ⊎ (request_of client.now issuer.now claims.now ≡ Err e)) }
    ensures memory_is_outermost { IfErr result (λ e. IsFalse (hides_memory e)) }
{
    let raw = raw_claims(alloc, claims)?;
    params_in(client, issuer, raw)
}

// The parameters of the request object that a text is, or the first error that applies.
#[tactic(auto, unfolding(crate::specs::Reading::request_read))]
fn opened(alloc: Global, client: &Client, issuer: &Text, text: &[u8]) -> Result<Params, ObjNo>
    ensures answers { IfOk result (λ p. request_read client.now issuer.now text.now ≡ Ok p) }
    ensures refuses { IfErr result (λ e. (e ≡ ObjNo.NoMemory) ⊎ (request_read client.now issuer.now text.now ≡ Err e)) }
    ensures memory_is_outermost { IfErr result (λ e. IsFalse (hides_memory e)) }
{
    let key = opening_key(alloc, client, text)?;
    let opened = unseal(alloc, key.as_str().as_bytes(), text)?;
    let claims = read_claims(alloc, opened.payload.as_bytes())?;
    request_in(alloc, client, issuer, &claims)
}

/// The parameters of the request object that `text` is, of this client for the provider with this issuer (OpenID Connect
/// Core 1.0, 6.1 and 6.3).
///
/// A parameter is a string. `max_age` may also be a whole number from 0 to 2^40 - 1, which is read in decimal, and
/// `claims` an object, which is read as its JSON text. An empty string is a value. `iss` and `aud` may be absent; `exp`,
/// `iat`, `nbf`, `jti` and all other claims are ignored.
///
/// Accepts exactly the request objects of this client for this issuer, sealed under either of its secrets. For any other text
/// it returns the first error that applies, in the order of [`ObjNo`]. `NoMemory` is never wrapped in another error.
pub fn unseal_request(
    alloc: Global,
    client: &Client,
    issuer: &Text,
    text: &[u8],
) -> Result<Params, ObjNo>
    ensures object { IfOk result (λ p. IsRequestObject client.now issuer.now text.now p) }
    ensures accepts { (p : Params) → IsRequestObject client.now issuer.now text.now p → IfErr result (λ e. e ≡ ObjNo.NoMemory) }
    ensures answers { IfOk result (λ p. request_read client.now issuer.now text.now ≡ Ok p) }
    ensures refuses { IfErr result (λ e. (e ≡ ObjNo.NoMemory) ⊎ (request_read client.now issuer.now text.now ≡ Err e)) }
    ensures memory_is_outermost { IfErr result (λ e. IsFalse (hides_memory e)) }
{
    opened(alloc, client, issuer, text)
}
