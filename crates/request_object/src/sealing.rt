// Writing a request object: the parameters as a claim set, sealed under the secret that the client seals with.

ghost use Rattle.std.specs.Prelude.{◌≡◌, ◌≤◌, IfOk, OnOk, Ok, None, length};
ghost use Rattle.claim_set.specs.Building.{put_all};
ghost use Rattle.claim_set.specs.Reading.{claims_text};
ghost use Rattle.request_object.specs.Request.{first_entries, last_entries, request_members, request_text};
ghost use Rattle.request_object.specs.Reading.{request_read};

use claim_set::{ClaimSet, write_claims};
use client_registry::Client;
use jws_compact::Typ;
use request_params::Params;
use sso_base::{NoMemory, Text};
use std::alloc::Global;

// Sets the claims up to `nonce`.
fn put_first(
    set: &mut ClaimSet,
    client: &Client,
    issuer: &Text,
    params: &Params,
) -> Result<(), NoMemory>
    ensures { OnOk result (set.new ≡ put_all (first_entries client.now issuer.now params.now) set.old) }
{
    set.put_text("aud", issuer.as_str())?;
    set.put_text_if("claims", &params.claims)?;
    set.put_text_if("client_id", &params.client_id)?;
    set.put_text("iss", client.id.as_str())?;
    set.put_text_if("max_age", &params.max_age)?;
    set.put_text_if("nonce", &params.nonce)
}

// Sets the claims from `prompt` on.
fn put_last(set: &mut ClaimSet, params: &Params) -> Result<(), NoMemory>
    ensures { OnOk result (set.new ≡ put_all (last_entries params.now) set.old) }
{
    set.put_text_if("prompt", &params.prompt)?;
    set.put_text_if("redirect_uri", &params.redirect_uri)?;
    set.put_text_if("response_mode", &params.response_mode)?;
    set.put_text_if("response_type", &params.response_type)?;
    set.put_text_if("scope", &params.scope)?;
    set.put_text_if("state", &params.state)
}

// The claim set of a request object.
#[tactic(auto, unfolding(crate::specs::Request::request_members))]
fn request_set(
    alloc: Global,
    client: &Client,
    issuer: &Text,
    params: &Params,
) -> Result<ClaimSet, NoMemory>
    ensures { IfOk result (λ s. s ≡ request_members client.now issuer.now params.now) }
{
    let mut set = ClaimSet::new(alloc);
    put_first(&mut set, client, issuer, params)?;
    put_last(&mut set, params)?;
    Ok(set)
}

/// How many bytes the written claims have. This tests the first precondition of [`seal_request`].
pub fn written_len(
    alloc: Global,
    client: &Client,
    issuer: &Text,
    params: &Params,
) -> Result<usize, NoMemory>
    ensures { IfOk result (λ n. n ≡ length (claims_text (request_members client.now issuer.now params.now))) }
{
    let written = write_claims(&request_set(alloc, client, issuer, params)?)?;
    Ok(written.as_bytes().len())
}

/// The request object with these parameters, of the client for the provider with this issuer. Its claims are `iss`, the
/// client's identifier, `aud`, the issuer, and each parameter that is present, as a string. It is sealed under the
/// secret that the client seals with (OpenID Connect Core 1.0, 6.1). Reading it returns the same parameters.
///
/// The written claims have at most 6,000 bytes; [`written_len`] tests this. `request`, `request_uri` and `registration` are
/// absent.
pub fn seal_request(
    alloc: Global,
    client: &Client,
    issuer: &Text,
    params: &Params,
) -> Result<Text, NoMemory>
    requires short { length (claims_text (request_members client.now issuer.now params.now)) ≤ 6000 }
    requires request { params.now.request ≡ None }
    requires request_uri { params.now.request_uri ≡ None }
    requires registration { params.now.registration ≡ None }
    ensures text { IfOk result (λ t. t ≡ request_text client.now issuer.now params.now) }
    ensures reads_back { IfOk result (λ t. request_read client.now issuer.now t ≡ Ok params.now) }
{
    let payload = write_claims(&request_set(alloc, client, issuer, params)?)?;
    let key = client.sealing().as_str();
    jws_compact::seal(alloc, key.as_bytes(), Typ::Jwt, payload.as_bytes())
}
