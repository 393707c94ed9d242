// The location to which a browser is sent to begin a login.

ghost use Rattle.std.specs.Prelude.{◌≡◌, ◌≤◌, ◌<◌, length, IfOk};
ghost use Rattle.claim_set.specs.Reading.{claims_text};
ghost use Rattle.request_object.specs.Request.{request_members, request_text};
ghost use Rattle.client_registry.specs.Numbers.{party_row as row_of, party_client as client_of};
ghost use Rattle.login_request.specs.Parties.{MayAsk};
ghost use Rattle.login_request.specs.Request as spec;

use crate::params::{login_params, outer_params};
use client_registry::{Client, Party, Provider, Registry};
use request_object::seal_request;
use request_params::{Params, print_request};
use sso_base::{NoMemory, Text, Word, know_word};
use std::alloc::Global;

// The row of a party.
fn party_row(registry: &Registry, party: u32) -> &Party
    requires { party < length registry.now.parties }
    ensures { result.now ≡ row_of registry.now party }
{
    registry.party(party)
}

// The client of a party. The contract of `parties` states the invariant of the registry.
fn client_row(registry: &Registry, party: u32) -> &Client
    requires { party < length registry.now.parties }
    ensures { result.now ≡ client_of registry.now party }
{
    let _parties = registry.parties();
    let number = party_row(registry, party).client;
    registry.client(number)
}

// A lemma for the proof of `login_object` about the size of the claims. It uses the invariant of the registry and the bounds of
// words.
fn bounds_of(registry: &Registry, party: u32, issuer: &Text, state: &Word, nonce: &Word)
    requires party { party < length registry.now.parties }
    requires issuer { length issuer.now ≤ 200 }
    ensures { MayAsk registry.now party issuer.now state.now nonce.now }
{
    let _parties = registry.parties();
    let _issuer = issuer.as_str();
    know_word(state);
    know_word(nonce);
}

// The parameters of a login, sealed.
fn request_for(
    alloc: Global,
    client: &Client,
    party: &Party,
    issuer: &Text,
    state: &Word,
    nonce: &Word,
) -> Result<Text, NoMemory>
    requires { length (claims_text (request_members client.now issuer.now (spec.login_params client.now party.now state.now nonce.now))) ≤ 6000 }
    ensures { IfOk result (λ t. t ≡ request_text client.now issuer.now (spec.login_params client.now party.now state.now nonce.now)) }
{
    let params = login_params(alloc, client, party, state, nonce)?;
    seal_request(alloc, client, issuer, &params)
}

/// The request object for a login of a party of the registry: its parameters, sealed for this issuer under the secret that its
/// client seals with (OpenID Connect Core 1.0, 6.1).
///
/// The issuer has at most 200 bytes. So the claims are never too long.
pub fn login_object(
    alloc: Global,
    registry: &Registry,
    party: u32,
    issuer: &Text,
    state: &Word,
    nonce: &Word,
) -> Result<Text, NoMemory>
    requires party { party < length registry.now.parties }
    requires issuer { length issuer.now ≤ 200 }
    ensures { IfOk result (λ t. t ≡ spec.login_object (client_of registry.now party) (row_of registry.now party) issuer.now state.now nonce.now) }
{
    bounds_of(registry, party, issuer, state, nonce);
    let row = party_row(registry, party);
    let client = client_row(registry, party);
    request_for(alloc, client, row, issuer, state, nonce)
}

// The parameters in the location.
fn sent_params(
    alloc: Global,
    registry: &Registry,
    party: u32,
    provider: &Provider,
    state: &Word,
    nonce: &Word,
) -> Result<Params, NoMemory>
    requires party { party < length registry.now.parties }
    requires issuer { length provider.now.issuer ≤ 200 }
    ensures { IfOk result (λ p. p ≡ spec.sent_params (client_of registry.now party) (row_of registry.now party) provider.now state.now nonce.now) }
{
    let row = party_row(registry, party);
    let client = client_row(registry, party);
    if !row.signed {
        return login_params(alloc, client, row, state, nonce);
    }
    let object = login_object(alloc, registry, party, &provider.issuer, state, nonce)?;
    outer_params(alloc, client, row, object)
}

/// The location to which a browser is sent to begin a login of a party of the registry. It is the authorization endpoint of the
/// provider, with the authorization request in its query (OpenID Connect Core 1.0, 3.1.2.1, 3.2.2.1 and 3.3.2.1; RFC 6749,
/// 4.1.1).
///
/// The request has the party's response type, client, redirect URI, scope, `prompt` and `max_age`, and the texts of the two
/// words as `state` and `nonce`. If the party's requests are signed, all of these are in a request object, sealed for the
/// provider under the secret that its client seals with. Outside it are `response_type`, `client_id`, `redirect_uri` and the
/// scope `openid` (OpenID Connect Core 1.0, 6.1).
///
/// The issuer of the provider has at most 200 bytes. So the claims of a request object are never too long.
#[tactic(auto, unfolding(crate::specs::Request::login_location))]
pub fn login_request(
    alloc: Global,
    registry: &Registry,
    party: u32,
    provider: &Provider,
    state: &Word,
    nonce: &Word,
) -> Result<Text, NoMemory>
    requires party { party < length registry.now.parties }
    requires issuer { length provider.now.issuer ≤ 200 }
    ensures { IfOk result (λ t. t ≡ spec.login_location (client_of registry.now party) (row_of registry.now party) provider.now state.now nonce.now) }
{
    let params = sent_params(alloc, registry, party, provider, state, nonce)?;
    print_request(alloc, &provider.authorize, &params)
}
