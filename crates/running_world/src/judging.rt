// The premises at a place, by its request: whether a token that it checks is forged, and whether it presents a cookie that was
// set for another number.

ghost use Rattle.std.specs.Prelude.{◌≡◌, ◌<◌, length, Some, Ok, IfSome, IfOk};
ghost use Rattle.auth_request.specs.Judgement.{client_number as client_number_of};
ghost use Rattle.request_params.specs.Reading.{request_read};
ghost use Rattle.sso_places.specs.Tokens as sealed;
ghost use Rattle.sso_places.specs.Tokens.{token_if};
ghost use Rattle.sso_places.specs.Checked as spec;
ghost use Rattle.running_world.specs.declared.judging.TokenText.{TokenText as TokenOf};
ghost use Rattle.running_world.specs.Judging.{tokens_in};

use client_registry::Registry;
use jws_compact::{JwsNo, unseal};
use op_exchange::OpAsk;
use request_params::{AskNo, Params, form_of, read_request};
use rp_exchange::RpAsk;
use rp_request::logout_token_of;
use sso_base::{Ask, NoMemory, Text};
use sso_places::WorldAsk;
use std::alloc::Global;

/// A token, and the number of the client under whose secrets it is checked.
#[derive(Drop)]
pub(crate) struct TokenText {
    pub(crate) client: u32,
    pub(crate) text: Text,
}

// The number of the client that a request names.
#[tactic(auto, using(auth_request::proofs::Numbers::below))]
fn client_number(registry: &Registry, params: &Params) -> Option<u32>
    ensures known { IfSome result (λ n. n < length registry.now.clients) }
    ensures client { result ≡ client_number_of registry.now params.now }
{
    match &params.client_id {
        Some(id) => registry.find_client(id.as_str().as_bytes()),
        None => None,
    }
}

// A copy of the token, if there is one.
fn copied(alloc: Global, client: u32, text: &Option<Text>) -> Result<Option<TokenText>, NoMemory>
    ensures client { IfOk result (λ o. IfSome o (λ (t : TokenOf). t.client ≡ client)) }
    ensures token { IfOk result (λ o. tokens_in o ≡ token_if (Some client) text.now) }
{
    match text {
        Some(text) => Ok(Some(TokenText {
            client,
            text: text.copy(alloc)?,
        })),
        None => Ok(None),
    }
}

// The request object among these parameters, if their client is known.
fn object_among(
    alloc: Global,
    registry: &Registry,
    params: &Params,
) -> Result<Option<TokenText>, NoMemory>
    ensures known { IfOk result (λ o. IfSome o (λ (t : TokenOf). t.client < length registry.now.clients)) }
    ensures token { IfOk result (λ o. tokens_in o ≡ spec.object_in registry.now (Ok params.now)) }
{
    match client_number(registry, params) {
        Some(client) => copied(alloc, client, &params.request),
        None => Ok(None),
    }
}

// The request object of an authorization request.
fn object_in(alloc: Global, registry: &Registry, form: &[u8]) -> Result<Option<TokenText>, NoMemory>
    ensures known { IfOk result (λ o. IfSome o (λ (t : TokenOf). t.client < length registry.now.clients)) }
    ensures token { IfOk result (λ o. tokens_in o ≡ spec.object_in registry.now (request_read form.now)) }
{
    let read = read_request(alloc, form);
    match &read {
        Ok(params) => object_among(alloc, registry, params),
        Err(AskNo::NoMemory) => Err(NoMemory),
        Err(_) => Ok(None),
    }
}

/// The token that the provider checks for a request.
pub(crate) fn checked_by_provider(
    alloc: Global,
    registry: &Registry,
    request: &Ask,
    asked: &OpAsk,
) -> Result<Option<TokenText>, NoMemory>
    ensures known { IfOk result (λ o. IfSome o (λ (t : TokenOf). t.client < length registry.now.clients)) }
    ensures token { IfOk result (λ o. tokens_in o ≡ spec.op_checked registry.now request.now asked.now) }
{
    match asked {
        OpAsk::Authorize { .. } => object_in(alloc, registry, form_of(request)),
        _ => Ok(None),
    }
}

// The logout token of a logout request.
fn logout_checked(alloc: Global, client: u32, ask: &WorldAsk) -> Result<Option<TokenText>, NoMemory>
    ensures client { IfOk result (λ o. IfSome o (λ (t : TokenOf). t.client ≡ client)) }
    ensures token { IfOk result (λ o. tokens_in o ≡ spec.logout_checked client ask.now) }
{
    match ask {
        WorldAsk::Http(request) => Ok(Some(TokenText {
            client,
            text: logout_token_of(alloc, request)?,
        })),
        _ => Ok(None),
    }
}

/// The token that a party, which is this client, checks for a request.
pub(crate) fn checked_by_party(
    alloc: Global,
    client: u32,
    ask: &WorldAsk,
    asked: &RpAsk,
) -> Result<Option<TokenText>, NoMemory>
    ensures client { IfOk result (λ o. IfSome o (λ (t : TokenOf). t.client ≡ client)) }
    ensures token { IfOk result (λ o. tokens_in o ≡ spec.rp_checked client ask.now asked.now) }
{
    match asked {
        RpAsk::Callback {
            heard: Ok(heard),
            ..
        } => copied(alloc, client, &heard.id),
        RpAsk::Tokens {
            tokens: Ok(tokens),
            ..
        } => Ok(Some(TokenText {
            client,
            text: tokens.id.copy(alloc)?,
        })),
        RpAsk::Logout { .. } => logout_checked(alloc, client, ask),
        _ => Ok(None),
    }
}

// Whether the text is sealed under this key.
fn is_sealed_under(alloc: Global, key: &Text, text: &Text) -> Result<bool, NoMemory>
    ensures { IfOk result (λ b. b ≡ sealed.is_sealed key.now text.now) }
{
    match unseal(alloc, key.as_str().as_bytes(), text.as_str().as_bytes()) {
        Ok(_) => Ok(true),
        Err(JwsNo::NoMemory) => Err(NoMemory),
        Err(_) => Ok(false),
    }
}

// Whether the text is sealed under the old secret, if there is one.
fn is_sealed_old(alloc: Global, old: &Option<Text>, text: &Text) -> Result<bool, NoMemory>
    ensures { IfOk result (λ b. b ≡ sealed.is_sealed_old old.now text.now) }
{
    match old {
        Some(old) => is_sealed_under(alloc, old, text),
        None => Ok(false),
    }
}

/// Whether the token is sealed under a secret of the client.
pub(crate) fn is_sealed(
    alloc: Global,
    registry: &Registry,
    token: &TokenText,
) -> Result<bool, NoMemory>
    requires { token.now.client < length registry.now.clients }
    ensures { IfOk result (λ b. b ≡ sealed.is_sealed_for registry.now (token.now.client, token.now.text)) }
{
    let client = registry.client(token.client);
    if is_sealed_under(alloc, &client.secret, &token.text)? {
        return Ok(true);
    }
    is_sealed_old(alloc, &client.old_secret, &token.text)
}
