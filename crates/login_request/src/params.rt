// The parameters of the authorization request of a login (OpenID Connect Core 1.0, 3.1.2.1 and 6.1).

ghost use Rattle.std.specs.Prelude.{◌≡◌, IfOk, option_map, decimal};
ghost use Rattle.login_request.specs.Request as spec;

use client_registry::{Client, Party};
use oidc_words::OPENID;
use request_params::Params;
use sso_base::{NoMemory, Text, Word, copied_text};
use std::alloc::Global;

// A number of seconds in decimal, if there is one.
fn age_text(alloc: Global, age: &Option<u64>) -> Result<Option<Text>, NoMemory>
    ensures { IfOk result (λ o. o ≡ option_map decimal age.now) }
{
    match age {
        Some(seconds) => Ok(Some(Text::from_string(seconds.to_string(alloc)?))),
        None => Ok(None),
    }
}

// The parameters of a login.
pub(crate) fn login_params(
    alloc: Global,
    client: &Client,
    party: &Party,
    state: &Word,
    nonce: &Word,
) -> Result<Params, NoMemory>
    ensures { IfOk result (λ p. p ≡ spec.login_params client.now party.now state.now nonce.now) }
{
    Ok(Params {
        response_type: Some(Text::new(alloc, party.types.text())?),
        client_id: Some(client.id.copy(alloc)?),
        redirect_uri: Some(party.redirect.copy(alloc)?),
        scope: Some(party.scope.copy(alloc)?),
        state: Some(state.to_text(alloc)?),
        nonce: Some(nonce.to_text(alloc)?),
        response_mode: None,
        prompt: copied_text(alloc, &party.prompt)?,
        max_age: age_text(alloc, &party.max_age)?,
        claims: None,
        request: None,
        request_uri: None,
        registration: None,
    })
}

// The parameters outside a request object.
pub(crate) fn outer_params(
    alloc: Global,
    client: &Client,
    party: &Party,
    object: Text,
) -> Result<Params, NoMemory>
    ensures { IfOk result (λ p. p ≡ spec.outer_params client.now party.now object) }
{
    Ok(Params {
        response_type: Some(Text::new(alloc, party.types.text())?),
        client_id: Some(client.id.copy(alloc)?),
        redirect_uri: Some(party.redirect.copy(alloc)?),
        scope: Some(Text::new(alloc, OPENID)?),
        state: None,
        nonce: None,
        response_mode: None,
        prompt: None,
        max_age: None,
        claims: None,
        request: Some(object),
        request_uri: None,
        registration: None,
    })
}
