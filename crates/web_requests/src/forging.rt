// An answer whose ID Token is forged.

ghost use Rattle.std.specs.Prelude.{◌≡◌, IfOk, IfSome};
ghost use Rattle.std.specs.Option.{option_copied};
ghost use Rattle.std.specs.Result.{result_ok};
ghost use Rattle.rp_request.specs.Opened.{id_read_for};
ghost use Rattle.web_requests.specs.Forging as spec;

use crate::location::{Location, answer_location};
use auth_answer::Answer;
use client_keys::opening_key;
use client_registry::{Client, Registry};
use id_token::{IdClaims, IdNo, is_subject, read_id, seal_id, written_len};
use op_exchange::OpReply;
use sso_base::{NoMemory, Text};
use sso_places::WorldReply;
use std::alloc::Global;

// Whether the claims have a valid subject, and are short enough to be sealed.
fn may_be_sealed(claims: &IdClaims) -> Result<bool, NoMemory>
    ensures { IfOk result (λ b. b ≡ spec.may_be_sealed claims.now) }
{
    Ok(is_subject(&claims.sub) && written_len(claims)? <= 6000)
}

// The claims of an ID Token of the client, if it is one.
#[tactic(auto, using(crate::proofs::ReadClaims::of_token))]
fn claims_of(alloc: Global, client: &Client, id: &Text) -> Result<Option<IdClaims>, NoMemory>
    ensures claims { IfOk result (λ o. o ≡ result_ok (id_read_for client.now id.now)) }
    ensures of_token { IfOk result (λ o. IfSome o spec.IsOfToken) }
{
    let id = id.as_str().as_bytes();
    let key = opening_key(alloc, client, id)?;
    match read_id(alloc, key.as_str().as_bytes(), id) {
        Ok(claims) => Ok(Some(claims)),
        Err(IdNo::NoMemory) => Err(NoMemory),
        Err(_) => Ok(None),
    }
}

// The ID Token of claims, with this subject in place of theirs.
fn resealed(
    alloc: Global,
    key: &[u8],
    user: &Text,
    mut claims: IdClaims,
) -> Result<Option<Text>, NoMemory>
    requires { spec.IsOfToken claims }
    ensures { IfOk result (λ o. o ≡ spec.resealed key.now user.now claims) }
{
    claims.sub = user.copy(alloc)?;
    if !may_be_sealed(&claims)? {
        return Ok(None);
    }
    Ok(Some(seal_id(alloc, key, &claims)?))
}

// An ID Token of this client, with this subject in place of its own, under the client's secret.
fn forged_id(
    alloc: Global,
    user: &Text,
    id: &Text,
    client: &Client,
) -> Result<Option<Text>, NoMemory>
    ensures { IfOk result (λ o. o ≡ spec.forged_id user.now id.now client.now) }
{
    match claims_of(alloc, client, id)? {
        Some(claims) => resealed(alloc, client.secret.as_str().as_bytes(), user, claims),
        None => Ok(None),
    }
}

// The client with a redirect URI.
fn client_with<'a>(registry: &'a Registry, uri: &str) -> Option<&'a Client>
    ensures { option_copied result ≡ spec.client_with registry.now uri.now }
{
    let number = registry.client_of_uri(uri)?;
    Some(registry.client(number))
}

// The answer with an ID Token for this subject in place of its own.
fn forged_answer(
    alloc: Global,
    registry: &Registry,
    answer: &Answer,
    user: &Text,
) -> Result<Option<Answer>, NoMemory>
    ensures { IfOk result (λ o. o ≡ spec.forged_answer registry.now answer.now user.now) }
{
    let Some(id) = &answer.id else {
        return Ok(None);
    };
    let Some(client) = client_with(registry, answer.redirect.as_str()) else {
        return Ok(None);
    };
    let Some(id) = forged_id(alloc, user, id, client)? else {
        return Ok(None);
    };
    let mut forged = answer.copy(alloc)?;
    forged.id = Some(id);
    Ok(Some(forged))
}

/// The location of an answer with a forged ID Token: it has the same claims except for the subject, which is this user. It is
/// sealed under the secret, not the old one, of the client with the redirect URI. `None` in these cases:
///
/// - The reply is not an answer, or the answer has no ID Token of that client.
/// - The user is not a valid subject (OpenID Connect Core 1.0, 2), or the claims would become too long to be sealed.
#[tactic(auto, unfolding(crate::specs::Forging::forged))]
pub fn forged(
    alloc: Global,
    registry: &Registry,
    reply: &WorldReply,
    user: &Text,
) -> Result<Option<Location>, NoMemory>
    ensures { IfOk result (λ o. o ≡ spec.forged registry.now reply.now user.now) }
{
    let WorldReply::Provider(OpReply::Answered { answer, .. }) = reply else {
        return Ok(None);
    };
    match forged_answer(alloc, registry, answer, user)? {
        Some(answer) => Ok(Some(answer_location(alloc, registry, &answer)?)),
        None => Ok(None),
    }
}
