// Reading a request to the provider as a value of `OpAsk`.

ghost use Rattle.std.specs.Prelude.{◌≡◌, Some, IfOk, option_map};
ghost use Rattle.client_registry.specs.Registered.{IsUser};
ghost use Rattle.request_params.specs.Reading.{request_read};
ghost use Rattle.token_endpoint.specs.Request.{grant_read};
ghost use Rattle.op_request.specs.PostedForms.{fields_of};
ghost use Rattle.op_request.specs.Prepared as spec;

use crate::posted_forms::{field, posted_fields, repeats_in_consent, repeats_in_login};
use crate::routes::{Endpoint, endpoint_asked};
use auth_request::{Verdict, judge};
use client_registry::{Client, Registry, User};
use hmac256::{proof, same};
use op_exchange::{AGREE_FIELD, AGREE_VALUE, OpAsk, PASSWORD_FIELD, TURN_FIELD, USER_FIELD};
use request_object::{ObjNo, unseal_request};
use request_params::{AskNo, Params, form_of, merge, read_request};
use sso_base::{Ask, Blob, NoMemory, Text, Word, bytes_if};
use std::alloc::Global;
use token_endpoint::{GrantNo, read_grant};
use userinfo::read_bearer;

// The client with the request's `client_id`.
#[tactic(auto, using(auth_request::proofs::Numbers::below))]
pub(crate) fn client_named<'a>(registry: &'a Registry, params: &Params) -> Option<&'a Client>
    ensures { option_map (λ k. k.now) result ≡ spec.client_named registry.now params.now }
{
    match &params.client_id {
        Some(id) => {
            let number = registry.find_client(id.as_str().as_bytes())?;
            Some(registry.client(number))
        }
        None => None,
    }
}

// The merged parameters of a request and its request object; `None` if the object is rejected (OpenID Connect Core 1.0, 6.1).
pub(crate) fn with_object(
    alloc: Global,
    registry: &Registry,
    client: &Client,
    beside: &Params,
    object: &Text,
) -> Result<Option<Params>, NoMemory>
    ensures { IfOk result (λ o. o ≡ spec.with_object registry.now client.now beside.now object.now) }
{
    let issuer = &registry.provider().issuer;
    let inside = match unseal_request(alloc, client, issuer, object.as_str().as_bytes()) {
        Ok(inside) => inside,
        Err(ObjNo::NoMemory) => return Err(NoMemory),
        Err(_) => return Ok(None),
    };
    match merge(alloc, beside, &inside) {
        Ok(whole) => Ok(Some(whole)),
        Err(AskNo::NoMemory) => Err(NoMemory),
        Err(_) => Ok(None),
    }
}

// Validates a request whose request object gave the merged parameters, or was rejected.
fn judged_whole(
    alloc: Global,
    registry: &Registry,
    beside: &Params,
    whole: &Option<Params>,
) -> Result<Verdict, NoMemory>
    ensures { IfOk result (λ v. v ≡ spec.judged_whole registry.now beside.now whole.now) }
{
    match whole {
        Some(whole) => judge(alloc, registry, whole, false),
        None => judge(alloc, registry, beside, true),
    }
}

// Validates a request. Its request object is read if its client is known.
fn judged(alloc: Global, registry: &Registry, params: &Params) -> Result<Verdict, NoMemory>
    ensures { IfOk result (λ v. v ≡ spec.judged registry.now params.now) }
{
    match (client_named(registry, params), &params.request) {
        (Some(client), Some(object)) => {
            let whole = with_object(alloc, registry, client, params, object)?;
            judged_whole(alloc, registry, params, &whole)
        }
        _ => judge(alloc, registry, params, false),
    }
}

// The value for an authorization request, from the form of its parameters (OpenID Connect Core 1.0, 3.1.2.1).
fn authorization(
    alloc: Global,
    registry: &Registry,
    ask: &Ask,
    form: &[u8],
) -> Result<OpAsk, NoMemory>
    ensures { IfOk result (λ asked. asked ≡ spec.authorization_asked registry.now ask.now (request_read form.now)) }
{
    let params = match read_request(alloc, form) {
        Ok(params) => params,
        Err(AskNo::NoMemory) => return Err(NoMemory),
        Err(_) => return Ok(OpAsk::Twice),
    };
    Ok(OpAsk::Authorize {
        verdict: judged(alloc, registry, &params)?,
        browser: ask.first,
        session: ask.second,
    })
}

// Whether the proof of the password is the user's (RFC 8018, 5.2).
#[tactic(auto, using(crate::proofs::SignedUsers::some_rounds, crate::proofs::SignedUsers::short_salt))]
fn is_password_of(user: &User, password: &str) -> bool
    requires { IsUser user.now }
    ensures { result ≡ spec.is_password_of (Some user.now) password.now }
{
    let shown = proof(password.as_bytes(), user.salt.as_bytes(), user.rounds);
    same(&shown, &user.proof)
}

// The number of the user that has this id and this password. For an id that no user has, the password is proved with the salt and
// the rounds of the first user, so that the time does not show which ids are users'.
#[tactic(auto, using(crate::proofs::SignedUsers::user_within, crate::proofs::SignedUsers::user_kept))]
fn signed_user(registry: &Registry, id: &str, password: &str) -> Option<u32>
    ensures { result ≡ spec.signed_user registry.now id.now password.now }
{
    // A count says what every registry keeps: that each of its users has the salt and the rounds of a proof.
    let users = registry.users();
    let found = registry.find_user(id.as_bytes());
    let tried = found.unwrap_or(0);
    if tried >= users {
        return None;
    }
    if is_password_of(registry.user(tried), password) {
        found
    } else {
        None
    }
}

// The value for a login form.
fn login(alloc: Global, registry: &Registry, ask: &Ask) -> Result<OpAsk, NoMemory>
    ensures { IfOk result (λ asked. asked ≡ spec.login_asked registry.now ask.now (fields_of ask.now.body)) }
{
    let fields = posted_fields(alloc, &ask.body)?;
    if repeats_in_login(&fields) {
        return Ok(OpAsk::Twice);
    }
    Ok(OpAsk::Login {
        turn: Word::read(field(&fields, TURN_FIELD).as_bytes()),
        signed: signed_user(
            registry,
            field(&fields, USER_FIELD),
            field(&fields, PASSWORD_FIELD),
        ),
        browser: ask.first,
        session: ask.second,
    })
}

// The value for a consent form.
fn consent(alloc: Global, ask: &Ask) -> Result<OpAsk, NoMemory>
    ensures { IfOk result (λ asked. asked ≡ spec.consent_asked ask.now (fields_of ask.now.body)) }
{
    let fields = posted_fields(alloc, &ask.body)?;
    if repeats_in_consent(&fields) {
        return Ok(OpAsk::Twice);
    }
    Ok(OpAsk::Consent {
        turn: Word::read(field(&fields, TURN_FIELD).as_bytes()),
        agree: field(&fields, AGREE_FIELD) == AGREE_VALUE,
        browser: ask.first,
        session: ask.second,
    })
}

// The body of a request, if there is one.
fn body_of(body: &Option<Blob>) -> Option<&[u8]>
    ensures { option_map (λ b. b.now) result ≡ body.now }
{
    match body {
        Some(form) => Some(form.as_bytes()),
        None => None,
    }
}

// The value for a token request (OpenID Connect Core 1.0, 3.1.3.1).
fn token(alloc: Global, registry: &Registry, ask: &Ask) -> Result<OpAsk, NoMemory>
    ensures { IfOk result (λ asked. asked ≡ OpAsk.Token (grant_read registry.now ask.now.auth ask.now.body)) }
{
    match read_grant(alloc, registry, bytes_if(&ask.auth), body_of(&ask.body)) {
        Err(GrantNo::NoMemory) => Err(NoMemory),
        grant => Ok(OpAsk::Token { grant }),
    }
}

/// Reads a request to the provider with this registry, as an [`OpAsk`]. `first` of the request is the browser's cookie and
/// `second` the session's.
///
/// The path is the issuer's path without a last `/`, followed by one of these. Any other request, also one with another method,
/// is [`OpAsk::NotHere`].
///
/// | Request | Result |
/// |---|---|
/// | GET `/.well-known/openid-configuration` | [`OpAsk::Metadata`] |
/// | GET `/jwks` | [`OpAsk::Keys`] |
/// | GET or POST `/authorize` | [`OpAsk::Authorize`], from the parameters of the query or of the posted form |
/// | POST `/login` with `turn`, `user`, `password` | [`OpAsk::Login`] |
/// | POST `/consent` with `turn`, `agree` | [`OpAsk::Consent`], agreed if and only if `agree` is `yes` |
/// | POST `/token` | [`OpAsk::Token`] |
/// | GET or POST `/userinfo` | [`OpAsk::Info`], from the `Authorization` header only |
/// | POST `/signout` | [`OpAsk::SignOut`] |
///
/// At `/authorize`, `/login` and `/consent`, a name that occurs twice in the form gives [`OpAsk::Twice`]; at `/authorize`,
/// pairs with an empty value are ignored first. An absent field is empty, and so is an absent form.
///
/// A request object is read under a secret of the request's client, if that client is known. Its parameters take precedence
/// over those outside it (OpenID Connect Core 1.0, 6.1). If it is rejected, the parameters outside it are validated as a
/// request whose object was rejected. A login is signed as the user whose id is `user`, if and only if the proof of `password`
/// is that user's (RFC 8018).
#[tactic(auto, unfolding(crate::specs::Prepared::prepared))]
pub fn prepare_op(alloc: Global, registry: &Registry, ask: &Ask) -> Result<OpAsk, NoMemory>
    ensures { IfOk result (λ asked. asked ≡ spec.prepared registry.now ask.now) }
{
    let Some(endpoint) = endpoint_asked(registry.prefix(), ask) else {
        return Ok(OpAsk::NotHere);
    };
    match endpoint {
        Endpoint::Metadata => Ok(OpAsk::Metadata),
        Endpoint::Keys => Ok(OpAsk::Keys),
        Endpoint::Authorization => authorization(alloc, registry, ask, form_of(ask)),
        Endpoint::Login => login(alloc, registry, ask),
        Endpoint::Consent => consent(alloc, ask),
        Endpoint::Token => token(alloc, registry, ask),
        Endpoint::UserInfo => Ok(OpAsk::Info {
            bearer: read_bearer(bytes_if(&ask.auth)),
        }),
        Endpoint::SignOut => Ok(OpAsk::SignOut {
            session: ask.second,
        }),
    }
}
