// Validation of an authorization request: the first row that applies (OpenID Connect Core 1.0, 3.1.2.2).

ghost use Rattle.std.specs.Prelude.{◌≡◌, IfOk, option_map};
ghost use Rattle.sso_base.specs.Refusals.{first_refusal};
ghost use Rattle.auth_request.specs.Judgement as spec;
ghost use Rattle.auth_request.specs.Values as values;

use crate::parameters::{Asking, asking_of};
use crate::wish::{PageNo, Verdict, Wish};
use client_registry::{Client, Registry};
use oidc_words::{AuthError, Refusal, Types};
use request_params::Params;
use sso_base::{NoMemory, Text, Texts, copied_text};
use std::alloc::Global;

// The greatest length of a nonce, in bytes.
const LONGEST_NONCE: usize = 255;

fn client_number(registry: &Registry, params: &Params) -> Option<u32>
    ensures { result ≡ spec.client_number registry.now params.now }
{
    match &params.client_id {
        Some(id) => registry.find_client(id.as_str().as_bytes()),
        None => None,
    }
}

// The redirect URI, if it is exactly one of the client's (RFC 6749, 3.1.2.4).
fn redirect_of<'a>(client: &Client, uri: &'a Option<Text>) -> Option<&'a Text>
    ensures { option_map (λ t. t.now) result ≡ spec.redirect_of client.now uri.now }
{
    match uri {
        Some(uri) if client.redirects.has(uri.as_str()) => Some(uri),
        _ => None,
    }
}

// Whether the client may request the response type.
fn may_ask(client: &Client, number: Option<usize>) -> bool
    ensures { result ≡ spec.may_ask client.now number }
{
    match number {
        Some(number) => client.types.get(number).copied().unwrap_or(false),
        None => false,
    }
}

fn mode_of(number: Option<usize>) -> &'static str
    ensures { result.now ≡ spec.mode_of number }
{
    if Types::of_number(number).is_in_fragment() {
        "fragment"
    } else {
        "query"
    }
}

// Whether the requested response mode is not the type's own.
fn is_other_mode(number: Option<usize>, mode: &Option<Text>) -> bool
    ensures { result ≡ spec.is_other_mode number mode.now }
{
    match mode {
        Some(mode) => !mode.equals(mode_of(number)),
        None => false,
    }
}

/// Whether a nonce, if there is one, has at most 255 bytes.
pub fn is_short_nonce(nonce: &Option<Text>) -> bool
    ensures { result ≡ values.is_short_nonce nonce.now }
{
    match nonce {
        Some(nonce) => nonce.as_str().len() <= LONGEST_NONCE,
        None => true,
    }
}

// Whether a nonce is missing or too long.
fn is_bad_nonce(number: Option<usize>, nonce: &Option<Text>) -> bool
    ensures { result ≡ spec.is_bad_nonce number nonce.now }
{
    match nonce {
        Some(_) => !is_short_nonce(nonce),
        None => Types::of_number(number).id_token,
    }
}

// The first error whose condition is true.
#[tactic(auto, unfolding(crate::specs::Judgement::errors))]
fn first_error(
    client: &Client,
    params: &Params,
    asking: &Asking,
    object_refused: bool,
) -> Result<(), AuthError>
    ensures { result ≡ first_refusal (spec.errors client.now params.now asking.now object_refused) }
{
    if params.request_uri.is_some() {
        return Err(AuthError::RequestUriNotSupported);
    }
    if params.registration.is_some() {
        return Err(AuthError::RegistrationNotSupported);
    }
    if object_refused {
        return Err(AuthError::InvalidRequestObject);
    }
    if params.response_type.is_none() {
        return Err(AuthError::InvalidRequest);
    }
    if asking.number.is_none() {
        return Err(AuthError::UnsupportedResponseType);
    }
    if !may_ask(client, asking.number) {
        return Err(AuthError::UnauthorizedClient);
    }
    if is_other_mode(asking.number, &params.response_mode) {
        return Err(AuthError::InvalidRequest);
    }
    if !asking.scopes.openid {
        return Err(AuthError::InvalidScope);
    }
    if is_bad_nonce(asking.number, &params.nonce) {
        return Err(AuthError::InvalidRequest);
    }
    if asking.prompt.none && asking.prompt.others {
        return Err(AuthError::InvalidRequest);
    }
    if params.max_age.is_some() && asking.max_age.is_none() {
        return Err(AuthError::InvalidRequest);
    }
    if !asking.claims.fits {
        return Err(AuthError::InvalidRequest);
    }
    Ok(())
}

// The error response at the redirect URI.
fn refusal_of(
    alloc: Global,
    redirect: &Text,
    params: &Params,
    number: Option<usize>,
    code: AuthError,
) -> Result<Refusal, NoMemory>
    ensures { IfOk result (λ r. r ≡ spec.refusal_to redirect.now params.now number code) }
{
    Ok(Refusal {
        redirect: redirect.copy(alloc)?,
        fragment: Types::of_number(number).is_in_fragment(),
        state: copied_text(alloc, &params.state)?,
        code,
    })
}

fn wish_of(
    alloc: Global,
    client: u32,
    redirect: &Text,
    params: &Params,
    asking: Asking,
) -> Result<Wish, NoMemory>
    ensures { IfOk result (λ w. w ≡ spec.wish_of client redirect.now params.now asking) }
{
    let claims = asking.claims;
    Ok(Wish {
        client,
        redirect: redirect.copy(alloc)?,
        types: Types::of_number(asking.number),
        scopes: asking.scopes,
        state: copied_text(alloc, &params.state)?,
        nonce: copied_text(alloc, &params.nonce)?,
        none: asking.prompt.none,
        login: asking.prompt.login,
        consent: asking.prompt.consent,
        max_age: asking.max_age,
        subs: claims.subs,
        id_asked: claims.id_asked,
        info_asked: claims.info_asked,
    })
}

// The first error, or else the wish.
fn answer(
    alloc: Global,
    client: u32,
    redirect: &Text,
    params: &Params,
    asking: Asking,
    judged: Result<(), AuthError>,
) -> Result<Verdict, NoMemory>
    ensures { IfOk result (λ v. v ≡ spec.answer client redirect.now params.now asking judged) }
{
    match judged {
        Ok(()) => {
            let wish = wish_of(alloc, client, redirect, params, asking)?;
            Ok(Verdict::Grant(wish))
        }
        Err(code) => {
            let refusal = refusal_of(alloc, redirect, params, asking.number, code)?;
            Ok(Verdict::Refuse(refusal))
        }
    }
}

/// Validates an authorization request (OpenID Connect Core 1.0, 3.1.2.2). `object_refused` is true if its request object was
/// rejected (6.1). Returns the verdict of the first row that applies.
///
/// | Condition | Verdict |
/// |---|---|
/// | `client_id` is absent or unknown | [`PageNo::Client`] |
/// | `redirect_uri` is absent, or not exactly one of the client's | [`PageNo::Redirect`] |
/// | `request_uri` is present | [`AuthError::RequestUriNotSupported`] |
/// | `registration` is present | [`AuthError::RegistrationNotSupported`] |
/// | the request object was rejected | [`AuthError::InvalidRequestObject`] |
/// | `response_type` is absent | [`AuthError::InvalidRequest`] |
/// | it is none of the six | [`AuthError::UnsupportedResponseType`] |
/// | it is none of the client's | [`AuthError::UnauthorizedClient`] |
/// | `response_mode` is present, and is not the type's own | [`AuthError::InvalidRequest`] |
/// | `scope` lacks the word `openid` | [`AuthError::InvalidScope`] |
/// | `nonce` is absent and the type has `id_token`, or it has over 255 bytes | [`AuthError::InvalidRequest`] |
/// | `prompt` has the word `none` and another word | [`AuthError::InvalidRequest`] |
/// | `max_age` is present, and is not 1 to 9 decimal digits | [`AuthError::InvalidRequest`] |
/// | `claims` is present, and has another form (5.5) | [`AuthError::InvalidRequest`] |
/// | none of these | [`Verdict::Grant`] |
///
/// An error response goes to the redirect URI with the request's state. It is in the fragment if and only if the response type
/// is one of the five other than `code`.
#[tactic(auto, unfolding(crate::specs::Judgement::judgement), using(crate::proofs::Numbers::below))]
pub fn judge(
    alloc: Global,
    registry: &Registry,
    params: &Params,
    object_refused: bool,
) -> Result<Verdict, NoMemory>
    ensures { IfOk result (λ v. v ≡ spec.judgement registry.now params.now object_refused) }
{
    let Some(number) = client_number(registry, params) else {
        return Ok(Verdict::Page(PageNo::Client));
    };
    let client = registry.client(number);
    let Some(redirect) = redirect_of(client, &params.redirect_uri) else {
        return Ok(Verdict::Page(PageNo::Redirect));
    };
    let asking = asking_of(alloc, params)?;
    let judged = first_error(client, params, &asking, object_refused);
    answer(alloc, number, redirect, params, asking, judged)
}
