// The claims of a request object, each of its kind or absent.

ghost use Rattle.std.specs.Prelude.{◌≡◌, ◌⊎◌, Ok, Err, IfOk, IfErr, option_and_then, decimal, codes};
ghost use Rattle.serde_json.specs.Find.{get_member};
ghost use Rattle.request_object.specs.Reading.{object_text, age_claim, claims_claim, first_in, last_in, raw_in};

use claim_set::{ClaimNo, ClaimSet, claims_text};
use sso_base::{NoMemory, Text, Texts};
use std::alloc::Global;

// The claims up to `prompt`, in the order of their names.
#[derive(Drop)]
pub(crate) struct FirstClaims {
    pub(crate) aud: Option<Texts>,
    pub(crate) claims: Option<Text>,
    pub(crate) client_id: Option<Text>,
    pub(crate) iss: Option<Text>,
    pub(crate) max_age: Option<Text>,
    pub(crate) nonce: Option<Text>,
    pub(crate) prompt: Option<Text>,
}

// The claims from `redirect_uri` on, in the order of their names.
#[derive(Drop)]
pub(crate) struct LastClaims {
    pub(crate) redirect_uri: Option<Text>,
    pub(crate) registration: Option<Text>,
    pub(crate) request: Option<Text>,
    pub(crate) request_uri: Option<Text>,
    pub(crate) response_mode: Option<Text>,
    pub(crate) response_type: Option<Text>,
    pub(crate) scope: Option<Text>,
    pub(crate) state: Option<Text>,
}

// All of them.
#[derive(Drop)]
pub(crate) struct RawRequest {
    pub(crate) first: FirstClaims,
    pub(crate) last: LastClaims,
}

// The number in decimal.
fn decimal_text(alloc: Global, number: u64) -> Result<Text, NoMemory>
    ensures { IfOk result (λ t. t ≡ decimal number) }
{
    Ok(Text::from_string(number.to_string(alloc)?))
}

// `max_age`: a string, or a number of a claim set in decimal.
fn age(alloc: Global, claims: &ClaimSet) -> Result<Option<Text>, ClaimNo>
    ensures ok { IfOk result (λ o. age_claim claims.now ≡ Ok o) }
    ensures err { IfErr result (λ e. (e ≡ ClaimNo.NoMemory) ⊎ (age_claim claims.now ≡ Err e)) }
{
    match claims.text("max_age") {
        Err(ClaimNo::WrongKind(_)) => match claims.number("max_age")? {
            Some(seconds) => Ok(Some(decimal_text(alloc, seconds)?)),
            None => Ok(None),
        },
        answer => answer,
    }
}

// The JSON text of the object in `claims`, if it is an object.
fn claims_object(claims: &ClaimSet) -> Result<Option<Text>, NoMemory>
    ensures { IfOk result (λ o. o ≡ option_and_then object_text (get_member (codes "claims") claims.now)) }
{
    match claims.member("claims") {
        Ok(Some(asked)) => Ok(Some(claims_text(&asked)?)),
        Ok(None) => Ok(None),
        Err(ClaimNo::NoMemory) => Err(NoMemory),
        Err(_) => Ok(None),
    }
}

// `claims`: a string, or the JSON text of an object.
fn asked_claims(claims: &ClaimSet) -> Result<Option<Text>, ClaimNo>
    ensures ok { IfOk result (λ o. claims_claim claims.now ≡ Ok o) }
    ensures err { IfErr result (λ e. (e ≡ ClaimNo.NoMemory) ⊎ (claims_claim claims.now ≡ Err e)) }
{
    match claims.text("claims") {
        Err(ClaimNo::WrongKind(name)) => match claims_object(claims)? {
            Some(text) => Ok(Some(text)),
            None => Err(ClaimNo::WrongKind(name)),
        },
        answer => answer,
    }
}

// The claims are read in the order of their names, so the first one of another kind decides.
#[tactic(auto, unfolding(crate::specs::Reading::first_in))]
fn first_claims(alloc: Global, claims: &ClaimSet) -> Result<FirstClaims, ClaimNo>
    ensures ok { IfOk result (λ r. first_in claims.now ≡ Ok r) }
    ensures err { IfErr result (λ e. (e ≡ ClaimNo.NoMemory) ⊎ (first_in claims.now ≡ Err e)) }
{
    let aud = claims.texts("aud")?;
    let asked = asked_claims(claims)?;
    let client_id = claims.text("client_id")?;
    let iss = claims.text("iss")?;
    let max_age = age(alloc, claims)?;
    let nonce = claims.text("nonce")?;
    let prompt = claims.text("prompt")?;
    Ok(FirstClaims {
        aud,
        claims: asked,
        client_id,
        iss,
        max_age,
        nonce,
        prompt,
    })
}

#[tactic(auto, unfolding(crate::specs::Reading::last_in))]
fn last_claims(claims: &ClaimSet) -> Result<LastClaims, ClaimNo>
    ensures ok { IfOk result (λ r. last_in claims.now ≡ Ok r) }
    ensures err { IfErr result (λ e. (e ≡ ClaimNo.NoMemory) ⊎ (last_in claims.now ≡ Err e)) }
{
    let redirect_uri = claims.text("redirect_uri")?;
    let registration = claims.text("registration")?;
    let request = claims.text("request")?;
    let request_uri = claims.text("request_uri")?;
    let response_mode = claims.text("response_mode")?;
    let response_type = claims.text("response_type")?;
    let scope = claims.text("scope")?;
    let state = claims.text("state")?;
    Ok(LastClaims {
        redirect_uri,
        registration,
        request,
        request_uri,
        response_mode,
        response_type,
        scope,
        state,
    })
}

// The claims, each of which may be absent, or the error for the first that has another kind.
pub(crate) fn raw_claims(alloc: Global, claims: &ClaimSet) -> Result<RawRequest, ClaimNo>
    ensures ok { IfOk result (λ r. raw_in claims.now ≡ Ok r) }
    ensures err { IfErr result (λ e. (e ≡ ClaimNo.NoMemory) ⊎ (raw_in claims.now ≡ Err e)) }
{
    let first = first_claims(alloc, claims)?;
    let last = last_claims(claims)?;
    Ok(RawRequest { first, last })
}
