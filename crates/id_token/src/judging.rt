// Verification of an ID Token's claims by the rules of a relying party (OpenID Connect Core 1.0, 3.1.3.7).

ghost use Rattle.std.specs.Prelude.{◌≡◌, IfOk, IfErr, IsFalse, Ok};
ghost use Rattle.sso_base.specs.Texts.{is_given, is_other};
ghost use Rattle.id_token.specs.Reading.{hides_memory};
ghost use Rattle.id_token.specs.Judging.{IsGoodIdToken, id_judged, breaks, is_late};

use crate::claims::IdClaims;
use crate::no::IdNo;
use crate::rules::{Half, IdRules};
use oidc_words::{LEEWAY, OLDEST};
use sso_base::{Moment, Text};

// Whether the claim is present and equal to this text.
fn is_the_given(text: &Text, claim: &Option<Text>) -> bool
    ensures { result ≡ is_given text.now claim.now }
{
    match claim {
        Some(claim) => claim.equals(text.as_str()),
        None => false,
    }
}

// Whether the claim is present and differs from this text.
fn is_another(text: &Text, claim: &Option<Text>) -> bool
    ensures { result ≡ is_other text.now claim.now }
{
    match claim {
        Some(claim) => !claim.equals(text.as_str()),
        None => false,
    }
}

// Whether the claim violates the requirement.
fn breaks_half(half: &Half, claim: &Option<Text>) -> bool
    ensures { result ≡ breaks half.now claim.now }
{
    match (half, claim) {
        (Half::Free, _) | (Half::IfThere(_), None) => false,
        (Half::Must(_), None) => true,
        (Half::IfThere(digest) | Half::Must(digest), Some(claim)) => {
            claim.as_str().as_bytes() != digest.as_slice()
        }
    }
}

// Whether `max_age` was requested and the login is older than that, with the clocks' leeway. A sum that does not fit is
// replaced by the greatest number, which no moment exceeds. The same is true below.
fn is_too_late(max_age: Option<u64>, auth_time: Option<u64>, begun: Moment) -> bool
    ensures { result ≡ is_late max_age auth_time begun }
{
    match (max_age, auth_time) {
        (None, _) => false,
        (Some(_), None) => true,
        (Some(age), Some(time)) => time.saturating_add(age).saturating_add(LEEWAY)
            < begun.seconds(),
    }
}

// The error of the first condition that is true.
fn first_refused(rules: &IdRules, claims: &IdClaims, at: Moment) -> Result<(), IdNo>
    ensures answers { result ≡ id_judged rules.now claims.now at }
    ensures memory_is_outermost { IfErr result (λ e. IsFalse (hides_memory e)) }
{
    if !claims.iss.equals(rules.issuer.as_str()) {
        return Err(IdNo::Issuer);
    }
    if !claims.aud.is_only(rules.client.as_str()) {
        return Err(IdNo::Audience);
    }
    if is_another(&rules.client, &claims.azp) {
        return Err(IdNo::Azp);
    }
    let now = at.seconds();
    if claims.exp.saturating_add(LEEWAY) <= now {
        return Err(IdNo::Expired(claims.exp));
    }
    if claims.iat.saturating_add(OLDEST) < now {
        return Err(IdNo::TooOld(claims.iat));
    }
    if now + LEEWAY < claims.iat {
        return Err(IdNo::FromFuture(claims.iat));
    }
    if !is_the_given(&rules.nonce, &claims.nonce) {
        return Err(IdNo::Nonce);
    }
    if is_too_late(rules.max_age, claims.auth_time, rules.begun) {
        return Err(IdNo::AuthTime);
    }
    if breaks_half(&rules.token, &claims.at_hash) {
        return Err(IdNo::TokenHash);
    }
    if breaks_half(&rules.code, &claims.c_hash) {
        return Err(IdNo::CodeHash);
    }
    Ok(())
}

/// Verifies the claims of an ID Token at a moment (OpenID Connect Core 1.0, 3.1.3.7, 3.2.2.9 and 3.3.2.10).
///
/// Returns the first error of [`IdNo`] from `Issuer` on that applies. It allocates nothing. Sums of moments and ages are exact;
/// they do not overflow.
pub fn judge_id(rules: &IdRules, claims: &IdClaims, at: Moment) -> Result<(), IdNo>
    ensures answers { result ≡ id_judged rules.now claims.now at }
    ensures good { IfOk result (λ _. IsGoodIdToken rules.now claims.now at) }
    ensures accepts { IsGoodIdToken rules.now claims.now at → result ≡ Ok tt }
    ensures memory_is_outermost { IfErr result (λ e. IsFalse (hides_memory e)) }
{
    first_refused(rules, claims, at)
}
