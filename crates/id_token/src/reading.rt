// Opening a sealed text as an ID Token, or rejecting it for the first reason that applies.

ghost use Rattle.std.specs.Prelude.{◌≡◌, ◌⊎◌, Some, None, Ok, Err, IfOk, IfErr, IsFalse};
ghost use Rattle.sso_base.specs.Refusals.{and_then};
ghost use Rattle.sso_base.specs.Texts as texts;
ghost use Rattle.claim_set.specs.Building.{without_all};
ghost use Rattle.id_token.specs.Claims.{is_subject as is_subject_text, id_names};
ghost use Rattle.id_token.specs.Reading.{raw_in, if_subject, whole, id_of, id_read, hides_memory};
ghost use Rattle.id_token.specs.Token.{IsIdToken};
ghost use Rattle.id_token.specs.Judging.{IsGoodIdToken, id_judged};

use crate::claims::{IdClaims, RawClaims};
use crate::judging::judge_id;
use crate::no::IdNo;
use crate::rules::IdRules;
use claim_set::{ClaimNo, ClaimSet, read_claims};
use jws_compact::unseal;
use sso_base::{Moment, NoMemory, Text};
use std::alloc::Global;

/// Whether a text is a valid subject: it has 1 to 255 bytes and is ASCII (OpenID Connect Core 1.0, 2). This tests a
/// precondition of [`crate::seal_id`].
pub fn is_subject(text: &Text) -> bool
    ensures { result ≡ is_subject_text text.now }
{
    let length = text.as_str().len();
    1 <= length && length <= 255 && is_ascii(text)
}

// Whether a text is ASCII.
fn is_ascii(text: &Text) -> bool
    ensures { result ≡ texts.is_ascii text.now }
{
    text.as_str().as_bytes().iter().all(|byte| *byte < 128)
}

// The subject, if it is present. A text that is not a valid subject is rejected as a claim of another kind.
fn subject_in(alloc: Global, given: Option<Text>) -> Result<Option<Text>, ClaimNo>
    ensures ok { IfOk result (λ o. if_subject given ≡ Ok o) }
    ensures err { IfErr result (λ e. (e ≡ ClaimNo.NoMemory) ⊎ (if_subject given ≡ Err e)) }
{
    match given {
        None => Ok(None),
        Some(text) => {
            if is_subject(&text) {
                Ok(Some(text))
            } else {
                Err(ClaimNo::WrongKind(Text::new(alloc, "sub")?))
            }
        }
    }
}

// The claims that are fields; each may be absent. They are read in the order of their names, so the first one of another kind
// decides.
#[tactic(auto, unfolding(crate::specs::Reading::raw_in))]
fn raw_claims(alloc: Global, claims: &ClaimSet) -> Result<RawClaims, ClaimNo>
    ensures ok { IfOk result (λ r. raw_in claims.now ≡ Ok r) }
    ensures err { IfErr result (λ e. (e ≡ ClaimNo.NoMemory) ⊎ (raw_in claims.now ≡ Err e)) }
{
    let at_hash = claims.text("at_hash")?;
    let aud = claims.texts("aud")?;
    let auth_time = claims.number("auth_time")?;
    let azp = claims.text("azp")?;
    let c_hash = claims.text("c_hash")?;
    let exp = claims.number("exp")?;
    let iat = claims.number("iat")?;
    let iss = claims.text("iss")?;
    let nonce = claims.text("nonce")?;
    let sid = claims.text("sid")?;
    let given = claims.text("sub")?;
    let sub = subject_in(alloc, given)?;
    Ok(RawClaims {
        at_hash,
        aud,
        auth_time,
        azp,
        c_hash,
        exp,
        iat,
        iss,
        nonce,
        sid,
        sub,
    })
}

// The claims that are not fields. The names are removed in the order of `without_all`, from the last.
fn others(claims: ClaimSet) -> ClaimSet
    ensures { result ≡ without_all id_names claims }
{
    let mut others = claims;
    others.remove("sub");
    others.remove("sid");
    others.remove("nonce");
    others.remove("iss");
    others.remove("iat");
    others.remove("exp");
    others.remove("c_hash");
    others.remove("azp");
    others.remove("auth_time");
    others.remove("aud");
    others.remove("at_hash");
    others
}

// The error for an absent claim.
fn missing(alloc: Global, name: &str) -> IdNo
    ensures missing { (result ≡ IdNo.NoMemory) ⊎ (result ≡ IdNo.Missing name.now) }
    ensures memory_is_outermost { IsFalse (hides_memory result) }
{
    match Text::new(alloc, name) {
        Ok(name) => IdNo::Missing(name),
        Err(NoMemory) => IdNo::NoMemory,
    }
}

// A required claim.
fn present<T: Drop>(alloc: Global, claim: Option<T>, name: &str) -> Result<T, IdNo>
    ensures ok { IfOk result (λ found. claim ≡ Some found) }
    ensures absent { IfErr result (λ e. claim ≡ None) }
    ensures missing { IfErr result (λ e. (e ≡ IdNo.NoMemory) ⊎ (e ≡ IdNo.Missing name.now)) }
    ensures memory_is_outermost { IfErr result (λ e. IsFalse (hides_memory e)) }
{
    match claim {
        Some(found) => Ok(found),
        None => Err(missing(alloc, name)),
    }
}

// The claims, if all required ones are present.
#[tactic(auto, unfolding(crate::specs::Reading::whole))]
fn whole_claims(alloc: Global, raw: RawClaims, more: ClaimSet) -> Result<IdClaims, IdNo>
    ensures ok { IfOk result (λ x. whole raw more ≡ Ok x) }
    ensures err { IfErr result (λ e. (e ≡ IdNo.NoMemory) ⊎ (whole raw more ≡ Err e)) }
    ensures memory_is_outermost { IfErr result (λ e. IsFalse (hides_memory e)) }
{
    Ok(IdClaims {
        iss: present(alloc, raw.iss, "iss")?,
        sub: present(alloc, raw.sub, "sub")?,
        aud: present(alloc, raw.aud, "aud")?,
        azp: raw.azp,
        exp: present(alloc, raw.exp, "exp")?,
        iat: present(alloc, raw.iat, "iat")?,
        auth_time: raw.auth_time,
        nonce: raw.nonce,
        sid: raw.sid,
        at_hash: raw.at_hash,
        c_hash: raw.c_hash,
        more,
    })
}

// The ID Token in a claim set.
#[tactic(auto, unfolding(crate::specs::Reading::id_of))]
fn id_in(alloc: Global, claims: ClaimSet) -> Result<IdClaims, IdNo>
    ensures ok { IfOk result (λ x. id_of claims ≡ Ok x) }
    ensures err { IfErr result (λ e. (e ≡ IdNo.NoMemory) ⊎ (id_of claims ≡ Err e)) }
    ensures memory_is_outermost { IfErr result (λ e. IsFalse (hides_memory e)) }
{
    let raw = raw_claims(alloc, &claims)?;
    whole_claims(alloc, raw, others(claims))
}

// The claims of the ID Token that a text is under a key, or the first error that applies.
#[tactic(auto, unfolding(crate::specs::Reading::id_read))]
fn opened(alloc: Global, key: &[u8], text: &[u8]) -> Result<IdClaims, IdNo>
    ensures answers { IfOk result (λ x. id_read key.now text.now ≡ Ok x) }
    ensures refuses { IfErr result (λ e. (e ≡ IdNo.NoMemory) ⊎ (id_read key.now text.now ≡ Err e)) }
    ensures memory_is_outermost { IfErr result (λ e. IsFalse (hides_memory e)) }
{
    let opened = unseal(alloc, key, text)?;
    let claims = read_claims(alloc, opened.payload.as_bytes())?;
    id_in(alloc, claims)
}

/// The claims of the ID Token that `text` is under `key`, which has any length (OpenID Connect Core 1.0, 2).
///
/// Returns the first that applies of the errors `Jws`, `Claims` and `Missing`. `NoMemory` is never wrapped in another error.
pub fn read_id(alloc: Global, key: &[u8], text: &[u8]) -> Result<IdClaims, IdNo>
    ensures token { IfOk result (λ x. IsIdToken key.now text.now x) }
    ensures accepts { (x : IdClaims) → IsIdToken key.now text.now x → IfErr result (λ e. e ≡ IdNo.NoMemory) }
    ensures answers { IfOk result (λ x. id_read key.now text.now ≡ Ok x) }
    ensures refuses { IfErr result (λ e. (e ≡ IdNo.NoMemory) ⊎ (id_read key.now text.now ≡ Err e)) }
    ensures memory_is_outermost { IfErr result (λ e. IsFalse (hides_memory e)) }
{
    opened(alloc, key, text)
}

// Opens an ID Token and verifies it.
fn checked(
    alloc: Global,
    rules: &IdRules,
    key: &[u8],
    text: &[u8],
    at: Moment,
) -> Result<IdClaims, IdNo>
    ensures answers { IfOk result (λ x. id_read key.now text.now ≡ Ok x) }
    ensures good { IfOk result (λ x. IsGoodIdToken rules.now x at) }
    ensures refuses { IfErr result (λ e. (e ≡ IdNo.NoMemory) ⊎ (and_then (id_read key.now text.now) (λ x. id_judged rules.now x at) ≡ Err e)) }
    ensures memory_is_outermost { IfErr result (λ e. IsFalse (hides_memory e)) }
{
    let claims = read_id(alloc, key, text)?;
    judge_id(rules, &claims, at)?;
    Ok(claims)
}

/// Opens an ID Token as [`read_id`] does, and verifies it as [`judge_id`] does (OpenID Connect Core 1.0, 3.1.3.7).
pub fn check_id(
    alloc: Global,
    rules: &IdRules,
    key: &[u8],
    text: &[u8],
    at: Moment,
) -> Result<IdClaims, IdNo>
    ensures token { IfOk result (λ x. IsIdToken key.now text.now x) }
    ensures good { IfOk result (λ x. IsGoodIdToken rules.now x at) }
    ensures accepts { (x : IdClaims) → IsIdToken key.now text.now x → IsGoodIdToken rules.now x at → IfErr result (λ e. e ≡ IdNo.NoMemory) }
    ensures answers { IfOk result (λ x. id_read key.now text.now ≡ Ok x) }
    ensures refuses { IfErr result (λ e. (e ≡ IdNo.NoMemory) ⊎ (and_then (id_read key.now text.now) (λ x. id_judged rules.now x at) ≡ Err e)) }
    ensures memory_is_outermost { IfErr result (λ e. IsFalse (hides_memory e)) }
{
    checked(alloc, rules, key, text, at)
}
