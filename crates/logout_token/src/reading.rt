// Reading a logout token, or rejecting a text for the first reason that applies.

ghost use Rattle.std.specs.Prelude.{◌≡◌, ◌⊎◌, Some, None, Ok, Err, IfOk, IfErr, IsFalse, option_and_then};
ghost use Rattle.serde_json.specs.Find.{as_object, get_member};
ghost use Rattle.logout_token.specs.Token.{IsLogoutToken};
ghost use Rattle.logout_token.specs.LogoutToken.{raw_in, typ_fits, has_event, whole, logout_of, logout_read, hides_memory};

use crate::claims::{LogoutClaims, RawLogout};
use crate::no::LogoutNo;
use claim_set::{ClaimNo, ClaimSet, read_claims};
use jws_compact::unseal;
use sso_base::{NoMemory, Text};
use std::alloc::Global;

// The name of the logout event.
pub(crate) const EVENT: &str = "http://schemas.openid.net/event/backchannel-logout";

// The claims, each of its kind or absent.
#[tactic(auto, unfolding(crate::specs::LogoutToken::raw_in))]
fn raw_claims(claims: &ClaimSet) -> Result<RawLogout, ClaimNo>
    ensures ok { IfOk result (λ r. raw_in claims.now ≡ Ok r) }
    ensures err { IfErr result (λ e. (e ≡ ClaimNo.NoMemory) ⊎ (raw_in claims.now ≡ Err e)) }
{
    let aud = claims.texts("aud")?;
    let exp = claims.number("exp")?;
    let iat = claims.number("iat")?;
    let iss = claims.text("iss")?;
    let jti = claims.text("jti")?;
    let sid = claims.text("sid")?;
    let sub = claims.text("sub")?;
    Ok(RawLogout {
        aud,
        exp,
        iat,
        iss,
        jti,
        sid,
        sub,
    })
}

// Whether `typ` is absent, or is one of the two, ignoring ASCII case.
fn is_logout_typ(typ: &Option<Text>) -> bool
    ensures { result ≡ typ_fits typ.now }
{
    match typ {
        None => true,
        Some(typ) => {
            typ.as_str().eq_ignore_ascii_case("jwt")
                || typ.as_str().eq_ignore_ascii_case("logout+jwt")
        }
    }
}

// A member that is an object. The only error is `NoMemory`.
fn object_at(claims: &ClaimSet, name: &str) -> Result<Option<ClaimSet>, NoMemory>
    ensures { IfOk result (λ o. o ≡ option_and_then as_object (get_member name.now claims.now)) }
{
    match claims.member(name) {
        Ok(member) => Ok(member),
        Err(ClaimNo::NoMemory) => Err(NoMemory),
        Err(_) => Ok(None),
    }
}

// Whether `events` has the logout event.
fn names_logout(claims: &ClaimSet) -> Result<bool, NoMemory>
    ensures { IfOk result (λ b. b ≡ has_event claims.now) }
{
    let Some(events) = object_at(claims, "events")? else {
        return Ok(false);
    };
    Ok(object_at(&events, EVENT)?.is_some())
}

// The error for an absent claim.
fn missing(alloc: Global, name: &str) -> LogoutNo
    ensures missing { (result ≡ LogoutNo.NoMemory) ⊎ (result ≡ LogoutNo.Missing name.now) }
    ensures memory_is_outermost { IsFalse (hides_memory result) }
{
    match Text::new(alloc, name) {
        Ok(name) => LogoutNo::Missing(name),
        Err(NoMemory) => LogoutNo::NoMemory,
    }
}

// A required claim.
fn present<T: Drop>(alloc: Global, claim: Option<T>, name: &str) -> Result<T, LogoutNo>
    ensures ok { IfOk result (λ found. claim ≡ Some found) }
    ensures absent { IfErr result (λ e. claim ≡ None) }
    ensures missing { IfErr result (λ e. (e ≡ LogoutNo.NoMemory) ⊎ (e ≡ LogoutNo.Missing name.now)) }
    ensures memory_is_outermost { IfErr result (λ e. IsFalse (hides_memory e)) }
{
    match claim {
        Some(found) => Ok(found),
        None => Err(missing(alloc, name)),
    }
}

// Checks that the required claims are present and the forbidden ones absent.
#[tactic(auto, unfolding(crate::specs::LogoutToken::whole))]
fn whole_claims(alloc: Global, raw: RawLogout, claims: &ClaimSet) -> Result<LogoutClaims, LogoutNo>
    ensures ok { IfOk result (λ x. whole raw claims.now ≡ Ok x) }
    ensures err { IfErr result (λ e. (e ≡ LogoutNo.NoMemory) ⊎ (whole raw claims.now ≡ Err e)) }
    ensures memory_is_outermost { IfErr result (λ e. IsFalse (hides_memory e)) }
{
    let iss = present(alloc, raw.iss, "iss")?;
    let aud = present(alloc, raw.aud, "aud")?;
    let iat = present(alloc, raw.iat, "iat")?;
    let exp = present(alloc, raw.exp, "exp")?;
    let jti = present(alloc, raw.jti, "jti")?;
    if !names_logout(claims)? {
        return Err(LogoutNo::NoEvent);
    }
    if claims.has("nonce") {
        return Err(LogoutNo::HasNonce);
    }
    if raw.sub.is_none() && raw.sid.is_none() {
        return Err(LogoutNo::NamesNobody);
    }
    Ok(LogoutClaims {
        iss,
        aud,
        iat,
        exp,
        jti,
        sub: raw.sub,
        sid: raw.sid,
    })
}

// The logout token in a claim set, with the header's `typ`.
#[tactic(auto, unfolding(crate::specs::LogoutToken::logout_of))]
fn logout_in(alloc: Global, typ: &Option<Text>, claims: &ClaimSet) -> Result<LogoutClaims, LogoutNo>
    ensures ok { IfOk result (λ x. logout_of typ.now claims.now ≡ Ok x) }
    ensures err { IfErr result (λ e. (e ≡ LogoutNo.NoMemory) ⊎ (logout_of typ.now claims.now ≡ Err e)) }
    ensures memory_is_outermost { IfErr result (λ e. IsFalse (hides_memory e)) }
{
    let raw = raw_claims(claims)?;
    if !is_logout_typ(typ) {
        return Err(LogoutNo::WrongTyp);
    }
    whole_claims(alloc, raw, claims)
}

// The claims of the logout token that a text is under a key, or the first error that applies.
#[tactic(auto, unfolding(crate::specs::LogoutToken::logout_read))]
fn opened(alloc: Global, key: &[u8], text: &[u8]) -> Result<LogoutClaims, LogoutNo>
    ensures answers { IfOk result (λ x. logout_read key.now text.now ≡ Ok x) }
    ensures refuses { IfErr result (λ e. (e ≡ LogoutNo.NoMemory) ⊎ (logout_read key.now text.now ≡ Err e)) }
    ensures memory_is_outermost { IfErr result (λ e. IsFalse (hides_memory e)) }
{
    let opened = unseal(alloc, key, text)?;
    let claims = read_claims(alloc, opened.payload.as_bytes())?;
    logout_in(alloc, &opened.typ, &claims)
}

/// Reads a logout token under `key`, which has any length (OpenID Connect Back-Channel Logout 1.0, 2.4 and 2.6).
///
/// For any other text it returns the first error that applies, in the order of [`LogoutNo`] up to [`LogoutNo::NamesNobody`].
/// `NoMemory` is never wrapped in another error. `judge_logout` verifies whether the token is for this client at this moment.
pub fn read_logout(alloc: Global, key: &[u8], text: &[u8]) -> Result<LogoutClaims, LogoutNo>
    ensures token { IfOk result (λ x. IsLogoutToken key.now text.now x) }
    ensures accepts { (x : LogoutClaims) → IsLogoutToken key.now text.now x → IfErr result (λ e. e ≡ LogoutNo.NoMemory) }
    ensures answers { IfOk result (λ x. logout_read key.now text.now ≡ Ok x) }
    ensures refuses { IfErr result (λ e. (e ≡ LogoutNo.NoMemory) ⊎ (logout_read key.now text.now ≡ Err e)) }
    ensures memory_is_outermost { IfErr result (λ e. IsFalse (hides_memory e)) }
{
    opened(alloc, key, text)
}
