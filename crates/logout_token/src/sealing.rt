// Writing a logout token.

ghost use Rattle.std.specs.Prelude.{◌≡◌, ◌≤◌, ◌<◌, ◌^◌, ◌||◌, IfOk, OnOk, Ok, Some, length, codes, is_some, true};
ghost use Rattle.claim_set.specs.Reading.{claims_text};
ghost use Rattle.claim_set.specs.Building.{put_if};
ghost use Rattle.logout_token.specs.LogoutToken.{events, logout_members, logout_text, logout_read};

use crate::claims::LogoutClaims;
use crate::reading::EVENT;
use claim_set::{ClaimSet, write_claims};
use jws_compact::Typ;
use sso_base::{NoMemory, Text};
use std::alloc::Global;

// Sets `events` to the logout event.
fn put_events(alloc: Global, claims: &mut ClaimSet) -> Result<(), NoMemory>
    ensures { OnOk result (claims.new ≡ put_if (codes "events") (Some events) claims.old) }
{
    let mut events = ClaimSet::new(alloc);
    events.put_set(EVENT, ClaimSet::new(alloc))?;
    claims.put_set("events", events)
}

// The claim set of a logout token.
#[tactic(auto, unfolding(crate::specs::LogoutToken::logout_members))]
fn logout_set(alloc: Global, claims: &LogoutClaims) -> Result<ClaimSet, NoMemory>
    ensures { IfOk result (λ s. s ≡ logout_members claims.now) }
{
    let mut set = ClaimSet::new(alloc);
    set.put_audience(&claims.aud)?;
    put_events(alloc, &mut set)?;
    set.put_number("exp", claims.exp)?;
    set.put_number("iat", claims.iat)?;
    set.put_text("iss", claims.iss.as_str())?;
    set.put_text("jti", claims.jti.as_str())?;
    set.put_text_if("sid", &claims.sid)?;
    set.put_text_if("sub", &claims.sub)?;
    Ok(set)
}

/// How many bytes the written claims have. This tests the first precondition of [`seal_logout`].
pub fn written_len(alloc: Global, claims: &LogoutClaims) -> Result<usize, NoMemory>
    ensures { IfOk result (λ n. n ≡ length (claims_text (logout_members claims.now))) }
{
    let written = write_claims(&logout_set(alloc, claims)?)?;
    Ok(written.as_bytes().len())
}

/// The logout token with these claims, sealed under `key` with the header's `typ` `logout+jwt` (OpenID Connect Back-Channel
/// Logout 1.0, 2.4). Reading it returns the same claims.
///
/// The written claims have at most 6,000 bytes ([`written_len`]), `sub` or `sid` is present, and `iat` and `exp` are below
/// 2^40.
pub fn seal_logout(alloc: Global, key: &[u8], claims: &LogoutClaims) -> Result<Text, NoMemory>
    requires short { length (claims_text (logout_members claims.now)) ≤ 6000 }
    requires names { (is_some claims.now.sub || is_some claims.now.sid) ≡ true }
    requires iat { claims.now.iat < 2 ^ 40 }
    requires exp { claims.now.exp < 2 ^ 40 }
    ensures text { IfOk result (λ t. t ≡ logout_text key.now claims.now) }
    ensures reads_back { IfOk result (λ t. logout_read key.now t ≡ Ok claims.now) }
{
    let payload = write_claims(&logout_set(alloc, claims)?)?;
    jws_compact::seal(alloc, key, Typ::LogoutJwt, payload.as_bytes())
}
