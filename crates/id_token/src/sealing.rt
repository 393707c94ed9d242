// Writing the claims as a claim set, and sealing it.

ghost use Rattle.std.specs.Prelude.{◌≡◌, ◌≤◌, ◌<◌, ◌^◌, IfOk, IfSome, IsTrue, Ok, length};
ghost use Rattle.claim_set.specs.Reading.{claims_text};
ghost use Rattle.claim_set.specs.Building.{HasNone};
ghost use Rattle.id_token.specs.Claims.{id_members, id_names, is_subject};
ghost use Rattle.id_token.specs.Reading.{id_read};
ghost use Rattle.id_token.specs.Sealing.{id_text};

use crate::claims::IdClaims;
use claim_set::{ClaimSet, write_claims};
use jws_compact::Typ;
use sso_base::{NoMemory, Text};
use std::alloc::Global;

// The claim set of an ID Token.
#[tactic(auto, unfolding(crate::specs::Claims::id_members))]
fn id_set(claims: &IdClaims) -> Result<ClaimSet, NoMemory>
    ensures { IfOk result (λ s. s ≡ id_members claims.now) }
{
    let mut set = claims.more.copy()?;
    set.put_text_if("at_hash", &claims.at_hash)?;
    set.put_audience(&claims.aud)?;
    set.put_number_if("auth_time", claims.auth_time)?;
    set.put_text_if("azp", &claims.azp)?;
    set.put_text_if("c_hash", &claims.c_hash)?;
    set.put_number("exp", claims.exp)?;
    set.put_number("iat", claims.iat)?;
    set.put_text("iss", claims.iss.as_str())?;
    set.put_text_if("nonce", &claims.nonce)?;
    set.put_text_if("sid", &claims.sid)?;
    set.put_text("sub", claims.sub.as_str())?;
    Ok(set)
}

/// How many bytes the written claims have. This tests the first precondition of [`seal_id`].
pub fn written_len(claims: &IdClaims) -> Result<usize, NoMemory>
    ensures { IfOk result (λ n. n ≡ length (claims_text (id_members claims.now))) }
{
    let written = write_claims(&id_set(claims)?)?;
    Ok(written.as_bytes().len())
}

/// The ID Token of these claims, sealed under `key`, which has any length (OpenID Connect Core 1.0, 2).
///
/// The written claims have at most 6,000 bytes; [`written_len`] tests this. The subject has 1 to 255 ASCII characters, and
/// `exp`, `iat` and `auth_time` are below 2^40. `more` has none of the names of the other fields. Reading the text under the
/// same key returns the same claims.
pub fn seal_id(alloc: Global, key: &[u8], claims: &IdClaims) -> Result<Text, NoMemory>
    requires short { length (claims_text (id_members claims.now)) ≤ 6000 }
    requires subject { IsTrue (is_subject claims.now.sub) }
    requires exp { claims.now.exp < 2 ^ 40 }
    requires iat { claims.now.iat < 2 ^ 40 }
    requires auth_time { IfSome claims.now.auth_time (λ t. t < 2 ^ 40) }
    requires others { HasNone id_names claims.now.more }
    ensures text { IfOk result (λ t. t ≡ id_text key.now claims.now) }
    ensures reads_back { IfOk result (λ t. id_read key.now t ≡ Ok claims.now) }
{
    let payload = write_claims(&id_set(claims)?)?;
    jws_compact::seal(alloc, key, Typ::Jwt, payload.as_bytes())
}
