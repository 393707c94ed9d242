// Why an ID Token is rejected.

use claim_set::ClaimNo;
use jws_compact::JwsNo;
use sso_base::{NoMemory, Text};

/// Why an ID Token is rejected, or `NoMemory`. If several reasons apply, the first in this order is returned.
#[derive(Drop)]
pub enum IdNo {
    /// Memory ran out.
    NoMemory,
    /// It is not a sealed text under the key, for this reason. The reason is never [`JwsNo::NoMemory`].
    Jws(JwsNo),
    /// Its payload is no claim set, or a claim has another kind: the first such claim in the order of their names. A subject
    /// that is empty, longer than 255 bytes or not ASCII counts as another kind (OpenID Connect Core 1.0, 2). The reason is
    /// never [`ClaimNo::NoMemory`].
    Claims(ClaimNo),
    /// A required claim is absent: the first of `iss`, `sub`, `aud`, `exp`, `iat`.
    Missing(Text),
    /// `iss` is another issuer (OpenID Connect Core 1.0, 3.1.3.7, step 2).
    Issuer,
    /// The audience is not this client alone (3.1.3.7, step 3).
    Audience,
    /// It was issued to another client (3.1.3.7, step 5).
    Azp,
    /// It expired 60 seconds ago or earlier (3.1.3.7, step 9). The number is its `exp`.
    Expired(u64),
    /// It was issued more than 600 seconds ago (3.1.3.7, step 10). The number is its `iat`.
    TooOld(u64),
    /// It was issued more than 60 seconds in the future. The number is its `iat`.
    FromFuture(u64),
    /// The nonce is absent or differs (3.1.3.7, step 11).
    Nonce,
    /// `max_age` was requested, and `auth_time` is absent or too early (3.1.3.7, step 13).
    AuthTime,
    /// `at_hash` is not the half digest of the access token (3.1.3.8 and 3.2.2.9).
    TokenHash,
    /// `c_hash` is not the half digest of the code (3.3.2.10).
    CodeHash,
}

impl From<NoMemory> for IdNo {
    ghost use Rattle.std.specs.Prelude.{◌≡◌};
    ghost use Rattle.id_token.specs.declared.no.IdNo.TheVariants as no;

    ghost from_gives = { λ _ e. e ≡ no.NoMemory };

    fn from(_error: NoMemory) -> IdNo {
        IdNo::NoMemory
    }
}

impl From<JwsNo> for IdNo {
    ghost use Rattle.std.specs.Prelude.{◌≡◌, IsFalse};
    ghost use Rattle.jws_compact.specs.Wrapped.{as_jws};
    ghost use Rattle.id_token.specs.declared.no.IdNo.TheVariants as no;
    ghost use Rattle.id_token.specs.Reading.{hides_memory};

    ghost from_gives = { λ given e. (e ≡ as_jws no.NoMemory no.Jws given) × IsFalse (hides_memory e) };

    // An error of a sealed text, as an error of the token.
    fn from(error: JwsNo) -> IdNo {
        match error {
            JwsNo::NoMemory => IdNo::NoMemory,
            error => IdNo::Jws(error),
        }
    }
}

impl From<ClaimNo> for IdNo {
    ghost use Rattle.std.specs.Prelude.{◌≡◌, IsFalse};
    ghost use Rattle.claim_set.specs.Wrapped.{as_claims};
    ghost use Rattle.id_token.specs.declared.no.IdNo.TheVariants as no;
    ghost use Rattle.id_token.specs.Reading.{hides_memory};

    ghost from_gives = { λ given e. (e ≡ as_claims no.NoMemory no.Claims given) × IsFalse (hides_memory e) };

    // An error of claims, as an error of the token.
    fn from(error: ClaimNo) -> IdNo {
        match error {
            ClaimNo::NoMemory => IdNo::NoMemory,
            error => IdNo::Claims(error),
        }
    }
}
