// Why a request object is rejected.

use claim_set::ClaimNo;
use jws_compact::JwsNo;
use sso_base::NoMemory;

/// Why a text is no request object of a client for a provider, or `NoMemory`. If several reasons apply, the first in this order
/// is returned (OpenID Connect Core 1.0, 6.1 and 6.3).
#[derive(Drop)]
pub enum ObjNo {
    /// Memory ran out.
    NoMemory,
    /// It is not a sealed text under a secret of the client, for this reason. The reason is never [`JwsNo::NoMemory`].
    Jws(JwsNo),
    /// Its payload is no claim set, or a claim has another kind: the first such claim in the order of their names. Parameters
    /// and `iss` must be strings, except that `max_age` may be a number from 0 to 2^40 - 1 and `claims` an object. `aud` must
    /// be a string or an array of strings. The reason is never [`ClaimNo::NoMemory`].
    Claims(ClaimNo),
    /// `iss` is present and is not the client (6.1).
    Issuer,
    /// `aud` is present and does not contain the provider's issuer (6.1).
    Audience,
    /// `request` or `request_uri` is present (6.1).
    Nested,
}

impl From<NoMemory> for ObjNo {
    ghost use Rattle.std.specs.Prelude.{◌≡◌};
    ghost use Rattle.request_object.specs.declared.no.ObjNo.TheVariants as no;

    ghost from_gives = { λ _ e. e ≡ no.NoMemory };

    fn from(_error: NoMemory) -> ObjNo {
        ObjNo::NoMemory
    }
}

impl From<JwsNo> for ObjNo {
    ghost use Rattle.std.specs.Prelude.{◌≡◌, IsFalse};
    ghost use Rattle.jws_compact.specs.Wrapped.{as_jws};
    ghost use Rattle.request_object.specs.declared.no.ObjNo.TheVariants as no;
    ghost use Rattle.request_object.specs.Reading.{hides_memory};

    ghost from_gives = { λ given e. (e ≡ as_jws no.NoMemory no.Jws given) × IsFalse (hides_memory e) };

    // An error of a sealed text, as an error of the request object.
    fn from(error: JwsNo) -> ObjNo {
        match error {
            JwsNo::NoMemory => ObjNo::NoMemory,
            error => ObjNo::Jws(error),
        }
    }
}

impl From<ClaimNo> for ObjNo {
    ghost use Rattle.std.specs.Prelude.{◌≡◌, IsFalse};
    ghost use Rattle.claim_set.specs.Wrapped.{as_claims};
    ghost use Rattle.request_object.specs.declared.no.ObjNo.TheVariants as no;
    ghost use Rattle.request_object.specs.Reading.{hides_memory};

    ghost from_gives = { λ given e. (e ≡ as_claims no.NoMemory no.Claims given) × IsFalse (hides_memory e) };

    // An error of claims, as an error of the request object.
    fn from(error: ClaimNo) -> ObjNo {
        match error {
            ClaimNo::NoMemory => ObjNo::NoMemory,
            error => ObjNo::Claims(error),
        }
    }
}
