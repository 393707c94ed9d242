// Why a logout token is rejected.

use claim_set::ClaimNo;
use jws_compact::JwsNo;
use sso_base::{NoMemory, Text};

/// Why a text is no logout token, why a logout token is not for this client at this moment, or `NoMemory`. If several reasons
/// apply, the first in this order is returned (OpenID Connect Back-Channel Logout 1.0, 2.6).
#[derive(Drop)]
pub enum LogoutNo {
    /// Memory ran out.
    NoMemory,
    /// The text is not a sealed text under the key, for this reason. The reason is never [`JwsNo::NoMemory`].
    Jws(JwsNo),
    /// The payload is no claim set, or a claim has a wrong kind: the first of `aud`, `exp`, `iat`, `iss`, `jti`, `sid` and
    /// `sub`. The reason is never [`ClaimNo::NoMemory`].
    Claims(ClaimNo),
    /// The header's `typ` is a string and, ignoring ASCII case, neither `JWT` nor `logout+jwt` (2.4).
    WrongTyp,
    /// The claim of this name is absent: the first of `iss`, `aud`, `iat`, `exp` and `jti`, in this order (2.4).
    Missing(Text),
    /// The claim `events` is not an object with the member `http://schemas.openid.net/event/backchannel-logout`, or the value
    /// of that member is not an object (2.6, step 6).
    NoEvent,
    /// The claim `nonce` is present, with any value (2.6, step 7).
    HasNonce,
    /// Both `sub` and `sid` are absent (2.6, step 5).
    NamesNobody,
    /// `iss` is another issuer (2.6, step 4; OpenID Connect Core 1.0, 3.1.3.7, step 2).
    Issuer,
    /// The audience is not this client alone (2.6, step 4; Core 3.1.3.7, step 3).
    Audience,
    /// The token expired 60 seconds ago or earlier (Core 3.1.3.7, step 9). The number is `exp`, in seconds since the epoch.
    Expired(u64),
    /// The token was issued more than 600 seconds ago (Core 3.1.3.7, step 10). The number is `iat`, in seconds since the epoch.
    TooOld(u64),
    /// The token was issued more than 60 seconds in the future. The number is `iat`, in seconds since the epoch.
    FromFuture(u64),
}

impl From<NoMemory> for LogoutNo {
    ghost use Rattle.std.specs.Prelude.{◌≡◌};
    ghost use Rattle.logout_token.specs.declared.no.LogoutNo.TheVariants as no;

    ghost from_gives = { λ _ e. e ≡ no.NoMemory };

    fn from(_error: NoMemory) -> LogoutNo {
        LogoutNo::NoMemory
    }
}

impl From<JwsNo> for LogoutNo {
    ghost use Rattle.std.specs.Prelude.{◌≡◌, IsFalse};
    ghost use Rattle.jws_compact.specs.Wrapped.{as_jws};
    ghost use Rattle.logout_token.specs.declared.no.LogoutNo.TheVariants as no;
    ghost use Rattle.logout_token.specs.LogoutToken.{hides_memory};

    ghost from_gives = { λ given e. (e ≡ as_jws no.NoMemory no.Jws given) × IsFalse (hides_memory e) };

    // An error of a sealed text, as an error of the token.
    fn from(error: JwsNo) -> LogoutNo {
        match error {
            JwsNo::NoMemory => LogoutNo::NoMemory,
            error => LogoutNo::Jws(error),
        }
    }
}

impl From<ClaimNo> for LogoutNo {
    ghost use Rattle.std.specs.Prelude.{◌≡◌, IsFalse};
    ghost use Rattle.claim_set.specs.Wrapped.{as_claims};
    ghost use Rattle.logout_token.specs.declared.no.LogoutNo.TheVariants as no;
    ghost use Rattle.logout_token.specs.LogoutToken.{hides_memory};

    ghost from_gives = { λ given e. (e ≡ as_claims no.NoMemory no.Claims given) × IsFalse (hides_memory e) };

    // An error of claims, as an error of the token.
    fn from(error: ClaimNo) -> LogoutNo {
        match error {
            ClaimNo::NoMemory => LogoutNo::NoMemory,
            error => LogoutNo::Claims(error),
        }
    }
}
