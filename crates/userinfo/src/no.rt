// Why a UserInfo response is rejected.

use claim_set::ClaimNo;
use sso_base::NoMemory;

/// Why a UserInfo response is rejected, or `NoMemory`. If several reasons apply, the first in this order is returned.
#[derive(Drop)]
pub enum InfoNo {
    /// Memory ran out.
    NoMemory,
    /// The status, which is not 200 (OpenID Connect Core 1.0, 5.3.3).
    Status(u16),
    /// The body is no claim set, or `sub` is present and not a string. The reason is never [`ClaimNo::NoMemory`].
    Claims(ClaimNo),
    /// `sub` is absent (OpenID Connect Core 1.0, 5.3.2).
    NoSub,
}

impl From<NoMemory> for InfoNo {
    ghost use Rattle.std.specs.Prelude.{◌≡◌};
    ghost use Rattle.userinfo.specs.declared.no.InfoNo.TheVariants as no;

    ghost from_gives = { λ _ e. e ≡ no.NoMemory };

    fn from(_error: NoMemory) -> InfoNo {
        InfoNo::NoMemory
    }
}

impl From<ClaimNo> for InfoNo {
    ghost use Rattle.std.specs.Prelude.{◌≡◌, IsFalse};
    ghost use Rattle.claim_set.specs.Wrapped.{as_claims};
    ghost use Rattle.userinfo.specs.declared.no.InfoNo.TheVariants as no;
    ghost use Rattle.userinfo.specs.Answer.{hides_memory};

    ghost from_gives = { λ error e. (e ≡ as_claims no.NoMemory no.Claims error) × IsFalse (hides_memory e) };

    fn from(error: ClaimNo) -> InfoNo {
        match error {
            ClaimNo::NoMemory => InfoNo::NoMemory,
            error => InfoNo::Claims(error),
        }
    }
}
