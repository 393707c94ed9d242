// Why an authorization request is rejected.

use sso_base::{NoMemory, Text};
use std::alloc::AllocError;

/// Why the parameters of an authorization request are rejected, or `NoMemory`. If several reasons apply, the first in this
/// order is returned.
#[derive(Drop)]
pub enum AskNo {
    /// The parameter of this name occurs twice in the form (RFC 6749, 3.1: parameters must not be included more than once). It
    /// is the first name that is repeated.
    Twice(Text),
    /// The parameter of this name, `client_id` or then `response_type`, is absent outside the request object, or differs in it
    /// (OpenID Connect Core 1.0, 6.1).
    Differs(Text),
    /// The `scope` outside the request object does not have the word `openid` (OpenID Connect Core 1.0, 6.1).
    OuterScope,
    /// Memory ran out.
    NoMemory,
}

impl From<NoMemory> for AskNo {
    ghost use Rattle.std.specs.Prelude.{◌≡◌};
    ghost use Rattle.request_params.specs.declared.no.AskNo.TheVariants as no;

    ghost from_gives = { λ _ e. e ≡ no.NoMemory };

    fn from(_error: NoMemory) -> AskNo {
        AskNo::NoMemory
    }
}

impl From<AllocError> for AskNo {
    ghost use Rattle.std.specs.Prelude.{◌≡◌};
    ghost use Rattle.request_params.specs.declared.no.AskNo.TheVariants as no;

    ghost from_gives = { λ _ e. e ≡ no.NoMemory };

    fn from(_error: AllocError) -> AskNo {
        AskNo::NoMemory
    }
}
