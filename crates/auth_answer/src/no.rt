// Why an authorization response is rejected.

use sso_base::{NoMemory, Text};
use std::alloc::AllocError;

/// Why an authorization response is rejected, or `NoMemory`.
#[derive(Drop)]
pub enum AnswerNo {
    /// The parameter of this name occurs twice in the form (RFC 6749, 3.1: parameters must not be included more than once). It
    /// is the first name that is repeated.
    Twice(Text),
    /// Memory ran out.
    NoMemory,
}

impl From<NoMemory> for AnswerNo {
    ghost use Rattle.std.specs.Prelude.{◌≡◌};
    ghost use Rattle.auth_answer.specs.declared.no.AnswerNo.TheVariants as no;

    ghost from_gives = { λ _ e. e ≡ no.NoMemory };

    fn from(_error: NoMemory) -> AnswerNo {
        AnswerNo::NoMemory
    }
}

impl From<AllocError> for AnswerNo {
    ghost use Rattle.std.specs.Prelude.{◌≡◌};
    ghost use Rattle.auth_answer.specs.declared.no.AnswerNo.TheVariants as no;

    ghost from_gives = { λ _ e. e ≡ no.NoMemory };

    fn from(_error: AllocError) -> AnswerNo {
        AnswerNo::NoMemory
    }
}
