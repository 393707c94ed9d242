// Why a text or a claim is rejected.

use sso_base::{NoMemory, Text};

/// Why a text is not a claim set, why a claim is not of the requested kind, or `NoMemory`. If several reasons apply, the first
/// in this order is returned.
#[derive(Drop)]
pub enum ClaimNo {
    /// Memory ran out.
    NoMemory,
    /// The bytes are not the text of a JSON value in UTF-8, or it nests deeper than 127 (RFC 8259, 2 and 9).
    NotJson,
    /// The value is not an object (RFC 7519, 7.2, step 10).
    NotObject,
    /// The claim of this name has another kind. When a text is read, this is the first name, in the order of the bytes, whose
    /// value contains a number that is not an integer from -2^63 to 2^64 - 1. Numbers with a fraction or an exponent are such
    /// numbers, even `1.0`.
    WrongKind(Text),
}

impl From<NoMemory> for ClaimNo {
    ghost use Rattle.std.specs.Prelude.{◌≡◌};
    ghost use Rattle.claim_set.specs.declared.no.ClaimNo.TheVariants as no;

    ghost from_gives = { λ _ e. e ≡ no.NoMemory };

    fn from(_error: NoMemory) -> ClaimNo {
        ClaimNo::NoMemory
    }
}
