// Writing the text of a claim set.

ghost use Rattle.std.specs.Prelude.{◌≡◌, Ok, IfOk};
ghost use Rattle.claim_set.specs.Reading.{claims_text as text_of_claims, claims_read};

use crate::claim_set::ClaimSet;
use sso_base::{Blob, NoMemory, Text};

/// The text of a claim set: compact JSON in UTF-8, without whitespace, the names in the order of their bytes (RFC 7519, 7.1,
/// step 1; RFC 8259). Reading it returns the same claim set.
pub fn write_claims(claims: &ClaimSet) -> Result<Blob, NoMemory>
    ensures text { IfOk result (λ b. b ≡ text_of_claims claims.now) }
    ensures reads_back { IfOk result (λ b. claims_read b ≡ Ok claims.now) }
{
    let text = claims.value.to_string(claims.alloc)?;
    // This reference shows that the text is UTF-8, as `reads_back` needs.
    let _written = text.as_str();
    Ok(Blob::from_vec(text.into_bytes()))
}

/// The same text, as a [`Text`].
pub fn claims_text(claims: &ClaimSet) -> Result<Text, NoMemory>
    ensures { IfOk result (λ t. t ≡ text_of_claims claims.now) }
{
    Ok(Text::from_string(claims.value.to_string(claims.alloc)?))
}
