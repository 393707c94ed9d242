// Reading the text of a claim set, or rejecting it for the first reason that applies.

ghost use Rattle.std.specs.Prelude.{◌≡◌, ◌≤◌, ◌⊎◌, Some, None, Ok, Err, IfOk, IfErr};
ghost use Rattle.serde_json.specs.Data.{depth};
ghost use Rattle.serde_json.specs.Find.{as_object};
ghost use Rattle.serde_json.specs.View.{view};
ghost use Rattle.claim_set.specs.Reading.{json_in, if_members, claims_read, Reads};

use crate::claim_set::ClaimSet;
use crate::no::ClaimNo;
use crate::walks::first_with_float;
use serde_json::Value;
use sso_base::Text;
use std::alloc::Global;

// The JSON value whose text these bytes are.
#[tactic(auto, using(crate::proofs::Parsing::json_read, crate::proofs::Parsing::json_refused))]
fn parsed(alloc: Global, bytes: &[u8]) -> Result<Value, ClaimNo>
    ensures ok { IfOk result (λ v. json_in bytes.now ≡ Some (view v)) }
    ensures nests { IfOk result (λ v. depth (view v) ≤ 127) }
    ensures err { IfErr result (λ e. (e ≡ ClaimNo.NoMemory) ⊎ ((e ≡ ClaimNo.NotJson) × (json_in bytes.now ≡ None))) }
{
    match Value::from_slice(alloc, bytes) {
        Ok(value) => Ok(value),
        Err(error) => {
            if error.is_memory() {
                Err(ClaimNo::NoMemory)
            } else {
                Err(ClaimNo::NotJson)
            }
        }
    }
}

// The claim set that a JSON value is.
fn claims_in(alloc: Global, value: Value) -> Result<ClaimSet, ClaimNo>
    requires { depth (view value) ≤ 127 }
    ensures ok { IfOk result (λ c. if_members (as_object (view value)) ≡ Ok c) }
    ensures err { IfErr result (λ e. (e ≡ ClaimNo.NoMemory) ⊎ (if_members (as_object (view value)) ≡ Err e)) }
{
    let Some(map) = value.as_object() else {
        return Err(ClaimNo::NotObject);
    };
    if let Some(name) = first_with_float(map) {
        return Err(ClaimNo::WrongKind(Text::new(alloc, name)?));
    }
    Ok(ClaimSet { alloc, value })
}

/// Reads the text of a claim set: a JSON object in UTF-8 (RFC 7519, 7.2, step 10; RFC 8259).
///
/// If a name occurs twice in an object, its last value counts (RFC 7519, 4). A text that nests deeper than 127 gives
/// [`ClaimNo::NotJson`]. For a text that is rejected, the first error that applies is returned, in the order of [`ClaimNo`].
#[tactic(auto, using(crate::proofs::Parsing::read_reads))]
pub fn read_claims(alloc: Global, bytes: &[u8]) -> Result<ClaimSet, ClaimNo>
    ensures answers { IfOk result (λ c. claims_read bytes.now ≡ Ok c) }
    ensures reads { IfOk result (λ c. Reads bytes.now c) }
    ensures refuses { IfErr result (λ e. (e ≡ ClaimNo.NoMemory) ⊎ (claims_read bytes.now ≡ Err e)) }
{
    let value = parsed(alloc, bytes)?;
    claims_in(alloc, value)
}
