// Concatenation of texts.

ghost use Rattle.std.specs.Prelude.{◌≡◌, ◌++◌, map, IfOk, string_bytes};
ghost use Rattle.std.specs.List.{concat};

use sso_base::{NoMemory, Text};
use std::alloc::Global;

/// The concatenation of these pieces.
#[tactic(auto, using(crate::proofs::Pieces::pieces_joined))]
pub fn joined(alloc: Global, pieces: &[&str]) -> Result<String, NoMemory>
    ensures { IfOk result (λ t. string_bytes t ≡ concat (map (λ p. p.now) pieces.now)) }
{
    Ok(pieces.concat(alloc)?)
}

/// The concatenation of two texts.
pub fn concatenated(alloc: Global, first: &str, second: &str) -> Result<Text, NoMemory>
    ensures { IfOk result (λ t. t ≡ first.now ++ second.now) }
{
    Ok(Text::from_string(joined(alloc, &[first, second])?))
}
