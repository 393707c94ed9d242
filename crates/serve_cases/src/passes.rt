// Takes passes of a store out of their list, and puts them back in order.

ghost use Rattle.std.specs.Prelude.{◌≡◌, ◌<◌, [], ◌∷◌, ◌++◌, map, length, MatchBool};
ghost use Rattle.std.specs.List.{All};
ghost use Rattle.turn_store.specs.Passes.{IsPassOf, number_of};

use sso_base::Core;
use turn_store::{Pass, Turn};

/// Takes the first pass out.
pub fn take_pass<C: Core + Send>(turn: &Turn<C>, passes: &mut Vec<Pass<C>>) -> Pass<C>
    requires all { All (IsPassOf C.setup C.is_legal turn.now) passes.old.items }
    requires some { 0 < length passes.old.items }
    ensures pass { IsPassOf C.setup C.is_legal turn.now result }
    ensures all { All (IsPassOf C.setup C.is_legal turn.now) passes.new.items }
    ensures numbers { map number_of passes.old.items ≡ number_of result ∷ map number_of passes.new.items }
{
    passes.remove(0)
}

/// Puts a pass after the others, and returns whether there was memory for it.
pub fn put_pass<C: Core + Send>(turn: &Turn<C>, passes: &mut Vec<Pass<C>>, pass: Pass<C>) -> bool
    requires all { All (IsPassOf C.setup C.is_legal turn.now) passes.old.items }
    requires pass { IsPassOf C.setup C.is_legal turn.now pass }
    ensures all { All (IsPassOf C.setup C.is_legal turn.now) passes.new.items }
    ensures numbers { MatchBool result (map number_of passes.new.items ≡ map number_of passes.old.items ++ number_of pass ∷ []) (Unit {0}) }
{
    passes.push(pass).is_ok()
}
