// One step of a core, with a moment of the clock and four random words.

ghost use Rattle.std.specs.Prelude.{◌≡◌, ◌<◌, ℕ, IfOk, IfErr, OnErr};
ghost use Rattle.server_desk.specs.Ahead.{IsTold, MovedOn};
ghost use Rattle.sso_base.specs.Words.{fresh_word};
ghost use Rattle.turn_store.specs.Places.{Begins};
ghost use Rattle.turn_store.specs.Passes.{IsPassOf, number_of, front_of, calls_of, setup_of};
ghost use Rattle.serving.specs.Steps.{IsNoStep, StepsOnce};

use crate::backend::Backend;
use crate::no_reply::NoReply;
use crate::role::Role;
use server_desk::{Clock, Draw};
use sso_base::{Core, CoreNo, Word};
use std::sync::Wait;
use turn_store::Pass;

// Four words, in the order in which they were drawn.
fn draw_four<W: Draw>(draw: &mut W) -> [Word; 4]
    ensures told { (k : ℕ) → k < 4 → IsTold (W.ahead draw.old k) (fresh_word result k) }
    ensures moved { MovedOn (W.ahead draw.old) (W.ahead draw.new) 4 }
{
    let first = draw.word();
    let second = draw.word();
    let third = draw.word();
    let fourth = draw.word();
    [first, second, third, fourth]
}

/// Steps the core of the store with the next moment of the clock and the next four words of the draw. It may wait for another
/// pass.
pub fn step<R: Wait, X: Role, K: Clock, W: Draw>(
    backend: &Backend<'_, R, X, X::Core>,
    pass: &mut Pass<X::Core>,
    clock: &mut K,
    draw: &mut W,
    ask: <X::Core as Core>::Ask,
) -> Result<<X::Core as Core>::Reply, NoReply>
    requires { IsPassOf X.Core.setup X.Core.is_legal backend.now.store.now pass.old }
    ensures pass { IsPassOf X.Core.setup X.Core.is_legal backend.now.store.now pass.new }
    ensures number { number_of pass.new ≡ number_of pass.old }
    ensures made { IfOk result (λ reply. StepsOnce pass.old pass.new ask (K.ahead clock.old) (W.ahead draw.old) reply) }
    ensures refused { OnErr result (calls_of pass.new ≡ calls_of pass.old) }
    ensures later { OnErr result (Begins (front_of pass.old) (front_of pass.new)) }
    ensures why { IfErr result (IsNoStep X.Core.weighs (X.Core.most (setup_of X.Core.setup backend.now.store.now)) (front_of pass.new) ask) }
    ensures clock { MovedOn (K.ahead clock.old) (K.ahead clock.new) 1 }
    ensures draw { MovedOn (W.ahead draw.old) (W.ahead draw.new) 4 }
{
    let at = clock.now();
    let fresh = draw_four(draw);
    let store = backend.store;
    match store.call(backend.rt, backend.alloc, pass, at, fresh, ask) {
        Ok(placed) => Ok(placed.reply),
        Err(CoreNo::NoMemory) => Err(NoReply::NoMemory),
        Err(CoreNo::JournalFull(_)) => Err(NoReply::Full),
    }
}
