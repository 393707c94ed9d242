// The steps on the table: take the turn, count an entry, leave without one, split a pass off and join passes.

ghost use Rattle.std.specs.Prelude.{◌≡◌, ◌≤◌, ◌<◌, ◌+◌, ℕ, List, [], ◌∷◌, ◌++◌, map, length, false, Some, None};
ghost use Rattle.std.specs.List.{AllByRecursion};
ghost use Rattle.sso_base.specs.declared.history.Pair.{Pair};
ghost use Rattle.sso_base.specs.Journal.{most_pairs};
ghost use Rattle.turn_store.specs.declared.view.PassView.{PassView};
ghost use Rattle.turn_store.specs.Views.{at_turn, idle, with_entry, with_front, without_first, only_first, joined};
ghost use Rattle.turn_store.specs.Steps.{FitsCore};

use crate::rule::{Counting, Leaving, LeavingFull, Passing, SharedTurn, Taking, TurnSeat};
use sso_base::Core;
use std::sync::Wait;
use std::sync::atomic::{AtomicU64, Ordering};

// Sleeps until the turn is given back, if the word of the taken turn is still this one.
fn sleep_on<C: Core + Send, R: Wait>(rt: &R, shared: &SharedTurn<C>, waiting: &AtomicU64, word: u64)
    requires { shared.now.table_id.words ≡ 1 }
{
    waiting.fetch_add(1, Ordering::SeqCst);
    shared.park(rt, 0, (word % (1 << 32)) as u32);
    waiting.fetch_sub(1, Ordering::SeqCst);
}

// Wakes one of the threads that wait, after the turn was given back. If none waits, the system is not called. A thread that is
// counted only after this look sleeps only if the turn was taken again, and that turn ends with a look too.
fn wake_next<C: Core + Send>(shared: &SharedTurn<C>, waiting: &AtomicU64)
    requires { shared.now.table_id.words ≡ 1 }
{
    if waiting.load(Ordering::SeqCst) > 0 {
        shared.wake_one(0);
    }
}

// Waits for the turn, and takes the core. A waiting seat sleeps, and tries again when the turn was given back.
pub(crate) fn take_turn<C: Core + Send, R: Wait>(
    rt: &R,
    shared: &SharedTurn<C>,
    waiting: &AtomicU64,
    seat: &mut TurnSeat<C>,
) -> C
    requires place { seat.old.table_id ≡ shared.now.table_id }
    requires counts { (shared.now.table_id.words ≡ 1) × (shared.now.table_id.slots ≡ 1) }
    requires free { (seat.old.me.1 ≡ []) × (0 < length seat.old.me.0.passes) }
    ensures place { seat.new.table_id ≡ seat.old.table_id }
    ensures turn { seat.new.me ≡ (at_turn seat.old.me.0 (C.history result), (0, None) ∷ []) }
    ensures fits { AllByRecursion (FitsCore C.history C.setup C.is_legal result) seat.old.me.0.passes }
    ensures small { length (C.history result) ≤ most_pairs }
{
    for _ in rt.forever() {
        let word = shared.peek(0);
        if word % 2 == 0 && word < u64::MAX {
            let found = shared.compare_exchange::<Taking<C>>(seat, 0, word, word + 1);
            if found == word {
                let core = shared.exchange(seat, 0, None);
                return core.unwrap();
            }
        } else {
            sleep_on(rt, shared, waiting, word);
        }
    }
    unreachable!()
}

// Gives the turn back, with one more entry.
pub(crate) fn count_entry<C: Core + Send>(
    shared: &SharedTurn<C>,
    waiting: &AtomicU64,
    seat: &mut TurnSeat<C>,
    core: C,
)
    requires place { seat.old.table_id ≡ shared.now.table_id }
    requires counts { (shared.now.table_id.words ≡ 1) × (shared.now.table_id.slots ≡ 1) }
    requires turn { seat.old.me ≡ (at_turn seat.old.me.0 seat.old.me.0.taken, (0, None) ∷ []) }
    requires pass { (p : PassView C (Pair C.Ask C.Reply)) × (seat.old.me.0.passes ≡ p ∷ []) × (C.setup core ≡ C.setup p.start) }
    requires entry { (pair : Pair C.Ask C.Reply) × (C.history core ≡ seat.old.me.0.taken ++ pair ∷ []) }
    requires legal { C.is_legal (C.setup core) (C.history core) }
    requires small { length (C.history core) ≤ most_pairs }
    ensures place { seat.new.table_id ≡ seat.old.table_id }
    ensures free { (pair : Pair C.Ask C.Reply) → C.history core ≡ seat.old.me.0.taken ++ pair ∷ []
        → seat.new.me ≡ (idle (map (with_entry (C.history core) pair) seat.old.me.0.passes), []) }
{
    let _nothing = shared.exchange(seat, 0, Some(core));
    let _found = shared.fetch_add::<Counting<C>>(seat, 0, 1);
    wake_next(shared, waiting);
}

// Gives the turn back, with the history unchanged.
pub(crate) fn leave_turn<C: Core + Send>(
    shared: &SharedTurn<C>,
    waiting: &AtomicU64,
    seat: &mut TurnSeat<C>,
    core: C,
)
    requires place { seat.old.table_id ≡ shared.now.table_id }
    requires counts { (shared.now.table_id.words ≡ 1) × (shared.now.table_id.slots ≡ 1) }
    requires turn { seat.old.me ≡ (at_turn seat.old.me.0 (C.history core), (0, None) ∷ []) }
    requires pass { (p : PassView C (Pair C.Ask C.Reply)) × (seat.old.me.0.passes ≡ p ∷ []) × (C.setup core ≡ C.setup p.start) }
    requires legal { C.is_legal (C.setup core) (C.history core) }
    ensures place { seat.new.table_id ≡ seat.old.table_id }
    ensures free { seat.new.me ≡ (idle seat.old.me.0.passes, []) }
{
    let _nothing = shared.exchange(seat, 0, Some(core));
    let _found = shared.fetch_sub::<Leaving<C>>(seat, 0, 1);
    wake_next(shared, waiting);
}

// The same, and the pass has seen that history.
pub(crate) fn leave_full<C: Core + Send>(
    shared: &SharedTurn<C>,
    waiting: &AtomicU64,
    seat: &mut TurnSeat<C>,
    core: C,
)
    requires place { seat.old.table_id ≡ shared.now.table_id }
    requires counts { (shared.now.table_id.words ≡ 1) × (shared.now.table_id.slots ≡ 1) }
    requires turn { seat.old.me ≡ (at_turn seat.old.me.0 (C.history core), (0, None) ∷ []) }
    requires pass { (p : PassView C (Pair C.Ask C.Reply)) × (seat.old.me.0.passes ≡ p ∷ []) × (C.setup core ≡ C.setup p.start) }
    requires legal { C.is_legal (C.setup core) (C.history core) }
    ensures place { seat.new.table_id ≡ seat.old.table_id }
    ensures free { seat.new.me ≡ (idle (map (with_front (C.history core)) seat.old.me.0.passes), []) }
{
    let _nothing = shared.exchange(seat, 0, Some(core));
    let _found = shared.fetch_sub::<LeavingFull<C>>(seat, 0, 1);
    wake_next(shared, waiting);
}

// Gives the first pass of a seat to a new one.
pub(crate) fn split_pass<C: Core + Send>(
    shared: &SharedTurn<C>,
    seat: &mut TurnSeat<C>,
) -> TurnSeat<C>
    requires place { seat.old.table_id ≡ shared.now.table_id }
    requires counts { (shared.now.table_id.words ≡ 1) × (shared.now.table_id.slots ≡ 1) }
    requires idle { seat.old.me.0.holds ≡ false }
    ensures place { (seat.new.table_id ≡ seat.old.table_id) × (result.table_id ≡ seat.old.table_id) }
    ensures passes { (seat.new.me ≡ (without_first seat.old.me.0, seat.old.me.1)) × (result.me ≡ (only_first seat.old.me.0, [])) }
{
    shared.split_seat::<Passing<C>>(seat)
}

// Gives the passes of a seat to another.
pub(crate) fn join_passes<C: Core + Send>(
    shared: &SharedTurn<C>,
    seat: &mut TurnSeat<C>,
    other: TurnSeat<C>,
)
    requires place { (seat.old.table_id ≡ shared.now.table_id) × (other.table_id ≡ shared.now.table_id) }
    requires counts { (shared.now.table_id.words ≡ 1) × (shared.now.table_id.slots ≡ 1) }
    requires idle { (seat.old.me.0.holds ≡ false) × (other.me.0.holds ≡ false) × (other.me.1 ≡ []) }
    ensures place { seat.new.table_id ≡ seat.old.table_id }
    ensures both { seat.new.me ≡ (joined seat.old.me.0 other.me.0, seat.old.me.1) }
{
    shared.join_seat::<Passing<C>>(seat, other);
}
