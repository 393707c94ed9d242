// Closes a store: joins its passes, and returns the core.

ghost use Rattle.std.specs.Prelude.{◌≡◌, ◌≤◌, ◌+◌, [], ◌++◌, map, length, false, vec_len, vec_capacity};
ghost use Rattle.std.specs.List.{All, AllByRecursion};
ghost use Rattle.turn_store.specs.Places.{Begins, StandsIn, IsEachOnce, numbers_from, places_of};
ghost use Rattle.turn_store.specs.Passes.{number_of, front_of, calls_of, passes_of, setup_of, IsPassOf};
ghost use Rattle.turn_store.specs.Seats.{IsIdleAt, views_in, lists_of};

use crate::calls::{Calls, Closed, Places};
use crate::rule::{SharedTurn, TurnSeat};
use crate::store::{Pass, Turn};
use crate::taking::join_passes;
use sso_base::Core;

// Joins the passes to a seat, in their order, and keeps their lists.
fn gather<C: Core + Send>(
    shared: &SharedTurn<C>,
    seat: &mut TurnSeat<C>,
    lists: &mut Vec<Places>,
    passes: Vec<Pass<C>>,
)
    requires place { seat.old.table_id ≡ shared.now.table_id }
    requires counts { (shared.now.table_id.words ≡ 1) × (shared.now.table_id.slots ≡ 1) }
    requires idle { (seat.old.me.1 ≡ []) × (seat.old.me.0.holds ≡ false) }
    requires passes { AllByRecursion (IsIdleAt shared.now.table_id) passes.items }
    requires room { vec_len lists.old + length passes.items ≤ vec_capacity lists.old }
    ensures place { seat.new.table_id ≡ seat.old.table_id }
    ensures idle { (seat.new.me.1 ≡ []) × (seat.new.me.0.holds ≡ false) }
    ensures passes { seat.new.me.0.passes ≡ seat.old.me.0.passes ++ views_in passes.items }
    ensures lists { lists.new.items ≡ lists.old.items ++ lists_of passes.items }
{
    for pass in passes {
        let Pass {
            seat: other,
            calls: places,
        } = pass;
        join_passes(shared, seat, other);
        lists.push_reserved(places);
    }
}

impl<C: Core + Send> Turn<C> {
    /// Closes the store: its passes end, and the core is returned with the places of each pass's calls. It takes no memory. The
    /// passes must be those that `new` returned, in their order.
    pub fn close(self, mut passes: Vec<Pass<C>>) -> Closed<C>
        requires passes { All (IsPassOf C.setup C.is_legal self) passes.items }
        requires order { map number_of passes.items ≡ numbers_from 0 (passes_of self) }
        ensures setup { C.setup result.core ≡ setup_of C.setup self }
        ensures legal { C.is_legal (setup_of C.setup self) (C.history result.core) }
        ensures fronts { All (λ pass. Begins (front_of pass) (C.history result.core)) passes.items }
        ensures stand { All (λ pass. AllByRecursion (StandsIn (C.history result.core)) (calls_of pass)) passes.items }
        ensures lists { result.calls ≡ map (λ pass. places_of (calls_of pass)) passes.items }
        ensures once { IsEachOnce (length (C.history result.core)) result.calls }
    {
        let Turn {
            table,
            waiting,
            mut lists,
        } = self;
        drop(waiting);
        let Pass { mut seat, calls } = passes.remove(0);
        lists.push_reserved(calls);
        gather(&table.shared, &mut seat, &mut lists, passes);
        let mut closed = table.close_with(seat);
        let slot = closed.take(0);
        closed.free();
        Closed {
            core: slot.unwrap(),
            calls: Calls::from_lists(lists),
        }
    }
}
