// Opens a store, and deals its passes.

ghost use Rattle.std.specs.Prelude.{◌≡◌, ◌≤◌, ◌<◌, [], map, length, IfOk, vec_capacity};
ghost use Rattle.std.specs.List.{All};
ghost use Rattle.turn_store.specs.Places.{numbers_from};
ghost use Rattle.turn_store.specs.Views.{idle, new_passes};
ghost use Rattle.turn_store.specs.Passes.{number_of, passes_of, setup_of, IsPassOf, HasDoneNothing};
ghost use Rattle.turn_store.specs.Seats.{IsDealt};

use crate::calls::Places;
use crate::rule::{SharedTurn, Start, TurnSeat};
use crate::store::{Pass, Turn};
use crate::taking::split_pass;
use atomic_table::Table;
use sso_base::{Core, NoMemory};
use std::alloc::Global;
use std::snapshot::Snapshot;
use std::sync::atomic::AtomicU64;

// Deals the passes of a seat, each to a seat of its own, in their order.
fn deal<C: Core + Send>(
    shared: &SharedTurn<C>,
    alloc: Global,
    mut seat: TurnSeat<C>,
    mut dealt: Vec<Pass<C>>,
    count: u32,
) -> Vec<Pass<C>>
    requires place { seat.table_id ≡ shared.now.table_id }
    requires counts { (shared.now.table_id.words ≡ 1) × (shared.now.table_id.slots ≡ 1) }
    requires seat { seat.me ≡ (idle (new_passes shared.now.key.core.value 0 count), []) }
    requires room { (dealt.items ≡ []) × (count ≤ vec_capacity dealt) }
    ensures count { length result.items ≡ count }
    ensures numbers { map number_of result.items ≡ numbers_from 0 count }
    ensures dealt { All (IsDealt shared.now.table_id shared.now.key.core.value) result.items }
{
    let mut left = count;
    while left > 0 {
        let one = split_pass(shared, &mut seat);
        dealt.push_reserved(Pass {
            seat: one,
            calls: Places::new(alloc),
        });
        left -= 1;
    }
    dealt
}

impl<C: Core + Send> Turn<C> {
    /// A store of this core, which must have an empty history, and its passes: 1 to 64, numbered from 0 in their order.
    ///
    /// # Errors
    ///
    /// `NoMemory` if memory ran out. The core is dropped then.
    pub fn new(alloc: Global, core: C, passes: u32) -> Result<(Turn<C>, Vec<Pass<C>>), NoMemory>
        requires passes { (0 < passes) × (passes ≤ 64) }
        requires empty { C.history core ≡ [] }
        ensures setup { IfOk result (λ made. setup_of C.setup made.0 ≡ C.setup core) }
        ensures count { IfOk result (λ made. (passes_of made.0 ≡ passes) × (length made.1.items ≡ passes)) }
        ensures numbers { IfOk result (λ made. map number_of made.1.items ≡ numbers_from 0 passes) }
        ensures passes { IfOk result (λ made. All (IsPassOf C.setup C.is_legal made.0) made.1.items) }
        ensures fresh { IfOk result (λ made. All HasDoneNothing made.1.items) }
    {
        let _count = core.count();
        let start = Start {
            core: Snapshot::of(&core),
            pass_count: u64::from(passes),
        };
        let lists = Vec::with_capacity(alloc, passes as usize)?;
        let dealt = Vec::with_capacity(alloc, passes as usize)?;
        let mut slots = Vec::new(alloc);
        slots.push(Some(core))?;
        let Ok((table, seat)) = Table::new(alloc, &[0], slots, &start) else {
            return Err(NoMemory);
        };
        let waiting = AtomicU64::new(0);
        let turn = Turn {
            table,
            waiting,
            lists,
        };
        let dealt = deal(&turn.table.shared, alloc, seat, dealt, passes);
        Ok((turn, dealt))
    }
}
