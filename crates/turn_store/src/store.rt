// A store and its passes.

ghost use Rattle.std.specs.Prelude.{◌≡◌, ◌≤◌, ◌<◌, length, vec_capacity};

use crate::calls::Places;
use crate::rule::{TurnSeat, TurnTable};
use sso_base::Core;
use std::sync::atomic::AtomicU64;

/// The right of one thread to call, one call after another. It is numbered among the passes of its store.
#[derive(Drop)]
pub struct Pass<C: Core + Send> {
    pub(crate) seat: TurnSeat<C>,
    // The places of its calls, in their order.
    pub(crate) calls: Places,
}

/// One core, which passes step in turn. Threads share it by reference.
#[derive(Drop)]
pub struct Turn<C: Core + Send> {
    pub(crate) table: TurnTable<C>,
    // The number of threads that sleep until the turn is given back, or are about to.
    pub(crate) waiting: AtomicU64,
    // It is empty, and its capacity suffices for the lists of `Calls`, so that closing takes no memory.
    pub(crate) lists: Vec<Places>,
    ghost counts: { (table.shared.table_id.words ≡ 1) × (table.shared.table_id.slots ≡ 1) },
    ghost some: { 0 < table.shared.key.pass_count },
    ghost room: { (length lists.items ≡ 0) × (table.shared.key.pass_count ≤ vec_capacity lists) },
}
