// The rule of the turn, and the kinds of steps on the table. Each kind states what the seat learns from its step.

use crate::view::SeatView;
use atomic_table::{Join, Play, Seat, Shared, Split, Table, TableRule};
use sso_base::{Core, Pair};
use std::alloc::Global;
use std::marker::PhantomData;
use std::snapshot::Snapshot;

/// The initial state of the store.
#[derive(Drop)]
pub struct Start<C> {
    pub core: Snapshot<C>,
    pub pass_count: u64,
}

type PairOf<C> = Pair<<C as Core>::Ask, <C as Core>::Reply>;

pub(crate) type TurnView<C> = SeatView<C, PairOf<C>>;

pub(crate) type TurnTable<C> = Table<Option<C>, TurnView<C>, Start<C>, TurnRule<C>, Global>;

pub(crate) type SharedTurn<C> = Shared<Option<C>, TurnView<C>, Start<C>, TurnRule<C>>;

pub(crate) type TurnSeat<C> = Seat<Option<C>, TurnView<C>>;

pub struct TurnRule<C> {
    core: PhantomData<C>,
}

impl<C: Core + Send> TableRule<Option<C>, SeatView<C, Pair<C::Ask, C::Reply>>, Start<C>>
    for TurnRule<C> {
    ghost use Rattle.turn_store.specs.Rule.{KeepsRule};
    ghost use Rattle.turn_store.specs.Views.{first_seat};

    ghost holds = { λ key. KeepsRule C.history C.setup C.is_legal key.core.value key.pass_count };

    ghost first = { λ key. first_seat key.core.value key.pass_count };
}

/// An attempt to take the turn.
pub struct Taking<C> {
    core: PhantomData<C>,
}

impl<C: Core + Send> Play<Option<C>, SeatView<C, Pair<C::Ask, C::Reply>>> for Taking<C> {
    ghost use Rattle.turn_store.specs.Steps.{Takes};

    ghost then = { Takes C.history C.setup C.is_legal };
}

/// The turn ends with a new entry.
pub struct Counting<C> {
    core: PhantomData<C>,
}

impl<C: Core + Send> Play<Option<C>, SeatView<C, Pair<C::Ask, C::Reply>>> for Counting<C> {
    ghost use Rattle.turn_store.specs.Steps.{Counts};

    ghost then = { Counts C.history C.setup C.is_legal };
}

/// The turn ends with no change.
pub struct Leaving<C> {
    core: PhantomData<C>,
}

impl<C: Core + Send> Play<Option<C>, SeatView<C, Pair<C::Ask, C::Reply>>> for Leaving<C> {
    ghost use Rattle.turn_store.specs.Steps.{Leaves};

    ghost then = { Leaves C.history C.setup C.is_legal };
}

/// The turn ends without an entry, and the pass has seen the history.
pub struct LeavingFull<C> {
    core: PhantomData<C>,
}

impl<C: Core + Send> Play<Option<C>, SeatView<C, Pair<C::Ask, C::Reply>>> for LeavingFull<C> {
    ghost use Rattle.turn_store.specs.Steps.{LeavesFull};

    ghost then = { LeavesFull C.history C.setup C.is_legal };
}

/// One pass goes to a new seat, or all passes of a seat go to another.
pub struct Passing<C> {
    core: PhantomData<C>,
}

impl<C: Core + Send> Split<SeatView<C, Pair<C::Ask, C::Reply>>> for Passing<C> {
    ghost use Rattle.turn_store.specs.Views.{without_first, only_first};

    ghost left = { without_first };

    ghost right = { only_first };
}

impl<C: Core + Send> Join<SeatView<C, Pair<C::Ask, C::Reply>>> for Passing<C> {
    ghost use Rattle.turn_store.specs.Views.{joined, spent};

    ghost both = { joined };

    ghost spent = { spent };
}
