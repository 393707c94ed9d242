// The rule of permits, and the kinds of steps on their table. Each kind states what the seat learns from its step.

use crate::holder::Holder;
use atomic_table::{Play, Seat, Shared, Table, TableRule};
use std::alloc::Global;

/// No more permits are out than there are.
pub struct FewOut;

pub(crate) type PermitTable = Table<(), Holder, u64, FewOut, Global>;

pub(crate) type SharedPermits = Shared<(), Holder, u64, FewOut>;

pub(crate) type PermitSeat = Seat<(), Holder>;

impl TableRule<(), Holder, u64> for FewOut {
    ghost use Rattle.work_permits.specs.Rule.{KeepsCount, nobody};

    ghost holds = { KeepsCount };

    ghost first = { nobody };
}

/// A seat that knows nothing sits down.
pub struct Sitting;

impl Play<(), Holder> for Sitting {
    ghost use Rattle.work_permits.specs.Steps.{Sits};

    ghost then = { Sits };
}

/// An attempt to take a permit.
pub struct Taking;

impl Play<(), Holder> for Taking {
    ghost use Rattle.work_permits.specs.Steps.{Takes};

    ghost then = { Takes };
}

/// A look whether all permits are taken.
pub struct Looking;

impl Play<(), Holder> for Looking {
    ghost use Rattle.work_permits.specs.Steps.{Looks};

    ghost then = { Looks };
}

/// A permit is given back.
pub struct Giving;

impl Play<(), Holder> for Giving {
    ghost use Rattle.work_permits.specs.Steps.{Gives};

    ghost then = { Gives };
}
