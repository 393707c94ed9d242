// The gate before costly work.

ghost use Rattle.std.specs.Prelude.{◌≡◌, IfOk, IfErr};
ghost use Rattle.work_permits.specs.Gates as spec;

use crate::permits::{AllTaken, Permit, Permits};
use sso_base::NoMemory;
use std::alloc::Global;
use std::sync::Wait;

/// The gate before costly work of the workers of a server. At most half of them, and at least one, work behind it at a time. Half of
/// the others, and none of the last, may wait before it. It turns all others away at once, so that they go on serving.
///
/// | Workers | At work | Waiting | Always free |
/// |---|---|---|---|
/// | 1 | 1 | 0 | 0 |
/// | 4 | 2 | 1 | 1 |
/// | 8 | 4 | 2 | 2 |
/// | 64 | 32 | 16 | 16 |
#[derive(Drop)]
pub struct Gate {
    // The permits of those at work or waiting.
    pub(crate) inside: Permits,
    // The permits of those at work.
    pub(crate) working: Permits,
}

/// The right of a worker that has entered to do the work.
#[derive(Drop)]
pub struct Entered {
    pub(crate) inside: Permit,
    pub(crate) working: Permit,
}

// How many workers may work at a time: half of them, and at least one.
fn most_working(workers: u32) -> u32
    ensures { result ≡ spec.most_working workers }
{
    (workers / 2).max(1)
}

// How many workers may work or wait at a time: half of those that may not work wait.
fn most_inside(workers: u32) -> u32
    ensures { result ≡ spec.most_inside workers }
{
    let working = most_working(workers);
    working + workers.saturating_sub(working) / 2
}

impl Gate {
    /// The gate for so many workers. Nobody has entered.
    ///
    /// # Errors
    ///
    /// `NoMemory` if memory ran out.
    pub fn new(alloc: Global, workers: u32) -> Result<Gate, NoMemory>
        ensures { IfOk result (spec.IsGateFor workers) }
    {
        let inside = Permits::new(alloc, most_inside(workers))?;
        let working = Permits::new(alloc, most_working(workers))?;
        Ok(Gate { inside, working })
    }

    /// Enters. If as many workers are at work as may be, it waits until one of them leaves. It is turned away at once if and only if
    /// as many work or wait as may.
    pub fn enter<R: Wait>(&self, rt: &R) -> Result<Entered, AllTaken>
        ensures entered { IfOk result (spec.IsEnteredAt self.now) }
        ensures turned_away { IfErr result (spec.IsTurnedAway self.now) }
    {
        let inside = self.inside.try_take(rt)?;
        let working = self.working.take(rt);
        Ok(Entered { inside, working })
    }

    /// Leaves, after the work was done.
    pub fn leave(&self, entered: Entered)
        requires { spec.IsEnteredAt self.now entered }
    {
        let Entered { inside, working } = entered;
        self.working.give(working);
        self.inside.give(inside);
    }
}
