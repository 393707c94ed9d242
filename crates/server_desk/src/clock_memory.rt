ghost use Rattle.std.specs.Prelude.{◌≡◌};
ghost use Rattle.server_desk.specs.Ahead.{IsTold, MovedOn, moments_ahead, clock_behind};

use crate::clock::Clock;
use sso_base::Moment;
use std::marker::Model;

/// A clock in memory. It returns its moments in their order, and repeats the last one forever.
#[derive(Drop)]
pub struct MemoryClock {
    next: Moment,
    further: Vec<Moment>,
    // How many of the further moments have become the next one.
    place: usize,
}

impl Model for MemoryClock {
    ghost use Rattle.std.specs.Prelude.{◌≤◌, length, drop};
    ghost use Rattle.server_desk.specs.Ahead.{ClockMemory};

    ghost Value = { ClockMemory };

    ghost view = { λ c. record { next = c.next; behind = drop c.place c.further.items } };

    ghost invariant = { λ c. c.place ≤ length c.further.items };
}

impl MemoryClock {
    /// A clock that returns this moment first, and then these.
    pub fn new(first: Moment, further: Vec<Moment>) -> MemoryClock
        ensures { result ≡ record { next = first; behind = further.items } }
    {
        MemoryClock {
            next: first,
            further,
            place: 0,
        }
    }
}

impl Clock for MemoryClock {
    ghost ahead = { moments_ahead };

    fn now(&mut self) -> Moment
        ensures told { IsTold (moments_ahead self.old 0) result }
        ensures moved { MovedOn (moments_ahead self.old) (moments_ahead self.new) 1 }
        ensures next { result ≡ self.old.next }
        ensures behind { self.new ≡ clock_behind self.old.next self.old.behind }
    {
        let at = self.next;
        if self.place < self.further.len() {
            self.next = self.further[self.place];
            self.place += 1;
        }
        at
    }
}
