//! Limits in time.

ghost use Rattle.std.specs.Prelude.{◌*◌, ◌≤◌, IfSome};
ghost use Rattle.std.specs.Duration.{as_nanos};

use std::time::{Clock, Duration, Instant};

/// How long something may take in all.
#[derive(Clone, Copy)]
pub struct Limit {
    start: Instant,
    all: Duration,
}

impl Limit {
    /// So many seconds from now on. `None` if the clock can't be read.
    pub fn start<C: Clock>(clock: &C, seconds: u64) -> Option<Limit> {
        let start = Instant::now(clock).ok()?;
        Some(Limit {
            start,
            all: Duration::from_secs(seconds),
        })
    }

    /// What is left of it, at most so many seconds. `None` if nothing is left, or if the clock can't be read.
    pub fn left<C: Clock>(&self, clock: &C, seconds: u64) -> Option<Duration>
        ensures { IfSome result (λ left. as_nanos left ≤ seconds * 1_000_000_000) }
    {
        let gone = self.start.elapsed(clock).ok()?;
        let left = self.all.checked_sub(gone)?;
        if left.is_zero() {
            return None;
        }
        Some(left.min(Duration::from_secs(seconds)))
    }
}
