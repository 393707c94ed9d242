//! The machine's two clocks as one.

ghost use Rattle.std.specs.Prelude.{ℕ, Option, None};

use server_desk::Clock;
use sso_base::{LATEST_MOMENT, Moment};
use std::time;
use std::time::Duration;

// It follows the wall clock by at most one second in so many.
const FOLLOWS: u32 = 10;

// What a clock shows, and the reading of the steady clock at which it showed that.
#[derive(Clone, Copy)]
struct Shown {
    time: Duration,
    steady: Duration,
}

/// The machine's clock. It shows what the wall clock showed at the beginning, and what the steady clock has counted since. In ten
/// seconds it comes closer to the wall clock by at most one, so it never goes back, and a wall clock that is set wrong for a moment
/// changes little. If the steady clock can't be read, it returns the last reading again. Until the wall clock can be read, as before
/// 1970, it returns 1970. At the latest moment it stops. It does not report its future readings.
#[derive(Drop)]
pub struct SystemClock<'a, R: time::Clock> {
    clock: &'a R,
    shown: Option<Shown>,
}

// A time that comes closer to the wall clock by at most so much.
fn closer(time: Duration, wall: Duration, most: Duration) -> Duration {
    if time < wall {
        let left = wall.saturating_sub(time);
        time.saturating_add(left.min(most))
    } else {
        let left = time.saturating_sub(wall);
        time.saturating_sub(left.min(most))
    }
}

// What a clock shows after so much time, if the wall clock reads this.
fn followed(time: Duration, gone: Duration, wall: Option<Duration>) -> Duration {
    let next = time.saturating_add(gone);
    let most = gone / FOLLOWS;
    match wall {
        Some(wall) => closer(next, wall, most),
        None => next,
    }
}

// What a clock shows at these readings, by what it showed last.
fn shown_next(last: Option<Shown>, steady: Duration, wall: Option<Duration>) -> Option<Shown> {
    let time = match last {
        Some(last) => {
            let gone = steady.saturating_sub(last.steady);
            followed(last.time, gone, wall)
        }
        None => wall?,
    };
    Some(Shown { time, steady })
}

// What a clock shows now, by what it showed last.
fn read<R: time::Clock>(clock: &R, last: Option<Shown>) -> Option<Shown> {
    match clock.monotonic() {
        Ok(steady) => {
            let wall = clock.since_1970().ok();
            shown_next(last, steady, wall)
        }
        Err(_) => last,
    }
}

impl<'a, R: time::Clock> SystemClock<'a, R> {
    /// A clock that begins at what the wall clock shows.
    pub fn new(clock: &'a R) -> SystemClock<'a, R> {
        let shown = read(clock, None);
        SystemClock { clock, shown }
    }
}

// The moment that is shown.
fn moment_of(shown: &Option<Shown>) -> Moment {
    let seconds = match shown {
        Some(shown) => shown.time.as_secs(),
        None => 0,
    };
    Moment::new(seconds.min(LATEST_MOMENT)).unwrap()
}

impl<'a, R: time::Clock + Sync> Clock for SystemClock<'a, R> {
    ghost ahead = { λ _ _. None };

    fn now(&mut self) -> Moment {
        let last = self.shown;
        self.shown = read(self.clock, last);
        moment_of(&self.shown)
    }
}
