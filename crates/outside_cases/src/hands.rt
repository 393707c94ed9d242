// A clock over two clocks that are set by hand.

use case_lines::{field, push_part};
use platform::SystemClock;
use server_desk::Clock;
use sso_base::NoMemory;
use std::alloc::Global;
use std::io::ErrorKind;
use std::sync::atomic::{AtomicU64, Ordering};
use std::time::Duration;
use std::{io, time};

/// A clock that shows this can't be read.
const BROKEN: u64 = u64::MAX;

// The steady clock and the wall clock of a machine, in seconds.
#[derive(Drop)]
struct Hands {
    steady: AtomicU64,
    wall: AtomicU64,
}

fn reading(clock: &AtomicU64) -> io::Result<Duration> {
    let seconds = clock.load(Ordering::SeqCst);
    if seconds == BROKEN {
        Err(io::Error::from(ErrorKind::Unsupported))
    } else {
        Ok(Duration::from_secs(seconds))
    }
}

// Sets a clock to so many seconds, or breaks it if the field is no number.
fn set(clock: &AtomicU64, field: &str) {
    clock.store(field.parse::<u64>().unwrap_or(BROKEN), Ordering::SeqCst);
}

impl time::Clock for Hands {
    fn monotonic(&self) -> io::Result<Duration> {
        reading(&self.steady)
    }

    fn since_1970(&self) -> io::Result<Duration> {
        reading(&self.wall)
    }
}

impl Hands {
    // Sets both clocks to the numbers of a field.
    fn set(&self, field: &str) {
        let (steady, wall) = field.split_once(' ').unwrap_or(("-", "-"));
        set(&self.steady, steady);
        set(&self.wall, wall);
    }
}

// What the clock shows at each of these readings.
fn shown_at(alloc: Global, hands: &Hands, readings: &[&str]) -> Result<String, NoMemory> {
    hands.set(field(readings, 0));
    let mut clock = SystemClock::new(hands);
    let mut out = String::new(alloc);
    for reading in readings {
        hands.set(reading);
        let seconds = clock.now().seconds();
        let shown = seconds.to_string(alloc)?;
        push_part(&mut out, " ", shown.as_str())?;
    }
    Ok(out)
}

/// `clock|STEADY WALL|..`: what the clock shows when the steady clock and the wall clock read so many seconds, from its beginning with the
/// first of them on; `-` is a clock that can't be read.
pub fn shows(alloc: Global, readings: &[&str]) -> Result<String, NoMemory> {
    let hands = Hands {
        steady: AtomicU64::new(BROKEN),
        wall: AtomicU64::new(BROKEN),
    };
    shown_at(alloc, &hands, readings)
}
