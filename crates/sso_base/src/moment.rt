ghost use Rattle.std.specs.Prelude.{◌≡◌, ◌≤◌};
ghost use Rattle.std.specs.Option.{SomeIff};
ghost use Rattle.sso_base.specs.Values.{latest_moment};

use std::marker::Model;

/// The latest moment, in seconds since the epoch. So a moment plus any lifetime fits into 40 bits (our choice).
pub const LATEST_MOMENT: u64 = 1_099_511_000_000;

/// A number of seconds since the epoch, at most 1,099,511,000,000.
#[derive(Clone, Copy, PartialEq, Eq)]
pub struct Moment {
    seconds: u64,
}

impl Model for Moment {
    ghost use Rattle.std.specs.Prelude.{ℕ, ◌≤◌};
    ghost use Rattle.sso_base.specs.Values.{latest_moment};

    ghost Value = { ℕ };

    ghost view = { λ m. m.seconds };

    ghost invariant = { λ m. m.seconds ≤ latest_moment };

    ghost inverse = { λ n. record { seconds = n } };
}

impl Moment {
    /// The moment of this number of seconds; `None` if and only if it is above 1,099,511,000,000.
    pub fn new(seconds: u64) -> Option<Moment>
        ensures { SomeIff result (seconds ≤ latest_moment) seconds }
    {
        if seconds <= LATEST_MOMENT {
            Some(Moment { seconds })
        } else {
            None
        }
    }

    /// The first moment: no seconds.
    pub fn first() -> Moment
        ensures { result ≡ 0 }
    {
        Moment { seconds: 0 }
    }

    /// The number of seconds.
    pub fn seconds(&self) -> u64
        ensures value { result ≡ self.now }
        ensures bound { self.now ≤ latest_moment }
    {
        self.seconds
    }
}
