ghost use Rattle.std.specs.Prelude.{◌≡◌, ◌<◌, ◌^◌};
ghost use Rattle.refresh_answer.specs.Places.{place_bytes};

use std::marker::Model;

/// The index of a pair in a history, counted from 0. Its eight bytes, the highest first, are a key in tables.
#[derive(Drop)]
pub struct Place {
    number: u64,
    bytes: [u8; 8],
}

impl Model for Place {
    ghost use Rattle.std.specs.Prelude.{◌≡◌, ℕ};
    ghost use Rattle.refresh_answer.specs.Places.{place_bytes};

    ghost Value = { ℕ };

    ghost view = { λ p. p.number };

    ghost invariant = { λ p. p.bytes ≡ place_bytes p.number };
}

impl Place {
    /// The place of this index.
    pub fn new(number: u64) -> Place
        ensures { result ≡ number }
    {
        Place {
            number,
            bytes: number.to_be_bytes(),
        }
    }

    /// The index.
    pub fn number(&self) -> u64
        ensures value { result ≡ self.now }
        ensures wide { self.now < 2 ^ 64 }
    {
        self.number
    }

    /// Its bytes.
    pub fn as_bytes(&self) -> &[u8]
        ensures { result.now ≡ place_bytes self.now }
    {
        &self.bytes
    }
}
