ghost use Rattle.std.specs.Prelude.{◌≡◌, ◌+◌, ◌-◌, ◌^◌, min};
ghost use Rattle.server_desk.specs.Ahead as spec;
ghost use Rattle.server_desk.specs.Ahead.{IsTold, MovedOn, words_ahead};

use crate::draw::Draw;
use sso_base::Word;
use std::marker::Model;

/// A draw in memory. Its words are those of the numbers from 1, by [`word_of_number`]. The last number of 64 bits is repeated
/// forever. These words are not random.
#[derive(Drop)]
pub struct MemoryDraw {
    seed: [u8; 24],
    number: u64,
}

impl Model for MemoryDraw {
    ghost use Rattle.server_desk.specs.Ahead.{DrawMemory};

    ghost Value = { DrawMemory };

    ghost view = { λ d. record { seed = d.seed; number = d.number } };
}

/// The word of a number: a seed of 24 bytes, then the number in 8 bytes, big-endian.
pub fn word_of_number(seed: &[u8; 24], number: u64) -> Word
    ensures { result ≡ spec.word_of_number seed.now number }
{
    let mut bytes = [0u8; 32];
    let (front, behind) = bytes.split_at_mut(24);
    front.copy_from_slice(seed);
    behind.copy_from_slice(&number.to_be_bytes());
    Word::new(bytes)
}

impl MemoryDraw {
    /// A draw of the words with this seed.
    pub fn new(seed: [u8; 24]) -> MemoryDraw
        ensures { result ≡ record { seed = seed; number = 1 } }
    {
        MemoryDraw { seed, number: 1 }
    }
}

impl Draw for MemoryDraw {
    ghost ahead = { words_ahead };

    fn word(&mut self) -> Word
        ensures told { IsTold (words_ahead self.old 0) result }
        ensures moved { MovedOn (words_ahead self.old) (words_ahead self.new) 1 }
        ensures word { result ≡ spec.word_of_number self.old.seed self.old.number }
        ensures number { self.new ≡ record self.old { number = min (self.old.number + 1) (2 ^ 64 - 1) } }
    {
        let word = word_of_number(&self.seed, self.number);
        self.number = self.number.saturating_add(1);
        word
    }
}
