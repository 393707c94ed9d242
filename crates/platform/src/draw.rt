//! Random words of a generator as a draw.

ghost use Rattle.std.specs.Prelude.{ℕ, Option, None};

use rand::Rng;
use rand_chacha::ChaCha20Rng;
use server_desk::Draw;
use sso_base::Word;
use std::io;
use std::random::RandomSource;

/// A stream of ChaCha20 that the machine seeded. It does not report its future words.
#[derive(Drop)]
pub struct RandomDraw {
    generator: ChaCha20Rng,
}

impl RandomDraw {
    /// A stream with a new seed. An error is returned if the machine gives none.
    pub fn new<S: RandomSource>(source: &S) -> io::Result<RandomDraw> {
        Ok(RandomDraw {
            generator: rand::make_rng::<ChaCha20Rng, _>(source)?,
        })
    }
}

impl Draw for RandomDraw {
    ghost ahead = { λ _ _. None };

    fn word(&mut self) -> Word {
        let mut bytes = [0u8; 32];
        self.generator.fill_bytes(&mut bytes);
        Word::new(bytes)
    }
}
