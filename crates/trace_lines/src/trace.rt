// Traces that were accepted.

use crate::line::Line;
use std::marker::Model;

/// An accepted trace: the seed of the random words, and its lines. Its model has the newest line first.
#[derive(Drop)]
pub struct Trace {
    pub(crate) seed: [u8; 24],
    pub(crate) lines: Vec<Line>,
}

impl Model for Trace {
    ghost use Rattle.std.specs.Prelude.{reverse};
    ghost use Rattle.trace_lines.specs.Trace.{Told};

    ghost Value = { Told };

    ghost view = { λ t. record { seed = t.seed; lines = reverse t.lines.items } };
}

impl Trace {
    ghost use Rattle.std.specs.Prelude.{◌≡◌, reverse};

    /// The seed of the random words.
    pub fn seed(&self) -> [u8; 24]
        ensures { result ≡ self.now.seed }
    {
        self.seed
    }

    /// The lines after the first, without the skipped ones, in their order.
    pub fn lines(&self) -> &[Line]
        ensures { reverse result.now ≡ self.now.lines }
    {
        self.lines.as_slice()
    }
}
