//! Writers as sinks.

ghost use Rattle.std.specs.Prelude.{◌≡◌, Option, None};

use sso_base::{Sink, SinkFault};
use std::io::{ErrorKind, Write};

/// How many writes in a row may be interrupted before that is a fault.
const PATIENCE: u64 = 4_294_967_296;

/// A writer as a sink, as standard output. It does not report what it took.
#[derive(Drop)]
pub struct WriterSink<W> {
    writer: W,
    faults: u64,
}

impl<W: Write> WriterSink<W> {
    /// A sink over this writer that never failed.
    pub fn new(writer: W) -> WriterSink<W>
        ensures { ⟦<WriterSink<W> as Sink>⟧.faults result ≡ 0 }
    {
        WriterSink { writer, faults: 0 }
    }
}

/// Writes once, and again after each interrupted write. `None` if the writer fails, takes nothing of a piece that is not empty,
/// or reports that it took more than the piece has.
fn write_once<W: Write>(writer: &mut W, piece: &[u8]) -> Option<usize> {
    for _ in 0..PATIENCE {
        match writer.write(piece) {
            Ok(count) => return Some(count),
            Err(error) if error.kind() == ErrorKind::Interrupted => {}
            Err(_) => return None,
        }
    }
    None
}

impl<W: Write> Sink for WriterSink<W> {
    ghost taken = { λ _. None };

    ghost faults = { λ s. s.faults };

    fn write_some(&mut self, piece: &[u8]) -> Result<usize, SinkFault> {
        match write_once(&mut self.writer, piece) {
            Some(count) if count <= piece.len() && (0 < count || piece.is_empty()) => Ok(count),
            _ => {
                self.faults = self.faults.saturating_add(1);
                Err(SinkFault)
            }
        }
    }
}
