// Sources and sinks that give and take few bytes at a call.

ghost use Rattle.std.specs.Prelude.{Some};

use server_desk::{FaultySource, Source, SourceFault};
use sso_base::{FaultySink, Sink, SinkFault};

/// A source that gives at most so many bytes at a call, but at least one.
#[derive(Drop)]
pub struct SlowSource {
    pub source: FaultySource,
    pub most: usize,
}

impl Source for SlowSource {
    ghost left = { λ s. Some s.source.bytes };

    ghost faults = { λ s. s.source.faults };

    fn read_some(&mut self, room: &mut [u8]) -> Result<usize, SourceFault> {
        let most = self.most.max(1);
        if room.len() <= most {
            self.source.read_some(room)
        } else {
            self.source.read_some(&mut room[..most])
        }
    }
}

/// A sink that takes at most so many bytes at a call, but at least one.
#[derive(Drop)]
pub struct SlowSink {
    pub sink: FaultySink,
    pub most: usize,
}

impl Sink for SlowSink {
    ghost taken = { λ s. Some s.sink.sink.bytes };

    ghost faults = { λ s. s.sink.sink.faults };

    fn write_some(&mut self, piece: &[u8]) -> Result<usize, SinkFault> {
        let most = self.most.max(1);
        if piece.len() <= most {
            self.sink.write_some(piece)
        } else {
            self.sink.write_some(&piece[..most])
        }
    }
}
