//! A TCP connection as a source and a sink.

ghost use Rattle.std.specs.Prelude.{◌≡◌, ◌≤◌, length, Option, None, IfSome};

use crate::limit::Limit;
use crate::read_ahead::ReadAhead;
use crate::wire::Wire;
use server_desk::{Connection, Source, SourceFault};
use sso_base::{Sink, SinkFault};
use std::alloc::Global;
use std::net::TcpStream;
use std::sync::Arc;
use std::time::{Clock, Duration};

/// How many seconds the reply may take to be written, from its first byte on.
const WRITING: u64 = 10;

/// How many seconds bytes that nobody will read are taken in at the end of a connection.
const DRAINING: u64 = 1;

/// How many of these bytes at most.
const DRAINED: usize = 1 << 20;

/// What a TCP stream gives. It does not report what comes. It reads ahead, so that single bytes cost no call of the system each.
#[derive(Drop)]
pub struct TcpSource<'a, R: Clock> {
    clock: &'a R,
    wire: Arc<Wire, Global>,
    ahead: ReadAhead,
    /// In how much time all has to come; `None` if the clock failed.
    limit: Option<Limit>,
    /// How many seconds no byte may come.
    silence: u64,
    /// How long a read waits, as it was set last; `None` if it was not set.
    last: Option<Duration>,
    faults: u64,
}

/// What a TCP stream takes. It does not report what it took.
#[derive(Drop)]
pub struct TcpSink<'a, R: Clock> {
    clock: &'a R,
    wire: Arc<Wire, Global>,
    /// In how much time all has to go; none before the first write.
    limit: Option<Limit>,
    faults: u64,
}

/// A new stream as a connection: all of it is read within the first limit, no byte in so many seconds is a fault, and all is
/// written within the second limit, or in 10 seconds from the first byte on. It reads ahead into this room, or into new
/// room if there is none. `None` if memory runs out.
pub fn connection_over<'a, R: Clock + AllocGlobal>(
    rt: &'a R,
    stream: TcpStream,
    room: Option<Vec<u8>>,
    reading: Option<Limit>,
    silence: u64,
    writing: Option<Limit>,
) -> Option<Connection<TcpSource<'a, R>, TcpSink<'a, R>>>
    ensures source { IfSome result (λ c. ⟦<TcpSource<'a, R> as Source>⟧.faults c.source ≡ 0) }
    ensures sink { IfSome result (λ c. ⟦<TcpSink<'a, R> as Sink>⟧.faults c.sink ≡ 0) }
{
    let ahead = ReadAhead::new(rt.alloc(), room).ok()?;
    let wire = Arc::new(rt.alloc(), Wire::new(stream)).ok()?;
    let other = Arc::try_clone(&wire).ok()?;
    let source = TcpSource {
        clock: rt,
        wire,
        ahead,
        limit: reading,
        silence,
        last: None,
        faults: 0,
    };
    let sink = TcpSink {
        clock: rt,
        wire: other,
        limit: writing,
        faults: 0,
    };
    Some(Connection { source, sink })
}

impl<'a, R: Clock> TcpSource<'a, R> {
    // Reads ahead, and answers how many bytes came. None is a fault.
    fn fill(&mut self) -> Option<usize>
        ensures { self.new.faults ≡ self.old.faults }
    {
        let limit = self.limit?;
        self.ahead.fill(self.clock, &self.wire, &limit, self.silence, &mut self.last)
    }

    // Takes in what still comes, for a moment.
    fn drain(&mut self) {
        let Some(limit) = Limit::start(self.clock, DRAINING) else {
            return;
        };
        let mut drained = 0usize;
        while drained < DRAINED {
            match self
                .ahead
                .fill(self.clock, &self.wire, &limit, DRAINING, &mut self.last)
            {
                Some(count) if 0 < count => drained = drained.saturating_add(count),
                _ => return,
            }
        }
    }
}

impl<'a, R: Clock> Source for TcpSource<'a, R> {
    ghost left = { λ _. None };

    ghost faults = { λ s. s.faults };

    fn read_some(&mut self, room: &mut [u8]) -> Result<usize, SourceFault> {
        if !room.is_empty() && self.ahead.is_empty() && self.fill().is_none() {
            self.faults = self.faults.saturating_add(1);
            return Err(SourceFault);
        }
        Ok(self.ahead.give(room))
    }
}

impl<'a, R: Clock> TcpSink<'a, R> {
    // Writes once. None is a fault.
    fn write_once(&mut self, piece: &[u8]) -> Option<usize>
        ensures bound { IfSome result (λ count. count ≤ length piece.now) }
        ensures faults { self.new.faults ≡ self.old.faults }
    {
        if self.limit.is_none() {
            self.limit = Limit::start(self.clock, WRITING);
            // The system mostly takes a reply at once. What it does not take waits, within the limit.
            let _ = self.wire.set_waits(false);
        }
        let limit = self.limit?;
        self.wire.send(self.clock, piece, &limit)
    }
}

impl<'a, R: Clock> Sink for TcpSink<'a, R> {
    ghost taken = { λ _. None };

    ghost faults = { λ s. s.faults };

    fn write_some(&mut self, piece: &[u8]) -> Result<usize, SinkFault> {
        match self.write_once(piece) {
            Some(count) if 0 < count || piece.is_empty() => Ok(count),
            _ => {
                self.faults = self.faults.saturating_add(1);
                Err(SinkFault)
            }
        }
    }
}

/// Ends a connection. Where bytes lie there that were not read, as of a request that was refused before its end, it first
/// ends the reply and takes in what still comes, since the system would else reset the connection, and the reply might be lost
/// (RFC 9112, 9.6). Otherwise the reply ends as the stream is closed. It answers the room into which bytes were read ahead, for
/// another connection.
pub fn finish<R: Clock>(connection: Connection<TcpSource<'_, R>, TcpSink<'_, R>>) -> Vec<u8> {
    let Connection { mut source, sink } = connection;
    if sink.wire.is_behind() {
        let _ = sink.wire.end();
        source.drain();
    }
    source.ahead.into_room()
}
