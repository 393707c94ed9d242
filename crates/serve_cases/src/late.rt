// A desk whose link counts its calls, and whose connections may take nothing before so many of them: what a server writes to such a
// connection comes after what it sends over the link.

ghost use Rattle.std.specs.Prelude.{◌≡◌, ◌^◌, ◌≤◌, ◌<◌, None, IfOk};
ghost use Rattle.sso_base.specs.Faults.{Rose};
ghost use Rattle.server_desk.specs.Links.{untold_link};

use crate::desks::{clock, draw, line_bytes, push_bytes};
use crate::top::{Call, run};
use case_lines::number;
use server_desk::{
    Connection, Desk, Door, Link, LinkNo, MemoryClock, MemoryDoor, MemoryDraw, MemorySource, Tools,
};
use sso_base::{Blob, File, MemorySink, NoMemory, Sink, SinkFault, Text};
use std::alloc::Global;
use std::sync::Wait;
use std::sync::atomic::{AtomicU64, Ordering};
use std::thread::Threads;

// ---- the link and the sink

/// A link that counts its calls where others see it, and over which nothing comes back. It does not report what was exchanged.
#[derive(Drop)]
pub struct CountedLink<'a> {
    seen: &'a AtomicU64,
    calls: u64,
}

impl<'a> Link for CountedLink<'a> {
    ghost state = { λ l. untold_link l.calls 0 };

    fn exchange(
        &mut self,
        alloc: Global,
        _to: &Text,
        _asked: &[u8],
        _most: usize,
    ) -> Result<Blob, LinkNo> {
        self.calls = self.calls.saturating_add(1);
        self.seen.fetch_add(1, Ordering::SeqCst);
        Ok(Blob::new(alloc, b"")?)
    }
}

/// A sink that takes nothing before the link was called so often. It does not report what it took.
#[derive(Drop)]
pub struct LateSink<'a> {
    sink: MemorySink,
    calls: &'a AtomicU64,
    after: u64,
    faults: u64,
}

impl<'a> LateSink<'a> {
    fn fault(&mut self) -> SinkFault
        ensures later { self.old.faults ≤ self.new.faults }
        ensures rose { Rose self.old.faults self.new.faults }
    {
        self.faults = self.faults.saturating_add(1);
        SinkFault
    }
}

impl<'a> Sink for LateSink<'a> {
    ghost taken = { λ _. None };

    ghost faults = { λ s. s.faults };

    fn write_some(&mut self, piece: &[u8]) -> Result<usize, SinkFault> {
        if self.calls.load(Ordering::SeqCst) < self.after {
            return Err(self.fault());
        }
        match self.sink.write_some(piece) {
            Ok(count) => Ok(count),
            Err(SinkFault) => Err(self.fault()),
        }
    }
}

// ---- the desk

type LateConnection<'a> = Connection<MemorySource, LateSink<'a>>;

type LateDoor<'a> = MemoryDoor<MemorySource, LateSink<'a>>;

type LateDesk<'a> = Desk<LateDoor<'a>, CountedLink<'a>, MemoryClock, MemoryDraw>;

// A connection with these bytes, which takes nothing before so many calls of the link.
fn connection<'a>(
    alloc: Global,
    text: &str,
    calls: &'a AtomicU64,
    after: u32,
) -> Result<LateConnection<'a>, NoMemory> {
    let sink = LateSink {
        sink: MemorySink::new(alloc),
        calls,
        after: u64::from(after),
        faults: 0,
    };
    Ok(Connection {
        source: MemorySource::new(line_bytes(alloc, text)?),
        sink,
    })
}

// The connection `after COUNT BYTES` or `BYTES`.
fn connection_in<'a>(
    alloc: Global,
    part: &str,
    calls: &'a AtomicU64,
) -> Result<LateConnection<'a>, NoMemory> {
    match part.strip_prefix("after ") {
        Some(rest) => {
            let (after, text) = rest.split_once(' ').unwrap_or(("-", rest));
            connection(alloc, text, calls, number(after))
        }
        None => connection(alloc, part, calls, 0),
    }
}

fn connections_in<'a>(
    alloc: Global,
    parts: &str,
    calls: &'a AtomicU64,
) -> Result<Vec<LateConnection<'a>>, NoMemory> {
    let mut connections = Vec::new(alloc);
    for part in parts.split(" > ") {
        connections.push(connection_in(alloc, part, calls)?)?;
    }
    Ok(connections)
}

fn desk_in<'a>(alloc: Global, text: &str, calls: &'a AtomicU64) -> Result<LateDesk<'a>, NoMemory>
    ensures turns { IfOk result (λ desk. desk.turns ≤ 2 ^ 56) }
    ensures given { IfOk result (λ desk. (⟦<LateDoor<'a> as Door>⟧.state desk.door).given < 2 ^ 63) }
{
    let (turns, parts) = text.split_once(" > ").unwrap_or((text, ""));
    let connections = connections_in(alloc, parts, calls)?;
    Ok(Desk {
        door: MemoryDoor::new(alloc, connections)?,
        tools: Tools {
            link: CountedLink {
                seen: calls,
                calls: 0,
            },
            clock: clock(alloc),
            draw: draw(0),
        },
        turns: u64::from(number(turns)),
    })
}

// Adds what was written to each connection of a desk that took nothing at first.
fn push_written(alloc: Global, out: &mut String, desk: &LateDesk) -> Result<(), NoMemory> {
    for connection in desk.door.served() {
        if connection.sink.after > 0 {
            push_bytes(alloc, out, "", connection.sink.sink.bytes())?;
        }
    }
    Ok(())
}

/// `late|DESK`: one desk `TURNS > PART > PART > ..`. A part is the bytes of a connection, or `after COUNT BYTES` for one that
/// takes nothing before so many calls of the link. After the text comes what was written to each of the latter.
pub fn answer<R: Threads + Wait + Sync>(
    rt: &R,
    alloc: Global,
    files: &[File],
    call: &Call,
    text: &str,
) -> Result<String, NoMemory> {
    let calls = AtomicU64::new(0);
    let desk = desk_in(alloc, text, &calls)?;
    let mut desks = vec![in alloc; desk]?;
    let mut out = run(rt, alloc, files, call, &mut desks)?;
    for desk in &desks {
        push_written(alloc, &mut out, desk)?;
    }
    Ok(out)
}
