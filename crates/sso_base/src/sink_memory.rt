ghost use Rattle.std.specs.Prelude.{◌≡◌, ℕ, ◌+◌, ◌-◌, ◌^◌, ◌<◌, ◌≤◌, ◌==◌, min, true, List, [], length, take, Option, Some, IfOk, OnOk, OnErr, IsErr};
ghost use Rattle.std.specs.List.{list_any};
ghost use Rattle.sso_base.specs.Faults.{Rose, HasCause};
ghost use Rattle.sso_base.specs.Outside.{SinkMemory, Takes};

use crate::sink::{Sink, SinkFault};
use std::alloc::Global;
use std::marker::Model;

/// A sink in memory. It writes each piece whole, and fails only if there is no memory for the bytes.
#[derive(Drop)]
pub struct MemorySink {
    bytes: Vec<u8>,
    faults: u64,
}

impl Model for MemorySink {
    ghost use Rattle.sso_base.specs.Outside.{SinkMemory};

    ghost Value = { SinkMemory };

    ghost view = { λ s. record { bytes = s.bytes.items; faults = s.faults } };
}

impl MemorySink {
    /// A sink with no bytes and no failures so far.
    pub fn new(alloc: Global) -> MemorySink
        ensures { result ≡ record { bytes = []; faults = 0 } }
    {
        MemorySink {
            bytes: Vec::new(alloc),
            faults: 0,
        }
    }

    /// The bytes that it accepted.
    pub fn bytes(&self) -> &[u8]
        ensures { result.now ≡ self.now.bytes }
    {
        self.bytes.as_slice()
    }

    fn fault(&mut self) -> SinkFault
        ensures bytes { self.new.bytes ≡ self.old.bytes }
        ensures later { self.old.faults ≤ self.new.faults }
        ensures rose { Rose self.old.faults self.new.faults }
    {
        self.faults = self.faults.saturating_add(1);
        SinkFault
    }
}

impl Sink for MemorySink {
    ghost taken = { λ s. Some s.bytes };

    ghost faults = { λ s. s.faults };

    fn write_some(&mut self, piece: &[u8]) -> Result<usize, SinkFault>
        ensures bound { IfOk result (λ count. count ≤ length piece.now) }
        ensures taken { IfOk result (λ count. Takes (Some self.old.bytes) (Some self.new.bytes) (take count piece.now)) }
        ensures kept { OnErr result (self.new.bytes ≡ self.old.bytes) }
        ensures cause { HasCause self.old.faults self.new.faults result }
        ensures stuck { IfOk result (λ count. count ≡ 0 → 0 < length piece.now → Rose self.old.faults self.new.faults) }
        ensures whole { IfOk result (λ count. count ≡ length piece.now) }
        ensures quiet { OnOk result (self.new.faults ≡ self.old.faults) }
    {
        match self.bytes.extend_from_slice(piece) {
            Ok(()) => Ok(piece.len()),
            Err(_) => Err(self.fault()),
        }
    }
}

/// A sink in memory whose calls with these numbers fail. Calls are counted from 1.
#[derive(Drop)]
pub struct FaultySink {
    sink: MemorySink,
    failing: Vec<u64>,
    calls: u64,
}

impl Model for FaultySink {
    ghost use Rattle.sso_base.specs.Outside.{FaultySinkMemory};

    ghost Value = { FaultySinkMemory };

    ghost view = { λ s. record { sink = s.sink; failing = s.failing.items; calls = s.calls } };
}

impl FaultySink {
    /// An empty sink whose calls with these numbers will fail.
    pub fn new(alloc: Global, failing: Vec<u64>) -> FaultySink
        ensures { result ≡ record { sink = record { bytes = []; faults = 0 }; failing = failing.items; calls = 0 } }
    {
        FaultySink {
            sink: MemorySink::new(alloc),
            failing,
            calls: 0,
        }
    }

    /// The bytes that it accepted.
    pub fn bytes(&self) -> &[u8]
        ensures { result.now ≡ self.now.sink.bytes }
    {
        self.sink.bytes()
    }
}

impl Sink for FaultySink {
    ghost taken = { λ s. Some s.sink.bytes };

    ghost faults = { λ s. s.sink.faults };

    fn write_some(&mut self, piece: &[u8]) -> Result<usize, SinkFault>
        ensures bound { IfOk result (λ count. count ≤ length piece.now) }
        ensures taken { IfOk result (λ count. Takes (Some self.old.sink.bytes) (Some self.new.sink.bytes) (take count piece.now)) }
        ensures kept { OnErr result (Some self.new.sink.bytes ≡ Some self.old.sink.bytes) }
        ensures cause { HasCause self.old.sink.faults self.new.sink.faults result }
        ensures stuck { IfOk result (λ count. count ≡ 0 → 0 < length piece.now → Rose self.old.sink.faults self.new.sink.faults) }
        ensures whole { IfOk result (λ count. count ≡ length piece.now) }
        ensures counted { self.new.calls ≡ min (self.old.calls + 1) (2 ^ 64 - 1) }
        ensures same { self.new.failing ≡ self.old.failing }
        ensures fails { list_any (λ call. call == self.new.calls) self.old.failing ≡ true → IsErr result }
    {
        self.calls = self.calls.saturating_add(1);
        let calls = self.calls;
        if self.failing.contains(&calls) {
            return Err(self.sink.fault());
        }
        self.sink.write_some(piece)
    }
}
