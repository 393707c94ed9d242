ghost use Rattle.std.specs.Prelude.{◌≡◌, ℕ, ◌+◌, ◌-◌, ◌^◌, ◌<◌, ◌≤◌, ◌==◌, ◌++◌, min, true, false, List, [], length, take, drop, Option, Some, IfOk, OnErr};
ghost use Rattle.std.specs.Prelude.{IsOk, IsErr};
ghost use Rattle.std.specs.List.{list_any};
ghost use Rattle.sso_base.specs.Faults.{HasCause};
ghost use Rattle.server_desk.specs.Sources.{Gives, IsSpent};

use crate::source::{Source, SourceFault};
use std::marker::Model;

/// A source in memory. Its model is the bytes that it has left. A read returns as many of them as fit into the buffer, and
/// never fails.
#[derive(Debug, Drop)]
pub struct MemorySource {
    bytes: Vec<u8>,
    place: usize,
}

impl Model for MemorySource {
    ghost use Rattle.std.specs.Prelude.{List, ℕ, ◌≤◌, length, drop};

    ghost Value = { List ℕ };

    ghost view = { λ s. drop s.place s.bytes.items };

    ghost invariant = { λ s. s.place ≤ length s.bytes.items };
}

// Copies as many bytes as there are and as fit, and returns their number.
fn copy_front(from: &[u8], room: &mut [u8]) -> usize
    ensures whole { result ≡ min (length from.now) (length room.new) }
    ensures copied { take result room.new ≡ take result from.now }
{
    let count = from.len().min(room.len());
    room[..count].copy_from_slice(&from[..count]);
    count
}

impl MemorySource {
    /// A source of these bytes.
    pub fn new(bytes: Vec<u8>) -> MemorySource
        ensures { result ≡ bytes.items }
    {
        MemorySource { bytes, place: 0 }
    }

    // Gives the next bytes.
    fn give(&mut self, room: &mut [u8]) -> usize
        ensures whole { result ≡ min (length self.old) (length room.new) }
        ensures given { self.old ≡ take result room.new ++ self.new }
    {
        let count = copy_front(&self.bytes[self.place..], room);
        self.place += count;
        count
    }
}

impl Source for MemorySource {
    ghost left = { λ s. Some s };

    ghost faults = { λ _. 0 };

    fn read_some(&mut self, room: &mut [u8]) -> Result<usize, SourceFault>
        ensures bound { IfOk result (λ count. count ≤ length room.new) }
        ensures given { IfOk result (λ count. Gives (Some self.old) (Some self.new) (take count room.new)) }
        ensures ended { IfOk result (λ count. count ≡ 0 → 0 < length room.new → IsSpent (Some self.old)) }
        ensures kept { OnErr result (Some self.new ≡ Some self.old) }
        ensures cause { HasCause 0 0 result }
        ensures whole { IfOk result (λ count. count ≡ min (length self.old) (length room.new)) }
        ensures gives { IsOk result }
    {
        Ok(self.give(room))
    }
}

/// A source in memory whose calls with these numbers fail, from 1, and no others.
#[derive(Debug, Drop)]
pub struct FaultySource {
    source: MemorySource,
    failing: Vec<u64>,
    calls: u64,
    faults: u64,
}

impl Model for FaultySource {
    ghost use Rattle.server_desk.specs.Sources.{FaultySourceMemory};

    ghost Value = { FaultySourceMemory };

    ghost view = { λ s. record { bytes = s.source; failing = s.failing.items; calls = s.calls; faults = s.faults } };
}

impl FaultySource {
    /// A source of these bytes, whose calls with these numbers will fail.
    pub fn new(bytes: Vec<u8>, failing: Vec<u64>) -> FaultySource
        ensures { result ≡ record { bytes = bytes.items; failing = failing.items; calls = 0; faults = 0 } }
    {
        FaultySource {
            source: MemorySource::new(bytes),
            failing,
            calls: 0,
            faults: 0,
        }
    }
}

impl Source for FaultySource {
    ghost left = { λ s. Some s.bytes };

    ghost faults = { λ s. s.faults };

    fn read_some(&mut self, room: &mut [u8]) -> Result<usize, SourceFault>
        ensures bound { IfOk result (λ count. count ≤ length room.new) }
        ensures given { IfOk result (λ count. Gives (Some self.old.bytes) (Some self.new.bytes) (take count room.new)) }
        ensures ended { IfOk result (λ count. count ≡ 0 → 0 < length room.new → IsSpent (Some self.old.bytes)) }
        ensures kept { OnErr result (Some self.new.bytes ≡ Some self.old.bytes) }
        ensures cause { HasCause self.old.faults self.new.faults result }
        ensures whole { IfOk result (λ count. count ≡ min (length self.old.bytes) (length room.new)) }
        ensures counted { self.new.calls ≡ min (self.old.calls + 1) (2 ^ 64 - 1) }
        ensures same { self.new.failing ≡ self.old.failing }
        ensures fails { list_any (λ call. call == self.new.calls) self.old.failing ≡ true → IsErr result }
        ensures gives { list_any (λ call. call == self.new.calls) self.old.failing ≡ false → IsOk result }
    {
        self.calls = self.calls.saturating_add(1);
        let calls = self.calls;
        if self.failing.contains(&calls) {
            self.faults = self.faults.saturating_add(1);
            return Err(SourceFault);
        }
        Ok(self.source.give(room))
    }
}
