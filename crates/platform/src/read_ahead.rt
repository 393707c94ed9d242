//! Bytes that were read before they were asked for.

ghost use Rattle.std.specs.Prelude.{◌≡◌, [], nat_eq, ◌+◌, ◌-◌, ◌++◌, ◌≤◌, min, length, take, drop, IfSome, IfOk};

use crate::limit::Limit;
use crate::wire::Wire;
use std::alloc::{AllocError, Global};
use std::marker::Model;
use std::time::{Clock, Duration};

/// How many bytes are read ahead at most.
const AHEAD: usize = 4096;

/// Bytes that were read and not given yet, seen as the list of them.
#[derive(Drop)]
pub struct ReadAhead {
    place: usize,
    end: usize,
    room: Vec<u8>,
}

impl Model for ReadAhead {
    ghost use Rattle.std.specs.Prelude.{List, ℕ, ◌≤◌, length, take, drop};

    ghost Value = { List ℕ };

    ghost view = { λ s. drop s.place (take s.end s.room.items) };

    ghost invariant = { λ s. (s.place ≤ s.end) × (s.end ≤ length s.room.items) };
}

impl ReadAhead {
    /// None yet, and room for them: this, whatever lies in it, or new room. It fails where memory runs out.
    pub fn new(alloc: Global, room: Option<Vec<u8>>) -> Result<ReadAhead, AllocError>
        ensures { IfOk result (λ ahead. ahead ≡ []) }
    {
        let room = match room {
            Some(room) => room,
            None => vec![in alloc; 0u8; AHEAD]?,
        };
        Ok(ReadAhead {
            place: 0,
            end: 0,
            room,
        })
    }

    /// The room, whatever lies in it.
    pub fn into_room(self) -> Vec<u8> {
        self.room
    }

    /// Reads once, in place of what was left, and answers how many bytes came. It waits within the limit, and no longer
    /// than so many seconds. `last` is how long a read waits, as it was set last, and as it is set now. `None` if the stream fails
    /// or time is up.
    pub fn fill<C: Clock>(
        &mut self,
        clock: &C,
        wire: &Wire,
        limit: &Limit,
        seconds: u64,
        last: &mut Option<Duration>,
    ) -> Option<usize>
        ensures { IfSome result (λ count. count ≡ length self.new) }
    {
        let count = wire.receive(clock, self.room.as_mut_slice(), limit, seconds, last)?;
        self.place = 0;
        self.end = count;
        Some(count)
    }

    /// Whether none is left.
    pub fn is_empty(&self) -> bool
        ensures { result ≡ nat_eq (length self.now) 0 }
    {
        self.place == self.end
    }

    /// Gives as many of them as there is room for, and answers how many.
    pub fn give(&mut self, room: &mut [u8]) -> usize
        ensures whole { result ≡ min (length self.old) (length room.new) }
        ensures given { self.old ≡ take result room.new ++ self.new }
    {
        let count = copy_behind(&self.room[..self.end], self.place, room);
        self.place += count;
        count
    }
}

// Copies as many bytes from this place on as there are and as there is room for, and answers how many they are.
fn copy_behind(from: &[u8], place: usize, room: &mut [u8]) -> usize
    requires { place ≤ length from.now }
    ensures whole { result ≡ min (length from.now - place) (length room.new) }
    ensures copied { drop place from.now ≡ take result room.new ++ drop (place + result) from.now }
{
    let count = (from.len() - place).min(room.len());
    room[..count].copy_from_slice(&from[place..place + count]);
    count
}
