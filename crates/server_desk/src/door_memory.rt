ghost use Rattle.std.specs.Prelude.{◌≡◌, ◌+◌, ◌<◌, ◌≤◌, ◌==◌, true, false, Ok, None, IfOk, IfSome, OnOk, OnErr, IsOk, IsErr};
ghost use Rattle.std.specs.List.{list_any};
ghost use Rattle.sso_base.specs.Faults.{Rose, HasCause};
ghost use Rattle.server_desk.specs.Doors.{grown, started, shared, with_served, GaveConnection, told_state, new_door, with_fault, GaveFirst, with_back};

use crate::connection::Connection;
use crate::door::{Door, DoorFault};
use crate::source::Source;
use sso_base::{NoMemory, Sink, Text};
use std::alloc::Global;
use std::collections::VecDeque;
use std::marker::Model;

/// A door in memory. It gives the connections that it was made with, in their order, and is closed after them. It fails only if
/// a `start` or a `share` finds no memory for the place.
#[derive(Drop)]
pub struct MemoryDoor<S: Drop, K: Drop> {
    place: Text,
    coming: VecDeque<Connection<S, K>>,
    // Its capacity suffices for all connections that are out or to come.
    served: Vec<Connection<S, K>>,
    given: u64,
    out: u64,
    closings: u64,
    faults: u64,
}

impl<S: Drop, K: Drop> Model for MemoryDoor<S, K> {
    ghost use Rattle.std.specs.Prelude.{◌+◌, ◌≤◌, length};
    ghost use Rattle.std.specs.Vec.{vec_capacity};
    ghost use Rattle.server_desk.specs.Doors.{DoorMemory};

    ghost Value = { DoorMemory S K };

    ghost view = { λ d. record {
      place = d.place;
      coming = d.coming.items;
      served = d.served.items;
      given = d.given;
      out = d.out;
      closings = d.closings;
      faults = d.faults;
    } };

    ghost invariant = { λ d. length d.served.items + d.out + length d.coming.items ≤ vec_capacity d.served };
}

impl<S: Drop, K: Drop> MemoryDoor<S, K> {
    /// A door that will give these connections, in this order. It reserves the capacity for all that will be given back, so
    /// that `next` and `done` take no memory.
    pub fn new(alloc: Global, coming: Vec<Connection<S, K>>) -> Result<MemoryDoor<S, K>, NoMemory>
        ensures { IfOk result (λ door. door ≡ new_door coming.items) }
    {
        let place = Text::new(alloc, "")?;
        let served = Vec::with_capacity(alloc, coming.len())?;
        Ok(MemoryDoor {
            place,
            coming: VecDeque::from(coming),
            served,
            given: 0,
            out: 0,
            closings: 0,
            faults: 0,
        })
    }

    /// The place at which it listens, or the empty text before a start.
    pub fn place(&self) -> &Text
        ensures { result.now ≡ self.now.place }
    {
        &self.place
    }

    /// The connections that were given back, in that order.
    pub fn served(&self) -> &[Connection<S, K>]
        ensures { result.now ≡ self.now.served }
    {
        self.served.as_slice()
    }

    fn fault(&mut self) -> DoorFault
        ensures counted { self.new ≡ with_fault self.old }
        ensures rose { Rose self.old.faults self.new.faults }
        ensures later { self.old.faults ≤ self.new.faults }
    {
        self.faults = self.faults.saturating_add(1);
        DoorFault
    }
}

impl<S: Source + Send + Drop, K: Sink + Send + Drop> Door for MemoryDoor<S, K> {
    type Source = S;

    type Sink = K;

    ghost state = { told_state };

    ghost closings = { λ d. d.closings };

    ghost faults = { λ d. d.faults };

    fn start(&mut self, place: &Text) -> Result<(), DoorFault>
        ensures started { OnOk result (told_state self.new ≡ started (told_state self.old) place.now) }
        ensures kept { OnErr result (told_state self.new ≡ told_state self.old) }
        ensures later { self.old.closings ≤ self.new.closings }
        ensures cause { HasCause self.old.faults self.new.faults result }
        ensures listens { OnOk result (self.new ≡ record self.old { place = place.now }) }
        ensures failed { OnErr result (self.new ≡ with_fault self.old) }
    {
        match place.copy(*self.served.allocator()) {
            Ok(place) => {
                self.place = place;
                Ok(())
            }
            Err(NoMemory) => Err(self.fault()),
        }
    }

    fn share(&mut self, first: &MemoryDoor<S, K>) -> Result<(), DoorFault>
        ensures shared { OnOk result (told_state self.new ≡ shared (told_state self.old) (told_state first.now)) }
        ensures kept { OnErr result (told_state self.new ≡ told_state self.old) }
        ensures later { self.old.closings ≤ self.new.closings }
        ensures cause { HasCause self.old.faults self.new.faults result }
        ensures listens { OnOk result (self.new ≡ record self.old { place = first.now.place }) }
        ensures failed { OnErr result (self.new ≡ with_fault self.old) }
    {
        self.start(first.place())
    }

    fn next(&mut self) -> Result<Option<Connection<S, K>>, DoorFault>
        ensures gave { IfOk result (λ next. IfSome next (λ c. GaveConnection (told_state self.old) (told_state self.new) c)) }
        ensures closed { result ≡ Ok None → (told_state self.new ≡ told_state self.old) × Rose self.old.closings self.new.closings }
        ensures kept { OnErr result (told_state self.new ≡ told_state self.old) }
        ensures later { self.old.closings ≤ self.new.closings }
        ensures cause { HasCause self.old.faults self.new.faults result }
        ensures first { IfOk result (λ next. GaveFirst self.old self.new next) }
        ensures gives { IsOk result }
    {
        let Some(connection) = self.coming.pop_front() else {
            self.closings = self.closings.saturating_add(1);
            return Ok(None);
        };
        self.given = self.given.saturating_add(1);
        self.out = self.out.saturating_add(1);
        Ok(Some(connection))
    }

    fn done(&mut self, connection: Connection<S, K>)
        requires out { 0 < self.old.out }
        ensures served { told_state self.new ≡ with_served (told_state self.old) connection }
        ensures later { self.old.closings ≤ self.new.closings }
        ensures faults { self.old.faults ≤ self.new.faults }
        ensures back { self.new ≡ with_back self.old connection }
    {
        self.served.push_reserved(connection);
        self.out -= 1;
    }
}

/// A door in memory whose calls with these numbers fail, from 1, counting those of `start`, `share` and `next`. Besides, it
/// fails if a `start` or a `share` finds no memory for the place.
#[derive(Drop)]
pub struct FaultyDoor<S: Drop, K: Drop> {
    door: MemoryDoor<S, K>,
    failing: Vec<u64>,
    calls: u64,
}

impl<S: Drop, K: Drop> Model for FaultyDoor<S, K> {
    ghost use Rattle.server_desk.specs.Doors.{FaultyDoorMemory};

    ghost Value = { FaultyDoorMemory S K };

    ghost view = { λ d. record { door = d.door; failing = d.failing.items; calls = d.calls } };
}

impl<S: Drop, K: Drop> FaultyDoor<S, K> {
    /// This door, whose calls with these numbers will fail.
    pub fn new(door: MemoryDoor<S, K>, failing: Vec<u64>) -> FaultyDoor<S, K>
        ensures { result ≡ record { door = door; failing = failing.items; calls = 0 } }
    {
        FaultyDoor {
            door,
            failing,
            calls: 0,
        }
    }

    /// The door in memory, with its place and the connections that were given back.
    pub fn door(&self) -> &MemoryDoor<S, K>
        ensures { result.now ≡ self.now.door }
    {
        &self.door
    }

    // Counts a call, and returns whether it is one of those that fail.
    fn must_fail(&mut self) -> bool
        ensures counted { self.new ≡ record self.old { calls = grown self.old.calls } }
        ensures listed { result ≡ list_any (λ call. call == self.new.calls) self.old.failing }
    {
        self.calls = self.calls.saturating_add(1);
        let calls = self.calls;
        self.failing.contains(&calls)
    }
}

impl<S: Source + Send + Drop, K: Sink + Send + Drop> Door for FaultyDoor<S, K> {
    type Source = S;

    type Sink = K;

    ghost state = { λ d. told_state d.door };

    ghost closings = { λ d. d.door.closings };

    ghost faults = { λ d. d.door.faults };

    fn start(&mut self, place: &Text) -> Result<(), DoorFault>
        ensures started { OnOk result (told_state self.new.door ≡ started (told_state self.old.door) place.now) }
        ensures kept { OnErr result (told_state self.new.door ≡ told_state self.old.door) }
        ensures later { self.old.door.closings ≤ self.new.door.closings }
        ensures cause { HasCause self.old.door.faults self.new.door.faults result }
        ensures listens { OnOk result (self.new.door ≡ record self.old.door { place = place.now }) }
        ensures failed { OnErr result (self.new.door ≡ with_fault self.old.door) }
        ensures counted { self.new.calls ≡ grown self.old.calls }
        ensures same { self.new.failing ≡ self.old.failing }
        ensures fails { list_any (λ call. call == self.new.calls) self.old.failing ≡ true → IsErr result }
    {
        if self.must_fail() {
            return Err(self.door.fault());
        }
        self.door.start(place)
    }

    fn share(&mut self, first: &FaultyDoor<S, K>) -> Result<(), DoorFault>
        ensures shared { OnOk result (told_state self.new.door ≡ shared (told_state self.old.door) (told_state first.now.door)) }
        ensures kept { OnErr result (told_state self.new.door ≡ told_state self.old.door) }
        ensures later { self.old.door.closings ≤ self.new.door.closings }
        ensures cause { HasCause self.old.door.faults self.new.door.faults result }
        ensures listens { OnOk result (self.new.door ≡ record self.old.door { place = first.now.door.place }) }
        ensures failed { OnErr result (self.new.door ≡ with_fault self.old.door) }
        ensures counted { self.new.calls ≡ grown self.old.calls }
        ensures same { self.new.failing ≡ self.old.failing }
        ensures fails { list_any (λ call. call == self.new.calls) self.old.failing ≡ true → IsErr result }
    {
        if self.must_fail() {
            return Err(self.door.fault());
        }
        self.door.share(&first.door)
    }

    fn next(&mut self) -> Result<Option<Connection<S, K>>, DoorFault>
        ensures gave { IfOk result (λ next. IfSome next (λ c. GaveConnection (told_state self.old.door) (told_state self.new.door) c)) }
        ensures closed { result ≡ Ok None → (told_state self.new.door ≡ told_state self.old.door) × Rose self.old.door.closings self.new.door.closings }
        ensures kept { OnErr result (told_state self.new.door ≡ told_state self.old.door) }
        ensures later { self.old.door.closings ≤ self.new.door.closings }
        ensures cause { HasCause self.old.door.faults self.new.door.faults result }
        ensures first { IfOk result (λ next. GaveFirst self.old.door self.new.door next) }
        ensures failed { OnErr result (self.new.door ≡ with_fault self.old.door) }
        ensures counted { self.new.calls ≡ grown self.old.calls }
        ensures same { self.new.failing ≡ self.old.failing }
        ensures fails { list_any (λ call. call == self.new.calls) self.old.failing ≡ true → IsErr result }
        ensures gives { list_any (λ call. call == self.new.calls) self.old.failing ≡ false → IsOk result }
    {
        if self.must_fail() {
            return Err(self.door.fault());
        }
        self.door.next()
    }

    fn done(&mut self, connection: Connection<S, K>)
        requires out { 0 < self.old.door.out }
        ensures served { told_state self.new.door ≡ with_served (told_state self.old.door) connection }
        ensures later { self.old.door.closings ≤ self.new.door.closings }
        ensures faults { self.old.door.faults ≤ self.new.door.faults }
        ensures back { self.new ≡ record self.old { door = with_back self.old.door connection } }
    {
        self.door.done(connection);
    }
}
