// Desks with their passes, at which workers serve concurrently.

ghost use Rattle.std.specs.Prelude.{◌≡◌, ◌+◌, ◌^◌, ◌≤◌, ◌<◌, [], map, length, false, vec_capacity};
ghost use Rattle.std.specs.List.{All, sum_by, list_any};
ghost use Rattle.server_desk.specs.Doors.{started, shared};
ghost use Rattle.serving.specs.Seating.{seated, is_left, OpenedSo, AllOpened, Opened, SeatServed, SeatsServed, OpenedAndServed, MayServe};
ghost use Rattle.turn_store.specs.Passes.{IsPassOf, setup_of};

use crate::backend::Backend;
use crate::role::Role;
use crate::tells::Tells;
use crate::work::{WorkEnd, Worked, serve_desk};
use server_desk::{Clock, Desk, Door, Draw, Link};
use sso_base::{Core, Text};
use std::sync::Wait;
use std::thread::{Threads, for_each_mut};
use turn_store::Pass;

/// A desk with its pass.
#[derive(Drop)]
pub struct Seat<O: Core + Send, D: Drop, L: Drop, C: Drop, W: Drop> {
    pub desk: Desk<D, L, C, W>,
    pub pass: Pass<O>,
    /// Whether its door listens.
    pub listens: bool,
    /// The result of its worker.
    pub worked: Worked,
}

/// Moves these desks and passes to seats, at which nobody has served yet.
pub fn sit<O: Core + Send, D: Door, L: Link, C: Clock, W: Draw>(
    desks: &mut Vec<Desk<D, L, C, W>>,
    passes: &mut Vec<Pass<O>>,
    seats: &mut Vec<Seat<O, D, L, C, W>>,
)
    requires empty { seats.old.items ≡ [] }
    requires same { length desks.old.items ≡ length passes.old.items }
    requires room { length desks.old.items ≤ vec_capacity seats.old }
    ensures seats { seats.new.items ≡ seated desks.old.items passes.old.items }
    ensures desks { (desks.new.items ≡ []) × (length desks.old.items ≤ vec_capacity desks.new) }
    ensures passes { (passes.new.items ≡ []) × (length passes.old.items ≤ vec_capacity passes.new) }
{
    for _ in 0..desks.len() {
        let desk = desks.remove(0);
        let pass = passes.remove(0);
        seats.push_reserved(Seat {
            desk,
            pass,
            listens: false,
            worked: Worked {
                served: 0,
                end: WorkEnd::DoorFault,
            },
        });
    }
}

// Makes the seat's door listen at the place, and notes whether it does.
fn open_seat<O: Core + Send, D: Door, L: Link, C: Clock, W: Draw>(
    seat: &mut Seat<O, D, L, C, W>,
    place: &Text,
)
    ensures { OpenedSo D.state D.closings D.faults (λ door. started door place.now) seat.old seat.new }
{
    seat.listens = seat.desk.door.start(place).is_ok();
}

// Makes the seat's door listen at the first door's address, and notes whether it does.
fn share_seat<O: Core + Send, D: Door, L: Link, C: Clock, W: Draw>(
    seat: &mut Seat<O, D, L, C, W>,
    first: &D,
)
    ensures { OpenedSo D.state D.closings D.faults (λ door. shared door (D.state first.now)) seat.old seat.new }
{
    seat.listens = seat.desk.door.share(first).is_ok();
}

// Makes the doors of these seats listen at the first door's address.
fn share_seats<O: Core + Send, D: Door, L: Link, C: Clock, W: Draw>(
    seats: &mut [Seat<O, D, L, C, W>],
    first: &D,
)
    ensures { AllOpened D.state D.closings D.faults (λ door. shared door (D.state first.now)) seats.old seats.new }
{
    for seat in seats {
        share_seat(seat, first);
    }
}

/// Makes the first door listen at the place, and the others at its address. A seat is open if its door listens.
pub fn open_doors<O: Core + Send, D: Door, L: Link, C: Clock, W: Draw>(
    seats: &mut [Seat<O, D, L, C, W>],
    place: &Text,
)
    requires some { 0 < length seats.old }
    ensures { Opened D.state D.closings D.faults place.now seats.old seats.new }
{
    let Some((first, others)) = seats.split_first_mut() else {
        return;
    };
    open_seat(first, place);
    if first.listens {
        share_seats(others, &first.desk.door);
    }
}

// Serves at one seat, if it is open.
fn serve_seat<R: Wait, X: Role, D: Door, L: Link, C: Clock, W: Draw>(
    backend: &Backend<'_, R, X, X::Core>,
    seat: &mut Seat<X::Core, D, L, C, W>,
)
    requires ready { X.ready backend.now.role.now }
    requires pass { IsPassOf X.Core.setup X.Core.is_legal backend.now.store.now seat.old.pass }
    requires given { (D.state seat.old.desk.door).given < 2 ^ 63 }
    requires turns { seat.old.desk.turns ≤ 2 ^ 56 }
    requires idle { seat.old.worked.served ≡ 0 }
    ensures pass { IsPassOf X.Core.setup X.Core.is_legal backend.now.store.now seat.new.pass }
    ensures served { SeatServed ⟦<Desk<D, L, C, W> as Tells>⟧.telling (X.manner backend.now.role.now)
        (X.Core.most (setup_of X.Core.setup backend.now.store.now)) seat.old seat.new }
{
    if seat.listens {
        seat.worked = serve_desk(backend, &mut seat.pass, &mut seat.desk);
    }
}

/// Serves at all open seats concurrently, one thread for each. If a thread can't be created, the calling thread serves there.
pub fn serve_seats<R: Threads + Wait + Sync, X: Role, D: Door, L: Link, C: Clock, W: Draw>(
    backend: &Backend<'_, R, X, X::Core>,
    seats: &mut [Seat<X::Core, D, L, C, W>],
)
where
    <X::Core as Core>::Ask: Send,
    <X::Core as Core>::Reply: Send,
    requires ready { X.ready backend.now.role.now }
    requires some { 0 < length seats.old }
    requires seats { All (λ seat. MayServe X.Core.setup X.Core.is_legal D.state backend.now.store.now seat) seats.old }
    ensures passes { All (λ seat. IsPassOf X.Core.setup X.Core.is_legal backend.now.store.now seat.pass) seats.new }
    ensures served { SeatsServed ⟦<Desk<D, L, C, W> as Tells>⟧.telling (X.manner backend.now.role.now)
        (X.Core.most (setup_of X.Core.setup backend.now.store.now)) seats.old seats.new }
{
    let count = seats.len();
    for_each_mut(
        backend.rt,
        seats,
        count,
        &|_, seat: &mut Seat<X::Core, D, L, C, W>|
            requires { X.ready backend.now.role.now
                × IsPassOf X.Core.setup X.Core.is_legal backend.now.store.now seat.now.pass × ((D.state seat.now.desk.door).given < 2 ^ 63)
                × (seat.now.desk.turns ≤ 2 ^ 56) × (seat.now.worked.served ≡ 0) }
            ensures { IsPassOf X.Core.setup X.Core.is_legal backend.entry.now.store.now seat.exit.now.pass
                × SeatServed (record {
                  state = D.state;
                  closings = D.closings;
                  door_faults = D.faults;
                  link_state = L.state;
                  moments = C.ahead;
                  words = W.ahead;
                  left = D.Source.left;
                  read_faults = D.Source.faults;
                  taken = D.Sink.taken;
                  write_faults = D.Sink.faults;
                }) (X.manner backend.entry.now.role.now) (X.Core.most (setup_of X.Core.setup backend.entry.now.store.now))
                seat.entry.now seat.exit.now }
        { serve_seat(backend, seat) },
    );
}

/// Opens the doors, the first at the place and the others at its address, and then serves at all open seats.
pub fn open_and_serve<R: Threads + Wait + Sync, X: Role, D: Door, L: Link, C: Clock, W: Draw>(
    backend: &Backend<'_, R, X, X::Core>,
    seats: &mut [Seat<X::Core, D, L, C, W>],
    place: &Text,
)
where
    <X::Core as Core>::Ask: Send,
    <X::Core as Core>::Reply: Send,
    requires ready { X.ready backend.now.role.now }
    requires some { 0 < length seats.old }
    requires seats { All (λ seat. MayServe X.Core.setup X.Core.is_legal D.state backend.now.store.now seat) seats.old }
    ensures passes { All (λ seat. IsPassOf X.Core.setup X.Core.is_legal backend.now.store.now seat.pass) seats.new }
    ensures served { OpenedAndServed ⟦<Desk<D, L, C, W> as Tells>⟧.telling (X.manner backend.now.role.now)
        (X.Core.most (setup_of X.Core.setup backend.now.store.now)) place.now seats.old seats.new }
{
    open_doors(seats, place);
    serve_seats(backend, seats);
}

/// The number of connections that were served at all seats, and whether a door failed.
#[derive(Clone, Copy)]
pub struct Count {
    pub served: u64,
    pub fault: bool,
}

/// Returns desks and passes from the seats, in their order, and the count.
pub fn rise<O: Core + Send, D: Door, L: Link, C: Clock, W: Draw>(
    seats: &mut Vec<Seat<O, D, L, C, W>>,
    desks: &mut Vec<Desk<D, L, C, W>>,
    passes: &mut Vec<Pass<O>>,
) -> Count
    requires empty { (desks.old.items ≡ []) × (passes.old.items ≡ []) }
    requires few { length seats.old.items ≤ 64 }
    requires served { All (λ seat. seat.worked.served ≤ 2 ^ 56) seats.old.items }
    requires room { (length seats.old.items ≤ vec_capacity desks.old) × (length seats.old.items ≤ vec_capacity passes.old) }
    ensures desks { desks.new.items ≡ map (λ seat. seat.desk) seats.old.items }
    ensures passes { passes.new.items ≡ map (λ seat. seat.pass) seats.old.items }
    ensures served { result.served ≡ sum_by (λ seat. seat.worked.served) seats.old.items }
    ensures fault { result.fault ≡ list_any is_left seats.old.items }
{
    let mut count = Count {
        served: 0,
        fault: false,
    };
    for _ in 0..seats.len() {
        let Seat {
            desk,
            pass,
            worked,
            ..
        } = seats.remove(0);
        count.served += worked.served;
        count.fault = count.fault || worked.end == WorkEnd::DoorFault;
        desks.push_reserved(desk);
        passes.push_reserved(pass);
    }
    count
}
