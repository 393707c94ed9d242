// A worker serves the connections of its door, one after another.

ghost use Rattle.std.specs.Prelude.{◌≡◌, ◌≢◌, ◌⊎◌, ◌+◌, ◌^◌, ◌≤◌, ◌<◌, ℕ, List, [], ◌∷◌, length, Ok, Err, IfOk, OnErr};
ghost use Rattle.sso_base.specs.Faults.{Rose};
ghost use Rattle.server_desk.specs.Doors.{with_served};
ghost use Rattle.turn_store.specs.Passes.{IsPassOf, number_of, front_of, setup_of};
ghost use Rattle.serving.specs.Work.{MadeAll};
ghost use Rattle.serving.specs.Working as spec;

use crate::backend::Backend;
use crate::role::Role;
use crate::serve_one::serve_connection;
use server_desk::{Clock, Connection, Desk, Door, DoorFault, Draw, Link};
use std::sync::Wait;
use turn_store::Pass;

/// Why a worker ended.
#[derive(Clone, Copy, Debug, PartialEq, Eq)]
pub enum WorkEnd {
    /// It served as many connections as its desk has turns.
    Turns,
    /// Its door is closed.
    DoorClosed,
    /// Its door failed.
    DoorFault,
}

/// What a worker did.
#[derive(Clone, Copy, Debug, PartialEq, Eq)]
pub struct Worked {
    /// The number of connections that it served.
    pub served: u64,
    /// Why it ended.
    pub end: WorkEnd,
}

// The result of waiting for one connection.
#[derive(Clone, Copy, PartialEq, Eq)]
enum Next {
    Served,
    Closed,
    Fault,
}

// Gives a served connection back to its door.
fn give_back<D: Door>(door: &mut D, connection: Connection<D::Source, D::Sink>)
    requires out { 0 < (D.state door.old).out }
    ensures served { D.state door.new ≡ with_served (D.state door.old) connection }
    ensures later { D.closings door.old ≤ D.closings door.new }
    ensures faults { D.faults door.old ≤ D.faults door.new }
{
    door.done(connection);
}

// Waits for the next connection, serves it, and gives it back.
fn serve_next<R: Wait, X: Role, D: Door, L: Link, C: Clock, W: Draw>(
    backend: &Backend<'_, R, X, X::Core>,
    pass: &mut Pass<X::Core>,
    desk: &mut Desk<D, L, C, W>,
) -> Next
    requires ready { X.ready backend.now.role.now }
    requires pass { IsPassOf X.Core.setup X.Core.is_legal backend.now.store.now pass.old }
    requires given { (D.state desk.old.door).given + 1 < 2 ^ 64 }
    ensures pass { IsPassOf X.Core.setup X.Core.is_legal backend.now.store.now pass.new }
    ensures number { number_of pass.new ≡ number_of pass.old }
    ensures turns { desk.new.turns ≡ desk.old.turns }
    ensures place { (D.state desk.new.door).place ≡ (D.state desk.old.door).place }
    ensures closings { D.closings desk.old.door ≤ D.closings desk.new.door }
    ensures faults { D.faults desk.old.door ≤ D.faults desk.new.door }
    ensures closed { result ≡ Next.Closed → Rose (D.closings desk.old.door) (D.closings desk.new.door) }
    ensures fault { result ≡ Next.Fault → Rose (D.faults desk.old.door) (D.faults desk.new.door) }
    ensures worked { (services : List (spec.Service D.Source D.Sink X.Core.Ask X.Core.Reply))
        × MadeAll pass.old pass.new (spec.steps_in services)
        × spec.AtDesk (X.manner backend.now.role.now) (X.Core.most (setup_of X.Core.setup backend.now.store.now))
        D.Source.left D.Source.faults D.Sink.taken D.Sink.faults (front_of pass.new)
        (D.state desk.old.door) (D.state desk.new.door) (L.state desk.old.tools.link) (L.state desk.new.tools.link)
        (C.ahead desk.old.tools.clock) (C.ahead desk.new.tools.clock) (W.ahead desk.old.tools.draw) (W.ahead desk.new.tools.draw) services
        × spec.IsNumber result (length services) }
{
    match desk.door.next() {
        Ok(Some(mut connection)) => {
            serve_connection(backend, pass, &mut connection, &mut desk.tools);
            give_back(&mut desk.door, connection);
            Next::Served
        }
        Ok(None) => Next::Closed,
        Err(DoorFault) => Next::Fault,
    }
}

/// Serves connections of the desk's door, one after another, until it has served as many as the desk has turns, or the door is
/// closed or fails. Each served connection is given back to the door.
pub fn serve_desk<R: Wait, X: Role, D: Door, L: Link, C: Clock, W: Draw>(
    backend: &Backend<'_, R, X, X::Core>,
    pass: &mut Pass<X::Core>,
    desk: &mut Desk<D, L, C, W>,
) -> Worked
    requires ready { X.ready backend.now.role.now }
    requires pass { IsPassOf X.Core.setup X.Core.is_legal backend.now.store.now pass.old }
    requires given { (D.state desk.old.door).given < 2 ^ 63 }
    requires turns { desk.old.turns ≤ 2 ^ 56 }
    ensures pass { IsPassOf X.Core.setup X.Core.is_legal backend.now.store.now pass.new }
    ensures number { number_of pass.new ≡ number_of pass.old }
    ensures turns { desk.new.turns ≡ desk.old.turns }
    ensures place { (D.state desk.new.door).place ≡ (D.state desk.old.door).place }
    ensures closings { D.closings desk.old.door ≤ D.closings desk.new.door }
    ensures faults { D.faults desk.old.door ≤ D.faults desk.new.door }
    ensures bound { result.served ≤ desk.old.turns }
    ensures used { (result.end ≡ WorkEnd.Turns → result.served ≡ desk.old.turns) × (result.served ≡ desk.old.turns → result.end ≡ WorkEnd.Turns) }
    ensures closed { result.end ≡ WorkEnd.DoorClosed → Rose (D.closings desk.old.door) (D.closings desk.new.door) }
    ensures fault { result.end ≡ WorkEnd.DoorFault → Rose (D.faults desk.old.door) (D.faults desk.new.door) }
    ensures worked { (services : List (spec.Service D.Source D.Sink X.Core.Ask X.Core.Reply))
        × MadeAll pass.old pass.new (spec.steps_in services)
        × spec.AtDesk (X.manner backend.now.role.now) (X.Core.most (setup_of X.Core.setup backend.now.store.now))
        D.Source.left D.Source.faults D.Sink.taken D.Sink.faults (front_of pass.new)
        (D.state desk.old.door) (D.state desk.new.door) (L.state desk.old.tools.link) (L.state desk.new.tools.link)
        (C.ahead desk.old.tools.clock) (C.ahead desk.new.tools.clock) (W.ahead desk.old.tools.draw) (W.ahead desk.new.tools.draw) services
        × (result.served ≡ length services) }
{
    for served in 0..desk.turns {
        match serve_next(backend, pass, desk) {
            Next::Served => {}
            Next::Closed => {
                return Worked {
                    served,
                    end: WorkEnd::DoorClosed,
                };
            }
            Next::Fault => {
                return Worked {
                    served,
                    end: WorkEnd::DoorFault,
                };
            }
        }
    }
    Worked {
        served: desk.turns,
        end: WorkEnd::Turns,
    }
}
