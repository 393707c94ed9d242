//! Desks over this machine.

ghost use Rattle.std.specs.Prelude.{◌≡◌, ◌^◌, IfOk};
ghost use Rattle.server_desk.specs.Links.{untold_link};
ghost use Rattle.platform.specs.Doors.{counted};

use crate::clock::SystemClock;
use crate::door::TcpDoor;
use crate::draw::RandomDraw;
use crate::link::TcpLink;
use crate::names::Names;
use server_desk::{Desk, Door, Link, Tools};
use std::io;
use std::io::ErrorKind;
use std::net::{Net, TcpListener, TcpStream};
use std::random::RandomSource;
use std::rt::Files;
use std::time::Clock;

/// How many connections a desk serves: more than a server sees in its life.
const TURNS: u64 = 1 << 56;

/// A desk over this machine's network, names, clock and random bytes. Its door does not listen yet. An error is returned if the
/// machine gives no random bytes, or if memory runs out.
pub fn desk<'a, R>(
    rt: &'a R,
) -> io::Result<Desk<TcpDoor<'a, R>, TcpLink<'a, R>, SystemClock<'a, R>, RandomDraw>>
where
    R: Net<Listener = TcpListener, Stream = TcpStream> + Files,
    R: Clock + RandomSource + Sync + AllocGlobal,
    ensures turns { IfOk result (λ desk. desk.turns ≡ 2 ^ 56) }
    ensures door { IfOk result (λ desk. ⟦<TcpDoor<'a, R> as Door>⟧.state desk.door ≡ counted 0 0) }
    ensures door_faults { IfOk result (λ desk. ⟦<TcpDoor<'a, R> as Door>⟧.faults desk.door ≡ 0) }
    ensures link { IfOk result (λ desk. ⟦<TcpLink<'a, R> as Link>⟧.state desk.tools.link ≡ untold_link 0 0) }
{
    let Ok(names) = Names::of_machine(rt.alloc(), rt) else {
        return Err(io::Error::from(ErrorKind::OutOfMemory));
    };
    Ok(Desk {
        door: TcpDoor::new(rt),
        tools: Tools {
            link: TcpLink::new(rt, names),
            clock: SystemClock::new(rt),
            draw: RandomDraw::new(rt)?,
        },
        turns: TURNS,
    })
}
