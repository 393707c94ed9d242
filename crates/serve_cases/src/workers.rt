// One worker at one desk, over its own store.

ghost use Rattle.std.specs.Prelude.{◌≡◌, ◌^◌, ◌≤◌, ◌<◌, []};
ghost use Rattle.turn_store.specs.Passes.{IsPassOf};

use crate::desks::{CaseDesk, CaseDoor, desk_in, push_bytes, push_sent};
use crate::passes::take_pass;
use crate::tally::Tally;
use crate::tally_role::TallyRole;
use case_lines::{push_part, told};
use server_desk::Door;
use serving::{Backend, Role, ServedEnd, serve_connection, serve_desk};
use sso_base::{Core, NoMemory};
use std::alloc::Global;
use std::sync::Wait;
use turn_store::{Pass, Turn};
use work_permits::Gate;

// Serves the next connection of the door, and adds how that ended, the number of steps, and the bytes that were written. False
// if none came.
fn push_end<R: Wait, X: Role>(
    rt: &R,
    alloc: Global,
    role: &X,
    store: &Turn<X::Core>,
    gate: &Gate,
    pass: &mut Pass<X::Core>,
    desk: &mut CaseDesk,
    out: &mut String,
) -> Result<bool, NoMemory>
    requires ready { X.ready role.now }
    requires pass { IsPassOf X.Core.setup X.Core.is_legal store.now pass.old }
    ensures { IsPassOf X.Core.setup X.Core.is_legal store.now pass.new }
{
    let Ok(Some(mut connection)) = desk.door.next() else {
        return Ok(false);
    };
    let backend = Backend {
        rt,
        alloc,
        role,
        store,
        gate,
    };
    let served = serve_connection(&backend, pass, &mut connection, &mut desk.tools);
    if served.end == ServedEnd::NoMemory {
        return Err(NoMemory);
    }
    let end = format!(in alloc; "{:?} {}", served.end, served.places)?;
    push_part(out, " / ", end.as_str())?;
    push_bytes(alloc, out, "", connection.sink.bytes())?;
    Ok(true)
}

// How each connection was served, and the messages that were sent over the link.
fn ends<R: Wait, X: Role>(
    rt: &R,
    alloc: Global,
    role: &X,
    store: &Turn<X::Core>,
    gate: &Gate,
    pass: &mut Pass<X::Core>,
    desk: &mut CaseDesk,
) -> Result<String, NoMemory>
    requires ready { X.ready role.now }
    requires pass { IsPassOf X.Core.setup X.Core.is_legal store.now pass.old }
{
    let mut out = String::new(alloc);
    for _ in 0..desk.turns {
        if !push_end(rt, alloc, role, store, gate, pass, desk, &mut out)? {
            break;
        }
    }
    push_sent(alloc, &mut out, desk)?;
    Ok(out)
}

// Why the worker ended, and the number of connections that it served.
fn work<R: Wait, X: Role>(
    rt: &R,
    alloc: Global,
    role: &X,
    store: &Turn<X::Core>,
    gate: &Gate,
    pass: &mut Pass<X::Core>,
    desk: &mut CaseDesk,
) -> Result<String, NoMemory>
    requires ready { X.ready role.now }
    requires pass { IsPassOf X.Core.setup X.Core.is_legal store.now pass.old }
    requires given { (⟦<CaseDoor as Door>⟧.state desk.old.door).given < 2 ^ 63 }
    requires turns { desk.old.turns ≤ 2 ^ 56 }
{
    let backend = Backend {
        rt,
        alloc,
        role,
        store,
        gate,
    };
    let worked = serve_desk(&backend, pass, desk);
    Ok(format!(in alloc; "{:?} {}", worked.end, worked.served)?)
}

// How each connection was served while another worker was behind the gate.
fn ends_while_busy<R: Wait, X: Role>(
    rt: &R,
    alloc: Global,
    role: &X,
    store: &Turn<X::Core>,
    gate: &Gate,
    pass: &mut Pass<X::Core>,
    desk: &mut CaseDesk,
) -> Result<String, NoMemory>
    requires ready { X.ready role.now }
    requires pass { IsPassOf X.Core.setup X.Core.is_legal store.now pass.old }
{
    let Ok(entered) = gate.enter(rt) else {
        return told(alloc, "busy before");
    };
    let ends = ends(rt, alloc, role, store, gate, pass, desk);
    gate.leave(entered);
    ends
}

// The answer of the call `ends`, `busy` or `work` for a role whose core is new.
fn at_desk<R: Wait, X: Role>(
    rt: &R,
    alloc: Global,
    call: &str,
    role: &X,
    core: X::Core,
    desk: &mut CaseDesk,
) -> Result<String, NoMemory>
    requires ready { X.ready role.now }
    requires empty { X.Core.history core ≡ [] }
    requires given { (⟦<CaseDoor as Door>⟧.state desk.old.door).given < 2 ^ 63 }
    requires turns { desk.old.turns ≤ 2 ^ 56 }
{
    let (store, mut passes) = Turn::new(alloc, core, 1)?;
    let mut pass = take_pass(&store, &mut passes);
    let gate = Gate::new(alloc, 1)?;
    match call {
        "work" => work(rt, alloc, role, &store, &gate, &mut pass, desk),
        "busy" => ends_while_busy(rt, alloc, role, &store, &gate, &mut pass, desk),
        _ => ends(rt, alloc, role, &store, &gate, &mut pass, desk),
    }
}

/// `ends|DESK`, `busy|DESK` or `work|DESK`.
pub fn answer<R: Wait>(rt: &R, alloc: Global, call: &str, text: &str) -> Result<String, NoMemory> {
    let mut desk = desk_in(alloc, text, 0)?;
    let core = Tally::new(alloc, false);
    at_desk(rt, alloc, call, &TallyRole, core, &mut desk)
}

/// More reads than one request has.
const MOST_READS: u32 = 100_000;

/// What `ends` answers of a connection that failed as its request was read: no step was made and nothing was written.
const READ_FAULT: &str = "Http(ReadFault) 0 / \"\"";

/// `reads|BYTES`: how many reads there are, each of one byte, of which any that fails ends the connection with `Http(ReadFault)`, no step
/// and nothing written; and how it is served if none fails.
pub fn reads<R: Wait>(rt: &R, alloc: Global, text: &str) -> Result<String, NoMemory> {
    for count in 0..MOST_READS {
        let desk = format!(in alloc; "1 > fault {} {text}", count + 1)?;
        let ends = answer(rt, alloc, "ends", desk.as_str())?;
        if ends.as_str() != READ_FAULT {
            return Ok(format!(in alloc; "{count} reads, else {}", ends.as_str())?);
        }
    }
    told(alloc, "no end")
}
