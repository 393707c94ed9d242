// Two desks that wait for each other.

ghost use Rattle.std.specs.Prelude.{◌≡◌, ◌^◌, ◌≤◌, ◌<◌, length, IfOk};
ghost use Rattle.std.specs.List.{All};

use crate::desks::{clock, draw, push_bytes};
use crate::login_door::LoginDoor;
use crate::meeting::{MeetingLink, MeetingSource};
use crate::top::{Call, run};
use server_desk::{
    Connection, Desk, Door, MemoryClock, MemoryDoor, MemoryDraw, MemoryLink, MemorySource, Tools,
};
use sso_base::{File, MemorySink, NoMemory};
use std::alloc::Global;
use std::sync::Wait;
use std::sync::atomic::AtomicU64;
use std::thread::Threads;

type LoginDesk<'a> = Desk<LoginDoor, MeetingLink<'a>, MemoryClock, MemoryDraw>;

type KeysDoor<'a> = MemoryDoor<MeetingSource<'a>, MemorySink>;

type KeysDesk<'a> = Desk<KeysDoor<'a>, MemoryLink, MemoryClock, MemoryDraw>;

// A desk with a login and its callback, whose token exchange waits.
fn login_desk<'a>(alloc: Global, begun: &'a AtomicU64, place: u8) -> Result<LoginDesk<'a>, NoMemory>
    ensures turns { IfOk result (λ desk. desk.turns ≤ 2 ^ 56) }
    ensures given { IfOk result (λ desk. (⟦<LoginDoor as Door>⟧.state desk.door).given < 2 ^ 63) }
{
    Ok(Desk {
        door: LoginDoor::new(alloc)?,
        tools: Tools {
            link: MeetingLink::new(begun),
            clock: clock(alloc),
            draw: draw(place),
        },
        turns: 2,
    })
}

// Two such desks.
fn login_desks<'a>(alloc: Global, begun: &'a AtomicU64) -> Result<Vec<LoginDesk<'a>>, NoMemory>
    ensures few { IfOk result (λ desks. length desks.items ≤ 64) }
    ensures desks { IfOk result (λ desks. All (λ desk. (desk.turns ≤ 2 ^ 56) × ((⟦<LoginDoor as Door>⟧.state desk.door).given < 2 ^ 63)) desks.items) }
{
    let mut desks = Vec::new(alloc);
    desks.push(login_desk(alloc, begun, 0)?)?;
    desks.push(login_desk(alloc, begun, 1)?)?;
    Ok(desks)
}

// A desk with a request for the keys, whose first read waits.
fn keys_desk<'a>(alloc: Global, begun: &'a AtomicU64, place: u8) -> Result<KeysDesk<'a>, NoMemory>
    ensures turns { IfOk result (λ desk. desk.turns ≤ 2 ^ 56) }
    ensures given { IfOk result (λ desk. (⟦<KeysDoor<'a> as Door>⟧.state desk.door).given < 2 ^ 63) }
{
    let bytes = Vec::from_slice(alloc, b"GET /jwks HTTP/1.1\r\n\r\n")?;
    let connection = Connection {
        source: MeetingSource::new(MemorySource::new(bytes), begun),
        sink: MemorySink::new(alloc),
    };
    Ok(Desk {
        door: MemoryDoor::new(alloc, vec![in alloc; connection]?)?,
        tools: Tools {
            link: MemoryLink::new(alloc, Vec::new(alloc)),
            clock: clock(alloc),
            draw: draw(place),
        },
        turns: 1,
    })
}

// Two such desks.
fn keys_desks<'a>(alloc: Global, begun: &'a AtomicU64) -> Result<Vec<KeysDesk<'a>>, NoMemory>
    ensures few { IfOk result (λ desks. length desks.items ≤ 64) }
    ensures desks { IfOk result (λ desks. All (λ desk. (desk.turns ≤ 2 ^ 56) × ((⟦<KeysDoor<'a> as Door>⟧.state desk.door).given < 2 ^ 63)) desks.items) }
{
    let mut desks = Vec::new(alloc);
    desks.push(keys_desk(alloc, begun, 0)?)?;
    desks.push(keys_desk(alloc, begun, 1)?)?;
    Ok(desks)
}

// Adds the bytes that were written to the last connection of each desk.
fn push_replies(alloc: Global, out: &mut String, desks: &[LoginDesk]) -> Result<(), NoMemory> {
    for desk in desks {
        push_bytes(alloc, out, "", desk.door.reply())?;
    }
    Ok(())
}

/// `two logins`: each desk has a login and its callback, and its link holds the exchange until that of the other desk has
/// begun. The bytes that were written to each callback follow the text.
pub fn logins<R: Threads + Wait + Sync>(
    rt: &R,
    alloc: Global,
    files: &[File],
    call: &Call,
) -> Result<String, NoMemory> {
    let begun = AtomicU64::new(0);
    let mut desks = login_desks(alloc, &begun)?;
    let mut out = run(rt, alloc, files, call, &mut desks)?;
    push_replies(alloc, &mut out, desks.as_slice())?;
    Ok(out)
}

/// `two keys`: each desk has a request for the keys, whose first read waits until that of the other desk has begun.
pub fn keys<R: Threads + Wait + Sync>(
    rt: &R,
    alloc: Global,
    files: &[File],
    call: &Call,
) -> Result<String, NoMemory> {
    let begun = AtomicU64::new(0);
    let mut desks = keys_desks(alloc, &begun)?;
    run(rt, alloc, files, call, &mut desks)
}
