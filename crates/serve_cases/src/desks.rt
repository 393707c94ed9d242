// Desks in memory. A desk is written `TURNS DOOR LINK > PART > PART > ..`: the most connections that it serves, and the numbers
// of the failing calls of its door and of its link. A missing number is 0, and the call number 0 is none. A part is one of
// these:
//
// - `answer BYTES`: the next answer over its link;
// - `cut MOST BYTES`: a connection that gives at most MOST of its bytes at a call;
// - `fault CALL BYTES`: a connection that gives one of its bytes at a call, and whose read number CALL fails;
// - `deaf BYTES`: a connection whose first write fails;
// - `BYTES`: a connection with these bytes.
//
// In these, `\r` and `\n` are the two bytes of a line end. The clock of each desk shows 1000. The first desk draws the words
// with the numbers from 1 on, and no other desk draws one of these.

ghost use Rattle.std.specs.Prelude.{◌≡◌, ◌^◌, ◌≤◌, ◌<◌, IfOk};
ghost use Rattle.std.specs.List.{All};

use case_lines::{SlowSource, as_text, bytes, field, number, push_field, told_quoted};
use server_desk::{
    Connection, Desk, Door, Exchanged, FaultyDoor, FaultyLink, FaultySource, MemoryClock,
    MemoryDoor, MemoryDraw, MemoryLink, Tools,
};
use sso_base::{Blob, FaultySink, Moment, NoMemory};
use std::alloc::Global;

pub type CaseConnection = Connection<SlowSource, FaultySink>;

pub type CaseDoor = FaultyDoor<SlowSource, FaultySink>;

pub type CaseDesk = Desk<CaseDoor, FaultyLink, MemoryClock, MemoryDraw>;

// ---- reading

/// The bytes of a text in which `\r` and `\n` are the two bytes of a line end.
pub fn line_bytes(alloc: Global, text: &str) -> Result<Vec<u8>, NoMemory> {
    let ends = text.replace(alloc, "\\n", "\n")?;
    let text = ends.as_str().replace(alloc, "\\r", "\r")?;
    Ok(bytes(alloc, text.as_str())?)
}

/// The number of the failing call, or none for 0.
pub fn failing(alloc: Global, call: u32) -> Result<Vec<u64>, NoMemory> {
    Ok(vec![in alloc; u64::from(call)]?)
}

// The numbers of the failing read and write of a connection; 0 is none.
#[derive(Clone, Copy)]
struct Faults {
    read: u32,
    write: u32,
}

// A connection with these bytes, of which at most `most` are given at a call, and whose calls with these numbers fail.
fn connection(
    alloc: Global,
    text: &str,
    most: usize,
    faults: Faults,
) -> Result<CaseConnection, NoMemory> {
    let bytes = line_bytes(alloc, text)?;
    let source = SlowSource {
        source: FaultySource::new(bytes, failing(alloc, faults.read)?),
        most,
    };
    let sink = FaultySink::new(alloc, failing(alloc, faults.write)?);
    Ok(Connection { source, sink })
}

// A connection of whose bytes at most so many are given at a call.
fn cut_connection(alloc: Global, text: &str) -> Result<CaseConnection, NoMemory> {
    let (most, text) = text.split_once(' ').unwrap_or(("-", text));
    let faults = Faults { read: 0, write: 0 };
    connection(alloc, text, number(most) as usize, faults)
}

// A connection that gives a byte at a call, and whose read of this number fails.
fn faulty_connection(alloc: Global, text: &str) -> Result<CaseConnection, NoMemory> {
    let (call, text) = text.split_once(' ').unwrap_or(("-", text));
    let read = number(call);
    connection(alloc, text, 1, Faults { read, write: 0 })
}

fn connection_in(alloc: Global, part: &str) -> Result<CaseConnection, NoMemory> {
    if let Some(text) = part.strip_prefix("cut ") {
        cut_connection(alloc, text)
    } else if let Some(text) = part.strip_prefix("fault ") {
        faulty_connection(alloc, text)
    } else if let Some(text) = part.strip_prefix("deaf ") {
        connection(alloc, text, usize::MAX, Faults { read: 0, write: 1 })
    } else {
        connection(alloc, part, usize::MAX, Faults { read: 0, write: 0 })
    }
}

// The connections and the answers that come to a desk.
#[derive(Drop)]
struct Coming {
    connections: Vec<CaseConnection>,
    answers: Vec<Blob>,
}

fn push_part(alloc: Global, coming: &mut Coming, part: &str) -> Result<(), NoMemory> {
    if let Some(text) = part.strip_prefix("answer ") {
        let answer = Blob::from_vec(line_bytes(alloc, text)?);
        return Ok(coming.answers.push(answer)?);
    }
    Ok(coming.connections.push(connection_in(alloc, part)?)?)
}

fn coming_in(alloc: Global, parts: &str) -> Result<Coming, NoMemory> {
    let mut coming = Coming {
        connections: Vec::new(alloc),
        answers: Vec::new(alloc),
    };
    for part in parts.split(" > ") {
        if !part.is_empty() {
            push_part(alloc, &mut coming, part)?;
        }
    }
    Ok(coming)
}

/// The clock of a desk.
pub fn clock(alloc: Global) -> MemoryClock {
    MemoryClock::new(Moment::new(1000).unwrap(), Vec::new(alloc))
}

/// The draw of the desk with this number, from 0.
pub fn draw(desk: u8) -> MemoryDraw {
    let mut seed = [0; 24];
    seed[23] = desk;
    MemoryDraw::new(seed)
}

/// The desk of this text, with the draw of this number.
pub fn desk_in(alloc: Global, text: &str, place: u8) -> Result<CaseDesk, NoMemory>
    ensures turns { IfOk result (λ desk. desk.turns ≤ 2 ^ 56) }
    ensures given { IfOk result (λ desk. (⟦<CaseDoor as Door>⟧.state desk.door).given < 2 ^ 63) }
{
    let (head, parts) = text.split_once(" > ").unwrap_or((text, ""));
    let numbers: Vec<&str> = head.split(' ').collect(alloc)?;
    let numbers = numbers.as_slice();
    let Coming {
        connections,
        answers,
    } = coming_in(alloc, parts)?;
    let door = MemoryDoor::new(alloc, connections)?;
    let link = MemoryLink::new(alloc, answers);
    Ok(Desk {
        door: FaultyDoor::new(door, failing(alloc, number(field(numbers, 1)))?),
        tools: Tools {
            link: FaultyLink::new(link, failing(alloc, number(field(numbers, 2)))?),
            clock: clock(alloc),
            draw: draw(place),
        },
        turns: u64::from(number(field(numbers, 0))),
    })
}

fn push_desk(alloc: Global, desks: &mut Vec<CaseDesk>, text: &str) -> Result<(), NoMemory>
    requires desks { All (λ desk. (desk.turns ≤ 2 ^ 56) × ((⟦<CaseDoor as Door>⟧.state desk.door).given < 2 ^ 63)) desks.old.items }
    ensures desks { All (λ desk. (desk.turns ≤ 2 ^ 56) × ((⟦<CaseDoor as Door>⟧.state desk.door).given < 2 ^ 63)) desks.new.items }
{
    let place = u8::try_from(desks.len()).unwrap_or(u8::MAX);
    let desk = desk_in(alloc, text, place)?;
    Ok(desks.push(desk)?)
}

/// The desks of these texts.
pub fn desks_in(alloc: Global, texts: &[&str]) -> Result<Vec<CaseDesk>, NoMemory>
    ensures { IfOk result (λ desks. All (λ desk. (desk.turns ≤ 2 ^ 56) × ((⟦<CaseDoor as Door>⟧.state desk.door).given < 2 ^ 63)) desks.items) }
{
    let mut desks = Vec::new(alloc);
    for text in texts {
        push_desk(alloc, &mut desks, text)?;
    }
    Ok(desks)
}

// ---- printing

/// Adds a name and bytes, in quotes.
pub fn push_bytes(
    alloc: Global,
    out: &mut String,
    name: &str,
    bytes: &[u8],
) -> Result<(), NoMemory> {
    let text = told_quoted(alloc, as_text(bytes))?;
    Ok(push_field(out, name, text.as_str())?)
}

fn push_exchange(alloc: Global, out: &mut String, exchanged: &Exchanged) -> Result<(), NoMemory> {
    let how = match exchanged.back {
        Some(_) => "sent to",
        None => "failed to",
    };
    let name = format!(in alloc; "{how} {} ", exchanged.to.as_str())?;
    push_bytes(alloc, out, name.as_str(), exchanged.asked.as_bytes())
}

/// Adds the messages that were sent over the link of a desk.
pub fn push_sent(alloc: Global, out: &mut String, desk: &CaseDesk) -> Result<(), NoMemory> {
    for exchanged in desk.tools.link.link().exchanges() {
        push_exchange(alloc, out, exchanged)?;
    }
    Ok(())
}

fn push_written(alloc: Global, out: &mut String, desk: &CaseDesk) -> Result<(), NoMemory> {
    for connection in desk.door.door().served() {
        push_bytes(alloc, out, "", connection.sink.bytes())?;
    }
    Ok(())
}

// The address at which its door listens.
fn place_of(desk: &CaseDesk) -> &str {
    let place = desk.door.door().place().as_str();
    if place.is_empty() { "no place" } else { place }
}

/// Adds for each desk the address at which its door listens, the bytes that were written to each served connection, and the
/// messages that were sent over its link.
pub fn push_desks(alloc: Global, out: &mut String, desks: &[CaseDesk]) -> Result<(), NoMemory> {
    for desk in desks {
        push_field(out, "at ", place_of(desk))?;
        push_written(alloc, out, desk)?;
        push_sent(alloc, out, desk)?;
    }
    Ok(())
}
