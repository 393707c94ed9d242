// A door with a login, and then the callback to which its reply leads.

ghost use Rattle.std.specs.Prelude.{◌≡◌, ◌<◌, ◌≤◌, IfOk};
ghost use Rattle.server_desk.specs.Doors.{with_served};
ghost use Rattle.platform.specs.Doors.{counted};

use case_lines::as_text;
use server_desk::{Connection, Door, DoorFault, MemorySource};
use sso_base::{MemorySink, NoMemory, Text};
use std::alloc::Global;

/// A door that gives a login, then its callback with the code `x`, and then is closed. It does not report its future
/// connections and those that were served.
#[derive(Drop)]
pub struct LoginDoor {
    alloc: Global,
    coming: Option<Connection<MemorySource, MemorySink>>,
    // The bytes that were written to the last connection that was given back.
    reply: Option<MemorySink>,
    given: u64,
    out: u64,
    closings: u64,
}

// A connection with these bytes.
fn connection(
    alloc: Global,
    bytes: &[u8],
) -> Result<Connection<MemorySource, MemorySink>, NoMemory> {
    Ok(Connection {
        source: MemorySource::new(Vec::from_slice(alloc, bytes)?),
        sink: MemorySink::new(alloc),
    })
}

// The text between two marks.
fn between<'a>(text: &'a str, before: &str, after: &str) -> Option<&'a str> {
    let (_, rest) = text.split_once(before)?;
    let (found, _) = rest.split_once(after)?;
    Some(found)
}

// The callback of a login with this reply, with the state of its location and its cookie. `None` if it lacks one of these, or
// memory runs out.
fn callback(alloc: Global, reply: &str) -> Option<Connection<MemorySource, MemorySink>> {
    let state = between(reply, "&state=", "&")?;
    let cookie = between(reply, "Set-Cookie: ", ";")?;
    let target = format!(in alloc; "/cb?code=x&state={state}").ok()?;
    let request = format!(in alloc;
        "GET {} HTTP/1.1\r\nCookie: {cookie}\r\n\r\n",
        target.as_str()
    )
    .ok()?;
    connection(alloc, request.as_bytes()).ok()
}

impl LoginDoor {
    /// A door that has given nothing yet.
    pub fn new(alloc: Global) -> Result<LoginDoor, NoMemory>
        ensures { IfOk result (λ door. ⟦<LoginDoor as Door>⟧.state door ≡ counted 0 0) }
    {
        Ok(LoginDoor {
            alloc,
            coming: Some(connection(alloc, b"GET /login HTTP/1.1\r\n\r\n")?),
            reply: None,
            given: 0,
            out: 0,
            closings: 0,
        })
    }

    /// The bytes that were written to the last connection that was given back.
    pub fn reply(&self) -> &[u8] {
        match &self.reply {
            Some(sink) => sink.bytes(),
            None => &[],
        }
    }
}

impl Door for LoginDoor {
    type Source = MemorySource;

    type Sink = MemorySink;

    ghost state = { λ d. counted d.given d.out };

    ghost closings = { λ d. d.closings };

    ghost faults = { λ _. 0 };

    fn start(&mut self, _place: &Text) -> Result<(), DoorFault> {
        Ok(())
    }

    fn share(&mut self, _first: &LoginDoor) -> Result<(), DoorFault> {
        Ok(())
    }

    fn next(&mut self) -> Result<Option<Connection<MemorySource, MemorySink>>, DoorFault> {
        let Some(connection) = self.coming.take() else {
            self.closings = self.closings.saturating_add(1);
            return Ok(None);
        };
        self.given = self.given.saturating_add(1);
        self.out = self.out.saturating_add(1);
        Ok(Some(connection))
    }

    fn done(&mut self, connection: Connection<MemorySource, MemorySink>)
        requires out { 0 < self.old.out }
        ensures served { counted self.new.given self.new.out ≡ with_served (counted self.old.given self.old.out) connection }
        ensures later { self.old.closings ≤ self.new.closings }
        ensures faults { 0 ≤ 0 }
    {
        self.out = self.out.saturating_sub(1);
        let Connection { sink, .. } = connection;
        if self.reply.is_none() {
            self.coming = callback(self.alloc, as_text(sink.bytes()));
        }
        self.reply = Some(sink);
    }
}
