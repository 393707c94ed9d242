//! A TCP listener as a door.

ghost use Rattle.std.specs.Prelude.{◌≡◌, ◌<◌, ◌≤◌};
ghost use Rattle.server_desk.specs.Doors.{with_served};
ghost use Rattle.platform.specs.Doors.{counted};

use crate::connection::{TcpSink, TcpSource, connection_over, finish};
use crate::limit::Limit;
use server_desk::{Connection, Door, DoorFault};
use sso_base::Text;
use std::io::ErrorKind;
use std::net::{Net, TcpListener, TcpStream};
use std::time::{Clock, Duration};
use std::{io, thread};

/// How often it is tried to take the next connection before that is a fault.
const TRIES: u64 = 4_294_967_296;

/// How many milliseconds are waited if descriptors or memory are short.
const SHORTAGE: u64 = 50;

/// How many seconds a request may take in all, from its connection on.
const READING: u64 = 30;

/// How many seconds no byte of it may come.
const SILENCE: u64 = 10;

/// A TCP listener. It does not report where it listens, what comes and what was served.
#[derive(Drop)]
pub struct TcpDoor<'a, R: Net<Listener = TcpListener, Stream = TcpStream> + Clock> {
    rt: &'a R,
    listener: Option<TcpListener>,
    /// Where the next connection reads ahead: the room of the last one that was given back.
    room: Option<Vec<u8>>,
    given: u64,
    out: u64,
    faults: u64,
}

impl<'a, R> TcpDoor<'a, R>
where
    R: Net<Listener = TcpListener, Stream = TcpStream> + Clock + Sync + AllocGlobal,
{
    /// A door that does not listen yet and never failed.
    pub fn new(rt: &'a R) -> TcpDoor<'a, R>
        ensures state { ⟦<TcpDoor<'a, R> as Door>⟧.state result ≡ counted 0 0 }
        ensures faults { ⟦<TcpDoor<'a, R> as Door>⟧.faults result ≡ 0 }
    {
        TcpDoor {
            rt,
            listener: None,
            room: None,
            given: 0,
            out: 0,
            faults: 0,
        }
    }
}

/// Why no connection was taken.
enum NotTaken {
    /// This one failed while it waited: the next one may not.
    Lost,
    /// Descriptors or memory are short.
    Shortage,
    /// The listener is broken.
    Broken,
}

// Linux reports the failures of a connection that waits at the call that takes it (accept(2)). Its numbers are named here
// where they have no `ErrorKind`.
fn not_taken(error: &io::Error) -> NotTaken {
    match error.raw_os_error() {
        // ENOMEM, ENFILE, EMFILE, ENOBUFS
        Some(12 | 23 | 24 | 105) => return NotTaken::Shortage,
        // EPERM (by a firewall), ENONET, EPROTO, ENOPROTOOPT, EOPNOTSUPP, EHOSTDOWN
        Some(1 | 64 | 71 | 92 | 95 | 112) => return NotTaken::Lost,
        _ => {}
    }
    match error.kind() {
        ErrorKind::ConnectionAborted
        | ErrorKind::ConnectionReset
        | ErrorKind::HostUnreachable
        | ErrorKind::Interrupted
        | ErrorKind::NetworkDown
        | ErrorKind::NetworkUnreachable
        | ErrorKind::TimedOut => NotTaken::Lost,
        _ => NotTaken::Broken,
    }
}

// The next connection. `None` if the listener is broken.
fn next_of<'a, R: Clock + AllocGlobal>(
    rt: &'a R,
    listener: &TcpListener,
    room: &mut Option<Vec<u8>>,
) -> Option<Connection<TcpSource<'a, R>, TcpSink<'a, R>>> {
    for _ in 0..TRIES {
        match listener.accept() {
            Ok((stream, _)) => {
                let limit = Limit::start(rt, READING);
                let connection = connection_over(rt, stream, room.take(), limit, SILENCE, None);
                if connection.is_some() {
                    return connection;
                }
            }
            Err(error) => match not_taken(&error) {
                NotTaken::Lost => {}
                NotTaken::Shortage => thread::sleep(rt, Duration::from_millis(SHORTAGE)),
                NotTaken::Broken => return None,
            },
        }
    }
    None
}

impl<'a, R: Net<Listener = TcpListener, Stream = TcpStream> + Clock + Sync + AllocGlobal> Door
    for TcpDoor<'a, R> {
    type Source = TcpSource<'a, R>;

    type Sink = TcpSink<'a, R>;

    ghost state = { λ d. counted d.given d.out };

    ghost closings = { λ _. 0 };

    ghost faults = { λ d. d.faults };

    fn start(&mut self, place: &Text) -> Result<(), DoorFault> {
        match TcpListener::bind(self.rt, place.as_str()) {
            Ok(listener) => {
                self.listener = Some(listener);
                Ok(())
            }
            Err(_) => {
                self.faults = self.faults.saturating_add(1);
                Err(DoorFault)
            }
        }
    }

    fn share(&mut self, first: &Self) -> Result<(), DoorFault> {
        if let Some(listener) = &first.listener
            && let Ok(listener) = listener.try_clone()
        {
            self.listener = Some(listener);
            return Ok(());
        }
        self.faults = self.faults.saturating_add(1);
        Err(DoorFault)
    }

    fn next(&mut self) -> Result<Option<Connection<TcpSource<'a, R>, TcpSink<'a, R>>>, DoorFault> {
        if let Some(listener) = &self.listener
            && let Some(connection) = next_of(self.rt, listener, &mut self.room)
        {
            self.given = self.given.saturating_add(1);
            self.out = self.out.saturating_add(1);
            return Ok(Some(connection));
        }
        self.faults = self.faults.saturating_add(1);
        Err(DoorFault)
    }

    fn done(&mut self, connection: Connection<TcpSource<'a, R>, TcpSink<'a, R>>)
        requires out { 0 < self.old.out }
        ensures served { counted self.new.given self.new.out ≡ with_served (counted self.old.given self.old.out) connection.entry }
        // It is never closed.
        ensures later { 0 ≤ 0 }
        ensures faults { self.old.faults ≤ self.new.faults }
    {
        self.out = self.out.saturating_sub(1);
        self.room = Some(finish(connection));
    }
}
