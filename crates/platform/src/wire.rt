//! Bytes over a TCP stream, within limits in time.

ghost use Rattle.std.specs.Prelude.{◌≡◌, ◌≤◌, ◌*◌, length, IsTrue, Some, IfSome, IsSomeAnd, OnSome};
ghost use Rattle.std.specs.Duration.{as_nanos};

use crate::limit::Limit;
use std::io;
use std::io::{ErrorKind, Read, Write};
use std::net::{Shutdown, TcpStream};
use std::sync::atomic::{AtomicBool, Ordering};
use std::time::{Clock, Duration};

/// How many reads or writes in a row may be interrupted before that is a fault.
const PATIENCE: u64 = 4_294_967_296;

/// A TCP stream that a source and a sink share.
#[derive(Drop)]
pub struct Wire {
    stream: TcpStream,
    /// Whether a read or a write that can't be done at once waits. It does at first.
    waits: AtomicBool,
}

// Whether a read waits for exactly this long, by what was set last.
fn is_set(last: Option<Duration>, left: Duration) -> bool
    ensures { IsTrue result → IsSomeAnd last (λ longest. as_nanos longest ≡ as_nanos left) }
{
    match last {
        Some(longest) => longest.as_nanos() == left.as_nanos(),
        None => false,
    }
}

impl Wire {
    /// A wire over this stream, which must be a new one.
    pub fn new(stream: TcpStream) -> Wire {
        Wire {
            stream,
            waits: AtomicBool::new(true),
        }
    }

    /// From now on, a read or a write that can't be done at once waits, or it fails. If that is set already, the system is not
    /// called.
    pub fn set_waits(&self, waits: bool) -> io::Result<()> {
        if self.waits.load(Ordering::SeqCst) != waits {
            self.stream.set_nonblocking(!waits)?;
            self.waits.store(waits, Ordering::SeqCst);
        }
        Ok(())
    }

    // From now on, a read waits for this long at most. If that is set already, the system is not called. `None` if the stream
    // fails.
    fn set_reading(&self, left: Duration, last: &mut Option<Duration>) -> Option<()>
        ensures { OnSome result (last.new ≡ Some left) }
    {
        if !is_set(*last, left) {
            self.stream.set_read_timeout(Some(left)).ok()?;
        }
        *last = Some(left);
        Some(())
    }

    /// Reads once, and again after each interrupted read. It waits within the limit, and no longer than so many seconds. `last` is
    /// how long a read waits, as it was set last, and as it is set now. `None` if the stream fails or time is up.
    pub fn receive<C: Clock>(
        &self,
        clock: &C,
        room: &mut [u8],
        limit: &Limit,
        seconds: u64,
        last: &mut Option<Duration>,
    ) -> Option<usize>
        ensures length { length room.new ≡ length room.old }
        ensures bound { IfSome result (λ count. count ≤ length room.new) }
        ensures waited { OnSome result (IsSomeAnd last.new (λ longest. as_nanos longest ≤ seconds * 1_000_000_000)) }
    {
        self.set_waits(true).ok()?;
        let mut stream = &self.stream;
        for _ in 0..PATIENCE {
            let left = limit.left(clock, seconds)?;
            self.set_reading(left, last)?;
            match stream.read(room) {
                Ok(count) => return Some(count),
                Err(error) if error.kind() == ErrorKind::Interrupted => {}
                Err(_) => return None,
            }
        }
        None
    }

    // From now on, a write that waits does so for this long at most.
    fn set_writing(&self, left: Duration) -> io::Result<()> {
        if self.waits.load(Ordering::SeqCst) {
            self.stream.set_write_timeout(Some(left))?;
        }
        Ok(())
    }

    // Whether a write that failed is made again: if it was interrupted, or if it could not be done at once and did not wait, as it
    // does from now on.
    fn goes_on(&self, why: ErrorKind) -> bool {
        match why {
            ErrorKind::Interrupted => true,
            ErrorKind::WouldBlock => {
                !self.waits.load(Ordering::SeqCst) && self.set_waits(true).is_ok()
            }
            _ => false,
        }
    }

    /// Writes once, and again after each interrupted write, and if it has to wait after all. It waits within the limit. `None` if
    /// the stream fails or time is up.
    pub fn send<C: Clock>(&self, clock: &C, piece: &[u8], limit: &Limit) -> Option<usize>
        ensures { IfSome result (λ count. count ≤ length piece.now) }
    {
        let mut stream = &self.stream;
        for _ in 0..PATIENCE {
            let left = limit.left(clock, u64::MAX)?;
            self.set_writing(left).ok()?;
            match stream.write(piece) {
                Ok(count) => return Some(count),
                Err(error) => {
                    if !self.goes_on(error.kind()) {
                        return None;
                    }
                }
            }
        }
        None
    }

    /// Whether there are bytes that were not read. It does not wait.
    pub fn is_behind(&self) -> bool {
        let mut byte = [0u8; 1];
        self.set_waits(false).is_ok() && matches!(self.stream.peek(&mut byte), Ok(1))
    }

    /// Ends what is written.
    pub fn end(&self) -> io::Result<()> {
        self.stream.shutdown(Shutdown::Write)
    }
}
