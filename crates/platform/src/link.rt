//! TCP as a link, to this machine alone.

ghost use Rattle.std.specs.Prelude.{◌≡◌, ◌↔◌, ◌+◌, ◌≤◌, IsTrue, IfSome, length};
ghost use Rattle.platform.specs.Addresses.{IsLoopback};
ghost use Rattle.server_desk.specs.Links.{untold_link};

use crate::connection::connection_over;
use crate::limit::Limit;
use crate::names::Names;
use server_desk::{Link, LinkNo, Source};
use sso_base::{Blob, NoMemory, Text, write_whole};
use sso_http::is_whole;
use std::alloc::Global;
use std::net::{Net, SocketAddr, TcpStream};
use std::time::{Clock, Duration};

/// How many seconds an exchange may take in all.
const EXCHANGE: u64 = 10;

/// TCP connections, one for each exchange, to loopback addresses only: messages are not encrypted, and may contain a client's
/// secret. A place is an address, or a name that this machine knows by itself. An answer ends as its `Content-Length` says, or else with
/// its connection. The link's ghost contents do not include what was exchanged.
#[derive(Drop)]
pub struct TcpLink<'a, R: Net<Stream = TcpStream> + Clock> {
    rt: &'a R,
    names: Names,
    calls: u64,
    faults: u64,
}

impl<'a, R: Net<Stream = TcpStream> + Clock + Sync + AllocGlobal> TcpLink<'a, R> {
    /// A link that was not called yet, and that knows these names.
    pub fn new(rt: &'a R, names: Names) -> TcpLink<'a, R>
        ensures { ⟦<TcpLink<'a, R> as Link>⟧.state result ≡ untold_link 0 0 }
    {
        TcpLink {
            rt,
            names,
            calls: 0,
            faults: 0,
        }
    }

    /// How often it has failed.
    pub fn faults(&self) -> u64
        ensures { result ≡ (⟦<TcpLink<'a, R> as Link>⟧.state self.now).faults }
    {
        self.faults
    }
}

// Whether this is a loopback address.
fn is_loopback(address: &SocketAddr) -> bool
    ensures { IsTrue result ↔ IsLoopback address.now }
{
    address.ip().is_loopback()
}

// A stream to this address, if it accepts one in this time. No other function here connects.
fn connect_to<R: Net<Stream = TcpStream>>(
    rt: &R,
    address: &SocketAddr,
    left: Duration,
) -> Option<TcpStream>
    requires { IsLoopback address.now }
{
    TcpStream::connect_timeout(rt, address, left).ok()
}

// The addresses of a place, `HOST:PORT`; none if it is not one.
fn addresses_of(alloc: Global, names: &Names, to: &str) -> Result<Vec<SocketAddr>, NoMemory> {
    let mut found = Vec::new(alloc);
    if let Ok(address) = to.parse::<SocketAddr>() {
        found.push(address)?;
        return Ok(found);
    }
    let Some((host, port)) = to.rsplit_once(':') else {
        return Ok(found);
    };
    let Ok(port) = port.parse::<u16>() else {
        return Ok(found);
    };
    let known = names.addresses(alloc, host)?;
    for ip in known.as_slice() {
        found.push(SocketAddr::new(*ip, port))?;
    }
    Ok(found)
}

// A stream to the first loopback address of this place that accepts one. Other addresses are skipped.
fn connect<R: Net<Stream = TcpStream> + Clock + AllocGlobal>(
    rt: &R,
    names: &Names,
    to: &str,
    limit: &Limit,
) -> Option<TcpStream> {
    let addresses = addresses_of(rt.alloc(), names, to).ok()?;
    for address in addresses.as_slice() {
        if !is_loopback(address) {
            continue;
        }
        let left = limit.left(rt, EXCHANGE)?;
        if let Some(stream) = connect_to(rt, address, left) {
            return Some(stream);
        }
    }
    None
}

// Writes the next bytes after the first `done` of the room, and answers how many these are. None is a fault.
fn read_behind<S: Source>(source: &mut S, room: &mut [u8], done: usize) -> Option<usize>
    requires { done ≤ length room.old }
    ensures length { length room.new ≡ length room.old }
    ensures bound { IfSome result (λ count. done + count ≤ length room.new) }
{
    source.read_some(&mut room[done..]).ok()
}

// Writes an answer to the front of the room, and answers how many bytes it has. It ends as its length says, with the stream, or with
// the room. None is a fault.
fn read_answer<S: Source>(alloc: Global, source: &mut S, room: &mut [u8]) -> Option<usize>
    ensures length { length room.new ≡ length room.old }
    ensures bound { IfSome result (λ count. count ≤ length room.new) }
{
    let mut done = 0;
    while done < room.len() {
        let count = read_behind(source, room, done)?;
        if count == 0 {
            return Some(done);
        }
        done += count;
        // Without memory to look, it is read on.
        if is_whole(alloc, &room[..done]).unwrap_or(false) {
            return Some(done);
        }
    }
    Some(done)
}

// Sends the bytes, writes what comes back to the front of the room, and answers how many bytes these are. None is a fault.
fn exchange_within<R: Net<Stream = TcpStream> + Clock + AllocGlobal>(
    rt: &R,
    names: &Names,
    to: &str,
    asked: &[u8],
    room: &mut [u8],
) -> Option<usize>
    ensures length { length room.new ≡ length room.old }
    ensures bound { IfSome result (λ count. count ≤ length room.new) }
{
    let limit = Limit::start(rt, EXCHANGE)?;
    let stream = connect(rt, names, to, &limit)?;
    // Nothing ends the message, so its last bytes are not to wait until the first ones have arrived.
    stream.set_nodelay(true).ok()?;
    let mut connection = connection_over(rt, stream, None, Some(limit), EXCHANGE, Some(limit))?;
    write_whole(&mut connection.sink, asked).ok()?;
    read_answer(rt.alloc(), &mut connection.source, room)
}

impl<'a, R: Net<Stream = TcpStream> + Clock + Sync + AllocGlobal> Link for TcpLink<'a, R> {
    ghost state = { λ l. untold_link l.calls l.faults };

    fn exchange(
        &mut self,
        alloc: Global,
        to: &Text,
        asked: &[u8],
        most: usize,
    ) -> Result<Blob, LinkNo> {
        self.calls = self.calls.saturating_add(1);
        let Ok(mut back) = vec![in alloc; 0u8; most] else {
            return Err(LinkNo::NoMemory);
        };
        match exchange_within(
            self.rt,
            &self.names,
            to.as_str(),
            asked,
            back.as_mut_slice(),
        ) {
            Some(count) => {
                back.truncate(count);
                Ok(Blob::from_vec(back))
            }
            None => {
                self.faults = self.faults.saturating_add(1);
                Err(LinkNo::Failed)
            }
        }
    }
}
