// Doors and links of this machine, with clients over loopback.

use case_lines::{as_text, push_part, told, told_quoted};
use platform::{Names, TcpDoor, TcpLink};
use server_desk::{Door, Link, LinkNo, Source, read_whole};
use sso_base::{Blob, NoMemory, Text, write_whole};
use std::alloc::{AllocGlobal, Global};
use std::io;
use std::io::{Read, Write};
use std::net::{Net, TcpListener, TcpStream};
use std::thread::{Threads, join, sleep};
use std::time::{Clock, Duration, Instant};

/// The number of seconds that a client waits for a byte.
const WAITING: u64 = 5;

/// The number of milliseconds that a client waits between two pieces.
const BETWEEN: u64 = 200;

// Lets the door listen at the first free one of 64 ports, and returns its address.
fn listen<D: Door>(alloc: Global, door: &mut D) -> Result<Option<Text>, NoMemory> {
    for port in 47_100..47_164u16 {
        let place = Text::from_string(format!(in alloc; "127.0.0.1:{port}")?);
        if door.start(&place).is_ok() {
            return Ok(Some(place));
        }
    }
    Ok(None)
}

// Reads `count` bytes, at most `cut` at a call.
fn read_bytes<S: Source>(
    alloc: Global,
    source: &mut S,
    count: usize,
    cut: usize,
) -> Option<Vec<u8>> {
    let mut bytes = vec![in alloc; 0u8; count].ok()?;
    for part in bytes.chunks_mut(cut.max(1)) {
        if read_whole(source, part).ok()? < part.len() {
            return None;
        }
    }
    Some(bytes)
}

// Takes the next connection, reads a number of bytes, at most `cut` at a call, replies, and gives the connection back. Returns
// the bytes.
fn serve<D: Door>(
    alloc: Global,
    door: &mut D,
    count: usize,
    cut: usize,
    reply: &[u8],
) -> Option<Vec<u8>> {
    let mut connection = door.next().ok()??;
    let bytes = read_bytes(alloc, &mut connection.source, count, cut);
    let written = write_whole(&mut connection.sink, reply);
    door.done(connection);
    written.ok()?;
    bytes
}

// Sends two pieces, with a short wait between them, and returns the bytes that come back.
fn ask<R: Net<Stream = TcpStream> + Clock>(
    rt: &R,
    alloc: Global,
    place: &Text,
    first: &[u8],
    second: &[u8],
) -> Option<Vec<u8>> {
    let mut stream = TcpStream::connect(rt, place.as_str()).ok()?;
    stream
        .set_read_timeout(Some(Duration::from_secs(WAITING)))
        .ok()?;
    stream.write_all(first).ok()?;
    sleep(rt, Duration::from_millis(BETWEEN));
    stream.write_all(second).ok()?;
    let mut back = Vec::new(alloc);
    stream.read_to_end(&mut back).ok()?;
    Some(back)
}

// The bytes, if any came.
fn told_came(alloc: Global, bytes: &Option<Vec<u8>>) -> Result<String, NoMemory> {
    match bytes {
        Some(bytes) => told_quoted(alloc, as_text(bytes.as_slice())),
        None => told(alloc, "nothing"),
    }
}

// The bytes that were read, and those that came back.
fn told_both(
    alloc: Global,
    read: &Option<Vec<u8>>,
    back: &Option<Vec<u8>>,
) -> Result<String, NoMemory> {
    let (read, back) = (told_came(alloc, read)?, told_came(alloc, back)?);
    Ok(format!(in alloc; "{read}, {back}")?)
}

// Serves a client, which sends `hello, world` in two pieces.
fn serve_hello<R>(
    rt: &R,
    alloc: Global,
    door: &mut TcpDoor<'_, R>,
    place: &Text,
    cut: usize,
    reply: &[u8],
) -> Result<String, NoMemory>
where
    R: Threads + Net<Listener = TcpListener, Stream = TcpStream> + Clock + Sync + AllocGlobal,
{
    let (read, back) = join(
        rt,
        || serve(alloc, door, 12, cut, reply),
        || ask(rt, alloc, place, b"hello, ", b"world"),
    );
    told_both(alloc, &read, &back)
}

// The same at this door, and at another one that shares its address.
fn serve_two<R>(
    rt: &R,
    alloc: Global,
    first: &mut TcpDoor<'_, R>,
    place: &Text,
) -> Result<String, NoMemory>
where
    R: Threads + Net<Listener = TcpListener, Stream = TcpStream> + Clock + Sync + AllocGlobal,
{
    let mut out = serve_hello(rt, alloc, first, place, 5, b"first")?;
    let mut second = TcpDoor::new(rt);
    if second.share(first).is_err() {
        return told(alloc, "not shared");
    }
    let told = serve_hello(rt, alloc, &mut second, place, 1, b"second")?;
    push_part(&mut out, " / ", told.as_str())?;
    Ok(out)
}

/// `machine|door`: the results of two doors that share an address, for their clients, and whether a third one can listen there
/// after them.
pub fn door<R>(rt: &R, alloc: Global) -> Result<String, NoMemory>
where
    R: Threads + Net<Listener = TcpListener, Stream = TcpStream> + Clock + Sync + AllocGlobal,
{
    let mut first = TcpDoor::new(rt);
    let Some(place) = listen(alloc, &mut first)? else {
        return told(alloc, "no port is free");
    };
    let told = serve_two(rt, alloc, &mut first, &place)?;
    drop(first);
    let again = TcpDoor::new(rt).start(&place).is_ok();
    Ok(format!(in alloc; "{told} / again {again}")?)
}

/// `machine|unread`: the result for a client whose request is not read whole. It sends all of it before it reads any of the
/// reply.
pub fn unread<R>(rt: &R, alloc: Global) -> Result<String, NoMemory>
where
    R: Threads + Net<Listener = TcpListener, Stream = TcpStream> + Clock + Sync + AllocGlobal,
{
    let request = vec![in alloc; b'a'; 200_000]?;
    let reply = vec![in alloc; b'b'; 500_000]?;
    let mut door = TcpDoor::new(rt);
    let Some(place) = listen(alloc, &mut door)? else {
        return told(alloc, "no port is free");
    };
    let (read, back) = join(
        rt,
        || {
            sleep(rt, Duration::from_millis(BETWEEN / 2));
            serve(alloc, &mut door, 100_000, 1000, reply.as_slice())
        },
        || ask(rt, alloc, &place, request.as_slice(), b""),
    );
    told_both(alloc, &read, &back)
}

/// `machine|large`: the result for a client that begins late to read a reply, which is larger than what the machine takes at once.
pub fn large<R>(rt: &R, alloc: Global) -> Result<String, NoMemory>
where
    R: Threads + Net<Listener = TcpListener, Stream = TcpStream> + Clock + Sync + AllocGlobal,
{
    let reply = vec![in alloc; b'b'; 20_000_000]?;
    let mut door = TcpDoor::new(rt);
    let Some(place) = listen(alloc, &mut door)? else {
        return told(alloc, "no port is free");
    };
    let (read, back) = join(
        rt,
        || serve(alloc, &mut door, 5, 5, reply.as_slice()),
        || ask(rt, alloc, &place, b"asked", b""),
    );
    told_both(alloc, &read, &back)
}

fn told_answer(alloc: Global, answer: &Result<Blob, LinkNo>) -> Result<String, NoMemory> {
    match answer {
        Ok(bytes) => told_quoted(alloc, as_text(bytes.as_bytes())),
        Err(LinkNo::NoMemory) => Err(NoMemory),
        Err(LinkNo::Failed) => told(alloc, "failed"),
    }
}

/// The answer of the link if nobody listens, and how often it has failed before and after.
pub fn told_closed<R>(
    alloc: Global,
    link: &mut TcpLink<'_, R>,
    place: &Text,
) -> Result<String, NoMemory>
where
    R: Net<Stream = TcpStream> + Clock + Sync + AllocGlobal,
{
    let before = link.faults();
    let answer = link.exchange(alloc, place, b"asked", 6);
    let told = told_answer(alloc, &answer)?;
    Ok(format!(in alloc; "{told}, {before} and {} faults", link.faults())?)
}

/// `machine|link`: the bytes that a link sends, six bytes of the answer, and the link's answer once nobody listens.
pub fn link<R>(rt: &R, alloc: Global) -> Result<String, NoMemory>
where
    R: Threads + Net<Listener = TcpListener, Stream = TcpStream> + Clock + Sync + AllocGlobal,
{
    let mut door = TcpDoor::new(rt);
    let Some(place) = listen(alloc, &mut door)? else {
        return told(alloc, "no port is free");
    };
    let mut link = TcpLink::new(rt, Names::new(Blob::new(alloc, b"")?));
    let (read, back) = join(
        rt,
        || serve(alloc, &mut door, 5, 5, b"answered"),
        || link.exchange(alloc, &place, b"asked", 6),
    );
    drop(door);
    let (read, back) = (told_came(alloc, &read)?, told_answer(alloc, &back)?);
    let closed = told_closed(alloc, &mut link, &place)?;
    Ok(format!(in alloc; "{read}, {back} / {closed}")?)
}

/// An answer that is whole by its length.
const WHOLE: &[u8] = b"HTTP/1.1 200 OK\r\nContent-Length: 2\r\n\r\nok";

// Takes the next connection, reads five bytes, writes an answer that is whole, and waits until the client ends. Returns whether it did.
fn serve_open<D: Door>(alloc: Global, door: &mut D) -> bool {
    let Ok(Some(mut connection)) = door.next() else {
        return false;
    };
    let bytes = read_bytes(alloc, &mut connection.source, 5, 5);
    let written = write_whole(&mut connection.sink, WHOLE);
    let mut more = [0u8; 1];
    let ended = matches!(read_whole(&mut connection.source, &mut more), Ok(0));
    door.done(connection);
    bytes.is_some() && written.is_ok() && ended
}

/// `machine|open`: the answer of a link to a server that keeps its connections open after an answer that is whole by its length.
pub fn open<R>(rt: &R, alloc: Global) -> Result<String, NoMemory>
where
    R: Threads + Net<Listener = TcpListener, Stream = TcpStream> + Clock + Sync + AllocGlobal,
{
    let mut door = TcpDoor::new(rt);
    let Some(place) = listen(alloc, &mut door)? else {
        return told(alloc, "no port is free");
    };
    let mut link = TcpLink::new(rt, Names::new(Blob::new(alloc, b"")?));
    let (ended, back) = join(
        rt,
        || serve_open(alloc, &mut door),
        || link.exchange(alloc, &place, b"asked", 4096),
    );
    let back = told_answer(alloc, &back)?;
    let who = if ended {
        "the link ended first"
    } else {
        "the server ended first"
    };
    Ok(format!(in alloc; "{back}, {who}")?)
}

// The same for this address, and whether it took much less time than an exchange may.
fn told_at_once<R>(
    rt: &R,
    alloc: Global,
    link: &mut TcpLink<'_, R>,
    place: &str,
) -> Result<String, NoMemory>
where
    R: Net<Stream = TcpStream> + Clock + Sync + AllocGlobal,
{
    let place = Text::new(alloc, place)?;
    let start = Instant::now(rt);
    let told = told_closed(alloc, link, &place)?;
    let when = if is_soon(rt, &start) {
        "at once"
    } else {
        "late"
    };
    Ok(format!(in alloc; "{}, {when}", told.as_str())?)
}

// Whether this was a moment ago.
fn is_soon<R: Clock>(rt: &R, start: &io::Result<Instant>) -> bool {
    let Ok(start) = start else {
        return false;
    };
    matches!(start.elapsed(rt), Ok(gone) if gone < Duration::from_secs(WAITING))
}

// Whether a client comes to the listener within 20 looks.
fn is_asked<R: Clock>(rt: &R, listener: &TcpListener) -> bool {
    if listener.set_nonblocking(true).is_err() {
        return false;
    }
    for _ in 0..20u32 {
        if listener.accept().is_ok() {
            return true;
        }
        sleep(rt, Duration::from_millis(BETWEEN / 20));
    }
    false
}

fn told_asked(is_asked: bool) -> &'static str {
    if is_asked {
        "a client came"
    } else {
        "nobody came"
    }
}

/// `machine|elsewhere`: the answers of a link for two addresses that are no loopback addresses: one of a network for documentation
/// (RFC 5737), and 0.0.0.0, by which other clients of this machine reach a listener there. Then who came to that listener.
pub fn elsewhere<R>(rt: &R, alloc: Global) -> Result<String, NoMemory>
where
    R: Net<Listener = TcpListener, Stream = TcpStream> + Clock + Sync + AllocGlobal,
{
    let Ok(listener) = TcpListener::bind(rt, "127.0.0.1:0") else {
        return told(alloc, "no port is free");
    };
    let Ok(address) = listener.local_addr() else {
        return told(alloc, "no port");
    };
    let place = format!(in alloc; "0.0.0.0:{}", address.port())?;
    let mut link = TcpLink::new(rt, Names::new(Blob::new(alloc, b"")?));
    let far = told_at_once(rt, alloc, &mut link, "192.0.2.1:80")?;
    let near = told_at_once(rt, alloc, &mut link, place.as_str())?;
    let by_link = told_asked(is_asked(rt, &listener));
    let client = TcpStream::connect(rt, place.as_str());
    let by_client = told_asked(client.is_ok() && is_asked(rt, &listener));
    Ok(format!(in alloc;
        "{} / {}, {by_link} / {by_client}",
        far.as_str(),
        near.as_str()
    )?)
}
