// The top call at a desk over this machine, which a client asks over loopback.

use crate::files::put_bytes;
use crate::top::{Call, run};
use case_lines::{as_text, told, told_quoted};
use platform::{Names, RandomDraw, SystemClock, TcpDoor, TcpLink};
use server_desk::{Desk, Tools};
use sso_base::{Blob, NoMemory, Text};
use std::alloc::{AllocGlobal, Global};
use std::io::{Read, Write};
use std::net::{Net, TcpListener, TcpStream};
use std::random::RandomSource;
use std::sync::Wait;
use std::thread::{Threads, join, sleep};
use std::time::{Clock, Duration};

// An address of this machine at which nobody listens.
fn free_place<N: Net<Listener = TcpListener, Stream = TcpStream>>(
    net: &N,
    alloc: Global,
) -> Result<Option<Text>, NoMemory> {
    let Ok(listener) = TcpListener::bind(net, "127.0.0.1:0") else {
        return Ok(None);
    };
    let Ok(address) = listener.local_addr() else {
        return Ok(None);
    };
    let place = format!(in alloc; "127.0.0.1:{}", address.port())?;
    Ok(Some(Text::from_string(place)))
}

// The exit status and the text of a provider at this address, which serves one connection.
fn run_provider<R>(rt: &R, alloc: Global, place: &str) -> Result<String, NoMemory>
where
    R: Threads + Wait + Net<Listener = TcpListener, Stream = TcpStream>,
    R: Clock + RandomSource + Sync + AllocGlobal,
{
    let config = format!(in alloc;
        "version = 1\n[provider]\nissuer = \"http://{place}\"\nlisten = \"{place}\"\nsalt = \"00112233445566778899aabbccddeeff\"\n"
    )?;
    let mut files = Vec::new(alloc);
    put_bytes(alloc, &mut files, "config", config.as_str())?;
    // (it has no clients, so it sends nothing and looks no name up)
    let names = Names::new(Blob::new(alloc, b"")?);
    let Ok(draw) = RandomDraw::new(rt) else {
        return told(alloc, "no random bytes");
    };
    let tools = Tools {
        link: TcpLink::new(rt, names),
        clock: SystemClock::new(rt),
        draw,
    };
    let mut desks = vec![in alloc;
        Desk {
            door: TcpDoor::new(rt),
            tools,
            turns: 1
        },
    ]?;
    let call = Call {
        shelf: "0",
        sink: "0",
        words: "op config",
    };
    run(rt, alloc, files.as_slice(), &call, &mut desks)
}

// The reply to a request for the keys, which is sent as soon as somebody listens at this address. The client tries for ten seconds.
fn ask_keys<R: Net<Stream = TcpStream> + Clock>(
    rt: &R,
    alloc: Global,
    place: &str,
) -> Option<Vec<u8>> {
    let mut tried = TcpStream::connect(rt, place);
    for _ in 0..500 {
        if tried.is_ok() {
            break;
        }
        sleep(rt, Duration::from_millis(20));
        tried = TcpStream::connect(rt, place);
    }
    let mut stream = tried.ok()?;
    stream.set_read_timeout(Some(Duration::from_secs(5))).ok()?;
    stream
        .write_all(b"GET /jwks HTTP/1.1\r\nHost: a\r\n\r\n")
        .ok()?;
    let mut back = Vec::new(alloc);
    stream.read_to_end(&mut back).ok()?;
    Some(back)
}

/// `this machine`: the exit status and the text of `op` at a desk over this machine with one turn, and its reply to a client that
/// requests the keys.
pub fn answer<R>(rt: &R, alloc: Global) -> Result<String, NoMemory>
where
    R: Threads + Wait + Net<Listener = TcpListener, Stream = TcpStream>,
    R: Clock + RandomSource + Sync + AllocGlobal,
{
    let Some(place) = free_place(rt, alloc)? else {
        return told(alloc, "no port is free");
    };
    let (ended, back) = join(
        rt,
        || run_provider(rt, alloc, place.as_str()),
        || ask_keys(rt, alloc, place.as_str()),
    );
    let (ended, back) = (ended?, back.unwrap_or(Vec::new(alloc)));
    let back = told_quoted(alloc, as_text(back.as_slice()))?;
    Ok(format!(in alloc; "{} / {}", ended.as_str(), back.as_str())?)
}
