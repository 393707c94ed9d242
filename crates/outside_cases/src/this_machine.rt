// The parts of this machine.

use crate::loopback;
use case_lines::told;
use platform::{RandomDraw, SystemClock};
use server_desk::{Clock, Draw};
use sso_base::NoMemory;
use std::alloc::{AllocGlobal, Global};
use std::net::{Net, TcpListener, TcpStream};
use std::random::RandomSource;
use std::thread::Threads;
use std::time;

/// The first second of 2021.
const RECENT: u64 = 1_609_459_200;

// `machine|clock`: whether the clock shows 2021 or later.
fn clock<R: time::Clock + Sync>(rt: &R, alloc: Global) -> Result<String, NoMemory> {
    let now = SystemClock::new(rt).now().seconds();
    told(alloc, if now >= RECENT { "recent" } else { "long ago" })
}

// `machine|draw`: whether two random words differ.
fn draw<R: RandomSource>(rt: &R, alloc: Global) -> Result<String, NoMemory> {
    let Ok(mut draw) = RandomDraw::new(rt) else {
        return told(alloc, "no random bytes");
    };
    let (one, other) = (draw.word(), draw.word());
    told(
        alloc,
        if one != other {
            "two words"
        } else {
            "one word"
        },
    )
}

/// `machine|CALL`: a part of this machine.
pub fn answer<R>(rt: &R, alloc: Global, call: &str) -> Result<String, NoMemory>
where
    R: Threads + Net<Listener = TcpListener, Stream = TcpStream>,
    R: time::Clock + RandomSource + Sync + AllocGlobal,
{
    match call {
        "clock" => clock(rt, alloc),
        "draw" => draw(rt, alloc),
        "door" => loopback::door(rt, alloc),
        "unread" => loopback::unread(rt, alloc),
        "large" => loopback::large(rt, alloc),
        "link" => loopback::link(rt, alloc),
        "open" => loopback::open(rt, alloc),
        "elsewhere" => loopback::elsewhere(rt, alloc),
        _ => told(alloc, "no such call"),
    }
}
