//! Cases of what lies around the servers, each a line that a person can read: how requests are read, how replies and messages are written,
//! the answers of other servers, and sinks and shelves in memory. Then those of this machine: a writer, the words of a process, addresses,
//! the clock, random words, a door and a link over loopback.
//!
//! The file `stdin` has the cases, and `stdout` has them with their answers. The crate `case_lines` documents how a line is
//! read. The comments in the table name the source of the expected answers. In the bytes of a request or of an answer, `\r` and
//! `\n` are the two bytes of a line end, and the same is true in printed quotes.
//!
//! | Call | Answer |
//! |---|---|
//! | `writer|CALL` | the bytes that a writer takes as a sink, if its call CALL fails |
//! | `words|NAME|WORD|..` | the words of a process |
//! | `clock|STEADY WALL|..` | what the clock shows at these readings of the steady clock and the wall clock |
//! | `names|HOST|LINE / LINE` | the addresses of a name, if the file of hosts has these lines |
//! | `tries|ADDRESS|..` | to which of these addresses a link tries to connect, over a network in memory |
//! | `machine|CALL` | the answers of the clock, the random words, a door or a link of this machine |
//!
//! | Module | What it has |
//! |---|---|
//! | `sources` | sources that give few bytes at a call, and fail at some calls |
//! | `requests` | the calls `ask`, `cut`, `fronts` and `fault`: a request is read |
//! | `replies` | the calls `reply`, `refusal` and `message`: a reply or a message is written |
//! | `peers` | the call `peer`: the answer of another server is read |
//! | `outside` | the calls `write` and `fetch`: sinks and shelves in memory, some of whose calls fail |
//! | `process` | the calls `writer` and `words` |
//! | `hands` | the call `clock`: a clock over two clocks that are set by hand |
//! | `network` | the calls `names` and `tries`: the names of a file of hosts, and a link over a network in memory |
//! | `this_machine`, `loopback` | the call `machine` |
#![tactic(auto)]

mod hands;
mod loopback;
mod network;
mod outside;
mod peers;
mod process;
mod replies;
mod requests;
mod sources;
mod this_machine;

use case_lines::{Cases, print_lines, told, written_out};
use sso_base::NoMemory;
use std::alloc::{AllocGlobal, Global};
use std::io;
use std::net::{Net, TcpListener, TcpStream};
use std::random::RandomSource;
use std::thread::Threads;
use std::time::Clock;

// The answer to a call on HTTP, or on a sink or a shelf in memory.
fn answer_http(alloc: Global, fields: &[&str]) -> Result<String, NoMemory> {
    match fields {
        ["ask", bytes] => requests::ask(alloc, bytes),
        ["cut", most, bytes] => requests::cut(alloc, most, bytes),
        ["fronts", bytes] => requests::fronts(alloc, bytes),
        ["fault", call, bytes] => requests::fault(alloc, call, bytes),
        ["reply", ..] => replies::reply(alloc, fields),
        ["refusal", name] => replies::refusal(alloc, name),
        ["message", to, auth, body] => replies::message(alloc, to, auth, body),
        ["peer", bytes] => peers::peer(alloc, bytes),
        ["write", most, failing, pieces] => outside::write(alloc, most, failing, pieces),
        ["fetch", failing, names, most] => outside::fetch(alloc, failing, names, most),
        _ => told(alloc, "no call"),
    }
}

#[derive(Drop)]
struct OutsideCases {}

impl Cases for OutsideCases {
    fn answer(&mut self, alloc: Global, fields: &[&str]) -> Result<String, NoMemory> {
        match fields {
            ["writer", call] => process::writer(alloc, call),
            ["words", words @ ..] => process::words(alloc, words),
            ["clock", readings @ ..] => hands::shows(alloc, readings),
            ["names", host, lines] => network::names(alloc, host, lines),
            ["tries", addresses @ ..] => network::tries(alloc, addresses),
            _ => answer_http(alloc, fields),
        }
    }

    fn text(&self, name: &str) -> Option<&str> {
        match name {
            "form" => Some("Content-Type: application/x-www-form-urlencoded"),
            _ => None,
        }
    }
}

// The answer to a line. The calls that need the machine are answered here, and the others by the table.
fn answer<R>(
    rt: &R,
    alloc: Global,
    cases: &mut OutsideCases,
    line: &str,
) -> Result<String, NoMemory>
where
    R: Threads + Net<Listener = TcpListener, Stream = TcpStream>,
    R: Clock + RandomSource + Sync + AllocGlobal,
{
    let whole = written_out(alloc, cases, line)?;
    let fields: Vec<&str> = whole.as_str().split('|').collect(alloc)?;
    match fields.as_slice() {
        ["machine", call] => this_machine::answer(rt, alloc, call),
        fields => cases.answer(alloc, fields),
    }
}

fn main(rt: HostRuntime) -> io::Result<()> {
    let mut cases = OutsideCases {};
    print_lines(&rt, |line| answer(&rt, rt.alloc(), &mut cases, line))
}
