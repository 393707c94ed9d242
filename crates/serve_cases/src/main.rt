//! Cases of the servers and of the top call, each a line that a person can read: connections that are served at desks in
//! memory, what is written to them, what is sent over the links, and how it ends.
//!
//! The file `stdin` has the cases, and `stdout` has them with their answers. The crate `case_lines` documents how a line is
//! read. The comments in the table name the source of the expected answers. `desks` documents how a desk is written. `$sample$`
//! is a configuration with all roles, `$form$` the field of a request that has a form, and `$header$` the first line of a
//! trace, `$feed$` a line feed. `$provider$` and `$alice$` are parts of other configurations.
//!
//! | Call | Answer |
//! |---|---|
//! | `file|NAME|BYTES`, `lines|NAME|LINES` | from now on, the file with this name has these bytes, or these lines, which are separated by `/` |
//! | `ends|DESK` | how each connection of one desk is served, by one worker |
//! | `busy|DESK` | the same while another worker proves a password |
//! | `reads|BYTES` | how many reads a request has, any of which ends its connection if it fails, and how it is served if none does |
//! | `work|DESK` | how one worker ends at one desk |
//! | `serve|DESK|..` | the summary of the server, and each desk |
//! | `calls|MORE|..` | a store's answers to these requests of one pass, each `REPLY at PLACE`, `full at WEIGHT` or `no memory`, and its places at the end |
//! | `often|stored|COUNT`, `often|lasting|COUNT` | so many calls of a store by one pass: the entries, the stored places, and the next reply |
//! | `two threads` | the result of 2,000 calls of a store by two threads at the same time |
//! | `sso|SHELF|SINK|WORDS|DESK|..` | the exit status for the words, the text, and each desk |
//! | `sso|SHELF|SINK|WORDS|two logins` or `two keys` | the same for two desks that wait for each other |
//! | `sso|SHELF|SINK|WORDS|late|DESK` | the same for a desk at which connections take nothing before calls of its link |
//! | `this machine` | the exit status and the text of `op` at a desk over this machine, and its reply to a client that requests the keys |
//! | `last|SHELF|SINK|WORDS` | the exit status for the words with no desk, how many lines the text has, and the last of them |
//!
//! `ends`, `busy`, `work` and `serve` use their own role, whose core is full after one request, and for which each POST proves a
//! password. `calls`, `often` and `two threads` use only that core, which replies with the number of the entries before. In
//! `often|lasting` its history lasts. The top call serves the provider and the parties. SHELF and SINK are the numbers of the failing
//! calls, and 0 is none. A sink `slow CALL` takes one byte at a call.
//!
//! | Module | What it has |
//! |---|---|
//! | `desks` | desks in memory: reads them from a field, and prints them |
//! | `tick`, `tally`, `tally_role` | the core that counts its requests, and the role over it |
//! | `passes`, `one_pass`, `two_passes`, `often` | the calls `calls`, `two threads` and `often`: a store over that core |
//! | `workers` | the calls `ends`, `busy`, `reads` and `work`: one worker over its own store |
//! | `servers` | the call `serve` |
//! | `files`, `top` | the calls `file`, `lines`, `sso` and `last` |
//! | `meeting`, `login_door`, `two` | desks that wait for each other |
//! | `late` | a desk at which connections take nothing before calls of its link |
//! | `this_machine` | the call `this machine` |
#![tactic(auto)]

mod desks;
mod files;
mod late;
mod login_door;
mod meeting;
mod often;
mod one_pass;
mod passes;
mod servers;
mod tally;
mod tally_role;
mod this_machine;
mod tick;
mod top;
mod two;
mod two_passes;
mod workers;

use case_lines::{Cases, number, print_lines, told, written_out};
use sample_configuration::{ALICE, PROVIDER, sample};
use sso_base::{File, NoMemory, Text};
use std::alloc::{AllocGlobal, Global};
use std::io;
use std::net::{Net, TcpListener, TcpStream};
use std::random::RandomSource;
use std::sync::Wait;
use std::thread::Threads;
use std::time::Clock;

#[derive(Drop)]
struct ServeCases {
    files: Vec<File>,
}

impl Cases for ServeCases {
    fn answer(&mut self, alloc: Global, fields: &[&str]) -> Result<String, NoMemory> {
        match fields {
            ["file", name, bytes] => files::put_bytes(alloc, &mut self.files, name, bytes),
            ["lines", name, lines] => files::put_lines(alloc, &mut self.files, name, lines),
            _ => told(alloc, "no such call"),
        }
    }

    fn text(&self, name: &str) -> Option<&str> {
        match name {
            "form" => Some("Content-Type: application/x-www-form-urlencoded"),
            "feed" => Some("\n"),
            "header" => Some("sso-trace 1 000102030405060708090a0b0c0d0e0f1011121314151617"),
            "provider" => Some(PROVIDER),
            "alice" => Some(ALICE),
            _ => None,
        }
    }

    fn made(&self, alloc: Global, name: &str) -> Result<Option<Text>, NoMemory> {
        match name {
            "sample" => Ok(Some(Text::from_string(sample(alloc)?))),
            _ => Ok(None),
        }
    }
}

// The answer to a line. The calls that need threads are answered here, and the others by the table.
fn answer<R>(rt: &R, alloc: Global, cases: &mut ServeCases, line: &str) -> Result<String, NoMemory>
where
    R: Threads + Wait + Net<Listener = TcpListener, Stream = TcpStream>,
    R: Clock + RandomSource + Sync + AllocGlobal,
{
    let whole = written_out(alloc, cases, line)?;
    let fields: Vec<&str> = whole.as_str().split('|').collect(alloc)?;
    match fields.as_slice() {
        ["sso", shelf, sink, words, desks @ ..] => {
            let call = top::Call { shelf, sink, words };
            top::answer(rt, alloc, cases.files.as_slice(), &call, desks)
        }
        ["last", shelf, sink, words] => {
            let call = top::Call { shelf, sink, words };
            top::last(rt, alloc, cases.files.as_slice(), &call)
        }
        [call @ ("ends" | "busy" | "work"), desk] => workers::answer(rt, alloc, call, desk),
        ["reads", bytes] => workers::reads(rt, alloc, bytes),
        ["serve", desks @ ..] => servers::answer(rt, alloc, desks),
        ["calls", asks @ ..] => one_pass::answer(rt, alloc, asks),
        ["often", "stored", times] => often::answer(rt, alloc, false, number(times)),
        ["often", "lasting", times] => often::answer(rt, alloc, true, number(times)),
        ["two threads"] => two_passes::answer(rt, alloc),
        ["this machine"] => this_machine::answer(rt, alloc),
        fields => cases.answer(alloc, fields),
    }
}

fn main(rt: HostRuntime) -> io::Result<()> {
    let mut cases = ServeCases {
        files: Vec::new(rt.alloc()),
    };
    print_lines(&rt, |line| answer(&rt, rt.alloc(), &mut cases, line))
}
