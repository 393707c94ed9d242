// The call `sso`: the top call over files, an output and desks in memory.

ghost use Rattle.std.specs.Prelude.{◌≤◌, ◌<◌, ◌^◌, length};
ghost use Rattle.std.specs.List.{All};

use crate::desks::{CaseDesk, desks_in, failing, push_desks};
use crate::files::shelf_of;
use crate::{late, two};
use case_lines::{SlowSink, as_text, number, told, told_quoted};
use server_desk::{Clock, Desk, Door, Draw, Link};
use sso::sso;
use sso_base::{FaultyShelf, FaultySink, File, NoMemory, Text};
use std::alloc::Global;
use std::sync::Wait;
use std::thread::Threads;

/// The numbers of the failing calls of the shelf and of the sink, and the words. A sink `slow CALL` takes one byte at
/// a call.
#[derive(Drop)]
pub struct Call<'a> {
    pub shelf: &'a str,
    pub sink: &'a str,
    pub words: &'a str,
}

// The words of a field, separated by spaces.
fn words_in(alloc: Global, field: &str) -> Result<Vec<Text>, NoMemory> {
    let mut words = Vec::new(alloc);
    for word in field.split_whitespace() {
        words.push(Text::new(alloc, word)?)?;
    }
    Ok(words)
}

// The exit status for these words.
fn status_of<R: Threads + Wait + Sync, D: Door, L: Link, C: Clock, W: Draw>(
    rt: &R,
    alloc: Global,
    words: &[Text],
    shelf: &mut FaultyShelf,
    out: &mut SlowSink,
    desks: &mut Vec<Desk<D, L, C, W>>,
) -> u8
    requires few { length desks.old.items ≤ 64 }
    requires desks { All (λ desk. (desk.turns ≤ 2 ^ 56) × ((D.state desk.door).given < 2 ^ 63)) desks.old.items }
{
    sso(rt, alloc, words, shelf, out, desks)
}

// The sink `CALL`, or `slow CALL`.
fn sink_in(alloc: Global, field: &str) -> Result<SlowSink, NoMemory> {
    let (call, most) = match field.strip_prefix("slow ") {
        Some(call) => (call, 1),
        None => (field, usize::MAX),
    };
    Ok(SlowSink {
        sink: FaultySink::new(alloc, failing(alloc, number(call))?),
        most,
    })
}

// The exit status for the words, with the contents of these files and at these desks. The text is in the sink.
fn run_into<R: Threads + Wait + Sync, D: Door, L: Link, C: Clock, W: Draw>(
    rt: &R,
    alloc: Global,
    files: &[File],
    call: &Call,
    out: &mut SlowSink,
    desks: &mut Vec<Desk<D, L, C, W>>,
) -> Result<u8, NoMemory>
    requires few { length desks.old.items ≤ 64 }
    requires desks { All (λ desk. (desk.turns ≤ 2 ^ 56) × ((D.state desk.door).given < 2 ^ 63)) desks.old.items }
{
    let words = words_in(alloc, call.words)?;
    let mut shelf = FaultyShelf::new(shelf_of(alloc, files)?, failing(alloc, number(call.shelf))?);
    let status = status_of(rt, alloc, words.as_slice(), &mut shelf, out, desks);
    if status == 1 {
        return Err(NoMemory);
    }
    Ok(status)
}

/// The exit status for the words, and the text, with the contents of these files and at these desks.
pub fn run<R: Threads + Wait + Sync, D: Door, L: Link, C: Clock, W: Draw>(
    rt: &R,
    alloc: Global,
    files: &[File],
    call: &Call,
    desks: &mut Vec<Desk<D, L, C, W>>,
) -> Result<String, NoMemory>
    requires few { length desks.old.items ≤ 64 }
    requires desks { All (λ desk. (desk.turns ≤ 2 ^ 56) × ((D.state desk.door).given < 2 ^ 63)) desks.old.items }
{
    let mut out = sink_in(alloc, call.sink)?;
    let status = run_into(rt, alloc, files, call, &mut out, desks)?;
    let text = told_quoted(alloc, as_text(out.sink.bytes()))?;
    Ok(format!(in alloc; "{status} {}", text.as_str())?)
}

/// `last|SHELF|SINK|WORDS`: the status of the words with no desk, how many lines the text has, and the last of them.
pub fn last<R: Threads + Wait + Sync>(
    rt: &R,
    alloc: Global,
    files: &[File],
    call: &Call,
) -> Result<String, NoMemory> {
    let mut desks: Vec<CaseDesk> = Vec::new(alloc);
    let mut out = sink_in(alloc, call.sink)?;
    let status = run_into(rt, alloc, files, call, &mut out, &mut desks)?;
    let text = as_text(out.sink.bytes());
    let count = text.lines().count();
    let last = text.lines().last().unwrap_or("");
    Ok(format!(in alloc; "{status}, {count} lines, the last is {last}")?)
}

fn at_desks<R: Threads + Wait + Sync>(
    rt: &R,
    alloc: Global,
    files: &[File],
    call: &Call,
    texts: &[&str],
) -> Result<String, NoMemory> {
    let mut desks = desks_in(alloc, texts)?;
    if desks.len() > 64 {
        return told(alloc, "too many desks");
    }
    let mut out = run(rt, alloc, files, call, &mut desks)?;
    push_desks(alloc, &mut out, desks.as_slice())?;
    Ok(out)
}

/// `sso|SHELF|SINK|WORDS|DESK|..`, or with `two logins` or `two keys` in place of the desks, or `late` before the one desk.
pub fn answer<R: Threads + Wait + Sync>(
    rt: &R,
    alloc: Global,
    files: &[File],
    call: &Call,
    texts: &[&str],
) -> Result<String, NoMemory> {
    match texts {
        ["two logins"] => two::logins(rt, alloc, files, call),
        ["two keys"] => two::keys(rt, alloc, files, call),
        ["late", desk] => late::answer(rt, alloc, files, call, desk),
        _ => at_desks(rt, alloc, files, call, texts),
    }
}
