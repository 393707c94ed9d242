// Calls of a store, one after another.

ghost use Rattle.std.specs.Prelude.{◌≡◌, ◌<◌, length};
ghost use Rattle.turn_store.specs.Passes.{IsPassOf, number_of};
ghost use Rattle.serve_cases.specs.Tally.{lasts_of, IsLight};

use crate::passes::{put_pass, take_pass};
use crate::tally::Tally;
use crate::tick::Tick;
use case_lines::{number, push_part, told, words_of_place};
use sso_base::{Core, CoreNo, Moment, NoMemory};
use std::alloc::Global;
use std::sync::Wait;
use turn_store::{Closed, Pass, Placed, Turn};

fn told_call(alloc: Global, answer: &Result<Placed<u64>, CoreNo>) -> Result<String, NoMemory> {
    match answer {
        Ok(placed) => Ok(format!(in alloc; "{} at {}", placed.reply, placed.place)?),
        Err(CoreNo::JournalFull(weight)) => Ok(format!(in alloc; "full at {weight}")?),
        Err(CoreNo::NoMemory) => told(alloc, "no memory"),
    }
}

// Calls with this request, and returns the answer.
fn call<R: Wait>(
    rt: &R,
    alloc: Global,
    turn: &Turn<Tally>,
    pass: &mut Pass<Tally>,
    more: u32,
) -> Result<String, NoMemory>
    requires { IsPassOf lasts_of IsLight turn.now pass.old }
    ensures pass { IsPassOf lasts_of IsLight turn.now pass.new }
    ensures number { number_of pass.new ≡ number_of pass.old }
{
    let (at, words) = (Moment::new(1000).unwrap(), words_of_place(1));
    let answer = turn.call(rt, alloc, pass, at, words, Tick { more });
    told_call(alloc, &answer)
}

// Calls with one request after another, and returns all answers.
fn call_each<R: Wait>(
    rt: &R,
    alloc: Global,
    turn: &Turn<Tally>,
    pass: &mut Pass<Tally>,
    asks: &[&str],
) -> Result<String, NoMemory>
    requires { IsPassOf lasts_of IsLight turn.now pass.old }
    ensures pass { IsPassOf lasts_of IsLight turn.now pass.new }
    ensures number { number_of pass.new ≡ number_of pass.old }
{
    let mut out = String::new(alloc);
    for ask in asks {
        let answer = call(rt, alloc, turn, pass, number(ask))?;
        push_part(&mut out, " / ", answer.as_str())?;
    }
    Ok(out)
}

// Adds the number of entries in the history, and the places of those of the one pass.
fn push_closed(alloc: Global, out: &mut String, closed: &Closed<Tally>) -> Result<(), NoMemory>
    requires { 0 < length closed.now.calls }
{
    let count = format!(in alloc; "{} entries, at", closed.core.count())?;
    push_part(out, " / ", count.as_str())?;
    let Some(places) = closed.calls.of(0) else {
        return Ok(());
    };
    for place in places {
        push_part(out, " ", place.to_string(alloc)?.as_str())?;
    }
    Ok(())
}

/// `calls|MORE|..`: the answers of a store with one pass, and its places at the end.
pub fn answer<R: Wait>(rt: &R, alloc: Global, asks: &[&str]) -> Result<String, NoMemory> {
    let (turn, mut passes) = Turn::new(alloc, Tally::new(alloc, false), 1)?;
    let mut pass = take_pass(&turn, &mut passes);
    let mut out = call_each(rt, alloc, &turn, &mut pass, asks)?;
    if !put_pass(&turn, &mut passes, pass) {
        return Err(NoMemory);
    }
    let closed = turn.close(passes);
    push_closed(alloc, &mut out, &closed)?;
    Ok(out)
}
