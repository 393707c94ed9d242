// A store that one pass calls often.

ghost use Rattle.std.specs.Prelude.{◌<◌, length};

use crate::passes::{put_pass, take_pass};
use crate::tally::Tally;
use crate::tick::Tick;
use crate::two_passes::call_often;
use case_lines::{told, words_of_place};
use sso_base::{Core, CoreNo, Moment, NoMemory};
use std::alloc::Global;
use std::sync::Wait;
use turn_store::{Closed, Turn};

// How many places of the one pass are stored.
fn told_places(alloc: Global, closed: &Closed<Tally>) -> Result<String, NoMemory>
    requires { 0 < length closed.now.calls }
{
    match closed.calls.of(0) {
        Some(places) => Ok(format!(in alloc; "{} places", places.len())?),
        None => told(alloc, "no places"),
    }
}

// The reply to one more request.
fn told_next(alloc: Global, answer: &Result<u64, CoreNo>) -> Result<String, NoMemory> {
    match answer {
        Ok(reply) => Ok(format!(in alloc; "then {reply}")?),
        Err(CoreNo::JournalFull(weight)) => Ok(format!(in alloc; "then full at {weight}")?),
        Err(CoreNo::NoMemory) => told(alloc, "then no memory"),
    }
}

/// `often|stored|COUNT` or `often|lasting|COUNT`: after so many calls of a store with one pass, the number of entries, the number of
/// places that are stored, and the reply of the core to one more request.
pub fn answer<R: Wait>(rt: &R, alloc: Global, lasts: bool, times: u32) -> Result<String, NoMemory> {
    let (turn, mut passes) = Turn::new(alloc, Tally::new(alloc, lasts), 1)?;
    let pass = take_pass(&turn, &mut passes);
    let pass = call_often(rt, alloc, &turn, pass, times);
    if !put_pass(&turn, &mut passes, pass) {
        return Err(NoMemory);
    }
    let mut closed = turn.close(passes);
    let places = told_places(alloc, &closed)?;
    let count = closed.core.count();
    let (at, words) = (Moment::new(1000).unwrap(), words_of_place(1));
    let next = closed.core.step(alloc, at, words, Tick { more: 1 });
    let next = told_next(alloc, &next)?;
    Ok(format!(in alloc; "{count} entries, {}, {}", places.as_str(), next.as_str())?)
}
