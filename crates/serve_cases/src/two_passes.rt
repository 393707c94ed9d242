// Two threads that call a store at the same time.

ghost use Rattle.std.specs.Prelude.{◌≡◌, ◌≤◌, map, length, MatchBool};
ghost use Rattle.std.specs.List.{All};
ghost use Rattle.turn_store.specs.Passes.{IsPassOf, number_of};
ghost use Rattle.turn_store.specs.Places.{numbers_from};
ghost use Rattle.serve_cases.specs.Tally.{lasts_of, IsLight};

use crate::passes::{put_pass, take_pass};
use crate::tally::Tally;
use crate::tick::Tick;
use case_lines::{told, words_of_place};
use sso_base::{Core, Moment, NoMemory};
use std::alloc::Global;
use std::sync::Wait;
use std::thread::{Threads, join};
use turn_store::{Closed, Pass, Turn};

/// Calls so often with the same request, and returns the pass.
pub fn call_often<R: Wait>(
    rt: &R,
    alloc: Global,
    turn: &Turn<Tally>,
    mut pass: Pass<Tally>,
    times: u32,
) -> Pass<Tally>
    requires { IsPassOf lasts_of IsLight turn.now pass }
    ensures pass { IsPassOf lasts_of IsLight turn.now result }
    ensures number { number_of result ≡ number_of pass }
{
    let (at, words) = (Moment::new(1000).unwrap(), words_of_place(1));
    for _ in 0..times {
        let _ = turn.call(rt, alloc, &mut pass, at, words, Tick { more: 1 });
    }
    pass
}

// Two threads call, each with its own pass. Returns whether there was memory to put the passes back.
fn call_in_two<R: Threads + Wait + Sync>(
    rt: &R,
    alloc: Global,
    turn: &Turn<Tally>,
    passes: &mut Vec<Pass<Tally>>,
) -> bool
    requires passes { All (IsPassOf lasts_of IsLight turn.now) passes.old.items }
    requires order { map number_of passes.old.items ≡ numbers_from 0 2 }
    ensures passes { All (IsPassOf lasts_of IsLight turn.now) passes.new.items }
    ensures order { MatchBool result (map number_of passes.new.items ≡ numbers_from 0 2) (Unit {0}) }
{
    let one = take_pass(turn, passes);
    let two = take_pass(turn, passes);
    let (one, two) = join(
        rt,
        move || -> Pass<Tally>
            requires { IsPassOf lasts_of IsLight turn.now one }
            ensures { IsPassOf lasts_of IsLight turn.entry.now result × (number_of result ≡ number_of one) }
        { call_often(rt, alloc, turn, one, 1000) },
        move || -> Pass<Tally>
            requires { IsPassOf lasts_of IsLight turn.now two }
            ensures { IsPassOf lasts_of IsLight turn.entry.now result × (number_of result ≡ number_of two) }
        { call_often(rt, alloc, turn, two, 1000) },
    );
    if put_pass(turn, passes, one) {
        put_pass(turn, passes, two)
    } else {
        false
    }
}

// Marks the places. False if one is marked already, or is past the end of the row.
fn mark(seen: &mut [bool], places: &[u64]) -> bool
    ensures { length seen.new ≡ length seen.old }
{
    for place in places {
        let Some(slot) = seen.get_mut(*place as usize) else {
            return false;
        };
        if *slot {
            return false;
        }
        *slot = true;
    }
    true
}

// Whether the places of two passes are those from 1 to 2,000, each once.
fn is_each_once(one: &[u64], two: &[u64]) -> bool {
    let mut seen = [false; 2001];
    one.len() + two.len() == 2000 && mark(&mut seen, one) && mark(&mut seen, two) && !seen[0]
}

// The number of entries in the history, the number that each thread made, and whether each place was given once.
fn told_closed(alloc: Global, closed: &Closed<Tally>) -> Result<String, NoMemory>
    requires { length closed.now.calls ≡ 2 }
{
    let count = closed.core.count();
    let Some(one) = closed.calls.of(0) else {
        return told(alloc, "no places");
    };
    let Some(two) = closed.calls.of(1) else {
        return told(alloc, "no places");
    };
    let each = if is_each_once(one, two) {
        "each place once"
    } else {
        "not each place once"
    };
    Ok(format!(in alloc; "{count} entries, {} and {}, {each}", one.len(), two.len())?)
}

/// `two threads`: the result of 2,000 calls by two threads at the same time, each with its own pass.
pub fn answer<R: Threads + Wait + Sync>(rt: &R, alloc: Global) -> Result<String, NoMemory> {
    let (turn, mut passes) = Turn::new(alloc, Tally::new(alloc, false), 2)?;
    if !call_in_two(rt, alloc, &turn, &mut passes) {
        return Err(NoMemory);
    }
    let closed = turn.close(passes);
    told_closed(alloc, &closed)
}
