// The play of a storm.

ghost use Rattle.std.specs.Prelude.{◌≡◌, ◌++◌, string_bytes, IfOk, OnOk};
ghost use Rattle.client_registry.specs.Registered.{IsRegistry};
ghost use Rattle.running_world.specs.Running.{world_of};
ghost use Rattle.trace_lines.specs.Order.{IsReadFor};
ghost use Rattle.oidc_replay.specs.End.{end_of};
ghost use Rattle.oidc_replay.specs.Play.{HasBegun, played_of, play_of};
ghost use Rattle.oidc_replay.specs.Storm as spec;
ghost use Rattle.oidc_replay.specs.Theorem.{PlaysWell};

use crate::play::Play;
use crate::replaying::{Replayed, finish};
use crate::tally::{Kind, count_of};
use client_registry::Registry;
use sso_base::NoMemory;
use std::alloc::Global;
use trace_lines::Trace;

// Plays all lines of a play that has just begun. Nothing is printed for its places.
fn play_all(alloc: Global, play: &mut Play, trace: &Trace) -> Result<(), NoMemory>
    requires lines { IsReadFor play.old.running.registry trace.now }
    requires begun { HasBegun play.old trace.now }
    ensures registry { play.new.running.registry ≡ play.old.running.registry }
    ensures played { OnOk result (played_of play.new ≡ play_of play.old.running.registry trace.now) }
{
    for line in trace.lines() {
        play.line(alloc, line)?;
    }
    Ok(())
}

// The first line of the summary.
#[tactic(auto, unfolding(crate::specs::Storm::storm_line))]
fn storm_line(alloc: Global, number: u32, count: u32) -> Result<String, NoMemory>
    ensures { IfOk result (λ text. string_bytes text ≡ spec.storm_line number count) }
{
    Ok(format!(in alloc; "storm {number} {count}\n")?)
}

#[tactic(auto, unfolding(crate::specs::Storm::count_line))]
fn push_count(alloc: Global, out: &mut String, name: &str, count: u64) -> Result<(), NoMemory>
    ensures { OnOk result (string_bytes out.new ≡ string_bytes out.old ++ spec.count_line name.now count) }
{
    let line = format!(in alloc; "{name} {count}\n")?;
    out.push_str(line.as_str())?;
    Ok(())
}

// The lines of the summary before the last one.
#[tactic(auto, unfolding(crate::specs::Storm::counts_text))]
fn counts(alloc: Global, play: &Play, number: u32, count: u32) -> Result<String, NoMemory>
    ensures { IfOk result (λ text. string_bytes text ≡ spec.counts_text number count (world_of play.now.running)) }
{
    let mut out = storm_line(alloc, number, count)?;
    push_count(alloc, &mut out, "places", play.places())?;
    push_count(alloc, &mut out, "entered", count_of(play, Kind::Entered))?;
    push_count(alloc, &mut out, "stale", count_of(play, Kind::Stale))?;
    push_count(
        alloc,
        &mut out,
        "wrong_browser",
        count_of(play, Kind::WrongBrowser),
    )?;
    push_count(alloc, &mut out, "turn", count_of(play, Kind::Turn))?;
    Ok(out)
}

// The same, with the summary as its text.
fn storm_all(
    alloc: Global,
    play: &mut Play,
    trace: &Trace,
    number: u32,
    count: u32,
) -> Result<Replayed, NoMemory>
    requires lines { IsReadFor play.old.running.registry trace.now }
    requires begun { HasBegun play.old trace.now }
    requires read { IsRegistry play.old.running.registry }
    ensures text { IfOk result (λ r. r.text ≡ spec.storm_text play.old.running.registry trace.now number count) }
    ensures end { IfOk result (λ r. r.end ≡ end_of play.old.running.registry trace.now) }
    ensures well { IfOk result (λ r. PlaysWell play.old.running.registry trace.now) }
{
    play_all(alloc, play, trace)?;
    play.theorem();
    let text = counts(alloc, play, number, count)?;
    finish(alloc, play, text)
}

/// Plays the trace of a storm as [`replay`](crate::replay) does, and returns a summary: the two numbers of the storm, the
/// number of places, how many of them have a reply of each of four kinds, and how the play ended. The trace must have been read
/// for this registry. All that is proved for a replay is also proved for this play.
pub fn storm(
    alloc: Global,
    registry: Registry,
    trace: &Trace,
    number: u32,
    count: u32,
) -> Result<Replayed, NoMemory>
    requires { IsReadFor registry trace.now }
    ensures text { IfOk result (λ r. r.text ≡ spec.storm_text registry trace.now number count) }
    ensures end { IfOk result (λ r. r.end ≡ end_of registry trace.now) }
    ensures well { IfOk result (λ r. PlaysWell registry trace.now) }
{
    let mut play = Play::new(alloc, registry, trace.seed())?;
    let told = storm_all(alloc, &mut play, trace, number, count);
    drop(play);
    told
}
