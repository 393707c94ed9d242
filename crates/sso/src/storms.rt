//! The outcome of a storm, given its two numbers.

ghost use Rattle.std.specs.Prelude.{◌≡◌, ◌≤◌, Ok, IfOk};
ghost use Rattle.trace_lines.specs.Trace.{trace_told};
ghost use Rattle.trace_lines.specs.Order.{IsReadFor};
ghost use Rattle.storm_texts.specs.Config.{config_text};
ghost use Rattle.storm_texts.specs.Trace.{trace_text};
ghost use Rattle.oidc_replay.specs.Theorem.{PlaysWell};
ghost use Rattle.sso.specs.Answer.{storm_told, storm_answer};
ghost use Rattle.sso.specs.Outcomes.{PlaysOver, Plays};

use crate::configuration::refuse_registry;
use crate::outcome::Outcome;
use crate::replaying::{end_status, refuse_trace};
use client_registry::{RegNo, Registry, read_registry};
use oidc_replay::{Trace, TraceNo, read_trace, storm};
use sso_base::NoMemory;
use std::alloc::Global;
use storm_texts::{storm_config, storm_trace};

// The outcome for a storm's trace that was read for the registry.
fn answer_play(
    alloc: Global,
    registry: Registry,
    trace: &Trace,
    number: u32,
    count: u32,
) -> Result<Outcome, NoMemory>
    requires { IsReadFor registry trace.now }
    ensures answer { IfOk result (λ outcome. outcome ≡ storm_told registry number count (Ok trace.now)) }
    ensures well { IfOk result (λ outcome. PlaysWell registry trace.now) }
{
    let played = storm(alloc, registry, trace, number, count)?;
    Ok(Outcome {
        status: end_status(&played.end),
        text: played.text,
    })
}

// The outcome of a storm over a registry. The bytes of its trace are freed before the play, which takes memory.
fn answer_over(
    alloc: Global,
    registry: Registry,
    number: u32,
    count: u32,
) -> Result<Outcome, NoMemory>
    requires { count ≤ 10000 }
    ensures answer { IfOk result (λ outcome. outcome ≡ storm_told registry number count (trace_told registry (trace_text number count))) }
    ensures well { IfOk result (λ outcome. PlaysOver registry (trace_text number count)) }
{
    let trace = storm_trace(alloc, number, count)?;
    let told = read_trace(alloc, &registry, trace.as_bytes());
    drop(trace);
    match told {
        Ok(trace) => answer_play(alloc, registry, &trace, number, count),
        Err(TraceNo::NoMemory) => Err(NoMemory),
        Err(why) => refuse_trace(alloc, why),
    }
}

/// The outcome of a storm, given its two numbers. Its configuration and its trace are read as those of a replay, and neither is
/// ever rejected (`storms_are_accepted`).
#[tactic(auto, unfolding(crate::specs::Answer::storm_answer, crate::specs::Outcomes::Plays))]
pub fn answer_storm(alloc: Global, number: u32, count: u32) -> Result<Outcome, NoMemory>
    requires { count ≤ 10000 }
    ensures answer { IfOk result (λ outcome. outcome ≡ storm_answer number count) }
    ensures well { IfOk result (λ outcome. Plays config_text (trace_text number count)) }
{
    let config = storm_config(alloc)?;
    match read_registry(alloc, config.as_bytes()) {
        Ok(registry) => answer_over(alloc, registry, number, count),
        Err(RegNo::NoMemory) => Err(NoMemory),
        Err(why) => refuse_registry(alloc, why),
    }
}
