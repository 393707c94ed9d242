//! The outcome for a configuration and a trace.

ghost use Rattle.std.specs.Prelude.{◌≡◌, Ok, IfOk};
ghost use Rattle.trace_lines.specs.Trace.{trace_told};
ghost use Rattle.trace_lines.specs.Order.{IsReadFor};
ghost use Rattle.oidc_replay.specs.Theorem.{PlaysWell};
ghost use Rattle.sso.specs.Answer as spec;
ghost use Rattle.sso.specs.Answer.{trace_answer, answer_to, refused_text};
ghost use Rattle.sso.specs.Outcomes.{PlaysOver, Plays};

use crate::configuration::refuse_registry;
use crate::outcome::Outcome;
use crate::refusal::{Refusal, refused};
use client_registry::{RegNo, Registry, read_registry};
use oidc_replay::{ReplayEnd, Trace, TraceNo, read_trace, replay};
use sso_base::{Blob, NoMemory};
use std::alloc::Global;

// The status of a replay, by the end of its play.
pub(crate) fn end_status(end: &ReplayEnd) -> u8
    ensures { result ≡ spec.end_status end.now }
{
    match end {
        ReplayEnd::Met => 0,
        ReplayEnd::Broken(_) => 7,
        ReplayEnd::Journal(_) => 8,
    }
}

// The outcome for a rejected trace.
#[tactic(auto, unfolding(crate::specs::Answer::refused_text))]
pub(crate) fn refuse_trace(alloc: Global, why: TraceNo) -> Result<Outcome, NoMemory>
    ensures { IfOk result (λ outcome. outcome ≡ record { status = 4; text = refused_text why }) }
{
    let why = Refusal::Trace(why);
    refused(alloc, &why)
}

// The outcome for a trace that was read for the registry.
fn answer_play(alloc: Global, registry: Registry, trace: &Trace) -> Result<Outcome, NoMemory>
    requires { IsReadFor registry trace.now }
    ensures answer { IfOk result (λ outcome. outcome ≡ trace_answer registry (Ok trace.now)) }
    ensures well { IfOk result (λ outcome. PlaysWell registry trace.now) }
{
    let played = replay(alloc, registry, trace)?;
    Ok(Outcome {
        status: end_status(&played.end),
        text: played.text,
    })
}

// The outcome for the bytes of a trace over a registry. They are freed before the play, which takes memory.
fn answer_trace(alloc: Global, registry: Registry, trace: Blob) -> Result<Outcome, NoMemory>
    ensures answer { IfOk result (λ outcome. outcome ≡ trace_answer registry (trace_told registry trace)) }
    ensures well { IfOk result (λ outcome. PlaysOver registry trace) }
{
    let told = read_trace(alloc, &registry, trace.as_bytes());
    drop(trace);
    match told {
        Ok(trace) => answer_play(alloc, registry, &trace),
        Err(TraceNo::NoMemory) => Err(NoMemory),
        Err(why) => refuse_trace(alloc, why),
    }
}

/// The outcome for a configuration and a trace.
#[tactic(auto, unfolding(crate::specs::Answer::answer_to, crate::specs::Outcomes::Plays))]
pub fn answer_replay(alloc: Global, config: Blob, trace: Blob) -> Result<Outcome, NoMemory>
    ensures answer { IfOk result (λ outcome. outcome ≡ answer_to config trace) }
    ensures well { IfOk result (λ outcome. Plays config trace) }
{
    match read_registry(alloc, config.as_bytes()) {
        Ok(registry) => answer_trace(alloc, registry, trace),
        Err(RegNo::NoMemory) => Err(NoMemory),
        Err(why) => refuse_registry(alloc, why),
    }
}
