// The replay of a trace.

ghost use Rattle.std.specs.Prelude.{◌≡◌, ◌<◌, ◌^◌, ◌++◌, length, string_bytes, IfOk, OnOk};
ghost use Rattle.client_registry.specs.Registered.{IsRegistry};
ghost use Rattle.running_world.specs.Running.{world_of};
ghost use Rattle.trace_lines.specs.Order.{IsReadFor};
ghost use Rattle.oidc_replay.specs.End as ends;
ghost use Rattle.oidc_replay.specs.Play as plays;
ghost use Rattle.oidc_replay.specs.Sending.{NamesRole};
ghost use Rattle.oidc_replay.specs.Text as text;
ghost use Rattle.oidc_replay.specs.Theorem.{PlaysWell};

use crate::play::Play;
use crate::text::{push_end, push_line};
use client_registry::Registry;
use sso_base::{Blob, NoMemory};
use sso_places::Broken;
use std::alloc::Global;
use trace_lines::{Line, Trace};

/// How a play ends. Places are counted from 1.
#[derive(Clone, Copy, Debug, PartialEq, Eq)]
pub enum ReplayEnd {
    /// After the last line, and no premise of the sign-on theorem failed.
    Met,
    /// After the last line, and this premise failed first.
    Broken(Broken),
    /// Before this place: the history of the recipient had no room for the request.
    Journal(u64),
}

/// The result of a replay.
#[derive(Drop)]
pub struct Replayed {
    /// A line for each place and each `show`, and a last line for the end.
    pub text: Blob,
    /// How the play ended.
    pub end: ReplayEnd,
}

// How the play of all lines ended.
fn end_of(play: &Play) -> ReplayEnd
    ensures { result ≡ ends.play_end play.now.running.registry (plays.played_of play.now) }
{
    if let Some(place) = play.ended() {
        return ReplayEnd::Journal(place);
    }
    match play.premises() {
        Ok(()) => ReplayEnd::Met,
        Err(broken) => ReplayEnd::Broken(broken),
    }
}

// Plays one more line, and adds what it prints.
fn replay_line(
    alloc: Global,
    play: &mut Play,
    out: &mut String,
    line: &Line,
) -> Result<(), NoMemory>
    requires few { length (world_of play.old.running) < 2 ^ 59 }
    requires role { NamesRole play.old.running.registry line.now }
    ensures registry { play.new.running.registry ≡ play.old.running.registry }
    ensures seed { play.new.seed ≡ play.old.seed }
    ensures play { OnOk result (plays.played_of play.new ≡ plays.play_on play.old.running.registry play.old.seed (plays.played_of play.old) line.now) }
    ensures text { OnOk result (string_bytes out.new ≡ string_bytes out.old ++ text.line_told play.old.running.registry (plays.played_of play.new) line.now) }
{
    play.line(alloc, line)?;
    push_line(alloc, out, play, line)
}

// The result after all lines: the text so far with its last line, and how the play ended.
pub(crate) fn finish(alloc: Global, play: &Play, mut out: String) -> Result<Replayed, NoMemory>
    ensures text { IfOk result (λ r. r.text ≡ string_bytes out ++ text.end_line (ends.play_end play.now.running.registry (plays.played_of play.now))) }
    ensures end { IfOk result (λ r. r.end ≡ ends.play_end play.now.running.registry (plays.played_of play.now)) }
{
    let end = end_of(play);
    push_end(alloc, &mut out, &end)?;
    Ok(Replayed {
        text: Blob::from_vec(out.into_bytes()),
        end,
    })
}

// Plays all lines of a play that has just begun, with a line of text for each.
#[tactic(auto, unfolding(crate::specs::Play::play_of, crate::specs::End::end_of, crate::specs::Text::text_of))]
fn replay_all(alloc: Global, play: &mut Play, trace: &Trace) -> Result<Replayed, NoMemory>
    requires lines { IsReadFor play.old.running.registry trace.now }
    requires begun { plays.HasBegun play.old trace.now }
    requires read { IsRegistry play.old.running.registry }
    ensures text { IfOk result (λ r. r.text ≡ text.text_of play.old.running.registry trace.now) }
    ensures end { IfOk result (λ r. r.end ≡ ends.end_of play.old.running.registry trace.now) }
    ensures well { IfOk result (λ r. PlaysWell play.old.running.registry trace.now) }
{
    let mut out = String::new(alloc);
    for line in trace.lines() {
        replay_line(alloc, play, &mut out, line)?;
    }
    play.theorem();
    finish(alloc, play, out)
}

/// Plays a trace over the provider and the relying parties of a registry, each of which trusts that provider. The trace must
/// have been read for this registry.
///
/// The text has a line for each place, one for each place that is shown, and a last one for the end. The world that is played
/// is legal. If no token is forged in it and no cookie leaks, the sign-on theorem is true for it:
///
/// - Its reading is a run of the sign-on machine at every prefix, and the machine's live rows are the sessions of the parties.
/// - Each live row is founded, and nothing was entered, redeemed or ended twice.
///
/// This is also true if half hashes clash or a history had no more room. If no half hashes clash, codes and all access tokens
/// are bound. All this is true if the play ends as [`ReplayEnd::Met`]. If it ends as [`ReplayEnd::Broken`], it is true for the
/// places before the one at which a premise fails. Honest logins succeed, however the play ends.
///
/// Each code, token and claim that the provider gives is authorized, however the play ends. If no cookie leaks, responses and tokens
/// reach the browser that signed in and the client that showed its secret. If moreover no access token is shared, so do the claims
/// of UserInfo.
pub fn replay(alloc: Global, registry: Registry, trace: &Trace) -> Result<Replayed, NoMemory>
    requires { IsReadFor registry trace.now }
    ensures text { IfOk result (λ r. r.text ≡ text.text_of registry trace.now) }
    ensures end { IfOk result (λ r. r.end ≡ ends.end_of registry trace.now) }
    ensures well { IfOk result (λ r. PlaysWell registry trace.now) }
{
    let mut play = Play::new(alloc, registry, trace.seed())?;
    let told = replay_all(alloc, &mut play, trace);
    drop(play);
    told
}
