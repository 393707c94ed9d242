// The text that lines print.

ghost use Rattle.std.specs.Prelude.{◌≡◌, ◌++◌, ◌∷◌, string_bytes, IfSome, OnOk};
ghost use Rattle.std.specs.Fmt.{decimal};
ghost use Rattle.sso_places.specs.Legal.{IsRole};
ghost use Rattle.running_world.specs.Running.{world_of};
ghost use Rattle.oidc_replay.specs.Play.{played_of};
ghost use Rattle.oidc_replay.specs.Text as spec;

use crate::play::Play;
use crate::replaying::ReplayEnd;
use client_registry::Registry;
use op_response::op_line;
use rp_response::rp_line;
use sso_base::{NoMemory, Text};
use sso_http::print_reply;
use sso_places::{Broken, To, WorldReply};
use std::alloc::Global;
use trace_lines::Line;
use web_requests::printed;

// Adds a number.
fn push_number(alloc: Global, out: &mut String, number: u64) -> Result<(), NoMemory>
    ensures { OnOk result (string_bytes out.new ≡ string_bytes out.old ++ decimal number) }
{
    let digits = number.to_string(alloc)?;
    out.push_str(digits.as_str())?;
    Ok(())
}

// Adds the name of the role and the summary of its reply.
fn push_told(out: &mut String, name: &str, told: &Text) -> Result<(), NoMemory>
    ensures { OnOk result (string_bytes out.new ≡ string_bytes out.old ++ (name.now ++ 32 ∷ told.now)) }
{
    out.push_str(name)?;
    out.push_str(" ")?;
    out.push_str(told.as_str())?;
    Ok(())
}

// Adds the name of the role and the summary of its reply, or `- none` if no request was made.
fn push_words(
    alloc: Global,
    out: &mut String,
    registry: &Registry,
    role: &Option<To>,
    reply: &WorldReply,
) -> Result<(), NoMemory>
    requires { IfSome role.now (IsRole registry.now) }
    ensures { OnOk result (string_bytes out.new ≡ string_bytes out.old ++ spec.reply_words registry.now role.now reply.now) }
{
    match (role, reply) {
        (Some(To::Provider), WorldReply::Provider(reply)) => {
            push_told(out, "op", &op_line(alloc, reply)?)?;
        }
        (Some(To::Party(n)), WorldReply::Party(reply)) => {
            let name = registry.party(*n).name.as_str();
            push_told(out, name, &rp_line(alloc, reply)?)?;
        }
        _ => out.push_str("- none")?,
    }
    Ok(())
}

// Adds the line of the newest place.
fn push_newest(alloc: Global, out: &mut String, play: &Play) -> Result<(), NoMemory>
    ensures { OnOk result (string_bytes out.new ≡ string_bytes out.old ++ spec.newest_line play.now.running.registry (world_of play.now.running)) }
{
    let number = play.places();
    let Some(reply) = play.reply(number) else {
        return Ok(());
    };
    push_number(alloc, out, number)?;
    out.push_str(" ")?;
    push_words(alloc, out, play.registry(), &play.role(number), reply)?;
    out.push_str("\n")?;
    Ok(())
}

// Adds the HTTP reply of a place, in hexadecimal digits.
fn push_hex(alloc: Global, out: &mut String, play: &Play, place: u64) -> Result<(), NoMemory>
    ensures { OnOk result (string_bytes out.new ≡ string_bytes out.old ++ spec.hex_at play.now.running.registry (world_of play.now.running) place) }
{
    let (Some(role), Some(reply)) = (play.role(place), play.reply(place)) else {
        return Ok(());
    };
    let Some(reply) = printed(alloc, play.registry(), &role, reply)? else {
        return Ok(());
    };
    let bytes = print_reply(alloc, &reply)?;
    let digits = hex::encode(alloc, bytes.as_bytes())?;
    out.push_str(digits.as_str())?;
    Ok(())
}

fn push_shown(alloc: Global, out: &mut String, play: &Play, place: u64) -> Result<(), NoMemory>
    ensures { OnOk result (string_bytes out.new ≡ string_bytes out.old ++ spec.show_line play.now.running.registry (world_of play.now.running) place) }
{
    out.push_str("show ")?;
    push_number(alloc, out, place)?;
    out.push_str(" ")?;
    push_hex(alloc, out, play, place)?;
    out.push_str("\n")?;
    Ok(())
}

/// Adds what a played line prints. Nothing is printed after the end.
pub(crate) fn push_line(
    alloc: Global,
    out: &mut String,
    play: &Play,
    line: &Line,
) -> Result<(), NoMemory>
    ensures { OnOk result (string_bytes out.new ≡ string_bytes out.old ++ spec.line_told play.now.running.registry (played_of play.now) line.now) }
{
    if play.ended().is_some() {
        return Ok(());
    }
    match line {
        Line::At(_) | Line::Steal { .. } => Ok(()),
        Line::Show { place } => push_shown(alloc, out, play, *place),
        _ => push_newest(alloc, out, play),
    }
}

fn push_broken(alloc: Global, out: &mut String, broken: &Broken) -> Result<(), NoMemory>
    ensures { OnOk result (string_bytes out.new ≡ string_bytes out.old ++ spec.premise_words broken.now) }
{
    match broken {
        Broken::Forged(place) => {
            out.push_str("forged ")?;
            push_number(alloc, out, *place)
        }
        Broken::Leaked(place) => {
            out.push_str("leaked ")?;
            push_number(alloc, out, *place)
        }
        Broken::HashClash(first, second) => {
            out.push_str("clash ")?;
            push_number(alloc, out, *first)?;
            out.push_str(" ")?;
            push_number(alloc, out, *second)
        }
    }
}

/// Adds the last line.
pub(crate) fn push_end(alloc: Global, out: &mut String, end: &ReplayEnd) -> Result<(), NoMemory>
    ensures { OnOk result (string_bytes out.new ≡ string_bytes out.old ++ spec.end_line end.now) }
{
    match end {
        ReplayEnd::Met => out.push_str("premises met")?,
        ReplayEnd::Broken(broken) => {
            out.push_str("premises ")?;
            push_broken(alloc, out, broken)?;
        }
        ReplayEnd::Journal(place) => {
            out.push_str("journal ")?;
            push_number(alloc, out, *place)?;
        }
    }
    out.push_str("\n")?;
    Ok(())
}
