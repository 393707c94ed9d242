// The kinds of lines in logins. Browsers and places are numbered from 1.

ghost use Rattle.std.specs.Prelude.{◌≡◌, ◌<◌, ◌^◌, ◌++◌, string_bytes, OnOk};
ghost use Rattle.storm_texts.specs.Lines as spec;

use sso_base::NoMemory;
use std::alloc::Global;

#[tactic(auto, unfolding(crate::specs::Lines::at_line))]
pub(crate) fn push_at(alloc: Global, out: &mut String, seconds: u32) -> Result<(), NoMemory>
    ensures { OnOk result (string_bytes out.new ≡ string_bytes out.old ++ spec.at_line seconds) }
{
    let line = format!(in alloc; "at {seconds}\n")?;
    out.push_str(line.as_str())?;
    Ok(())
}

/// Adds the line: a browser begins a login at a party.
#[tactic(auto, unfolding(crate::specs::Lines::begin_line))]
pub(crate) fn push_begin(
    alloc: Global,
    out: &mut String,
    browser: u32,
    party: &str,
) -> Result<(), NoMemory>
    ensures { OnOk result (string_bytes out.new ≡ string_bytes out.old ++ spec.begin_line browser party.now) }
{
    let line = format!(in alloc; "begin {browser} {party}\n")?;
    out.push_str(line.as_str())?;
    Ok(())
}

/// Adds the line: it follows the location of a place's reply.
#[tactic(auto, unfolding(crate::specs::Lines::follow_line))]
pub(crate) fn push_follow(
    alloc: Global,
    out: &mut String,
    browser: u32,
    place: u64,
) -> Result<(), NoMemory>
    ensures { OnOk result (string_bytes out.new ≡ string_bytes out.old ++ spec.follow_line browser place) }
{
    let line = format!(in alloc; "follow {browser} {place}\n")?;
    out.push_str(line.as_str())?;
    Ok(())
}

/// Adds the line: it posts the login form of a place, with a name and a password.
#[tactic(auto, unfolding(crate::specs::Lines::login_line))]
pub(crate) fn push_login(
    alloc: Global,
    out: &mut String,
    browser: u32,
    place: u64,
    credentials: &str,
) -> Result<(), NoMemory>
    ensures { OnOk result (string_bytes out.new ≡ string_bytes out.old ++ spec.login_line browser place credentials.now) }
{
    let line = format!(in alloc; "login {browser} {place} {credentials}\n")?;
    out.push_str(line.as_str())?;
    Ok(())
}

/// Adds the line: it visits a party.
#[tactic(auto, unfolding(crate::specs::Lines::visit_line))]
pub(crate) fn push_visit(
    alloc: Global,
    out: &mut String,
    browser: u32,
    party: &str,
) -> Result<(), NoMemory>
    ensures { OnOk result (string_bytes out.new ≡ string_bytes out.old ++ spec.visit_line browser party.now) }
{
    let line = format!(in alloc; "visit {browser} {party}\n")?;
    out.push_str(line.as_str())?;
    Ok(())
}

/// Adds the lines: the party's request of a place is carried to the provider, and the answer is returned.
#[tactic(auto, unfolding(crate::specs::Lines::exchange_lines))]
pub(crate) fn push_exchange(alloc: Global, out: &mut String, place: u64) -> Result<(), NoMemory>
    requires { place < 2 ^ 60 }
    ensures { OnOk result (string_bytes out.new ≡ string_bytes out.old ++ spec.exchange_lines place) }
{
    let answer = place + 1;
    let lines = format!(in alloc; "carry {place} 0\nback {place} {answer}\n")?;
    out.push_str(lines.as_str())?;
    Ok(())
}
