// Plays traces.

ghost use Rattle.trace_lines.specs.Order.{IsReadFor};

use crate::configurations::configuration;
use crate::texts::HEADER;
use crate::traces::refused;
use case_lines::{as_text, times, told};
use client_registry::{RegNo, Registry, read_registry};
use oidc_replay::{ReplayEnd, Replayed, Trace, TraceNo, read_trace, replay};
use sso_base::NoMemory;
use sso_places::Broken;
use std::alloc::Global;

// Adds a line, or for `COUNT*LINE` the line COUNT times, each with its line feed.
fn push_line(file: &mut String, line: &str) -> Result<(), NoMemory> {
    let (count, line) = times(line).unwrap_or((1, line));
    for _ in 0..count {
        file.push_str(line)?;
        file.push_str("\n")?;
    }
    Ok(())
}

/// Adds these lines, which are separated by ` / `.
pub fn push_lines(file: &mut String, lines: &str) -> Result<(), NoMemory> {
    for line in lines.split(" / ") {
        push_line(file, line)?;
    }
    Ok(())
}

fn told_broken(alloc: Global, broken: &Broken) -> Result<String, NoMemory> {
    match broken {
        Broken::Forged(place) => Ok(format!(in alloc; "Forged {place}")?),
        Broken::Leaked(place) => Ok(format!(in alloc; "Leaked {place}")?),
        Broken::HashClash(place, later) => Ok(format!(in alloc; "HashClash {place} {later}")?),
    }
}

fn told_end(alloc: Global, end: &ReplayEnd) -> Result<String, NoMemory> {
    match end {
        ReplayEnd::Met => told(alloc, "Met"),
        ReplayEnd::Broken(broken) => told_broken(alloc, broken),
        ReplayEnd::Journal(place) => Ok(format!(in alloc; "Journal {place}")?),
    }
}

// The part of a play that is printed: all its lines, or the last.
#[derive(Clone, Copy)]
enum Part {
    All,
    Last,
}

// The end of a play, and its lines, separated by ` / `.
fn told_all(alloc: Global, end: &str, text: &str) -> Result<String, NoMemory> {
    let lines = text.trim_end_matches('\n').replace(alloc, "\n", " / ")?;
    Ok(format!(in alloc; "{end}: {}", lines.as_str())?)
}

// The end of a play, the number of lines that it printed, and the last one.
fn told_last(alloc: Global, end: &str, text: &str) -> Result<String, NoMemory> {
    let last = text.lines().last().unwrap_or("");
    let count = text.lines().count();
    Ok(format!(in alloc; "{end}: {count} lines, the last is {last}")?)
}

fn told_play(alloc: Global, part: Part, replayed: &Replayed) -> Result<String, NoMemory> {
    let end = told_end(alloc, &replayed.end)?;
    let text = as_text(replayed.text.as_bytes());
    match part {
        Part::All => told_all(alloc, end.as_str(), text),
        Part::Last => told_last(alloc, end.as_str(), text),
    }
}

// The play of a trace that was read for the registry.
fn told_trace(
    alloc: Global,
    part: Part,
    registry: Registry,
    trace: &Trace,
) -> Result<String, NoMemory>
    requires { IsReadFor registry trace.now }
{
    let replayed = replay(alloc, registry, trace)?;
    told_play(alloc, part, &replayed)
}

/// All of the play of these bytes, or why they are no trace.
pub fn told_file(alloc: Global, registry: Registry, file: &[u8]) -> Result<String, NoMemory> {
    match read_trace(alloc, &registry, file) {
        Ok(trace) => told_trace(alloc, Part::All, registry, &trace),
        Err(why) => refused(alloc, why),
    }
}

fn answer_in(
    alloc: Global,
    part: Part,
    registry: Registry,
    file: &str,
) -> Result<String, NoMemory> {
    match read_trace(alloc, &registry, file.as_bytes()) {
        Ok(trace) => told_trace(alloc, part, registry, &trace),
        Err(TraceNo::NoMemory) => Err(NoMemory),
        Err(_) => told(alloc, "no trace"),
    }
}

fn answer(alloc: Global, part: Part, name: &str, file: &str) -> Result<String, NoMemory> {
    let configuration = configuration(alloc, name)?;
    match read_registry(alloc, configuration.as_str().as_bytes()) {
        Ok(registry) => answer_in(alloc, part, registry, file),
        Err(RegNo::NoMemory) => Err(NoMemory),
        Err(_) => told(alloc, "no configuration"),
    }
}

// These lines after a header.
fn with_header(alloc: Global, lines: &str) -> Result<String, NoMemory> {
    let mut file = String::new(alloc);
    push_line(&mut file, HEADER)?;
    push_lines(&mut file, lines)?;
    Ok(file)
}

/// `play|NAME|LINES`: the play of these lines after a header, over the configuration with this name.
pub fn play(alloc: Global, name: &str, lines: &str) -> Result<String, NoMemory> {
    let file = with_header(alloc, lines)?;
    answer(alloc, Part::All, name, file.as_str())
}

/// `whole|NAME|LINES`: the same, but the first line is the header.
pub fn whole(alloc: Global, name: &str, lines: &str) -> Result<String, NoMemory> {
    let mut file = String::new(alloc);
    push_lines(&mut file, lines)?;
    answer(alloc, Part::All, name, file.as_str())
}

/// `end|NAME|LINES`: the number of lines that the play of `play` prints, and the last one.
pub fn end(alloc: Global, name: &str, lines: &str) -> Result<String, NoMemory> {
    let file = with_header(alloc, lines)?;
    answer(alloc, Part::Last, name, file.as_str())
}
