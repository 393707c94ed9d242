// Reads traces.

use crate::lines::push_line;
use crate::texts::HEADER;
use case_lines::{bytes, number, push_part, told};
use client_registry::Registry;
use sso_base::NoMemory;
use std::alloc::Global;
use trace_lines::{Trace, TraceNo, read_trace};

fn numbered(alloc: Global, name: &str, number: u64) -> Result<String, NoMemory> {
    Ok(format!(in alloc; "{name} {number}")?)
}

/// Why a trace is refused.
pub fn refused(alloc: Global, why: TraceNo) -> Result<String, NoMemory> {
    match why {
        TraceNo::NoMemory => Err(NoMemory),
        TraceNo::Size => told(alloc, "Size"),
        TraceNo::Header => told(alloc, "Header"),
        TraceNo::LineTooLong(number) => numbered(alloc, "LineTooLong", number),
        TraceNo::Word(number) => numbered(alloc, "Word", number),
        TraceNo::Number(number) => numbered(alloc, "Number", number),
        TraceNo::Backwards(number) => numbered(alloc, "Backwards", number),
        TraceNo::NoSuchReply(number) => numbered(alloc, "NoSuchReply", number),
        TraceNo::NoSuchParty(number) => numbered(alloc, "NoSuchParty", number),
    }
}

// The lines, each after ` / `.
fn told_lines(alloc: Global, trace: &Trace) -> Result<String, NoMemory> {
    let mut text = String::from_str(alloc, "read")?;
    for line in trace.lines() {
        text.push_str(" / ")?;
        push_line(alloc, &mut text, line)?;
    }
    Ok(text)
}

// The bytes of a seed as numbers.
fn told_seed(alloc: Global, seed: &[u8]) -> Result<String, NoMemory> {
    let mut text = String::new(alloc);
    for byte in seed {
        let number = byte.to_string(alloc)?;
        push_part(&mut text, " ", number.as_str())?;
    }
    Ok(text)
}

fn answer(alloc: Global, registry: &Registry, file: &[u8]) -> Result<String, NoMemory> {
    match read_trace(alloc, registry, file) {
        Ok(trace) => told_lines(alloc, &trace),
        Err(why) => refused(alloc, why),
    }
}

// The bytes with a line feed for each ` / `.
fn file_of(alloc: Global, text: &str) -> Result<Vec<u8>, NoMemory> {
    let mut file = Vec::new(alloc);
    let mut is_next = false;
    for line in text.split(" / ") {
        if is_next {
            file.push(b'\n')?;
        }
        file.extend_from_slice(bytes(alloc, line)?.as_slice())?;
        is_next = true;
    }
    Ok(file)
}

/// `trace|LINES`: these lines after a header. Each is a text, or bytes as `case_lines` reads them.
pub fn trace(alloc: Global, registry: &Registry, lines: &str) -> Result<String, NoMemory> {
    let text = format!(in alloc; "{HEADER} / {lines}")?;
    answer(alloc, registry, file_of(alloc, text.as_str())?.as_slice())
}

/// `whole|LINES`: these lines, of which the first is the header.
pub fn whole(alloc: Global, registry: &Registry, lines: &str) -> Result<String, NoMemory> {
    answer(alloc, registry, file_of(alloc, lines)?.as_slice())
}

/// `long|COUNT`: a header, and comments after it, up to COUNT bytes.
pub fn long(alloc: Global, registry: &Registry, count: &str) -> Result<String, NoMemory> {
    let mut comment = bytes(alloc, "hex:0a ++ # ++ 65534*x")?;
    let mut file = Vec::new(alloc);
    file.extend_from_slice(HEADER.as_bytes())?;
    let rest = number(count).saturating_sub(60) as usize;
    for _ in 0..rest / 65_536 {
        file.extend_from_slice(comment.as_slice())?;
    }
    comment.truncate(rest % 65_536);
    file.extend_from_slice(comment.as_slice())?;
    answer(alloc, registry, file.as_slice())
}

/// `seed|HEADER`: the seed of a trace with only this line.
pub fn seed(alloc: Global, registry: &Registry, header: &str) -> Result<String, NoMemory> {
    match read_trace(alloc, registry, header.as_bytes()) {
        Ok(trace) => told_seed(alloc, &trace.seed()),
        Err(why) => refused(alloc, why),
    }
}
