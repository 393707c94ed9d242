// Reads traces.

ghost use Rattle.std.specs.Prelude.{◌≡◌, ◌<◌, ◌^◌, ◌⊎◌, ℕ, [], Ok, Err, IfOk, IfErr, Some, length, map};
ghost use Rattle.trace_lines.specs.Guilt as guilt;
ghost use Rattle.trace_lines.specs.LineWords.{words_in};
ghost use Rattle.trace_lines.specs.Trace as spec;
ghost use Rattle.trace_lines.specs.Order.{IsReadFor};

use crate::guilt::fields_fault;
use crate::header::read_header;
use crate::line::Line;
use crate::line_words::read_words;
use crate::no::{Fault, TraceNo};
use crate::said::read_said;
use crate::so_far::SoFar;
use crate::trace::Trace;
use crate::verb::{Verb, fields_of, read_verb};
use client_registry::Registry;
use sso_base::NoMemory;
use std::alloc::{AllocError, Global};

// The most bytes of a trace, and of one of its lines.
const MOST_OF_TRACE: usize = 4_194_304;

const MOST_OF_LINE: usize = 65_536;

// Parses the words after the first one, or returns the first fault.
fn read_command(
    alloc: Global,
    registry: &Registry,
    before: &SoFar,
    verb: Verb,
    words: &[&str],
) -> Result<Result<Option<Line>, Fault>, NoMemory>
    ensures { IfOk result (λ read. read ≡ spec.verb_read registry.now before.now (Some verb) (map (λ w. w.now) words.now)) }
{
    let fields = fields_of(verb);
    if words.len() != fields.len() {
        return Ok(Err(Fault::Word));
    }
    if let Some(fault) = fields_fault(registry, before, fields, words) {
        return Ok(Err(fault));
    }
    Ok(Ok(read_said(alloc, registry, verb, words)?))
}

// Parses the words of a line, or returns the first fault.
fn read_spoken(
    alloc: Global,
    registry: &Registry,
    before: &SoFar,
    line: &[u8],
) -> Result<Result<Option<Line>, Fault>, NoMemory>
    ensures { IfOk result (λ read. read ≡ spec.words_read registry.now before.now (words_in line.now)) }
{
    let Some(words) = read_words(alloc, line)? else {
        return Ok(Err(Fault::Word));
    };
    let Some((first, others)) = words.as_slice().split_first() else {
        return Ok(Err(Fault::Word));
    };
    let Some(verb) = read_verb(first) else {
        return Ok(Err(Fault::Word));
    };
    read_command(alloc, registry, before, verb, others)
}

// Whether a line is empty or a comment.
fn is_skipped(line: &[u8]) -> bool
    ensures { result ≡ guilt.is_skipped line.now }
{
    matches!(line, [] | [b'#', ..])
}

// Parses a line after those before it, or returns the first fault.
fn read_line(
    alloc: Global,
    registry: &Registry,
    before: &SoFar,
    line: &[u8],
) -> Result<Result<Option<Line>, Fault>, NoMemory>
    ensures { IfOk result (λ read. read ≡ spec.line_read registry.now before.now line.now) }
{
    if line.len() > MOST_OF_LINE {
        return Ok(Err(Fault::LineTooLong));
    }
    if is_skipped(line) {
        return Ok(Ok(None));
    }
    read_spoken(alloc, registry, before, line)
}

// Reads the lines after the first.
fn read_rest(alloc: Global, registry: &Registry, lines: &[&[u8]]) -> Result<SoFar, TraceNo>
    requires { length lines.now < 2 ^ 60 }
    ensures ok { IfOk result (λ read. spec.lines_read registry.now 2 [] (map (λ l. l.now) lines.now) ≡ Ok read) }
    ensures err { IfErr result (λ e. (e ≡ TraceNo.NoMemory) ⊎ (spec.lines_read registry.now 2 [] (map (λ l. l.now) lines.now) ≡ Err e)) }
{
    let mut so_far = SoFar::new(alloc);
    let mut number = 2u64;
    for line in lines {
        match read_line(alloc, registry, &so_far, line)? {
            Err(fault) => return Err(fault.refusal(number)),
            Ok(None) => {}
            Ok(Some(said)) => so_far.push(said)?,
        }
        number += 1;
    }
    Ok(so_far)
}

fn split_lines(alloc: Global, bytes: &[u8]) -> Result<Vec<&[u8]>, AllocError>
    ensures { IfOk result (λ lines. map (λ l. l.now) lines.items ≡ spec.lines_of bytes.now) }
{
    bytes.split(|b| *b == b'\n').collect(alloc)
}

// The trace, or why it is rejected.
#[tactic(auto, unfolding(crate::specs::Trace::trace_told))]
fn read_told(alloc: Global, registry: &Registry, bytes: &[u8]) -> Result<Trace, TraceNo>
    ensures ok { IfOk result (λ trace. spec.trace_told registry.now bytes.now ≡ Ok trace) }
    ensures err { IfErr result (λ e. (e ≡ TraceNo.NoMemory) ⊎ (spec.trace_told registry.now bytes.now ≡ Err e)) }
{
    if bytes.len() > MOST_OF_TRACE {
        return Err(TraceNo::Size);
    }
    let lines = split_lines(alloc, bytes)?;
    let Some((first, others)) = lines.as_slice().split_first() else {
        return Err(TraceNo::Header);
    };
    let Some(seed) = read_header(first) else {
        return Err(TraceNo::Header);
    };
    let read = read_rest(alloc, registry, others)?;
    Ok(Trace {
        seed,
        lines: read.lines,
    })
}

/// Reads a trace for a registry, which determines the parties.
///
/// A rejected trace returns the reason, as in [`TraceNo`], with the first bad line. Only `NoMemory` has no cause in the trace.
pub fn read_trace(alloc: Global, registry: &Registry, bytes: &[u8]) -> Result<Trace, TraceNo>
    ensures ok { IfOk result (λ trace. spec.trace_told registry.now bytes.now ≡ Ok trace) }
    ensures err { IfErr result (λ e. (e ≡ TraceNo.NoMemory) ⊎ (spec.trace_told registry.now bytes.now ≡ Err e)) }
    ensures order { IfOk result (λ trace. IsReadFor registry.now trace) }
    ensures size { result ≡ Err TraceNo.Size → 4194304 < length bytes.now }
    ensures header { result ≡ Err TraceNo.Header → spec.HasNoHeader bytes.now }
    ensures line_too_long { (n : ℕ) → result ≡ Err (TraceNo.LineTooLong n) → spec.IsFirstBad registry.now bytes.now n Fault.LineTooLong }
    ensures word { (n : ℕ) → result ≡ Err (TraceNo.Word n) → spec.IsFirstBad registry.now bytes.now n Fault.Word }
    ensures number { (n : ℕ) → result ≡ Err (TraceNo.Number n) → spec.IsFirstBad registry.now bytes.now n Fault.Number }
    ensures backwards { (n : ℕ) → result ≡ Err (TraceNo.Backwards n) → spec.IsFirstBad registry.now bytes.now n Fault.Backwards }
    ensures no_such_reply { (n : ℕ) → result ≡ Err (TraceNo.NoSuchReply n) → spec.IsFirstBad registry.now bytes.now n Fault.NoSuchReply }
    ensures no_such_party { (n : ℕ) → result ≡ Err (TraceNo.NoSuchParty n) → spec.IsFirstBad registry.now bytes.now n Fault.NoSuchParty }
{
    read_told(alloc, registry, bytes)
}
