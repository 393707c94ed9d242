// Reads requests, from sources of several kinds.

use crate::sources::{rest, slow};
use case_lines::{as_text, bytes, push_field, told, told_quoted, told_text};
use server_desk::{MemorySource, Source};
use sso_base::{Ask, Blob, Method, NoMemory, Text, Word};
use sso_http::{HttpNo, read_ask};
use std::alloc::Global;

/// The bytes of a field in which `\r` and `\n` are the two bytes of a line end.
pub fn line_bytes(alloc: Global, field: &str) -> Result<Vec<u8>, NoMemory> {
    let ends = field.replace(alloc, "\\n", "\n")?;
    let text = ends.as_str().replace(alloc, "\\r", "\r")?;
    Ok(bytes(alloc, text.as_str())?)
}

/// The name of a refusal.
pub fn refusal_name(why: HttpNo) -> &'static str {
    match why {
        HttpNo::NoMemory => "NoMemory",
        HttpNo::ReadFault => "ReadFault",
        HttpNo::EndedEarly => "EndedEarly",
        HttpNo::HeadTooLong => "HeadTooLong",
        HttpNo::BadHead => "BadHead",
        HttpNo::Transfer => "Transfer",
        HttpNo::NoLength => "NoLength",
        HttpNo::BodyTooLong => "BodyTooLong",
        HttpNo::BadTarget => "BadTarget",
        HttpNo::CookieTwice => "CookieTwice",
    }
}

fn method_name(method: Method) -> &'static str {
    match method {
        Method::Get => "GET",
        Method::Post => "POST",
        Method::Other => "another method",
    }
}

fn push_word(
    alloc: Global,
    out: &mut String,
    name: &str,
    word: &Option<Word>,
) -> Result<(), NoMemory> {
    if let Some(word) = word {
        push_field(out, name, word.to_text(alloc)?.as_str())?;
    }
    Ok(())
}

fn push_body(alloc: Global, out: &mut String, body: &Option<Blob>) -> Result<(), NoMemory> {
    if let Some(body) = body {
        let text = told_quoted(alloc, as_text(body.as_bytes()))?;
        push_field(out, "body ", text.as_str())?;
    }
    Ok(())
}

fn push_auth(alloc: Global, out: &mut String, auth: &Option<Text>) -> Result<(), NoMemory> {
    if auth.is_some() {
        push_field(out, "auth ", told_text(alloc, auth)?.as_str())?;
    }
    Ok(())
}

// The method, the path, the query, the body, the two cookies and the credentials, if they are there.
fn told_ask(alloc: Global, ask: &Ask) -> Result<String, NoMemory> {
    let mut out = told(alloc, method_name(ask.method))?;
    out.push_str(" ")?;
    out.push_str(ask.path.as_str())?;
    if !ask.query.as_bytes().is_empty() {
        push_field(&mut out, "query ", as_text(ask.query.as_bytes()))?;
    }
    push_body(alloc, &mut out, &ask.body)?;
    push_word(alloc, &mut out, "op_b ", &ask.first)?;
    push_word(alloc, &mut out, "op_s ", &ask.second)?;
    push_auth(alloc, &mut out, &ask.auth)?;
    Ok(out)
}

// The result of reading a source, with the cookie names `op_b` and `op_s`.
fn read<S: Source>(alloc: Global, source: &mut S) -> Result<String, NoMemory> {
    let first = Text::new(alloc, "op_b")?;
    let second = Text::new(alloc, "op_s")?;
    match read_ask(alloc, source, &first, &second) {
        Ok(ask) => told_ask(alloc, &ask),
        Err(HttpNo::NoMemory) => Err(NoMemory),
        Err(why) => told(alloc, refusal_name(why)),
    }
}

// The result of reading a source, and the bytes that are left, if there are any.
fn read_and_rest<S: Source>(alloc: Global, source: &mut S) -> Result<String, NoMemory> {
    let mut out = read(alloc, source)?;
    let left = rest(alloc, source)?;
    if !left.is_empty() {
        let text = told_quoted(alloc, as_text(&left))?;
        push_field(&mut out, "left ", text.as_str())?;
    }
    Ok(out)
}

/// `ask|BYTES`: the request that is read from a source with these bytes, or the refusal, and the first hundred of the bytes
/// that are left.
pub fn ask(alloc: Global, field: &str) -> Result<String, NoMemory> {
    let mut source = MemorySource::new(line_bytes(alloc, field)?);
    read_and_rest(alloc, &mut source)
}

/// `cut|MOST|BYTES`: the same for a source that gives at most MOST bytes at a call.
pub fn cut(alloc: Global, most: &str, field: &str) -> Result<String, NoMemory> {
    let Ok(most) = most.parse::<usize>() else {
        return told(alloc, "no number");
    };
    let bytes = line_bytes(alloc, field)?;
    let mut source = slow(alloc, &bytes, most, 0)?;
    read_and_rest(alloc, &mut source)
}

/// `fault|CALL|BYTES`: the same for a source that gives one byte at a call, and whose call with this number fails.
pub fn fault(alloc: Global, call: &str, field: &str) -> Result<String, NoMemory> {
    let Ok(call) = call.parse::<u64>() else {
        return told(alloc, "no number");
    };
    let bytes = line_bytes(alloc, field)?;
    let mut source = slow(alloc, &bytes, 1, call)?;
    read_and_rest(alloc, &mut source)
}

// Whether a source with these bytes ends early.
fn ends_early(alloc: Global, bytes: &[u8]) -> Result<bool, NoMemory> {
    let mut source = MemorySource::new(Vec::from_slice(alloc, bytes)?);
    let answer = read(alloc, &mut source)?;
    Ok(answer.as_str() == "EndedEarly")
}

// The number of proper prefixes of the bytes that end early.
fn count_early(alloc: Global, bytes: &[u8]) -> Result<usize, NoMemory> {
    let mut count: usize = 0;
    for length in 0..bytes.len() {
        if ends_early(alloc, &bytes[..length])? {
            count = count.saturating_add(1);
        }
    }
    Ok(count)
}

/// `fronts|BYTES`: the number of proper prefixes of these bytes for which the input ended early, the number of bytes, and the
/// result of reading all of them.
pub fn fronts(alloc: Global, field: &str) -> Result<String, NoMemory> {
    let bytes = line_bytes(alloc, field)?;
    let count = count_early(alloc, &bytes)?;
    let length = bytes.len();
    let mut source = MemorySource::new(bytes);
    let whole = read(alloc, &mut source)?;
    Ok(format!(in alloc; "{count} of {length} / {}", whole.as_str())?)
}
