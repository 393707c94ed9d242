// Parses and checks the head of a request.

ghost use Rattle.std.specs.Prelude.{◌≡◌, ◌≤◌, length, take, map, All, Ok, IfOk, IfErr, IfSome, IfNone};
ghost use Rattle.httparse.specs.Grammar.{RequestHead};
ghost use Rattle.httparse.specs.Spans.{IsHeaderWithin, header_bytes};
ghost use Rattle.sso_http.specs.Ascii.{credentials as credentials_of};
ghost use Rattle.sso_http.specs.Judging as spec;
ghost use Rattle.sso_http.specs.Told.{IsTold};

use crate::ascii::credentials;
use crate::bodies::{body_length, has_form, has_transfer};
use crate::cookies::cookie_word;
use crate::fields::values;
use crate::no::HttpNo;
use httparse::Status;
use httparse::spans::{EMPTY_HEADER_SPAN, HeaderSpan, parse_request};
use sso_base::{Ask, Blob, Method, NoMemory, Text, split_target};
use std::alloc::Global;

/// The request that a head makes.
#[derive(Drop)]
pub(crate) struct Judged {
    /// The request without its body.
    pub(crate) ask: Ask,
    /// The length of the body in bytes.
    pub(crate) count: usize,
    /// Whether the body is a form.
    pub(crate) form: bool,
}

// The credentials.
fn auth(alloc: Global, bytes: &[u8], spans: &[HeaderSpan]) -> Result<Option<Text>, NoMemory>
    requires { All (IsHeaderWithin (length bytes.now)) spans.now }
    ensures { IfOk result (λ t. t ≡ credentials_of (map (header_bytes bytes.now) spans.now)) }
{
    let found = values(alloc, bytes, spans, b"authorization")?;
    credentials(alloc, &found)
}

// Whether the target begins with a slash.
fn begins_with_slash(target: &str) -> bool
    ensures { result ≡ spec.begins_with_slash target.now }
{
    let bytes = target.as_bytes();
    !bytes.is_empty() && bytes[0] == b'/'
}

// Checks the parts of a head.
#[tactic(auto, unfolding(crate::specs::Judging::judgement_of))]
fn judge_parts(
    alloc: Global,
    method: Method,
    target: &str,
    bytes: &[u8],
    spans: &[HeaderSpan],
    first: &[u8],
    second: &[u8],
) -> Result<Judged, HttpNo>
    requires { All (IsHeaderWithin (length bytes.now)) spans.now }
    ensures { IsTold result (spec.judgement_of first.now second.now method target.now (map (header_bytes bytes.now) spans.now)) }
{
    if has_transfer(alloc, bytes, spans)? {
        return Err(HttpNo::Transfer);
    }
    let count = body_length(alloc, method, bytes, spans)?;
    if !begins_with_slash(target) {
        return Err(HttpNo::BadTarget);
    }
    let first = cookie_word(alloc, bytes, spans, first)?;
    let second = cookie_word(alloc, bytes, spans, second)?;
    let (path, query) = split_target(target);
    Ok(Judged {
        ask: Ask {
            method,
            path: Text::new(alloc, path)?,
            query: Blob::new(alloc, query.as_bytes())?,
            body: None,
            first,
            second,
            auth: auth(alloc, bytes, spans)?,
        },
        count,
        form: has_form(alloc, method, bytes, spans)?,
    })
}

// The parts of a head that is all of these bytes: the method, the target, and the number of fields.
fn parts<'b>(bytes: &'b [u8], spans: &mut [HeaderSpan; 64]) -> Option<(Method, &'b str, usize)>
    ensures within { IfSome result (λ p. (p.2 ≤ spec.most_fields) × All (IsHeaderWithin (length bytes.now)) (take p.2 spans.new)) }
    ensures parts { IfSome result (λ p. spec.IsParts bytes.now p.0 p.1.now (map (header_bytes bytes.now) (take p.2 spans.new))) }
    ensures none { IfNone result ((h : RequestHead) → ¬ (spec.IsHeadOf bytes.now h)) }
{
    let Ok(Status::Complete(head)) = parse_request(bytes, spans) else {
        return None;
    };
    if head.len != bytes.len() {
        return None;
    }
    let Ok(target) = std::str::from_utf8(head.path.of(bytes)) else {
        return None;
    };
    Some((Method::of_name(head.method.of(bytes)), target, head.headers))
}

/// Parses and checks the bytes of a head. `first` and `second` name the server's two cookies.
pub(crate) fn judge(
    alloc: Global,
    bytes: &[u8],
    first: &[u8],
    second: &[u8],
) -> Result<Judged, HttpNo>
    ensures ok { IfOk result (λ j. spec.IsJudged first.now second.now bytes.now (Ok j)) }
    ensures err { IfErr result (spec.RefusesHead first.now second.now bytes.now) }
{
    let mut spans = [EMPTY_HEADER_SPAN; 64];
    let Some((method, target, count)) = parts(bytes, &mut spans) else {
        return Err(HttpNo::BadHead);
    };
    judge_parts(alloc, method, target, bytes, &spans[..count], first, second)
}
