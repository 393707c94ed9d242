// Parses the answers of peers.

ghost use Rattle.std.specs.Prelude.{◌≡◌, ◌≤◌, ℕ, true, false, List, length, take, map, All, option_copied, IfOk, IfSome, IfNone};
ghost use Rattle.httparse.specs.Grammar.{ResponseHead};
ghost use Rattle.httparse.specs.Spans.{IsHeaderWithin, header_bytes};
ghost use Rattle.sso_http.specs.Judging.{most_fields};
ghost use Rattle.sso_http.specs.Peers as spec;

use crate::bodies::has_transfer;
use crate::decimals::short_decimal;
use crate::fields::values;
use httparse::Status;
use httparse::spans::{EMPTY_HEADER_SPAN, HeaderSpan, parse_response};
use sso_base::{Answered, Blob, NoMemory};
use std::alloc::Global;

// The first `count` bytes, if there are that many.
fn front_of(rest: &[u8], count: usize) -> Option<&[u8]>
    ensures { option_copied result ≡ spec.front_of rest.now count }
{
    if count <= rest.len() {
        Some(&rest[..count])
    } else {
        None
    }
}

// The body, from the values of the `Content-Length` fields and the bytes after the head.
fn cut_body<'b>(values: &[&[u8]], rest: &'b [u8]) -> Option<&'b [u8]>
    ensures { option_copied result ≡ spec.cut_body (map (λ v. v.now) values.now) rest.now }
{
    if values.is_empty() {
        return Some(rest);
    }
    if values.len() > 1 {
        return None;
    }
    front_of(rest, short_decimal(values[0])?)
}

// The body, from the fields and the bytes after the head.
#[tactic(auto, unfolding(crate::specs::Peers::peer_body))]
fn peer_body<'b>(
    alloc: Global,
    bytes: &[u8],
    spans: &[HeaderSpan],
    rest: &'b [u8],
) -> Result<Option<&'b [u8]>, NoMemory>
    requires { All (IsHeaderWithin (length bytes.now)) spans.now }
    ensures { IfOk result (λ o. option_copied o ≡ spec.peer_body (map (header_bytes bytes.now) spans.now) rest.now) }
{
    if has_transfer(alloc, bytes, spans)? {
        return Ok(None);
    }
    let lengths = values(alloc, bytes, spans, b"content-length")?;
    Ok(cut_body(&lengths, rest))
}

// The parts of a response head: the status, the number of fields, and the bytes after it.
fn parts<'b>(bytes: &'b [u8], spans: &mut [HeaderSpan; 64]) -> Option<(u16, usize, &'b [u8])>
    ensures within { IfSome result (λ p. (p.1 ≤ most_fields) × All (IsHeaderWithin (length bytes.now)) (take p.1 spans.new)) }
    ensures parts { IfSome result (λ p. spec.IsResponseParts bytes.now p.0 (map (header_bytes bytes.now) (take p.1 spans.new)) p.2.now) }
    ensures none { IfNone result ((h : ResponseHead) (rest : List ℕ) → ¬ (spec.IsResponse bytes.now h rest)) }
{
    match parse_response(bytes, spans) {
        Ok(Status::Complete(head)) => Some((head.code, head.headers, &bytes[head.len..])),
        _ => None,
    }
}

/// Parses the answer of a peer (RFC 9112, 4 to 6): a response head of HTTP/1.0 or HTTP/1.1 with at most 64 fields and no
/// `Transfer-Encoding`, and a body. The body is all bytes after the head. If there is a `Content-Length`, it is the first that
/// many of them. `None` if and only if the bytes are no such answer. This includes two `Content-Length` fields, one that is not
/// 1 to 9 decimal digits, and one that is more than the number of bytes after the head.
pub fn read_peer(alloc: Global, bytes: &[u8]) -> Result<Option<Answered>, NoMemory>
    ensures some { IfOk result (λ o. IfSome o (spec.IsAnswer bytes.now)) }
    ensures none { IfOk result (λ o. IfNone o (spec.IsNoAnswer bytes.now)) }
{
    let mut spans = [EMPTY_HEADER_SPAN; 64];
    let Some((status, count, rest)) = parts(bytes, &mut spans) else {
        return Ok(None);
    };
    let Some(body) = peer_body(alloc, bytes, &spans[..count], rest)? else {
        return Ok(None);
    };
    Ok(Some(Answered {
        status,
        body: Blob::new(alloc, body)?,
    }))
}

// Whether as many bytes are there as the one `Content-Length` says, from the values of these fields and the bytes after the head.
fn has_length(values: &[&[u8]], rest: &[u8]) -> bool
    ensures { result ≡ spec.has_length (map (λ v. v.now) values.now) rest.now }
{
    !values.is_empty() && cut_body(values, rest).is_some()
}

// Whether the body is whole by its length, from the fields and the bytes after the head.
#[tactic(auto, unfolding(crate::specs::Peers::is_whole_body))]
fn is_whole_body(
    alloc: Global,
    bytes: &[u8],
    spans: &[HeaderSpan],
    rest: &[u8],
) -> Result<bool, NoMemory>
    requires { All (IsHeaderWithin (length bytes.now)) spans.now }
    ensures { IfOk result (λ b. b ≡ spec.is_whole_body (map (header_bytes bytes.now) spans.now) rest.now) }
{
    if has_transfer(alloc, bytes, spans)? {
        return Ok(false);
    }
    let lengths = values(alloc, bytes, spans, b"content-length")?;
    Ok(has_length(&lengths, rest))
}

/// Whether the bytes of a peer's answer are all of it, by its one `Content-Length` (RFC 9112, 6.3): then [`read_peer`] takes them, and
/// what may follow is none of it. An answer without that field ends with its connection.
#[tactic(auto, using(crate::proofs::OnePeer::whole_by_parts, crate::proofs::OnePeer::not_whole_by_parts))]
pub fn is_whole(alloc: Global, bytes: &[u8]) -> Result<bool, NoMemory>
    ensures whole { IfOk result (λ b. b ≡ true → spec.IsWhole bytes.now) }
    ensures other { IfOk result (λ b. b ≡ false → spec.IsWhole bytes.now → ⊥) }
{
    let mut spans = [EMPTY_HEADER_SPAN; 64];
    match parts(bytes, &mut spans) {
        Some((_status, count, rest)) => is_whole_body(alloc, bytes, &spans[..count], rest),
        None => Ok(false),
    }
}
