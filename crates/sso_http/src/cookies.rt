// The cookies of a request (RFC 6265, 5.4).

ghost use Rattle.std.specs.Prelude.{◌≡◌, map, length, option_map, option_copied, All, IfOk};
ghost use Rattle.std.specs.List.{flat_map};
ghost use Rattle.httparse.specs.Spans.{IsHeaderWithin, header_bytes};
ghost use Rattle.sso_http.specs.Cookies as spec;
ghost use Rattle.sso_http.specs.Told.{IsTold};

use crate::blanks::{position, trimmed};
use crate::fields::values;
use crate::no::HttpNo;
use httparse::spans::HeaderSpan;
use sso_base::{NoMemory, Word};
use std::alloc::{AllocError, Global};

// The name and the value of a piece, if it has an equals sign.
fn pair(piece: &[u8]) -> Option<(&[u8], &[u8])>
    ensures { option_map (λ p. (p.0.now, p.1.now)) result ≡ spec.pair_of piece.now }
{
    let at = position(piece, b'=');
    if at < piece.len() {
        Some((&piece[..at], &piece[at + 1..]))
    } else {
        None
    }
}

// The value of a piece, if it has this name.
fn value_in<'b>(name: &[u8], piece: &'b [u8]) -> Option<&'b [u8]>
    ensures { option_copied result ≡ spec.value_in name.now piece.now }
{
    match pair(trimmed(false, piece)) {
        Some((other, value)) if other == name => Some(value),
        _ => None,
    }
}

// The pieces of a field's value, cut at semicolons.
fn pieces(alloc: Global, value: &[u8]) -> Result<Vec<&[u8]>, AllocError>
    ensures { IfOk result (λ v. map (λ w. w.now) v.items ≡ spec.pieces_of value.now) }
{
    value.split(|&b| b == b';').collect(alloc)
}

// The pieces of all values, in order.
fn all_pieces<'b>(alloc: Global, values: &[&'b [u8]]) -> Result<Vec<&'b [u8]>, NoMemory>
    ensures { IfOk result (λ v. map (λ w. w.now) v.items ≡ flat_map spec.pieces_of (map (λ w. w.now) values.now)) }
{
    let mut all = Vec::new(alloc);
    for value in values {
        let found = pieces(alloc, value)?;
        all.extend_from_slice(&found)?;
    }
    Ok(all)
}

// The values with this name, in order.
fn named_values<'b>(
    alloc: Global,
    name: &[u8],
    pieces: &[&'b [u8]],
) -> Result<Vec<&'b [u8]>, NoMemory>
    ensures { IfOk result (λ v. map (λ w. w.now) v.items ≡ spec.named_values name.now (map (λ w. w.now) pieces.now)) }
{
    let mut found = Vec::new(alloc);
    for piece in pieces {
        if let Some(value) = value_in(name, piece) {
            found.push(value)?;
        }
    }
    Ok(found)
}

// The word of the single value. A value that is not the text of a word counts as absent.
fn word_of(values: &[&[u8]]) -> Result<Option<Word>, HttpNo>
    ensures { IsTold result (spec.word_of (map (λ v. v.now) values.now)) }
{
    if values.is_empty() {
        return Ok(None);
    }
    if values.len() > 1 {
        return Err(HttpNo::CookieTwice);
    }
    Ok(Word::read(values[0]))
}

// The word in the cookie with this name, from the values of the `Cookie` fields.
fn word_named(alloc: Global, values: &[&[u8]], name: &[u8]) -> Result<Option<Word>, HttpNo>
    ensures { IsTold result (spec.word_of (spec.named_values name.now (flat_map spec.pieces_of (map (λ v. v.now) values.now)))) }
{
    let pieces = all_pieces(alloc, values)?;
    let found = named_values(alloc, name, &pieces)?;
    word_of(&found)
}

/// The word in the cookie with this name.
pub(crate) fn cookie_word(
    alloc: Global,
    bytes: &[u8],
    spans: &[HeaderSpan],
    name: &[u8],
) -> Result<Option<Word>, HttpNo>
    requires { All (IsHeaderWithin (length bytes.now)) spans.now }
    ensures { IsTold result (spec.word_of (spec.cookies_of name.now (map (header_bytes bytes.now) spans.now))) }
{
    let found = values(alloc, bytes, spans, b"cookie")?;
    word_named(alloc, &found, name)
}
