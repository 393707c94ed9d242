// The fields about a body (RFC 9112, 6.1; RFC 9110, 8.3 and 8.6).

ghost use Rattle.std.specs.Prelude.{◌≡◌, map, length, All, IfOk};
ghost use Rattle.httparse.specs.Spans.{IsHeaderWithin, header_bytes};
ghost use Rattle.sso_http.specs.Bodies as spec;
ghost use Rattle.sso_http.specs.Fields.{first_of};
ghost use Rattle.sso_http.specs.Told.{IsTold};

use crate::blanks::{position, trimmed};
use crate::decimals::{is_decimal, number};
use crate::fields::{first, is_same_name, only, values};
use crate::no::HttpNo;
use httparse::spans::HeaderSpan;
use sso_base::{Method, NoMemory};
use std::alloc::Global;

// The most bytes of a body.
const MOST_BODY: usize = 32_768;

/// Whether there is a transfer coding.
pub(crate) fn has_transfer(
    alloc: Global,
    bytes: &[u8],
    spans: &[HeaderSpan],
) -> Result<bool, NoMemory>
    requires { All (IsHeaderWithin (length bytes.now)) spans.now }
    ensures { IfOk result (λ b. b ≡ spec.has_transfer (map (header_bytes bytes.now) spans.now)) }
{
    let found = values(alloc, bytes, spans, b"transfer-encoding")?;
    Ok(!found.is_empty())
}

// The length of a body, from the values of the `Content-Length` fields.
fn length_of(values: &[&[u8]]) -> Result<usize, HttpNo>
    ensures { IsTold result (spec.length_of (map (λ v. v.now) values.now)) }
{
    let Some(value) = only(values) else {
        return Err(HttpNo::NoLength);
    };
    if !is_decimal(value) {
        return Err(HttpNo::NoLength);
    }
    let count = number(value);
    if count > MOST_BODY {
        return Err(HttpNo::BodyTooLong);
    }
    Ok(count)
}

/// The length of the body in bytes. Only a POST has one.
pub(crate) fn body_length(
    alloc: Global,
    method: Method,
    bytes: &[u8],
    spans: &[HeaderSpan],
) -> Result<usize, HttpNo>
    requires { All (IsHeaderWithin (length bytes.now)) spans.now }
    ensures { IsTold result (spec.body_length method (map (header_bytes bytes.now) spans.now)) }
{
    match method {
        Method::Post => {
            let found = values(alloc, bytes, spans, b"content-length")?;
            length_of(&found)
        }
        Method::Get | Method::Other => Ok(0),
    }
}

// Whether the media type is that of a form, with or without parameters.
fn is_form_type(value: &[u8]) -> bool
    ensures { result ≡ spec.is_form_type value.now }
{
    let name = &value[..position(value, b';')];
    is_same_name(trimmed(true, name), b"application/x-www-form-urlencoded")
}

// Whether the body is a form, from the values of the `Content-Type` fields.
fn is_form(values: &[&[u8]]) -> bool
    ensures { result ≡ spec.is_form (first_of (map (λ v. v.now) values.now)) }
{
    match first(values) {
        Some(value) => is_form_type(value),
        None => false,
    }
}

/// Whether the body is a form.
pub(crate) fn has_form(
    alloc: Global,
    method: Method,
    bytes: &[u8],
    spans: &[HeaderSpan],
) -> Result<bool, NoMemory>
    requires { All (IsHeaderWithin (length bytes.now)) spans.now }
    ensures { IfOk result (λ b. b ≡ spec.has_form method (map (header_bytes bytes.now) spans.now)) }
{
    match method {
        Method::Post => {
            let found = values(alloc, bytes, spans, b"content-type")?;
            Ok(is_form(&found))
        }
        Method::Get | Method::Other => Ok(false),
    }
}
