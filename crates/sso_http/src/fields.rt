// The fields of a head (RFC 9110, 5).

ghost use Rattle.std.specs.Prelude.{◌≡◌, map, length, option_copied, All, IfOk};
ghost use Rattle.std.specs.Str.{str_eq_ignore_ascii_case};
ghost use Rattle.httparse.specs.Spans.{IsHeaderWithin, header_bytes};
ghost use Rattle.sso_http.specs.Fields as spec;

use httparse::spans::HeaderSpan;
use sso_base::NoMemory;
use std::alloc::Global;

/// Whether two names are the same, up to the case of ASCII letters.
pub(crate) fn is_same_name(one: &[u8], other: &[u8]) -> bool
    ensures { result ≡ str_eq_ignore_ascii_case one.now other.now }
{
    one.eq_ignore_ascii_case(other)
}

/// The values of the fields with a name, up to the case of ASCII letters.
pub(crate) fn values<'b>(
    alloc: Global,
    bytes: &'b [u8],
    spans: &[HeaderSpan],
    name: &[u8],
) -> Result<Vec<&'b [u8]>, NoMemory>
    requires { All (IsHeaderWithin (length bytes.now)) spans.now }
    ensures { IfOk result (λ v. map (λ w. w.now) v.items ≡ spec.values_of name.now (map (header_bytes bytes.now) spans.now)) }
{
    let mut values = Vec::new(alloc);
    for span in spans {
        if is_same_name(span.name.of(bytes), name) {
            values.push(span.value.of(bytes))?;
        }
    }
    Ok(values)
}

/// The value, if there is exactly one.
pub(crate) fn only<'b>(values: &[&'b [u8]]) -> Option<&'b [u8]>
    ensures { option_copied result ≡ spec.only_of (map (λ v. v.now) values.now) }
{
    if values.len() == 1 {
        Some(values[0])
    } else {
        None
    }
}

/// The first value.
pub(crate) fn first<'b>(values: &[&'b [u8]]) -> Option<&'b [u8]>
    ensures { option_copied result ≡ spec.first_of (map (λ v. v.now) values.now) }
{
    if values.is_empty() {
        None
    } else {
        Some(values[0])
    }
}
