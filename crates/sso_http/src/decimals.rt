// Decimal numbers (RFC 9110, 8.6).

ghost use Rattle.std.specs.Prelude.{◌≡◌, ◌-◌, ◌^◌, min, true};
ghost use Rattle.std.specs.Char.{is_ascii_digit};
ghost use Rattle.std.specs.List.{list_all};
ghost use Rattle.std.specs.Str.Parse.{digits_value};
ghost use Rattle.sso_http.specs.Decimals as spec;

use crate::ascii::ascii_text;

// Whether each byte is a digit.
fn has_digits_alone(text: &[u8]) -> bool
    ensures { result ≡ list_all is_ascii_digit text.now }
{
    text.iter().all(|&b| b.is_ascii_digit())
}

/// Whether the text is one or more digits.
pub(crate) fn is_decimal(text: &[u8]) -> bool
    ensures { result ≡ spec.is_decimal text.now }
{
    !text.is_empty() && has_digits_alone(text)
}

// The number with these digits, or the greatest of 64 bits if it is greater.
fn parsed(digits: &str) -> usize
    requires { spec.is_decimal digits.now ≡ true }
    ensures { result ≡ min (digits_value 10 digits.now) (2 ^ 64 - 1) }
{
    digits.parse::<usize>().unwrap_or(usize::MAX)
}

/// The number with these digits, or the greatest of 64 bits if it is greater.
#[tactic(auto, using(crate::proofs::Numbers::digits_are_ascii))]
pub(crate) fn number(digits: &[u8]) -> usize
    requires { spec.is_decimal digits.now ≡ true }
    ensures { result ≡ min (digits_value 10 digits.now) (2 ^ 64 - 1) }
{
    parsed(ascii_text(digits))
}

/// The number with these 1 to 9 digits.
#[tactic(auto, using(crate::proofs::Numbers::short_is_small))]
pub(crate) fn short_decimal(text: &[u8]) -> Option<usize>
    ensures { result ≡ spec.short_decimal text.now }
{
    if text.len() > 9 || !is_decimal(text) {
        return None;
    }
    Some(number(text))
}
