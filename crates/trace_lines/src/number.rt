// Decimal numbers.

ghost use Rattle.std.specs.Prelude.{◌≡◌};
ghost use Rattle.trace_lines.specs.Number.{digits_from, number_of, number_within};

fn read_digits(word: &[u8]) -> Option<u64>
    ensures { result ≡ digits_from 0 word.now }
{
    let mut number = 0u64;
    for byte in word {
        if !byte.is_ascii_digit() {
            return None;
        }
        let digit = (*byte - b'0') as u64;
        number = number.checked_mul(10)?.checked_add(digit)?;
    }
    Some(number)
}

// The number of a word of decimal digits, without leading zeros and below 2^64. `None` if it is no such number.
pub(crate) fn read_number(word: &str) -> Option<u64>
    ensures { result ≡ number_of word.now }
{
    match word.as_bytes() {
        [] => None,
        [b'0'] => Some(0),
        [b'0', _, ..] => None,
        digits => read_digits(digits),
    }
}

// The number of a word, from `low` to `high`. `None` if it is no such number.
pub(crate) fn read_within(word: &str, low: u64, high: u64) -> Option<u64>
    ensures { result ≡ number_within low high word.now }
{
    let number = read_number(word)?;
    (low <= number && number <= high).then_some(number)
}
