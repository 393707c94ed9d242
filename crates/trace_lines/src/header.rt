// The first line of a trace.

ghost use Rattle.std.specs.Prelude.{◌≡◌};
ghost use Rattle.std.specs.List.{list_all};
ghost use Rattle.trace_lines.specs.Header.{is_lower_hex, seed_of, seed_of_digits};

use hex::FromHex;

fn are_lower_hex(digits: &[u8]) -> bool
    ensures { result ≡ list_all is_lower_hex digits.now }
{
    digits.iter().all(|b| (b'0' <= *b && *b <= b'9') || (b'a' <= *b && *b <= b'f'))
}

fn read_seed(digits: &[u8]) -> Option<[u8; 24]>
    ensures { result ≡ seed_of_digits digits.now }
{
    if !are_lower_hex(digits) {
        return None;
    }
    <[u8; 24] as FromHex>::from_hex(digits).ok()
}

// The seed in the line `sso-trace 1 SEED`: 24 bytes, as 48 lower-case hexadecimal digits. `None` for any other line.
pub(crate) fn read_header(line: &[u8]) -> Option<[u8; 24]>
    ensures { result ≡ seed_of line.now }
{
    read_seed(line.strip_prefix(b"sso-trace 1 ".as_slice())?)
}
