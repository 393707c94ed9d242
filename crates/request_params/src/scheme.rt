// The scheme of an `Authorization` header, and the text after it (RFC 9110, 11.6.2).

ghost use Rattle.std.specs.Prelude.{◌≡◌, option_map};
ghost use Rattle.request_params.specs.Scheme.{split_once as split_at_first, scheme_of as scheme};

/// The parts before and after the first such byte, if there is one. It allocates nothing.
pub fn split_once(bytes: &[u8], mark: u8) -> Option<(&[u8], &[u8])>
    ensures { option_map (λ parts. (parts.0.now, parts.1.now)) result ≡ split_at_first mark bytes.now }
{
    for (place, byte) in bytes.iter().enumerate() {
        if *byte == mark {
            return Some((&bytes[..place], &bytes[place + 1..]));
        }
    }
    None
}

/// The scheme of an `Authorization` header: the text before its first space, or the whole header if there is none (RFC 9110,
/// 11.6.2). It allocates nothing.
pub fn scheme_of(header: &[u8]) -> &[u8]
    ensures { result.now ≡ scheme header.now }
{
    match split_once(header, b' ') {
        Some((scheme, _rest)) => scheme,
        None => header,
    }
}
