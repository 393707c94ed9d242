// The `Authorization` header of a request with a bearer token.

ghost use Rattle.std.specs.Prelude.{◌≡◌, option_map};
ghost use Rattle.sso_base.specs.Words.{word_of_text};
ghost use Rattle.request_params.specs.Scheme.{is_bearer as is_bearer_scheme};
ghost use Rattle.userinfo.specs.Header.{if_word, header_read, bearer_read};

use request_params::{scheme_of, split_once};
use sso_base::Word;

/// The bearer token that a request presents (RFC 6750, 2.1).
#[derive(Clone, Copy, PartialEq, Eq)]
pub enum Bearer {
    /// There is no header, or it is of another scheme.
    Absent,
    /// The scheme is `Bearer`, but one space and the text of a word do not follow.
    Unreadable,
    /// The word in the header.
    Given(Word),
}

// Whether the scheme is `Bearer`, in any case (RFC 9110, 11.1).
fn is_bearer(scheme: &[u8]) -> bool
    ensures { result ≡ is_bearer_scheme scheme.now }
{
    scheme.eq_ignore_ascii_case(b"bearer")
}

// The word of this text.
fn read_word(text: &[u8]) -> Bearer
    ensures { result ≡ if_word (word_of_text text.now) }
{
    match Word::read(text) {
        Some(word) => Bearer::Given(word),
        None => Bearer::Unreadable,
    }
}

// The bearer token of a present header.
fn read_header(header: &[u8]) -> Bearer
    ensures { result ≡ header_read header.now }
{
    if !is_bearer(scheme_of(header)) {
        return Bearer::Absent;
    }
    match split_once(header, b' ') {
        Some((_scheme, text)) => read_word(text),
        None => Bearer::Unreadable,
    }
}

/// The bearer token of an `Authorization` header: `Bearer` in any case, one space and the text of a word, and nothing else (RFC
/// 6750, 2.1; RFC 9110, 11.1). The scheme is the text before the first space, or the whole header if there is none. It
/// allocates nothing.
#[tactic(auto, unfolding(crate::specs::Header::bearer_read))]
pub fn read_bearer(auth: Option<&[u8]>) -> Bearer
    ensures { result ≡ bearer_read (option_map (λ h. h.now) auth.entry) }
{
    match auth {
        Some(header) => read_header(header),
        None => Bearer::Absent,
    }
}
