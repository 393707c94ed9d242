// The refusals of requests.

use server_desk::SourceFault;
use sso_base::NoMemory;

/// Why a request is refused. If several reasons apply, the first of this list is returned, except that `NoMemory` may come any
/// time.
#[derive(Clone, Copy, Debug, PartialEq, Eq)]
pub enum HttpNo {
    /// Memory ran out.
    NoMemory,
    /// The source failed.
    ReadFault,
    /// The input ended before the request did.
    EndedEarly,
    /// The first 16,384 bytes do not end a head.
    HeadTooLong,
    /// The bytes up to the end of the head are not a request head of HTTP/1.0 or HTTP/1.1 with at most 64 fields (RFC 9112, 2
    /// to 5).
    BadHead,
    /// There is a `Transfer-Encoding` field (RFC 9112, 6.1).
    Transfer,
    /// A POST does not have exactly one decimal `Content-Length` (RFC 9110, 8.6).
    NoLength,
    /// Its body is longer than 32,768 bytes.
    BodyTooLong,
    /// The target does not begin with `/` (RFC 9112, 3.2.1).
    BadTarget,
    /// One of the server's two cookies is present twice.
    CookieTwice,
}

impl From<NoMemory> for HttpNo {
    ghost use Rattle.std.specs.Prelude.{◌≡◌};
    ghost use Rattle.sso_http.specs.declared.no.HttpNo.TheVariants as no;

    ghost from_gives = { λ _ e. e ≡ no.NoMemory };

    fn from(_error: NoMemory) -> HttpNo {
        HttpNo::NoMemory
    }
}

impl From<SourceFault> for HttpNo {
    ghost use Rattle.std.specs.Prelude.{◌≡◌};
    ghost use Rattle.sso_http.specs.declared.no.HttpNo.TheVariants as no;

    ghost from_gives = { λ _ e. e ≡ no.ReadFault };

    fn from(_error: SourceFault) -> HttpNo {
        HttpNo::ReadFault
    }
}
