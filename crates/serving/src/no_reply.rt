// Why a connection gets no reply of a core, and what is sent instead.

ghost use Rattle.std.specs.Prelude.{◌≡◌, ◌≢◌, ℕ, List, IfOk, IsErr};
ghost use Rattle.http_reply.specs.Replies.{plain};
ghost use Rattle.sso_http.specs.Replies.{reply_bytes};
ghost use Rattle.serving.specs.Told as spec;

use crate::ends::ServedEnd;
use http_reply::plain;
use sso_base::{Blob, NoMemory};
use sso_http::{HttpNo, print_http_no, print_reply};
use std::alloc::Global;

/// The reply to a request that proves a password, if as many workers as may are at that.
const BUSY: &[u8] =
    b"HTTP/1.1 503 Service Unavailable\r\nRetry-After: 1\r\nCache-Control: no-store\r\nContent-Type: text/plain; charset=utf-8\r\n\
      Content-Length: 5\r\nConnection: close\r\n\r\nbusy\n";

/// Why a connection gets no reply of a core.
#[derive(Clone, Copy, Debug, PartialEq, Eq)]
pub enum NoReply {
    /// Memory ran out.
    NoMemory,
    /// The request was refused.
    Http(HttpNo),
    /// The link to another server failed.
    Link,
    /// The answer of another server is not HTTP.
    Peer,
    /// The request, or the answer of another server, is larger than the server takes.
    TooLarge,
    /// The request proves a password, and as many workers as may prove passwords, or wait for that.
    Busy,
    /// The core refused a step, since its history would be too heavy.
    Full,
}

impl From<NoMemory> for NoReply {
    ghost use Rattle.std.specs.Prelude.{◌≡◌};
    ghost use Rattle.serving.specs.declared.no_reply.NoReply.TheVariants as no;

    ghost from_gives = { λ _ e. e ≡ no.NoMemory };

    fn from(_error: NoMemory) -> NoReply {
        NoReply::NoMemory
    }
}

impl NoReply {
    /// How the serving of the connection ends after this was sent.
    pub fn end(&self) -> ServedEnd
        ensures { result ≡ spec.end_without self.now }
    {
        match self {
            NoReply::NoMemory => ServedEnd::NoMemory,
            NoReply::Http(why) => ServedEnd::Http(*why),
            NoReply::Link => ServedEnd::Link,
            NoReply::Peer => ServedEnd::Peer,
            NoReply::TooLarge => ServedEnd::TooLarge,
            NoReply::Busy => ServedEnd::Busy,
            NoReply::Full => ServedEnd::Full,
        }
    }
}

// A line of text with this status.
fn line(alloc: Global, status: u16, word: &str) -> Result<Blob, NoMemory>
    ensures { IfOk result (λ b. b ≡ reply_bytes (plain status word.now)) }
{
    let reply = plain(alloc, status, word)?;
    print_reply(alloc, &reply)
}

// That the client is to come again in a second.
#[tactic(auto, unfolding(crate::specs::Told::busy_bytes))]
fn busy(alloc: Global) -> Result<Blob, NoMemory>
    ensures { IfOk result (λ b. b ≡ spec.busy_bytes) }
{
    Blob::new(alloc, BUSY)
}

/// The bytes to send instead of a reply. `None` if nobody would receive them. If memory ran out, this takes none and returns
/// `NoMemory`.
#[tactic(auto, unfolding(crate::specs::Told::bytes_without))]
pub fn told(alloc: Global, no: &NoReply) -> Result<Option<Blob>, NoMemory>
    requires { no.now ≢ NoReply.Http HttpNo.NoMemory }
    ensures told { IfOk result (λ o. o ≡ spec.bytes_without no.now) }
    ensures memory { no.now ≡ NoReply.NoMemory → IsErr result }
{
    match no {
        NoReply::NoMemory => Err(NoMemory),
        NoReply::Http(why) => print_http_no(alloc, why),
        NoReply::Link => Ok(Some(line(alloc, 502, "link")?)),
        NoReply::Peer => Ok(Some(line(alloc, 502, "peer")?)),
        NoReply::TooLarge => Ok(Some(line(alloc, 413, "size")?)),
        NoReply::Busy => Ok(Some(busy(alloc)?)),
        NoReply::Full => Ok(Some(line(alloc, 503, "journal")?)),
    }
}
