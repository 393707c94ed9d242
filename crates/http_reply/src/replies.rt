// Kinds of replies.

ghost use Rattle.std.specs.Prelude.{◌≡◌, IfOk};
ghost use Rattle.http_reply.specs.Replies as spec;

use crate::joining::joined;
use sso_base::{Blob, HttpReply, Kind, NoMemory, Text, Texts};
use std::alloc::Global;

/// A page of HTML, with cookies; the status is 200 (RFC 9110, 15.3.1).
pub fn html(cookies: Texts, page: Blob) -> HttpReply
    ensures { result ≡ spec.html cookies page }
{
    HttpReply {
        status: 200,
        pragma: false,
        location: None,
        cookies,
        challenge: None,
        kind: Kind::Html,
        body: page,
    }
}

/// A line of text with a line feed, and this status.
pub fn plain(alloc: Global, status: u16, line: &str) -> Result<HttpReply, NoMemory>
    ensures { IfOk result (λ h. h ≡ spec.plain status line.now) }
{
    Ok(HttpReply {
        status,
        pragma: false,
        location: None,
        cookies: Texts::new(alloc),
        challenge: None,
        kind: Kind::Plain,
        body: Blob::from_vec(joined(alloc, &[line, "\n"])?.into_bytes()),
    })
}

/// An empty reply; the status is 200 (RFC 9110, 15.3.1).
pub fn empty(alloc: Global) -> HttpReply
    ensures { result ≡ spec.empty }
{
    HttpReply {
        status: 200,
        pragma: false,
        location: None,
        cookies: Texts::new(alloc),
        challenge: None,
        kind: Kind::Empty,
        body: Blob::from_vec(Vec::new(alloc)),
    }
}

/// A redirect of the user agent to this location, with these cookies; the status is 303 (RFC 9110, 15.4.4).
pub fn sent_to(alloc: Global, location: Text, cookies: Texts) -> HttpReply
    ensures { result ≡ spec.sent_to location cookies }
{
    HttpReply {
        status: 303,
        pragma: false,
        location: Some(location),
        cookies,
        challenge: None,
        kind: Kind::Empty,
        body: Blob::from_vec(Vec::new(alloc)),
    }
}
