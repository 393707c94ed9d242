// Requests with their senders and recipients.

ghost use Rattle.std.specs.Prelude.{◌≡◌, IfOk};
ghost use Rattle.web_requests.specs.Sending as spec;

use sso_base::{Ask, Blob, Method, NoMemory, Text};
use sso_places::{Jar, To, WorldAsk};
use std::alloc::Global;

/// A request with its sender and its recipient.
#[derive(Drop)]
pub struct Sent {
    /// The number of the browser, or 0 for a server.
    pub from: u32,
    /// The recipient.
    pub to: To,
    /// The request.
    pub ask: WorldAsk,
}

// A request under a number.
pub(crate) fn under_number(from: u32, to: To, ask: Ask) -> Sent
    ensures { result ≡ spec.sent from to ask }
{
    Sent {
        from,
        to,
        ask: WorldAsk::Http(ask),
    }
}

// A GET of this path with this query.
pub(crate) fn got(alloc: Global, path: Text, query: &[u8], jar: &Jar) -> Result<Ask, NoMemory>
    ensures { IfOk result (λ a. a ≡ spec.got path query.now jar.now) }
{
    Ok(Ask {
        method: Method::Get,
        path,
        query: Blob::new(alloc, query)?,
        body: None,
        first: jar.first,
        second: jar.second,
        auth: None,
    })
}

// A POST to this path, of a form or without a body.
pub(crate) fn posted(alloc: Global, path: Text, body: Option<Blob>, jar: &Jar) -> Ask
    ensures { result ≡ spec.posted path body jar.now }
{
    Ask {
        method: Method::Post,
        path,
        query: Blob::from_vec(Vec::new(alloc)),
        body,
        first: jar.first,
        second: jar.second,
        auth: None,
    }
}
