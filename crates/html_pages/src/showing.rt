// The reply that shows a page, or a line of text.

ghost use Rattle.std.specs.Prelude.{◌≡◌, [], Some, IfOk};
ghost use Rattle.html_pages.specs.Documents as spec;

use http_reply::plain;
use sso_base::{Blob, HttpReply, Kind, NoMemory, Texts};
use std::alloc::Global;

fn page_shown(alloc: Global, status: u16, page: Blob) -> HttpReply
    ensures { result ≡ spec.shown status (Some page) [] }
{
    HttpReply {
        status,
        pragma: false,
        location: None,
        cookies: Texts::new(alloc),
        challenge: None,
        kind: Kind::Html,
        body: page,
    }
}

/// The reply with this status that shows a page, or a line of text with a line feed if there is no page.
pub fn shown(
    alloc: Global,
    status: u16,
    page: Option<Blob>,
    line: &str,
) -> Result<HttpReply, NoMemory>
    ensures { IfOk result (λ h. h ≡ spec.shown status page line.now) }
{
    match page {
        Some(page) => Ok(page_shown(alloc, status, page)),
        None => plain(alloc, status, line),
    }
}
