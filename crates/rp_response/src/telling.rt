// Replies in HTTP.

ghost use Rattle.std.specs.Prelude.{◌≡◌, ◌<◌, length, IfOk};
ghost use Rattle.client_registry.specs.Numbers.{party_client};
ghost use Rattle.rp_response.specs.Telling as spec;

use crate::cookies::{browser_cookies, session_cookies};
use crate::full_pages::{left_page, nobody_page, refused_page, user_page};
use crate::page::fragment_page;
use crate::refusals::refusal_line;
use client_registry::{Client, Registry};
use html_pages::shown;
use http_reply::{concatenated, empty, html, plain, sent_to};
use oidc_words::HOME_PATH;
use rp_exchange::{RpNo, RpReply};
use sso_base::{HttpReply, NoMemory, Text, Texts, Word};
use std::alloc::Global;

fn asked(
    alloc: Global,
    registry: &Registry,
    party: u32,
    to: &Text,
    browser: &Word,
) -> Result<HttpReply, NoMemory>
    requires { party < length registry.now.parties }
    ensures { IfOk result (λ h. h ≡ spec.asked registry.now party to.now browser.now) }
{
    let cookies = browser_cookies(alloc, registry, party, browser)?;
    Ok(sent_to(alloc, to.copy(alloc)?, cookies))
}

fn entered(
    alloc: Global,
    registry: &Registry,
    party: u32,
    session: &Word,
) -> Result<HttpReply, NoMemory>
    requires { party < length registry.now.parties }
    ensures { IfOk result (λ h. h ≡ spec.entered registry.now party session.now) }
{
    let cookies = session_cookies(alloc, registry, party, session)?;
    Ok(sent_to(alloc, Text::new(alloc, HOME_PATH)?, cookies))
}

fn fragment(alloc: Global) -> Result<HttpReply, NoMemory>
    ensures { IfOk result (λ h. h ≡ spec.fragment) }
{
    let page = fragment_page(alloc)?;
    Ok(html(Texts::new(alloc), page))
}

// The party's client.
fn client_of(registry: &Registry, party: u32) -> &Client
    requires { party < length registry.now.parties }
    ensures { result.now ≡ party_client registry.now party }
{
    // The contract of `parties` states the invariant of every registry: the client of each of its parties exists.
    let _parties = registry.parties();
    let number = registry.party(party).client;
    registry.client(number)
}

fn user(alloc: Global, registry: &Registry, party: u32, sub: &Text) -> Result<HttpReply, NoMemory>
    requires { party < length registry.now.parties }
    ensures { IfOk result (λ h. h ≡ spec.user registry.now party sub.now) }
{
    let title = client_of(registry, party).title.as_str();
    let page = user_page(alloc, registry.full_pages(), title, sub.as_str())?;
    let line = concatenated(alloc, "user ", sub.as_str())?;
    shown(alloc, 200, page, line.as_str())
}

fn nobody(alloc: Global, registry: &Registry, party: u32) -> Result<HttpReply, NoMemory>
    requires { party < length registry.now.parties }
    ensures { IfOk result (λ h. h ≡ spec.nobody registry.now party) }
{
    let title = client_of(registry, party).title.as_str();
    let page = nobody_page(alloc, registry.full_pages(), title)?;
    shown(alloc, 200, page, "nobody")
}

fn left(alloc: Global, registry: &Registry, party: u32) -> Result<HttpReply, NoMemory>
    requires { party < length registry.now.parties }
    ensures { IfOk result (λ h. h ≡ spec.left registry.now party) }
{
    let title = client_of(registry, party).title.as_str();
    let page = left_page(alloc, registry.full_pages(), title)?;
    shown(alloc, 200, page, "left")
}

// The status of an error.
fn refused_status(why: &RpNo) -> u16
    ensures { result ≡ spec.refused_status why.now }
{
    match why {
        RpNo::Full(_) => 503,
        _ => 400,
    }
}

fn refused(
    alloc: Global,
    registry: &Registry,
    party: u32,
    why: &RpNo,
) -> Result<HttpReply, NoMemory>
    requires { party < length registry.now.parties }
    ensures { IfOk result (λ h. h ≡ spec.refused registry.now party why.now) }
{
    let line = refusal_line(alloc, why)?;
    let title = client_of(registry, party).title.as_str();
    let page = refused_page(alloc, registry.full_pages(), title, why, line.as_str())?;
    shown(alloc, refused_status(why), page, line.as_str())
}

/// The HTTP reply for this reply of the party with this number in the registry.
///
/// An authorization request and a new session redirect the user agent with status 303, to the provider and to `/`. The former
/// sets the browser's cookie `NAME_b` and the latter the session's `NAME_s`, where `NAME` is the party's. A cookie is a word's
/// text, for every path, `HttpOnly`, `SameSite=Lax` and, if the issuer is https, `Secure` (RFC 6265, 4.1). If the registry says so,
/// both names begin with `__Host-`.
///
/// The fragment page is HTML; it reads the fragment and posts it to its own location. The reply to an accepted logout is empty,
/// with status 200 (OpenID Connect Back-Channel Logout 1.0, 2.8). The replies that show who is logged in, and that a session is
/// over, are one line of text, or HTML if pages are full. An error has status 400, or 503 if a table is full. It is its line, or
/// HTML with this line if pages are full, except that of a logout token. An unknown path has status 404.
///
/// A reply that is waiting for the provider has status 502, and does not show its message.
///
/// The party's number must be below the number of the registry's parties.
#[tactic(auto, unfolding(crate::specs::Telling::http_of))]
pub fn rp_http(
    alloc: Global,
    registry: &Registry,
    party: u32,
    reply: &RpReply,
) -> Result<HttpReply, NoMemory>
    requires { party < length registry.now.parties }
    ensures { IfOk result (λ h. h ≡ spec.http_of registry.now party reply.now) }
{
    match reply {
        RpReply::Ask { to, browser } => asked(alloc, registry, party, to, browser),
        RpReply::Fragment => fragment(alloc),
        RpReply::Exchange { .. } | RpReply::Fetch { .. } => plain(alloc, 502, "pending"),
        RpReply::Entered { session, .. } => entered(alloc, registry, party, session),
        RpReply::User { sub } => user(alloc, registry, party, sub),
        RpReply::Nobody => nobody(alloc, registry, party),
        RpReply::Left { .. } => left(alloc, registry, party),
        RpReply::Ended { .. } => Ok(empty(alloc)),
        RpReply::Refused { why } => refused(alloc, registry, party, why),
        RpReply::NotHere => plain(alloc, 404, "not here"),
    }
}
