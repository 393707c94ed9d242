// Reading a text as a URL, or rejecting it.

ghost use Rattle.std.specs.Prelude.{◌≡◌, ◌⊎◌, Some, None, IfOk, IfErr, codes};
ghost use Rattle.std.specs.List.{list_all};
ghost use Rattle.std.specs.Str.{bytes_eq};
ghost use Rattle.registered_url.specs.Rule.{is_visible, is_local, host_of, is_allowed, kept_parts, is_short_and_visible, parts_of, url_of};

use crate::web_url::WebUrl;
use sso_base::{NoMemory, Text};
use std::alloc::Global;
use url::{ParseError, Url};

// The greatest length of a URL, in bytes.
const MOST: usize = 512;

/// Why a text is not a URL that may be registered, or `NoMemory`.
#[derive(Clone, Copy, Debug, PartialEq, Eq)]
pub enum UrlNo {
    /// Memory ran out.
    NoMemory,
    /// The text violates the rule for URLs.
    BadUrl,
}

impl From<NoMemory> for UrlNo {
    ghost use Rattle.std.specs.Prelude.{◌≡◌};
    ghost use Rattle.registered_url.specs.declared.reading.UrlNo.TheVariants as no;

    ghost from_gives = { λ _ e. e ≡ no.NoMemory };

    fn from(_error: NoMemory) -> UrlNo {
        UrlNo::NoMemory
    }
}

fn is_same(a: &str, b: &str) -> bool
    ensures { result ≡ bytes_eq a.now b.now }
{
    a == b
}

fn host(url: &Url) -> &str
    ensures { result.now ≡ host_of url.now }
{
    match url.host_str() {
        Some(host) => host,
        None => "",
    }
}

// Whether the host is this machine.
fn is_local_host(host: &str) -> bool
    ensures { result ≡ is_local host.now }
{
    is_same(host, "127.0.0.1") || is_same(host, "localhost")
}

// Whether the URL has no fragment and no user information, and is https, or http on this machine.
fn may_be_registered(url: &Url) -> bool
    ensures { result ≡ is_allowed url.now }
{
    if url.fragment().is_some() || !url.username().is_empty() || url.password().is_some() {
        return false;
    }
    if is_same(url.scheme(), "https") {
        return true;
    }
    is_same(url.scheme(), "http") && is_local_host(host(url))
}

fn is_all_visible(text: &[u8]) -> bool
    ensures { result ≡ list_all is_visible text.now }
{
    text.iter().all(|&byte| 32 < byte && byte < 127)
}

// The URL of a text that satisfies the rule.
#[tactic(auto, unfolding(crate::specs::Rule::parts_of))]
fn allowed_url(alloc: Global, text: &str) -> Result<Option<Url>, NoMemory>
    ensures { IfOk result (λ o. o ≡ parts_of text.now) }
{
    if text.len() > MOST || !is_all_visible(text.as_bytes()) {
        return Ok(None);
    }
    match Url::parse(alloc, text) {
        Ok(url) => {
            if may_be_registered(&url) {
                Ok(Some(url))
            } else {
                Ok(None)
            }
        }
        Err(ParseError::OutOfMemory | ParseError::Overflow) => Err(NoMemory),
        Err(_) => Ok(None),
    }
}

fn port(url: &Url) -> u16
    ensures { result ≡ (kept_parts url.now).port }
{
    match url.port_or_known_default() {
        Some(port) => port,
        None => 0,
    }
}

fn query(alloc: Global, url: &Url) -> Result<Option<Text>, NoMemory>
    ensures { IfOk result (λ o. o ≡ url.now.query) }
{
    match url.query() {
        Some(query) => Ok(Some(Text::new(alloc, query)?)),
        None => Ok(None),
    }
}

// The stored parts of a URL.
fn kept(alloc: Global, url: &Url) -> Result<WebUrl, NoMemory>
    ensures { IfOk result (λ u. u ≡ kept_parts url.now) }
{
    Ok(WebUrl {
        secure: is_same(url.scheme(), "https"),
        host: Text::new(alloc, host(url))?,
        port: port(url),
        path: Text::new(alloc, url.path())?,
        query: query(alloc, url)?,
    })
}

/// Reads a URL that may be registered (OpenID Connect Discovery 1.0, 3; RFC 6749, 3.1.2; the URL Standard).
///
/// The rule for URLs: the text has at most 512 bytes of visible ASCII and parses as a URL. The URL has no fragment and no user
/// information, and is https, or http with the host `127.0.0.1` or `localhost`. Scheme, host, fragment and user information are
/// those of the parsed URL.
///
/// Returns [`UrlNo::BadUrl`] if and only if the text violates the rule.
pub fn read_url(alloc: Global, text: &str) -> Result<WebUrl, UrlNo>
    ensures ok { IfOk result (λ u. url_of text.now ≡ Some u) }
    ensures err { IfErr result (λ e. (e ≡ UrlNo.NoMemory) ⊎ ((e ≡ UrlNo.BadUrl) × (url_of text.now ≡ None))) }
{
    match allowed_url(alloc, text)? {
        Some(url) => Ok(kept(alloc, &url)?),
        None => Err(UrlNo::BadUrl),
    }
}
