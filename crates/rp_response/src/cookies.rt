// The cookies of replies.

ghost use Rattle.std.specs.Prelude.{◌≡◌, ◌++◌, ◌<◌, [], ◌∷◌, length, IfOk};
ghost use Rattle.client_registry.specs.Numbers.{party_name};
ghost use Rattle.http_reply.specs.Cookies.{cookie, cookie_name as named};
ghost use Rattle.rp_response.specs.Cookies as spec;

use client_registry::Registry;
use http_reply::{concatenated, cookie, cookie_name};
use sso_base::{NoMemory, Text, Texts, Word};
use std::alloc::Global;

// The name of the party's cookie with this ending.
fn name_ending(
    alloc: Global,
    registry: &Registry,
    party: u32,
    ending: &str,
) -> Result<Text, NoMemory>
    requires { party < length registry.now.parties }
    ensures { IfOk result (λ t. t ≡ named registry.now.settings.host_cookies (party_name registry.now party ++ ending.now)) }
{
    let name = concatenated(alloc, registry.party(party).name.as_str(), ending)?;
    cookie_name(alloc, registry.host_cookies(), name.as_str())
}

/// The name of the cookie of a browser that began a login at the party with this number: `NAME_b`, or `__Host-NAME_b` if the
/// registry says so, where `NAME` is the party's. The cookie is set and read under this name.
///
/// The number must be below the number of the registry's parties.
pub fn browser_cookie(alloc: Global, registry: &Registry, party: u32) -> Result<Text, NoMemory>
    requires { party < length registry.now.parties }
    ensures { IfOk result (λ t. t ≡ spec.browser_cookie registry.now.settings.host_cookies (party_name registry.now party)) }
{
    name_ending(alloc, registry, party, "_b")
}

/// The name of the cookie of a session at the party with this number: `NAME_s`, or `__Host-NAME_s` if the registry says so, where
/// `NAME` is the party's. The cookie is set and read under this name.
///
/// The number must be below the number of the registry's parties.
pub fn session_cookie(alloc: Global, registry: &Registry, party: u32) -> Result<Text, NoMemory>
    requires { party < length registry.now.parties }
    ensures { IfOk result (λ t. t ≡ spec.session_cookie registry.now.settings.host_cookies (party_name registry.now party)) }
{
    name_ending(alloc, registry, party, "_s")
}

// Only the cookie of this name.
fn one_cookie(alloc: Global, secure: bool, name: &Text, word: &Word) -> Result<Texts, NoMemory>
    ensures { IfOk result (λ t. t ≡ cookie secure name.now word.now ∷ []) }
{
    let mut cookies = Texts::new(alloc);
    cookies.push(cookie(alloc, secure, name.as_str(), word)?)?;
    Ok(cookies)
}

// Only the browser's cookie, at the party with this number.
pub(crate) fn browser_cookies(
    alloc: Global,
    registry: &Registry,
    party: u32,
    browser: &Word,
) -> Result<Texts, NoMemory>
    requires { party < length registry.now.parties }
    ensures { IfOk result (λ t. t ≡ spec.browser_cookies registry.now party browser.now) }
{
    let name = browser_cookie(alloc, registry, party)?;
    one_cookie(alloc, registry.secure(), &name, browser)
}

// Only the session's cookie, at the party with this number.
pub(crate) fn session_cookies(
    alloc: Global,
    registry: &Registry,
    party: u32,
    session: &Word,
) -> Result<Texts, NoMemory>
    requires { party < length registry.now.parties }
    ensures { IfOk result (λ t. t ≡ spec.session_cookies registry.now party session.now) }
{
    let name = session_cookie(alloc, registry, party)?;
    one_cookie(alloc, registry.secure(), &name, session)
}
