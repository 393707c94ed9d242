// The cookies of replies.

ghost use Rattle.std.specs.Prelude.{◌≡◌, ◌++◌, IfOk, OnOk};
ghost use Rattle.op_response.specs.Cookies as spec;

use client_registry::Registry;
use http_reply::{cookie, cookie_name};
use sso_base::{NoMemory, Text, Texts, Word};
use std::alloc::Global;

/// The name of the cookie of a browser that got a form: `op_b`, or `__Host-op_b` if the registry says so. The cookie is set and
/// read under this name.
pub fn browser_cookie(alloc: Global, registry: &Registry) -> Result<Text, NoMemory>
    ensures { IfOk result (λ t. t ≡ spec.browser_cookie registry.now.settings.host_cookies) }
{
    cookie_name(alloc, registry.host_cookies(), "op_b")
}

/// The name of the cookie of a session: `op_s`, or `__Host-op_s` if the registry says so. The cookie is set and read under this
/// name.
pub fn session_cookie(alloc: Global, registry: &Registry) -> Result<Text, NoMemory>
    ensures { IfOk result (λ t. t ≡ spec.session_cookie registry.now.settings.host_cookies) }
{
    cookie_name(alloc, registry.host_cookies(), "op_s")
}

// Only the browser's cookie.
pub(crate) fn browser_cookies(
    alloc: Global,
    registry: &Registry,
    browser: &Word,
) -> Result<Texts, NoMemory>
    ensures { IfOk result (λ t. t ≡ spec.browser_cookies registry.now browser.now) }
{
    let name = browser_cookie(alloc, registry)?;
    let mut cookies = Texts::new(alloc);
    cookies.push(cookie(alloc, registry.secure(), name.as_str(), browser)?)?;
    Ok(cookies)
}

// Adds the session's cookie, if there is a session word.
pub(crate) fn push_session(
    cookies: &mut Texts,
    alloc: Global,
    registry: &Registry,
    session: &Option<Word>,
) -> Result<(), NoMemory>
    ensures { OnOk result (cookies.new ≡ cookies.old ++ spec.session_cookies registry.now session.now) }
{
    if let Some(word) = session {
        let name = session_cookie(alloc, registry)?;
        cookies.push(cookie(alloc, registry.secure(), name.as_str(), word)?)?;
    }
    Ok(())
}
