// The routes of the core, by method and path.

ghost use Rattle.std.specs.Prelude.{◌≡◌, option_map};
ghost use Rattle.op_request.specs.Routes.{below as below_in};
ghost use Rattle.rp_signout.specs.Prepared as spec;

use sso_base::{Ask, Method, Text};

/// The path to which a relying party sends a browser.
pub(crate) const END_PATH: &str = "/end_session";

/// The path to which the form of the page is posted.
pub(crate) const CONFIRM_PATH: &str = "/end_session/confirm";

/// The routes of the core.
#[derive(Clone, Copy, PartialEq, Eq)]
pub(crate) enum Route {
    /// A request to end a session.
    Start,
    /// The answer to a question.
    Confirm,
}

// The rest of a path that begins with the prefix.
fn below<'a>(prefix: &Text, path: &'a Text) -> Option<&'a [u8]>
    ensures { option_map (λ p. p.now) result ≡ below_in prefix.now path.now }
{
    let prefix = prefix.as_str().as_bytes();
    path.as_str().as_bytes().strip_prefix(prefix)
}

fn got(path: &[u8]) -> Option<Route>
    ensures { result ≡ spec.get_route path.now }
{
    if path == END_PATH.as_bytes() {
        return Some(Route::Start);
    }
    None
}

fn posted_to(path: &[u8]) -> Option<Route>
    ensures { result ≡ spec.post_route path.now }
{
    if path == END_PATH.as_bytes() {
        return Some(Route::Start);
    }
    if path == CONFIRM_PATH.as_bytes() {
        return Some(Route::Confirm);
    }
    None
}

/// The route of a request, if the provider's paths are below this prefix. `None` if and only if the request is for the inner core.
pub(crate) fn route_asked(prefix: &Text, ask: &Ask) -> Option<Route>
    ensures { result ≡ spec.route_asked prefix.now ask.now }
{
    let path = below(prefix, &ask.path)?;
    match ask.method {
        Method::Get => got(path),
        Method::Post => posted_to(path),
        Method::Other => None,
    }
}
