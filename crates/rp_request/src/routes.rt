// The endpoint of a request to a relying party.

ghost use Rattle.std.specs.Prelude.{◌≡◌};
ghost use Rattle.std.specs.Option.{option_copied};
ghost use Rattle.oidc_words.specs.Routes.{endpoint_of};
ghost use Rattle.rp_request.specs.Routes as spec;

use oidc_words::{BEGIN_PATH, HOME_PATH, LEAVE_PATH};
use sso_base::{Ask, Method, Text};

// The endpoints of a relying party.
#[derive(Clone, Copy, PartialEq, Eq)]
pub(crate) enum Endpoint {
    // Where a login begins.
    Login,
    // Shows who is logged in.
    Home,
    // The redirect URI.
    Redirection,
    // Where a user leaves.
    Leave,
    // The logout URI.
    Logout,
}

// The endpoint of a GET of the path.
fn got(redirection: &Text, path: &Text) -> Option<Endpoint>
    ensures { result ≡ endpoint_of (spec.get_routes redirection.now) path.now }
{
    let path = path.as_str();
    if path == BEGIN_PATH {
        return Some(Endpoint::Login);
    }
    if path == HOME_PATH {
        return Some(Endpoint::Home);
    }
    if path == redirection.as_str() {
        return Some(Endpoint::Redirection);
    }
    None
}

// The logout endpoint, if the path is that of the logout URI.
fn logged_out(logout: Option<&Text>, path: &Text) -> Option<Endpoint>
    ensures { result ≡ endpoint_of (spec.logout_routes (option_copied logout.entry)) path.now }
{
    match logout {
        Some(logout) if path.as_str() == logout.as_str() => Some(Endpoint::Logout),
        _ => None,
    }
}

// The endpoint of a POST to the path.
fn posted_to(redirection: &Text, logout: Option<&Text>, path: &Text) -> Option<Endpoint>
    ensures { result ≡ endpoint_of (spec.post_routes redirection.now (option_copied logout.entry)) path.now }
{
    if path.as_str() == redirection.as_str() {
        return Some(Endpoint::Redirection);
    }
    if path.as_str() == LEAVE_PATH {
        return Some(Endpoint::Leave);
    }
    logged_out(logout, path)
}

// The endpoint of a request, if the redirect URI and the logout URI have these paths.
pub(crate) fn endpoint_asked(
    redirection: &Text,
    logout: Option<&Text>,
    ask: &Ask,
) -> Option<Endpoint>
    ensures { result ≡ spec.endpoint_asked redirection.now (option_copied logout.entry) ask.now }
{
    match ask.method {
        Method::Get => got(redirection, &ask.path),
        Method::Post => posted_to(redirection, logout, &ask.path),
        Method::Other => None,
    }
}
