// The endpoint of a request to the provider.

ghost use Rattle.std.specs.Prelude.{◌≡◌, option_map};
ghost use Rattle.oidc_words.specs.Routes.{endpoint_of};
ghost use Rattle.op_request.specs.Routes as spec;

use client_registry::Registry;
use oidc_words::{
    AUTHORIZE_PATH, CONSENT_PATH, KEYS_PATH, LOGIN_PATH, METADATA_PATH, SIGNOUT_PATH, TOKEN_PATH,
    USERINFO_PATH,
};
use sso_base::{Ask, Method, Text};

// The endpoints of the provider.
#[derive(Clone, Copy, PartialEq, Eq)]
pub(crate) enum Endpoint {
    Metadata,
    Keys,
    Authorization,
    Login,
    Consent,
    Token,
    UserInfo,
    SignOut,
}

// The rest of a path that begins with the prefix.
fn below<'a>(prefix: &Text, path: &'a Text) -> Option<&'a [u8]>
    ensures { option_map (λ p. p.now) result ≡ spec.below prefix.now path.now }
{
    let prefix = prefix.as_str().as_bytes();
    path.as_str().as_bytes().strip_prefix(prefix)
}

// The endpoint of a GET of the path.
fn got(path: &[u8]) -> Option<Endpoint>
    ensures { result ≡ endpoint_of spec.get_routes path.now }
{
    if path == METADATA_PATH.as_bytes() {
        return Some(Endpoint::Metadata);
    }
    if path == KEYS_PATH.as_bytes() {
        return Some(Endpoint::Keys);
    }
    if path == AUTHORIZE_PATH.as_bytes() {
        return Some(Endpoint::Authorization);
    }
    if path == USERINFO_PATH.as_bytes() {
        return Some(Endpoint::UserInfo);
    }
    None
}

// The endpoint of a POST to the path.
fn posted_to(path: &[u8]) -> Option<Endpoint>
    ensures { result ≡ endpoint_of spec.post_routes path.now }
{
    if path == AUTHORIZE_PATH.as_bytes() {
        return Some(Endpoint::Authorization);
    }
    if path == LOGIN_PATH.as_bytes() {
        return Some(Endpoint::Login);
    }
    if path == CONSENT_PATH.as_bytes() {
        return Some(Endpoint::Consent);
    }
    if path == TOKEN_PATH.as_bytes() {
        return Some(Endpoint::Token);
    }
    if path == USERINFO_PATH.as_bytes() {
        return Some(Endpoint::UserInfo);
    }
    if path == SIGNOUT_PATH.as_bytes() {
        return Some(Endpoint::SignOut);
    }
    None
}

// The endpoint of a request, if the provider's paths are below this prefix.
pub(crate) fn endpoint_asked(prefix: &Text, ask: &Ask) -> Option<Endpoint>
    ensures { result ≡ spec.endpoint_asked prefix.now ask.now }
{
    let path = below(prefix, &ask.path)?;
    match ask.method {
        Method::Get => got(path),
        Method::Post => posted_to(path),
        Method::Other => None,
    }
}

/// Whether a request to the provider of this registry posts the login form. Reading it proves a password, which takes as many rounds as
/// the user's proof has (RFC 8018, 5.2). No other request is read as a login.
#[tactic(auto, unfolding(crate::specs::Routes::is_login))]
pub fn is_login(registry: &Registry, ask: &Ask) -> bool
    ensures { result ≡ spec.is_login registry.now.prefix ask.now }
{
    match endpoint_asked(registry.prefix(), ask) {
        Some(Endpoint::Login) => true,
        _ => false,
    }
}
