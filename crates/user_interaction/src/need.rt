// What a request still needs.

use oidc_words::AuthError;

/// What an authorization request still needs before it is answered.
#[derive(Clone, Copy, PartialEq, Eq)]
pub enum Need {
    /// The user logs in (OpenID Connect Core 1.0, 3.1.2.3).
    Login,
    /// The user consents (OpenID Connect Core 1.0, 3.1.2.4).
    Consent,
    /// Nothing: it is answered.
    Answer,
    /// It is refused with this code (OpenID Connect Core 1.0, 3.1.2.6).
    Error(AuthError),
}
