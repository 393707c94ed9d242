// The claims of a logout token.

use sso_base::{Text, Texts};

/// The claims of a logout token (OpenID Connect Back-Channel Logout 1.0, 2.4). `events` has no field: it always contains the
/// logout event, and its other members are not kept.
#[derive(Drop)]
pub struct LogoutClaims {
    /// The issuer.
    pub iss: Text,
    /// The audience: the clients that the token is intended for.
    pub aud: Texts,
    /// When the token was issued, in seconds since the epoch.
    pub iat: u64,
    /// When it expires, in seconds since the epoch.
    pub exp: u64,
    /// The token's own identifier.
    pub jti: Text,
    /// The user who is logged out.
    pub sub: Option<Text>,
    /// The session that ends.
    pub sid: Option<Text>,
}

// The claims that are fields; each may be absent.
#[derive(Drop)]
pub(crate) struct RawLogout {
    pub(crate) aud: Option<Texts>,
    pub(crate) exp: Option<u64>,
    pub(crate) iat: Option<u64>,
    pub(crate) iss: Option<Text>,
    pub(crate) jti: Option<Text>,
    pub(crate) sid: Option<Text>,
    pub(crate) sub: Option<Text>,
}
