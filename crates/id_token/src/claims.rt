// The claims of an ID Token.

use claim_set::ClaimSet;
use sso_base::{Text, Texts};

/// The claims of an ID Token (OpenID Connect Core 1.0, 2).
#[derive(Drop)]
pub struct IdClaims {
    /// `iss`, the provider that issued it.
    pub iss: Text,
    /// `sub`, the user, of 1 to 255 ASCII characters.
    pub sub: Text,
    /// `aud`, the clients that it is intended for. One client is written as a string, none or several as an array.
    pub aud: Texts,
    /// `azp`, the client that it was issued to.
    pub azp: Option<Text>,
    /// `exp`, the moment from which it is no longer valid, in seconds.
    pub exp: u64,
    /// `iat`, the moment at which it was issued, in seconds.
    pub iat: u64,
    /// `auth_time`, the moment at which the user logged in, in seconds.
    pub auth_time: Option<u64>,
    /// `nonce`, copied from the authorization request.
    pub nonce: Option<Text>,
    /// `sid`, the session at the provider (OpenID Connect Back-Channel Logout 1.0, 2.1).
    pub sid: Option<Text>,
    /// `at_hash`, the [`crate::half_hash`] of the access token issued with it.
    pub at_hash: Option<Text>,
    /// `c_hash`, the [`crate::half_hash`] of the code issued with it.
    pub c_hash: Option<Text>,
    /// All other claims.
    pub more: ClaimSet,
}

// The claims that are fields; each may be absent.
#[derive(Drop)]
pub(crate) struct RawClaims {
    pub at_hash: Option<Text>,
    pub aud: Option<Texts>,
    pub auth_time: Option<u64>,
    pub azp: Option<Text>,
    pub c_hash: Option<Text>,
    pub exp: Option<u64>,
    pub iat: Option<u64>,
    pub iss: Option<Text>,
    pub nonce: Option<Text>,
    pub sid: Option<Text>,
    pub sub: Option<Text>,
}
