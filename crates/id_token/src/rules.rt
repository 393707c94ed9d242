// What a relying party requires of an ID Token.

use sso_base::{Moment, Text};

/// The requirement on `at_hash` or `c_hash`, which bind an ID Token to an access token or a code.
#[derive(Clone, Copy)]
pub enum Half {
    /// No requirement.
    Free,
    /// If the claim is present, it is this half digest (OpenID Connect Core 1.0, 3.1.3.8).
    IfThere([u8; 22]),
    /// The claim is present and is this half digest (OpenID Connect Core 1.0, 3.2.2.9 and 3.3.2.10).
    Must([u8; 22]),
}

/// What a relying party requires of an ID Token (OpenID Connect Core 1.0, 3.1.3.7).
#[derive(Drop)]
pub struct IdRules {
    /// The provider that it trusts.
    pub issuer: Text,
    /// Its client identifier.
    pub client: Text,
    /// The nonce of its authorization request.
    pub nonce: Text,
    /// When it began the login.
    pub begun: Moment,
    /// The `max_age` of its request, in seconds.
    pub max_age: Option<u64>,
    /// The requirement on `at_hash`.
    pub token: Half,
    /// The requirement on `c_hash`.
    pub code: Half,
}
