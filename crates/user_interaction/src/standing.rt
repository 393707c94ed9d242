// The session that a request comes with.

use oidc_words::Scopes;

/// The session that a request comes with, and what its user has granted.
#[derive(Clone, Copy, PartialEq, Eq)]
pub struct Standing {
    /// The number of the user, counted from 0.
    pub user: u32,
    /// When the user logged in, in seconds.
    pub auth_time: u64,
    /// Whether the user logged in for this request itself.
    pub in_turn: bool,
    /// Whether the user consented to this request itself.
    pub agreed: bool,
    /// The scope values that the user has granted to the client; `openid` if and only if a grant was ever made.
    pub granted: Scopes,
}
