// Requests and replies of a core with refresh tokens, around another core.

use oidc_words::Scopes;
use sso_base::{Blob, Text, Word};
use token_endpoint::{GrantNo, TokenError};

/// The contents of an authenticated refresh request (RFC 6749, 6).
#[derive(Drop)]
pub struct RefreshGrant {
    /// The number of the client in the registry, counted from 0. The request shows a secret of this client.
    pub client: u32,
    /// The refresh token.
    pub token: Text,
}

/// A request: a refresh request, or one of the inner core.
#[derive(Drop)]
pub enum RefreshAsk<A: Drop> {
    /// A request of the inner core.
    Through {
        /// The request of the inner core.
        inner: A,
        /// Whether it is an authorization request for a code with offline access and consent (OpenID Connect Core 1.0, 11).
        offline: bool,
    },
    /// A refresh request, or the reason why it is rejected.
    Refresh {
        grant: Result<RefreshGrant, GrantNo>,
    },
}

/// The parts of a request and of its reply that the inner core does not know.
#[derive(Drop)]
pub struct RefreshParts {
    /// Whether the request is for offline access.
    pub offline: bool,
    /// The refresh token of the reply, if it begins a family.
    pub first: Option<Word>,
}

/// A reply without the inner core.
#[derive(Drop)]
pub enum OwnReply {
    /// A new access token and a new refresh token (RFC 6749, 5.1 and 6).
    Refreshed {
        access: Word,
        refresh: Word,
        scopes: Scopes,
    },
    /// A token error response (RFC 6749, 5.2).
    Refused {
        code: TokenError,
    },
    /// A UserInfo response (OpenID Connect Core 1.0, 5.3.2).
    Info {
        claims: Blob,
    },
    /// Not found.
    NotHere,
    /// There is no room for a refresh token.
    Full,
}

/// A reply.
#[derive(Drop)]
pub enum RefreshReply<R: Drop> {
    /// The reply of the inner core.
    Through(R),
    /// The reply of the inner core, which is tokens for a code, and the first refresh token of a family.
    First { inner: R, refresh: Word },
    /// A reply without the inner core.
    Own(OwnReply),
}
