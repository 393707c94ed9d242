// Requests and replies of a core that checks proof keys, around another core.

use op_exchange::OpReply;
use sso_base::Blob;

/// The code challenge of an authorization request (RFC 7636, 4.3).
#[derive(Clone, Copy)]
pub enum Challenge {
    /// The request has none.
    Absent,
    /// The request has one, but none of the method S256.
    Bad,
    /// One of the method S256: 43 characters of base64url.
    S256([u8; 43]),
}

/// The code verifier of a token request (RFC 7636, 4.5).
#[derive(Drop)]
pub enum Verifier {
    /// The request has none.
    Absent,
    /// The request has one that is no verifier.
    Bad,
    /// 43 to 128 unreserved characters (RFC 7636, 4.1).
    Given(Blob),
}

/// A request: that of the inner core, and the parameters that the inner core does not know.
#[derive(Drop)]
pub struct PkceAsk<A: Drop> {
    /// The request of the inner core.
    pub inner: A,
    /// The challenge of an authorization request.
    pub challenge: Challenge,
    /// The verifier of a token request.
    pub verifier: Verifier,
}

/// The parameters of a request that the inner core does not know.
#[derive(Drop)]
pub struct PkceParts {
    /// The challenge of an authorization request.
    pub challenge: Challenge,
    /// The verifier of a token request.
    pub verifier: Verifier,
}

/// A reply: that of the inner core, or a refusal without the inner core.
#[derive(Drop)]
pub enum PkceReply<R: Drop> {
    /// The reply of the inner core.
    Through(R),
    /// A refusal without the inner core.
    Own(OpReply),
}
