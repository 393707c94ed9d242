use crate::key_text::KeyText;
use rp_exchange::RpReply;

/// A reply of a relying party, with what its requests to the provider send for Proof Key for Code Exchange.
#[derive(Drop)]
pub struct PartyReply {
    /// The reply of the party inside.
    pub inner: RpReply,
    /// The challenge in an authorization request, if the response type has a code (RFC 7636, 4.3).
    pub challenge: Option<KeyText>,
    /// The verifier in a token request (RFC 7636, 4.5).
    pub verifier: Option<KeyText>,
}
