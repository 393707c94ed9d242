//! The requests of a world, its replies, and the premises that can fail.

use op_exchange::OpReply;
use rp_exchange::RpReply;
use sso_base::{Answered, Ask, Word};

/// The recipient of a request: the provider, or the relying party with this number, from 0.
#[derive(Clone, Copy, Debug, PartialEq, Eq)]
pub enum To {
    Provider,
    Party(u32),
}

/// A request or an answer that reaches a role.
#[derive(Drop)]
pub enum WorldAsk {
    /// An HTTP request of a browser or of a server.
    Http(Ask),
    /// The provider's answer to a token request (OpenID Connect Core 1.0, 3.1.3.3). The word names the pending exchange.
    /// Only a relying party receives this.
    Tokens(Word, Answered),
    /// The provider's answer to the UserInfo request of that exchange (Core 5.3.2). Only a relying party receives this.
    Info(Word, Answered),
}

/// The reply of the role that received the request, or nothing.
#[derive(Drop)]
pub enum WorldReply {
    Provider(OpReply),
    Party(RpReply),
    Nothing,
}

/// The two cookies of one role: the browser's word and the session's.
#[derive(Clone, Copy, PartialEq, Eq)]
pub struct Jar {
    pub first: Option<Word>,
    pub second: Option<Word>,
}

/// The first premise of the sign-on theorem that fails, and the place at which it fails. Places are counted from 1.
#[derive(Clone, Copy, Debug, PartialEq, Eq)]
pub enum Broken {
    /// At this place a token passed the check of its MAC, but no role had written it for this client at an earlier place.
    Forged(u64),
    /// At this place a request presented a cookie that a reply had set for another browser number.
    Leaked(u64),
    /// A code or access token of the second place has the same half hash as a different one of the first place. The premise
    /// fails at the second place. The first is the earliest such place, and may be the second place itself.
    HashClash(u64, u64),
}
