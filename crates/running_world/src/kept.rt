// The contents of a place.

use sso_base::{Moment, Word};
use sso_places::{To, WorldAsk, WorldReply};

/// The request at a place, with its sender, its recipient, its moment and its four random words.
#[derive(Drop)]
pub struct Asked {
    /// The number of a browser, or 0 for a server.
    pub from: u32,
    /// The moment of the entry.
    pub at: Moment,
    /// The random words that were drawn for it.
    pub fresh: [Word; 4],
    /// The recipient.
    pub to: To,
    /// The request, or the answer of a server.
    pub ask: WorldAsk,
}

/// The contents of a place: the request, if there was one, and the reply.
#[derive(Drop)]
pub struct Kept {
    /// The request.
    pub asked: Option<Asked>,
    /// The reply of the role that received it.
    pub reply: WorldReply,
}
