// Replies of a relying party.

ghost use Rattle.std.specs.Prelude.{◌≡◌, IfOk};

use crate::no::RpNo;
use sso_base::{Message, NoMemory, Text, Word};
use std::alloc::Global;

/// A relying party's reply to a request, or to the response to one of its own.
#[derive(Drop)]
pub enum RpReply {
    /// An authorization request to the provider, at this location, for the browser whose cookie is set (OpenID Connect
    /// Core 1.0, 3.1.2.1).
    Ask { to: Text, browser: Word },
    /// The page that posts the fragment of its location (Core 3.2.2.5).
    Fragment,
    /// A token request to send, and the word of the exchange that is waiting for the response (Core 3.1.3.1).
    Exchange { pending: Word, message: Message },
    /// A UserInfo request to send, and the word of the exchange that is waiting for the response (Core 5.3.1).
    Fetch { pending: Word, message: Message },
    /// A new session of this subject. Its cookie is set.
    Entered { session: Word, sub: Text },
    /// The subject of the session.
    User { sub: Text },
    /// There is no session.
    Nobody,
    /// The session is over. `ended` is true if there was one.
    Left { ended: bool },
    /// A logout token was accepted, and ended this number of sessions (OpenID Connect Back-Channel Logout 1.0, 2.7).
    Ended { count: u32 },
    /// An error.
    Refused { why: RpNo },
    /// Not found.
    NotHere,
}

impl RpReply {
    /// A copy of the reply.
    pub fn copy(&self, alloc: Global) -> Result<RpReply, NoMemory>
        ensures { IfOk result (λ reply. reply ≡ self.now) }
    {
        Ok(match self {
            RpReply::Ask { to, browser } => RpReply::Ask {
                to: to.copy(alloc)?,
                browser: *browser,
            },
            RpReply::Fragment => RpReply::Fragment,
            RpReply::Exchange { pending, message } => RpReply::Exchange {
                pending: *pending,
                message: message.copy(alloc)?,
            },
            RpReply::Fetch { pending, message } => RpReply::Fetch {
                pending: *pending,
                message: message.copy(alloc)?,
            },
            RpReply::Entered { session, sub } => RpReply::Entered {
                session: *session,
                sub: sub.copy(alloc)?,
            },
            RpReply::User { sub } => RpReply::User {
                sub: sub.copy(alloc)?,
            },
            RpReply::Nobody => RpReply::Nobody,
            RpReply::Left { ended } => RpReply::Left { ended: *ended },
            RpReply::Ended { count } => RpReply::Ended { count: *count },
            RpReply::Refused { why } => RpReply::Refused {
                why: why.copy(alloc)?,
            },
            RpReply::NotHere => RpReply::NotHere,
        })
    }
}
