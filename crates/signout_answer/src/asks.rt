// Requests and replies of a core that asks the user before a relying party's request ends a session, around another core.

use client_registry::Registry;
use end_request::{EndNo, Returns};
use sso_base::{Blob, Text, Word};

/// The setup of the core, besides that of the core inside: the registry, and where browsers may be sent.
#[derive(Drop)]
pub struct EndSetup {
    pub registry: Registry,
    pub returns: Returns,
}

/// A request. `session` is the session cookie that it presents.
#[derive(Drop)]
pub enum EndAsk<A: Drop> {
    /// A request for the core inside.
    Through(A),
    /// A request to end a session, as its form (RP-Initiated Logout 1.0, 2).
    Start {
        form: Blob,
        session: Option<Word>,
    },
    /// The answer to the question with this word, and the sign-out as the core inside gets it.
    Confirm {
        word: Option<Word>,
        agree: bool,
        session: Option<Word>,
        inner: A,
    },
}

/// A reply.
#[derive(Drop)]
pub enum EndReply<R: Drop> {
    /// The reply of the core inside.
    Through(R),
    /// The user is asked a question.
    Sure { word: Word },
    /// The request to end a session is refused.
    Wrong { why: EndNo },
    /// The user was signed out. The browser goes to the location, if there is one.
    Gone { back: Option<Text>, inner: R },
    /// The user did not agree: the session stays.
    Kept,
    /// The browser has no such question.
    Stale,
    /// There is no room for a question.
    Full,
}
