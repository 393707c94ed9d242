// The parts of requests and replies that the core inside does not have.

use end_request::EndNo;
use sso_base::{Text, Word};

/// A reply without the core inside.
#[derive(Drop)]
pub enum OwnReply {
    /// The user is asked the question with this word.
    Sure(Word),
    /// The request to end a session is refused.
    Wrong(EndNo),
    /// The user did not agree.
    Kept,
    /// The browser has no such question.
    Stale,
    /// There is no room for a question.
    Full,
}

/// The parts of a request that was passed on, and of its reply.
#[derive(Drop)]
pub enum EndParts {
    /// It was a request for the core inside.
    Through,
    /// It was a `yes` to the question with this word.
    Gone {
        word: Option<Word>,
        agree: bool,
        session: Option<Word>,
        back: Option<Text>,
    },
}

/// How a request is answered.
#[derive(Drop)]
pub enum Doing {
    /// Without the core inside.
    Own(OwnReply),
    /// By the core inside.
    Pass,
    /// The core inside signs the user out, and then the browser goes to this location, if there is one.
    Go(Option<Text>),
}
