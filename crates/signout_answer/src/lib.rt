//! The definition of the replies of a core that asks the user before a relying party's request ends a session (RP-Initiated Logout
//! 1.0), around another core, and laws about it. It has no running code but its types.
//!
//! A request to end a session is answered by a question. A `yes` that presents the question's word, and the session that was presented
//! with the request, signs the user out at the core inside. The browser then goes to the URI of the request, if it has one.
//!
//! | Module | What it has |
//! |---|---|
//! | `asks` | [`EndAsk`] and [`EndReply`], requests and replies; [`EndSetup`] |
//! | `parts` | [`OwnReply`], [`EndParts`] and [`Doing`], the parts of these that the core inside does not have |
//! | `questions` | [`QuestionRow`], a question that waits for the user |
//! | `law` | where browsers are sent, when sessions end, which messages are sent, and what changes nothing |
//!
//! The definitions are in `specs/`: questions in `Questions`, the inner core's part of a history in `Around`, the replies and legal
//! histories in `Answering`.
#![tactic(auto)]

mod asks;
mod law;
mod parts;
mod questions;

pub use asks::{EndAsk, EndReply, EndSetup};
pub use law::{
    locations_are_registered, messages_are_those_of_a_sign_out,
    questions_end_sessions_only_after_yes, questions_stand, refused_requests_change_nothing,
};
pub use parts::{Doing, EndParts, OwnReply};
pub use questions::QuestionRow;
