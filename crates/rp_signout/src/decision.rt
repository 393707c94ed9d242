// Decisions about requests.

use signout_answer::{OwnReply, QuestionRow};
use sso_base::Text;

/// A reply without the inner core, and the question that it makes.
#[derive(Drop)]
pub(crate) struct Answer {
    pub own: OwnReply,
    pub made: Option<QuestionRow>,
}

/// A decision about an answer to a question.
#[derive(Drop)]
pub(crate) enum Verdict {
    /// The reply without the inner core.
    Own(OwnReply),
    /// The user is signed out. The browser goes to this location, if there is one.
    Go(Option<Text>),
}

/// A decision about a request.
#[derive(Drop)]
pub(crate) enum Decision {
    /// It is answered without the inner core.
    Own(Answer),
    /// It is passed on. After a sign-out the browser goes to this location, if there is one.
    Pass(Option<Text>),
}
