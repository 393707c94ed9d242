// The questions that wait for the user.

ghost use Rattle.std.specs.Prelude.{Some, None, refl};
ghost use Rattle.held_rows.specs.Held.{AnyRow, one_of};

use end_request::EndWish;
use held_rows::{By, Row};
use oidc_words::QUESTION_LIFE;
use sso_base::{Moment, Word};

/// A question that waits for the user. It lives for 600 seconds.
#[derive(Drop)]
pub struct QuestionRow {
    /// The word of the question.
    pub word: Word,
    /// The session that was presented with the request.
    pub session: Option<Word>,
    /// The contents of the request.
    pub wish: EndWish,
    /// When the user was asked.
    pub begun: Moment,
}

impl Row for QuestionRow {
    ghost use Rattle.oidc_words.specs.Lives.{question_life};
    ghost use Rattle.signout_answer.specs.Questions.{question_name, question_begun};

    ghost name = { question_name };

    ghost key = { λ by row. one_of (Some row.word) None None by };

    ghost begun = { question_begun };

    ghost IsSound = { AnyRow };

    ghost LIFE = { question_life };

    const LIFE: u32 = QUESTION_LIFE;

    fn key(&self, by: By) -> Option<&[u8]> {
        match by {
            By::Name => Some(self.word.as_bytes()),
            By::Group | By::OtherGroup => None,
        }
    }

    fn begun(&self) -> Moment {
        self.begun
    }

    ghost named = { λ row. refl };
}
