// The table of questions.

ghost use Rattle.std.specs.Prelude.{◌≡◌, ◌<◌, length, true, option_and_then, IfSome};
ghost use Rattle.std.specs.Option.{option_copied};
ghost use Rattle.sso_base.specs.Rows.{put, row_of, if_lives, live_rows};
ghost use Rattle.held_rows.specs.Held.{AnyRow, IsHeld, MayAddRow};
ghost use Rattle.oidc_words.specs.Lives.{question_life};
ghost use Rattle.signout_answer.specs.Questions.{question_name, question_begun};
ghost use Rattle.rp_signout.specs.Keeps as spec;

use held_rows::Held;
use signout_answer::QuestionRow;
use sso_base::{Moment, Word};

/// The question with this word, if it waits at the moment; `None` if and only if none does.
pub(crate) fn living_question<'a>(
    questions: &'a Held<QuestionRow>,
    word: Word,
    at: Moment,
) -> Option<&'a QuestionRow>
    ensures row { option_copied result ≡ option_and_then (if_lives question_life question_begun at) (row_of question_name word questions.now.rows) }
    ensures held { IsHeld question_name question_begun AnyRow questions.now.rows }
{
    questions.living(&word.bytes(), at)
}

/// Whether there is room for a question with this word: fewer than 65,536 questions wait, and none of them has it.
pub(crate) fn has_room(questions: &Held<QuestionRow>, at: Moment, word: Word) -> bool
    ensures room { result ≡ spec.room_in questions.now.rows at word }
    ensures held { IsHeld question_name question_begun AnyRow questions.now.rows }
{
    // (looked up first: this tells also that the table is held as it should be)
    let waits = living_question(questions, word, at).is_some();
    questions.has_room(at) && !waits
}

// Removes the questions that no longer wait, and the one that ended.
fn leave(questions: &mut Held<QuestionRow>, at: Moment, ended: Option<Word>)
    requires { length questions.old.rows < questions.old.capacity }
    ensures rows { questions.new.rows ≡ spec.rows_left ended (live_rows question_life question_begun at questions.old.rows) }
    ensures room { length questions.new.rows < questions.new.capacity }
{
    questions.purge(at);
    if let Some(word) = ended {
        questions.remove(&word.bytes());
    }
}

fn put_question(questions: &mut Held<QuestionRow>, row: Option<QuestionRow>)
    requires room { length questions.old.rows < questions.old.capacity }
    requires may { IfSome row (MayAddRow question_name question_begun true questions.old.rows) }
    ensures { questions.new.rows ≡ put question_name row questions.old.rows }
{
    if let Some(row) = row {
        questions.add(row);
    }
}

/// Updates the questions with an entry at this moment: those that no longer wait go, and the one that ended, and the new one comes. Room
/// was reserved for it.
pub(crate) fn keep_questions(
    questions: &mut Held<QuestionRow>,
    at: Moment,
    ended: Option<Word>,
    row: Option<QuestionRow>,
)
    requires room { length questions.old.rows < questions.old.capacity }
    requires may { IfSome row (MayAddRow question_name question_begun true
        (spec.rows_left ended (live_rows question_life question_begun at questions.old.rows))) }
    ensures { questions.new.rows ≡ put question_name row (spec.rows_left ended (live_rows question_life question_begun at questions.old.rows)) }
{
    leave(questions, at, ended);
    put_question(questions, row);
}
