// The tables of turns and codes with marks.

ghost use Rattle.std.specs.Prelude.{◌≡◌, ◌<◌, true, length, option_and_then, IfSome};
ghost use Rattle.std.specs.Option.{option_copied};
ghost use Rattle.sso_base.specs.Rows.{row_of, put, if_lives, live_rows};
ghost use Rattle.oidc_words.specs.Lives.{turn_life, code_life};
ghost use Rattle.held_rows.specs.Held.{AnyRow, IsHeld, MayAddRow};
ghost use Rattle.core_stack.specs.Rows.{turn_mark_name, turn_mark_begun, code_mark_name, code_mark_begun};
ghost use Rattle.core_stack.specs.Marks.{turns_left};

use crate::marks::{CodeMark, TurnMark};
use held_rows::Held;
use sso_base::{Moment, Word};

/// The turn with this word, if it lives at the moment; `None` if and only if no such turn does.
pub fn live_turn<'a, M: Drop>(
    turns: &'a Held<TurnMark<M>>,
    word: Word,
    at: Moment,
) -> Option<&'a TurnMark<M>>
    ensures row { option_copied result ≡ option_and_then (if_lives turn_life turn_mark_begun at) (row_of turn_mark_name word turns.now.rows) }
    ensures held { IsHeld turn_mark_name turn_mark_begun AnyRow turns.now.rows }
{
    turns.living(&word.bytes(), at)
}

/// The code with this word, if it is kept at the moment; `None` if and only if no such code is.
pub fn kept_code<'a, M: Drop>(
    codes: &'a Held<CodeMark<M>>,
    word: Word,
    at: Moment,
) -> Option<&'a CodeMark<M>>
    ensures row { option_copied result ≡ option_and_then (if_lives code_life code_mark_begun at) (row_of code_mark_name word codes.now.rows) }
    ensures held { IsHeld code_mark_name code_mark_begun AnyRow codes.now.rows }
{
    codes.living(&word.bytes(), at)
}

// Removes the turns whose life is over, and the one that ended.
fn leave_turns<M: Drop>(turns: &mut Held<TurnMark<M>>, at: Moment, ended: Option<Word>)
    requires { length turns.old.rows < turns.old.capacity }
    ensures rows { turns.new.rows ≡ turns_left ended (live_rows turn_life turn_mark_begun at turns.old.rows) }
    ensures room { length turns.new.rows < turns.new.capacity }
{
    turns.purge(at);
    if let Some(word) = ended {
        turns.remove(&word.bytes());
    }
}

fn put_turn<M: Drop>(turns: &mut Held<TurnMark<M>>, row: Option<TurnMark<M>>)
    requires room { length turns.old.rows < turns.old.capacity }
    requires may { IfSome row (MayAddRow turn_mark_name turn_mark_begun true turns.old.rows) }
    ensures { turns.new.rows ≡ put turn_mark_name row turns.old.rows }
{
    if let Some(row) = row {
        turns.add(row);
    }
}

fn put_code<M: Drop>(codes: &mut Held<CodeMark<M>>, row: Option<CodeMark<M>>)
    requires room { length codes.old.rows < codes.old.capacity }
    requires may { IfSome row (MayAddRow code_mark_name code_mark_begun true codes.old.rows) }
    ensures { codes.new.rows ≡ put code_mark_name row codes.old.rows }
{
    if let Some(row) = row {
        codes.add(row);
    }
}

/// Updates the turns with an entry at this moment: those whose life is over go, and the one that ended, and the new one comes. Room
/// was reserved for it.
pub fn keep_turns<M: Drop>(
    turns: &mut Held<TurnMark<M>>,
    at: Moment,
    ended: Option<Word>,
    row: Option<TurnMark<M>>,
)
    requires room { length turns.old.rows < turns.old.capacity }
    requires may { IfSome row (MayAddRow turn_mark_name turn_mark_begun true (turns_left ended (live_rows turn_life turn_mark_begun at turns.old.rows))) }
    ensures { turns.new.rows ≡ put turn_mark_name row (turns_left ended (live_rows turn_life turn_mark_begun at turns.old.rows)) }
{
    leave_turns(turns, at, ended);
    put_turn(turns, row);
}

/// Updates the codes with an entry at this moment: those whose life is over go, and the new one comes. Room was reserved for it.
pub fn keep_codes<M: Drop>(codes: &mut Held<CodeMark<M>>, at: Moment, row: Option<CodeMark<M>>)
    requires room { length codes.old.rows < codes.old.capacity }
    requires may { IfSome row (MayAddRow code_mark_name code_mark_begun true (live_rows code_life code_mark_begun at codes.old.rows)) }
    ensures { codes.new.rows ≡ put code_mark_name row (live_rows code_life code_mark_begun at codes.old.rows) }
{
    codes.purge(at);
    put_code(codes, row);
}
