// The turns of the provider.

ghost use Rattle.std.specs.Prelude.{◌≡◌, ◌<◌, true, length, None, IfSome, option_and_then, refl};
ghost use Rattle.std.specs.List.{list_any};
ghost use Rattle.std.specs.Option.{option_copied};
ghost use Rattle.std.specs.Str.{bytes_eq};
ghost use Rattle.sso_base.specs.Rows.{row_of, live_rows, if_lives};
ghost use Rattle.code_grant.specs.declared.rows.TurnRow.{TurnRow};
ghost use Rattle.held_rows.specs.Held.{none_after, most_rows};
ghost use Rattle.code_grant.specs.Rows.{turn_name, turn_begun};
ghost use Rattle.oidc_words.specs.Lives.{turn_life};
ghost use Rattle.code_grant.specs.Tables as spec;

use crate::grants::Grants;
use crate::rows::TurnRow;
use held_rows::{By, Change, Keyed};
use sso_base::{Moment, Word};

// The change of a turn that gets this session.
#[derive(Clone, Copy)]
struct WithSession {
    session: Word,
    in_turn: bool,
}

impl Change<TurnRow> for WithSession {
    ghost changed = { λ c. spec.turn_with c.session c.in_turn };

    fn change(&self, turn: &mut TurnRow) {
        turn.session = Some(self.session);
        turn.in_turn = self.in_turn;
    }

    ghost keys_stay = { λ c turn by. refl };

    ghost moments_stay = { λ c turn. refl };

    ghost rows_stay_sound = { λ c turn sound. sound };
}

impl Grants {
    /// Adds a turn. Room was reserved, the table is not full, its word is new, and no other turn began later.
    pub fn start_turn(&mut self, row: TurnRow)
        requires reserved { self.old.reserved.turns ≡ true }
        requires few { length self.old.turns < most_rows }
        requires unnamed { row_of turn_name row.word self.old.turns ≡ None }
        requires latest { none_after turn_begun row.begun self.old.turns ≡ true }
        requires client { row.wish.client < 128 }
        ensures { self.new ≡ spec.with_turn row self.old }
    {
        self.reserved.turns = false;
        self.turns.add(row);
    }

    /// Whether a turn that lives at the moment has this browser word.
    pub fn has_browser(&self, browser: Word, at: Moment) -> bool
        ensures { result ≡ list_any (λ (turn : TurnRow). bytes_eq turn.browser browser) (live_rows turn_life turn_begun at self.now.turns) }
    {
        let by = By::Group;
        self.turns.any_live(&Keyed { by, word: browser }, at)
    }

    /// The turn with this word; `None` if and only if no turn in the table has it. Its life may have ended.
    pub fn turn(&self, word: Word) -> Option<&TurnRow>
        ensures row { option_copied result ≡ row_of turn_name word self.now.turns }
        ensures client { IfSome (option_copied result) (λ row. row.wish.client < 128) }
        ensures held { spec.AreTurns self.now.turns }
    {
        self.turns.find(&word.bytes())
    }

    /// The turn with this word, if it lives at the moment; `None` if and only if no such turn does.
    pub fn live_turn(&self, word: Word, at: Moment) -> Option<&TurnRow>
        ensures row { option_copied result ≡ option_and_then (if_lives turn_life turn_begun at) (row_of turn_name word self.now.turns) }
        ensures held { spec.AreTurns self.now.turns }
    {
        self.turns.living(&word.bytes(), at)
    }

    /// Gives the turn with this word this session, and records whether the user logged in during the turn. If no turn in the
    /// table has the word, nothing changes.
    pub fn set_turn(&mut self, word: Word, session: Word, in_turn: bool)
        ensures { self.new ≡ spec.turn_set word session in_turn self.old }
    {
        self.turns
            .change(&word.bytes(), &WithSession { session, in_turn });
    }

    /// Removes the turn with this word. If no turn in the table has it, nothing changes.
    pub fn end_turn(&mut self, word: Word)
        ensures { self.new ≡ spec.turn_ended word self.old }
    {
        self.turns.remove(&word.bytes());
    }
}
