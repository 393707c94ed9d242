// The pending exchanges of a relying party.

ghost use Rattle.std.specs.Prelude.{◌≡◌, ◌<◌, true, length, None, option_and_then};
ghost use Rattle.std.specs.Option.{option_copied};
ghost use Rattle.sso_base.specs.Rows.{row_of, if_lives};
ghost use Rattle.held_rows.specs.Held.{none_after, most_rows};
ghost use Rattle.rp_login.specs.Rows.{pending_name, pending_begun};
ghost use Rattle.oidc_words.specs.Lives.{pending_life};
ghost use Rattle.rp_login.specs.Tables as spec;

use crate::rows::PendingRow;
use crate::tables::Logins;
use sso_base::{Moment, Word};

impl Logins {
    /// Adds a pending exchange. Room was reserved, the table is not full, its word is new, and no other exchange began later.
    pub fn add_pending(&mut self, row: PendingRow)
        requires reserved { self.old.reserved.pendings ≡ true }
        requires few { length self.old.pendings < most_rows }
        requires unnamed { row_of pending_name row.word self.old.pendings ≡ None }
        requires latest { none_after pending_begun row.since self.old.pendings ≡ true }
        ensures { self.new ≡ spec.with_pending row self.old }
    {
        self.reserved.pendings = false;
        self.pendings.add(row);
    }

    /// The pending exchange with this word; `None` if and only if none in the table has it. Its life may have ended.
    pub fn pending(&self, word: Word) -> Option<&PendingRow>
        ensures row { option_copied result ≡ row_of pending_name word self.now.pendings }
        ensures held { spec.ArePendings self.now.pendings }
    {
        self.pendings.find(&word.bytes())
    }

    /// The pending exchange with this word, if it lives at the moment; `None` if and only if no such exchange does.
    pub fn live_pending(&self, word: Word, at: Moment) -> Option<&PendingRow>
        ensures row { option_copied result ≡ option_and_then (if_lives pending_life pending_begun at) (row_of pending_name word self.now.pendings) }
        ensures held { spec.ArePendings self.now.pendings }
    {
        self.pendings.living(&word.bytes(), at)
    }

    /// Removes the pending exchange with this word. If none in the table has it, nothing changes.
    pub fn end_pending(&mut self, word: Word)
        ensures { self.new ≡ spec.pending_ended word self.old }
    {
        self.pendings.remove(&word.bytes());
    }
}
