// The session identifiers that accepted logout tokens named.

ghost use Rattle.std.specs.Prelude.{◌≡◌, ◌<◌, true, length, None, option_and_then};
ghost use Rattle.std.specs.Option.{option_copied};
ghost use Rattle.sso_base.specs.Rows.{row_of, if_lives};
ghost use Rattle.oidc_words.specs.Lives.{seen_life};
ghost use Rattle.held_rows.specs.Held.{none_after, most_rows};
ghost use Rattle.rp_login.specs.Rows.{dead_name, dead_begun};
ghost use Rattle.rp_login.specs.Tables as spec;

use crate::rows::DeadRow;
use crate::tables::Logins;
use sso_base::Moment;

impl Logins {
    /// Adds a session identifier that an accepted logout token named. Room was reserved, the table is not full, its `sid` is
    /// new, and no other was named later.
    pub fn add_dead(&mut self, row: DeadRow)
        requires reserved { self.old.reserved.deads ≡ true }
        requires few { length self.old.deads < most_rows }
        requires unnamed { row_of dead_name row.sid self.old.deads ≡ None }
        requires latest { none_after dead_begun row.accepted self.old.deads ≡ true }
        ensures { self.new ≡ spec.with_dead row self.old }
    {
        self.reserved.deads = false;
        self.deads.add(row);
    }

    /// The row of this `sid`; `None` if and only if no row in the table has it. Its logout token may have been accepted too
    /// long ago.
    pub fn dead(&self, sid: &[u8]) -> Option<&DeadRow>
        ensures row { option_copied result ≡ row_of dead_name sid.now self.now.deads }
        ensures held { spec.AreDeads self.now.deads }
    {
        self.deads.find(sid)
    }

    /// The row of this `sid`, if it is remembered at the moment; `None` if and only if no such row is.
    pub fn live_dead(&self, sid: &[u8], at: Moment) -> Option<&DeadRow>
        ensures row { option_copied result ≡ option_and_then (if_lives seen_life dead_begun at) (row_of dead_name sid.now self.now.deads) }
        ensures held { spec.AreDeads self.now.deads }
    {
        self.deads.living(sid, at)
    }

    /// Removes the row of this `sid`. If no row in the table has it, nothing changes.
    pub fn end_dead(&mut self, sid: &[u8])
        ensures { self.new ≡ spec.dead_ended sid.now self.old }
    {
        self.deads.remove(sid);
    }
}
