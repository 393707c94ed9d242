// The logout tokens that a relying party has accepted.

ghost use Rattle.std.specs.Prelude.{◌≡◌, ◌<◌, true, length, None, option_and_then};
ghost use Rattle.std.specs.Option.{option_copied};
ghost use Rattle.sso_base.specs.Rows.{row_of, if_lives};
ghost use Rattle.held_rows.specs.Held.{none_after, most_rows};
ghost use Rattle.rp_login.specs.Rows.{seen_name, seen_begun};
ghost use Rattle.oidc_words.specs.Lives.{seen_life};
ghost use Rattle.rp_login.specs.Tables as spec;

use crate::rows::SeenRow;
use crate::tables::Logins;
use sso_base::Moment;

impl Logins {
    /// Adds a logout token that was accepted. Room was reserved, the table is not full, its `jti` is new, and no other token
    /// was accepted later.
    pub fn add_seen(&mut self, row: SeenRow)
        requires reserved { self.old.reserved.seens ≡ true }
        requires few { length self.old.seens < most_rows }
        requires unnamed { row_of seen_name row.jti self.old.seens ≡ None }
        requires latest { none_after seen_begun row.accepted self.old.seens ≡ true }
        ensures { self.new ≡ spec.with_seen row self.old }
    {
        self.reserved.seens = false;
        self.seens.add(row);
    }

    /// The logout token with this `jti`; `None` if and only if none in the table has it. It may have been accepted too long
    /// ago.
    pub fn seen(&self, jti: &[u8]) -> Option<&SeenRow>
        ensures row { option_copied result ≡ row_of seen_name jti.now self.now.seens }
        ensures held { spec.AreSeens self.now.seens }
    {
        self.seens.find(jti)
    }

    /// The logout token with this `jti`, if it is remembered at the moment; `None` if and only if no such token is.
    pub fn live_seen(&self, jti: &[u8], at: Moment) -> Option<&SeenRow>
        ensures row { option_copied result ≡ option_and_then (if_lives seen_life seen_begun at) (row_of seen_name jti.now self.now.seens) }
        ensures held { spec.AreSeens self.now.seens }
    {
        self.seens.living(jti, at)
    }
}
