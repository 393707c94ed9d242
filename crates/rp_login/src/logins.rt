// The logins of a relying party.

ghost use Rattle.std.specs.Prelude.{◌≡◌, ◌<◌, true, length, None, option_and_then};
ghost use Rattle.std.specs.List.{list_any};
ghost use Rattle.std.specs.Option.{option_copied};
ghost use Rattle.std.specs.Str.{bytes_eq};
ghost use Rattle.sso_base.specs.Rows.{row_of, live_rows, if_lives};
ghost use Rattle.rp_login.specs.declared.rows.LoginRow.{LoginRow};
ghost use Rattle.held_rows.specs.Held.{none_after, most_rows};
ghost use Rattle.rp_login.specs.Rows.{login_name, login_begun};
ghost use Rattle.oidc_words.specs.Lives.{login_life};
ghost use Rattle.rp_login.specs.Tables as spec;

use crate::rows::LoginRow;
use crate::tables::Logins;
use held_rows::{By, Keyed};
use sso_base::{Moment, Word};

impl Logins {
    /// Adds a login. Room was reserved, the table is not full, its state is new, and no other login began later.
    pub fn add_login(&mut self, row: LoginRow)
        requires reserved { self.old.reserved.logins ≡ true }
        requires few { length self.old.logins < most_rows }
        requires unnamed { row_of login_name row.state self.old.logins ≡ None }
        requires latest { none_after login_begun row.begun self.old.logins ≡ true }
        ensures { self.new ≡ spec.with_login row self.old }
    {
        self.reserved.logins = false;
        self.logins.add(row);
    }

    /// Whether a login that lives at the moment has this browser word.
    pub fn has_browser(&self, browser: Word, at: Moment) -> bool
        ensures { result ≡ list_any (λ (login : LoginRow). bytes_eq login.browser browser) (live_rows login_life login_begun at self.now.logins) }
    {
        let by = By::Group;
        self.logins.any_live(&Keyed { by, word: browser }, at)
    }

    /// The login with this state; `None` if and only if no login in the table has it. Its life may have ended.
    pub fn login(&self, state: Word) -> Option<&LoginRow>
        ensures row { option_copied result ≡ row_of login_name state self.now.logins }
        ensures held { spec.AreLogins self.now.logins }
    {
        self.logins.find(&state.bytes())
    }

    /// The login with this state, if it lives at the moment; `None` if and only if no such login does.
    pub fn live_login(&self, state: Word, at: Moment) -> Option<&LoginRow>
        ensures row { option_copied result ≡ option_and_then (if_lives login_life login_begun at) (row_of login_name state self.now.logins) }
        ensures held { spec.AreLogins self.now.logins }
    {
        self.logins.living(&state.bytes(), at)
    }

    /// Removes the login with this state. If no login in the table has it, nothing changes.
    pub fn end_login(&mut self, state: Word)
        ensures { self.new ≡ spec.login_ended state self.old }
    {
        self.logins.remove(&state.bytes());
    }
}
