// The sessions of the provider.

ghost use Rattle.std.specs.Prelude.{◌≡◌, ◌<◌, true, length, None, IfSome, option_and_then, refl};
ghost use Rattle.std.specs.Option.{option_copied};
ghost use Rattle.sso_base.specs.Rows.{row_of, if_lives};
ghost use Rattle.held_rows.specs.Held.{none_after, most_rows};
ghost use Rattle.code_grant.specs.Rows.{session_name, session_begun};
ghost use Rattle.oidc_words.specs.Lives.{session_life};
ghost use Rattle.code_grant.specs.Tables as spec;

use crate::grants::Grants;
use crate::rows::SessionRow;
use held_rows::Change;
use sso_base::{Moment, Word};
use std::marker::Model;

// The change of a session that logs in to this client. Its model is the client's number.
#[derive(Drop)]
struct WithClient {
    client: u32,
}

impl Model for WithClient {
    ghost use Rattle.std.specs.Prelude.{ℕ, ◌<◌};

    ghost Value = { ℕ };

    ghost view = { λ c. c.client };

    ghost invariant = { λ c. c.client < 128 };
}

impl Change<SessionRow> for WithClient {
    ghost changed = { λ c. spec.session_with c };

    fn change(&self, session: &mut SessionRow) {
        session.clients.add(self.client);
    }

    ghost keys_stay = { λ c session by. refl };

    ghost moments_stay = { λ c session. refl };

    ghost rows_stay_sound = { λ c session sound. sound };
}

impl Grants {
    /// Adds a session. Room was reserved, the table is not full, its word is new, and no other session began later.
    pub fn start_session(&mut self, row: SessionRow)
        requires reserved { self.old.reserved.sessions ≡ true }
        requires few { length self.old.sessions < most_rows }
        requires unnamed { row_of session_name row.word self.old.sessions ≡ None }
        requires latest { none_after session_begun row.auth_time self.old.sessions ≡ true }
        requires user { row.user < 512 }
        ensures { self.new ≡ spec.with_session row self.old }
    {
        self.reserved.sessions = false;
        self.sessions.add(row);
    }

    /// The session with this word; `None` if and only if no session in the table has it. Its life may have ended.
    pub fn session(&self, word: Word) -> Option<&SessionRow>
        ensures row { option_copied result ≡ row_of session_name word self.now.sessions }
        ensures user { IfSome (option_copied result) (λ row. row.user < 512) }
        ensures held { spec.AreSessions self.now.sessions }
    {
        self.sessions.find(&word.bytes())
    }

    /// The session with this word, if it lives at the moment; `None` if and only if no such session does.
    pub fn live_session(&self, word: Word, at: Moment) -> Option<&SessionRow>
        ensures row { option_copied result ≡ option_and_then (if_lives session_life session_begun at) (row_of session_name word self.now.sessions) }
        ensures held { spec.AreSessions self.now.sessions }
    {
        self.sessions.living(&word.bytes(), at)
    }

    /// Renews the session with this word after a new login: its `auth_time` is the moment, and it moves to the end. If no
    /// session in the table has the word, nothing changes.
    pub fn renew(&mut self, word: Word, at: Moment)
        requires { none_after session_begun at self.old.sessions ≡ true }
        ensures { self.new ≡ spec.session_renewed word at self.old }
    {
        let name = word.bytes();
        if let Some(row) = self.sessions.find(&name) {
            let renewed = SessionRow {
                auth_time: at,
                ..*row
            };
            self.sessions.put(&name, renewed);
        }
    }

    /// Adds a client to those that the session with this word has logged in to. If no session in the table has the word,
    /// nothing changes.
    pub fn visit(&mut self, word: Word, client: u32)
        requires { client < 128 }
        ensures { self.new ≡ spec.session_visited word client self.old }
    {
        self.sessions.change(&word.bytes(), &WithClient { client });
    }

    /// Removes the session with this word. If no session in the table has it, nothing changes.
    pub fn end_session(&mut self, word: Word)
        ensures { self.new ≡ spec.session_ended word self.old }
    {
        self.sessions.remove(&word.bytes());
    }
}
