// Lookups in the tables: the rows that live at a moment, which are those of the past.

ghost use Rattle.std.specs.Prelude.{◌≡◌, ◌<◌, ◌≤◌, true, IfSome};
ghost use Rattle.std.specs.Option.{option_copied};
ghost use Rattle.sso_base.specs.Legal.{last_moment};
ghost use Rattle.held_rows.specs.Held.{most_rows, is_full};
ghost use Rattle.code_grant.specs.Rows.{turn_name, code_name, access_name};
ghost use Rattle.client_registry.specs.Numbers.{is_client, is_user};
ghost use Rattle.op_core.specs.Providing.{past_of};
ghost use Rattle.op_tables.specs.Agreeing.{is_own_turn, is_own_session, is_own_code, is_own_token};
ghost use Rattle.op_answer.specs.Turns as turns;
ghost use Rattle.op_answer.specs.Sessions as sessions;
ghost use Rattle.op_answer.specs.Codes as codes;
ghost use Rattle.op_answer.specs.AccessTokens as tokens;
ghost use Rattle.op_answer.specs.Consents.{grant_of};

use crate::state::OpCore;
use code_grant::{CodeRow, SessionRow, Table, TokenRow, TurnRow};
use oidc_words::Scopes;
use sso_base::{Moment, Word};

impl OpCore {
    /// The live turn of a word.
    pub(crate) fn live_turn(&self, at: Moment, word: Option<Word>) -> Option<&TurnRow>
        requires { last_moment (past_of self.now) ≤ at }
        ensures row { option_copied result ≡ turns.live_turn (past_of self.now) at word }
        ensures own { IfSome (option_copied result) (λ row. is_own_turn self.now.registry row ≡ true) }
    {
        let Some(word) = word else {
            return None;
        };
        self.grants.live_turn(word, at)
    }

    /// The live session of a word.
    pub(crate) fn live_session(&self, at: Moment, word: Option<Word>) -> Option<&SessionRow>
        requires { last_moment (past_of self.now) ≤ at }
        ensures row { option_copied result ≡ sessions.live_session (past_of self.now) at word }
        ensures own { IfSome (option_copied result) (λ row. is_own_session self.now.registry row ≡ true) }
    {
        let Some(word) = word else {
            return None;
        };
        self.grants.live_session(word, at)
    }

    /// The code of a word that is kept.
    pub(crate) fn held_code(&self, at: Moment, word: Option<Word>) -> Option<&CodeRow>
        requires { last_moment (past_of self.now) ≤ at }
        ensures row { option_copied result ≡ codes.held_code (past_of self.now) at word }
        ensures own { IfSome (option_copied result) (λ row. is_own_code self.now.registry row ≡ true) }
    {
        let Some(word) = word else {
            return None;
        };
        self.grants.held_code(word, at)
    }

    /// The live access token of a word.
    pub(crate) fn live_access_token(&self, at: Moment, word: Word) -> Option<&TokenRow>
        requires { last_moment (past_of self.now) ≤ at }
        ensures row { option_copied result ≡ tokens.live_access_token (past_of self.now) at word }
        ensures own { IfSome (option_copied result) (λ row. is_own_token self.now.registry row ≡ true) }
    {
        self.grants.live_token(word, at)
    }

    /// Whether a live turn belongs to this browser.
    pub(crate) fn has_turn_browser(&self, at: Moment, browser: Word) -> bool
        requires { last_moment (past_of self.now) ≤ at }
        ensures { result ≡ turns.has_turn_browser (past_of self.now) at browser }
    {
        self.grants.has_browser(browser, at)
    }

    /// What the user has granted to the client.
    pub(crate) fn granted(&self, user: u32, client: u32) -> Scopes
        requires user { is_user self.now.registry user ≡ true }
        requires client { is_client self.now.registry client ≡ true }
        ensures { result ≡ grant_of (past_of self.now) user client }
    {
        // The contract of `users` states the invariant of every registry: at most 512 users and 128 clients.
        let _users = self.registry.users();
        self.grants.granted(user, client)
    }

    /// Whether no turn with this word can be added: the table is full, or has such a turn.
    pub(crate) fn lacks_turn(&self, at: Moment, word: Word) -> bool
        requires { last_moment (past_of self.now) ≤ at }
        ensures { result ≡ is_full most_rows turn_name word (turns.live_turns (past_of self.now) at) }
    {
        !self.grants.room(Table::Turns, at) || self.live_turn(at, Some(word)).is_some()
    }

    /// Whether no code with this word can be added: the table is full, or has such a code.
    pub(crate) fn lacks_code(&self, at: Moment, word: Word) -> bool
        requires { last_moment (past_of self.now) ≤ at }
        ensures { result ≡ is_full most_rows code_name word (codes.held_codes (past_of self.now) at) }
    {
        !self.grants.room(Table::Codes, at) || self.held_code(at, Some(word)).is_some()
    }

    /// Whether no access token with this word can be added: the table is full, or has such a token.
    pub(crate) fn lacks_access(&self, at: Moment, word: Word) -> bool
        requires { last_moment (past_of self.now) ≤ at }
        ensures { result ≡ is_full most_rows access_name word (tokens.live_accesses (past_of self.now) at) }
    {
        !self.grants.room(Table::Tokens, at) || self.live_access_token(at, word).is_some()
    }
}
