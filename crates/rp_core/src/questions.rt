// Lookups in the tables: the rows that live at a moment, which are those of the past.

ghost use Rattle.std.specs.Prelude.{◌≡◌, ◌≤◌, true, length, Some, is_some};
ghost use Rattle.std.specs.Option.{option_copied};
ghost use Rattle.sso_base.specs.Legal.{last_moment};
ghost use Rattle.sso_base.specs.Rows.{row_of, without};
ghost use Rattle.held_rows.specs.Held.{most_rows, is_full};
ghost use Rattle.rp_login.specs.Rows.{login_name, pending_name, visit_name, seen_name};
ghost use Rattle.rp_answer.specs.Setup.{party_of};
ghost use Rattle.rp_answer.specs.Logins as logins;
ghost use Rattle.rp_answer.specs.Pendings as pendings;
ghost use Rattle.rp_answer.specs.Replies.{meant_count};
ghost use Rattle.rp_answer.specs.Seens as seens;
ghost use Rattle.rp_answer.specs.Deads as deads;
ghost use Rattle.rp_answer.specs.Visits as visits;
ghost use Rattle.rp_core.specs.Relying.{past_of, exchanges_at};

use crate::state::RpCore;
use logout_token::LogoutClaims;
use rp_login::{DeadRow, LoginRow, PendingRow, RpTable, SeenRow, SessionRow, Stage};
use sso_base::{Moment, Word, bytes_if};

// Whether the response is the one that is pending.
pub(crate) fn is_stage(waits: Stage, stage: Stage) -> bool
    ensures { result ≡ pendings.is_stage waits stage }
{
    match (waits, stage) {
        (Stage::Tokens, Stage::Tokens) | (Stage::Info, Stage::Info) => true,
        (Stage::Tokens, Stage::Info) | (Stage::Info, Stage::Tokens) => false,
    }
}

impl RpCore {
    /// The live login of a state.
    pub(crate) fn live_login(&self, at: Moment, state: Option<Word>) -> Option<&LoginRow>
        requires { last_moment (past_of self.now) ≤ at }
        ensures { option_copied result ≡ logins.live_login (past_of self.now) at state }
    {
        let Some(state) = state else {
            return None;
        };
        self.logins.live_login(state, at)
    }

    /// The live pending exchange with a word, with any response pending.
    fn any_live_pending(&self, at: Moment, word: Word) -> Option<&PendingRow>
        requires { last_moment (past_of self.now) ≤ at }
        ensures { option_copied result ≡ pendings.any_live_pending (party_of self.now.setup).types (past_of self.now) at word }
    {
        self.logins.live_pending(word, at)
    }

    /// The live pending exchange with a word that is waiting for this response.
    pub(crate) fn live_pending(&self, at: Moment, word: Word, waits: Stage) -> Option<&PendingRow>
        requires { last_moment (past_of self.now) ≤ at }
        ensures { option_copied result ≡ pendings.live_pending (party_of self.now.setup).types (past_of self.now) at word waits }
    {
        let Some(row) = self.any_live_pending(at, word) else {
            return None;
        };
        if is_stage(waits, row.stage) {
            Some(row)
        } else {
            None
        }
    }

    /// The live session of a word.
    pub(crate) fn live_visit(&self, at: Moment, session: Option<Word>) -> Option<&SessionRow>
        requires { last_moment (past_of self.now) ≤ at }
        ensures { option_copied result ≡ visits.live_visit (party_of self.now.setup).types (past_of self.now) at session }
    {
        let Some(session) = session else {
            return None;
        };
        self.logins.live_session(session, at)
    }

    /// The accepted logout token with that `jti`, if it is still remembered.
    pub(crate) fn live_seen(&self, at: Moment, jti: &[u8]) -> Option<&SeenRow>
        requires { last_moment (past_of self.now) ≤ at }
        ensures { option_copied result ≡ seens.live_seen (past_of self.now) at jti.now }
    {
        self.logins.live_seen(jti, at)
    }

    /// The session identifier that an accepted logout token named, if it is still remembered.
    pub(crate) fn live_dead(&self, at: Moment, sid: &[u8]) -> Option<&DeadRow>
        requires { last_moment (past_of self.now) ≤ at }
        ensures { option_copied result ≡ deads.live_dead (past_of self.now) at sid.now }
    {
        self.logins.live_dead(sid, at)
    }

    /// How many live sessions a logout token names.
    pub(crate) fn count_meant(&self, at: Moment, claims: &LogoutClaims) -> u32
        requires { last_moment (past_of self.now) ≤ at }
        ensures { result ≡ meant_count claims.now (visits.live_visits (party_of self.now.setup).types (past_of self.now) at) }
    {
        let sub = bytes_if(&claims.sub);
        let sid = bytes_if(&claims.sid);
        self.logins.count_named(sub, sid, at)
    }

    /// Whether a live login belongs to this browser.
    pub(crate) fn has_login_browser(&self, at: Moment, browser: Word) -> bool
        requires { last_moment (past_of self.now) ≤ at }
        ensures { result ≡ logins.has_login_browser (past_of self.now) at browser }
    {
        self.logins.has_browser(browser, at)
    }

    /// Whether no login with this state can be added: the table is full, or has such a login.
    pub(crate) fn lacks_login(&self, at: Moment, state: Word) -> bool
        requires { last_moment (past_of self.now) ≤ at }
        ensures { result ≡ is_full most_rows login_name state (logins.live_logins (past_of self.now) at) }
    {
        !self.logins.room(RpTable::Logins, at) || self.live_login(at, Some(state)).is_some()
    }

    /// Whether no pending exchange with this word can be added: the table is full, or has such an exchange.
    pub(crate) fn lacks_pending(&self, at: Moment, word: Word) -> bool
        requires { last_moment (past_of self.now) ≤ at }
        ensures { result ≡ is_full most_rows pending_name word (pendings.live_pendings (party_of self.now.setup).types (past_of self.now) at) }
    {
        !self.logins.room(RpTable::Pendings, at) || self.any_live_pending(at, word).is_some()
    }

    // Whether a pending exchange with this word lives. The table has at most 65,536 rows.
    fn is_pending(&self, at: Moment, word: Word) -> bool
        requires { last_moment (past_of self.now) ≤ at }
        ensures row { result ≡ is_some (row_of pending_name word (pendings.live_pendings (party_of self.now.setup).types (past_of self.now) at)) }
        ensures few { length (pendings.live_pendings (party_of self.now.setup).types (past_of self.now) at) ≤ most_rows }
    {
        // The contract of `pending` states the table's invariant: at most 65,536 rows.
        let _row = self.logins.pending(word);
        self.any_live_pending(at, word).is_some()
    }

    // Whether no exchange with this word can be added when the answered one, which lives, ends.
    fn lacks_beside_live(&self, at: Moment, answered: Word, word: Word) -> bool
        requires order { last_moment (past_of self.now) ≤ at }
        requires there { is_some (row_of pending_name answered (exchanges_at self.now at)) ≡ true }
        ensures { result ≡ is_full most_rows pending_name word (without pending_name answered (exchanges_at self.now at)) }
    {
        let named = self.is_pending(at, word);
        answered != word && named
    }

    /// Whether no pending exchange with this word can be added when the answered one ends.
    pub(crate) fn lacks_pending_beside(&self, at: Moment, answered: Word, word: Word) -> bool
        requires { last_moment (past_of self.now) ≤ at }
        ensures { result ≡ is_full most_rows pending_name word (without pending_name answered (exchanges_at self.now at)) }
    {
        if self.is_pending(at, answered) {
            self.lacks_beside_live(at, answered, word)
        } else {
            self.lacks_pending(at, word)
        }
    }

    /// Whether no session with this word can be added: the table is full, or has such a session.
    pub(crate) fn lacks_visit(&self, at: Moment, word: Word) -> bool
        requires { last_moment (past_of self.now) ≤ at }
        ensures { result ≡ is_full most_rows visit_name word (visits.live_visits (party_of self.now.setup).types (past_of self.now) at) }
    {
        !self.logins.room(RpTable::Sessions, at) || self.live_visit(at, Some(word)).is_some()
    }

    /// Whether no logout token with this `jti` can be added: the table is full, or has such a token.
    pub(crate) fn lacks_seen(&self, at: Moment, jti: &[u8]) -> bool
        requires { last_moment (past_of self.now) ≤ at }
        ensures { result ≡ is_full most_rows seen_name jti.now (seens.live_seens (past_of self.now) at) }
    {
        !self.logins.room(RpTable::Seen, at) || self.live_seen(at, jti).is_some()
    }
}
