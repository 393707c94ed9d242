// Whether the tables have room for the rows of a reply.

ghost use Rattle.std.specs.Prelude.{◌≡◌, ◌≤◌, nat_lt, length, is_some};
ghost use Rattle.sso_base.specs.Legal.{last_moment};
ghost use Rattle.held_rows.specs.Held.{most_rows, is_full};
ghost use Rattle.code_grant.specs.Rows.{session_name};
ghost use Rattle.op_core.specs.Providing.{past_of};
ghost use Rattle.op_answer.specs.Sessions.{live_sessions};
ghost use Rattle.op_answer.specs.Replies.{session_renewed};
ghost use Rattle.op_answer.specs.Room as spec;

use crate::state::OpCore;
use code_grant::Table;
use op_exchange::{OpAsk, OpReply};
use sso_base::{Entry, Moment, Word};

impl OpCore {
    // Whether there is no room for the turn of an authorization request.
    fn lacks_turn_of(&self, at: Moment, ask: &OpAsk, reply: &OpReply) -> bool
        requires { last_moment (past_of self.now) ≤ at }
        ensures { result ≡ spec.lacks_turn (past_of self.now) at ask.now reply.now }
    {
        match (ask, reply) {
            (OpAsk::Authorize { .. }, OpReply::LoginPage { turn, .. }) => self.lacks_turn(
                at, *turn,
            ),
            (OpAsk::Authorize { .. }, OpReply::ConsentPage { turn, .. }) => {
                self.lacks_turn(at, *turn)
            }
            _ => false,
        }
    }

    // Whether there is room for one more session, if the presented one ends and this word replaces it.
    fn has_session_room(&self, at: Moment, presented: Option<Word>, word: Word) -> bool
        requires { last_moment (past_of self.now) ≤ at }
        ensures { result ≡ nat_lt (length (spec.sessions_beside presented word (live_sessions (past_of self.now) at))) most_rows }
    {
        if self.grants.room(Table::Sessions, at) {
            return true;
        }
        match presented {
            Some(ended) => ended != word && self.live_session(at, presented).is_some(),
            None => false,
        }
    }

    fn lacks_session_word(&self, at: Moment, presented: Option<Word>, word: Word) -> bool
        requires { last_moment (past_of self.now) ≤ at }
        ensures { result ≡ is_full most_rows session_name word (spec.sessions_beside presented word (live_sessions (past_of self.now) at)) }
    {
        !self.has_session_room(at, presented, word) || self.live_session(at, Some(word)).is_some()
    }

    // Whether the presented session is live and of this user.
    fn is_renewed(&self, at: Moment, user: u32, presented: Option<Word>) -> bool
        requires { last_moment (past_of self.now) ≤ at }
        ensures { result ≡ is_some (session_renewed (past_of self.now) at user presented) }
    {
        match self.live_session(at, presented) {
            Some(session) => session.user == user,
            None => false,
        }
    }

    fn lacks_new_session(
        &self,
        at: Moment,
        user: u32,
        presented: Option<Word>,
        given: Option<Word>,
    ) -> bool
        requires { last_moment (past_of self.now) ≤ at }
        ensures { result ≡ spec.lacks_new_session (past_of self.now) at (session_renewed (past_of self.now) at user presented) presented given }
    {
        match given {
            Some(word) => {
                let ended = presented;
                !self.is_renewed(at, user, presented) && self.lacks_session_word(at, ended, word)
            }
            None => false,
        }
    }

    // Whether there is no room for the session of a login.
    fn lacks_session_of(&self, at: Moment, ask: &OpAsk, reply: &OpReply) -> bool
        requires { last_moment (past_of self.now) ≤ at }
        ensures { result ≡ spec.lacks_session (past_of self.now) at ask.now reply.now }
    {
        let OpAsk::Login {
            signed: Some(user),
            session,
            ..
        } = ask
        else {
            return false;
        };
        self.lacks_new_session(at, *user, *session, reply.session_given())
    }

    fn lacks_code_of(&self, at: Moment, code: Option<Word>) -> bool
        requires { last_moment (past_of self.now) ≤ at }
        ensures { result ≡ spec.lacks_code (past_of self.now) at code }
    {
        match code {
            Some(word) => self.lacks_code(at, word),
            None => false,
        }
    }

    fn lacks_access_of(&self, at: Moment, access: Option<Word>) -> bool
        requires { last_moment (past_of self.now) ≤ at }
        ensures { result ≡ spec.lacks_access (past_of self.now) at access }
    {
        match access {
            Some(word) => self.lacks_access(at, word),
            None => false,
        }
    }

    // Whether the tables lack room for the rows of the reply.
    pub(crate) fn lacks_room(&self, entry: &Entry<OpAsk>, reply: &OpReply) -> bool
        requires { last_moment (past_of self.now) ≤ entry.now.at }
        ensures { result ≡ spec.lacks_room (past_of self.now) entry.now reply.now }
    {
        self.lacks_turn_of(entry.at, &entry.ask, reply)
            || self.lacks_session_of(entry.at, &entry.ask, reply)
            || self.lacks_code_of(entry.at, reply.code())
            || self.lacks_access_of(entry.at, reply.access())
    }
}
