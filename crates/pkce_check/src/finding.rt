// The challenges of turns and codes.

ghost use Rattle.std.specs.Prelude.{◌≡◌, ◌≤◌, reverse, None};
ghost use Rattle.std.specs.Option.{option_copied};
ghost use Rattle.sso_base.specs.Legal.{last_moment};
ghost use Rattle.core_stack.specs.Marks.{mark_in_turn, mark_in_code, marked_turn, answer_mark};
ghost use Rattle.pkce_answer.specs.Challenges as challenges;
ghost use Rattle.pkce_answer.specs.Around.{outer_plain, outer_given};
ghost use Rattle.pkce_answer.specs.Answering as spec;

use crate::pkce_core::PkceCore;
use core_stack::{CodeMark, Provides, TurnMark, kept_code, live_turn};
use op_exchange::OpAsk;
use pkce_answer::{Challenge, PkceAsk};
use sso_base::{Moment, Word};

fn mark_of_turn(row: Option<&TurnMark<Option<[u8; 43]>>>) -> Option<[u8; 43]>
    ensures { result ≡ mark_in_turn None (option_copied row.entry) }
{
    match row {
        Some(row) => row.mark,
        None => None,
    }
}

fn mark_of_code(row: Option<&CodeMark<Option<[u8; 43]>>>) -> Option<[u8; 43]>
    ensures { result ≡ mark_in_code None (option_copied row.entry) }
{
    match row {
        Some(row) => row.mark,
        None => None,
    }
}

/// The challenge of the method S256 that was sent.
pub(crate) fn sent(challenge: &Challenge) -> Option<[u8; 43]>
    ensures { result ≡ challenges.sent challenge.now }
{
    match challenge {
        Challenge::S256(digest) => Some(*digest),
        _ => None,
    }
}

impl<P: Provides> PkceCore<P> {
    // The challenge of the authorization request that began a live turn.
    fn turn_challenge(&self, at: Moment, turn: Option<Word>) -> Option<[u8; 43]>
        requires { last_moment (reverse self.now.history) ≤ at }
        ensures { result ≡ mark_in_turn None
            (marked_turn (outer_plain P.plain_ask) (outer_given P.given_reply) challenges.asked_mark (reverse self.now.history) at turn) }
    {
        let Some(turn) = turn else {
            return None;
        };
        mark_of_turn(live_turn(&self.turns, turn, at))
    }

    /// The challenge of the authorization request that a code answers.
    pub(crate) fn code_challenge(&self, at: Moment, code: Option<Word>) -> Option<[u8; 43]>
        requires { last_moment (reverse self.now.history) ≤ at }
        ensures { result ≡ spec.code_challenge P.plain_ask P.given_reply (reverse self.now.history) at code }
    {
        let Some(code) = code else {
            return None;
        };
        mark_of_code(kept_code(&self.codes, code, at))
    }

    /// The challenge of the authorization request that a response to this request answers.
    pub(crate) fn answer_challenge(&self, at: Moment, ask: &PkceAsk<P::Ask>) -> Option<[u8; 43]>
        requires { last_moment (reverse self.now.history) ≤ at }
        ensures { result ≡ answer_mark (outer_plain P.plain_ask) (outer_given P.given_reply) challenges.asked_mark None
            (reverse self.now.history) at (challenges.asked_mark ask.now) (P.plain_ask ask.now.inner) }
    {
        match P::plain(&ask.inner) {
            Some(OpAsk::Authorize { .. }) => sent(&ask.challenge),
            Some(OpAsk::Login { turn, .. }) => self.turn_challenge(at, *turn),
            Some(OpAsk::Consent { turn, .. }) => self.turn_challenge(at, *turn),
            _ => None,
        }
    }
}
