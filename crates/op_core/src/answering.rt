// The provider's reply.

ghost use Rattle.std.specs.Prelude.{◌≡◌, ◌≤◌, true, IfOk, IfSome};
ghost use Rattle.std.specs.Option.{option_copied};
ghost use Rattle.sso_base.specs.Legal.{last_moment};
ghost use Rattle.op_exchange.specs.Asks as asks;
ghost use Rattle.op_answer.specs.Answering as spec;
ghost use Rattle.op_tables.specs.Agreeing.{is_own_turn, is_own_session};
ghost use Rattle.op_core.specs.Providing.{past_of};
ghost use Rattle.op_core.specs.Making.{turn_found, session_of_turn};
ghost use Rattle.op_core.specs.FormReplies.{reply_for};

use crate::state::OpCore;
use auth_request::{PageNo, Verdict, Wish, is_short_nonce};
use code_grant::{SessionRow, TurnRow};
use discovery_doc::print_discovery;
use op_exchange::{OpAsk, OpReply};
use sso_base::{Entry, NoMemory};
use std::alloc::Global;
use token_endpoint::{Grant, GrantNo};

impl OpCore {
    fn is_prepared_wish(&self, wish: &Wish) -> bool
        ensures { result ≡ asks.is_prepared_wish self.now.registry wish.now }
    {
        wish.client < self.registry.clients() && is_short_nonce(&wish.nonce) && wish.scopes.openid
    }

    fn is_prepared_verdict(&self, verdict: &Verdict) -> bool
        ensures { result ≡ asks.is_prepared_verdict self.now.registry verdict.now }
    {
        match verdict {
            Verdict::Grant(wish) => self.is_prepared_wish(wish),
            _ => true,
        }
    }

    fn is_prepared_grant(&self, grant: &Result<Grant, GrantNo>) -> bool
        ensures { result ≡ asks.is_prepared self.now.registry (OpAsk.Token grant.now) }
    {
        match grant {
            Ok(grant) => grant.client < self.registry.clients(),
            Err(GrantNo::NoMemory) => false,
            Err(_) => true,
        }
    }

    // Whether a request can produce the value.
    pub(crate) fn is_prepared(&self, ask: &OpAsk) -> bool
        ensures { result ≡ asks.is_prepared self.now.registry ask.now }
    {
        match ask {
            OpAsk::Authorize { verdict, .. } => self.is_prepared_verdict(verdict),
            OpAsk::Login {
                signed: Some(user),
                ..
            } => *user < self.registry.users(),
            OpAsk::Token { grant } => self.is_prepared_grant(grant),
            _ => true,
        }
    }

    // The reply for the turn of the form and the live session of that turn, if no table were full.
    fn reply_for(
        &self,
        alloc: Global,
        entry: &Entry<OpAsk>,
        turn: Option<&TurnRow>,
        own: Option<&SessionRow>,
    ) -> Result<OpReply, NoMemory>
        requires moment { last_moment (past_of self.now) ≤ entry.now.at }
        requires prepared { asks.is_prepared self.now.registry entry.now.ask ≡ true }
        requires turn { IfSome (option_copied turn) (λ row. is_own_turn self.now.registry row ≡ true) }
        requires own { IfSome (option_copied own) (λ row. is_own_session self.now.registry row ≡ true) }
        ensures { IfOk result (λ r. r
            ≡ reply_for self.now.registry (past_of self.now) entry.now entry.now.ask (option_copied turn.entry) (option_copied own.entry)) }
    {
        match &entry.ask {
            OpAsk::Authorize {
                verdict,
                browser,
                session,
            } => self.authorize(alloc, entry, verdict, *browser, *session),
            OpAsk::Login {
                signed,
                browser,
                session,
                ..
            } => self.login(alloc, entry, turn, *signed, *browser, *session),
            OpAsk::Consent {
                agree,
                browser,
                session,
                ..
            } => self.consent(alloc, entry, turn, own, *agree, *browser, *session),
            OpAsk::Token { grant } => self.token(alloc, entry, grant),
            OpAsk::Info { bearer } => self.info(alloc, entry, bearer),
            OpAsk::SignOut { session } => self.sign_out(alloc, entry, *session),
            OpAsk::Metadata => Ok(OpReply::Metadata {
                text: print_discovery(alloc, &self.registry)?,
            }),
            OpAsk::Keys => Ok(OpReply::Keys),
            OpAsk::Twice => Ok(OpReply::ErrorPage { why: PageNo::Twice }),
            OpAsk::NotHere => Ok(OpReply::NotHere),
        }
    }

    // The reply, if no table were full. The turn of a form and its live session were found.
    fn reply(
        &self,
        alloc: Global,
        entry: &Entry<OpAsk>,
        turn: Option<&TurnRow>,
        own: Option<&SessionRow>,
    ) -> Result<OpReply, NoMemory>
        requires moment { last_moment (past_of self.now) ≤ entry.now.at }
        requires prepared { asks.is_prepared self.now.registry entry.now.ask ≡ true }
        requires turn { option_copied turn ≡ turn_found (past_of self.now) entry.now.at entry.now.ask }
        requires session { option_copied own ≡ session_of_turn (past_of self.now) entry.now.at (option_copied turn) }
        requires turn_is_own { IfSome (option_copied turn) (λ row. is_own_turn self.now.registry row ≡ true) }
        requires session_is_own { IfSome (option_copied own) (λ row. is_own_session self.now.registry row ≡ true) }
        ensures { IfOk result (λ r. r ≡ spec.op_reply self.now.registry (past_of self.now) entry.now entry.now.ask) }
    {
        self.reply_for(alloc, entry, turn, own)
    }

    // The reply. A value that no request produces gets `NotHere`, and with a full table nothing changes. The turn of a form and
    // its live session were found.
    #[tactic(auto, unfolding(op_answer::specs::Answering::op_answer))]
    pub(crate) fn answer(
        &self,
        alloc: Global,
        entry: &Entry<OpAsk>,
        turn: Option<&TurnRow>,
        own: Option<&SessionRow>,
    ) -> Result<OpReply, NoMemory>
        requires moment { last_moment (past_of self.now) ≤ entry.now.at }
        requires turn { option_copied turn ≡ turn_found (past_of self.now) entry.now.at entry.now.ask }
        requires session { option_copied own ≡ session_of_turn (past_of self.now) entry.now.at (option_copied turn) }
        requires turn_is_own { IfSome (option_copied turn) (λ row. is_own_turn self.now.registry row ≡ true) }
        requires session_is_own { IfSome (option_copied own) (λ row. is_own_session self.now.registry row ≡ true) }
        ensures { IfOk result (λ r. r ≡ spec.op_answer self.now.registry (past_of self.now) entry.now) }
    {
        if !self.is_prepared(&entry.ask) {
            return Ok(OpReply::NotHere);
        }
        let reply = self.reply(alloc, entry, turn, own)?;
        if self.lacks_room(entry, &reply) {
            Ok(OpReply::Full)
        } else {
            Ok(reply)
        }
    }
}
