// The replies to token responses, to UserInfo responses and to a visit, if no table were full.

ghost use Rattle.std.specs.Prelude.{◌≡◌, ◌≤◌, IfOk};
ghost use Rattle.sso_base.specs.Legal.{last_moment};
ghost use Rattle.rp_login.specs.declared.rows.Stage.TheVariants as stage;
ghost use Rattle.rp_answer.specs.Setup.{party_of};
ghost use Rattle.rp_answer.specs.Replies as spec;
ghost use Rattle.rp_answer.specs.Visits.{live_visit};
ghost use Rattle.rp_core.specs.Relying.{past_of, exchange_at};

use crate::state::RpCore;
use id_token::{IdClaims, IdNo};
use rp_accept::reply_to_info;
use rp_exchange::{RpAsk, RpNo, RpReply, copied_info, copied_tokens};
use rp_login::Stage;
use sso_base::{Entry, NoMemory, Text, Word};
use std::alloc::Global;
use token_endpoint::{Tokens, TokensNo};
use userinfo::InfoNo;

impl RpCore {
    // The reply to a token response.
    pub(crate) fn tokens(
        &self,
        alloc: Global,
        entry: &Entry<RpAsk>,
        pending: Word,
        tokens: &Result<Tokens, TokensNo>,
        id: &Option<Result<IdClaims, IdNo>>,
    ) -> Result<RpReply, NoMemory>
        requires { last_moment (past_of self.now) ≤ entry.now.at }
        ensures { IfOk result (λ r. r ≡ spec.tokens self.now.setup entry.now (exchange_at self.now entry.now.at pending stage.Tokens) tokens.now id.now) }
    {
        let Some(row) = self.live_pending(entry.at, pending, Stage::Tokens) else {
            return Ok(RpReply::Refused {
                why: RpNo::StalePending,
            });
        };
        match tokens {
            Ok(tokens) => self.setup.reply_to_tokens(alloc, entry, row, tokens, id),
            Err(why) => Ok(RpReply::Refused {
                why: RpNo::Tokens(copied_tokens(alloc, why)?),
            }),
        }
    }

    // The reply to a UserInfo response.
    pub(crate) fn info(
        &self,
        alloc: Global,
        entry: &Entry<RpAsk>,
        pending: Word,
        sub: &Result<Text, InfoNo>,
    ) -> Result<RpReply, NoMemory>
        requires { last_moment (past_of self.now) ≤ entry.now.at }
        ensures { IfOk result (λ r. r ≡ spec.info entry.now (exchange_at self.now entry.now.at pending stage.Info) sub.now) }
    {
        let Some(row) = self.live_pending(entry.at, pending, Stage::Info) else {
            return Ok(RpReply::Refused {
                why: RpNo::StalePending,
            });
        };
        match sub {
            Ok(sub) => reply_to_info(alloc, entry, row, sub),
            Err(why) => Ok(RpReply::Refused {
                why: RpNo::Info(copied_info(alloc, why)?),
            }),
        }
    }

    // The reply to a visit.
    pub(crate) fn visit(
        &self,
        alloc: Global,
        entry: &Entry<RpAsk>,
        session: Option<Word>,
    ) -> Result<RpReply, NoMemory>
        requires { last_moment (past_of self.now) ≤ entry.now.at }
        ensures { IfOk result (λ r. r ≡ spec.visited (live_visit (party_of self.now.setup).types (past_of self.now) entry.now.at session)) }
    {
        match self.live_visit(entry.at, session) {
            Some(visit) => Ok(RpReply::User {
                sub: visit.sub.copy(alloc)?,
            }),
            None => Ok(RpReply::Nobody),
        }
    }
}
