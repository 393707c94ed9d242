// The provider's reply to a token request (RFC 6749, 4.1.3, 4.1.4 and 5.2; OpenID Connect Core 1.0, 3.1.3).

ghost use Rattle.std.specs.Prelude.{◌≡◌, ◌≤◌, true, Some, IfOk};
ghost use Rattle.sso_base.specs.Legal.{last_moment};
ghost use Rattle.op_exchange.specs.Asks.{is_prepared};
ghost use Rattle.op_exchange.specs.declared.ask.OpAsk.TheVariants as ask;
ghost use Rattle.code_grant.specs.declared.redeem.Redeem.TheVariants as redeem;
ghost use Rattle.op_tables.specs.Agreeing.{is_own_code};
ghost use Rattle.op_core.specs.Providing.{past_of};
ghost use Rattle.op_answer.specs.Replies as spec;

use crate::authentications::authentication_of_code;
use crate::state::OpCore;
use code_grant::{CodeRow, Redeem, judge_code};
use op_exchange::{OpAsk, OpReply};
use op_issue::id_token_for;
use sso_base::{Entry, NoMemory, Word};
use std::alloc::Global;
use token_endpoint::{Grant, GrantNo, TokenError, token_error};

impl OpCore {
    // The tokens for a code.
    fn tokens_for(
        &self,
        alloc: Global,
        entry: &Entry<OpAsk>,
        code: &CodeRow,
    ) -> Result<OpReply, NoMemory>
        requires { is_own_code self.now.registry code.now ≡ true }
        ensures { IfOk result (λ r. r ≡ spec.tokens_by self.now.registry entry.now redeem.Redeemed (Some code.now)) }
    {
        let access = entry.fresh[0];
        let who = authentication_of_code(code);
        let id = id_token_for(
            alloc,
            &self.registry,
            &code.wish,
            &who,
            entry.at,
            &Some(access),
            &None,
        )?;
        Ok(OpReply::Tokens { access, id })
    }

    fn granted_tokens(
        &self,
        alloc: Global,
        entry: &Entry<OpAsk>,
        grant: &Grant,
    ) -> Result<OpReply, NoMemory>
        requires { last_moment (past_of self.now) ≤ entry.now.at }
        ensures { IfOk result (λ r. r ≡ spec.tokens self.now.registry (past_of self.now) entry.now grant.now) }
    {
        let code = self.held_code(entry.at, Word::read(grant.code.as_str().as_bytes()));
        let redirect = grant.redirect.as_str().as_bytes();
        match (judge_code(code, grant.client, redirect, entry.at), code) {
            (Redeem::Redeemed, Some(code)) => self.tokens_for(alloc, entry, code),
            _ => Ok(OpReply::TokenRefused {
                code: TokenError::InvalidGrant,
            }),
        }
    }

    // The reply to a token request.
    pub(crate) fn token(
        &self,
        alloc: Global,
        entry: &Entry<OpAsk>,
        grant: &Result<Grant, GrantNo>,
    ) -> Result<OpReply, NoMemory>
        requires moment { last_moment (past_of self.now) ≤ entry.now.at }
        requires prepared { is_prepared self.now.registry (ask.Token grant.now) ≡ true }
        ensures { IfOk result (λ r. r ≡ spec.token self.now.registry (past_of self.now) entry.now grant.now) }
    {
        match grant {
            Ok(grant) => self.granted_tokens(alloc, entry, grant),
            Err(why) => Ok(OpReply::TokenRefused {
                code: token_error(why),
            }),
        }
    }
}
