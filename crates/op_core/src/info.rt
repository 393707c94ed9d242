// The provider's reply to a UserInfo request (OpenID Connect Core 1.0, 5.3; RFC 6750, 3.1).

ghost use Rattle.std.specs.Prelude.{◌≡◌, ◌≤◌, true, IfOk, IfSome};
ghost use Rattle.std.specs.Option.{option_copied};
ghost use Rattle.sso_base.specs.Legal.{last_moment};
ghost use Rattle.claim_set.specs.Reading.{claims_text};
ghost use Rattle.userinfo.specs.Held.{info_members};
ghost use Rattle.op_tables.specs.Agreeing.{is_own_token};
ghost use Rattle.op_core.specs.Providing.{past_of};
ghost use Rattle.op_answer.specs.Replies as spec;

use crate::state::OpCore;
use claim_set::write_claims;
use code_grant::TokenRow;
use op_exchange::{OpAsk, OpReply};
use sso_base::{Blob, Entry, NoMemory};
use std::alloc::Global;
use userinfo::{Bearer, info_claims};

impl OpCore {
    // The UserInfo claims for an access token.
    fn claims_told(&self, alloc: Global, token: &TokenRow) -> Result<Blob, NoMemory>
        requires { is_own_token self.now.registry token.now ≡ true }
        ensures { IfOk result (λ b. b ≡ claims_text (info_members self.now.registry token.now.client token.now.user token.now.scopes token.now.asked)) }
    {
        let claims = info_claims(
            alloc,
            &self.registry,
            token.client,
            token.user,
            &token.scopes,
            &token.asked,
        )?;
        write_claims(&claims)
    }

    fn info_by(&self, alloc: Global, token: Option<&TokenRow>) -> Result<OpReply, NoMemory>
        requires { IfSome (option_copied token) (λ row. is_own_token self.now.registry row ≡ true) }
        ensures { IfOk result (λ r. r ≡ spec.info_by self.now.registry (option_copied token.entry)) }
    {
        match token {
            Some(token) => Ok(OpReply::Info {
                claims: self.claims_told(alloc, token)?,
            }),
            None => Ok(OpReply::InfoRefused { given: true }),
        }
    }

    // The reply to a UserInfo request.
    pub(crate) fn info(
        &self,
        alloc: Global,
        entry: &Entry<OpAsk>,
        bearer: &Bearer,
    ) -> Result<OpReply, NoMemory>
        requires { last_moment (past_of self.now) ≤ entry.now.at }
        ensures { IfOk result (λ r. r ≡ spec.info self.now.registry (past_of self.now) entry.now bearer.now) }
    {
        match bearer {
            Bearer::Absent => Ok(OpReply::InfoRefused { given: false }),
            Bearer::Unreadable => Ok(OpReply::InfoRefused { given: true }),
            Bearer::Given(word) => {
                let token = self.live_access_token(entry.at, *word);
                self.info_by(alloc, token)
            }
        }
    }
}
