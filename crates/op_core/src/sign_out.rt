// The provider's reply to a sign-out (OpenID Connect Back-Channel Logout 1.0, 2.3 and 2.5).

ghost use Rattle.std.specs.Prelude.{◌≡◌, ◌≤◌, true, Some, IfOk};
ghost use Rattle.sso_base.specs.Legal.{last_moment};
ghost use Rattle.op_tables.specs.Agreeing.{is_own_session};
ghost use Rattle.op_core.specs.Providing.{past_of};
ghost use Rattle.op_answer.specs.Replies as spec;

use crate::authentications::authentication_of_session;
use crate::state::OpCore;
use code_grant::SessionRow;
use op_exchange::{OpAsk, OpReply};
use op_issue::{SignOut, logout_messages};
use sso_base::{Entry, Messages, NoMemory, Word};
use std::alloc::Global;

impl OpCore {
    // The sign-out of a live session.
    fn signed_out(
        &self,
        alloc: Global,
        entry: &Entry<OpAsk>,
        session: &SessionRow,
    ) -> Result<OpReply, NoMemory>
        requires { is_own_session self.now.registry session.now ≡ true }
        ensures { IfOk result (λ r. r ≡ spec.sign_out_by self.now.registry entry.now (Some session.now)) }
    {
        let out = SignOut {
            who: authentication_of_session(session),
            at: entry.at,
            word: entry.fresh[0],
        };
        Ok(OpReply::SignedOut {
            messages: logout_messages(alloc, &self.registry, &out, &session.clients)?,
        })
    }

    // The reply to a sign-out.
    pub(crate) fn sign_out(
        &self,
        alloc: Global,
        entry: &Entry<OpAsk>,
        presented: Option<Word>,
    ) -> Result<OpReply, NoMemory>
        requires { last_moment (past_of self.now) ≤ entry.now.at }
        ensures { IfOk result (λ r. r ≡ spec.sign_out self.now.registry (past_of self.now) entry.now presented) }
    {
        match self.live_session(entry.at, presented) {
            Some(session) => self.signed_out(alloc, entry, session),
            None => Ok(OpReply::SignedOut {
                messages: Messages::new(alloc),
            }),
        }
    }
}
