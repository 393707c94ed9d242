// The replies to leaving and to a logout request, if no table were full (OpenID Connect Back-Channel Logout 1.0, 2.5 to 2.8).

ghost use Rattle.std.specs.Prelude.{◌≡◌, ◌≤◌, IfOk};
ghost use Rattle.sso_base.specs.Legal.{last_moment};
ghost use Rattle.rp_answer.specs.Setup.{party_of};
ghost use Rattle.rp_answer.specs.Replies as spec;
ghost use Rattle.rp_answer.specs.Seens.{live_seen};
ghost use Rattle.rp_answer.specs.Visits.{live_visit};
ghost use Rattle.rp_core.specs.Relying.{past_of};

use crate::state::RpCore;
use logout_token::{LogoutClaims, LogoutNo};
use rp_exchange::{RpAsk, RpNo, RpReply, copied_logout};
use sso_base::{Entry, NoMemory, Word};
use std::alloc::Global;

impl RpCore {
    // The reply when a user leaves.
    pub(crate) fn leave(&self, entry: &Entry<RpAsk>, session: Option<Word>) -> RpReply
        requires { last_moment (past_of self.now) ≤ entry.now.at }
        ensures { result ≡ spec.left (live_visit (party_of self.now.setup).types (past_of self.now) entry.now.at session) }
    {
        RpReply::Left {
            ended: self.live_visit(entry.at, session).is_some(),
        }
    }

    // A verified logout token: it is accepted, unless it was accepted before.
    fn logout_new(&self, entry: &Entry<RpAsk>, claims: &LogoutClaims) -> RpReply
        requires { last_moment (past_of self.now) ≤ entry.now.at }
        ensures { result ≡ spec.logout_new self.now.setup (past_of self.now) entry.now claims.now (live_seen (past_of self.now) entry.now.at claims.now.jti) }
    {
        match self.live_seen(entry.at, claims.jti.as_str().as_bytes()) {
            Some(seen) => RpReply::Refused {
                why: RpNo::Seen(seen.place),
            },
            None => RpReply::Ended {
                count: self.count_meant(entry.at, claims),
            },
        }
    }

    // Verifies the claims of a logout token.
    fn logout_read(&self, entry: &Entry<RpAsk>, claims: &LogoutClaims) -> RpReply
        requires { last_moment (past_of self.now) ≤ entry.now.at }
        ensures { result ≡ spec.logout_verified self.now.setup (past_of self.now) entry.now claims.now }
    {
        match self.setup.judge_logout(claims, entry.at) {
            Ok(()) => self.logout_new(entry, claims),
            Err(why) => RpReply::Refused {
                why: RpNo::Logout(why),
            },
        }
    }

    // The reply to a logout request.
    pub(crate) fn logout(
        &self,
        alloc: Global,
        entry: &Entry<RpAsk>,
        claims: &Result<LogoutClaims, LogoutNo>,
    ) -> Result<RpReply, NoMemory>
        requires { last_moment (past_of self.now) ≤ entry.now.at }
        ensures { IfOk result (λ r. r ≡ spec.logout self.now.setup (past_of self.now) entry.now claims.now) }
    {
        match claims {
            Ok(claims) => Ok(self.logout_read(entry, claims)),
            Err(why) => Ok(RpReply::Refused {
                why: RpNo::Logout(copied_logout(alloc, why)?),
            }),
        }
    }
}
