// A relying party's reply.

ghost use Rattle.std.specs.Prelude.{◌≡◌, ◌≤◌, IfOk};
ghost use Rattle.sso_base.specs.Legal.{last_moment};
ghost use Rattle.rp_answer.specs.Answering as spec;
ghost use Rattle.rp_core.specs.Relying.{past_of};

use crate::alive::unless_dead;
use crate::state::RpCore;
use rp_accept::is_prepared;
use rp_exchange::{RpAsk, RpNo, RpReply};
use sso_base::{Entry, NoMemory};
use std::alloc::Global;

impl RpCore {
    // The reply, if no table were full and no logout had come before its login.
    fn reply(&self, alloc: Global, entry: &Entry<RpAsk>) -> Result<RpReply, NoMemory>
        requires { last_moment (past_of self.now) ≤ entry.now.at }
        ensures { IfOk result (λ r. r ≡ spec.rp_reply self.now.setup (past_of self.now) entry.now entry.now.ask) }
    {
        match &entry.ask {
            RpAsk::Begin { browser } => self.begin(alloc, entry, *browser),
            RpAsk::Callback { heard, id, browser } => {
                self.callback(alloc, entry, heard, id, *browser)
            }
            RpAsk::Tokens {
                pending,
                tokens,
                id,
            } => self.tokens(alloc, entry, *pending, tokens, id),
            RpAsk::Info { pending, sub } => self.info(alloc, entry, *pending, sub),
            RpAsk::Visit { session } => self.visit(alloc, entry, *session),
            RpAsk::Fragment => Ok(RpReply::Fragment),
            RpAsk::Leave { session } => Ok(self.leave(entry, *session)),
            RpAsk::Logout { claims } => self.logout(alloc, entry, claims),
            RpAsk::NotHere => Ok(RpReply::NotHere),
        }
    }

    // The reply, if no table were full.
    fn told(&self, alloc: Global, entry: &Entry<RpAsk>) -> Result<RpReply, NoMemory>
        requires { last_moment (past_of self.now) ≤ entry.now.at }
        ensures { IfOk result (λ r. r ≡ spec.rp_told self.now.setup (past_of self.now) entry.now entry.now.ask) }
    {
        let reply = self.reply(alloc, entry)?;
        Ok(unless_dead(reply, self.dead_for(entry.at, &entry.ask)))
    }

    // The reply. A value that no request produces gets `NotHere`, and with a full table nothing changes.
    #[tactic(auto, unfolding(rp_answer::specs::Answering::rp_answer))]
    pub(crate) fn answer(&self, alloc: Global, entry: &Entry<RpAsk>) -> Result<RpReply, NoMemory>
        requires { last_moment (past_of self.now) ≤ entry.now.at }
        ensures { IfOk result (λ r. r ≡ spec.rp_answer self.now.setup (past_of self.now) entry.now) }
    {
        if !is_prepared(&entry.ask) {
            return Ok(RpReply::NotHere);
        }
        let reply = self.told(alloc, entry)?;
        match self.table_lacking(entry, &reply) {
            Some(table) => Ok(RpReply::Refused {
                why: RpNo::Full(table),
            }),
            None => Ok(reply),
        }
    }
}
