// The party inside, with the moment of its last entry.

ghost use Rattle.std.specs.Prelude.{◌≡◌, ◌+◌, ◌≤◌, [], length, IfOk, OnOk, OnErr};
ghost use Rattle.sso_base.specs.Legal.{last_moment};
ghost use Rattle.sso_base.specs.Journal.{history_weight, most_of, ReportsFull};
ghost use Rattle.rp_exchange.specs.Weight.{ask_weight};
ghost use Rattle.rp_answer.specs.Setup.{party_of};
ghost use Rattle.rp_core.specs.Relying.{past_of};
ghost use Rattle.pkce_party.specs.Keeping.{later, Steps};

use oidc_words::Types;
use rp_core::RpCore;
use rp_exchange::{RpAsk, RpReply};
use sso_base::{Core, CoreNo, Moment, Word};
use std::alloc::Global;
use std::marker::Model;

/// A relying party with the moment of its last entry. Its model is its core's.
#[derive(Drop)]
pub(crate) struct TimedParty {
    core: RpCore,
    last: Moment,
}

impl Model for TimedParty {
    ghost use Rattle.std.specs.Prelude.{◌≡◌};
    ghost use Rattle.sso_base.specs.Legal.{last_moment};
    ghost use Rattle.rp_core.specs.Relying.{Relying, past_of};
    ghost use Rattle.std.specs.Coded.{codes};
    ghost use Rattle.claim_set.specs.MembersCode.{members_code};

    ghost Value = { Relying };

    ghost coded = { Prim.hlevel (codes, members_code) };

    ghost view = { λ r. r.core };

    ghost invariant = { λ r. r.last ≡ last_moment (past_of r.core) };
}

// The later of two moments.
fn later_of(last: Moment, at: Moment) -> Moment
    ensures moment { result ≡ later last at }
    ensures order { last ≤ result }
{
    if at.seconds() < last.seconds() {
        last
    } else {
        at
    }
}

impl TimedParty {
    /// This party, whose history is empty.
    pub(crate) fn new(core: RpCore) -> TimedParty
        requires { core.history ≡ [] }
        ensures { result ≡ core }
    {
        TimedParty {
            core,
            last: Moment::first(),
        }
    }

    /// The moment of the next entry: time never goes back.
    pub(crate) fn moment(&self, at: Moment) -> Moment
        ensures moment { result ≡ later (last_moment (past_of self.now)) at }
        ensures order { last_moment (past_of self.now) ≤ result }
    {
        later_of(self.last, at)
    }

    /// The response type of the party's requests.
    pub(crate) fn types(&self) -> Types
        ensures { result ≡ (party_of self.now.setup).types }
    {
        self.core.types()
    }

    /// How many pairs its history has.
    pub(crate) fn count(&self) -> u64
        ensures { result ≡ length self.now.history }
    {
        self.core.count()
    }

    /// Sends a request to the party.
    pub(crate) fn step(
        &mut self,
        alloc: Global,
        at: Moment,
        fresh: [Word; 4],
        ask: RpAsk,
    ) -> Result<RpReply, CoreNo>
        ensures ok { IfOk result (λ reply. Steps self.old self.new at fresh ask reply) }
        ensures err { OnErr result (self.new ≡ self.old) }
        ensures room { OnOk result (history_weight ask_weight self.old.history + ask_weight ask ≤ most_of self.old.setup.configuration.lasting) }
        ensures full { ReportsFull (most_of self.old.setup.configuration.lasting) result (history_weight ask_weight self.old.history) (ask_weight ask) }
    {
        let reply = self.core.step(alloc, at, fresh, ask)?;
        let at = later_of(self.last, at);
        self.last = at;
        Ok(reply)
    }
}
