// The roles of a world: cores, each with the moment of its last entry.

ghost use Rattle.std.specs.Prelude.{◌≡◌, ◌<◌, ◌≤◌, ◌+◌, [], length, true, Some, IfSome, IfOk, OnOk, OnErr};
ghost use Rattle.sso_base.specs.Legal.{last_moment};
ghost use Rattle.sso_base.specs.Journal.{history_weight, most_of, ReportsFull};
ghost use Rattle.op_core.specs.Providing.{past_of as op_past_of};
ghost use Rattle.op_exchange.specs.Asks.{is_prepared};
ghost use Rattle.op_answer.specs.Sessions.{live_session as live_session_of};
ghost use Rattle.rp_core.specs.Relying.{Relying};
ghost use Rattle.rp_exchange.specs.Weight.{ask_weight as rp_weight};
ghost use Rattle.rp_accept.specs.Serving.{setup_of};
ghost use Rattle.sso_places.specs.Told.{session_ended as ended_of};
ghost use Rattle.running_world.specs.Stepping.{later};
ghost use Rattle.running_world.specs.Roles.{OpSteps, RpSteps, RpStepsAt, ProviderHasRoom, ProviderReportsFull, PartyHasRoom, PartyReportsFull};
ghost use Rattle.running_world.specs.Parties.{AreNewParties};
ghost use Rattle.running_world.specs.Foreknowing.{IsForeknown};
ghost use Rattle.code_grant.specs.declared.rows.SessionRow.{SessionRow as SessionOf};

use crate::foreknown::{Foreknown, client_of};
use client_registry::Registry;
use code_grant::SessionRow;
use op_core::OpCore;
use op_exchange::{OpAsk, OpReply};
use rp_core::RpCore;
use rp_exchange::{RpAsk, RpReply};
use sso_base::{Core, CoreNo, Moment, NoMemory, Word};
use std::alloc::Global;
use std::marker::Model;

/// A provider with the moment of its last entry. Its model is its core's.
#[derive(Drop)]
pub(crate) struct TimedProvider {
    core: OpCore,
    last: Moment,
}

impl Model for TimedProvider {
    ghost use Rattle.op_core.specs.Providing.{Providing};
    ghost use Rattle.running_world.specs.Roles.{IsLegalAt};

    ghost Value = { Providing };

    ghost view = { λ r. r.core };

    ghost invariant = { λ r. IsLegalAt r.core r.last };
}

/// A relying party with the moment of its last entry. Its model is its core's.
#[derive(Drop)]
pub(crate) struct TimedParty {
    core: RpCore,
    last: Moment,
}

impl Model for TimedParty {
    ghost use Rattle.std.specs.Prelude.{◌≡◌};
    ghost use Rattle.sso_base.specs.Legal.{last_moment};
    ghost use Rattle.rp_core.specs.Relying.{Relying, past_of};
    ghost use Rattle.std.specs.Coded.{codes};
    ghost use Rattle.claim_set.specs.MembersCode.{members_code};

    ghost Value = { Relying };

    ghost coded = { Prim.hlevel (codes, members_code) };

    ghost view = { λ r. r.core };

    ghost invariant = { λ r. r.last ≡ last_moment (past_of r.core) };
}

/// A reply of the provider, and the moment of its entry.
#[derive(Drop)]
pub(crate) struct OpTold {
    pub(crate) at: Moment,
    pub(crate) reply: OpReply,
}

/// A reply of a party, and the moment of its entry.
#[derive(Drop)]
pub(crate) struct RpTold {
    pub(crate) at: Moment,
    pub(crate) reply: RpReply,
}

// The later of two moments.
fn later_of(last: Moment, at: Moment) -> Moment
    ensures { result ≡ later last at }
{
    if at.seconds() < last.seconds() {
        last
    } else {
        at
    }
}

// The moment before all others.
fn first_moment() -> Moment
    ensures { result ≡ 0 }
{
    Moment::new(0).unwrap()
}

impl TimedProvider {
    /// The provider of the registry, with an empty history.
    pub(crate) fn new(alloc: Global, registry: &Registry) -> Result<TimedProvider, NoMemory>
        ensures registry { IfOk result (λ r. r.registry ≡ registry.now) }
        ensures history { IfOk result (λ r. r.history ≡ []) }
    {
        Ok(TimedProvider {
            core: OpCore::new(alloc, registry.copy(alloc)?)?,
            last: first_moment(),
        })
    }

    /// The moment of an entry: time never goes back.
    pub(crate) fn moment(&self, at: Moment) -> Moment
        ensures { result ≡ later (last_moment (op_past_of self.now)) at }
    {
        later_of(self.last, at)
    }

    /// What decides which tokens the reply writes.
    pub(crate) fn foreknown(&self, at: Moment, asked: &OpAsk) -> Foreknown
        requires { is_prepared self.now.registry asked.now ≡ true }
        ensures { IsForeknown self.now.registry (op_past_of self.now) (later (last_moment (op_past_of self.now)) at) asked.now result }
    {
        Foreknown {
            client: client_of(asked),
            ended: self.session_ended(at, asked),
        }
    }

    // The session that a sign-out ends.
    fn session_ended(&self, at: Moment, asked: &OpAsk) -> Option<SessionRow>
        ensures ended { result ≡ ended_of (op_past_of self.now) (later (last_moment (op_past_of self.now)) at) asked.now }
        ensures user { IfSome result (λ (row : SessionOf). row.user < length self.now.registry.users) }
    {
        match asked {
            OpAsk::SignOut { session } => self.live_session(at, session),
            _ => None,
        }
    }

    // The live session of a word.
    fn live_session(&self, at: Moment, word: &Option<Word>) -> Option<SessionRow>
        ensures row { result ≡ live_session_of (op_past_of self.now) (later (last_moment (op_past_of self.now)) at) word.now }
        ensures user { IfSome result (λ (row : SessionOf). row.user < length self.now.registry.users) }
    {
        let Some(word) = word else {
            return None;
        };
        self.core
            .tables()
            .live_session(*word, self.moment(at))
            .copied()
    }

    /// Sends a request to the provider.
    pub(crate) fn step(
        &mut self,
        alloc: Global,
        at: Moment,
        fresh: [Word; 4],
        ask: OpAsk,
    ) -> Result<OpTold, CoreNo>
        ensures ok { IfOk result (λ told. OpSteps self.old self.new at fresh ask told.at told.reply) }
        ensures err { OnErr result (self.new ≡ self.old) }
        ensures room { ProviderHasRoom result self.old.registry self.old ask }
        ensures full { ProviderReportsFull result self.old.registry self.old ask }
    {
        let reply = self.core.step(alloc, at, fresh, ask)?;
        let at = later_of(self.last, at);
        self.last = at;
        Ok(OpTold { at, reply })
    }
}

impl TimedParty {
    /// The party with this number, with an empty history. It trusts the registry's provider.
    pub(crate) fn new(
        alloc: Global,
        registry: &Registry,
        number: u32,
    ) -> Result<TimedParty, NoMemory>
        requires { number < length registry.now.parties }
        ensures setup { IfOk result (λ r. r.setup ≡ setup_of registry.now number registry.now.provider) }
        ensures history { IfOk result (λ r. r.history ≡ []) }
    {
        let provider = registry.provider().copy(alloc)?;
        Ok(TimedParty {
            core: RpCore::new(alloc, registry.copy(alloc)?, number, provider)?,
            last: first_moment(),
        })
    }

    /// Sends a request to the party.
    pub(crate) fn step(
        &mut self,
        alloc: Global,
        at: Moment,
        fresh: [Word; 4],
        ask: RpAsk,
    ) -> Result<RpTold, CoreNo>
        ensures ok { IfOk result (λ told. RpSteps self.old self.new at fresh ask told.at told.reply) }
        ensures err { OnErr result (self.new ≡ self.old) }
        ensures room { OnOk result (history_weight rp_weight self.old.history + rp_weight ask ≤ most_of self.old.setup.configuration.lasting) }
        ensures full { ReportsFull (most_of self.old.setup.configuration.lasting) result (history_weight rp_weight self.old.history) (rp_weight ask) }
    {
        let reply = self.core.step(alloc, at, fresh, ask)?;
        let at = later_of(self.last, at);
        self.last = at;
        Ok(RpTold { at, reply })
    }
}

/// All parties of the registry, with empty histories.
pub(crate) fn new_parties(alloc: Global, registry: &Registry) -> Result<Vec<TimedParty>, NoMemory>
    ensures { IfOk result (λ v. AreNewParties registry.now v.items) }
{
    let mut parties = Vec::new(alloc);
    for number in 0..registry.parties() {
        parties.push(TimedParty::new(alloc, registry, number)?)?;
    }
    Ok(parties)
}

/// Sends a request to the party with this number.
pub(crate) fn step_at(
    roles: &mut Vec<TimedParty>,
    alloc: Global,
    number: u32,
    at: Moment,
    fresh: [Word; 4],
    ask: RpAsk,
) -> Result<RpTold, CoreNo>
    requires { number < length roles.old.items }
    ensures ok { IfOk result (λ told. RpStepsAt roles.old.items roles.new.items number at fresh ask told.at told.reply) }
    ensures err { OnErr result (roles.new.items ≡ roles.old.items) }
    ensures room { PartyHasRoom result roles.old.items number ask }
    ensures full { PartyReportsFull result roles.old.items number ask }
{
    roles[number as usize].step(alloc, at, fresh, ask)
}
