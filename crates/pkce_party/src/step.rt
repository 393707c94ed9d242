// One step: the party inside steps, its reply gets the additions, and the verifiers are updated.

ghost use Rattle.std.specs.Prelude.{◌≡◌, ◌+◌, ◌≤◌, IfOk, OnOk, OnErr};
ghost use Rattle.sso_base.specs.Journal.{history_weight, most_of, extended, ReportsFull};
ghost use Rattle.rp_exchange.specs.Weight as weights;
ghost use Rattle.rp_core.specs.Relying.{past_of};
ghost use Rattle.pkce_party.specs.Adding.{IsLegalParty};
ghost use Rattle.pkce_party.specs.Keeping as spec;

use crate::adding::added;
use crate::known::Known;
use crate::noting::note;
use crate::party::PkceParty;
use crate::reply::PartyReply;
use crate::rows::VerifierRow;
use crate::timed::TimedParty;
use held_rows::Held;
use rp_exchange::{RpAsk, RpReply};
use sso_base::{Core, CoreNo, Moment, NoMemory, Weighed, Word};
use std::alloc::Global;

// Passes a request to the party inside, and updates the verifiers with its reply. All memory of the verifiers is reserved before
// the party steps.
fn pass(
    party: &mut TimedParty,
    verifiers: &mut Held<VerifierRow>,
    alloc: Global,
    at: Moment,
    fresh: [Word; 4],
    ask: RpAsk,
    known: &Known,
) -> Result<RpReply, CoreNo>
    requires keeps { spec.KeepsVerifiers (past_of party.old) verifiers.old.rows }
    requires known { known.now ≡ spec.known_of (past_of party.old) at fresh ask }
    ensures ok { IfOk result (λ reply. spec.Steps party.old party.new at fresh ask reply) }
    ensures keeps { OnOk result (spec.KeepsVerifiers (past_of party.new) verifiers.new.rows) }
    ensures err { OnErr result (party.new ≡ party.old) }
    ensures rows { OnErr result (verifiers.new.rows ≡ verifiers.old.rows) }
    ensures room { OnOk result (history_weight weights.ask_weight party.old.history + weights.ask_weight ask
        ≤ most_of party.old.setup.configuration.lasting) }
    ensures full { ReportsFull (most_of party.old.setup.configuration.lasting) result
        (history_weight weights.ask_weight party.old.history) (weights.ask_weight ask) }
{
    verifiers.reserve()?;
    let reply = party.step(alloc, at, fresh, ask)?;
    note(verifiers, known, &reply);
    Ok(reply)
}

impl PkceParty {
    // One step, as the trait has it.
    fn take(
        &mut self,
        alloc: Global,
        at: Moment,
        fresh: [Word; 4],
        ask: RpAsk,
    ) -> Result<PartyReply, CoreNo>
        ensures ok { IfOk result (λ reply. spec.pairs_of self.new ≡ extended (spec.pairs_of self.old) at fresh ask reply) }
        ensures err { OnErr result (self.new ≡ self.old) }
        ensures setup { self.new.setup ≡ self.old.setup }
        ensures legal { IsLegalParty self.new.setup (spec.pairs_of self.new) }
        ensures room { OnOk result (history_weight weights.ask_weight (spec.pairs_of self.old) + weights.ask_weight ask
            ≤ most_of self.old.setup.configuration.lasting) }
        ensures full { ReportsFull (most_of self.old.setup.configuration.lasting) result
            (history_weight weights.ask_weight (spec.pairs_of self.old)) (weights.ask_weight ask) }
    {
        let types = self.party.types();
        let known = self.known(at, &fresh, &ask);
        let reply = match pass(
            &mut self.party,
            &mut self.verifiers,
            alloc,
            at,
            fresh,
            ask,
            &known,
        ) {
            Ok(reply) => reply,
            Err(no) => return Err(no),
        };
        Ok(added(&types, &known, reply))
    }
}

impl Core for PkceParty {
    ghost use Rattle.sso_base.proofs.Histories.{beginning_is_legal};
    ghost use Rattle.sso_base.proofs.Limits.{most_is_short as short_limit};
    ghost use Rattle.rp_exchange.specs.Values.{IsRpAsk};
    ghost use Rattle.rp_exchange.proofs.LeastWeight.{least_weight};
    ghost use Rattle.rp_answer.specs.Setup.{PartySetup};
    ghost use Rattle.pkce_party.specs.Adding.{party_answer, IsLegalParty};

    type Ask = RpAsk;

    type Reply = PartyReply;

    ghost Setup = { PartySetup };

    ghost setup = { λ c. c.setup };

    ghost history = { spec.pairs_of };

    ghost weighs = { weights.ask_weight };

    ghost most = { λ s. most_of s.configuration.lasting };

    ghost is_legal = { IsLegalParty };

    fn step(
        &mut self,
        alloc: Global,
        at: Moment,
        fresh: [Word; 4],
        ask: RpAsk,
    ) -> Result<PartyReply, CoreNo> {
        self.take(alloc, at, fresh, ask)
    }

    fn weight(ask: &RpAsk) -> Result<u64, NoMemory> {
        ask.weight()
    }

    fn count(&self) -> u64 {
        self.party.count()
    }

    ghost legal_is_light = { λ s h legal. legal.light };

    ghost most_is_short = { λ s. short_limit s.configuration.lasting };

    ghost beginnings_are_legal = { λ s. beginning_is_legal IsRpAsk (party_answer s) weights.ask_weight (most_of s.configuration.lasting) };

    ghost least_weight = { least_weight };
}
