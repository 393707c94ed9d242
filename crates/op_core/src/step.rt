// One step of the provider: it decides the reply, makes the rows, reserves all memory, and only then changes anything.

ghost use Rattle.std.specs.Prelude.{◌≡◌, ◌<◌, ◌≤◌, ◌+◌, ◌++◌, [], ◌∷◌, length, true, IfSome, IfOk, OnOk, OnErr};
ghost use Rattle.sso_base.specs.Legal.{last_moment, IsEntry};
ghost use Rattle.sso_base.specs.Journal.{history_weight, most_of, ReportsFull};
ghost use Rattle.client_registry.specs.Configuration.{Configuration};
ghost use Rattle.code_grant.specs.Tables.{with_room};
ghost use Rattle.op_exchange.specs.Values.{IsOpAsk};
ghost use Rattle.op_exchange.specs.Weight as weights;
ghost use Rattle.op_answer.specs.Answering.{op_answer};
ghost use Rattle.op_tables.specs.Agreeing.{is_own_turn, is_own_session, is_own_code, is_own_token};
ghost use Rattle.op_core.specs.Outcome.{IsOutcome, MayPut, LeavesPut};
ghost use Rattle.op_core.specs.Providing.{past_of};

use crate::outcome::{Decision, Outcome};
use crate::state::OpCore;
use code_grant::Grants;
use op_exchange::{OpAsk, OpReply, know_op_entry};
use op_tables::update_tables;
use sso_base::{Core, CoreNo, Entry, Journal, Moment, NoMemory, Pair, Weighed, Word};
use std::alloc::Global;

// Makes room in the history for one more pair, and in each table for one more row.
fn reserve(journal: &mut Journal<OpAsk, OpReply>, grants: &mut Grants) -> Result<(), NoMemory>
    ensures pairs { journal.new.pairs ≡ journal.old.pairs }
    ensures most { journal.new.most ≡ journal.old.most }
    ensures room { OnOk result (length journal.new.pairs < journal.new.capacity) }
    ensures tables { OnOk result (grants.new ≡ with_room grants.old) }
    ensures same { OnErr result (grants.new ≡ grants.old) }
{
    journal.reserve()?;
    grants.reserve()
}

// Adds an entry and its reply to the history and updates the tables. Room was reserved for it.
fn put(
    journal: &mut Journal<OpAsk, OpReply>,
    grants: &mut Grants,
    entry: Entry<OpAsk>,
    reply: OpReply,
    outcome: Outcome,
    weight: u64,
)
    requires reserved { length journal.old.pairs < journal.old.capacity }
    requires may { MayPut grants.old (record { entry = entry; reply = reply }) outcome }
    requires tables { grants.old.reserved ≡ record { turns = true; sessions = true; codes = true; tokens = true } }
    requires client { IfSome outcome.client (λ n. n < 128) }
    requires turn { IfSome outcome.made.turn (λ row. row.wish.client < 128) }
    requires session { IfSome outcome.made.session (λ row. row.user < 512) }
    requires code { IfSome outcome.made.code (λ row. (row.user < 512) × (row.wish.client < 128)) }
    requires token { IfSome outcome.made.token (λ row. (row.user < 512) × (row.client < 128)) }
    requires weight { weight ≡ weights.ask_weight entry.ask }
    requires room { history_weight weights.ask_weight journal.old.pairs + weight ≤ journal.old.most }
    ensures pairs { journal.new.pairs ≡ journal.old.pairs ++ (record { entry = entry; reply = reply }) ∷ [] }
    ensures most { journal.new.most ≡ journal.old.most }
    ensures tables { LeavesPut grants.old grants.new (record { entry = entry; reply = reply }) outcome }
{
    let pair = Pair { entry, reply };
    let Outcome { made, used, client } = outcome;
    update_tables(grants, &pair, made, used, client);
    journal.push(pair, weight);
}

// Adds an entry and its reply to the history and updates the tables. All memory is reserved before the first change.
fn take_in(
    journal: &mut Journal<OpAsk, OpReply>,
    grants: &mut Grants,
    entry: Entry<OpAsk>,
    reply: OpReply,
    outcome: Outcome,
    weight: u64,
) -> Result<(), NoMemory>
    requires may { MayPut (with_room grants.old) (record { entry = entry; reply = reply }) outcome }
    requires client { IfSome outcome.client (λ n. n < 128) }
    requires turn { IfSome outcome.made.turn (λ row. row.wish.client < 128) }
    requires session { IfSome outcome.made.session (λ row. row.user < 512) }
    requires code { IfSome outcome.made.code (λ row. (row.user < 512) × (row.wish.client < 128)) }
    requires token { IfSome outcome.made.token (λ row. (row.user < 512) × (row.client < 128)) }
    requires weight { weight ≡ weights.ask_weight entry.ask }
    requires room { history_weight weights.ask_weight journal.old.pairs + weight ≤ journal.old.most }
    ensures pairs { OnOk result (journal.new.pairs ≡ journal.old.pairs ++ (record { entry = entry; reply = reply }) ∷ []) }
    ensures most { journal.new.most ≡ journal.old.most }
    ensures tables { OnOk result (LeavesPut (with_room grants.old) grants.new (record { entry = entry; reply = reply }) outcome) }
    ensures same_pairs { OnErr result (journal.new.pairs ≡ journal.old.pairs) }
    ensures same_tables { OnErr result (grants.new ≡ grants.old) }
{
    match reserve(journal, grants) {
        Ok(()) => {
            put(journal, grants, entry, reply, outcome, weight);
            Ok(())
        }
        Err(no) => {
            // dropped by calls: at an early return of this function the prover would walk through all of their parts
            drop(entry);
            drop(reply);
            drop(outcome);
            Err(no)
        }
    }
}

impl OpCore {
    // The weight of a request, which fits into the history; otherwise the error holds the history's weight.
    fn admit(&self, ask: &OpAsk) -> Result<u64, CoreNo>
        ensures weight { IfOk result (λ weight. weight ≡ weights.ask_weight ask.now) }
        ensures room { OnOk result (history_weight weights.ask_weight self.now.history + weights.ask_weight ask.now ≤ most_of self.now.registry.lasting) }
        ensures full { ReportsFull (most_of self.now.registry.lasting) result
            (history_weight weights.ask_weight self.now.history) (weights.ask_weight ask.now) }
    {
        self.journal.admit(ask)
    }

    // Adds an entry with its reply and its effects.
    pub(crate) fn commit(
        &mut self,
        entry: Entry<OpAsk>,
        reply: OpReply,
        outcome: Outcome,
        weight: u64,
    ) -> Result<(), NoMemory>
        requires moment { last_moment (past_of self.old) ≤ entry.at }
        requires answer { reply ≡ op_answer self.old.registry (past_of self.old) entry }
        requires entry { IsEntry IsOpAsk entry }
        requires rows { IsOutcome (past_of self.old) (record { entry = entry; reply = reply }) outcome }
        requires own_turn { IfSome outcome.made.turn (λ row. is_own_turn self.old.registry row ≡ true) }
        requires own_session { IfSome outcome.made.session (λ row. is_own_session self.old.registry row ≡ true) }
        requires own_code { IfSome outcome.made.code (λ row. is_own_code self.old.registry row ≡ true) }
        requires own_token { IfSome outcome.made.token (λ row. is_own_token self.old.registry row ≡ true) }
        requires client { IfSome outcome.client (λ n. n < 128) }
        requires turn { IfSome outcome.made.turn (λ row. row.wish.client < 128) }
        requires session { IfSome outcome.made.session (λ row. row.user < 512) }
        requires code { IfSome outcome.made.code (λ row. (row.user < 512) × (row.wish.client < 128)) }
        requires token { IfSome outcome.made.token (λ row. (row.user < 512) × (row.client < 128)) }
        requires weight { weight ≡ weights.ask_weight entry.ask }
        requires room { history_weight weights.ask_weight self.old.history + weight ≤ most_of self.old.registry.lasting }
        ensures history { OnOk result (self.new.history ≡ self.old.history ++ (record { entry = entry; reply = reply }) ∷ []) }
        ensures registry { OnOk result (self.new.registry ≡ self.old.registry) }
        ensures err { OnErr result (self.new ≡ self.old) }
    {
        take_in(
            &mut self.journal,
            &mut self.grants,
            entry,
            reply,
            outcome,
            weight,
        )?;
        Ok(())
    }

    // Adds an entry with its reply and its effects, and returns a copy of the reply.
    fn take_and_answer(
        &mut self,
        alloc: Global,
        entry: Entry<OpAsk>,
        decision: Decision,
        weight: u64,
    ) -> Result<OpReply, NoMemory>
        requires moment { last_moment (past_of self.old) ≤ entry.at }
        requires answer { decision.reply ≡ op_answer self.old.registry (past_of self.old) entry }
        requires entry { IsEntry IsOpAsk entry }
        requires rows { IsOutcome (past_of self.old) (record { entry = entry; reply = decision.reply }) decision.outcome }
        requires own_turn { IfSome decision.outcome.made.turn (λ row. is_own_turn self.old.registry row ≡ true) }
        requires own_session { IfSome decision.outcome.made.session (λ row. is_own_session self.old.registry row ≡ true) }
        requires own_code { IfSome decision.outcome.made.code (λ row. is_own_code self.old.registry row ≡ true) }
        requires own_token { IfSome decision.outcome.made.token (λ row. is_own_token self.old.registry row ≡ true) }
        requires client { IfSome decision.outcome.client (λ n. n < 128) }
        requires turn { IfSome decision.outcome.made.turn (λ row. row.wish.client < 128) }
        requires session { IfSome decision.outcome.made.session (λ row. row.user < 512) }
        requires code { IfSome decision.outcome.made.code (λ row. (row.user < 512) × (row.wish.client < 128)) }
        requires token { IfSome decision.outcome.made.token (λ row. (row.user < 512) × (row.client < 128)) }
        requires weight { weight ≡ weights.ask_weight entry.ask }
        requires room { history_weight weights.ask_weight self.old.history + weight ≤ most_of self.old.registry.lasting }
        ensures told { IfOk result (λ told. told ≡ decision.reply) }
        ensures history { OnOk result (self.new.history ≡ self.old.history ++ (record { entry = entry; reply = decision.reply }) ∷ []) }
        ensures registry { OnOk result (self.new.registry ≡ self.old.registry) }
        ensures err { OnErr result (self.new ≡ self.old) }
    {
        let told = match decision.reply.copy(alloc) {
            Ok(told) => told,
            Err(no) => {
                drop(entry);
                drop(decision);
                return Err(no);
            }
        };
        let Decision { reply, outcome } = decision;
        match self.commit(entry, reply, outcome, weight) {
            Ok(()) => Ok(told),
            Err(no) => {
                drop(told);
                Err(no)
            }
        }
    }
}

impl Core for OpCore {
    ghost use Rattle.client_registry.specs.Configuration.{Configuration};
    ghost use Rattle.op_exchange.specs.Values.{IsOpAsk};
    ghost use Rattle.op_answer.specs.Answering.{op_answer};
    ghost use Rattle.op_answer.specs.Legal.{IsLegalHistory};
    ghost use Rattle.sso_base.proofs.Histories.{beginning_is_legal};
    ghost use Rattle.sso_base.proofs.Limits.{most_is_short as short_limit};
    ghost use Rattle.op_exchange.proofs.LeastWeight.{least_weight};

    type Ask = OpAsk;

    type Reply = OpReply;

    ghost Setup = { Configuration };

    ghost setup = { λ c. c.registry };

    ghost history = { λ c. c.history };

    ghost weighs = { weights.ask_weight };

    ghost most = { λ c. most_of c.lasting };

    ghost is_legal = { IsLegalHistory };

    fn step(
        &mut self,
        alloc: Global,
        at: Moment,
        fresh: [Word; 4],
        ask: OpAsk,
    ) -> Result<OpReply, CoreNo> {
        let weight = self.admit(&ask)?;
        let entry = self.journal.entry(at, fresh, ask);
        know_op_entry(&entry);
        let decision = self.decision(alloc, &entry)?;
        Ok(self.take_and_answer(alloc, entry, decision, weight)?)
    }

    fn weight(ask: &OpAsk) -> Result<u64, NoMemory> {
        ask.weight()
    }

    fn count(&self) -> u64 {
        self.journal.count()
    }

    ghost legal_is_light = { λ c h legal. legal.light };

    ghost most_is_short = { λ c. short_limit c.lasting };

    ghost beginnings_are_legal = { λ c. beginning_is_legal IsOpAsk (op_answer c) weights.ask_weight (most_of c.lasting) };

    ghost least_weight = { least_weight };
}
