// One step of a relying party: it decides the reply, makes the rows, reserves all memory, and only then changes anything.

ghost use Rattle.std.specs.Prelude.{◌≡◌, ◌<◌, ◌≤◌, ◌+◌, ◌++◌, true, [], ◌∷◌, length, IfOk, OnOk, OnErr};
ghost use Rattle.rp_login.specs.Tables.{with_room};
ghost use Rattle.sso_base.specs.Legal.{last_moment, IsEntry};
ghost use Rattle.sso_base.specs.Journal.{history_weight, most_of, ReportsFull};
ghost use Rattle.rp_exchange.specs.Values.{IsRpAsk};
ghost use Rattle.rp_exchange.specs.Weight as weights;
ghost use Rattle.rp_answer.specs.Answering.{rp_answer};
ghost use Rattle.rp_answer.specs.Setup.{PartySetup, party_of};
ghost use Rattle.rp_core.specs.Keeping.{MayUpdateTables, UpdatesTables};
ghost use Rattle.rp_core.specs.Making.{AreMade};
ghost use Rattle.rp_core.specs.Relying.{past_of};

use crate::keeping::update_tables;
use crate::making::Made;
use crate::state::RpCore;
use rp_exchange::{RpAsk, RpReply, know_rp_entry};
use rp_login::Logins;
use sso_base::{Core, CoreNo, Entry, Journal, Moment, NoMemory, Pair, Weighed, Word};
use std::alloc::Global;

// Makes room in the history for one more pair, and in each table for one more row.
fn reserve(journal: &mut Journal<RpAsk, RpReply>, logins: &mut Logins) -> Result<(), NoMemory>
    ensures pairs { journal.new.pairs ≡ journal.old.pairs }
    ensures most { journal.new.most ≡ journal.old.most }
    ensures room { OnOk result (length journal.new.pairs < journal.new.capacity) }
    ensures tables { OnOk result (logins.new ≡ with_room logins.old) }
    ensures same { OnErr result (logins.new ≡ logins.old) }
{
    journal.reserve()?;
    logins.reserve()
}

// Adds an entry and its reply to the history and updates the tables. Room was reserved for it.
fn put(
    journal: &mut Journal<RpAsk, RpReply>,
    logins: &mut Logins,
    entry: Entry<RpAsk>,
    reply: RpReply,
    made: Made,
    weight: u64,
)
    requires reserved { length journal.old.pairs < journal.old.capacity }
    requires may { MayUpdateTables logins.old (record { entry = entry; reply = reply }) made }
    requires tables { logins.old.reserved ≡ record { logins = true; pendings = true; visits = true; seens = true; deads = true } }
    requires weight { weight ≡ weights.ask_weight entry.ask }
    requires room { history_weight weights.ask_weight journal.old.pairs + weight ≤ journal.old.most }
    ensures pairs { journal.new.pairs ≡ journal.old.pairs ++ (record { entry = entry; reply = reply }) ∷ [] }
    ensures most { journal.new.most ≡ journal.old.most }
    ensures tables { UpdatesTables logins.old logins.new (record { entry = entry; reply = reply }) made }
{
    let pair = Pair { entry, reply };
    update_tables(logins, &pair, made);
    journal.push(pair, weight);
}

// Adds an entry and its reply to the history and updates the tables. All memory is reserved before the first change.
fn take_in(
    journal: &mut Journal<RpAsk, RpReply>,
    logins: &mut Logins,
    entry: Entry<RpAsk>,
    reply: RpReply,
    made: Made,
    weight: u64,
) -> Result<(), NoMemory>
    requires may { MayUpdateTables (with_room logins.old) (record { entry = entry; reply = reply }) made }
    requires weight { weight ≡ weights.ask_weight entry.ask }
    requires room { history_weight weights.ask_weight journal.old.pairs + weight ≤ journal.old.most }
    ensures pairs { OnOk result (journal.new.pairs ≡ journal.old.pairs ++ (record { entry = entry; reply = reply }) ∷ []) }
    ensures most { journal.new.most ≡ journal.old.most }
    ensures tables { OnOk result (UpdatesTables (with_room logins.old) logins.new (record { entry = entry; reply = reply }) made) }
    ensures same_pairs { OnErr result (journal.new.pairs ≡ journal.old.pairs) }
    ensures same_tables { OnErr result (logins.new ≡ logins.old) }
{
    match reserve(journal, logins) {
        Ok(()) => {
            put(journal, logins, entry, reply, made, weight);
            Ok(())
        }
        Err(no) => {
            // dropped by calls: at an early return of this function the prover would walk through all of their parts
            drop(entry);
            drop(reply);
            drop(made);
            Err(no)
        }
    }
}

impl RpCore {
    // The weight of a request, which fits into the history; otherwise the error holds the history's weight.
    fn admit(&self, ask: &RpAsk) -> Result<u64, CoreNo>
        ensures weight { IfOk result (λ weight. weight ≡ weights.ask_weight ask.now) }
        ensures room { OnOk result (history_weight weights.ask_weight self.now.history + weights.ask_weight ask.now
            ≤ most_of self.now.setup.configuration.lasting) }
        ensures full { ReportsFull (most_of self.now.setup.configuration.lasting) result
            (history_weight weights.ask_weight self.now.history) (weights.ask_weight ask.now) }
    {
        self.journal.admit(ask)
    }

    // Adds an entry with its reply and its rows.
    fn commit(
        &mut self,
        entry: Entry<RpAsk>,
        reply: RpReply,
        made: Made,
        weight: u64,
    ) -> Result<(), NoMemory>
        requires moment { last_moment (past_of self.old) ≤ entry.at }
        requires answer { reply ≡ rp_answer self.old.setup (past_of self.old) entry }
        requires entry { IsEntry IsRpAsk entry }
        requires rows { AreMade (party_of self.old.setup).types (past_of self.old) (record { entry = entry; reply = reply }) made }
        requires weight { weight ≡ weights.ask_weight entry.ask }
        requires room { history_weight weights.ask_weight self.old.history + weight ≤ most_of self.old.setup.configuration.lasting }
        ensures setup { OnOk result (self.new.setup ≡ self.old.setup) }
        ensures history { OnOk result (self.new.history ≡ self.old.history ++ (record { entry = entry; reply = reply }) ∷ []) }
        ensures err { OnErr result (self.new ≡ self.old) }
    {
        take_in(
            &mut self.journal,
            &mut self.logins,
            entry,
            reply,
            made,
            weight,
        )?;
        Ok(())
    }
}

impl Core for RpCore {
    ghost use Rattle.sso_base.proofs.Histories.{beginning_is_legal};
    ghost use Rattle.sso_base.proofs.Limits.{most_is_short as short_limit};
    ghost use Rattle.rp_exchange.specs.Values.{IsRpAsk};
    ghost use Rattle.rp_exchange.proofs.LeastWeight.{least_weight};
    ghost use Rattle.rp_answer.specs.Setup.{PartySetup};
    ghost use Rattle.rp_answer.specs.Answering.{rp_answer};
    ghost use Rattle.rp_answer.specs.Legal.{IsLegalHistory};

    type Ask = RpAsk;

    type Reply = RpReply;

    ghost Setup = { PartySetup };

    ghost setup = { λ c. c.setup };

    ghost history = { λ c. c.history };

    ghost weighs = { weights.ask_weight };

    ghost most = { λ s. most_of s.configuration.lasting };

    ghost is_legal = { IsLegalHistory };

    fn step(
        &mut self,
        alloc: Global,
        at: Moment,
        fresh: [Word; 4],
        ask: RpAsk,
    ) -> Result<RpReply, CoreNo> {
        let weight = self.admit(&ask)?;
        let entry = self.journal.entry(at, fresh, ask);
        know_rp_entry(&entry);
        let reply = self.answer(alloc, &entry)?;
        let made = self.made(alloc, &entry, &reply)?;
        let told = reply.copy(alloc)?;
        self.commit(entry, reply, made, weight)?;
        Ok(told)
    }

    fn weight(ask: &RpAsk) -> Result<u64, NoMemory> {
        ask.weight()
    }

    fn count(&self) -> u64 {
        self.journal.count()
    }

    ghost legal_is_light = { λ s h legal. legal.light };

    ghost most_is_short = { λ s. short_limit s.configuration.lasting };

    ghost beginnings_are_legal = { λ s. beginning_is_legal IsRpAsk (rp_answer s) weights.ask_weight (most_of s.configuration.lasting) };

    ghost least_weight = { least_weight };
}
