// One step. All memory is reserved before the first change, and the step of the inner core is the last call that can fail.

ghost use Rattle.std.specs.Prelude.{◌≡◌, ℕ, ◌<◌, ◌≤◌, ◌+◌, ◌++◌, [], ◌∷◌, length, reverse, true, Some, None, Err, IfSome, IfOk, OnOk, OnErr};
ghost use Rattle.std.specs.Option.{option_copied};
ghost use Rattle.sso_base.specs.Legal.{last_moment, IsEntry};
ghost use Rattle.sso_base.specs.Rows.{put, live_rows};
ghost use Rattle.sso_base.specs.Weights.{empty_weight, told_weight};
ghost use Rattle.sso_base.specs.Journal.{history_weight, entry_of, extended};
ghost use Rattle.oidc_words.specs.Lives.{turn_life, code_life};
ghost use Rattle.held_rows.specs.Held.{MayAddRow};
ghost use Rattle.core_stack.specs.declared.kept.Kept.TheVariants as kept_as;
ghost use Rattle.core_stack.specs.Rows.{turn_mark_name, turn_mark_begun, code_mark_name, code_mark_begun};
ghost use Rattle.core_stack.specs.Marks as marks;
ghost use Rattle.pkce_answer.specs.Challenges as challenges;
ghost use Rattle.pkce_answer.specs.Around as around;
ghost use Rattle.pkce_answer.specs.Answering as spec;

use crate::finding::sent;
use crate::pkce_core::PkceCore;
use core_stack::{
    CodeMark, Kept, KeptJournal, Provides, TurnMark, code_made, ends_turn, is_wish, keep_codes,
    keep_turns, turn_begun, turn_ended, turn_named,
};
use held_rows::Held;
use op_exchange::OpReply;
use pkce_answer::{Challenge, PkceAsk, PkceParts, PkceReply, Verifier};
use sso_base::{Core, CoreNo, Entry, Moment, NoMemory, Pair, Word};
use std::alloc::Global;

// ---- weights

// The bytes of a verifier.
fn verifier_bytes(verifier: &Verifier) -> u64
    ensures { result ≡ told_weight (around.verifier_bytes verifier.now) }
{
    match verifier {
        Verifier::Given(text) => text.as_bytes().len() as u64,
        _ => 0,
    }
}

// The weight of a request, or the greatest number of 64 bits if the weight is greater.
fn weight_of<P: Provides>(ask: &PkceAsk<P::Ask>) -> Result<u64, NoMemory>
    ensures { IfOk result (λ n. n ≡ told_weight (around.outer_weight P.weighs ask.now)) }
{
    let inner = P::weight(&ask.inner)?;
    Ok(inner.saturating_add(verifier_bytes(&ask.verifier)))
}

// ---- the values of an entry

fn know_digest(digest: [u8; 43])
    ensures { length digest ≡ 43 }
{}

fn know_challenge(challenge: &Challenge)
    ensures { challenges.IsChallenge challenge.now }
{
    if let Challenge::S256(digest) = challenge {
        know_digest(*digest);
    }
}

/// The same entry, of which it is known that it holds values of its types. A lemma for the proofs.
pub(crate) fn known<P: Provides>(entry: Entry<PkceAsk<P::Ask>>) -> Entry<PkceAsk<P::Ask>>
    ensures same { result ≡ entry }
    ensures values { IsEntry (challenges.IsPkceAsk P.IsAsk) result }
{
    let Entry { at, fresh, ask } = entry;
    let PkceAsk {
        inner,
        challenge,
        verifier,
    } = ask;
    know_challenge(&challenge);
    let Entry {
        at,
        fresh,
        ask: inner,
    } = P::known(Entry {
        at,
        fresh,
        ask: inner,
    });
    Entry {
        at,
        fresh,
        ask: PkceAsk {
            inner,
            challenge,
            verifier,
        },
    }
}

// ---- memory

// An equal reply, and room for one more entry.
fn copied<A: Drop>(
    alloc: Global,
    kept: &mut KeptJournal<PkceParts, Pair<PkceAsk<A>, OpReply>>,
    reply: &OpReply,
) -> Result<OpReply, NoMemory>
    ensures kept { kept.new.kept ≡ kept.old.kept }
    ensures weight { kept.new.weight ≡ kept.old.weight }
    ensures last { kept.new.last ≡ kept.old.last }
    ensures most { kept.new.most ≡ kept.old.most }
    ensures told { IfOk result (λ told. told ≡ reply.now) }
    ensures room { OnOk result (length kept.new.kept < kept.new.capacity) }
{
    kept.reserve()?;
    reply.copy(alloc)
}

// Makes room for what an entry adds that is passed on.
fn reserve<A: Drop>(
    kept: &mut KeptJournal<PkceParts, Pair<PkceAsk<A>, OpReply>>,
    turns: &mut Held<TurnMark<Option<[u8; 43]>>>,
    codes: &mut Held<CodeMark<Option<[u8; 43]>>>,
) -> Result<(), NoMemory>
    ensures kept { kept.new.kept ≡ kept.old.kept }
    ensures weight { kept.new.weight ≡ kept.old.weight }
    ensures last { kept.new.last ≡ kept.old.last }
    ensures most { kept.new.most ≡ kept.old.most }
    ensures turns { turns.new.rows ≡ turns.old.rows }
    ensures codes { codes.new.rows ≡ codes.old.rows }
    ensures kept_room { OnOk result (length kept.new.kept < kept.new.capacity) }
    ensures turns_room { OnOk result (length turns.new.rows < turns.new.capacity) }
    ensures codes_room { OnOk result (length codes.new.rows < codes.new.capacity) }
{
    kept.reserve()?;
    turns.reserve()?;
    codes.reserve()
}

// ---- entries that are passed on

// What is known of an entry before the inner core's step.
#[derive(Clone, Copy)]
struct Pending {
    wish: bool,
    sent: Option<[u8; 43]>,
    answer: Option<[u8; 43]>,
    turn: Option<Word>,
}

// Reserves all memory, and then steps the inner core.
fn pass_on<P: Provides>(
    inner: &mut P,
    kept: &mut KeptJournal<PkceParts, Pair<PkceAsk<P::Ask>, OpReply>>,
    turns: &mut Held<TurnMark<Option<[u8; 43]>>>,
    codes: &mut Held<CodeMark<Option<[u8; 43]>>>,
    alloc: Global,
    at: Moment,
    fresh: [Word; 4],
    asked: P::Ask,
) -> Result<P::Reply, CoreNo>
    ensures history { IfOk result (λ reply. P.history inner.new ≡ extended (P.history inner.old) at fresh asked reply) }
    ensures legal { OnOk result (P.is_legal (P.setup inner.new) (P.history inner.new)) }
    ensures setup { P.setup inner.new ≡ P.setup inner.old }
    ensures kept { kept.new.kept ≡ kept.old.kept }
    ensures weight { kept.new.weight ≡ kept.old.weight }
    ensures last { kept.new.last ≡ kept.old.last }
    ensures most { kept.new.most ≡ kept.old.most }
    ensures turns { turns.new.rows ≡ turns.old.rows }
    ensures codes { codes.new.rows ≡ codes.old.rows }
    ensures kept_room { OnOk result (length kept.new.kept < kept.new.capacity) }
    ensures turns_room { OnOk result (length turns.new.rows < turns.new.capacity) }
    ensures codes_room { OnOk result (length codes.new.rows < codes.new.capacity) }
    ensures same { OnErr result (inner.new ≡ inner.old) }
    ensures full { (w : ℕ) → result ≡ Err (CoreNo.JournalFull w)
        → (w ≡ history_weight P.weighs (P.history inner.old)) × (P.most (P.setup inner.old) < w + P.weighs asked) }
{
    reserve(kept, turns, codes)?;
    inner.step(alloc, at, fresh, asked)
}

// What an entry changes that was passed on: the turn that it ends, the turn that it begins, and the code that it makes.
#[derive(Drop)]
struct Changes {
    ended: Option<Word>,
    begun: Option<TurnMark<Option<[u8; 43]>>>,
    made: Option<CodeMark<Option<[u8; 43]>>>,
}

fn changes_of(pending: Pending, given: Option<&OpReply>, at: Moment) -> Changes
    ensures ended { result.ended ≡ marks.turn_ended (option_copied given.entry) pending.turn }
    ensures begun { result.begun ≡ marks.turn_row (option_copied given.entry) pending.wish pending.sent at }
    ensures made { result.made ≡ marks.code_row (option_copied given.entry) pending.answer at }
{
    let ends = ends_turn(given);
    Changes {
        ended: turn_ended(ends, pending.turn),
        begun: turn_begun(given, pending.wish, pending.sent, at),
        made: code_made(given, pending.answer, at),
    }
}

// Keeps an entry that was passed on, with its changes. Room was reserved for it.
fn note<A: Drop>(
    kept: &mut KeptJournal<PkceParts, Pair<PkceAsk<A>, OpReply>>,
    turns: &mut Held<TurnMark<Option<[u8; 43]>>>,
    codes: &mut Held<CodeMark<Option<[u8; 43]>>>,
    at: Moment,
    parts: PkceParts,
    weight: u64,
    changes: Changes,
)
    requires kept_room { length kept.old.kept < kept.old.capacity }
    requires turns_room { length turns.old.rows < turns.old.capacity }
    requires codes_room { length codes.old.rows < codes.old.capacity }
    requires least { empty_weight ≤ weight }
    requires room { kept.old.weight + weight ≤ kept.old.most }
    requires turn { IfSome changes.begun (MayAddRow turn_mark_name turn_mark_begun true
        (marks.turns_left changes.ended (live_rows turn_life turn_mark_begun at turns.old.rows))) }
    requires code { IfSome changes.made (MayAddRow code_mark_name code_mark_begun true (live_rows code_life code_mark_begun at codes.old.rows)) }
    ensures kept { kept.new.kept ≡ kept.old.kept ++ kept_as.Passed parts ∷ [] }
    ensures weight { kept.new.weight ≡ kept.old.weight + weight }
    ensures last { kept.new.last ≡ at }
    ensures most { kept.new.most ≡ kept.old.most }
    ensures turns { turns.new.rows ≡ put turn_mark_name changes.begun
        (marks.turns_left changes.ended (live_rows turn_life turn_mark_begun at turns.old.rows)) }
    ensures codes { codes.new.rows ≡ put code_mark_name changes.made (live_rows code_life code_mark_begun at codes.old.rows) }
{
    let Changes { ended, begun, made } = changes;
    keep_turns(turns, at, ended, begun);
    keep_codes(codes, at, made);
    kept.push(Kept::Passed(parts), at, weight);
}

impl<P: Provides> PkceCore<P> {
    // The weight of a request if the history has room for it.
    fn admit(&self, ask: &PkceAsk<P::Ask>) -> Result<u64, CoreNo>
        ensures weight { IfOk result (λ weight. weight ≡ around.outer_weight P.weighs ask.now) }
        ensures room { OnOk result
            (history_weight (around.outer_weight P.weighs) self.now.history + around.outer_weight P.weighs ask.now ≤ P.most (P.setup self.now.inner)) }
        ensures full { (w : ℕ) → result ≡ Err (CoreNo.JournalFull w) → (w ≡ history_weight (around.outer_weight P.weighs) self.now.history)
            × (P.most (P.setup self.now.inner) < w + around.outer_weight P.weighs ask.now) }
        ensures legal { spec.IsLegalPkce P.plain_ask P.given_reply P.IsAsk P.weighs P.most P.is_legal (P.setup self.now.inner) self.now.history }
    {
        // the invariant becomes known by reading a field
        let _count = self.kept.count();
        let weight = weight_of::<P>(ask)?;
        self.kept.room_for(weight)?;
        Ok(weight)
    }

    // The entry of a request at this moment, or at the last entry's moment if that is later.
    fn entry(&self, at: Moment, fresh: [Word; 4], ask: PkceAsk<P::Ask>) -> Entry<PkceAsk<P::Ask>>
        ensures entry { result ≡ entry_of self.now.history at fresh ask }
        ensures order { last_moment (reverse self.now.history) ≤ result.at }
        ensures values { IsEntry (challenges.IsPkceAsk P.IsAsk) result }
    {
        let at = self.kept.moment_after(at);
        known::<P>(Entry { at, fresh, ask })
    }

    fn pending(&self, at: Moment, ask: &PkceAsk<P::Ask>) -> Pending
        requires { last_moment (reverse self.now.history) ≤ at }
        ensures wish { result.wish ≡ marks.is_wish (P.plain_ask ask.now.inner) }
        ensures sent { result.sent ≡ challenges.asked_mark ask.now }
        ensures answer { result.answer ≡ marks.answer_mark (around.outer_plain P.plain_ask) (around.outer_given P.given_reply) challenges.asked_mark None
            (reverse self.now.history) at (challenges.asked_mark ask.now) (P.plain_ask ask.now.inner) }
        ensures turn { result.turn ≡ marks.named_in (P.plain_ask ask.now.inner) }
    {
        Pending {
            wish: is_wish(P::plain(&ask.inner)),
            sent: sent(&ask.challenge),
            answer: self.answer_challenge(at, ask),
            turn: turn_named(P::plain(&ask.inner)),
        }
    }

    // Refuses a request without the inner core.
    fn answer_own(
        &mut self,
        alloc: Global,
        entry: Entry<PkceAsk<P::Ask>>,
        reply: OpReply,
        weight: u64,
    ) -> Result<PkceReply<P::Reply>, NoMemory>
        requires refused { spec.pkce_answer P.plain_ask P.given_reply (reverse self.old.history) entry.at entry.ask ≡ Some reply }
        requires order { last_moment (reverse self.old.history) ≤ entry.at }
        requires values { IsEntry (challenges.IsPkceAsk P.IsAsk) entry }
        requires weight { weight ≡ around.outer_weight P.weighs entry.ask }
        requires room { history_weight (around.outer_weight P.weighs) self.old.history + weight ≤ P.most (P.setup self.old.inner) }
        ensures told { IfOk result (λ r. r ≡ PkceReply.Own reply) }
        ensures history { OnOk result (self.new.history ≡ self.old.history ++ around.own_pair (record { entry = entry; reply = reply }) ∷ []) }
        ensures inner { OnOk result (self.new.inner ≡ self.old.inner) }
        ensures err { OnErr result (self.new ≡ self.old) }
        ensures legal { spec.IsLegalPkce P.plain_ask P.given_reply P.IsAsk P.weighs P.most P.is_legal (P.setup self.new.inner) self.new.history }
    {
        let told = match copied(alloc, &mut self.kept, &reply) {
            Ok(told) => told,
            Err(no) => {
                // dropped by calls: at an early return of this function the prover would walk through all of their parts
                drop(entry);
                drop(reply);
                return Err(no);
            }
        };
        let at = entry.at;
        let own = Pair { entry, reply };
        self.kept.push(Kept::Own(own), at, weight);
        Ok(PkceReply::Own(told))
    }

    // Passes a request on that is not refused.
    fn pass(
        &mut self,
        alloc: Global,
        entry: Entry<PkceAsk<P::Ask>>,
        weight: u64,
    ) -> Result<PkceReply<P::Reply>, CoreNo>
        requires passes { spec.pkce_answer P.plain_ask P.given_reply (reverse self.old.history) entry.at entry.ask ≡ None }
        requires order { last_moment (reverse self.old.history) ≤ entry.at }
        requires values { IsEntry (challenges.IsPkceAsk P.IsAsk) entry }
        requires weight { weight ≡ around.outer_weight P.weighs entry.ask }
        requires room { history_weight (around.outer_weight P.weighs) self.old.history + weight ≤ P.most (P.setup self.old.inner) }
        ensures history { IfOk result (λ r. self.new.history ≡ self.old.history ++ (record { entry = entry; reply = r }) ∷ []) }
        ensures setup { P.setup self.new.inner ≡ P.setup self.old.inner }
        ensures err { OnErr result (self.new ≡ self.old) }
        ensures room { (w : ℕ) → result ≡ Err (CoreNo.JournalFull w) → ⊥ }
        ensures legal { spec.IsLegalPkce P.plain_ask P.given_reply P.IsAsk P.weighs P.most P.is_legal (P.setup self.new.inner) self.new.history }
    {
        let pending = self.pending(entry.at, &entry.ask);
        let Entry { at, fresh, ask } = entry;
        let PkceAsk {
            inner: asked,
            challenge,
            verifier,
        } = ask;
        let reply = match pass_on(
            &mut self.inner,
            &mut self.kept,
            &mut self.turns,
            &mut self.codes,
            alloc,
            at,
            fresh,
            asked,
        ) {
            Ok(reply) => reply,
            Err(no) => {
                drop(verifier);
                return Err(no);
            }
        };
        let parts = PkceParts {
            challenge,
            verifier,
        };
        let changes = changes_of(pending, P::given(&reply), at);
        note(
            &mut self.kept,
            &mut self.turns,
            &mut self.codes,
            at,
            parts,
            weight,
            changes,
        );
        Ok(PkceReply::Through(reply))
    }
}

impl<P: Provides> Core for PkceCore<P> {
    ghost use Rattle.core_stack.proofs.Passing.{beginning_is_legal};
    ghost use Rattle.pkce_answer.proofs.Refusing.{least_outer};

    type Ask = PkceAsk<P::Ask>;

    type Reply = PkceReply<P::Reply>;

    ghost Setup = { P.Setup };

    ghost setup = { λ c. P.setup c.inner };

    ghost history = { λ c. c.history };

    ghost weighs = { around.outer_weight P.weighs };

    ghost most = { P.most };

    ghost is_legal = { spec.IsLegalPkce P.plain_ask P.given_reply P.IsAsk P.weighs P.most P.is_legal };

    fn step(
        &mut self,
        alloc: Global,
        at: Moment,
        fresh: [Word; 4],
        ask: PkceAsk<P::Ask>,
    ) -> Result<PkceReply<P::Reply>, CoreNo> {
        let weight = self.admit(&ask)?;
        let entry = self.entry(at, fresh, ask);
        match self.refusal(alloc, entry.at, &entry.ask)? {
            Some(reply) => Ok(self.answer_own(alloc, entry, reply, weight)?),
            None => self.pass(alloc, entry, weight),
        }
    }

    fn weight(ask: &PkceAsk<P::Ask>) -> Result<u64, NoMemory> {
        weight_of::<P>(ask)
    }

    fn count(&self) -> u64 {
        self.kept.count()
    }

    ghost legal_is_light = { λ s h legal. legal.light };

    ghost most_is_short = { P.most_is_short };

    ghost beginnings_are_legal = { beginning_is_legal (challenges.IsPkceAsk P.IsAsk) (spec.IsPkceReply P.plain_ask P.given_reply) around.passed
        (around.outer_weight P.weighs) P.most P.is_legal P.beginnings_are_legal };

    ghost least_weight = { least_outer P.weighs P.least_weight };
}
