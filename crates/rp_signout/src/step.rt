// One step. All memory is reserved before the first change, and the step of the inner core is the last call that can fail.

ghost use Rattle.std.specs.Prelude.{◌≡◌, ℕ, ◌<◌, ◌≤◌, ◌+◌, ◌++◌, [], ◌∷◌, length, reverse, true, Err, IfOk, OnOk, OnErr};
ghost use Rattle.sso_base.specs.Legal.{last_moment, IsEntry};
ghost use Rattle.sso_base.specs.Weights.{told_weight};
ghost use Rattle.sso_base.specs.Journal.{history_weight, entry_of};
ghost use Rattle.signout_answer.specs.declared.parts.Doing.TheVariants as does;
ghost use Rattle.signout_answer.specs.Around as around;
ghost use Rattle.signout_answer.specs.Answering as spec;
ghost use Rattle.rp_signout.specs.Keeps as keeping;

use crate::decision::Decision;
use crate::signout_core::SignoutCore;
use crate::table::keep_questions;
use core_stack::{Kept, KeptJournal, Provides};
use held_rows::Held;
use signout_answer::{EndAsk, EndParts, EndReply, OwnReply, QuestionRow};
use sso_base::{
    Blob, Core, CoreNo, EMPTY_WEIGHT, Entry, Moment, NoMemory, Pair, Text, Word, copied_text,
    know_entry, know_word_if,
};
use std::alloc::Global;

// ---- weights

// The weight of a form.
fn form_weight(form: &Blob) -> u64
    ensures { result ≡ told_weight (around.form_weight form.now) }
{
    (form.as_bytes().len() as u64).saturating_add(EMPTY_WEIGHT)
}

// The weight of a request, or the greatest number of 64 bits if the weight is greater.
fn weight_of<P: Provides>(ask: &EndAsk<P::Ask>) -> Result<u64, NoMemory>
    ensures { IfOk result (λ n. n ≡ told_weight (around.end_weight P.weighs ask.now)) }
{
    match ask {
        EndAsk::Through(inner) => P::weight(inner),
        EndAsk::Start { form, .. } => Ok(form_weight(form)),
        EndAsk::Confirm { inner, .. } => P::weight(inner),
    }
}

// ---- the values of an entry

fn known_through<P: Provides>(at: Moment, fresh: [Word; 4], inner: P::Ask) -> Entry<EndAsk<P::Ask>>
    ensures same { result ≡ record { at = at; fresh = fresh; ask = EndAsk.Through inner } }
    ensures values { IsEntry (around.IsEndAsk P.IsAsk) result }
{
    let Entry {
        at,
        fresh,
        ask: inner,
    } = P::known(Entry {
        at,
        fresh,
        ask: inner,
    });
    Entry {
        at,
        fresh,
        ask: EndAsk::Through(inner),
    }
}

fn known_start<P: Provides>(
    at: Moment,
    fresh: [Word; 4],
    form: Blob,
    session: Option<Word>,
) -> Entry<EndAsk<P::Ask>>
    ensures same { result ≡ record { at = at; fresh = fresh; ask = EndAsk.Start form session } }
    ensures values { IsEntry (around.IsEndAsk P.IsAsk) result }
{
    know_word_if(&session);
    let entry = Entry {
        at,
        fresh,
        ask: EndAsk::Start { form, session },
    };
    know_entry(&entry);
    entry
}

fn known_confirm<P: Provides>(
    at: Moment,
    fresh: [Word; 4],
    word: Option<Word>,
    agree: bool,
    session: Option<Word>,
    inner: P::Ask,
) -> Entry<EndAsk<P::Ask>>
    ensures same { result ≡ record { at = at; fresh = fresh; ask = EndAsk.Confirm word agree session inner } }
    ensures values { IsEntry (around.IsEndAsk P.IsAsk) result }
{
    know_word_if(&word);
    know_word_if(&session);
    let Entry {
        at,
        fresh,
        ask: inner,
    } = P::known(Entry {
        at,
        fresh,
        ask: inner,
    });
    Entry {
        at,
        fresh,
        ask: EndAsk::Confirm {
            word,
            agree,
            session,
            inner,
        },
    }
}

/// The same entry, of which it is known that it holds values of its types. A lemma for the proofs.
pub(crate) fn known<P: Provides>(entry: Entry<EndAsk<P::Ask>>) -> Entry<EndAsk<P::Ask>>
    ensures same { result ≡ entry }
    ensures values { IsEntry (around.IsEndAsk P.IsAsk) result }
{
    let Entry { at, fresh, ask } = entry;
    match ask {
        EndAsk::Through(inner) => known_through::<P>(at, fresh, inner),
        EndAsk::Start { form, session } => known_start::<P>(at, fresh, form, session),
        EndAsk::Confirm {
            word,
            agree,
            session,
            inner,
        } => known_confirm::<P>(at, fresh, word, agree, session, inner),
    }
}

// ---- an entry that is answered without the inner core

// The reply.
fn told<R: Drop>(alloc: Global, own: &OwnReply) -> Result<EndReply<R>, NoMemory>
    ensures { IfOk result (λ r. r ≡ around.own_reply own.now) }
{
    Ok(match own {
        OwnReply::Sure(word) => EndReply::Sure { word: *word },
        OwnReply::Wrong(why) => EndReply::Wrong {
            why: why.copy(alloc)?,
        },
        OwnReply::Kept => EndReply::Kept,
        OwnReply::Stale => EndReply::Stale,
        OwnReply::Full => EndReply::Full,
    })
}

// Makes room for what an entry adds.
fn reserve<A: Drop>(
    kept: &mut KeptJournal<EndParts, Pair<EndAsk<A>, OwnReply>>,
    questions: &mut Held<QuestionRow>,
) -> Result<(), NoMemory>
    ensures kept { kept.new.kept ≡ kept.old.kept }
    ensures weight { kept.new.weight ≡ kept.old.weight }
    ensures last { kept.new.last ≡ kept.old.last }
    ensures most { kept.new.most ≡ kept.old.most }
    ensures questions { questions.new.rows ≡ questions.old.rows }
    ensures kept_room { OnOk result (length kept.new.kept < kept.new.capacity) }
    ensures questions_room { OnOk result (length questions.new.rows < questions.new.capacity) }
{
    kept.reserve()?;
    questions.reserve()
}

// The reply, and room for what the entry adds.
fn prepared<A: Drop, R: Drop>(
    alloc: Global,
    kept: &mut KeptJournal<EndParts, Pair<EndAsk<A>, OwnReply>>,
    questions: &mut Held<QuestionRow>,
    own: &OwnReply,
) -> Result<EndReply<R>, NoMemory>
    ensures kept { kept.new.kept ≡ kept.old.kept }
    ensures weight { kept.new.weight ≡ kept.old.weight }
    ensures last { kept.new.last ≡ kept.old.last }
    ensures most { kept.new.most ≡ kept.old.most }
    ensures questions { questions.new.rows ≡ questions.old.rows }
    ensures kept_room { OnOk result (length kept.new.kept < kept.new.capacity) }
    ensures questions_room { OnOk result (length questions.new.rows < questions.new.capacity) }
    ensures told { IfOk result (λ r. r ≡ around.own_reply own.now) }
{
    reserve(kept, questions)?;
    told(alloc, own)
}

// The question that ends.
fn own_ended<A: Drop>(ask: &EndAsk<A>, own: &OwnReply) -> Option<Word>
    ensures { result ≡ keeping.own_ended ask.now own.now }
{
    match (ask, own) {
        (EndAsk::Confirm { word, .. }, OwnReply::Kept) => *word,
        _ => None,
    }
}

// ---- an entry that is passed on

// A request in its parts.
#[derive(Drop)]
struct Parted<A: Drop> {
    inner: A,
    parts: EndParts,
}

// The request of the inner core, and the parts that it does not have, with the location where the browser goes after a sign-out.
fn split<A: Drop>(ask: EndAsk<A>, back: Option<Text>) -> Parted<A>
    requires { keeping.is_passable ask ≡ true }
    ensures ask { ask ≡ around.ask_around result.parts result.inner }
    ensures doing { keeping.passing back ask ≡ keeping.parts_doing result.parts }
{
    match ask {
        EndAsk::Through(inner) => Parted {
            inner,
            parts: EndParts::Through,
        },
        EndAsk::Start { .. } => unreachable!(),
        EndAsk::Confirm {
            word,
            agree,
            session,
            inner,
        } => Parted {
            inner,
            parts: EndParts::Gone {
                word,
                agree,
                session,
                back,
            },
        },
    }
}

// The question that ends.
fn parts_ended(parts: &EndParts) -> Option<Word>
    ensures { result ≡ keeping.parts_ended parts.now }
{
    match parts {
        EndParts::Through => None,
        EndParts::Gone { word, .. } => *word,
    }
}

// A copy of the location.
fn parts_back(alloc: Global, parts: &EndParts) -> Result<Option<Text>, NoMemory>
    ensures { IfOk result (λ b. b ≡ keeping.parts_back parts.now) }
{
    match parts {
        EndParts::Through => Ok(None),
        EndParts::Gone { back, .. } => copied_text(alloc, back),
    }
}

// The reply around that of the inner core.
fn reply_around<R: Drop>(parts: &EndParts, back: Option<Text>, inner: R) -> EndReply<R>
    requires { back ≡ keeping.parts_back parts.now }
    ensures { result ≡ around.reply_around parts.now inner }
{
    match parts {
        EndParts::Through => EndReply::Through(inner),
        EndParts::Gone { .. } => EndReply::Gone { back, inner },
    }
}

// Reserves all memory, and then steps the inner core.
fn pass_on<P: Provides>(
    inner: &mut P,
    kept: &mut KeptJournal<EndParts, Pair<EndAsk<P::Ask>, OwnReply>>,
    questions: &mut Held<QuestionRow>,
    alloc: Global,
    at: Moment,
    fresh: [Word; 4],
    asked: P::Ask,
    parts: &EndParts,
) -> Result<EndReply<P::Reply>, CoreNo>
    ensures history { IfOk result (λ told. keeping.IsPassed parts.now told (P.history inner.old) (P.history inner.new) at fresh asked) }
    ensures legal { OnOk result (P.is_legal (P.setup inner.new) (P.history inner.new)) }
    ensures setup { P.setup inner.new ≡ P.setup inner.old }
    ensures kept { kept.new.kept ≡ kept.old.kept }
    ensures weight { kept.new.weight ≡ kept.old.weight }
    ensures last { kept.new.last ≡ kept.old.last }
    ensures most { kept.new.most ≡ kept.old.most }
    ensures questions { questions.new.rows ≡ questions.old.rows }
    ensures kept_room { OnOk result (length kept.new.kept < kept.new.capacity) }
    ensures questions_room { OnOk result (length questions.new.rows < questions.new.capacity) }
    ensures same { OnErr result (inner.new ≡ inner.old) }
    ensures full { (w : ℕ) → result ≡ Err (CoreNo.JournalFull w)
        → (w ≡ history_weight P.weighs (P.history inner.old)) × (P.most (P.setup inner.old) < w + P.weighs asked) }
{
    reserve(kept, questions)?;
    let back = parts_back(alloc, parts)?;
    let reply = inner.step(alloc, at, fresh, asked)?;
    Ok(reply_around(parts, back, reply))
}

impl<P: Provides> SignoutCore<P> {
    // The weight of a request if the history has room for it.
    fn admit(&self, ask: &EndAsk<P::Ask>) -> Result<u64, CoreNo>
        ensures weight { IfOk result (λ weight. weight ≡ around.end_weight P.weighs ask.now) }
        ensures room { OnOk result
            (history_weight (around.end_weight P.weighs) self.now.history + around.end_weight P.weighs ask.now ≤ P.most (P.setup self.now.inner)) }
        ensures full { (w : ℕ) → result ≡ Err (CoreNo.JournalFull w) → (w ≡ history_weight (around.end_weight P.weighs) self.now.history)
            × (P.most (P.setup self.now.inner) < w + around.end_weight P.weighs ask.now) }
        ensures legal { spec.IsLegalSignout P.plain_ask P.IsAsk P.weighs P.most P.is_legal
            (record { own = self.now.setup; inner = P.setup self.now.inner }) self.now.history }
    {
        // the invariant becomes known by reading a field
        let _count = self.kept.count();
        let weight = weight_of::<P>(ask)?;
        self.kept.room_for(weight)?;
        Ok(weight)
    }

    // The entry of a request at this moment, or at the last entry's moment if that is later.
    fn entry(&self, at: Moment, fresh: [Word; 4], ask: EndAsk<P::Ask>) -> Entry<EndAsk<P::Ask>>
        ensures entry { result ≡ entry_of self.now.history at fresh ask }
        ensures order { last_moment (reverse self.now.history) ≤ result.at }
        ensures values { IsEntry (around.IsEndAsk P.IsAsk) result }
    {
        let at = self.kept.moment_after(at);
        known::<P>(Entry { at, fresh, ask })
    }

    // Answers a request without the inner core, with the question that this makes.
    fn answer_own(
        &mut self,
        alloc: Global,
        entry: Entry<EndAsk<P::Ask>>,
        own: OwnReply,
        made: Option<QuestionRow>,
        weight: u64,
    ) -> Result<EndReply<P::Reply>, NoMemory>
        requires done { spec.doing self.old.setup P.plain_ask (reverse self.old.history) entry.at entry.fresh entry.ask ≡ does.Own own }
        requires made { made ≡ keeping.own_made self.old.setup entry.ask own entry.at }
        requires order { last_moment (reverse self.old.history) ≤ entry.at }
        requires values { IsEntry (around.IsEndAsk P.IsAsk) entry }
        requires weight { weight ≡ around.end_weight P.weighs entry.ask }
        requires room { history_weight (around.end_weight P.weighs) self.old.history + weight ≤ P.most (P.setup self.old.inner) }
        ensures told { IfOk result (λ r. r ≡ around.own_reply own) }
        ensures history { OnOk result (self.new.history ≡ self.old.history ++ around.own_pair (record { entry = entry; reply = own }) ∷ []) }
        ensures inner { OnOk result (self.new.inner ≡ self.old.inner) }
        ensures setup { self.new.setup ≡ self.old.setup }
        ensures err { OnErr result (self.new ≡ self.old) }
        ensures legal { spec.IsLegalSignout P.plain_ask P.IsAsk P.weighs P.most P.is_legal
            (record { own = self.new.setup; inner = P.setup self.new.inner }) self.new.history }
    {
        let told = match prepared(alloc, &mut self.kept, &mut self.questions, &own) {
            Ok(told) => told,
            Err(no) => {
                // dropped by calls: at an early return of this function the prover would walk through all of their parts
                drop(entry);
                drop(own);
                drop(made);
                return Err(no);
            }
        };
        let at = entry.at;
        let ended = own_ended(&entry.ask, &own);
        keep_questions(&mut self.questions, at, ended, made);
        let own = Pair { entry, reply: own };
        self.kept.push(Kept::Own(own), at, weight);
        Ok(told)
    }

    // Passes a request on, and after a sign-out sends the browser to this location, if there is one.
    fn pass(
        &mut self,
        alloc: Global,
        entry: Entry<EndAsk<P::Ask>>,
        back: Option<Text>,
        weight: u64,
    ) -> Result<EndReply<P::Reply>, CoreNo>
        requires done { spec.doing self.old.setup P.plain_ask (reverse self.old.history) entry.at entry.fresh entry.ask ≡ keeping.passing back entry.ask }
        requires passable { keeping.is_passable entry.ask ≡ true }
        requires order { last_moment (reverse self.old.history) ≤ entry.at }
        requires values { IsEntry (around.IsEndAsk P.IsAsk) entry }
        requires weight { weight ≡ around.end_weight P.weighs entry.ask }
        requires room { history_weight (around.end_weight P.weighs) self.old.history + weight ≤ P.most (P.setup self.old.inner) }
        ensures history { IfOk result (λ r. self.new.history ≡ self.old.history ++ (record { entry = entry; reply = r }) ∷ []) }
        ensures inner { P.setup self.new.inner ≡ P.setup self.old.inner }
        ensures setup { self.new.setup ≡ self.old.setup }
        ensures err { OnErr result (self.new ≡ self.old) }
        ensures room { (w : ℕ) → result ≡ Err (CoreNo.JournalFull w) → ⊥ }
        ensures legal { spec.IsLegalSignout P.plain_ask P.IsAsk P.weighs P.most P.is_legal
            (record { own = self.new.setup; inner = P.setup self.new.inner }) self.new.history }
    {
        let Entry { at, fresh, ask } = entry;
        let split = split(ask, back);
        let Parted {
            inner: asked,
            parts,
        } = split;
        let told = match pass_on(
            &mut self.inner,
            &mut self.kept,
            &mut self.questions,
            alloc,
            at,
            fresh,
            asked,
            &parts,
        ) {
            Ok(told) => told,
            Err(no) => {
                drop(parts);
                return Err(no);
            }
        };
        let ended = parts_ended(&parts);
        keep_questions(&mut self.questions, at, ended, None);
        self.kept.push(Kept::Passed(parts), at, weight);
        Ok(told)
    }
}

impl<P: Provides> Core for SignoutCore<P> {
    ghost use Rattle.core_stack.proofs.Passing.{beginning_is_legal};
    ghost use Rattle.signout_answer.specs.Answering.{SignoutSetup};
    ghost use Rattle.signout_answer.proofs.Inside.{least_outer};

    type Ask = EndAsk<P::Ask>;

    type Reply = EndReply<P::Reply>;

    ghost Setup = { SignoutSetup P.Setup };

    ghost setup = { λ c. record { own = c.setup; inner = P.setup c.inner } };

    ghost history = { λ c. c.history };

    ghost weighs = { around.end_weight P.weighs };

    ghost most = { λ s. P.most s.inner };

    ghost is_legal = { spec.IsLegalSignout P.plain_ask P.IsAsk P.weighs P.most P.is_legal };

    fn step(
        &mut self,
        alloc: Global,
        at: Moment,
        fresh: [Word; 4],
        ask: EndAsk<P::Ask>,
    ) -> Result<EndReply<P::Reply>, CoreNo> {
        let weight = self.admit(&ask)?;
        let entry = self.entry(at, fresh, ask);
        match self.decide(alloc, &entry)? {
            Decision::Own(answer) => {
                Ok(self.answer_own(alloc, entry, answer.own, answer.made, weight)?)
            }
            Decision::Pass(back) => self.pass(alloc, entry, back, weight),
        }
    }

    fn weight(ask: &EndAsk<P::Ask>) -> Result<u64, NoMemory> {
        weight_of::<P>(ask)
    }

    fn count(&self) -> u64 {
        self.kept.count()
    }

    ghost legal_is_light = { λ s h legal. legal.light };

    ghost most_is_short = { λ s. P.most_is_short s.inner };

    ghost beginnings_are_legal = { λ s. beginning_is_legal (around.IsEndAsk P.IsAsk) (spec.IsEndReply s.own P.plain_ask) around.passed
        (around.end_weight P.weighs) (λ t. P.most t.inner) (λ t. P.is_legal t.inner) (λ t. P.beginnings_are_legal t.inner) s };

    ghost least_weight = { least_outer P.weighs P.least_weight };
}
