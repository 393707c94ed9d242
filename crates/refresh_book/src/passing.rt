// Entries that are passed on. All memory is reserved before the first change, and the step of the inner core is the last call that can
// fail.

ghost use Rattle.std.specs.Prelude.{◌≡◌, ℕ, ◌<◌, ◌≤◌, ◌+◌, ◌++◌, [], ◌∷◌, length, reverse, true, Some, None, Err, IfSome, IfOk, OnOk, OnErr};
ghost use Rattle.std.specs.Option.{option_copied};
ghost use Rattle.sso_base.specs.Legal.{last_moment, IsEntry};
ghost use Rattle.sso_base.specs.Rows.{put, live_rows};
ghost use Rattle.sso_base.specs.Weights.{empty_weight};
ghost use Rattle.sso_base.specs.Journal.{history_weight, extended};
ghost use Rattle.oidc_words.specs.Lives.{turn_life, code_life};
ghost use Rattle.held_rows.specs.Held.{MayAddRow};
ghost use Rattle.core_stack.specs.declared.kept.Kept.TheVariants as kept_as;
ghost use Rattle.core_stack.specs.Rows.{turn_mark_name, turn_mark_begun, code_mark_name, code_mark_begun};
ghost use Rattle.core_stack.specs.Marks as marks;
ghost use Rattle.refresh_answer.specs.Around as around;
ghost use Rattle.refresh_answer.specs.Answering as spec;
ghost use Rattle.refresh_rows.specs.Booked.{HasMemory};
ghost use Rattle.refresh_book.specs.Beginning.{IsPending};

use crate::beginning::{Pending, note_passed};
use crate::entries::second;
use crate::refresh_core::RefreshCore;
use core_stack::{
    CodeMark, Kept, KeptJournal, Provides, TurnMark, code_made, ends_turn, keep_codes, keep_turns,
    turn_begun, turn_ended,
};
use held_rows::Held;
use op_exchange::OpReply;
use refresh_answer::{OwnReply, RefreshAsk, RefreshParts, RefreshReply};
use refresh_rows::Book;
use sso_base::{CoreNo, Entry, Moment, NoMemory, Pair, Word};
use std::alloc::Global;

// Makes room for what an entry adds.
fn reserve<A: Drop>(
    kept: &mut KeptJournal<RefreshParts, Pair<RefreshAsk<A>, OwnReply>>,
    turns: &mut Held<TurnMark<bool>>,
    codes: &mut Held<CodeMark<bool>>,
    book: &mut Book,
) -> Result<(), NoMemory>
    ensures kept { kept.new.kept ≡ kept.old.kept }
    ensures weight { kept.new.weight ≡ kept.old.weight }
    ensures last { kept.new.last ≡ kept.old.last }
    ensures most { kept.new.most ≡ kept.old.most }
    ensures turns { turns.new.rows ≡ turns.old.rows }
    ensures codes { codes.new.rows ≡ codes.old.rows }
    ensures families { book.new.families ≡ book.old.families }
    ensures tokens { book.new.tokens ≡ book.old.tokens }
    ensures accesses { book.new.accesses ≡ book.old.accesses }
    ensures book_last { book.new.last ≡ book.old.last }
    ensures kept_room { OnOk result (length kept.new.kept < kept.new.capacity) }
    ensures turns_room { OnOk result (length turns.new.rows < turns.new.capacity) }
    ensures codes_room { OnOk result (length codes.new.rows < codes.new.capacity) }
    ensures book_memory { OnOk result (HasMemory book.new) }
{
    kept.reserve()?;
    turns.reserve()?;
    codes.reserve()?;
    book.reserve()
}

// Reserves all memory, and then steps the inner core.
fn pass_on<P: Provides>(
    inner: &mut P,
    kept: &mut KeptJournal<RefreshParts, Pair<RefreshAsk<P::Ask>, OwnReply>>,
    turns: &mut Held<TurnMark<bool>>,
    codes: &mut Held<CodeMark<bool>>,
    book: &mut Book,
    alloc: Global,
    at: Moment,
    fresh: [Word; 4],
    asked: P::Ask,
) -> Result<P::Reply, CoreNo>
    ensures history { IfOk result (λ reply. P.history inner.new ≡ extended (P.history inner.old) at fresh asked reply) }
    ensures legal { OnOk result (P.is_legal (P.setup inner.new) (P.history inner.new)) }
    ensures setup { P.setup inner.new ≡ P.setup inner.old }
    ensures kept { kept.new.kept ≡ kept.old.kept }
    ensures weight { kept.new.weight ≡ kept.old.weight }
    ensures last { kept.new.last ≡ kept.old.last }
    ensures most { kept.new.most ≡ kept.old.most }
    ensures turns { turns.new.rows ≡ turns.old.rows }
    ensures codes { codes.new.rows ≡ codes.old.rows }
    ensures families { book.new.families ≡ book.old.families }
    ensures tokens { book.new.tokens ≡ book.old.tokens }
    ensures accesses { book.new.accesses ≡ book.old.accesses }
    ensures book_last { book.new.last ≡ book.old.last }
    ensures kept_room { OnOk result (length kept.new.kept < kept.new.capacity) }
    ensures turns_room { OnOk result (length turns.new.rows < turns.new.capacity) }
    ensures codes_room { OnOk result (length codes.new.rows < codes.new.capacity) }
    ensures book_memory { OnOk result (HasMemory book.new) }
    ensures same { OnErr result (inner.new ≡ inner.old) }
    ensures full { (w : ℕ) → result ≡ Err (CoreNo.JournalFull w)
        → (w ≡ history_weight P.weighs (P.history inner.old)) × (P.most (P.setup inner.old) < w + P.weighs asked) }
{
    reserve(kept, turns, codes, book)?;
    inner.step(alloc, at, fresh, asked)
}

// What an entry changes that was passed on: the turn that it ends, the turn that it begins, and the code that it makes.
#[derive(Drop)]
struct Changes {
    ended: Option<Word>,
    begun: Option<TurnMark<bool>>,
    made: Option<CodeMark<bool>>,
}

fn changes_of(pending: &Pending, given: Option<&OpReply>, at: Moment) -> Changes
    ensures ended { result.ended ≡ marks.turn_ended (option_copied given.entry) pending.now.turn }
    ensures begun { result.begun ≡ marks.turn_row (option_copied given.entry) pending.now.wish pending.now.sent at }
    ensures made { result.made ≡ marks.code_row (option_copied given.entry) pending.now.answer at }
{
    let ends = ends_turn(given);
    Changes {
        ended: turn_ended(ends, pending.turn),
        begun: turn_begun(given, pending.wish, pending.sent, at),
        made: code_made(given, pending.answer, at),
    }
}

// Keeps an entry that was passed on, with its changes. Room was reserved for it.
fn note<A: Drop>(
    kept: &mut KeptJournal<RefreshParts, Pair<RefreshAsk<A>, OwnReply>>,
    turns: &mut Held<TurnMark<bool>>,
    codes: &mut Held<CodeMark<bool>>,
    at: Moment,
    parts: RefreshParts,
    weight: u64,
    changes: Changes,
)
    requires kept_room { length kept.old.kept < kept.old.capacity }
    requires turns_room { length turns.old.rows < turns.old.capacity }
    requires codes_room { length codes.old.rows < codes.old.capacity }
    requires least { empty_weight ≤ weight }
    requires room { kept.old.weight + weight ≤ kept.old.most }
    requires turn { IfSome changes.begun (MayAddRow turn_mark_name turn_mark_begun true
        (marks.turns_left changes.ended (live_rows turn_life turn_mark_begun at turns.old.rows))) }
    requires code { IfSome changes.made (MayAddRow code_mark_name code_mark_begun true (live_rows code_life code_mark_begun at codes.old.rows)) }
    ensures kept { kept.new.kept ≡ kept.old.kept ++ kept_as.Passed parts ∷ [] }
    ensures weight { kept.new.weight ≡ kept.old.weight + weight }
    ensures last { kept.new.last ≡ at }
    ensures most { kept.new.most ≡ kept.old.most }
    ensures turns { turns.new.rows ≡ put turn_mark_name changes.begun
        (marks.turns_left changes.ended (live_rows turn_life turn_mark_begun at turns.old.rows)) }
    ensures codes { codes.new.rows ≡ put code_mark_name changes.made (live_rows code_life code_mark_begun at codes.old.rows) }
{
    let Changes { ended, begun, made } = changes;
    keep_turns(turns, at, ended, begun);
    keep_codes(codes, at, made);
    kept.push(Kept::Passed(parts), at, weight);
}

// The reply of the inner core, with the first token of a family if there is one.
fn reply_around<R: Drop>(inner: R, first: Option<Word>) -> RefreshReply<R>
    ensures { result ≡ around.reply_around inner first }
{
    match first {
        Some(refresh) => RefreshReply::First { inner, refresh },
        None => RefreshReply::Through(inner),
    }
}

fn again(word: &Option<Word>) -> Option<Word>
    ensures { result ≡ word.now }
{
    *word
}

impl<P: Provides> RefreshCore<P> {
    // Passes a request of the inner core on, of which all is known.
    fn pass_known(
        &mut self,
        alloc: Global,
        pending: Pending,
        at: Moment,
        fresh: [Word; 4],
        asked: P::Ask,
        offline: bool,
        weight: u64,
    ) -> Result<RefreshReply<P::Reply>, CoreNo>
        requires pending { IsPending P.plain_ask P.given_reply P.provided self.old.registry (reverse self.old.history) at
            (RefreshAsk.Through asked offline) pending }
        requires passes { spec.own_reply P.plain_ask P.given_reply P.provided self.old.registry (reverse self.old.history) at fresh
            (RefreshAsk.Through asked offline) ≡ None }
        requires order { last_moment (reverse self.old.history) ≤ at }
        requires values { IsEntry (around.IsRefreshAsk P.IsAsk) (record { at = at; fresh = fresh; ask = RefreshAsk.Through asked offline }) }
        requires weight { weight ≡ around.outer_weight P.weighs (RefreshAsk.Through asked offline) }
        requires room { history_weight (around.outer_weight P.weighs) self.old.history + weight ≤ P.most (P.setup self.old.inner) }
        ensures history { IfOk result (λ r. self.new.history ≡ self.old.history
            ++ (record { entry = record { at = at; fresh = fresh; ask = RefreshAsk.Through asked offline }; reply = r }) ∷ []) }
        ensures setup { P.setup self.new.inner ≡ P.setup self.old.inner }
        ensures registry { self.new.registry ≡ self.old.registry }
        ensures err { OnErr result (self.new ≡ self.old) }
        ensures room { (w : ℕ) → result ≡ Err (CoreNo.JournalFull w) → ⊥ }
        ensures legal { spec.IsLegalRefresh P.plain_ask P.given_reply P.provided P.IsAsk P.weighs P.most P.is_legal
            (record { inner = P.setup self.new.inner; registry = self.new.registry }) self.new.history }
    {
        let word = second(&fresh);
        let reply = match pass_on(
            &mut self.inner,
            &mut self.kept,
            &mut self.turns,
            &mut self.codes,
            &mut self.book,
            alloc,
            at,
            fresh,
            asked,
        ) {
            Ok(reply) => reply,
            Err(no) => {
                drop(pending);
                return Err(no);
            }
        };
        let changes = changes_of(&pending, P::given(&reply), at);
        let Pending { spent, family, .. } = pending;
        self.book.turn_to(at);
        let first = note_passed(&mut self.book, spent, family, P::given(&reply), word);
        let parts = RefreshParts {
            offline,
            first: again(&first),
        };
        note(
            &mut self.kept,
            &mut self.turns,
            &mut self.codes,
            at,
            parts,
            weight,
            changes,
        );
        Ok(reply_around(reply, first))
    }

    /// Passes a request on that the core does not answer by itself.
    pub(crate) fn pass(
        &mut self,
        alloc: Global,
        entry: Entry<RefreshAsk<P::Ask>>,
        weight: u64,
    ) -> Result<RefreshReply<P::Reply>, CoreNo>
        requires passes { spec.own_reply P.plain_ask P.given_reply P.provided self.old.registry (reverse self.old.history) entry.at
            entry.fresh entry.ask ≡ None }
        requires order { last_moment (reverse self.old.history) ≤ entry.at }
        requires values { IsEntry (around.IsRefreshAsk P.IsAsk) entry }
        requires weight { weight ≡ around.outer_weight P.weighs entry.ask }
        requires room { history_weight (around.outer_weight P.weighs) self.old.history + weight ≤ P.most (P.setup self.old.inner) }
        ensures history { IfOk result (λ r. self.new.history ≡ self.old.history ++ (record { entry = entry; reply = r }) ∷ []) }
        ensures setup { P.setup self.new.inner ≡ P.setup self.old.inner }
        ensures registry { self.new.registry ≡ self.old.registry }
        ensures err { OnErr result (self.new ≡ self.old) }
        ensures room { (w : ℕ) → result ≡ Err (CoreNo.JournalFull w) → ⊥ }
        ensures legal { spec.IsLegalRefresh P.plain_ask P.given_reply P.provided P.IsAsk P.weighs P.most P.is_legal
            (record { inner = P.setup self.new.inner; registry = self.new.registry }) self.new.history }
    {
        // the invariant becomes known by reading a field
        let _count = self.kept.count();
        let pending = self.pending(alloc, entry.at, &entry.ask)?;
        let Entry { at, fresh, ask } = entry;
        match ask {
            RefreshAsk::Through { inner, offline } => {
                self.pass_known(alloc, pending, at, fresh, inner, offline, weight)
            }
            RefreshAsk::Refresh { .. } => unreachable!(),
        }
    }
}
