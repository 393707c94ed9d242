// One step, and entries that the core answers by itself.

ghost use Rattle.std.specs.Prelude.{◌≡◌, ℕ, ◌<◌, ◌≤◌, ◌+◌, ◌++◌, [], ◌∷◌, length, reverse, true, Some, Err, IfOk, OnOk, OnErr};
ghost use Rattle.sso_base.specs.Legal.{last_moment, IsEntry};
ghost use Rattle.sso_base.specs.Journal.{history_weight, entry_of};
ghost use Rattle.refresh_answer.specs.Around as around;
ghost use Rattle.refresh_answer.specs.Answering as spec;
ghost use Rattle.refresh_rows.specs.Booked.{HasMemory};
ghost use Rattle.refresh_book.specs.Keeps.{is_refresh_ask as is_refresh_of};

use crate::entries::{is_refresh_ask, known, weight_of};
use crate::refresh_core::RefreshCore;
use crate::renewing::{note_renewal, renewal_asked, reply_of};
use core_stack::{Kept, KeptJournal, Provides};
use refresh_answer::{OwnReply, RefreshAsk, RefreshParts, RefreshReply};
use refresh_rows::Book;
use sso_base::{Core, CoreNo, Entry, Moment, NoMemory, Pair, Word};
use std::alloc::Global;

// ---- memory

// Makes room for one more entry that the core answers by itself.
fn reserve_own<A: Drop>(
    kept: &mut KeptJournal<RefreshParts, Pair<RefreshAsk<A>, OwnReply>>,
    book: &mut Book,
) -> Result<(), NoMemory>
    ensures kept { kept.new.kept ≡ kept.old.kept }
    ensures weight { kept.new.weight ≡ kept.old.weight }
    ensures last { kept.new.last ≡ kept.old.last }
    ensures most { kept.new.most ≡ kept.old.most }
    ensures families { book.new.families ≡ book.old.families }
    ensures tokens { book.new.tokens ≡ book.old.tokens }
    ensures accesses { book.new.accesses ≡ book.old.accesses }
    ensures book_last { book.new.last ≡ book.old.last }
    ensures kept_room { OnOk result (length kept.new.kept < kept.new.capacity) }
    ensures book_memory { OnOk result (HasMemory book.new) }
{
    kept.reserve()?;
    book.reserve()
}

// An equal reply.
fn copied(alloc: Global, reply: &OwnReply) -> Result<OwnReply, NoMemory>
    ensures { IfOk result (λ told. told ≡ reply.now) }
{
    Ok(match reply {
        OwnReply::Refreshed {
            access,
            refresh,
            scopes,
        } => OwnReply::Refreshed {
            access: *access,
            refresh: *refresh,
            scopes: *scopes,
        },
        OwnReply::Refused { code } => OwnReply::Refused { code: *code },
        OwnReply::Info { claims } => OwnReply::Info {
            claims: claims.copy(alloc)?,
        },
        OwnReply::NotHere => OwnReply::NotHere,
        OwnReply::Full => OwnReply::Full,
    })
}

// An equal reply, and room for one more entry.
fn prepared<A: Drop>(
    alloc: Global,
    kept: &mut KeptJournal<RefreshParts, Pair<RefreshAsk<A>, OwnReply>>,
    book: &mut Book,
    reply: &OwnReply,
) -> Result<OwnReply, NoMemory>
    ensures kept { kept.new.kept ≡ kept.old.kept }
    ensures weight { kept.new.weight ≡ kept.old.weight }
    ensures last { kept.new.last ≡ kept.old.last }
    ensures most { kept.new.most ≡ kept.old.most }
    ensures families { book.new.families ≡ book.old.families }
    ensures tokens { book.new.tokens ≡ book.old.tokens }
    ensures accesses { book.new.accesses ≡ book.old.accesses }
    ensures book_last { book.new.last ≡ book.old.last }
    ensures told { IfOk result (λ told. told ≡ reply.now) }
    ensures kept_room { OnOk result (length kept.new.kept < kept.new.capacity) }
    ensures book_memory { OnOk result (HasMemory book.new) }
{
    reserve_own(kept, book)?;
    copied(alloc, reply)
}

impl<P: Provides> RefreshCore<P> {
    // The weight of a request if the history has room for it.
    fn admit(&self, ask: &RefreshAsk<P::Ask>) -> Result<u64, CoreNo>
        ensures weight { IfOk result (λ weight. weight ≡ around.outer_weight P.weighs ask.now) }
        ensures room { OnOk result
            (history_weight (around.outer_weight P.weighs) self.now.history + around.outer_weight P.weighs ask.now ≤ P.most (P.setup self.now.inner)) }
        ensures full { (w : ℕ) → result ≡ Err (CoreNo.JournalFull w) → (w ≡ history_weight (around.outer_weight P.weighs) self.now.history)
            × (P.most (P.setup self.now.inner) < w + around.outer_weight P.weighs ask.now) }
        ensures legal { spec.IsLegalRefresh P.plain_ask P.given_reply P.provided P.IsAsk P.weighs P.most P.is_legal
            (record { inner = P.setup self.now.inner; registry = self.now.registry }) self.now.history }
    {
        // the invariant becomes known by reading a field
        let _count = self.kept.count();
        let weight = weight_of::<P>(ask)?;
        self.kept.room_for(weight)?;
        Ok(weight)
    }

    // The entry of a request at this moment, or at the last entry's moment if that is later.
    fn entry(
        &self,
        at: Moment,
        fresh: [Word; 4],
        ask: RefreshAsk<P::Ask>,
    ) -> Entry<RefreshAsk<P::Ask>>
        ensures entry { result ≡ entry_of self.now.history at fresh ask }
        ensures order { last_moment (reverse self.now.history) ≤ result.at }
        ensures values { IsEntry (around.IsRefreshAsk P.IsAsk) result }
    {
        let at = self.kept.moment_after(at);
        known::<P>(Entry { at, fresh, ask })
    }

    // Answers a UserInfo request with an access token of a family.
    fn answer_info(
        &mut self,
        alloc: Global,
        entry: Entry<RefreshAsk<P::Ask>>,
        reply: OwnReply,
        weight: u64,
    ) -> Result<RefreshReply<P::Reply>, NoMemory>
        requires own { spec.info_reply P.plain_ask P.given_reply P.provided self.old.registry (reverse self.old.history) entry.at
            (around.outer_plain P.plain_ask entry.ask) ≡ Some reply }
        requires order { last_moment (reverse self.old.history) ≤ entry.at }
        requires values { IsEntry (around.IsRefreshAsk P.IsAsk) entry }
        requires weight { weight ≡ around.outer_weight P.weighs entry.ask }
        requires room { history_weight (around.outer_weight P.weighs) self.old.history + weight ≤ P.most (P.setup self.old.inner) }
        ensures told { IfOk result (λ r. r ≡ RefreshReply.Own reply) }
        ensures history { OnOk result (self.new.history ≡ self.old.history ++ around.own_pair (record { entry = entry; reply = reply }) ∷ []) }
        ensures inner { OnOk result (self.new.inner ≡ self.old.inner) }
        ensures registry { self.new.registry ≡ self.old.registry }
        ensures err { OnErr result (self.new ≡ self.old) }
        ensures legal { spec.IsLegalRefresh P.plain_ask P.given_reply P.provided P.IsAsk P.weighs P.most P.is_legal
            (record { inner = P.setup self.new.inner; registry = self.new.registry }) self.new.history }
    {
        let told = match prepared(alloc, &mut self.kept, &mut self.book, &reply) {
            Ok(told) => told,
            Err(no) => {
                // dropped by calls: at an early return of this function the prover would walk through all of their parts
                drop(entry);
                drop(reply);
                return Err(no);
            }
        };
        let at = entry.at;
        self.book.turn_to(at);
        let own = Pair { entry, reply };
        self.kept.push(Kept::Own(own), at, weight);
        Ok(RefreshReply::Own(told))
    }

    // Answers a refresh request.
    fn answer_refresh(
        &mut self,
        entry: Entry<RefreshAsk<P::Ask>>,
        weight: u64,
    ) -> Result<RefreshReply<P::Reply>, NoMemory>
        requires refresh { is_refresh_of entry.ask ≡ true }
        requires order { last_moment (reverse self.old.history) ≤ entry.at }
        requires values { IsEntry (around.IsRefreshAsk P.IsAsk) entry }
        requires weight { weight ≡ around.outer_weight P.weighs entry.ask }
        requires room { history_weight (around.outer_weight P.weighs) self.old.history + weight ≤ P.most (P.setup self.old.inner) }
        ensures history { IfOk result (λ r. self.new.history ≡ self.old.history ++ (record { entry = entry; reply = r }) ∷ []) }
        ensures inner { OnOk result (self.new.inner ≡ self.old.inner) }
        ensures registry { self.new.registry ≡ self.old.registry }
        ensures err { OnErr result (self.new ≡ self.old) }
        ensures legal { spec.IsLegalRefresh P.plain_ask P.given_reply P.provided P.IsAsk P.weighs P.most P.is_legal
            (record { inner = P.setup self.new.inner; registry = self.new.registry }) self.new.history }
    {
        let Entry { at, fresh, ask } = entry;
        if let Err(no) = reserve_own(&mut self.kept, &mut self.book) {
            // dropped by a call, as above
            drop(ask);
            return Err(no);
        }
        self.book.turn_to(at);
        let renewed = renewal_asked(&self.book, &fresh, &ask);
        note_renewal(&mut self.book, &renewed);
        let own = Pair {
            entry: Entry { at, fresh, ask },
            reply: reply_of(&renewed),
        };
        self.kept.push(Kept::Own(own), at, weight);
        Ok(RefreshReply::Own(reply_of(&renewed)))
    }
}

impl<P: Provides> Core for RefreshCore<P> {
    ghost use Rattle.core_stack.proofs.Passing.{beginning_is_legal};
    ghost use Rattle.refresh_answer.specs.Answering.{Setup as SetupOf};
    ghost use Rattle.refresh_answer.proofs.Passed.{least_outer};

    type Ask = RefreshAsk<P::Ask>;

    type Reply = RefreshReply<P::Reply>;

    ghost Setup = { SetupOf P.Setup };

    ghost setup = { λ c. record { inner = P.setup c.inner; registry = c.registry } };

    ghost history = { λ c. c.history };

    ghost weighs = { around.outer_weight P.weighs };

    ghost most = { λ s. P.most s.inner };

    ghost is_legal = { spec.IsLegalRefresh P.plain_ask P.given_reply P.provided P.IsAsk P.weighs P.most P.is_legal };

    fn step(
        &mut self,
        alloc: Global,
        at: Moment,
        fresh: [Word; 4],
        ask: RefreshAsk<P::Ask>,
    ) -> Result<RefreshReply<P::Reply>, CoreNo> {
        let weight = self.admit(&ask)?;
        let entry = self.entry(at, fresh, ask);
        if is_refresh_ask(&entry.ask) {
            return Ok(self.answer_refresh(entry, weight)?);
        }
        match self.info(alloc, entry.at, &entry.ask)? {
            Some(reply) => Ok(self.answer_info(alloc, entry, reply, weight)?),
            None => self.pass(alloc, entry, weight),
        }
    }

    fn weight(ask: &RefreshAsk<P::Ask>) -> Result<u64, NoMemory> {
        weight_of::<P>(ask)
    }

    fn count(&self) -> u64 {
        self.kept.count()
    }

    ghost legal_is_light = { λ s h legal. legal.light };

    ghost most_is_short = { λ s. P.most_is_short s.inner };

    ghost beginnings_are_legal = { λ s front rest legal. beginning_is_legal (around.IsRefreshAsk P.IsAsk)
        (spec.IsRefreshReply P.plain_ask P.given_reply P.provided s.registry) around.passed (around.outer_weight P.weighs)
        (λ (t : SetupOf P.Setup). P.most t.inner) (λ (t : SetupOf P.Setup) l. P.is_legal t.inner l)
        (λ t first more l. P.beginnings_are_legal t.inner first more l) s front rest legal };

    ghost least_weight = { least_outer P.weighs P.least_weight };
}
