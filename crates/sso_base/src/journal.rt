//! The history of a core, and its limit.

ghost use Rattle.std.specs.Prelude.{◌≡◌, ℕ, ◌+◌, ◌<◌, ◌≤◌, ◌^◌, [], ◌∷◌, ◌++◌, not, length, reverse, is_some, Err, IfSome, IfOk, OnOk, vec_len, vec_capacity};
ghost use Rattle.sso_base.specs.Legal.{last_moment};
ghost use Rattle.sso_base.specs.Journal as spec;
ghost use Rattle.sso_base.specs.Weights.{empty_weight, told_weight};

use crate::history::{Entry, Pair};
use crate::memory::NoMemory;
use crate::moment::Moment;
use crate::step::CoreNo;
use crate::told::Told;
use crate::word::Word;
use std::alloc::Global;
use std::marker::Model;

// The greatest weight of a history that is stored.
const MOST_WEIGHT: u64 = 268_435_456;

// The greatest weight of a history that lasts.
const LASTING_WEIGHT: u64 = 9_223_372_036_854_775_807;

/// A request with a weight.
pub trait Weighed {
    /// The weight.
    ghost weighs: { Self → ℕ };

    /// The weight, or the greatest number of 64 bits if the weight is greater.
    fn weight(&self) -> Result<u64, NoMemory>
        ensures { IfOk result (λ n. n ≡ told_weight (weighs self.now)) };

    /// No request weighs less than one that holds no texts.
    ghost least: { (asked : Self) → empty_weight ≤ weighs asked };
}

/// A history with a limit on its weight. Its model is the list of its pairs, oldest first, whether they are stored, the number of
/// pairs it has room for, and the limit. If they are not stored, only contracts see them, and the journal takes the same few bytes
/// however many there are.
#[derive(Drop)]
pub struct Journal<A: Weighed + Drop, R: Drop> {
    told: Told<Pair<A, R>>,
    pairs: Vec<Pair<A, R>>,
    stores: bool,
    count: u64,
    weight: u64,
    last: Moment,
    most: u64,
}

impl<A: Weighed + Drop, R: Drop> Model for Journal<A, R> {
    ghost use Rattle.std.specs.Prelude.{length};
    ghost use Rattle.std.specs.Vec.{vec_capacity};
    ghost use Rattle.sso_base.specs.Journal.{Journaled, IsJournal, capacity_of};

    ghost Value = { Journaled A R };

    ghost view = { λ j. record { pairs = j.told; stores = j.stores; capacity = capacity_of j.stores (length j.told) (vec_capacity j.pairs); most = j.most } };

    ghost invariant = { λ j. IsJournal A.weighs j.stores j.told j.pairs.items j.count j.weight j.last j.most };
}

// The greatest weight of a history, by whether it lasts.
fn most_of(lasts: bool) -> u64
    ensures most { result ≡ spec.most_of lasts }
    ensures short { result < 2 ^ 63 }
{
    if lasts { LASTING_WEIGHT } else { MOST_WEIGHT }
}

// The moment of a pair.
fn moment_of<A: Drop, R: Drop>(pair: &Pair<A, R>) -> Moment
    ensures { result ≡ pair.now.entry.at }
{
    pair.entry.at
}

// Stores a pair. Room was reserved for it.
fn store<A: Drop, R: Drop>(pairs: &mut Vec<Pair<A, R>>, pair: Pair<A, R>)
    requires { vec_len pairs.old < vec_capacity pairs.old }
    ensures { pairs.new.items ≡ pairs.old.items ++ pair ∷ [] }
{
    pairs.push_reserved(pair);
}

impl<A: Weighed + Drop, R: Drop> Journal<A, R> {
    /// A journal with no pairs. It stores its pairs unless its history lasts.
    pub fn new(alloc: Global, lasts: bool) -> Journal<A, R>
        ensures pairs { result.pairs ≡ [] }
        ensures stores { result.stores ≡ not lasts }
        ensures most { result.most ≡ spec.most_of lasts }
    {
        Journal {
            told: Told::new(),
            pairs: Vec::new(alloc),
            stores: !lasts,
            count: 0,
            weight: 0,
            last: Moment::first(),
            most: most_of(lasts),
        }
    }

    /// How many pairs there are.
    pub fn count(&self) -> u64
        ensures { result ≡ length self.now.pairs }
    {
        self.count
    }

    /// The pairs, if they are stored.
    pub fn stored(&self) -> Option<&[Pair<A, R>]>
        ensures pairs { IfSome result (λ pairs. pairs.now ≡ self.now.pairs) }
        ensures stores { is_some result ≡ self.now.stores }
    {
        if self.stores {
            Some(self.pairs.as_slice())
        } else {
            None
        }
    }

    /// The history weighs no more than its limit, which is a number of 63 bits. The call does nothing.
    pub fn light(&self)
        ensures light { spec.history_weight A.weighs self.now.pairs ≤ self.now.most }
        ensures short { self.now.most < 2 ^ 63 }
    {
        // The type's invariant becomes known by reading a field.
        let _weight = self.weight;
    }

    // Whether a request of this weight fits into the history; otherwise the error holds the history's weight.
    fn room_for(&self, weight: u64) -> Result<(), CoreNo>
        ensures ok { OnOk result (spec.history_weight A.weighs self.now.pairs + weight ≤ self.now.most) }
        ensures full { (no : CoreNo) → result ≡ Err no → spec.IsFullRefusal self.now.most (spec.history_weight A.weighs self.now.pairs) weight no }
        ensures short { self.now.most < 2 ^ 63 }
    {
        if self.most - self.weight < weight {
            return Err(CoreNo::JournalFull(self.weight));
        }
        Ok(())
    }

    /// Returns the weight of a request if the history has room for it. Otherwise returns `JournalFull` with the weight of the
    /// history.
    pub fn admit(&self, ask: &A) -> Result<u64, CoreNo>
        ensures weight { IfOk result (λ weight. weight ≡ A.weighs ask.now) }
        ensures room { OnOk result (spec.history_weight A.weighs self.now.pairs + A.weighs ask.now ≤ self.now.most) }
        ensures full { spec.ReportsFull self.now.most result (spec.history_weight A.weighs self.now.pairs) (A.weighs ask.now) }
    {
        let weight = ask.weight()?;
        self.room_for(weight)?;
        Ok(weight)
    }

    // The moment of the next entry: time never goes back.
    fn moment_after(&self, at: Moment) -> Moment
        ensures { result ≡ spec.entry_moment self.now.pairs at }
    {
        if at.seconds() < self.last.seconds() {
            self.last
        } else {
            at
        }
    }

    /// The entry of a request at this moment, or at the last entry's moment if that is later.
    pub fn entry(&self, at: Moment, fresh: [Word; 4], ask: A) -> Entry<A>
        ensures entry { result ≡ spec.entry_of self.now.pairs at fresh ask }
        ensures order { last_moment (reverse self.now.pairs) ≤ result.at }
    {
        Entry {
            at: self.moment_after(at),
            fresh,
            ask,
        }
    }

    /// Makes room for one more pair. On `NoMemory` the pairs are unchanged.
    pub fn reserve(&mut self) -> Result<(), NoMemory>
        ensures pairs { self.new.pairs ≡ self.old.pairs }
        ensures stores { self.new.stores ≡ self.old.stores }
        ensures most { self.new.most ≡ self.old.most }
        ensures room { OnOk result (length self.new.pairs < self.new.capacity) }
    {
        if self.stores {
            self.pairs.reserve(1)?;
        }
        Ok(())
    }

    /// Adds a pair. Room was reserved for it.
    pub fn push(&mut self, pair: Pair<A, R>, weight: u64)
        requires reserved { length self.old.pairs < self.old.capacity }
        requires weight { weight ≡ A.weighs pair.entry.ask }
        requires room { spec.history_weight A.weighs self.old.pairs + weight ≤ self.old.most }
        ensures pairs { self.new.pairs ≡ self.old.pairs ++ pair ∷ [] }
        ensures stores { self.new.stores ≡ self.old.stores }
        ensures most { self.new.most ≡ self.old.most }
    {
        self.told.push(&pair);
        self.count += 1;
        self.weight += weight;
        self.last = moment_of(&pair);
        if self.stores {
            store(&mut self.pairs, pair);
        }
    }
}
