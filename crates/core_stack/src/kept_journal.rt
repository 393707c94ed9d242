//! What a core that stands around another one keeps of its history, and the limit of that history.

ghost use Rattle.std.specs.Prelude.{◌≡◌, ◌+◌, ◌<◌, ◌≤◌, ◌^◌, nat_lt, [], ◌∷◌, ◌++◌, length, Err, OnOk, vec_len, vec_capacity};
ghost use Rattle.std.specs.Prelude.{if◌then◌else◌};
ghost use Rattle.sso_base.specs.Journal as journal;
ghost use Rattle.sso_base.specs.Weights.{empty_weight};

use crate::kept::Kept;
use sso_base::{CoreNo, Moment, NoMemory, Told};
use std::alloc::Global;
use std::marker::Model;

// The greatest weight of a history that is stored.
const MOST_WEIGHT: u64 = 268_435_456;

// The greatest weight of a history that lasts.
const LASTING_WEIGHT: u64 = 9_223_372_036_854_775_807;

/// What a core keeps of its entries, in their order. Its model is the list of that, the number of entries it has room for, the
/// weight of the history, the moment of its last entry, and the limit on its weight. If the history lasts, nothing is stored: only
/// contracts see the list, and the journal takes the same few bytes however long it is.
#[derive(Drop)]
pub struct KeptJournal<K: Drop, E: Drop> {
    told: Told<Kept<K, E>>,
    stored: Vec<Kept<K, E>>,
    stores: bool,
    count: u64,
    weight: u64,
    last: Moment,
    most: u64,
}

impl<K: Drop, E: Drop> Model for KeptJournal<K, E> {
    ghost use Rattle.std.specs.Prelude.{length};
    ghost use Rattle.std.specs.Vec.{vec_capacity};
    ghost use Rattle.sso_base.specs.Journal.{capacity_of};
    ghost use Rattle.core_stack.specs.KeptJournal.{KeptEntries, IsKeptJournal};

    ghost Value = { KeptEntries K E };

    ghost view = { λ j. record {
      kept = j.told;
      capacity = capacity_of j.stores (length j.told) (vec_capacity j.stored);
      weight = j.weight;
      last = j.last;
      most = j.most;
    } };

    ghost invariant = { λ j. IsKeptJournal j.stores j.told j.stored.items j.count j.weight j.most };
}

// The greatest weight of a history, by whether it lasts.
fn most_of(lasts: bool) -> u64
    ensures most { result ≡ journal.most_of lasts }
    ensures short { result < 2 ^ 63 }
{
    if lasts { LASTING_WEIGHT } else { MOST_WEIGHT }
}

// Stores what is kept of an entry. Room was reserved for it.
fn store<K: Drop, E: Drop>(stored: &mut Vec<Kept<K, E>>, one: Kept<K, E>)
    requires { vec_len stored.old < vec_capacity stored.old }
    ensures { stored.new.items ≡ stored.old.items ++ one ∷ [] }
{
    stored.push_reserved(one);
}

impl<K: Drop, E: Drop> KeptJournal<K, E> {
    /// A journal with no entries. It stores what is kept unless its history lasts.
    pub fn new(alloc: Global, lasts: bool) -> KeptJournal<K, E>
        ensures kept { result.kept ≡ [] }
        ensures weight { result.weight ≡ 0 }
        ensures last { result.last ≡ 0 }
        ensures most { result.most ≡ journal.most_of lasts }
    {
        KeptJournal {
            told: Told::new(),
            stored: Vec::new(alloc),
            stores: !lasts,
            count: 0,
            weight: 0,
            last: Moment::first(),
            most: most_of(lasts),
        }
    }

    /// How many entries there are.
    pub fn count(&self) -> u64
        ensures { result ≡ length self.now.kept }
    {
        self.count
    }

    /// Returns `JournalFull` with the weight of the history if this much more would exceed its limit.
    pub fn room_for(&self, weight: u64) -> Result<(), CoreNo>
        ensures ok { OnOk result (self.now.weight + weight ≤ self.now.most) }
        ensures full { (no : CoreNo) → result ≡ Err no → journal.IsFullRefusal self.now.most self.now.weight weight no }
        ensures short { self.now.most < 2 ^ 63 }
    {
        if self.most - self.weight < weight {
            return Err(CoreNo::JournalFull(self.weight));
        }
        Ok(())
    }

    /// The moment of the next entry: this one, or the last entry's if that is later.
    pub fn moment_after(&self, at: Moment) -> Moment
        ensures moment { result ≡ (if nat_lt at self.now.last then self.now.last else at) }
        ensures order { self.now.last ≤ result }
    {
        if at.seconds() < self.last.seconds() {
            self.last
        } else {
            at
        }
    }

    /// Makes room for one more entry. On `NoMemory` nothing changes.
    pub fn reserve(&mut self) -> Result<(), NoMemory>
        ensures kept { self.new.kept ≡ self.old.kept }
        ensures weight { self.new.weight ≡ self.old.weight }
        ensures last { self.new.last ≡ self.old.last }
        ensures most { self.new.most ≡ self.old.most }
        ensures room { OnOk result (length self.new.kept < self.new.capacity) }
    {
        if self.stores {
            self.stored.reserve(1)?;
        }
        Ok(())
    }

    /// Adds what is kept of an entry with this moment and this weight. Room was reserved for it.
    pub fn push(&mut self, one: Kept<K, E>, at: Moment, weight: u64)
        requires reserved { length self.old.kept < self.old.capacity }
        requires least { empty_weight ≤ weight }
        requires room { self.old.weight + weight ≤ self.old.most }
        ensures kept { self.new.kept ≡ self.old.kept ++ one ∷ [] }
        ensures weight { self.new.weight ≡ self.old.weight + weight }
        ensures last { self.new.last ≡ at }
        ensures most { self.new.most ≡ self.old.most }
    {
        self.told.push(&one);
        self.count += 1;
        self.weight += weight;
        self.last = at;
        if self.stores {
            store(&mut self.stored, one);
        }
    }
}
