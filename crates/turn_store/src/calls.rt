// The results of calls, and what remains when a store closes.

ghost use Rattle.std.specs.Prelude.{◌≡◌, ◌<◌, [], ◌∷◌, ◌++◌, List, ℕ, true, length, slice_get, Some, IfSome};

use sso_base::Told;
use std::alloc::Global;
use std::marker::Model;

/// The result of a call that the core accepted.
#[derive(Drop)]
pub struct Placed<R: Drop> {
    /// The core's reply.
    pub reply: R,
    /// The place of the request and its reply in the core's history, counted from 1.
    pub place: u64,
}

// The greatest place that is stored.
const MOST_STORED: u64 = 262_144;

// The places of one pass's calls, in their order. Contracts see all of them. They are stored while they are at most 262,144 and
// memory does not run out.
#[derive(Drop)]
pub(crate) struct Places {
    told: Told<u64>,
    stored: Vec<u64>,
    whole: bool,
}

impl Model for Places {
    ghost use Rattle.std.specs.Prelude.{List, ℕ};
    ghost use Rattle.turn_store.specs.Places.{AreStored};

    ghost Value = { List ℕ };

    ghost view = { λ p. p.told };

    ghost invariant = { λ p. AreStored p.whole p.stored.items p.told };
}

// Stores a place, if all earlier ones are stored, and returns whether it did.
fn store(whole: bool, stored: &mut Vec<u64>, place: u64) -> bool
    ensures { result ≡ true → (whole ≡ true) × (stored.new.items ≡ stored.old.items ++ place ∷ []) }
{
    if !whole {
        return false;
    }
    if place > MOST_STORED {
        return false;
    }
    match stored.push(place) {
        Ok(()) => true,
        Err(_) => false,
    }
}

impl Places {
    pub(crate) fn new(alloc: Global) -> Places
        ensures { result ≡ [] }
    {
        Places {
            told: Told::new(),
            stored: Vec::new(alloc),
            whole: true,
        }
    }

    // Adds a place at the end.
    pub(crate) fn push(&mut self, place: u64)
        ensures { self.new ≡ self.old ++ place ∷ [] }
    {
        self.told.push(&place);
        self.whole = store(self.whole, &mut self.stored, place);
    }

    // The places, if all of them are stored.
    fn stored(&self) -> Option<&[u64]>
        ensures { IfSome result (λ places. places.now ≡ self.now) }
    {
        if self.whole {
            Some(self.stored.as_slice())
        } else {
            None
        }
    }
}

/// The places of the calls of each pass. Its model is one list for each pass.
#[derive(Drop)]
pub struct Calls {
    pub(crate) lists: Vec<Places>,
}

impl Model for Calls {
    ghost use Rattle.std.specs.Prelude.{List, ℕ};

    ghost Value = { List (List ℕ) };

    ghost view = { λ c. c.lists.items };
}

impl Calls {
    pub(crate) fn from_lists(lists: Vec<Places>) -> Calls
        ensures { result ≡ lists.items }
    {
        Calls { lists }
    }

    /// The number of passes.
    pub fn passes(&self) -> usize
        ensures { result ≡ length self.now }
    {
        self.lists.len()
    }

    /// The places of the calls of this pass, in their order. Passes count from 0, places from 1. `None` if they are not stored: one
    /// of them is above 262,144, as only a history that lasts has, or memory ran out. Contracts see them in any case.
    pub fn of(&self, pass: usize) -> Option<&[u64]>
        requires { pass < length self.now }
        ensures { IfSome result (λ places. slice_get self.now pass ≡ Some places.now) }
    {
        let places = self.lists[pass].stored()?;
        Some(places)
    }
}

/// What remains of a store.
#[derive(Drop)]
pub struct Closed<C: Drop> {
    /// The core, after the last entry.
    pub core: C,
    /// The entries that each pass made.
    pub calls: Calls,
}
