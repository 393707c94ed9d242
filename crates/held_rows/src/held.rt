// The rows of one table.

ghost use Rattle.std.specs.Prelude.{◌≡◌, ◌<◌, ◌≤◌, true, false, not, [], ◌∷◌, ◌++◌, length, filter};
ghost use Rattle.std.specs.Prelude.{None, Some, Option, option_and_then, IsSome, IfSome, IfNone, OnOk};
ghost use Rattle.std.specs.List.{list_any};
ghost use Rattle.std.specs.Option.{option_copied};
ghost use Rattle.sso_base.specs.Rows.{without, put, row_of, live_rows, if_lives};
ghost use Rattle.held_rows.specs.Held as spec;

use crate::living::Living;
use crate::row::{Change, Row, Test};
use crate::stored::{Stored, row_in};
use sso_base::{Moment, NoMemory, is_live};
use std::alloc::Global;
use std::marker::Model;

// The greatest number of rows in a table.
const MOST_ROWS: usize = 65_536;

/// The rows of a table: at most 65,536, with distinct names, in the order of the moments from which they live.
#[derive(Drop)]
pub struct Held<R: Row> {
    stored: Stored<R>,
}

impl<R: Row> Model for Held<R> {
    ghost use Rattle.held_rows.specs.Held.{Rows};
    ghost use Rattle.held_rows.specs.Index.{IsStored, stored_rows, stored_capacity};

    ghost Value = { Rows R };

    ghost view = { λ h. record { rows = stored_rows h.stored; capacity = stored_capacity h.stored } };

    ghost invariant = { λ h. IsStored R.name R.key R.begun R.IsSound h.stored };
}

impl<R: Row + Drop> Held<R> {
    /// An empty table.
    pub fn new(alloc: Global) -> Held<R>
        ensures { result.rows ≡ [] }
    {
        Held {
            stored: Stored::new(alloc),
        }
    }

    /// Makes room for one more row. No other call allocates.
    pub fn reserve(&mut self) -> Result<(), NoMemory>
        ensures rows { self.new.rows ≡ self.old.rows }
        ensures room { OnOk result (length self.new.rows < self.new.capacity) }
        ensures capacity { self.old.capacity ≤ self.new.capacity }
    {
        self.stored.reserve()
    }

    /// The row of a name; `None` if and only if no row has it. The life of the row may have ended.
    pub fn find(&self, name: &[u8]) -> Option<&R>
        ensures row { option_copied result ≡ row_of R.name name.now self.now.rows }
        ensures sound { IfSome (option_copied result) R.IsSound }
        ensures held { spec.IsHeld R.name R.begun R.IsSound self.now.rows }
    {
        match self.stored.slot_of(name) {
            Some(slot) => row_in(&self.stored.slots, slot),
            None => None,
        }
    }

    /// The row of a name, if it lives at the moment; `None` if and only if no row has the name, or its life has ended.
    pub fn living(&self, name: &[u8], at: Moment) -> Option<&R>
        ensures row { option_copied result ≡ option_and_then (if_lives R.LIFE R.begun at) (row_of R.name name.now self.now.rows) }
        ensures sound { IfSome (option_copied result) R.IsSound }
        ensures held { spec.IsHeld R.name R.begun R.IsSound self.now.rows }
    {
        let Some(row) = self.find(name) else {
            return None;
        };
        if is_live(R::LIFE, row.begun(), at) {
            Some(row)
        } else {
            None
        }
    }

    /// Adds a row with a new name at the end.
    pub fn add(&mut self, row: R)
        requires reserved { length self.old.rows < self.old.capacity }
        requires few { length self.old.rows < spec.most_rows }
        requires unnamed { row_of R.name (R.name row) self.old.rows ≡ None }
        requires latest { spec.none_after R.begun (R.begun row) self.old.rows ≡ true }
        requires sound { R.IsSound row }
        ensures { self.new ≡ record self.old { rows = self.old.rows ++ row ∷ [] } }
    {
        self.stored.add(row);
    }

    /// Changes the row of a name in its place. If no row has the name, nothing changes.
    pub fn change<C: Change<R>>(&mut self, name: &[u8], change: &C)
        ensures rows { self.new ≡ record self.old { rows = spec.changed R.name name.now (C.changed change.now) self.old.rows } }
        ensures bound { length self.new.rows ≤ length self.old.rows }
    {
        if let Some(slot) = self.stored.slot_of(name) {
            self.stored.change(slot, change);
        }
    }

    /// Replaces the row of this name and moves it to the end. A row of this name must exist, so no memory is allocated.
    pub fn put(&mut self, name: &[u8], row: R)
        requires there { IsSome (row_of R.name name.now self.old.rows) }
        requires named { R.name row ≡ name.now }
        requires latest { spec.none_after R.begun (R.begun row) self.old.rows ≡ true }
        requires sound { R.IsSound row }
        ensures rows { self.new ≡ record self.old { rows = put R.name (Some row) self.old.rows } }
        ensures bound { length self.new.rows ≤ length self.old.rows }
    {
        let Some(slot) = self.stored.slot_of(name) else {
            unreachable!()
        };
        self.stored.remove(slot);
        self.add(row);
    }

    /// Removes the row of a name, if there is one.
    pub fn remove(&mut self, name: &[u8])
        ensures rows { self.new ≡ record self.old { rows = without R.name name.now self.old.rows } }
        ensures bound { length self.new.rows ≤ length self.old.rows }
    {
        if let Some(held) = self.stored.slot_of(name) {
            self.stored.remove(held);
        }
    }

    /// Removes the rows that pass the test and returns their number.
    pub fn take_out<T: Test<R>>(&mut self, test: &T) -> u32
        ensures rows { self.new ≡ record self.old { rows = filter (λ row. not (T.passes test.now row)) self.old.rows } }
        ensures bound { length self.new.rows ≤ length self.old.rows }
        ensures count { result ≡ length (filter (T.passes test.now) self.old.rows) }
    {
        self.stored.take_out(test)
    }

    /// Removes the rows that do not live at the moment.
    pub fn purge(&mut self, at: Moment)
        ensures rows { self.new ≡ record self.old { rows = live_rows R.LIFE R.begun at self.old.rows } }
        ensures bound { length self.new.rows ≤ length self.old.rows }
    {
        self.stored.purge(at);
    }

    /// How many rows there are, those whose life has ended too.
    pub fn len(&self) -> usize
        ensures { result ≡ length self.now.rows }
    {
        self.stored.by_issue.len()
    }

    /// A row that passes the test; `None` if and only if no row does.
    pub fn passing<T: Test<R>>(&self, test: &T) -> Option<&R>
        ensures some { IfSome (option_copied result) (spec.IsPassing R.name (T.passes test.now) self.now.rows) }
        ensures none { IfNone (option_copied result) (list_any (T.passes test.now) self.now.rows ≡ false) }
        ensures held { spec.IsHeld R.name R.begun R.IsSound self.now.rows }
    {
        match self.stored.passing(test) {
            Some(slot) => row_in(&self.stored.slots, slot),
            None => None,
        }
    }

    /// A row whose life has ended at the moment; `None` if and only if all rows live. It is the first row.
    pub fn ended(&self, at: Moment) -> Option<&R>
        ensures some { IfSome (option_copied result) (spec.IsOver R.name R.LIFE R.begun at self.now.rows) }
        ensures none { IfNone (option_copied result) (live_rows R.LIFE R.begun at self.now.rows ≡ self.now.rows) }
        ensures held { spec.IsHeld R.name R.begun R.IsSound self.now.rows }
    {
        match self.stored.ended(at) {
            Some(slot) => row_in(&self.stored.slots, slot),
            None => None,
        }
    }

    /// Whether some row passes the test and lives at the moment.
    pub fn any_live<T: Test<R>>(&self, test: &T, at: Moment) -> bool
        ensures { result ≡ list_any (T.passes test.now) (live_rows R.LIFE R.begun at self.now.rows) }
    {
        self.stored.passing(&Living { test, at }).is_some()
    }

    /// How many rows pass the test and live at the moment.
    pub fn count_live<T: Test<R>>(&self, test: &T, at: Moment) -> u32
        ensures { result ≡ length (filter (T.passes test.now) (live_rows R.LIFE R.begun at self.now.rows)) }
    {
        self.stored.count(&Living { test, at })
    }

    /// How many rows live at the moment.
    pub fn count_all_live(&self, at: Moment) -> u32
        ensures { result ≡ length (live_rows R.LIFE R.begun at self.now.rows) }
    {
        self.stored.count_all_live(at)
    }

    /// Whether fewer than 65,536 rows live at the moment. It is false if and only if 65,536 rows are held and all of them live.
    pub fn has_room(&self, at: Moment) -> bool
        ensures room { result ≡ spec.has_room_for_one R.LIFE R.begun at self.now.rows }
        ensures full { result ≡ false → spec.IsFull R.LIFE R.begun at self.now.rows }
        ensures most { spec.IsFull R.LIFE R.begun at self.now.rows → result ≡ false }
    {
        self.stored.by_issue.len() < MOST_ROWS || self.stored.ended(at).is_some()
    }
}
