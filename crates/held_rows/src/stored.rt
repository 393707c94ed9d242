// Rows in slots, and deques of slot numbers over them: one in the order of issue, and one for each key, in the order of the
// key's bytes.

ghost use Rattle.std.specs.Prelude.{◌≡◌, ◌+◌, ◌<◌, ◌≤◌, ℕ, [], ◌∷◌, ◌++◌, length, map, filter, not, slice_index, Some, None, true};
ghost use Rattle.std.specs.Prelude.{option_copied, OnOk, IfSome, IfNone, IsSome, is_some};
ghost use Rattle.std.specs.List.{list_any};
ghost use Rattle.sso_base.specs.Rows.{row_of, live_rows};
ghost use Rattle.held_rows.specs.Held as spec;
ghost use Rattle.held_rows.specs.Counts.{Lists};
ghost use Rattle.held_rows.specs.Index.{row_at, serial_at, IsIndex, IsRising, IsStored, IsRemoved, IsReplaced, stored_rows, stored_capacity};
ghost use Rattle.held_rows.specs.Index.{rows_at, left, hit, IsEmptied, IsRowAt, IsOverAt};
ghost use Rattle.held_rows.specs.SlotList.{HasValue, get, value_count};

use crate::index::{is_at, keep_held, put_in, start, take_from};
use crate::row::{By, Change, Row, Test};
use crate::slot_vec::SlotVec;
use sso_base::{Moment, NoMemory, is_live};
use std::alloc::Global;
use std::collections::VecDeque;

// At most so many rows are removed one after the other. Then a pass over all rows takes about as long.
const FEW_ROWS: u32 = 256;

// A row and its place in the order of issue.
#[derive(Drop)]
pub(crate) struct Issued<R> {
    // Of two rows, the one with the lower number was added first. At the end of its type the number stays constant.
    pub(crate) serial: u64,
    pub(crate) row: R,
}

// Rows in slots, with their indices.
#[derive(Drop)]
pub(crate) struct Stored<R> {
    pub(crate) slots: SlotVec<Issued<R>>,
    // The slots of the rows, in the order of issue. Mostly the first rows leave.
    pub(crate) by_issue: VecDeque<u16>,
    // The slots of the rows, in the order of their names. Inserting or removing a row moves the shorter side.
    pub(crate) by_name: VecDeque<u16>,
    // The slots of the rows that have another key, in the order of its bytes.
    pub(crate) by_group: VecDeque<u16>,
    pub(crate) by_other: VecDeque<u16>,
    // The serial number of the next row.
    pub(crate) next: u64,
    // The number of rows that there is memory for. A deque's contract only says that its capacity does not shrink when a slot
    // is inserted.
    pub(crate) room: usize,
}

// The row in a slot.
pub(crate) fn row_in<R>(slots: &SlotVec<Issued<R>>, slot: u16) -> Option<&R>
    ensures { option_copied result ≡ row_at slots.now slot }
{
    match slots.get(slot) {
        Some(issued) => Some(&issued.row),
        None => None,
    }
}

// The serial number of the row in a slot.
fn serial_in<R>(slots: &SlotVec<Issued<R>>, slot: u16) -> u64
    ensures { result ≡ serial_at slots.now slot }
{
    match slots.get(slot) {
        Some(issued) => issued.serial,
        None => 0,
    }
}

// The position of a slot in the order of issue, which is the order of serial numbers. Rows share a number only at the end of
// its type, so otherwise the loop ends at its first step.
fn place_of<R>(slots: &SlotVec<Issued<R>>, by_issue: &VecDeque<u16>, slot: u16) -> usize
    requires issued { Lists (row_at slots.now) by_issue.now.items }
    requires numbered { IsRising (map (serial_at slots.now) by_issue.now.items) }
    requires row { HasValue slots.now slot }
    ensures in_range { result < length by_issue.now.items }
    ensures slot { slice_index by_issue.now.items result ≡ slot }
{
    let serial = serial_in(slots, slot);
    let first = by_issue.partition_point(|&other| serial_in(slots, other) < serial);
    for place in first..by_issue.len() {
        if by_issue[place] == slot {
            return place;
        }
    }
    unreachable!()
}

// Whether the row in a slot passes the test.
fn passes_in<R: Row, T: Test<R>>(slots: &SlotVec<Issued<R>>, slot: u16, test: &T) -> bool
    ensures { result ≡ hit (T.passes test.now) (row_at slots.now) slot }
{
    match row_in(slots, slot) {
        Some(row) => test.passes(row),
        None => false,
    }
}

// Removes the row in a slot, if it passes the test, and returns whether it does as a number. The indices still have the slot.
fn empty_slot<R: Row + Drop, T: Test<R>>(slots: &mut SlotVec<Issued<R>>, slot: u16, test: &T) -> u32
    ensures { IsEmptied (T.passes test.now) slots.old slots.new slot result }
{
    if !passes_in(slots, slot, test) {
        return 0;
    }
    let _ = slots.remove(slot);
    1
}

// Removes the rows that pass the test from their slots, and returns their number. The indices still have these slots.
fn empty_slots<R: Row + Drop, T: Test<R>>(
    slots: &mut SlotVec<Issued<R>>,
    by_issue: &VecDeque<u16>,
    test: &T,
) -> u32
    requires issued { Lists (row_at slots.old) by_issue.now.items }
    requires few { length by_issue.now.items ≤ spec.most_rows }
    ensures left { (slot : ℕ) → get slots.new slot ≡ left (T.passes test.now) (get slots.old slot) }
    ensures count { result ≡ length (filter (T.passes test.now) (rows_at slots.old by_issue.now.items)) }
    ensures values { value_count slots.new + result ≡ value_count slots.old }
    ensures capacity { slots.new.capacity ≡ slots.old.capacity }
{
    let mut count = 0;
    for place in 0..by_issue.len() {
        let slot = by_issue[place];
        let emptied = empty_slot(slots, slot, test);
        count += emptied;
    }
    count
}

impl<R: Row + Drop> Stored<R> {
    // An empty table.
    pub(crate) fn new(alloc: Global) -> Stored<R>
        ensures stored { IsStored R.name R.key R.begun R.IsSound result }
        ensures rows { stored_rows result ≡ [] }
    {
        Stored {
            slots: SlotVec::new(alloc),
            by_issue: VecDeque::new(alloc),
            by_name: VecDeque::new(alloc),
            by_group: VecDeque::new(alloc),
            by_other: VecDeque::new(alloc),
            next: 0,
            room: 0,
        }
    }

    // Makes room for one more row.
    pub(crate) fn reserve(&mut self) -> Result<(), NoMemory>
        requires { IsStored R.name R.key R.begun R.IsSound self.old }
        ensures stored { IsStored R.name R.key R.begun R.IsSound self.new }
        ensures rows { stored_rows self.new ≡ stored_rows self.old }
        ensures room { OnOk result (length (stored_rows self.new) < stored_capacity self.new) }
        ensures capacity { stored_capacity self.old ≤ stored_capacity self.new }
    {
        let most = self.by_issue.len() + 1;
        if most <= self.room {
            return Ok(());
        }
        self.slots.reserve()?;
        self.by_issue.reserve(1)?;
        self.by_name.reserve(most - self.by_name.len())?;
        self.by_group.reserve(most - self.by_group.len())?;
        self.by_other.reserve(most - self.by_other.len())?;
        self.room = most;
        Ok(())
    }

    // Adds a row with a new name at the end.
    pub(crate) fn add(&mut self, row: R)
        requires stored { IsStored R.name R.key R.begun R.IsSound self.old }
        requires reserved { length (stored_rows self.old) < stored_capacity self.old }
        requires few { length (stored_rows self.old) < spec.most_rows }
        requires unnamed { row_of R.name (R.name row) (stored_rows self.old) ≡ None }
        requires latest { spec.none_after R.begun (R.begun row) (stored_rows self.old) ≡ true }
        requires sound { R.IsSound row }
        ensures stored { IsStored R.name R.key R.begun R.IsSound self.new }
        ensures rows { stored_rows self.new ≡ stored_rows self.old ++ row ∷ [] }
        ensures capacity { stored_capacity self.new ≡ stored_capacity self.old }
    {
        let serial = self.next;
        self.next = serial.saturating_add(1);
        let slot = self.slots.insert_reserved(Issued { serial, row });
        self.by_issue.push_back_reserved(slot);
        put_in(&self.slots, &mut self.by_name, By::Name, slot);
        put_in(&self.slots, &mut self.by_group, By::Group, slot);
        put_in(&self.slots, &mut self.by_other, By::OtherGroup, slot);
    }

    // Removes the row in a slot.
    pub(crate) fn remove(&mut self, slot: u16)
        requires stored { IsStored R.name R.key R.begun R.IsSound self.old }
        requires there { IsSome (row_at self.old.slots slot) }
        ensures stored { IsStored R.name R.key R.begun R.IsSound self.new }
        ensures row { IfSome (row_at self.old.slots slot) (IsRemoved (stored_rows self.old) (stored_rows self.new)) }
        ensures capacity { stored_capacity self.new ≡ stored_capacity self.old }
    {
        take_from(&self.slots, &mut self.by_name, By::Name, slot);
        take_from(&self.slots, &mut self.by_group, By::Group, slot);
        take_from(&self.slots, &mut self.by_other, By::OtherGroup, slot);
        let place = place_of(&self.slots, &self.by_issue, slot);
        let _ = self.by_issue.remove(place);
        self.slots.remove(slot);
    }

    // Changes the row in a slot.
    pub(crate) fn change<C: Change<R>>(&mut self, slot: u16, change: &C)
        requires stored { IsStored R.name R.key R.begun R.IsSound self.old }
        requires there { IsSome (row_at self.old.slots slot) }
        ensures stored { IsStored R.name R.key R.begun R.IsSound self.new }
        ensures row { IfSome (row_at self.old.slots slot) (λ row. IsReplaced (stored_rows self.old) (stored_rows self.new) row (C.changed change.now row)) }
        ensures capacity { stored_capacity self.new ≡ stored_capacity self.old }
    {
        let issued = self.slots.value_mut(slot);
        change.change(&mut issued.row);
    }

    // The slot of the row of a name.
    pub(crate) fn slot_of(&self, name: &[u8]) -> Option<u16>
        requires { IsStored R.name R.key R.begun R.IsSound self.now }
        ensures some { IfSome result (λ slot. IsRowAt self.now slot (row_of R.name name.now (stored_rows self.now))) }
        ensures none { IfNone result (row_of R.name name.now (stored_rows self.now) ≡ None) }
    {
        let place = start(&self.slots, &self.by_name, By::Name, name);
        let slot = *self.by_name.get(place)?;
        if is_at(&self.slots, By::Name, slot, name) {
            Some(slot)
        } else {
            None
        }
    }

    // The slots of the rows that have this key, in the order of its bytes.
    fn index(&self, by: By) -> &VecDeque<u16>
        requires { IsStored R.name R.key R.begun R.IsSound self.now }
        ensures { IsIndex (R.key by) (row_at self.now.slots) result.now.items }
    {
        match by {
            By::Name => &self.by_name,
            By::Group => &self.by_group,
            By::OtherGroup => &self.by_other,
        }
    }

    // The slot of a row that passes the test, if one does.
    pub(crate) fn passing<T: Test<R>>(&self, test: &T) -> Option<u16>
        requires { IsStored R.name R.key R.begun R.IsSound self.now }
        ensures some { IfSome result (λ slot. IsSome (row_at self.now.slots slot) × IfSome (row_at self.now.slots slot) (λ row. T.passes test.now row ≡ true)) }
        ensures any { is_some result ≡ list_any (T.passes test.now) (stored_rows self.now) }
    {
        let by = test.by();
        let key = test.key();
        let index = self.index(by);
        let first = start(&self.slots, index, by, key);
        for place in first..index.len() {
            let slot = index[place];
            if !is_at(&self.slots, by, slot, key) {
                return None;
            }
            if let Some(row) = row_in(&self.slots, slot)
                && test.passes(row)
            {
                return Some(slot);
            }
        }
        None
    }

    // How many rows pass the test.
    pub(crate) fn count<T: Test<R>>(&self, test: &T) -> u32
        requires { IsStored R.name R.key R.begun R.IsSound self.now }
        ensures { result ≡ length (filter (T.passes test.now) (stored_rows self.now)) }
    {
        let by = test.by();
        let key = test.key();
        let index = self.index(by);
        let first = start(&self.slots, index, by, key);
        let mut count = 0;
        for place in first..index.len() {
            let slot = index[place];
            if !is_at(&self.slots, by, slot, key) {
                return count;
            }
            if let Some(row) = row_in(&self.slots, slot)
                && test.passes(row)
            {
                count += 1;
            }
        }
        count
    }

    // How many rows live at the moment.
    pub(crate) fn count_all_live(&self, at: Moment) -> u32
        requires { IsStored R.name R.key R.begun R.IsSound self.now }
        ensures { result ≡ length (live_rows R.LIFE R.begun at (stored_rows self.now)) }
    {
        let mut count = 0;
        for &slot in &self.by_issue {
            if let Some(row) = row_in(&self.slots, slot)
                && is_live(R::LIFE, row.begun(), at)
            {
                count += 1;
            }
        }
        count
    }

    // The slot of a row whose life has ended at the moment, if there is one. It is the slot of the first row.
    pub(crate) fn ended(&self, at: Moment) -> Option<u16>
        requires { IsStored R.name R.key R.begun R.IsSound self.now }
        ensures some { IfSome result (λ slot. IsOverAt self.now slot R.LIFE R.begun at) }
        ensures none { IfNone result (live_rows R.LIFE R.begun at (stored_rows self.now) ≡ stored_rows self.now) }
    {
        let slot = *self.by_issue.front()?;
        match row_in(&self.slots, slot) {
            Some(row) if is_live(R::LIFE, row.begun(), at) => None,
            Some(_) => Some(slot),
            None => None,
        }
    }

    // Removes the rows that pass the test, one after the other, and returns their number.
    fn take_each<T: Test<R>>(&mut self, test: &T) -> u32
        requires { IsStored R.name R.key R.begun R.IsSound self.old }
        ensures stored { IsStored R.name R.key R.begun R.IsSound self.new }
        ensures rows { stored_rows self.new ≡ filter (λ row. not (T.passes test.now row)) (stored_rows self.old) }
        ensures count { result ≡ length (filter (T.passes test.now) (stored_rows self.old)) }
        ensures capacity { stored_capacity self.new ≡ stored_capacity self.old }
    {
        let mut count = 0;
        while let Some(slot) = self.passing(test) {
            self.remove(slot);
            count += 1;
        }
        count
    }

    // The same in one pass over the rows, and one over each index.
    fn take_all<T: Test<R>>(&mut self, test: &T) -> u32
        requires { IsStored R.name R.key R.begun R.IsSound self.old }
        ensures stored { IsStored R.name R.key R.begun R.IsSound self.new }
        ensures rows { stored_rows self.new ≡ filter (λ row. not (T.passes test.now row)) (stored_rows self.old) }
        ensures count { result ≡ length (filter (T.passes test.now) (stored_rows self.old)) }
        ensures capacity { stored_capacity self.new ≡ stored_capacity self.old }
    {
        let count = empty_slots(&mut self.slots, &self.by_issue, test);
        keep_held(&self.slots, &mut self.by_issue);
        keep_held(&self.slots, &mut self.by_name);
        keep_held(&self.slots, &mut self.by_group);
        keep_held(&self.slots, &mut self.by_other);
        count
    }

    // Removes the rows that pass the test and returns their number. Few rows are removed one after the other, each of which
    // moves a part of each index; many are removed in one pass.
    pub(crate) fn take_out<T: Test<R>>(&mut self, test: &T) -> u32
        requires { IsStored R.name R.key R.begun R.IsSound self.old }
        ensures stored { IsStored R.name R.key R.begun R.IsSound self.new }
        ensures rows { stored_rows self.new ≡ filter (λ row. not (T.passes test.now row)) (stored_rows self.old) }
        ensures count { result ≡ length (filter (T.passes test.now) (stored_rows self.old)) }
        ensures capacity { stored_capacity self.new ≡ stored_capacity self.old }
    {
        if self.count(test) <= FEW_ROWS {
            self.take_each(test)
        } else {
            self.take_all(test)
        }
    }

    // Removes the rows that do not live at the moment.
    pub(crate) fn purge(&mut self, at: Moment)
        requires { IsStored R.name R.key R.begun R.IsSound self.old }
        ensures stored { IsStored R.name R.key R.begun R.IsSound self.new }
        ensures rows { stored_rows self.new ≡ live_rows R.LIFE R.begun at (stored_rows self.old) }
        ensures capacity { stored_capacity self.new ≡ stored_capacity self.old }
    {
        while let Some(slot) = self.ended(at) {
            self.remove(slot);
        }
    }
}
