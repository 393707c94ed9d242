// Values in slots, and which slots are free.

ghost use Rattle.std.specs.Prelude.{◌≡◌, ◌+◌, ◌<◌, ◌≤◌, [], OnOk, Some, None, option_copied};
ghost use Rattle.std.specs.Borrow.{sem};
ghost use Rattle.held_rows.specs.SlotList.{get, HasValue, value_count, most_slots, Changes};

use sso_base::NoMemory;
use std::alloc::Global;
use std::marker::Model;

/// Values in numbered slots. The model is the list of the slots from 0 on, each with a value or free. A new value goes to a
/// free slot, or to a new slot if none is free. So 16 bits number the slots of 65,536 values. Only `reserve` allocates.
#[derive(Drop)]
pub struct SlotVec<T> {
    slots: Vec<Option<T>>,
    // The free slots. It has room for all slots.
    free: Vec<u16>,
}

impl<T> Model for SlotVec<T> {
    ghost use Rattle.std.specs.Prelude.{min};
    ghost use Rattle.std.specs.Vec.{vec_capacity};
    ghost use Rattle.held_rows.specs.SlotList.{SlotList, IsSound};

    ghost Value = { SlotList T };

    ghost view = { λ s. record { slots = s.slots.items; capacity = min (vec_capacity s.slots) (vec_capacity s.free) } };

    ghost invariant = { λ s. IsSound s.slots.items s.free.items (vec_capacity s.free) };
}

impl<T> SlotVec<T> {
    ghost use Rattle.held_rows.specs.LentSlots.{lends_value};

    /// An empty list of slots.
    pub fn new(alloc: Global) -> SlotVec<T>
        ensures { result.slots ≡ [] }
    {
        SlotVec {
            slots: Vec::new(alloc),
            free: Vec::new(alloc),
        }
    }

    /// Makes room for one more value.
    pub fn reserve(&mut self) -> Result<(), NoMemory>
        ensures room { OnOk result (value_count self.new < self.new.capacity) }
        ensures capacity { self.old.capacity ≤ self.new.capacity }
        ensures slots { self.new ≡ record self.old { capacity = self.new.capacity } }
    {
        if !self.free.is_empty() {
            return Ok(());
        }
        self.slots.reserve(1)?;
        self.free.reserve(self.slots.len() + 1)?;
        Ok(())
    }

    /// The value in a slot; `None` if the slot is free or does not exist.
    pub fn get(&self, slot: u16) -> Option<&T>
        ensures { option_copied result ≡ get self.now slot }
    {
        match self.slots.get(slot as usize) {
            Some(Some(value)) => Some(value),
            _ => None,
        }
    }

    /// A mutable reference to the value in a slot.
    pub fn value_mut(&mut self, slot: u16) -> &mut T
        requires { HasValue self.old slot }
        ensures* writes_back { sem 𝓛 (lends_value T.row self.entry slot result) }
        ensures value { get self.old slot ≡ Some result.now }
    {
        match &mut self.slots[slot as usize] {
            Some(value) => value,
            None => unreachable!(),
        }
    }

    /// Puts a value into a free or new slot and returns the slot's number.
    pub fn insert_reserved(&mut self, value: T) -> u16
    where
        T: Drop,
        requires reserved { value_count self.old < self.old.capacity }
        requires few { value_count self.old < most_slots }
        ensures was_free { get self.old result ≡ None }
        ensures changes { Changes (get self.old) (get self.new) result (Some value) }
        ensures count { value_count self.new ≡ value_count self.old + 1 }
        ensures capacity { self.new.capacity ≡ self.old.capacity }
    {
        if let Some(slot) = self.free.pop() {
            self.slots[slot as usize] = Some(value);
            return slot;
        }
        let slot = self.slots.len() as u16;
        self.slots.push_reserved(Some(value));
        slot
    }

    /// Removes the value in a slot. The slot is free afterwards.
    pub fn remove(&mut self, slot: u16) -> T
        requires { HasValue self.old slot }
        ensures value { get self.old slot ≡ Some result }
        ensures changes { Changes (get self.old) (get self.new) slot None }
        ensures count { value_count self.new + 1 ≡ value_count self.old }
        ensures capacity { self.new.capacity ≡ self.old.capacity }
    {
        let Some(value) = self.slots[slot as usize].take() else {
            unreachable!()
        };
        self.free.push_reserved(slot);
        value
    }
}
