// The slots of the rows that have a key, each once, in the order of the key's bytes.

ghost use Rattle.std.specs.Prelude.{◌≡◌, ◌<◌, ◌≤◌, length, map, true, Some, None, unwrap_or, option_and_then, option_map, filter, IfOk, IfErr, IsSome};
ghost use Rattle.std.specs.VecDeque.{deque_capacity};
ghost use Rattle.std.specs.Str.{bytes_eq};
ghost use Rattle.std.specs.Cmp.Lexicographic.{slice_cmp};
ghost use Rattle.std.specs.Ordering.{nat_cmp};
ghost use Rattle.held_rows.specs.Index.{row_at, all_but, key_in, rank, rank_in, has_row, IsAscending, IsIndex, IsStart, IsPlace, IsGap};

use crate::row::{By, Row};
use crate::slot_vec::SlotVec;
use crate::stored::{Issued, row_in};
use std::cmp::Ordering;
use std::collections::VecDeque;

// The key of the row in a slot; `None` if the slot has no row, or the row has no such key.
pub(crate) fn key_at<R: Row>(slots: &SlotVec<Issued<R>>, by: By, slot: u16) -> Option<&[u8]>
    ensures { option_map (λ k. k.now) result ≡ key_in (R.key by) (row_at slots.now) slot }
{
    match slots.get(slot) {
        Some(issued) => issued.row.key(by),
        None => None,
    }
}

// Whether the row in a slot has this key.
pub(crate) fn is_at<R: Row>(slots: &SlotVec<Issued<R>>, by: By, slot: u16, key: &[u8]) -> bool
    ensures yes { result ≡ true → key_in (R.key by) (row_at slots.now) slot ≡ Some key.now }
    ensures no { key_in (R.key by) (row_at slots.now) slot ≡ Some key.now → result ≡ true }
{
    match key_at(slots, by, slot) {
        Some(found) => found == key,
        None => false,
    }
}

// Compares the rank of a slot with another rank.
fn compare<R: Row>(
    slots: &SlotVec<Issued<R>>,
    by: By,
    slot: u16,
    key: &[u8],
    other: u16,
) -> Ordering
    ensures { result ≡ slice_cmp nat_cmp (rank_in (R.key by) (row_at slots.now) slot) (rank key.now other) }
{
    let found = match key_at(slots, by, slot) {
        Some(found) => found,
        None => &[],
    };
    match found.cmp(key) {
        Ordering::Equal => slot.cmp(&other),
        unequal => unequal,
    }
}

// The position of the rank of these bytes and this slot, or the position to insert it.
fn search<R: Row>(
    slots: &SlotVec<Issued<R>>,
    index: &VecDeque<u16>,
    by: By,
    key: &[u8],
    slot: u16,
) -> Result<usize, usize>
    requires { IsAscending (map (rank_in (R.key by) (row_at slots.now)) index.now.items) }
    ensures found { IfOk result (IsPlace (R.key by) (row_at slots.now) index.now.items (rank key.now slot)) }
    ensures absent { IfErr result (IsGap (R.key by) (row_at slots.now) index.now.items (rank key.now slot)) }
{
    index.binary_search_by(|&other| compare(slots, by, other, key, slot))
}

// The first position of the slots of the rows with these bytes.
pub(crate) fn start<R: Row>(
    slots: &SlotVec<Issued<R>>,
    index: &VecDeque<u16>,
    by: By,
    key: &[u8],
) -> usize
    requires { IsIndex (R.key by) (row_at slots.now) index.now.items }
    ensures { IsStart (R.key by) (row_at slots.now) index.now.items key.now result }
{
    match search(slots, index, by, key, 0) {
        Ok(place) => place,
        Err(place) => place,
    }
}

// Inserts a slot, if its row has such a key.
pub(crate) fn put_in<R: Row>(
    slots: &SlotVec<Issued<R>>,
    index: &mut VecDeque<u16>,
    by: By,
    slot: u16,
)
    requires index { IsIndex (R.key by) (all_but slot (row_at slots.now)) index.old.items }
    requires reserved { length index.old.items < deque_capacity index.old }
    ensures index { IsIndex (R.key by) (row_at slots.now) index.new.items }
    ensures capacity { deque_capacity index.old ≤ deque_capacity index.new }
{
    let Some(key) = key_at(slots, by, slot) else {
        return;
    };
    let Err(place) = search(slots, index, by, key, slot) else {
        unreachable!()
    };
    let _ = index.insert(place, slot);
}

// Removes a slot, if its row has such a key.
pub(crate) fn take_from<R: Row>(
    slots: &SlotVec<Issued<R>>,
    index: &mut VecDeque<u16>,
    by: By,
    slot: u16,
)
    requires { IsIndex (R.key by) (row_at slots.now) index.old.items }
    ensures index { IsIndex (R.key by) (all_but slot (row_at slots.now)) index.new.items }
    ensures capacity { deque_capacity index.new ≡ deque_capacity index.old }
{
    let Some(key) = key_at(slots, by, slot) else {
        return;
    };
    let Ok(place) = search(slots, index, by, key, slot) else {
        unreachable!()
    };
    let _ = index.remove(place);
}

// Whether a slot has a row.
fn is_held<R>(slots: &SlotVec<Issued<R>>, slot: u16) -> bool
    ensures { result ≡ has_row slots.now slot }
{
    row_in(slots, slot).is_some()
}

// Removes the slots that have no row, in one pass.
pub(crate) fn keep_held<R>(slots: &SlotVec<Issued<R>>, index: &mut VecDeque<u16>)
    ensures items { index.new.items ≡ filter (has_row slots.now) index.old.items }
    ensures capacity { deque_capacity index.new ≡ deque_capacity index.old }
{
    index.retain(|&slot| is_held(slots, slot));
}
