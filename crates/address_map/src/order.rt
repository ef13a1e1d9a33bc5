//! The order of the slots, by which an address is found at its place.

ghost use Rattle.std.specs.Prelude.{◌≡◌, ◌<◌, ◌≤◌, ◌+◌, ◌-◌, ◌^◌, ◌++◌, ◌∷◌, ◌↔◌, [], ℕ, List, length, is_some, slice_get};
ghost use Rattle.std.specs.Prelude.{filter, insert, min, take, vec_len, vec_capacity, IsTrue, Some, OnOk};
ghost use Rattle.std.specs.List.{range_with_len};
ghost use Rattle.address_map.specs.Slots.{Slots, slot_at, entries_in, holes_from, past, with_place, Rises, place_in};
ghost use Rattle.address_map.specs.Slots.{EndsWith, IsListed, MayList, TakesOut};

use crate::map::Slot;
use mac_frame::{MacAddr, NoMemory};
use std::alloc::Global;

/// How many places of a row may be gone.
const MOST_GONE: usize = 64;

/// How many slots are looked at one after another at most: if there are more, a row of them is kept.
const FEW_SLOTS: usize = 16;

/// The slots that have an entry, in their order.
///
/// They stand in a row, once there are more than a few. If the entry of the last slot leaves, the slot leaves the
/// row. If another does, its slot stays in the row and its place there is noted as gone; if too many are gone, all
/// are taken out of the row at once, from the first of them on. So no more moves than what stands after one that left,
/// and that once for all that are gone. A place among the entries is found by a search of the few that are gone.
#[derive(Drop)]
pub(crate) struct Order {
    // in ascending order, the slots that have an entry and those whose places here are gone; none if they are few
    pub(crate) row: Vec<usize>,
    // the places in the row whose slots have no entry any more, in ascending order
    pub(crate) gone: Vec<usize>,
}

impl Order {
    /// No slot. It takes no memory.
    pub(crate) fn new(alloc: Global) -> Order
        ensures row { result.row.items ≡ [] }
        ensures gone { result.gone.items ≡ [] }
    {
        Order {
            row: Vec::new(alloc),
            gone: Vec::new(alloc),
        }
    }

    /// The entry at a place, from 0.
    pub(crate) fn entry_at<V: Copy>(&self, slots: &[Slot<V>], place: usize) -> Option<(MacAddr, V)>
        requires listed { MayList self.now.row.items self.now.gone.items slots.now }
        requires place { place < length (entries_in slots.now) }
        ensures { result ≡ slice_get (entries_in slots.now) place }
    {
        let row = self.row.as_slice();
        if row.len() == 0 {
            return nth(slots, place);
        }
        let slot = *row.get(past(self.gone.as_slice(), place))?;
        entry_in(slots, slot)
    }

    /// Makes room for one slot more, and lists all if they are few no longer. After `NoMemory` nothing has changed.
    pub(crate) fn make_room<V: Copy>(&mut self, slots: &[Slot<V>]) -> Result<(), NoMemory>
        ensures listed { MayList self.old.row.items self.old.gone.items slots.now
            → MayList self.new.row.items self.new.gone.items slots.now }
        ensures room { OnOk result (0 < length self.new.row.items → vec_len self.new.row < vec_capacity self.new.row) }
    {
        if self.row.is_empty() {
            if slots.len() < FEW_SLOTS {
                return Ok(());
            }
            self.list_all(slots)?;
        }
        self.row.reserve(1)?;
        Ok(())
    }

    /// Lists all slots that have an entry, if none is listed. After `NoMemory` nothing has changed.
    fn list_all<V: Copy>(&mut self, slots: &[Slot<V>]) -> Result<(), NoMemory>
        requires { self.old.row.items ≡ [] }
        ensures { MayList self.new.row.items self.new.gone.items slots.now }
    {
        // so that an entry leaves without memory
        self.gone.reserve(MOST_GONE)?;
        self.row.resize(slots.len(), 0)?;
        self.number(slots.len());
        self.list_entries(slots);
        Ok(())
    }

    /// Lists a slot after the others, if any are listed.
    pub(crate) fn push_reserved(&mut self, slot: usize)
        requires { 0 < length self.old.row.items → vec_len self.old.row < vec_capacity self.old.row }
        ensures some { 0 < length self.old.row.items → self.new.row.items ≡ self.old.row.items ++ slot ∷ [] }
        ensures none { length self.old.row.items ≡ 0 → self.new.row.items ≡ [] }
        ensures gone { self.new.gone ≡ self.old.gone }
    {
        if !self.row.is_empty() {
            self.row.push_reserved(slot);
        }
    }

    /// Whether the slots stand in a row: they do if there are more than a few.
    pub(crate) fn has_row(&self) -> bool
        ensures { IsTrue result ↔ (0 < length self.now.row.items) }
    {
        !self.row.is_empty()
    }

    /// Whether a slot stands last in the row, or none does.
    pub(crate) fn ends_with(&self, slot: usize) -> bool
        ensures { IsTrue result → EndsWith slot self.now.row.items }
    {
        match self.row.last() {
            Some(listed) => *listed == slot,
            None => true,
        }
    }

    /// The slot that stands last in the row, if any does, is there no more.
    pub(crate) fn pop(&mut self)
        ensures row { self.new.row.items ≡ take (length self.old.row.items - 1) self.old.row.items }
        ensures gone { self.new.gone ≡ self.old.gone }
    {
        self.row.pop();
    }

    /// No slot is there any more.
    pub(crate) fn clear(&mut self)
        ensures row { self.new.row.items ≡ [] }
        ensures gone { self.new.gone.items ≡ [] }
    {
        self.row.clear();
        self.gone.clear();
    }

    /// An entry left a slot, which is a hole among these slots.
    pub(crate) fn leave<V: Copy>(&mut self, slots: &[Slot<V>], slot: usize)
        ensures { (before : Slots V) → TakesOut slot before slots.now
            → MayList self.old.row.items self.old.gone.items before
            → MayList self.new.row.items self.new.gone.items slots.now }
    {
        let at = self.row.as_slice().partition_point(|listed| *listed < slot);
        if !self.note(at, slot) {
            self.list_entries(slots);
        } else if self.gone.len() >= MOST_GONE {
            self.drop_gone(slots);
        }
    }

    /// Takes all places that are gone out of the row.
    fn drop_gone<V: Copy>(&mut self, slots: &[Slot<V>])
        ensures { IsListed self.old.row.items self.old.gone.items slots.now
            → IsListed self.new.row.items self.new.gone.items slots.now }
    {
        let Some(first) = self.gone.first() else {
            return;
        };
        let first = *first;
        let len = move_together(self.row.as_mut_slice(), slots, first);
        self.row.truncate(len);
        self.gone.clear();
    }

    /// Notes the place of a slot in the row as gone, and answers whether it did: not if it isn't there, or if there
    /// is no room.
    fn note(&mut self, at: usize, slot: usize) -> bool
        ensures row { self.new.row ≡ self.old.row }
        ensures place { IsTrue result → slice_get self.old.row.items at ≡ Some slot }
        ensures noted { IsTrue result → Rises 0 self.old.gone.items
            → self.new.gone.items ≡ with_place at self.old.gone.items }
    {
        match self.row.get(at) {
            Some(listed) if *listed == slot => add_place(&mut self.gone, at),
            _ => false,
        }
    }

    /// Takes out of the row the slots that have no entry.
    pub(crate) fn list_entries<V: Copy>(&mut self, slots: &[Slot<V>])
        ensures row { self.new.row.items ≡ filter (λ slot. is_some (slot_at slots.now slot)) self.old.row.items }
        ensures gone { self.new.gone.items ≡ [] }
    {
        self.row.retain(|slot| entry_in(slots, *slot).is_some());
        self.gone.clear();
    }

    /// Lists the slots of so many entries, each of which has the slot of its place, if any are listed.
    pub(crate) fn number(&mut self, len: usize)
        ensures row { self.new.row.items ≡ range_with_len 0 (min len (length self.old.row.items)) }
        ensures gone { self.new.gone.items ≡ [] }
    {
        self.row.truncate(len);
        number(self.row.as_mut_slice());
        self.gone.clear();
    }
}

/// The entry that `n` others stand before.
fn nth<V: Copy>(slots: &[Slot<V>], n: usize) -> Option<(MacAddr, V)>
    ensures { result ≡ slice_get (entries_in slots.now) n }
{
    let mut left = n;
    for slot in slots {
        if let Some(entry) = slot {
            if left == 0 {
                return Some(*entry);
            }
            left -= 1;
        }
    }
    None
}

/// The entry in the slot of a number, if there is one.
pub(crate) fn entry_in<V: Copy>(slots: &[Slot<V>], slot: usize) -> Option<(MacAddr, V)>
    ensures { result ≡ slot_at slots.now slot }
{
    *slots.get(slot)?
}

/// The place in a row of the slot that `place` others stand before, if the places in `gone`, which rise, don't count.
///
/// Before the place `gone[k]` stand `gone[k] - k` that count. So the slot comes after `gone[k]` exactly if that is at
/// most `place`, and one place further on for each such `k`. These numbers never fall, so how many there are is found by
/// halves.
fn past(gone: &[usize], place: usize) -> usize
    requires few { place + length gone.now < 2 ^ 64 }
    requires rising { Rises 0 gone.now }
    ensures { result ≡ past gone.now place }
{
    let mut low = 0;
    let mut high = gone.len();
    while low < high {
        let middle = low + (high - low) / 2;
        if gone[middle] <= place + middle {
            low = middle + 1;
        } else {
            high = middle;
        }
    }
    place + low
}

/// The place in a row, which rises, of a slot that stands in it: this one, or else it is found by halves.
pub(crate) fn place_in(row: &[usize], slot: usize, guess: usize) -> usize
    requires rising { Rises 0 row.now }
    requires there { slice_get row.now (place_in row.now slot) ≡ Some slot }
    ensures place { result ≡ place_in row.now slot }
    ensures within { result < length row.now }
{
    if stands_at(row, slot, guess) {
        return guess;
    }
    row.binary_search(&slot).unwrap()
}

/// Whether a slot stands at a place in a row.
fn stands_at(row: &[usize], slot: usize, place: usize) -> bool
    ensures { IsTrue result → slice_get row.now place ≡ Some slot }
{
    match row.get(place) {
        Some(listed) => *listed == slot,
        None => false,
    }
}

/// Moves the slots that have an entry to the front of a row, from a place on, before which each has one, and answers
/// how many these are.
fn move_together<V: Copy>(row: &mut [usize], slots: &[Slot<V>], first: usize) -> usize
    ensures len { length row.new ≡ length row.old }
    ensures few { result ≤ length row.new }
    ensures kept { filter (λ slot. is_some (slot_at slots.now slot)) (take first row.old) ≡ take first row.old
        → take result row.new ≡ filter (λ slot. is_some (slot_at slots.now slot)) row.old }
{
    let mut kept = first.min(row.len());
    for place in kept..row.len() {
        let slot = row[place];
        if entry_in(slots, slot).is_some() {
            row[kept] = slot;
            kept += 1;
        }
    }
    kept
}

/// Puts a place among others, which stand in ascending order, if there is room, and answers whether it did.
fn add_place(places: &mut Vec<usize>, place: usize) -> bool
    ensures { IsTrue result → Rises 0 places.old.items
        → places.new.items ≡ with_place place places.old.items }
{
    if places.len() >= places.capacity() {
        return false;
    }
    let before = count_before(places.as_slice(), place);
    places.insert(before, place).is_ok()
}

/// How many places stand before one, where they stand in ascending order.
fn count_before(places: &[usize], place: usize) -> usize
    ensures within { result ≤ length places.now }
    ensures place { Rises 0 places.now → with_place place places.now ≡ insert places.now result place }
{
    places.partition_point(|other| *other < place)
}

/// Gives each element its place, from 0.
fn number(row: &mut [usize])
    ensures { row.new ≡ range_with_len 0 (length row.old) }
{
    for place in 0..row.len() {
        row[place] = place;
    }
}
