//! The addresses with their values, each found by its hash.
//!
//! An address stands in a slot, in the order in which they came. If the one in the last slot is taken out the slot
//! goes with it, and any other leaves a hole, so that no address moves. If holes are many the others are moved
//! together: that takes no memory, and a few steps for each address that left.

ghost use Rattle.std.specs.Prelude.{◌≡◌, ◌<◌, ◌≤◌, ◌++◌, ◌∷◌, [], ℕ, List, length, slice_get, Some, None};
ghost use Rattle.std.specs.Prelude.{OnOk, OnErr, IfOk, IfSome, IfNone, option_map};
ghost use Rattle.std.specs.Map.{set_value, remove_entry};
ghost use Rattle.std.specs.Str.{bytes_eq};
ghost use Rattle.address_map.specs.Entries.{value_of, with_entry, AreApart};
ghost use Rattle.address_map.specs.Slots.{entries_in, IsAt, AreFound, IsListed, MayList, Rises, AreIn, with_places};

use crate::address_key::AddressKey;
use crate::order::{Order, entry_in, place_in};
use address_hash::AddressHashes;
use indexmap::IndexMap;
use mac_frame::{MacAddr, NoMemory};
use std::alloc::Global;
use std::marker::Model;

/// How many holes are few, unless no slot has an address.
const FEW_HOLES: usize = 64;

/// The slot of each address.
type Index = IndexMap<AddressKey, usize, AddressHashes>;

/// An address with its value, or the hole where one was.
pub(crate) type Slot<V> = Option<(MacAddr, V)>;

/// Addresses with their values, in the order in which they came. Contracts see this list.
#[derive(Drop)]
pub struct AddressMap<V> {
    // the slot of each address
    index: Index,
    slots: Vec<Slot<V>>,
    // how many slots are holes
    holes: usize,
    // the slots that have an address, in their order
    order: Order,
}

impl<V> Model for AddressMap<V> {
    ghost use Rattle.address_map.specs.Entries.{Entries};
    ghost use Rattle.address_map.specs.Slots.{entries_in, IsAddressMap};

    ghost Value = { Entries V };

    ghost view = { λ m. entries_in m.slots.items };

    ghost invariant = { λ m.
        IsAddressMap m.index.entries m.slots.items m.holes m.order.row.items m.order.gone.items };
}

impl<V: Copy> AddressMap<V> {
    /// No address. It takes no memory.
    pub fn new(alloc: Global) -> AddressMap<V>
        ensures { result ≡ [] }
    {
        AddressMap {
            index: IndexMap::with_hasher(alloc, AddressHashes::new()),
            slots: Vec::new(alloc),
            holes: 0,
            order: Order::new(alloc),
        }
    }

    /// How many addresses it has.
    pub fn len(&self) -> usize
        ensures { result ≡ length self.now }
    {
        self.slots.len() - self.holes
    }

    /// The address at a place, from 0, with its value.
    pub fn entry(&self, place: usize) -> (MacAddr, V)
        requires { place < length self.now }
        ensures { slice_get self.now place ≡ Some result }
    {
        self.entry_at(place).unwrap()
    }

    /// The same, if there is one. It stands in the slot of its place if none is a hole.
    fn entry_at(&self, place: usize) -> Option<(MacAddr, V)>
        requires { place < length self.now }
        ensures { result ≡ slice_get self.now place }
    {
        let slots = self.slots.as_slice();
        if self.holes == 0 {
            return entry_in(slots, place);
        }
        self.order.entry_at(slots, place)
    }

    /// The value of an address, or `None` if it is not there.
    pub fn get(&self, addr: MacAddr) -> Option<V>
        ensures { result ≡ value_of addr self.now }
    {
        let (_, value) = find(&self.index, self.slots.as_slice(), addr)?;
        Some(value)
    }

    /// Sets the value of an address: one that is there keeps its place, another one goes last. It answers the value
    /// before. `NoMemory`, and no change, can come for an address alone that is not there.
    pub fn insert(&mut self, addr: MacAddr, value: V) -> Result<Option<V>, NoMemory>
        ensures old { IfOk result (λ old. old ≡ value_of addr self.old) }
        ensures entries { OnOk result (self.new ≡ with_entry addr value self.old) }
        ensures err { OnErr result (self.new ≡ self.old) }
        ensures unknown { OnErr result (value_of addr self.old ≡ None) }
    {
        if let Some(before) = self.replace(addr, value) {
            return Ok(Some(before));
        }
        self.add(addr, value)?;
        Ok(None)
    }

    /// Puts an address last that is not there. After `NoMemory` nothing has changed.
    fn add(&mut self, addr: MacAddr, value: V) -> Result<(), NoMemory>
        requires { value_of addr self.old ≡ None }
        ensures ok { OnOk result (self.new ≡ self.old ++ (addr, value) ∷ []) }
        ensures err { OnErr result (self.new ≡ self.old) }
    {
        self.order.make_room(self.slots.as_slice())?;
        self.slots.reserve(1)?;
        let slot = self.slots.len();
        self.index.insert(AddressKey { addr }, slot)?;
        // All that may be refused is done.
        self.order.push_reserved(slot);
        self.slots.push_reserved(Some((addr, value)));
        Ok(())
    }

    /// Sets the value of an address that is there, and answers the value before. Nothing changes if it is not there.
    pub fn replace(&mut self, addr: MacAddr, value: V) -> Option<V>
        ensures old { result ≡ value_of addr self.old }
        ensures entries { self.new ≡ set_value (bytes_eq addr) self.old value }
    {
        let (slot, before) = find(&self.index, self.slots.as_slice(), addr)?;
        put_value(&mut self.slots[slot], value);
        Some(before)
    }

    /// Sets the value of an address that is there to what a function makes of it, and answers the value before. Nothing
    /// changes if it is not there.
    pub fn update<F: FnOnce(V) -> V>(&mut self, addr: MacAddr, change: F) -> Option<V>
        requires { F.IsAlwaysCallable change }
        ensures old { result ≡ value_of addr self.old }
        ensures some { IfSome result (λ before. (after : V) × F.post change before after
            × (self.new ≡ set_value (bytes_eq addr) self.old after)) }
        ensures none { IfNone result (self.new ≡ self.old) }
    {
        let (slot, before) = find(&self.index, self.slots.as_slice(), addr)?;
        put_value(&mut self.slots[slot], change(before));
        Some(before)
    }

    /// Takes out an address, and answers the value that it had. The others keep their order.
    pub fn remove(&mut self, addr: MacAddr) -> Option<V>
        ensures old { result ≡ value_of addr self.old }
        ensures entries { self.new ≡ remove_entry (bytes_eq addr) self.old }
    {
        let before = self.take_out(addr);
        self.close_up();
        before
    }

    /// Takes out an address, and answers the value that it had. Its slot goes too if it is the last one, and else
    /// stays as a hole.
    fn take_out(&mut self, addr: MacAddr) -> Option<V>
        ensures old { result ≡ value_of addr self.old }
        ensures entries { self.new ≡ remove_entry (bytes_eq addr) self.old }
    {
        let slot = self.index.swap_remove(&AddressKey { addr })?;
        let before = value_in(self.slots[slot]);
        if slot + 1 == self.slots.len() && self.order.ends_with(slot) {
            self.slots.pop();
            self.order.pop();
            return before;
        }
        self.slots[slot] = None;
        self.holes += 1;
        self.order.leave(self.slots.as_slice(), slot);
        before
    }

    /// Takes holes away if they are many: all, if no slot has an address, and else if they are more than a few
    /// and than a third of all slots.
    fn close_up(&mut self)
        ensures { self.new ≡ self.old }
    {
        if self.holes == self.slots.len() {
            self.clear();
        } else if self.holes > FEW_HOLES
            && self.holes > self.slots.len() / 3
            && self.order.has_row()
        {
            close_up(&mut self.index, &mut self.slots, &mut self.order);
            self.holes = 0;
        }
    }

    /// Takes all slots away, if none has an address.
    fn clear(&mut self)
        requires { self.old ≡ [] }
        ensures { self.new ≡ [] }
    {
        self.slots.clear();
        self.holes = 0;
        self.order.clear();
    }
}

/// The value of the address in a slot, if it has one.
fn value_in<V: Copy>(slot: Slot<V>) -> Option<V>
    ensures { result ≡ option_map (λ entry. entry.1) slot }
{
    match slot {
        Some((_, value)) => Some(value),
        None => None,
    }
}

/// Sets the value of the address in a slot, if it has one.
fn put_value<V: Copy>(slot: &mut Slot<V>, value: V)
    ensures { slot.new ≡ option_map (λ entry. (entry.0, value)) slot.old }
{
    if let Some((_, known)) = slot {
        *known = value;
    }
}

/// The slot of an address and its value, or `None` if it is not there.
#[inline(always)]
fn find<V: Copy>(index: &Index, slots: &[Slot<V>], addr: MacAddr) -> Option<(usize, V)>
    requires { AreFound index.now.entries slots.now }
    ensures known { IfSome result (λ found. IsAt addr slots.now found.0 found.1) }
    ensures unknown { IfNone result (value_of addr (entries_in slots.now) ≡ None) }
{
    let slot = *index.get(&AddressKey { addr })?;
    let (_, value) = slots[slot]?;
    Some((slot, value))
}

/// Moves the addresses together, so that no slot is a hole, and tells the index and the order where each stands then.
fn close_up<V: Copy>(index: &mut Index, slots: &mut Vec<Slot<V>>, order: &mut Order)
    requires apart { AreApart (entries_in slots.old.items) }
    requires found { AreFound index.old.entries slots.old.items }
    requires listed { IsListed order.old.row.items order.old.gone.items slots.old.items }
    ensures entries { entries_in slots.new.items ≡ entries_in slots.old.items }
    ensures full { length (entries_in slots.new.items) ≡ length slots.new.items }
    ensures found { AreFound index.new.entries slots.new.items }
    ensures listed { MayList order.new.row.items order.new.gone.items slots.new.items }
{
    order.list_entries(slots.as_slice());
    mend(index, order.row.as_slice());
    drop_holes(slots);
    order.number(slots.len());
}

/// Tells an index the place in a row of each slot that it has. It asks for no hash.
fn mend(index: &mut Index, row: &[usize])
    requires rising { Rises 0 row.now }
    requires listed { AreIn row.now index.old.entries }
    ensures { index.new.entries ≡ with_places row.now index.old.entries }
{
    let mut next = 0;
    for at in 0..index.len() {
        let place = place_in(row, index[at], next);
        index[at] = place;
        // many addresses stand in the order of their slots
        next = place + 1;
    }
}

/// Moves the addresses together, so that no slot is a hole.
fn drop_holes<V: Copy>(slots: &mut Vec<Slot<V>>)
    ensures entries { entries_in slots.new.items ≡ entries_in slots.old.items }
    ensures full { length (entries_in slots.new.items) ≡ length slots.new.items }
{
    slots.retain(|slot| slot.is_some());
}
