//! The queues that a [`Keep`](crate::Keep) is made of: one for each for whom units are kept, found without a walk over
//! the others.

ghost use Rattle.std.specs.Prelude.{◌≡◌, ◌≤◌, ◌<◌, ◌+◌, ◌++◌, [], length, IfOk, OnOk, OnErr, IsOk, Some, None};
ghost use Rattle.std.specs.Prelude.{take, drop};
ghost use Rattle.std.specs.Option.{option_map, option_copied};
ghost use Rattle.mac_frame.specs.Data.{data_header};
ghost use Rattle.powersave.specs.Queues.{queue_for, unit_at, oldest_in, HasRoom};
ghost use Rattle.powersave.specs.Queues.{Pops, Sends, Removes, MakesRoom, Pushes};
ghost use Rattle.powersave.specs.Queues.{PutsBack, Takes, queue_with, numbered_from, units_of};

use crate::unit::{Oldest, Unit, Whom};
use address_hash::AddressHashes;
use indexmap::IndexMap;
use mac_frame::{HEADER_LEN, MacAddr, NoMemory, Octets, write_msdu};
use std::alloc::Global;
use std::collections::VecDeque;

/// The number of the first unit. Half of all numbers are below it, for units that are put in front of all others.
pub(crate) const FIRST_NUMBER: u64 = 1 << 62;

/// A unit, and the number of its arrival, by which the units of all queues stand in one order.
#[derive(Debug, Drop)]
pub(crate) struct Arrived {
    pub(crate) number: u64,
    pub(crate) unit: Unit,
}

/// The queues, each in order of arrival, found by a hash of whom each is for. One that has become empty stays until it
/// is removed, so that a unit put into it needs no new queue.
#[derive(Debug, Drop)]
pub(crate) struct Queues {
    alloc: Global,
    map: IndexMap<Whom, VecDeque<Arrived>, AddressHashes>,
}

impl Queues {
    /// No queue. It takes no memory.
    pub(crate) fn new(alloc: Global) -> Queues
        ensures { result.map.entries ≡ [] }
    {
        Queues {
            alloc,
            map: IndexMap::with_hasher(alloc, AddressHashes::new()),
        }
    }

    /// What the queues take their memory from.
    pub(crate) fn alloc(&self) -> Global {
        self.alloc
    }

    /// How many units the queue for `whom` has.
    pub(crate) fn count_for(&self, whom: &Whom) -> usize
        ensures { result ≡ length (queue_for whom.now self.now.map.entries) }
    {
        match self.map.get(whom) {
            Some(queue) => queue.len(),
            None => 0,
        }
    }

    /// The unit that `n` others stand before in the queue for `whom`.
    pub(crate) fn nth(&self, whom: &Whom, n: usize) -> Option<&Unit>
        ensures { option_copied result ≡ unit_at (queue_for whom.now self.now.map.entries) n }
    {
        let arrived = self.map.get(whom)?.get(n)?;
        Some(&arrived.unit)
    }

    /// Each whose queue has a unit, with the clock at which the first of them came.
    pub(crate) fn oldest_of_each(&self) -> Result<Vec<Oldest>, NoMemory>
        ensures { IfOk result (λ oldest. oldest.items ≡ oldest_in self.now.map.entries) }
    {
        let mut oldest = Vec::with_capacity(self.alloc, self.map.len())?;
        for (whom, queue) in self.map.iter() {
            if let Some(first) = queue.get(0) {
                // There is room for each queue.
                oldest.push_reserved(Oldest {
                    whom: *whom,
                    at: first.unit.at,
                });
            }
        }
        Ok(oldest)
    }

    /// Takes out the first unit of the queue for `whom`. The queue stays, also if it has become empty.
    pub(crate) fn pop(&mut self, whom: &Whom) -> Option<Unit>
        ensures { Pops whom.now self.old.map.entries result self.new.map.entries }
    {
        let Arrived { number: _, unit } = self.map.get_mut(whom)?.pop_front()?;
        Some(unit)
    }

    /// Takes out the first unit of the queue for `whom` as the Data frame that carries it, which tells whether others
    /// follow, and tells this beside it. The queue stays, and is found once. After `NoMemory` the units are as they
    /// were.
    pub(crate) fn send(
        &mut self,
        whom: &Whom,
        bss: MacAddr,
        seq: u16,
    ) -> Result<Option<(Octets, bool)>, NoMemory>
        requires { seq < 4096 }
        ensures ok { IfOk result (λ sent. Sends whom.now bss seq self.old.map.entries sent self.new.map.entries) }
        ensures err { OnErr result (MakesRoom self.old.map.entries self.new.map.entries) }
    {
        let Some(queue) = self.map.get_mut(whom) else {
            return Ok(None);
        };
        let follows = queue.len() > 1;
        let Some(first) = queue.get(0) else {
            return Ok(None);
        };
        let frame = frame_of(self.alloc, &first.unit, bss, seq, follows)?;
        queue.pop_front();
        Ok(Some((frame, follows)))
    }

    /// Removes the queue for `whom`, and gives the number of its units. The last queue takes its place, and the others
    /// stay where they are.
    pub(crate) fn remove(&mut self, whom: &Whom) -> usize
        ensures { Removes whom.now self.old.map.entries result self.new.map.entries }
    {
        self.take(whom).len()
    }

    /// Takes out the queue for `whom` as it stands. The last queue takes its place, and the others stay where they are.
    pub(crate) fn take(&mut self, whom: &Whom) -> VecDeque<Arrived>
        ensures { Takes whom.now self.old.map.entries result.items self.new.map.entries }
    {
        match self.map.swap_remove(whom) {
            Some(queue) => queue,
            None => VecDeque::new(self.alloc),
        }
    }

    /// Makes room for one more unit in the queue for `whom`, and the queue if there is none. The units stay as they
    /// are.
    pub(crate) fn make_room(&mut self, whom: &Whom) -> Result<(), NoMemory>
        ensures ok { OnOk result (HasRoom (Some whom.now) self.new.map.entries) }
        ensures units { MakesRoom self.old.map.entries self.new.map.entries }
    {
        if let Some(queue) = self.map.get_mut(whom) {
            queue.reserve(1)?;
            return Ok(());
        }
        let queue = VecDeque::with_capacity(self.alloc, 1)?;
        self.map.insert(*whom, queue)?;
        Ok(())
    }

    /// Puts a unit last into the queue for `whom`, which is made if there is none. It needs no memory if the
    /// queue has room. After `NoMemory` the units are as they were, and this one is dropped.
    pub(crate) fn push(&mut self, whom: &Whom, arrived: Arrived) -> Result<(), NoMemory>
        ensures ok { OnOk result (Pushes whom.now arrived self.old.map.entries self.new.map.entries) }
        ensures err { OnErr result (MakesRoom self.old.map.entries self.new.map.entries) }
        ensures room { HasRoom (Some whom.now) self.old.map.entries → IsOk result }
    {
        if let Some(queue) = self.map.get_mut(whom) {
            queue.push_back(arrived)?;
            return Ok(());
        }
        let mut fresh = VecDeque::with_capacity(self.alloc, 1)?;
        fresh.push_back_reserved(arrived);
        self.map.insert(*whom, fresh)?;
        Ok(())
    }

    /// Puts a unit into the queue for `whom`, which is made if there is none, behind the first `before` units of it, or
    /// last if it has fewer. These and the unit have the numbers from `first` on then. It needs no memory if the queue
    /// has room. After `NoMemory` the units are as they were, and this one is dropped.
    pub(crate) fn put_back(
        &mut self,
        whom: &Whom,
        before: usize,
        first: u64,
        unit: Unit,
    ) -> Result<(), NoMemory>
        requires { first + before ≤ FIRST_NUMBER }
        ensures ok { OnOk result
            (PutsBack whom.now first before unit self.old.map.entries self.new.map.entries) }
        ensures err { OnErr result (MakesRoom self.old.map.entries self.new.map.entries) }
        ensures room { HasRoom (Some whom.now) self.old.map.entries → IsOk result }
    {
        if let Some(queue) = self.map.get_mut(whom) {
            queue.reserve(1)?;
            put_behind(queue, before, first, unit);
            return Ok(());
        }
        let mut fresh = VecDeque::with_capacity(self.alloc, 1)?;
        fresh.push_back_reserved(Arrived {
            number: first,
            unit,
        });
        self.map.insert(*whom, fresh)?;
        Ok(())
    }
}

/// Puts a unit behind the first `before` units of a queue, or last if it has fewer. These and the unit have the numbers
/// from `first` on then. There is room for it.
fn put_behind(queue: &mut VecDeque<Arrived>, before: usize, first: u64, unit: Unit)
    requires countable { first + before ≤ FIRST_NUMBER }
    requires room { queue.old.len < queue.old.cap }
    ensures { queue.new.items ≡ queue_with first before unit queue.old.items }
{
    let ahead = before.min(queue.len());
    for place in 0..ahead {
        number_anew(queue, first + place as u64);
    }
    queue.push_back_reserved(Arrived {
        number: first + ahead as u64,
        unit,
    });
    // Those that have new numbers stand last.
    queue.rotate_right(ahead + 1);
}

/// Moves the first unit of a queue to its end, with this number.
fn number_anew(queue: &mut VecDeque<Arrived>, number: u64)
    requires { 0 < length queue.old.items }
    ensures items { queue.new.items ≡ drop 1 queue.old.items ++ numbered_from number (units_of (take 1 queue.old.items)) }
    ensures len { queue.new.len ≡ queue.old.len }
    ensures capacity { queue.new.cap ≡ queue.old.cap }
{
    let Arrived { number: _, unit } = queue.pop_front().unwrap();
    queue.push_back_reserved(Arrived { number, unit });
}

/// The Data frame from the network `bss` that carries a unit, with More Data or without (9.3.2.1).
fn frame_of(
    alloc: Global,
    unit: &Unit,
    bss: MacAddr,
    seq: u16,
    more: bool,
) -> Result<Octets, NoMemory>
    requires { seq < 4096 }
    ensures { IfOk result (λ frame. frame ≡ data_header unit.now.to bss unit.now.source seq more ++ unit.now.body) }
{
    let mut frame = Octets::new(alloc);
    let body = unit.body.as_slice();
    frame.reserve(HEADER_LEN + body.len())?;
    write_msdu(&mut frame, unit.to, bss, unit.source, seq, more)?;
    frame.append(body)?;
    Ok(frame)
}
