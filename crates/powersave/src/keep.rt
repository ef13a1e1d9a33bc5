//! The units that are kept (IEEE Std 802.11-2016, 11.2.3): one list in order of arrival, made of a queue for each whom.

ghost use Rattle.std.specs.Prelude.{◌≡◌, ◌≢◌, ◌<◌, ◌≤◌, ◌+◌, ◌^◌, ◌++◌, ◌↔◌, ℕ, List, [], ◌∷◌, length, drop, take, slice_get};
ghost use Rattle.std.specs.Prelude.{filter, not, nat_lt, IsTrue, Some, None, IfSome, IfNone, IfOk, OnOk, OnErr, IsOk};
ghost use Rattle.std.specs.Option.{option_copied};
ghost use Rattle.powersave.specs.declared.unit.Whom.{Whom};
ghost use Rattle.powersave.specs.declared.unit.Unit.{Unit as Msdu};
ghost use Rattle.powersave.specs.Keep.{Entry, units_for, without_oldest, without_all, room_beside, first_frame};
ghost use Rattle.powersave.specs.Returns.{put_back};
ghost use Rattle.powersave.specs.Keep.{is_older, without_older, first_is_older, CameInOrder, AreOldest, AreToldOnce};

use crate::queues::{Arrived, FIRST_NUMBER, Queues};
use crate::unit::{Oldest, Unit, Whom};
use crate::unit_queue::UnitQueue;
use mac_frame::{MacAddr, NoMemory, Octets};
use std::alloc::Global;
use std::marker::Model;

/// The units that a network keeps for stations that doze (11.2.3). Contracts see it as its quota, the list of its units
/// in order of arrival, each with whom it is kept for, for whom room is reserved, and how many units were put so far.
/// No call walks over the units of others, and [`oldest`](Keep::oldest) leaves a queue that has become empty: it goes
/// with [`drop_for`](Keep::drop_for).
#[derive(Debug, Drop)]
pub struct Keep {
    quota: u32,
    queues: Queues,
    // how many units all queues have
    len: usize,
    puts: u64,
    // how many numbers below the first one were given
    in_front: u64,
    reserved: Option<Whom>,
}

impl Model for Keep {
    ghost use Rattle.powersave.specs.Keep.{Kept};
    ghost use Rattle.powersave.specs.Queues.{entries_in, AreKept};

    ghost Value = { Kept };

    // The units of all queues, by the numbers of their arrivals.
    ghost view = { λ k. record {
      quota = k.quota;
      entries = entries_in k.queues.map.entries;
      reserved = k.reserved;
      puts = k.puts;
      in_front = k.in_front;
    } };

    ghost invariant = { λ k. AreKept k.quota k.len k.puts k.in_front k.reserved k.queues.map.entries };
}

impl Keep {
    /// A list without units that is full at `quota` units (*profile*). No room is reserved. It takes no memory.
    pub fn new(alloc: Global, quota: u32) -> Keep
        ensures { result ≡ record { quota = quota; entries = []; reserved = None; puts = 0; in_front = 0 } }
    {
        Keep {
            quota,
            queues: Queues::new(alloc),
            len: 0,
            puts: 0,
            in_front: 0,
            reserved: None,
        }
    }

    /// The number of units that are kept, for stations and for the group.
    pub fn len(&self) -> usize
        ensures { result ≡ length self.now.entries }
    {
        self.len
    }

    /// Whether no unit is kept.
    pub fn is_empty(&self) -> bool
        ensures { IsTrue result ↔ (self.now.entries ≡ []) }
    {
        self.len == 0
    }

    /// Whether as many units are kept as the quota allows, whoever they are for (*profile*).
    pub fn is_full(&self) -> bool
        ensures { IsTrue result ↔ (self.now.quota ≤ length self.now.entries) }
    {
        self.len >= self.quota as usize
    }

    /// The number of units that were put since the list was new: of calls of [`put`](Keep::put) that answered `Ok`.
    pub fn puts(&self) -> u64
        ensures { result ≡ self.now.puts }
    {
        self.puts
    }

    /// How many units were put in front of all others: `before` and one more by each call of
    /// [`put_back`](Keep::put_back) that answered `Ok`.
    pub fn in_front(&self) -> u64
        ensures { result ≡ self.now.in_front }
    {
        self.in_front
    }

    /// The number of units that are kept for `whom`.
    pub fn count_for(&self, whom: Whom) -> usize
        ensures { result ≡ length (units_for whom self.now.entries) }
    {
        if self.is_empty() {
            // No queue has a unit, so none is looked for.
            return 0;
        }
        self.queues.count_for(&whom)
    }

    /// The unit for `whom` that `n` others for `whom` came before. `None` if `n` units or fewer are kept for it.
    pub fn nth(&self, whom: Whom, n: usize) -> Option<&Unit>
        ensures { option_copied result ≡ slice_get (units_for whom self.now.entries) n }
    {
        self.queues.nth(&whom, n)
    }

    /// Takes out the first unit that came for `whom`. `None` if none is kept for it. The others stay in
    /// their order. A reservation for `whom` ends.
    pub fn oldest(&mut self, whom: Whom) -> Option<Unit>
        ensures unit { result ≡ slice_get (units_for whom self.old.entries) 0 }
        ensures after { self.new ≡ record self.old {
          entries = without_oldest whom self.old.entries;
          reserved = room_beside whom self.old.reserved;
        } }
    {
        self.reserved = room_beside(self.reserved, &whom);
        let unit = self.queues.pop(&whom)?;
        self.len -= 1;
        Some(unit)
    }

    /// Takes out the first unit that came for `whom`, as the Data frame that carries it (9.3.2.1). The frame comes from
    /// the network `bss` with this sequence number. Its More Data says whether others follow (9.2.4.1.8), and the
    /// answer says it beside the frame. `None` if none is kept for it. The others stay in their order, and a
    /// reservation for `whom` ends. The queue is found once. After `NoMemory` all is as it was.
    pub fn send_oldest(
        &mut self,
        whom: Whom,
        bss: MacAddr,
        seq: u16,
    ) -> Result<Option<(Octets, bool)>, NoMemory>
        requires { seq < 4096 }
        ensures sent { IfOk result (λ sent. sent ≡ first_frame bss seq (units_for whom self.old.entries)) }
        ensures after { OnOk result (self.new ≡ record self.old {
          entries = without_oldest whom self.old.entries;
          reserved = room_beside whom self.old.reserved;
        }) }
        ensures none { IfOk result (λ sent. sent ≡ None → self.new.entries ≡ self.old.entries) }
        ensures err { OnErr result (self.new ≡ self.old) }
    {
        let sent = self.queues.send(&whom, bss, seq)?;
        self.reserved = room_beside(self.reserved, &whom);
        let Some(sent) = sent else {
            return Ok(None);
        };
        self.len -= 1;
        Ok(Some(sent))
    }

    /// Takes out all units for `whom`. The others stay in their order. A reservation for `whom` ends.
    pub fn drop_for(&mut self, whom: Whom)
        ensures { self.new ≡ record self.old {
          entries = without_all whom self.old.entries;
          reserved = room_beside whom self.old.reserved;
        } }
    {
        self.reserved = room_beside(self.reserved, &whom);
        self.len -= self.queues.remove(&whom);
    }

    /// Takes out all units for `whom`, and hands them over as they are kept: none is moved or copied. The others stay
    /// in their order. A reservation for `whom` ends.
    pub fn take_for(&mut self, whom: Whom) -> UnitQueue
        ensures units { result ≡ units_for whom self.old.entries }
        ensures after { self.new ≡ record self.old {
          entries = without_all whom self.old.entries;
          reserved = room_beside whom self.old.reserved;
        } }
    {
        self.reserved = room_beside(self.reserved, &whom);
        let queue = self.queues.take(&whom);
        self.len -= queue.len();
        UnitQueue::new(queue)
    }

    /// Takes out the units for `whom` that came before the clock `limit`, and answers how many these were. The caller
    /// put the units for `whom` in order, so that their clocks don't fall: those that leave are the first of them, and
    /// no other is looked at. The others stay in their order. A reservation for `whom` ends.
    pub fn drop_older(&mut self, whom: Whom, limit: u32) -> u32
        requires in_order { CameInOrder (units_for whom self.old.entries) }
        ensures count { result ≡ length (filter (is_older whom limit) self.old.entries) }
        ensures after { self.new ≡ record self.old {
          entries = without_older whom limit self.old.entries;
          reserved = room_beside whom self.old.reserved;
        } }
    {
        self.give_up_room(&whom);
        self.drop_first_while_older(&whom, limit)
    }

    /// Takes out the first units that came for `whom`, as long as they came before the clock `limit`.
    fn drop_first_while_older(&mut self, whom: &Whom, limit: u32) -> u32
        requires in_order { CameInOrder (units_for whom.now self.old.entries) }
        requires room { room_beside whom.now self.old.reserved ≡ self.old.reserved }
        ensures count { result ≡ length (filter (is_older whom.now limit) self.old.entries) }
        ensures after { self.new ≡ record self.old { entries = without_older whom.now limit self.old.entries } }
    {
        // The prover opens what the list keeps, which is no more than its quota, where a field is read.
        let _len = self.len;
        let mut dropped = 0;
        while self.has_older(whom, limit) {
            self.drop_first(whom);
            dropped += 1;
        }
        dropped
    }

    /// Takes out the first unit that came for `whom`, if there is one.
    fn drop_first(&mut self, whom: &Whom)
        ensures { self.new ≡ record self.old {
          entries = without_oldest whom.now self.old.entries;
          reserved = room_beside whom.now self.old.reserved;
        } }
    {
        self.oldest(*whom);
    }

    /// Whether the first unit that came for `whom` came before the clock `limit`.
    fn has_older(&self, whom: &Whom, limit: u32) -> bool
        ensures { result ≡ first_is_older limit (units_for whom.now self.now.entries) }
    {
        match self.nth(*whom, 0) {
            Some(unit) => unit.at < limit,
            None => false,
        }
    }

    /// A reservation for `whom` ends.
    fn give_up_room(&mut self, whom: &Whom)
        ensures { self.new ≡ record self.old { reserved = room_beside whom.now self.old.reserved } }
    {
        self.reserved = room_beside(self.reserved, whom);
    }

    /// Each for whom units are kept, once, with the clock at which the oldest of them came. `NoMemory` if memory ran
    /// out.
    pub fn oldest_of_each(&self) -> Result<Vec<Oldest>, NoMemory>
        ensures each { IfOk result (λ oldest. AreOldest oldest.items self.now.entries) }
        ensures once { IfOk result (λ oldest. AreToldOnce oldest.items) }
    {
        if self.is_empty() {
            // No queue has a unit, so none is looked at.
            return Ok(Vec::new(self.queues.alloc()));
        }
        self.queues.oldest_of_each()
    }

    /// Appends a unit for `whom`. The list is not full and has seen fewer than 2^62 puts. The queue is found once,
    /// and it needs no memory if room is reserved for `whom`. A reservation, whoever it is for, ends. After
    /// `NoMemory` all is as it was, and the unit is dropped.
    pub fn put(&mut self, whom: Whom, unit: Unit) -> Result<(), NoMemory>
        requires not_full { length self.old.entries < self.old.quota }
        requires countable { self.old.puts < 2 ^ 62 }
        ensures ok { OnOk result (self.new ≡ record self.old {
          entries = self.old.entries ++ (whom, unit) ∷ [];
          reserved = None;
          puts = self.old.puts + 1;
        }) }
        ensures err { OnErr result (self.new ≡ self.old) }
        ensures room { self.old.reserved ≡ Some whom → IsOk result }
    {
        let arrived = Arrived {
            number: FIRST_NUMBER + self.puts,
            unit,
        };
        self.queues.push(&whom, arrived)?;
        self.len += 1;
        self.puts += 1;
        self.reserved = None;
        Ok(())
    }

    /// Puts a unit for `whom` back. It stands behind the first `before` units for `whom`, or last among these if there
    /// are fewer. They and it stand in front of the units for others, which stay in their order (*profile*). The list
    /// is not full, and has seen fewer than 2^62 units put in front, these among them. It needs no memory if room is
    /// reserved for `whom`. A reservation, whoever it is for, ends. After `NoMemory` all is as it was, and the unit is
    /// dropped.
    pub fn put_back(&mut self, whom: Whom, before: usize, unit: Unit) -> Result<(), NoMemory>
        requires not_full { length self.old.entries < self.old.quota }
        requires countable { self.old.in_front + before < 2 ^ 62 }
        ensures ok { OnOk result (self.new ≡ record self.old {
          entries = put_back whom before unit self.old.entries;
          reserved = None;
          in_front = self.old.in_front + (before + 1);
        }) }
        ensures err { OnErr result (self.new ≡ self.old) }
        ensures room { self.old.reserved ≡ Some whom → IsOk result }
    {
        let more = before as u64 + 1;
        let first = FIRST_NUMBER - self.in_front - more;
        self.queues.put_back(&whom, before, first, unit)?;
        self.len += 1;
        self.in_front += more;
        self.reserved = None;
        Ok(())
    }

    /// Reserves room for the next unit, which is for `whom`, and a queue for it if there is none. An earlier
    /// reservation ends. After `NoMemory` all is as it was.
    pub fn reserve(&mut self, whom: Whom) -> Result<(), NoMemory>
        ensures ok { OnOk result (self.new ≡ record self.old { reserved = Some whom }) }
        ensures err { OnErr result (self.new ≡ self.old) }
    {
        self.queues.make_room(&whom)?;
        self.reserved = Some(whom);
        Ok(())
    }

    /// Whether room is reserved for `whom`: the next unit for it needs no memory then.
    pub fn has_room(&self, whom: Whom) -> bool
        ensures { IsTrue result ↔ (self.now.reserved ≡ Some whom) }
    {
        self.reserved == Some(whom)
    }
}

/// The reservation, unless it is for `whom`.
fn room_beside(reserved: Option<Whom>, whom: &Whom) -> Option<Whom>
    ensures { result ≡ room_beside whom.now reserved }
{
    match reserved {
        Some(other) if other != *whom => Some(other),
        _ => None,
    }
}

/// The units for one station, or for the group, don't depend on those for others (*profile*): a unit is put last among
/// those for the same one, and the oldest of these leaves first. Dropping leaves none of them, or those that came at a
/// clock or later. The units for any other stay as they were, and so does a reservation for another.
pub fn parts_stay()
    ensures put { (whom : Whom) (unit : Msdu) (es : List Entry) → units_for whom (es ++ (whom, unit) ∷ [])
        ≡ units_for whom es ++ unit ∷ [] }
    ensures oldest { (whom : Whom) (es : List Entry) → units_for whom (without_oldest whom es)
        ≡ drop 1 (units_for whom es) }
    ensures dropped { (whom : Whom) (es : List Entry) → units_for whom (without_all whom es) ≡ [] }
    ensures older { (whom : Whom) (limit : ℕ) (es : List Entry) → units_for whom (without_older whom limit es)
        ≡ filter (λ unit. not (nat_lt unit.at limit)) (units_for whom es) }
    ensures others_put { (whom other : Whom) (unit : Msdu) (es : List Entry) → whom ≢ other
        → units_for other (es ++ (whom, unit) ∷ []) ≡ units_for other es }
    ensures others_oldest { (whom other : Whom) (es : List Entry) → whom ≢ other
        → units_for other (without_oldest whom es) ≡ units_for other es }
    ensures others_dropped { (whom other : Whom) (es : List Entry) → whom ≢ other
        → units_for other (without_all whom es) ≡ units_for other es }
    ensures others_older { (whom other : Whom) (limit : ℕ) (es : List Entry) → whom ≢ other
        → units_for other (without_older whom limit es) ≡ units_for other es }
    ensures others_room { (whom other : Whom) → whom ≢ other → room_beside whom (Some other) ≡ Some other }
{}

/// A unit that comes back stands behind as many of the units for its receiver as are told, or last if there are fewer.
/// The units for any other station and for the group stay as they were (*profile*).
pub fn returns_in_its_place()
    ensures place { (whom : Whom) (before : ℕ) (unit : Msdu) (es : List Entry) → units_for whom (put_back whom before unit es)
        ≡ take before (units_for whom es) ++ unit ∷ drop before (units_for whom es) }
    ensures others { (whom other : Whom) (before : ℕ) (unit : Msdu) (es : List Entry) → whom ≢ other
        → units_for other (put_back whom before unit es) ≡ units_for other es }
    ensures count { (whom : Whom) (before : ℕ) (unit : Msdu) (es : List Entry) → length (put_back whom before unit es)
        ≡ length es + 1 }
{}
