//! The units for one receiver, handed over as they were kept (IEEE Std 802.11-2016, 11.2.3.6).

ghost use Rattle.std.specs.Prelude.{◌≡◌, ◌↔◌, [], length, drop, slice_get, IsTrue};
ghost use Rattle.powersave.specs.Queues.{units_of};

use crate::queues::Arrived;
use crate::unit::Unit;
use std::alloc::Global;
use std::collections::VecDeque;
use std::marker::Model;

/// The units that were kept for one station, or for the group, oldest first. Contracts see the list of them.
#[derive(Debug, Drop)]
pub struct UnitQueue {
    queue: VecDeque<Arrived>,
}

impl Model for UnitQueue {
    ghost use Rattle.std.specs.Prelude.{List};
    ghost use Rattle.powersave.specs.declared.unit.Unit.{Unit as Msdu};
    ghost use Rattle.powersave.specs.Queues.{units_of};

    ghost Value = { List Msdu };

    ghost view = { λ q. units_of q.queue.items };
}

impl UnitQueue {
    /// The units of a queue.
    pub(crate) fn new(queue: VecDeque<Arrived>) -> UnitQueue
        ensures { result ≡ units_of queue.items }
    {
        UnitQueue { queue }
    }

    /// How many units it has.
    pub fn len(&self) -> usize
        ensures { result ≡ length self.now }
    {
        self.queue.len()
    }

    /// Whether it has no unit.
    pub fn is_empty(&self) -> bool
        ensures { IsTrue result ↔ (self.now ≡ []) }
    {
        self.queue.is_empty()
    }

    /// Takes out the first unit. `None` if it has none.
    pub fn pop(&mut self) -> Option<Unit>
        ensures unit { result ≡ slice_get self.old 0 }
        ensures rest { self.new ≡ drop 1 self.old }
    {
        let Arrived { number: _, unit } = self.queue.pop_front()?;
        Some(unit)
    }
}
