//! What happens to a network.

ghost use Rattle.std.specs.Prelude.{◌≡◌, ◌↔◌, IsTrue, IfOk};
ghost use Rattle.mac_frame.specs.Hearing.{Hears, is_heard};
ghost use Rattle.events.specs.LentEvents.{event_of};

use mac_frame::{MacAddr, NoMemory, Octets, addressed};
use std::alloc::Global;

/// One thing that happened to a network.
#[derive(Debug, Drop)]
pub enum Event {
    /// A string of octets was heard on the air.
    Air(Octets),
    /// An Ethernet frame came from the wired port of the network.
    Wire(Octets),
    /// A beacon interval began.
    Tick,
}

/// One thing that happened to a network, as [`Event`] has it, whose octets are lent by whoever tells of it.
#[derive(Clone, Copy, Debug)]
pub enum LentEvent<'a> {
    /// A string of octets was heard on the air.
    Air(&'a [u8]),
    /// An Ethernet frame came from the wired port of the network.
    Wire(&'a [u8]),
    /// A beacon interval began.
    Tick,
}

impl Event {
    /// The event, of which nothing is copied.
    #[inline]
    pub fn lend(&self) -> LentEvent<'_>
        ensures { event_of result ≡ self.now }
    {
        match self {
            Event::Air(octets) => LentEvent::Air(octets.as_slice()),
            Event::Wire(octets) => LentEvent::Wire(octets.as_slice()),
            Event::Tick => LentEvent::Tick,
        }
    }
}

impl LentEvent<'_> {
    /// The event with octets of its own, which are copied. `NoMemory` if memory ran out.
    pub fn copy(self, alloc: Global) -> Result<Event, NoMemory>
        ensures { IfOk result (λ event. event ≡ event_of self.entry) }
    {
        match self {
            LentEvent::Air(octets) => Ok(Event::Air(Octets::from_slice(alloc, octets)?)),
            LentEvent::Wire(octets) => Ok(Event::Wire(Octets::from_slice(alloc, octets)?)),
            LentEvent::Tick => Ok(Event::Tick),
        }
    }
}

/// Whether the network `bss` hears a string of octets on the air: it has at least 10 octets, and Address 1,
/// octets 4 to 9, is the network's or the broadcast address (IEEE Std 802.11-2016, 9.2.4.3).
#[inline]
pub fn hears(bss: MacAddr, frame: &[u8]) -> bool
    ensures heard { IsTrue result ↔ Hears bss frame.now }
    ensures test { result ≡ is_heard bss frame.now }
{
    addressed(frame).is_some_and(|to| to == bss || to.is_broadcast())
}
