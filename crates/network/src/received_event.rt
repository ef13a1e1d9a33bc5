//! Events as they come to networks: what of one is the same for each of them is read once.

ghost use Rattle.std.specs.Prelude.{◌≡◌};
ghost use Rattle.events.specs.LentEvents.{event_of};
ghost use Rattle.network.specs.ReceivedEvents.{event_received};

use association::ReceivedFrame;
use events::LentEvent;

/// One thing that happened to networks, as [`LentEvent`] has it, with what of it was read before they take it.
#[derive(Debug, Drop)]
pub enum ReceivedEvent<'a> {
    /// A string of octets was heard on the air.
    Air(ReceivedFrame<'a>),
    /// An Ethernet frame came from the wired port of a network.
    Wire(&'a [u8]),
    /// A beacon interval began.
    Tick,
}

impl<'a> ReceivedEvent<'a> {
    /// An event for several networks: a broadcast probe request is read at once (IEEE Std 802.11-2016, 9.3.3.10), and
    /// anything else by each of them. It takes no memory.
    #[inline(always)]
    pub fn for_all(event: LentEvent<'a>) -> ReceivedEvent<'a>
        ensures { event_received result ≡ event_of event.entry }
    {
        match event {
            LentEvent::Air(octets) => ReceivedEvent::Air(ReceivedFrame::for_all(octets)),
            LentEvent::Wire(octets) => ReceivedEvent::Wire(octets),
            LentEvent::Tick => ReceivedEvent::Tick,
        }
    }

    /// An event for one network, by which all of it is read. It takes no memory.
    #[inline(always)]
    pub fn for_one(event: LentEvent<'a>) -> ReceivedEvent<'a>
        ensures { event_received result ≡ event_of event.entry }
    {
        match event {
            LentEvent::Air(octets) => ReceivedEvent::Air(ReceivedFrame::for_one(octets)),
            LentEvent::Wire(octets) => ReceivedEvent::Wire(octets),
            LentEvent::Tick => ReceivedEvent::Tick,
        }
    }
}
