//! One thing that happened to the networks of a radio.

ghost use Rattle.std.specs.Prelude.{◌≡◌, option_map};
ghost use Rattle.events.specs.LentEvents.{event_of, line_of};
ghost use Rattle.events.specs.Lines.{event_for, event_of_line};

use crate::audience::Audience;
use crate::event::LentEvent;
use mac_frame::{MacAddr, Octets};

/// One thing that happened to the networks of a radio. Which of them it concerns, each network says of itself.
#[derive(Debug, Drop)]
pub enum Line {
    /// A string of octets was heard on the air: it concerns each network that hears it.
    Air(Octets),
    /// A frame came over the wire to one network. If there is none at that place, it concerns nobody.
    Wire {
        /// The network's place in the configuration, from 0.
        place: usize,
        /// The octets of the frame.
        octets: Octets,
    },
    /// A beacon interval began, for every network.
    Tick,
}

/// One thing that happened to the networks of a radio, as [`Line`] has it, whose octets are lent by whoever tells of
/// it.
#[derive(Clone, Copy, Debug)]
pub enum LentLine<'a> {
    /// A string of octets was heard on the air.
    Air(&'a [u8]),
    /// A frame came over the wire to one network.
    Wire {
        /// The network's place in the configuration, from 0.
        place: usize,
        /// The octets of the frame.
        octets: &'a [u8],
    },
    /// A beacon interval began.
    Tick,
}

impl Line {
    /// The line, of which nothing is copied.
    #[inline]
    pub fn lend(&self) -> LentLine<'_>
        ensures { line_of result ≡ self.now }
    {
        match self {
            Line::Air(octets) => LentLine::Air(octets.as_slice()),
            Line::Wire { place, octets } => LentLine::Wire {
                place: *place,
                octets: octets.as_slice(),
            },
            Line::Tick => LentLine::Tick,
        }
    }
}

impl<'a> LentLine<'a> {
    /// The event that it is to each network that hears it.
    #[inline]
    pub fn event(self) -> LentEvent<'a>
        ensures { event_of result ≡ event_of_line (line_of self.entry) }
    {
        match self {
            LentLine::Air(octets) => LentEvent::Air(octets),
            LentLine::Wire { place: _, octets } => LentEvent::Wire(octets),
            LentLine::Tick => LentEvent::Tick,
        }
    }

    /// The event that it is to the network with this place in the configuration, from 0, and this BSSID; `None` if
    /// that network doesn't hear it: it is none of the line's [`Audience`] (*profile*).
    #[inline]
    pub fn event_for(self, place: usize, bssid: MacAddr) -> Option<LentEvent<'a>>
        ensures { option_map event_of result ≡ event_for place bssid (line_of self.entry) }
    {
        if Audience::of(self).has(place, bssid) {
            Some(self.event())
        } else {
            None
        }
    }
}
