//! Which networks hear a line.

ghost use Rattle.std.specs.Prelude.{◌≡◌};
ghost use Rattle.events.specs.LentEvents.{line_of};
ghost use Rattle.events.specs.Audiences.{IsAudience, is_in};

use crate::line::LentLine;
use mac_frame::{MacAddr, addressed};

/// The networks to which a line is an event, read from it once for all of them.
#[derive(Clone, Copy, Debug)]
pub enum Audience {
    /// None hears it.
    Nobody,
    /// Each does.
    All,
    /// The one with this address does (IEEE Std 802.11-2016, 9.2.4.3).
    Addressed(MacAddr),
    /// The one at this place does.
    At(usize),
}

impl Audience {
    /// To which networks a line is an event: a string on the air by its Address 1, a frame on the wire by the place that
    /// it names, and a beacon interval to all (*profile*). It takes no memory.
    #[inline(always)]
    pub fn of(line: LentLine<'_>) -> Audience
        ensures { IsAudience result (line_of line.entry) }
    {
        match line {
            LentLine::Air(octets) => match addressed(octets) {
                None => Audience::Nobody,
                Some(to) if to.is_broadcast() => Audience::All,
                Some(to) => Audience::Addressed(to),
            },
            LentLine::Wire { place, .. } => Audience::At(place),
            LentLine::Tick => Audience::All,
        }
    }

    /// Whether the network with this place and this BSSID is one of them.
    #[inline(always)]
    pub fn has(&self, place: usize, bssid: MacAddr) -> bool
        ensures { result ≡ is_in self.now place bssid }
    {
        match self {
            Audience::Nobody => false,
            Audience::All => true,
            Audience::Addressed(to) => *to == bssid,
            Audience::At(named) => *named == place,
        }
    }
}
