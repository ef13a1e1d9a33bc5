//! What is known of a network in the end.

use crate::event::Event;
use ap_config::NetConfig;
use mac_frame::{List, MacAddr, Octets};
use station_state::Standing;

/// What a network keeps of a station.
#[derive(Clone, Copy, Debug, PartialEq, Eq)]
pub struct StationRow {
    /// Its address.
    pub addr: MacAddr,
    /// How far it has come (IEEE Std 802.11-2016, 11.3.1).
    pub standing: Standing,
    /// Its association identifier, 1 to 2007, or 0 if it isn't associated (9.4.1.8).
    pub aid: u16,
    /// Its listen interval in beacon intervals, or 0 if it isn't associated (9.4.1.6).
    pub listen: u16,
    /// Whether it dozes (11.2.3.2).
    pub doze: bool,
    /// How many units are kept for it.
    pub kept: u32,
}

/// Counts of what happened to a network (*profile*).
#[derive(Clone, Copy, Debug, PartialEq, Eq)]
pub struct Counts {
    /// The events that it took.
    pub events: u32,
    /// The beacon intervals that began.
    pub clock: u32,
    /// The events that were no request it reads.
    pub unread: u32,
    /// The units that were lost.
    pub lost: u32,
    /// The units that are kept now.
    pub kept: u32,
}

/// A network with all that happened to it and all that it did.
#[derive(Debug, Drop)]
pub struct Section {
    /// Its configuration.
    pub config: NetConfig,
    /// The events that it took, the first of them first.
    pub events: List<Event>,
    /// Its stations in the order of their first authentication.
    pub table: List<StationRow>,
    /// Its counts.
    pub counts: Counts,
    /// The frames that it sent on the air, the first of them first.
    pub air: List<Octets>,
    /// The frames that it sent on the wire, the first of them first.
    pub wire: List<Octets>,
}
