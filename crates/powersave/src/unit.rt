//! A unit, and for whom it is kept (IEEE Std 802.11-2016, 11.2.3).

use mac_frame::{MacAddr, Octets};

/// For whom a unit is kept.
#[derive(Clone, Copy, Debug, PartialEq, Eq, PartialOrd, Ord, Hash)]
pub enum Whom {
    /// For the station with this address.
    One(MacAddr),
    /// For all stations, if its destination is a group address.
    Group,
}

/// One for whom units are kept, and when the oldest of them came.
#[derive(Clone, Copy, Debug)]
pub struct Oldest {
    /// Whom it is kept for.
    pub whom: Whom,
    /// The clock at which it came (*profile*).
    pub at: u32,
}

/// One MSDU (3.1) with its addresses.
#[derive(Debug, Drop)]
pub struct Unit {
    /// The destination address.
    pub to: MacAddr,
    /// The source address.
    pub source: MacAddr,
    /// The Frame Body of the Data frame that carries it (9.2.4.7).
    pub body: Octets,
    /// The clock at which it came: how many beacon intervals had begun by then (*profile*).
    pub at: u32,
}
