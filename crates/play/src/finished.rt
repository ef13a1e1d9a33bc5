//! What an access point ends with that several sources fed (*profile*).

use events::{AirItem, Section};
use mac_frame::List;

/// What an access point ends with (*profile*).
#[derive(Debug, Drop)]
pub struct Finished {
    /// The section of each network, in order of place.
    pub sections: List<Section>,
    /// The frames that left, the first of them first.
    pub left: List<AirItem>,
    /// For each network, in order of place, the number of the caller who gave each event of its history. Callers are
    /// numbered from 0, as they were handed in.
    pub givers: List<List<usize>>,
}
