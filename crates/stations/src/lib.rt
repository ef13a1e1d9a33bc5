//! The stations that a network knows (IEEE Std 802.11-2016, 11.3).
//!
//! Two types to know first: [`Stations`] is the table, each station with its [`station_state::StationState`], and a
//! [`Change`] is what becomes of one of them. The table promises to be the list of the stations in order of first
//! authentication, in which no two have the same association identifier and no more are associated than may be. A
//! station is found in it by its address, with no walk over the others.
//!
//! The units that are kept for stations, and what is answered to them, are left to the crates above.
//!
//! A station comes, and leaves:
//!
//! ```
//! use mac_frame::MacAddr;
//! use station_state::Standing;
//! use stations::{Stations, standing_with};
//!
//! let station = MacAddr::new([2, 0xaa, 0, 0, 0, 1]);
//! let mut stations = Stations::new(rt.alloc(), 8);
//! stations.authenticate(station)?;
//! assert_eq!(rt; standing_with(stations.state_of(station)), Standing::Authenticated);
//! stations.associate(station, 10);
//! assert_eq!(rt; stations.aid_of(station), Some(1));
//! stations.forget(station);
//! assert_eq!(rt; stations.len(), 0);
//! ```
#![tactic(auto)]

mod laws;
mod restoring;
mod table;

pub use laws::{
    changes_stay_sound, identifiers_differ, lengths_after, modes_alone, others_stay,
    restored_stay_sound,
};
pub use restoring::RestoreFault;
pub use table::{
    Change, Stations, aid_with, dozes_with, is_associated, listen_with, standing_with,
};
