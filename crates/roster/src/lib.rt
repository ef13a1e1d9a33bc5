//! The stations of a network tied together with the units that are kept for them (IEEE Std 802.11-2016, 11.2.3).
//!
//! Two types to know first: a [`Roster`] has the stations, the kept units and the bits of the beacon's TIM. It promises
//! that these bits are exactly the association identifiers of the stations that units are kept for, so that no beacon
//! walks over the table. A [`Keeping`] says what becomes of the units: which leave, and which one comes.
//!
//! Which units are kept, and what is answered to a station, is left to the crates above.
//!
//! A station is associated, and no unit is kept for it:
//!
//! ```
//! use mac_frame::MacAddr;
//! use roster::{Keeping, Roster};
//! use stations::Change;
//!
//! let addr = MacAddr::new([2, 0xaa, 0, 0, 0, 1]);
//! let joins = Change::Associate { addr, listen: 10 };
//! let mut roster = Roster::new(rt.alloc(), 8, 16);
//! roster.carry_out(Change::Authenticate(addr), Keeping::nothing(), false, 0)?;
//! roster.carry_out(joins, Keeping::nothing(), false, 0)?;
//! assert_eq!(rt; roster.stations().aid_of(addr), Some(1));
//! assert!(rt; roster.kept().is_empty() && !roster.traffic().has(1));
//! ```
#![tactic(auto)]

mod aging_clocks;
mod keeping;
mod laws;
mod roster;

pub use keeping::{Arriving, Keeping, Leaving};
pub use laws::{came_in_turn, group_stays, kept_counts, kept_for_dozing, modes_keep_identifiers};
pub use roster::Roster;
