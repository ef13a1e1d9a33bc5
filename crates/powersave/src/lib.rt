//! Units that an access point keeps for stations that doze (IEEE Std 802.11-2016, 11.2.3).
//!
//! A [`Keep`] is one list of units in order of arrival, each kept for one station or for the group. It promises that a
//! unit is put last, that what is kept for a station or the group is read and taken out in its order, and that the rest
//! stays as it was. Behind the list there is a queue for each [`Whom`], so a call for one doesn't walk over the
//! [`Unit`]s of others.
//!
//! Who dozes, which unit is kept or lost, and when one is sent, is left to the network.
//!
//! A unit is kept for a station that dozes, and taken out:
//!
//! ```
//! use mac_frame::{MacAddr, Octets};
//! use powersave::{Keep, Unit, Whom};
//!
//! let to = MacAddr::new([2, 0xaa, 0, 0, 0, 1]);
//! let source = MacAddr::new([2, 0xbb, 0, 0, 0, 1]);
//! let body = Octets::from_slice(rt.alloc(), &[0xaa, 0xaa, 3])?;
//! let mut keep = Keep::new(rt.alloc(), 8);
//! keep.put(Whom::One(to), Unit { to, source, body, at: 5 })?;
//! assert_eq!(rt; keep.count_for(Whom::One(to)), 1);
//! assert_eq!(rt; keep.count_for(Whom::Group), 0);
//! let unit = keep.oldest(Whom::One(to)).ok_or("nothing is kept")?;
//! assert!(rt; unit.at == 5 && keep.is_empty());
//! ```
#![tactic(auto)]

mod keep;
mod queues;
mod unit;
mod unit_queue;

pub use keep::{Keep, parts_stay, returns_in_its_place};
pub use unit::{Oldest, Unit, Whom};
pub use unit_queue::UnitQueue;
