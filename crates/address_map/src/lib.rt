//! A map of addresses that keeps them in the order in which they came.
//!
//! [`AddressMap`] promises to be a list of addresses with their values: a new address goes last, one that is there keeps
//! its place, and if one leaves the others keep their order. An address is found by its hash, and by its place, without
//! a walk over the others. If one leaves, others move only now and then, and that takes no memory.
//!
//! What the values are, and how many addresses there may be, is left to its owner. Where each address is found after
//! how many steps is not proved: who chooses many addresses can choose them so that they collide, and one is found
//! slower then.
//!
//! Two addresses come, and the first leaves:
//!
//! ```
//! use address_map::AddressMap;
//! use mac_frame::MacAddr;
//!
//! let first = MacAddr::new([2, 0xaa, 0, 0, 0, 1]);
//! let second = MacAddr::new([2, 0xaa, 0, 0, 0, 2]);
//! let mut map = AddressMap::new(rt.alloc());
//! map.insert(first, 10u8)?;
//! map.insert(second, 20)?;
//! assert_eq!(rt; map.get(second), Some(20));
//! assert_eq!(rt; map.remove(first), Some(10));
//! assert_eq!(rt; map.len(), 1);
//! assert_eq!(rt; map.entry(0), (second, 20));
//! ```
#![tactic(auto)]

mod address_key;
mod laws;
mod map;
mod order;

pub use laws::addresses_stay_apart;
pub use map::AddressMap;
