//! The rule by which the networks of a radio share its air: start-time fair queueing (Goyal, Vin and Cheng, 1996),
//! written as debts.
//!
//! It promises, over any list of events in which turns keep their limits, that while a network waits no other gets
//! more of the air that is told than its share and a turn of each ([`bounded`]). Before a turn of it another gets no
//! more than a turn, and its share beside a turn of it ([`soon`]). The type to know first is [`Lane`], what the rule
//! keeps of a network, with [`choose`], [`serve_chosen`] and [`told`].
//!
//! How much air a frame takes is left to the callers: here are no clock, no octets and no 802.11.
//!
//! The first of two networks, a lane of each, has twice the share of the other. Its frame took 300 units of air, which
//! is told afterwards, and now it is the other's turn:
//!
//! ```
//! use air_share::{Lane, choose, told};
//!
//! let lane = |scale| Lane { debt: 0, scale, waits: true };
//! let mut lanes = [lane(1), lane(2)];
//! assert_eq!(rt; choose(&lanes), Some(0));
//! assert!(rt; told(&mut lanes, 0, 300));
//! assert_eq!(rt; choose(&lanes), Some(1));
//! ```
#![tactic(auto)]

mod lane;
mod lane_laws;

pub use lane::{Lane, MAX_WEIGHT, choose, serve_chosen, told};
pub use lane_laws::{bounded, exact, one_choice, soon};
