//! An access point whose networks run at the same time, each under a lock of its own (*profile*; a network is that of
//! IEEE Std 802.11-2016, 11.1 to 11.3).
//!
//! Two types to know first: threads share an [`Ap`] by reference, and what each gives to it and is answered stands with
//! a [`Caller`] of its own. Any thread pumps frames that wait into the air queue; the [`Transmitter`] lets them leave.
//!
//! [`Ap::finish`] promises that each network's section is what the network alone gives for its own events. What left of
//! it is all that it sent, in order, whichever thread called what, and when. It tests what the callers were told
//! against the histories, so that each event has one giver. Whenever a network's lock is free, what was pushed and then
//! what waits is all that the network alone sends for its history. [`play`] runs a thread for each of several sources
//! of lines and finishes; it promises besides that a network takes the first of a source's events, in their order.
//!
//! Nothing here promises that a call gets its lock, the order of calls of different callers, fairness, progress or
//! time. Tests show that networks have locks of their own, and that an event changes its network at once. [`ApName`]
//! says which access point it is, for proofs alone.
//!
//! A caller tells the networks that a beacon interval began, and the beacon of one leaves:
//!
//! ```
//! use config_text::read_config;
//! use fixtures::texts::CONFIGURATION;
//! use std::marker::Brand;
//! use workers::{Ap, Parts};
//!
//! let parts = Parts::open(rt.alloc(), read_config(rt.alloc(), CONFIGURATION.as_bytes())?, 1)?;
//! let (ap, mut callers, mut transmitter) = Ap::<Brand>::start(rt.alloc(), parts)?;
//! let [caller] = callers.as_mut_slice() else {
//!     panic!(rt; "another number of callers");
//! };
//! ap.tick(&rt, caller)?;
//! assert_eq!(rt; ap.pump(&rt, 0), 1);
//! assert!(rt; ap.leave(&rt, &mut transmitter)?);
//! assert_eq!(rt; ap.finish(&rt, callers, transmitter)?.left.as_slice().len(), 1);
//! ```
#![tactic(auto)]

mod ap;
mod caller;
mod copies;
mod finish;
mod name;
mod outcome;
mod parts;
mod playing;
mod receipts;
mod seat;
mod start;
mod transmitter;
mod waiting;

pub use ap::Ap;
pub use caller::{Caller, Entry};
pub use events::Line;
pub use name::ApName;
pub use outcome::Outcome;
pub use parts::Parts;
pub use play::{FinishFault, Finished, Gate, MAX_CALLERS, PlayFault};
pub use playing::play;
pub use transmitter::Transmitter;
