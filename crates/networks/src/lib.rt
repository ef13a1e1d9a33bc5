//! The networks of a configuration, to which each line is given that they hear (*profile*; the networks are those of
//! IEEE Std 802.11-2016, 11.1 to 11.3).
//!
//! [`Networks`] are those of a configuration in order of place. [`Networks::take`] finds once which of them hear a
//! line, and has each of these take it, in order of place. A [`Deliver`] says what becomes of that and of what they
//! send, so that one keeps it and another writes it at once. It promises that a network that doesn't hear the line is
//! as it was ([`events::Audience`] says who hears). Each of the others did as `Deliver` says, one after the other,
//! whatever the rest of them are.
//!
//! What is done with the frames is left to the crates above, and so are histories, a radio and threads.
//!
//! A beacon interval begins for the one network of a configuration, and its frames are kept:
//!
//! ```
//! use config_text::read_config;
//! use events::LentLine;
//! use fixtures::texts::CONFIGURATION;
//! use networks::{KeepFrames, NetworkWithFrames, Networks};
//!
//! let config = read_config(rt.alloc(), CONFIGURATION.as_bytes())?;
//! let mut networks = Networks::<NetworkWithFrames>::open(rt.alloc(), config)?;
//! networks.take(&KeepFrames, LentLine::Tick, &mut ())?;
//! let [lab] = networks.networks() else {
//!     panic!(rt; "another number of networks");
//! };
//! let (lengths, _) = lab.air.parts();
//! assert!(rt; lab.network.clock() == 1 && lengths == [56].as_slice());
//! ```
#![tactic(auto)]

mod dispatch;
mod network_with_frames;
mod networks;
mod sending_network;
mod sent_frames;

pub use dispatch::{Addressed, Deliver};
pub use network_with_frames::{KeepFrames, NetworkWithFrames};
pub use networks::Networks;
pub use sending_network::SendingNetwork;
pub use sent_frames::SentFrames;
