//! A network of an access point, alone (IEEE Std 802.11-2016, 11.1 to 11.3).
//!
//! Two types to know first: a [`Network`] takes events and hands out what it sends, and a [`Bss`] is a network with its
//! history and the frames that wait. It is a deterministic state machine: it has no socket, no clock and no thread, and
//! each event makes of it one `step` of the definitions. A `Bss` promises that its table, its counts and its wired
//! frames are what its configuration and its history give. The definition `alone` says what that is, and names no other
//! network, no queue and no thread. [`Bss::take`] promises to append to the frames that wait exactly those that the
//! event adds to the frames of `alone`. Which frames wait depends besides on what [`Bss::take_front`] took out and on
//! what [`Bss::give_back`] put back, which may be any octets.
//!
//! Several networks, when frames leave, and where events come from, are left to the crates above.
//!
//! A network hears a probe request, and sends its answer:
//!
//! ```
//! use events::Event;
//! use fixtures::{PROBE_REQUEST, lab, octets};
//! use network::Bss;
//!
//! let mut network = Bss::new(rt.alloc(), 6, 100, lab::config(rt.alloc(), 100)?)?;
//! network.take(Event::Air(octets(rt.alloc(), PROBE_REQUEST)?))?;
//! let sent = network.take_front().ok_or("no answer")?;
//! let response = octets(rt.alloc(), lab::PROBE_RESPONSE)?;
//! assert_eq!(rt; sent.as_slice(), response.as_slice());
//! assert_eq!(rt; network.counts().events, 1);
//! ```
#![tactic(auto)]

mod announced_setting;
mod answer;
mod bss;
mod laws;
mod network;
mod opening;
mod received_event;
mod reply;
mod shown;

pub use bss::{Bss, Refusal};
pub use laws::{
    frame_sizes, nothing_ages, one_step, reachable, reachable_with_returns, sent_frames,
    steps_append,
};
pub use network::{Network, NetworkRefusal, Sent};
pub use opening::{Open, open_networks};
pub use received_event::ReceivedEvent;
pub use reply::{Frames, Spare};
