//! What goes into the networks of a radio and what comes out of them, as data.
//!
//! Two types to know first: an [`Event`] is one thing that happened to a network, and a [`Section`] is a network with
//! all that happened to it and all that it did. A [`Line`] is what happened to a radio. Here alone it is read to which
//! networks a line is an event, into an [`Audience`]. Whether a network is one of these is asked by its place and its
//! address. [`LentLine::event_for`] asks for one network, and promises what the definition `event_for` says. A
//! [`LentEvent`] and a [`LentLine`] are an event and a line whose octets stay where they are. An [`AirItem`] is a frame
//! of one network on its way out.
//!
//! What a network makes of its events is left to the crates above.
//!
//! An acknowledgement to one network is an event to that alone, and a beacon interval to each:
//!
//! ```
//! use events::{LentEvent, LentLine};
//! use mac_frame::MacAddr;
//!
//! let lab = MacAddr::new([2, 0, 0, 0, 0, 1]);
//! let guest = MacAddr::new([2, 0, 0, 0, 0, 2]);
//! let line = LentLine::Air(&[0xd4, 0, 0, 0, 2, 0, 0, 0, 0, 1]);
//! assert!(rt; matches!(line.event_for(0, lab), Some(LentEvent::Air(_))));
//! assert!(rt; line.event_for(1, guest).is_none());
//! assert!(rt; matches!(LentLine::Tick.event_for(1, guest), Some(LentEvent::Tick)));
//! ```
#![tactic(auto)]

mod air_item;
mod audience;
mod event;
mod laws;
mod line;
mod section;

pub use air_item::{AirItem, Handed};
pub use audience::Audience;
pub use event::{Event, LentEvent, hears};
pub use laws::own_frames;
pub use line::{LentLine, Line};
pub use section::{Counts, Section, StationRow};
