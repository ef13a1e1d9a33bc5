//! The report of networks that keep no history, as text (*profile*).
//!
//! [`write_networks`] promises that a sink takes exactly the report of the networks that it is handed, or a prefix of
//! it if a write failed or memory ran out. [`as_sections`] promises that it is the report of the sections which the
//! same events make. A caller may have the frames become text by itself, as by several threads. For it the parts of a
//! network's section are given alone: [`put_heading`], and [`put_sent_frames`] of a [`FrameSlice`].
//!
//! A [`ReportedNetwork`] is what a report tells of such a network, with its frames or, as in a table, without them.
//!
//! What a line tells is left to `report`, and if it goes to `text_io`.
//!
//! The report of a network for which a beacon interval began:
//!
//! ```
//! use config_text::read_config;
//! use events::LentLine;
//! use fixtures::texts::CONFIGURATION;
//! use network_report::write_networks;
//! use networks::{KeepFrames, NetworkWithFrames, Networks};
//! use text_io::Counted;
//!
//! let config = read_config(rt.alloc(), CONFIGURATION.as_bytes())?;
//! let mut networks = Networks::<NetworkWithFrames>::open(rt.alloc(), config)?;
//! networks.take(&KeepFrames, LentLine::Tick, &mut ())?;
//! let mut out = Counted::new(Vec::new(rt.alloc()));
//! write_networks(rt.alloc(), networks.networks(), &mut out)?;
//! let text = b"network 02:00:00:00:00:01 ssid 6c6162\nevents 1 clock 1 ";
//! assert!(rt; out.into_inner().as_slice().starts_with(text));
//! ```
#![tactic(auto)]

mod frame_slice;
mod laws;
mod section;
mod writing;

pub use frame_slice::FrameSlice;
pub use laws::as_sections;
pub use section::{ReportedNetwork, put_heading, put_network, put_sent_frames};
pub use writing::write_networks;
