//! From the octets of a configuration and of several traces, played at once, to those of a report (*profile*). All of
//! it is done by threads: they read the traces, play them, and make the text of the report.
//!
//! [`play_text`] promises that the report that it writes is one that `play` of `workers` may make of the traces. Each
//! network is alone with its own events, of which each trace gave its own in its order. A fault, a [`PlayTextFault`],
//! is the first one, and nothing was written then. What is read, and what is written, is the same however many threads
//! there are: if none can be made to read or to write, that is done in turn.
//!
//! How lines are played is left to `play`. Where the texts come from, and where the report goes, is left to the
//! program.
//!
//! Of two traces one is empty, so the report is that of the other:
//!
//! ```
//! use fixtures::texts::{ANSWERED_REPORT, CONFIGURATION, PROBE_LINE};
//! use mac_frame::Octets;
//! use play_text::play_text;
//! use text_io::Counted;
//!
//! let probe = Octets::from_slice(rt.alloc(), PROBE_LINE.as_bytes())?;
//! let traces = [probe, Octets::new(rt.alloc())];
//! let mut out = Counted::new(Vec::new(rt.alloc()));
//! play_text(&rt, rt.alloc(), CONFIGURATION.as_bytes(), &traces, &mut out)?;
//! assert_eq!(rt; out.into_inner().as_slice(), ANSWERED_REPORT.as_bytes());
//! ```
#![tactic(auto)]

mod fault;
mod playing;
mod reading;
mod reporting;
mod traces;

pub use fault::PlayTextFault;
pub use playing::{play_owned, play_text};
