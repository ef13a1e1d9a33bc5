//! From the octets of a configuration and of a trace to those of a report (*profile*): each network takes what it
//! hears, alone.
//!
//! It promises this on [`run_text`]. If it ends well, what it wrote is the report of what each network alone makes of
//! its own events of the trace. A fault of the configuration or of the trace is the first one, and nothing was written
//! then. If memory ran out or a write failed, what was written is nothing or a prefix of that report. [`run_stream`]
//! promises the same of a trace that it reads as it comes, a piece at a time. Both keep no history; [`report_texts`]
//! promises the same, and hands out the sections with the events. A [`Replay`] makes the sections of a report, one line
//! at a time. [`split_joined`] cuts a text that holds a configuration and a trace, and [`check_text`] writes how many
//! networks a configuration has, or answers its first fault.
//!
//! There are two ways to it, each in a folder of its own. In `run` the networks keep no history. In `model` a radio with
//! its queue takes the lines, and each network keeps its events: that is the definition of a radio in code, and the way of
//! standard input. Both answer one definition, `answer_of`, with the same faults.
//!
//! Where the texts come from, and where the report goes, is left to the program.
//!
//! A network hears a probe request, and the report has its answer:
//!
//! ```
//! use fixtures::texts::{ANSWERED_REPORT, CONFIGURATION, PROBE_LINE};
//! use replay::run_text;
//! use text_io::Counted;
//!
//! let mut out = Counted::new(Vec::new(rt.alloc()));
//! run_text(rt.alloc(), CONFIGURATION.as_bytes(), PROBE_LINE.as_bytes(), &mut out)?;
//! assert_eq!(rt; out.into_inner().as_slice(), ANSWERED_REPORT.as_bytes());
//! ```
#![tactic(auto)]

mod check;
mod fault;
mod joined;
mod model;
mod run;

pub use check::check_text;
pub use fault::{StreamFault, TextFault};
pub use joined::split_joined;
pub use model::{Replay, report_texts};
pub use run::{run_stream, run_text};
