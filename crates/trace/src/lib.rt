//! What a trace text says to the networks of a radio, line by line (*profile*).
//!
//! A [`LineReader`] promises to answer to the pieces of a trace text, however it is cut, what the text says
//! ([`cut_anywhere`]), and [`read_trace`] the lines that a whole text writes, or its first fault, or that memory ran
//! out.
//!
//! The other texts have crates of their own: the configuration `config_text`, the report `report`, and the octets that
//! go in and out `text_io`. Of these it gives on what a caller needs from a text to a report: [`read_config`],
//! [`write_report`], and [`Counted`] to read from and write to. Which lines a network hears, and what it does about
//! them, is left to the networks.
//!
//! A trace of two lines, and one whose second line is of no known kind (L1):
//!
//! ```
//! use fixtures::texts::{CONFIGURATION, PROBE_LINE};
//! use text_io::ReadFault;
//! use trace::{LineFault, read_config, read_trace};
//!
//! let config = read_config(rt.alloc(), CONFIGURATION.as_bytes())?;
//! let text = format!(in rt.alloc(); "T\n{PROBE_LINE}")?;
//! let lines = read_trace(rt.alloc(), &config, text.as_bytes())?;
//! assert_eq!(rt; lines.len(), 2);
//! let fault = read_trace(rt.alloc(), &config, b"T\nX\n").err();
//! assert_eq!(rt; fault, Some(ReadFault::At(LineFault::UnknownKind.at(2))));
//! ```
#![tactic(auto)]

mod fault;
mod laws;
mod line;
mod line_buffer;
mod line_reader;
mod read;
mod take_lines;
mod take_text;

pub use config_text::{ConfigTextFault, read_config};
pub use fault::{LineFault, TraceFault, TraceTextFault};
pub use laws::{cut_anywhere, piece_by_piece};
pub use line::{place_with, read_content, read_line, without_spaces_at_end};
pub use line_buffer::LineBuffer;
pub use line_reader::LineReader;
pub use read::read_trace;
pub use report::write_report;
pub use take_lines::TakeLines;
pub use take_text::{TakeText, cut_text};
pub use text_io::{Counted, Failed, ReportFault, Sink, Source};
