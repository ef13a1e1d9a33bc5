//! Trace texts: what happened to the networks of a radio, in lines.
//!
//! [`read_trace`] gives the lines of a text, or its first fault with the number of its line.

ghost use Rattle.text_io.specs.Endings.{Gives};
ghost use Rattle.text_io.specs.Faults.{read_ending};
ghost use Rattle.trace.specs.TraceText.{lines_of};

use crate::fault::TraceTextFault;
use crate::line_reader::LineReader;
use crate::take_lines::OwnedLines;
use ap_config::RadioConfig;
use events::Line;
use std::alloc::Global;

/// Reads a trace text: lines that end with LF, of which the last may lack it. A CR directly before the LF is dropped,
/// and then the spaces at the end of a line. What a line says, and which fault it has, [`crate::read_line`] tells for
/// the addresses of the networks of `config`.
///
/// A text with a fault gives the first, with the number of its line, counted from 1. A line after the 1,000,000th is
/// `L5`, before any other fault of it. Skipped lines count.
pub fn read_trace(
    alloc: Global,
    config: &RadioConfig,
    text: &[u8],
) -> Result<Vec<Line>, TraceTextFault>
    ensures exact { Gives (λ read. read.items) read_ending result (lines_of config.now text.now) }
{
    let reader = LineReader::new(alloc, config)?;
    let mut owned = OwnedLines::new(alloc);
    reader.take_text(text, &mut owned)?;
    Ok(owned.lines)
}
