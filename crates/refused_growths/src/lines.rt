//! Pieces of a trace that are offered to a reader of lines.

use crate::asked::Asked;
use crate::outcome::{AGAIN, Flaw, ROOM, grow};
use config_text::read_config;
use events::Line;
use mac_frame::NoMemory;
use replay::run_text;
use std::alloc::Global;
use std::fmt::Write;
use text_io::{Counted, ReadFault};
use trace::{LineReader, read_trace};

/// The octets of a piece.
const PIECE_LEN: usize = 7;

/// Offers a trace in small pieces, each once more if it is refused for memory, and its end so too. The lines that
/// they gave must be those of the trace.
pub(crate) fn feed_pieces(
    alloc: Global,
    asked: &Asked<'_>,
    report: &mut Vec<u8>,
) -> Result<bool, Flaw> {
    let Ok(config) = read_config(alloc, asked.config) else {
        return Err(Flaw::Beside);
    };
    let mut reader = LineReader::new(alloc, &config)?;
    let mut said = String::with_capacity(alloc, ROOM)?;
    grow(alloc, asked.before)?;
    let mut was_refused = false;
    for piece in asked.trace.chunks(PIECE_LEN) {
        was_refused |= feed(&mut reader, piece, &mut said)?;
    }
    was_refused |= end(&mut reader, &mut said)?;
    let Ok(lines) = read_trace(alloc, &config, asked.trace) else {
        return Err(Flaw::Beside);
    };
    let mut whole = String::with_capacity(alloc, ROOM)?;
    write_lines(lines.as_slice(), &mut whole)?;
    if said != whole {
        return Err(Flaw::Wrong("wrong: the pieces gave other lines\n"));
    }
    match run_text(alloc, asked.config, asked.trace, &mut Counted::new(report)) {
        Ok(()) => Ok(was_refused),
        Err(_) => Err(Flaw::Beside),
    }
}

/// Offers a piece, and once more if it is refused. Answers whether it was.
fn feed(reader: &mut LineReader, piece: &[u8], said: &mut String) -> Result<bool, Flaw> {
    let (lines, was_refused) = match reader.feed(piece) {
        Err(ReadFault::NoMemory) => (reader.feed(piece), true),
        lines => (lines, false),
    };
    let Ok(lines) = lines else {
        return Err(AGAIN);
    };
    write_lines(lines.as_slice(), said)?;
    Ok(was_refused)
}

/// Ends the text, and once more if that is refused. Answers whether it was.
fn end(reader: &mut LineReader, said: &mut String) -> Result<bool, Flaw> {
    let (line, was_refused) = match reader.end() {
        Err(ReadFault::NoMemory) => (reader.end(), true),
        line => (line, false),
    };
    match line {
        Ok(Some(line)) => write_lines(&[line], said)?,
        Ok(None) => {}
        Err(_) => return Err(AGAIN),
    }
    Ok(was_refused)
}

/// Adds lines to a text, which has room for them.
fn write_lines(lines: &[Line], text: &mut String) -> Result<(), NoMemory> {
    for line in lines {
        if write!(text, "{line:?} ").is_err() {
            return Err(NoMemory);
        }
    }
    Ok(())
}
