//! What a trial comes to, and what comes before its calls.

use events::Section;
use mac_frame::NoMemory;
use report::write_report;
use std::alloc::{AllocError, Global};
use text_io::Counted;

/// The octets of a piece of memory into which a report or another text is written, so that it takes one allocation.
pub const ROOM: usize = 32768;

/// Why a trial is given up.
#[derive(Clone, Copy)]
pub enum Flaw {
    /// A call that it doesn't try failed: memory ran out, or the texts are not for this trial.
    Beside,
    /// A call that it tries did what it should not; the line of it.
    Wrong(&'static str),
}

/// A call that was refused changed what it should have left.
pub const CHANGED: Flaw = Flaw::Wrong("wrong: a refused call changed something\n");

/// A call answered what it should not.
pub const ANSWER: Flaw = Flaw::Wrong("wrong: another answer\n");

/// Memory ran out in a call though it ran out before, or answers otherwise than the first time.
pub const AGAIN: Flaw = Flaw::Wrong("wrong: not taken when it was offered again\n");

impl From<NoMemory> for Flaw {
    fn from(_refused: NoMemory) -> Flaw {
        Flaw::Beside
    }
}

impl From<AllocError> for Flaw {
    fn from(_refused: AllocError) -> Flaw {
        Flaw::Beside
    }
}

/// This many allocations before the calls that are tried, of which nothing is left. It stops at the one that fails.
pub(crate) fn grow(alloc: Global, count: u32) -> Result<(), AllocError> {
    for _ in 0..count {
        let _: Vec<u8> = Vec::with_capacity(alloc, 1)?;
    }
    Ok(())
}

/// Writes the report of sections, after the calls that are tried.
pub(crate) fn report_sections(
    alloc: Global,
    sections: &[Section],
    report: &mut Vec<u8>,
) -> Result<(), NoMemory> {
    match write_report(alloc, sections, &mut Counted::new(report)) {
        Ok(()) => Ok(()),
        Err(_) => Err(NoMemory),
    }
}
