//! Lines that are taken, one after another.

ghost use Rattle.std.specs.Prelude.{◌≡◌, ◌++◌, List, [], ◌∷◌, IfOk, OnOk};
ghost use Rattle.ap_config.specs.declared.config.RadioConfig.{RadioConfig};
ghost use Rattle.events.specs.LentEvents.{line_of};
ghost use Rattle.events.specs.declared.line.Line.{Line};

use events::{LentLine, Line};
use mac_frame::{NoMemory, Octets};
use std::alloc::Global;

/// What takes the lines of a trace, one after another, each of which is lent.
pub trait TakeLines {
    // It has taken these lines, as the networks of a configuration.
    ghost has_taken: { RadioConfig → List Line → Self → Type 0 };

    /// Takes a line after the others. `NoMemory` if memory ran out.
    fn take_line(&mut self, line: LentLine<'_>) -> Result<(), NoMemory>
        ensures { (c : RadioConfig) (said : List Line) → has_taken c said self.old
            → OnOk result (has_taken c (said ++ line_of line.entry ∷ []) self.new) };
}

/// Lines that are kept, each in memory of its own.
#[derive(Drop)]
pub(crate) struct OwnedLines {
    alloc: Global,
    pub(crate) lines: Vec<Line>,
}

impl TakeLines for OwnedLines {
    ghost has_taken = { λ c said owned. owned.lines.items ≡ said };

    fn take_line(&mut self, line: LentLine<'_>) -> Result<(), NoMemory> {
        let owned = copy(self.alloc, line)?;
        self.lines.push(owned)?;
        Ok(())
    }
}

impl OwnedLines {
    /// No line. It takes no memory.
    pub(crate) fn new(alloc: Global) -> OwnedLines
        ensures { result.lines.items ≡ [] }
    {
        OwnedLines {
            alloc,
            lines: Vec::new(alloc),
        }
    }
}

/// A line with a copy of the octets that were lent. `NoMemory` if memory ran out.
fn copy(alloc: Global, line: LentLine<'_>) -> Result<Line, NoMemory>
    ensures { IfOk result (λ copy. copy ≡ line_of line.entry) }
{
    match line {
        LentLine::Air(octets) => Ok(Line::Air(Octets::from_slice(alloc, octets)?)),
        LentLine::Wire { place, octets } => Ok(Line::Wire {
            place,
            octets: Octets::from_slice(alloc, octets)?,
        }),
        LentLine::Tick => Ok(Line::Tick),
    }
}
