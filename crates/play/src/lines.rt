//! Lines that are kept.

ghost use Rattle.std.specs.Prelude.{◌≡◌, ◌<◌, ◌++◌, ◌∷◌, [], OnOk, OnErr, length, slice_index_or};
ghost use Rattle.events.specs.LentEvents.{line_of};
ghost use Rattle.events.specs.declared.line.Line.TheVariants as line;

use crate::mark::{Mark, octets_between, parts_of, start_of};
use events::LentLine;
use mac_frame::NoMemory;
use std::alloc::Global;
use std::marker::Model;

/// Lines in order, each with its number, from 0. Contracts see a list of lines. Their octets stand one after another in
/// one piece of memory, so that no line takes memory of its own that would be given back line by line.
#[derive(Drop)]
pub struct LineLog {
    octets: Vec<u8>,
    marks: Vec<Mark>,
}

impl Model for LineLog {
    ghost use Rattle.std.specs.Prelude.{List, length};
    ghost use Rattle.events.specs.declared.line.Line.{Line};
    ghost use Rattle.play.specs.LineLog.{lines_from, AreInOrder};

    ghost Value = { List Line };

    ghost view = { λ l. lines_from 0 l.marks.items l.octets.items };

    ghost invariant = { λ l. AreInOrder 0 l.marks.items (length l.octets.items) };
}

impl LineLog {
    /// No line. It takes no memory.
    pub fn new(alloc: Global) -> LineLog
        ensures { result ≡ [] }
    {
        LineLog {
            octets: Vec::new(alloc),
            marks: Vec::new(alloc),
        }
    }

    /// Adds a line after the others, whose octets are copied. After `NoMemory` the lines are as they were.
    pub fn push(&mut self, line: LentLine<'_>) -> Result<(), NoMemory>
        ensures ok { OnOk result (self.new ≡ self.old ++ line_of line.entry ∷ []) }
        ensures err { OnErr result (self.new ≡ self.old) }
    {
        let (kind, octets) = parts_of(line);
        self.marks.reserve(1)?;
        self.octets.extend_from_slice(octets)?;
        // All that may be refused is done.
        let end = self.octets.len();
        self.marks.push_reserved(Mark { kind, end });
        Ok(())
    }

    /// How many lines there are.
    #[inline]
    pub fn len(&self) -> usize
        ensures { result ≡ length self.now }
    {
        self.marks.len()
    }

    /// The line of this number.
    #[inline]
    pub fn get(&self, number: usize) -> LentLine<'_>
        requires { number < length self.now }
        ensures { line_of result ≡ slice_index_or self.now number line.Tick }
    {
        let mark = self.marks[number];
        let start = start_of(self.marks.as_slice(), number);
        let octets = octets_between(self.octets.as_slice(), start, mark.end);
        mark.kind.line(octets)
    }
}
