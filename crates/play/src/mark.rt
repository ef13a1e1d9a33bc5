//! What a log keeps of a line beside its octets.

ghost use Rattle.std.specs.Prelude.{◌≡◌, ◌<◌, ◌≤◌, length};
ghost use Rattle.events.specs.LentEvents.{line_of};
ghost use Rattle.play.specs.LineLog.{line_with, octets_between, start_of};

use events::LentLine;

/// What a line tells of.
#[derive(Clone, Copy, Debug)]
pub(crate) enum Kind {
    /// A string of octets was heard on the air.
    Air,
    /// A frame came over the wire to one network.
    Wire {
        /// The network's place in the configuration, from 0.
        place: usize,
    },
    /// A beacon interval began. It has no octets.
    Tick,
}

/// A line of a log.
#[derive(Clone, Copy, Debug)]
pub(crate) struct Mark {
    pub(crate) kind: Kind,
    /// Where its octets end, among those of all lines. They begin where those of the line before end.
    pub(crate) end: usize,
}

impl Kind {
    /// The line of this kind with these octets.
    #[inline]
    pub(crate) fn line(self, octets: &[u8]) -> LentLine<'_>
        ensures { line_of result ≡ line_with self octets.now }
    {
        match self {
            Kind::Air => LentLine::Air(octets),
            Kind::Wire { place } => LentLine::Wire { place, octets },
            Kind::Tick => LentLine::Tick,
        }
    }
}

/// The kind of a line, and its octets.
#[inline]
pub(crate) fn parts_of<'a>(line: LentLine<'a>) -> (Kind, &'a [u8])
    ensures { line_with result.0 result.1.now ≡ line_of line.entry }
{
    match line {
        LentLine::Air(octets) => (Kind::Air, octets),
        LentLine::Wire { place, octets } => (Kind::Wire { place }, octets),
        LentLine::Tick => (Kind::Tick, &[]),
    }
}

/// The octets from one place up to another.
#[inline]
pub(crate) fn octets_between(octets: &[u8], start: usize, end: usize) -> &[u8]
    requires begins { start ≤ end }
    requires ends { end ≤ length octets.now }
    ensures { result.now ≡ octets_between start end octets.now }
{
    &octets[start..end]
}

/// Where the octets of the line of this number begin, among those of all lines.
#[inline]
pub(crate) fn start_of(marks: &[Mark], number: usize) -> usize
    requires { number < length marks.now }
    ensures { result ≡ start_of 0 marks.now number }
{
    match number.checked_sub(1) {
        Some(before) => marks[before].end,
        None => 0,
    }
}
