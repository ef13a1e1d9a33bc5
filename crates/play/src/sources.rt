//! The lines of several sources, which are lent.

ghost use Rattle.std.specs.Prelude.{◌≡◌, ◌<◌, length};
ghost use Rattle.events.specs.LentEvents.{line_of};
ghost use Rattle.play.specs.Lines.{line_at, lines_of};
ghost use Rattle.play.specs.Sources.{lists_of};

use crate::LineLog;
use crate::name::PlayName;
use events::{LentLine, Line};
use mac_frame::NoMemory;
use std::alloc::Global;
use std::marker::PhantomData;

/// The lines of each of several sources, as whoever plays them keeps them.
#[derive(Clone, Copy)]
pub(crate) enum Sources<'a> {
    /// A log of lines for each.
    Logs(&'a [LineLog]),
    /// A list of lines for each.
    Lists(&'a [Vec<Line>]),
}

impl<'a> Sources<'a> {
    /// How many sources there are.
    pub(crate) fn len(self) -> usize
        ensures { result ≡ length (lists_of self.entry) }
    {
        match self {
            Sources::Logs(logs) => logs.len(),
            Sources::Lists(lists) => lists.len(),
        }
    }

    /// How many lines the source of this number has: none where there is no such source.
    pub(crate) fn lines(self, source: usize) -> usize
        ensures { result ≡ length (lines_of (lists_of self.entry) source) }
    {
        match self {
            Sources::Logs(logs) => match logs.get(source) {
                Some(log) => log.len(),
                None => 0,
            },
            Sources::Lists(lists) => match lists.get(source) {
                Some(list) => list.len(),
                None => 0,
            },
        }
    }

    /// The line of this number of a source: a tick where there is none.
    #[inline]
    pub(crate) fn line(self, source: usize, number: usize) -> LentLine<'a>
        ensures { line_of result ≡ line_at (lines_of (lists_of self.entry) source) number }
    {
        if number >= self.lines(source) {
            return LentLine::Tick;
        }
        match self {
            Sources::Logs(logs) => logs[source].get(number),
            Sources::Lists(lists) => lists[source][number].lend(),
        }
    }
}

/// A source of the play N: its number, from 0, with the lines of all sources.
#[derive(Drop)]
pub(crate) struct Source<'a, N: PlayName> {
    pub(crate) number: usize,
    pub(crate) all: Sources<'a>,
    pub(crate) of: PhantomData<N>,
    ghost known: { number < length N.play.sources },
    ghost own: { lists_of all ≡ N.play.sources },
}

impl<'a, N: PlayName> Source<'a, N> {
    /// How many lines it has.
    pub(crate) fn len(&self) -> usize
        ensures { result ≡ length (lines_of N.play.sources self.now.number) }
    {
        self.all.lines(self.number)
    }
}

/// The sources of the play N, in order.
pub(crate) fn sources_of<'a, N: PlayName>(
    alloc: Global,
    all: Sources<'a>,
) -> Result<Vec<Source<'a, N>>, NoMemory>
    requires { lists_of all ≡ N.play.sources }
{
    let mut sources = Vec::with_capacity(alloc, all.len())?;
    for number in 0..all.len() {
        sources.push(Source {
            number,
            all,
            of: PhantomData,
        })?;
    }
    Ok(sources)
}
