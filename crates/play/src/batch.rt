//! Lines of a source that are given together.

ghost use Rattle.std.specs.Prelude.{◌≡◌, ◌<◌, ◌≤◌, ◌+◌, ◌^◌, Some, None, length, vec_len};
ghost use Rattle.std.specs.Prelude.{if◌then◌else◌};
ghost use Rattle.events.specs.LentEvents.{event_of, line_of};
ghost use Rattle.events.specs.Lines.{event_for, event_of_line};
ghost use Rattle.network.specs.ReceivedEvents.{event_received};
ghost use Rattle.play.specs.Lines.{StandFrom, lines_of};

use crate::name::PlayName;
use crate::sources::Source;
use events::{Audience, LentLine};
use mac_frame::{MacAddr, NoMemory};
use network::ReceivedEvent;
use std::alloc::Global;
use std::marker::{Model, PhantomData};

/// A line, of which what is the same for every network was read once. Contracts see the line.
#[derive(Debug, Drop)]
pub(crate) struct ReadLine<'a> {
    line: LentLine<'a>,
    audience: Audience,
    event: ReceivedEvent<'a>,
}

impl<'a> Model for ReadLine<'a> {
    ghost use Rattle.std.specs.Prelude.{◌≡◌};
    ghost use Rattle.events.specs.Audiences.{IsAudience};
    ghost use Rattle.events.specs.LentEvents.{line_of};
    ghost use Rattle.events.specs.Lines.{event_of_line};
    ghost use Rattle.events.specs.declared.line.Line.{Line};
    ghost use Rattle.network.specs.ReceivedEvents.{event_received};

    ghost Value = { Line };

    ghost view = { λ r. line_of r.line };

    ghost invariant = { λ r.
        (event_received r.event ≡ event_of_line (line_of r.line)) × IsAudience r.audience (line_of r.line) };
}

impl<'a> ReadLine<'a> {
    /// A line, which is read.
    pub(crate) fn of(line: LentLine<'a>) -> ReadLine<'a>
        ensures { result ≡ line_of line.entry }
    {
        ReadLine {
            line,
            audience: Audience::of(line),
            event: ReceivedEvent::for_all(line.event()),
        }
    }

    /// The event that it is to each network that hears it.
    #[inline(always)]
    pub(crate) fn event(&self) -> &ReceivedEvent<'a>
        ensures { event_received result.now ≡ event_of_line self.now }
    {
        &self.event
    }

    /// Whether the network with this place and this BSSID hears it.
    #[inline(always)]
    pub(crate) fn is_heard_by(&self, place: usize, bssid: MacAddr) -> bool
        ensures { event_for place bssid self.now
            ≡ (if result then Some (event_of_line self.now) else None) }
    {
        self.audience.has(place, bssid)
    }
}

/// Lines of a source of the play N that are given together.
#[derive(Drop)]
pub(crate) struct Batch<'a, N: PlayName> {
    /// The number of the source.
    pub(crate) source: usize,
    /// The number of the first of the lines.
    pub(crate) first: usize,
    pub(crate) lines: Vec<ReadLine<'a>>,
    pub(crate) of: PhantomData<N>,
    ghost known: { source < length N.play.sources },
    ghost stand: { StandFrom (lines_of N.play.sources source) first lines.items },
    ghost fits: { first + vec_len lines < 2 ^ 64 },
}

impl<'a, N: PlayName> Batch<'a, N> {
    /// The lines of a source from a number on, below another.
    pub(crate) fn read(
        alloc: Global,
        source: &Source<'a, N>,
        first: usize,
        end: usize,
    ) -> Result<Batch<'a, N>, NoMemory>
        requires order { first ≤ end }
        requires within { end ≤ length (lines_of N.play.sources source.now.number) }
    {
        let mut lines = Vec::with_capacity(alloc, end - first)?;
        for number in first..end {
            lines.push(ReadLine::of(source.all.line(source.number, number)))?;
        }
        Ok(Batch {
            source: source.number,
            first,
            lines,
            of: PhantomData,
        })
    }
}
