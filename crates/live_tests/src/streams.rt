//! A reader and a writer that fail where they are told to, and what becomes of a run over them.

use crate::samples::Sample;
use fixtures::texts::CONFIGURATION;
use live::{Face, Live, LiveFault, LiveRecords};
use std::alloc::Global;
use std::cell::Cell;
use std::io::{self, ErrorKind, Read, Write};
use text_io::{Counted, Sink, Source};

/// More octets, and more lines, than any input here has.
pub(crate) const MANY: usize = 1 << 32;

/// How an input is read, and how its answers are written.
#[derive(Clone, Copy)]
pub(crate) struct Streams {
    /// Where the first piece ends.
    pub(crate) cut: usize,
    /// How many octets a piece after it has at most.
    pub(crate) most: usize,
    /// After how many octets a read fails.
    pub(crate) readable: usize,
    /// How many octets the writer has room for.
    pub(crate) room: usize,
}

/// One piece, and no failure.
pub(crate) const WHOLE: Streams = Streams {
    cut: MANY,
    most: MANY,
    readable: MANY,
    room: MANY,
};

/// A reader of an input that looks, at each read, at how many octets the writer has taken.
#[derive(Drop)]
struct Looking<'a> {
    streams: Streams,
    sample: &'a Sample,
    taken: &'a Cell<usize>,
    given: usize,
    reads: usize,
    untimely: usize,
}

impl Read for Looking<'_> {
    fn read(&mut self, buf: &mut [u8]) -> io::Result<usize> {
        self.reads = self.reads.saturating_add(1);
        if self.sample.due.get(self.given).copied() != Some(self.taken.get()) {
            self.untimely = self.untimely.saturating_add(1);
        }
        if self.given == self.streams.readable {
            return Err(io::Error::from(ErrorKind::Other));
        }
        let end = if self.given < self.streams.cut {
            self.streams.cut
        } else {
            self.given.saturating_add(self.streams.most)
        };
        let input = self.sample.input.as_slice();
        let end = end.min(self.streams.readable).min(input.len());
        let mut piece = input.get(self.given..end).unwrap_or(b"");
        let count = piece.read(buf)?;
        self.given = self.given.saturating_add(count);
        Ok(count)
    }
}

/// A writer that has room for so many octets, and shows how many it has taken.
#[derive(Drop)]
pub(crate) struct Shown<'a> {
    pub(crate) octets: Vec<u8>,
    pub(crate) room: usize,
    pub(crate) taken: &'a Cell<usize>,
}

impl Write for Shown<'_> {
    fn write(&mut self, buf: &[u8]) -> io::Result<usize> {
        let room = self.room.saturating_sub(self.octets.len());
        let count = self.octets.write(&buf[..buf.len().min(room)])?;
        self.taken.set(self.octets.len());
        Ok(count)
    }

    fn flush(&mut self) -> io::Result<()> {
        Ok(())
    }
}

/// What became of a run.
#[derive(Drop)]
pub(crate) struct Outcome {
    pub(crate) answer: Result<(), LiveFault>,
    pub(crate) failed_reads: u64,
    pub(crate) failed_writes: u64,
    pub(crate) reads: usize,
    /// At how many reads the writer had taken more or less than was due.
    pub(crate) untimely: usize,
    pub(crate) written: Vec<u8>,
}

/// Answers an input over these streams.
pub(crate) fn run(alloc: Global, sample: &Sample, streams: Streams) -> Outcome {
    let taken = Cell::new(0);
    let mut source = Counted::new(Looking {
        streams,
        sample,
        taken: &taken,
        given: 0,
        reads: 0,
        untimely: 0,
    });
    let mut out = Counted::new(Shown {
        octets: Vec::new(alloc),
        room: streams.room,
        taken: &taken,
    });
    let config = CONFIGURATION.as_bytes();
    let answer = match sample.face {
        Face::Lines => Live::run(alloc, config, &mut source, &mut out),
        Face::Records => LiveRecords::run(alloc, config, &mut source, &mut out),
    };
    let failed_reads = source.failures();
    let failed_writes = out.failures();
    let reader = source.into_inner();
    Outcome {
        answer,
        failed_reads,
        failed_writes,
        reads: reader.reads,
        untimely: reader.untimely,
        written: out.into_inner().octets,
    }
}
