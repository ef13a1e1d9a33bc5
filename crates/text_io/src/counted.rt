//! Writers and readers of the standard library, with how often they failed and were read.

ghost use Rattle.std.specs.Prelude.{◌≡◌, ◌+◌};
ghost use Rattle.text_io.specs.Sinks.{MayFail};

use crate::sink::{Failed, Sink};
use crate::source::Source;
use std::io::{Read, Write};
use std::marker::Model;

/// A writer as a sink, or a reader as a source, with the number of its failures. An error is a failure, and so is a
/// write that takes no octet. It counts reads too, up to the most that 64 bits count.
///
/// It holds no octets itself, so what it has taken is what the writer has, and what it has left is what the reader has.
#[derive(Debug, Drop)]
pub struct Counted<T> {
    inner: T,
    failures: u64,
    reads: u64,
}

impl<T> Model for Counted<T> {
    ghost use Rattle.text_io.specs.Sinks.{CountedStream};

    ghost Value = { CountedStream T };

    ghost view = { λ c. record { inner = c.inner; failures = c.failures; reads = c.reads } };
}

impl<T> Counted<T> {
    /// The writer or reader, which has not failed and was not read.
    pub fn new(inner: T) -> Counted<T>
        ensures inner { result.inner ≡ inner }
        ensures failures { result.failures ≡ 0 }
        ensures reads { result.reads ≡ 0 }
    {
        Counted {
            inner,
            failures: 0,
            reads: 0,
        }
    }

    /// The writer or reader.
    pub fn into_inner(self) -> T
        ensures { result ≡ self.inner }
    {
        self.inner
    }

    /// A failure, which is counted.
    fn count_failure(&mut self) -> Failed
        requires { MayFail self.old.failures }
        ensures { self.new ≡ record self.old { failures = self.old.failures + 1 } }
    {
        self.failures += 1;
        Failed
    }
}

impl<T: Write> Sink for Counted<T> {
    ghost taken = { λ c. T.contents c.inner };

    ghost failed = { λ c. c.failures };

    fn write_some(&mut self, piece: &[u8]) -> Result<usize, Failed> {
        match self.inner.write(piece) {
            Ok(count) if count > 0 => Ok(count),
            Ok(_) | Err(_) => Err(self.count_failure()),
        }
    }

    fn failures(&self) -> u64 {
        self.failures
    }
}

impl<T: Read> Source for Counted<T> {
    ghost left = { λ c. T.remaining c.inner };

    ghost failed = { λ c. c.failures };

    ghost reads = { λ c. c.reads };

    fn read_some(&mut self, buffer: &mut [u8]) -> Result<usize, Failed> {
        self.reads = self.reads.saturating_add(1);
        match self.inner.read(buffer) {
            Ok(count) => Ok(count),
            Err(_) => Err(self.count_failure()),
        }
    }

    fn failures(&self) -> u64 {
        self.failures
    }
}
