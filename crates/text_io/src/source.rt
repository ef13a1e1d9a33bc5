//! Where octets come from: anything that gives octets, a part at a time, and counts how often it failed.

ghost use Rattle.std.specs.Prelude.{◌≡◌, ℕ, ◌+◌, ◌<◌, ◌≤◌, List, Option, length, take, IfOk, OnErr};
ghost use Rattle.std.specs.Io.KnownBytes.{Consumes, IsAtEnd, Keeps};
ghost use Rattle.text_io.specs.Sinks.{MayFail, failed_reads};
ghost use Rattle.text_io.specs.Streams.{reads_after};

use crate::sink::Failed;

/// A place that gives octets and counts its failures. Contracts see in it the octets that it has left, or nothing of
/// them, the number of its failures, and how many reads were made of it.
pub trait Source {
    // The octets that it has left, if they are known.
    ghost left: { Self → Option (List ℕ) };

    // How often a read of it failed.
    ghost failed: { Self → ℕ };

    // How many reads were made of it, as far as 64 bits count.
    ghost reads: { Self → ℕ };

    /// Fills a prefix of the buffer, and answers how many octets it has: 0 only at the end. `Failed` comes exactly
    /// if the number of failures rises, by one; it then gave none.
    fn read_some(&mut self, buffer: &mut [u8]) -> Result<usize, Failed>
        requires some { 0 < length buffer.old }
        requires few { MayFail (failed self.old) }
        ensures prefix { IfOk result (λ count. (count ≤ length buffer.new)
            × Consumes (left self.old) (left self.new) (take count buffer.new)) }
        ensures end { IfOk result (λ count. count ≡ 0 → IsAtEnd (left self.new)) }
        ensures err { OnErr result (Keeps (left self.old) (left self.new)) }
        ensures failures { failed self.new ≡ failed self.old + failed_reads result }
        ensures reads { reads self.new ≡ reads_after (reads self.old) 1 };

    /// The number of its failures. It takes no memory.
    fn failures(&self) -> u64
        ensures { result ≡ failed self.now };
}
