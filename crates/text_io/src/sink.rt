//! Where octets go: anything that takes octets, a part at a time, and counts how often it failed.

ghost use Rattle.std.specs.Prelude.{◌≡◌, ℕ, ◌+◌, ◌<◌, ◌≤◌, List, Option, Ok, length, take, IfOk, OnErr};
ghost use Rattle.std.specs.Io.KnownBytes.{Appends, Keeps};
ghost use Rattle.text_io.specs.Endings.{Ends, failures_of, ending_of};
ghost use Rattle.text_io.specs.Sinks.{MayFail, write_ending};

/// A write that a sink refused. It took no octet.
#[derive(Clone, Copy, Debug, PartialEq, Eq)]
pub struct Failed;

/// A place that takes octets and counts its failures. Contracts see in it the octets that it has taken, or nothing
/// of them, and the number of its failures.
pub trait Sink {
    // The octets that it has taken, if they are known.
    ghost taken: { Self → Option (List ℕ) };

    // How often a write to it failed.
    ghost failed: { Self → ℕ };

    /// Takes a prefix of the piece, at least one octet of it, and answers how many octets. `Failed` comes exactly
    /// if the number of failures rises, by one; it then took none.
    fn write_some(&mut self, piece: &[u8]) -> Result<usize, Failed>
        requires some { 0 < length piece.now }
        requires few { MayFail (failed self.old) }
        ensures prefix { IfOk result (λ count. (1 ≤ count) × (count ≤ length piece.now)
            × Appends (taken self.old) (taken self.new) (take count piece.now)) }
        ensures err { OnErr result (Keeps (taken self.old) (taken self.new)) }
        ensures failures { failed self.new ≡ failed self.old + failures_of write_ending result };

    /// The number of its failures. It takes no memory.
    fn failures(&self) -> u64
        ensures { result ≡ failed self.now };
}

/// Has the sink take the whole text. It stops at the first failure, which is its answer; the sink has then taken a
/// prefix of the text.
pub fn write_all<W: Sink>(out: &mut W, text: &[u8]) -> Result<(), Failed>
    requires { MayFail (W.failed out.old) }
    ensures ends { Ends (ending_of write_ending result) (Ok text.now) (W.taken out.old) (W.taken out.new) }
    ensures failures { W.failed out.new ≡ W.failed out.old + failures_of write_ending result }
{
    let mut rest = text;
    while !rest.is_empty() {
        let count = out.write_some(rest)?;
        rest = &rest[count..];
    }
    Ok(())
}
