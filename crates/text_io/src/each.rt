//! Items that are written one after another.

ghost use Rattle.std.specs.Prelude.{◌≡◌, ◌+◌, ℕ, List, Ok, flat_map};
ghost use Rattle.text_io.specs.Buffers.{CanWrite, Puts, watch};
ghost use Rattle.text_io.specs.Endings.{Ends, failures_of, ending_of};
ghost use Rattle.text_io.specs.Sinks.{MayFail, report_ending, write_ending};

use crate::buffer::Buffered;
use crate::report_fault::ReportFault;
use crate::sink::{Failed, Sink};
use std::alloc::Global;

/// How many octets are collected before they go to the sink, so that a device is not asked for each item.
const PIECE_LEN: usize = 65536;

/// How an item is put before a sink. Contracts see its octets, which the item alone determines.
pub trait PutItem<T> {
    // What is written of an item.
    ghost written: { T → List ℕ };

    /// Puts an item after what was put before it.
    fn put<W: Sink>(&self, out: &mut Buffered<'_, W>, item: &T)
        requires { CanWrite W.failed out.old }
        ensures { Puts (watch W.taken W.failed) out.old out.new (written item.now) };
}

/// Has the sink take items, one after another, as `how` puts each. Nothing is left in a buffer.
///
/// `Write` comes exactly if a write to the sink failed, after which it is asked for nothing more: the number of its
/// failures rose by one. `NoMemory` and `Ok` leave that number. After either fault the sink has taken a prefix of what
/// is written of the items, perhaps nothing.
pub fn write_each<W: Sink, T, P: PutItem<T>>(
    alloc: Global,
    how: &P,
    items: &[T],
    out: &mut W,
) -> Result<(), ReportFault>
    requires { MayFail (W.failed out.old) }
    ensures ends { Ends (ending_of report_ending result) (Ok (flat_map P.written items.now))
        (W.taken out.old) (W.taken out.new) }
    ensures failures { W.failed out.new ≡ W.failed out.old + failures_of report_ending result }
{
    let mut piece = vec![in alloc; 0; PIECE_LEN]?;
    write_through(piece.as_mut_slice(), how, items, out)?;
    Ok(())
}

/// Has the sink take items through a piece of memory.
fn write_through<W: Sink, T, P: PutItem<T>>(
    piece: &mut [u8],
    how: &P,
    items: &[T],
    out: &mut W,
) -> Result<(), Failed>
    requires { MayFail (W.failed out.old) }
    ensures ends { Ends (ending_of write_ending result) (Ok (flat_map P.written items.now))
        (W.taken out.old) (W.taken out.new) }
    ensures failures { W.failed out.new ≡ W.failed out.old + failures_of write_ending result }
{
    let mut buffered = Buffered::new(out, piece);
    for item in items {
        how.put(&mut buffered, item);
    }
    buffered.flush()
}
