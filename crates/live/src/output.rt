//! What goes out about a line or a record, in the face that it came in.

ghost use Rattle.std.specs.Prelude.{ℕ, ◌++◌, codes, decimal, option_to_list};
ghost use Rattle.text_io.specs.Buffers.{CanWrite, Puts, watch};
ghost use Rattle.trace.specs.TraceText.{code_of};
ghost use Rattle.live_rules.specs.Moments.{Refuses, Sends};
ghost use Rattle.live.specs.Written.{written_fault, written_reply, written_tables};

mod records;
mod tables;
mod text;

use crate::face::Face;
use mac_frame::MacAddr;
use network::{Network, NetworkRefusal, Sent};
use records::AsRecords;
use report::AsText;
use tables::put_tables_in;
use text_io::{Buffered, Sink};
use trace::LineFault;

/// Puts that the line or record of a number has a fault.
pub fn put_fault<W: Sink>(face: Face, out: &mut Buffered<'_, W>, fault: LineFault, number: u64)
    requires { CanWrite W.failed out.old }
    ensures { Puts (watch W.taken W.failed) out.old out.new
        (written_fault face (codes "L" ++ decimal (code_of fault)) number) }
{
    match face {
        Face::Lines => text::put_line_fault(out, fault, number),
        Face::Records => records::put_fault(out, fault, number),
    }
}

/// Puts that a network refused the line or record of a number.
pub fn put_refusal<W: Sink>(
    face: Face,
    out: &mut Buffered<'_, W>,
    why: NetworkRefusal,
    bssid: MacAddr,
    number: u64,
)
    requires { CanWrite W.failed out.old }
    ensures { Puts (watch W.taken W.failed) out.old out.new (written_reply face number bssid (Refuses why)) }
{
    match face {
        Face::Lines => text::put_refusal(out, why, bssid, number),
        Face::Records => records::put_refusal(out, why, bssid, number),
    }
}

/// Puts the frames that a network sent: those on the air, and then the one on the wire, if there is one.
pub fn put_sent<W: Sink>(face: Face, out: &mut Buffered<'_, W>, bssid: MacAddr, sent: &Sent)
    requires { CanWrite W.failed out.old }
    ensures { (number : ℕ) → Puts (watch W.taken W.failed) out.old out.new
        (written_reply face number bssid (Sends sent.now.air (option_to_list sent.now.wire))) }
{
    match face {
        Face::Lines => text::put_sent(out, bssid, sent),
        Face::Records => records::put_sent(out, bssid, sent),
    }
}

/// Puts the table of each network, in order of place.
pub fn put_tables<W: Sink>(face: Face, out: &mut Buffered<'_, W>, networks: &[Network])
    requires { CanWrite W.failed out.old }
    ensures { Puts (watch W.taken W.failed) out.old out.new (written_tables face networks.now) }
{
    match face {
        Face::Lines => put_tables_in::<AsText, W>(out, networks),
        Face::Records => put_tables_in::<AsRecords, W>(out, networks),
    }
}
