//! What goes out: the lines that answer a line, each put after what came before it, and dropped if the sink failed.

ghost use Rattle.std.specs.Prelude.{◌≡◌, ◌++◌, codes, decimal, option_to_list, option_map};
ghost use Rattle.mac_frame.specs.Address.{address_text};
ghost use Rattle.text_io.specs.Buffers.{CanWrite, Puts, watch};
ghost use Rattle.report.specs.Report.{frame_line};
ghost use Rattle.text_io.specs.Texts.{ended};
ghost use Rattle.trace.specs.TraceText.{code_of};
ghost use Rattle.live_rules.specs.AnswerText.{fault_words, frame_words, refusal_word, reply_text};
ghost use Rattle.live_rules.specs.Moments.{Refuses};
ghost use Rattle.live.specs.Frames.{frames_text};

use mac_frame::{MacAddr, Octets};
use network::{NetworkRefusal, Sent};
use report::address_text;
use text_io::{Buffered, Sink};
use trace::LineFault;

/// Puts a number in decimal digits.
fn put_number<W: Sink>(out: &mut Buffered<'_, W>, number: u64)
    requires { CanWrite W.failed out.old }
    ensures { Puts (watch W.taken W.failed) out.old out.new (decimal number) }
{
    let mut digits = itoa::Buffer::new();
    out.put(digits.format(number).as_bytes());
}

/// Puts an address: its octets as pairs of hexadecimal digits in lower case, with `:` between.
fn put_address<W: Sink>(out: &mut Buffered<'_, W>, address: MacAddr)
    requires { CanWrite W.failed out.old }
    ensures { Puts (watch W.taken W.failed) out.old out.new (address_text address) }
{
    out.put(&address_text(address));
}

/// Puts a frame's line: where it went, the address of its network, and its octets.
#[inline(always)]
fn put_frame<W: Sink>(out: &mut Buffered<'_, W>, word: &[u8], bssid: MacAddr, frame: &[u8])
    requires { CanWrite W.failed out.old }
    ensures { Puts (watch W.taken W.failed) out.old out.new
        (frame_line (frame_words word.now bssid) frame.now) }
{
    out.put(word);
    out.put(b" ");
    put_address(out, bssid);
    out.put(b" ");
    out.put_digits(frame);
    out.put(b"\n");
}

/// Puts the words of a fault of the line of a number.
fn put_fault_words<W: Sink>(out: &mut Buffered<'_, W>, fault: &[u8], number: u64)
    requires { CanWrite W.failed out.old }
    ensures { Puts (watch W.taken W.failed) out.old out.new
        (fault_words fault.now number) }
{
    out.put(b"fault ");
    out.put(fault);
    out.put(b" line ");
    put_number(out, number);
}

/// Puts the line of a fault of the line of a number.
pub fn put_line_fault<W: Sink>(out: &mut Buffered<'_, W>, fault: LineFault, number: u64)
    requires { CanWrite W.failed out.old }
    ensures { Puts (watch W.taken W.failed) out.old out.new
        (ended (fault_words (codes "L" ++ decimal (code_of fault)) number)) }
{
    out.put(b"fault L");
    put_number(out, u64::from(fault.code()));
    out.put(b" line ");
    put_number(out, number);
    out.put(b"\n");
}

/// Puts that a network refused the line of a number.
pub fn put_refusal<W: Sink>(
    out: &mut Buffered<'_, W>,
    why: NetworkRefusal,
    bssid: MacAddr,
    number: u64,
)
    requires { CanWrite W.failed out.old }
    ensures { Puts (watch W.taken W.failed) out.old out.new
        (reply_text number bssid (Refuses why)) }
{
    put_fault_words(out, refusal_word(why), number);
    out.put(b" network ");
    put_address(out, bssid);
    out.put(b"\n");
}

/// The word for a refusal.
pub fn refusal_word(why: NetworkRefusal) -> &'static [u8]
    ensures { result.now ≡ refusal_word why }
{
    match why {
        NetworkRefusal::NoMemory => b"memory",
        NetworkRefusal::Clock => b"clock",
    }
}

/// Puts the frames that a network sent: those on the air, and then the one on the wire, if there is one.
pub fn put_sent<W: Sink>(out: &mut Buffered<'_, W>, bssid: MacAddr, sent: &Sent)
    requires { CanWrite W.failed out.old }
    ensures { Puts (watch W.taken W.failed) out.old out.new
        (frames_text (codes "air") bssid sent.now.air
        ++ frames_text (codes "wire") bssid (option_to_list sent.now.wire)) }
{
    let (first, others) = sent.air.parts();
    put_frame_if(out, b"air", bssid, first);
    put_frames(out, b"air", bssid, others);
    put_frame_if(out, b"wire", bssid, sent.wire.as_ref());
}

/// Puts the line of a frame, if there is one.
#[inline(always)]
fn put_frame_if<W: Sink>(
    out: &mut Buffered<'_, W>,
    word: &[u8],
    bssid: MacAddr,
    frame: Option<&Octets>,
)
    requires { CanWrite W.failed out.old }
    ensures { Puts (watch W.taken W.failed) out.old out.new
        (frames_text word.now bssid (option_to_list (option_map (λ octets. octets.now) frame.entry))) }
{
    if let Some(octets) = frame {
        put_frame(out, word, bssid, octets.as_slice());
    }
}

/// Puts the lines of frames.
fn put_frames<W: Sink>(out: &mut Buffered<'_, W>, word: &[u8], bssid: MacAddr, frames: &[Octets])
    requires { CanWrite W.failed out.old }
    ensures { Puts (watch W.taken W.failed) out.old out.new
        (frames_text word.now bssid frames.now) }
{
    for frame in frames {
        put_frame(out, word, bssid, frame.as_slice());
    }
}
