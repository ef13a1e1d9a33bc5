//! What goes out as records, each put after what came before it, and dropped if the sink failed.

ghost use Rattle.std.specs.Prelude.{◌≡◌, ◌≤◌, ◌*◌, ◌++◌, ◌^◌, ◌-◌, codes, decimal, flat_map, length, min, option_to_list, option_map};
ghost use Rattle.hex.specs.Hex.{encode_lower};
ghost use Rattle.text_io.specs.Buffers.{CanWrite, Puts, watch};
ghost use Rattle.text_io.specs.Texts.{ended};
ghost use Rattle.trace.specs.TraceText.{code_of};
ghost use Rattle.live.specs.AnswerOctets.{record_header, record_of, told, record_fault, reply_octets};
ghost use Rattle.live.specs.AnswerOctets.{told-nothing};
ghost use Rattle.live_rules.specs.Moments.{Refuses};
ghost use Rattle.live.specs.Frames.{frames_octets};

use super::text::refusal_word;
use mac_frame::{MacAddr, Octets};
use network::{NetworkRefusal, Sent};
use report::{LineForm, address_text};
use text_io::{Buffered, Sink};
use trace::LineFault;

/// A frame that is sent on the air.
const AIR: u8 = b'A';

/// A frame that is sent on the wire.
const WIRE: u8 = b'W';

/// A line for people.
const TOLD: u8 = b'N';

/// The most octets of which a record can say how many they are.
const MAX_OCTETS: usize = 65_535;

/// No BSSID.
const NOBODY: [u8; 6] = [0; 6];

/// Puts what stands before the octets of a record.
#[inline(always)]
fn put_header<W: Sink>(out: &mut Buffered<'_, W>, kind: u8, bssid: [u8; 6], count: usize)
    requires few { count ≤ 65535 }
    requires can_write { CanWrite W.failed out.old }
    ensures { Puts (watch W.taken W.failed) out.old out.new (record_header kind bssid count) }
{
    let [a, b, c, d, e, f] = bssid;
    let low = (count % 256) as u8;
    let high = (count / 256) as u8;
    out.put(&[kind, a, b, c, d, e, f, low, high]);
}

/// Puts a record of these octets, unless they are too many for one.
#[inline(always)]
fn put_record<W: Sink>(out: &mut Buffered<'_, W>, kind: u8, bssid: [u8; 6], octets: &[u8])
    requires { CanWrite W.failed out.old }
    ensures { Puts (watch W.taken W.failed) out.old out.new (record_of kind bssid octets.now) }
{
    if octets.len() > MAX_OCTETS {
        return;
    }
    put_header(out, kind, bssid, octets.len());
    out.put(octets);
}

/// How many octets parts have together, as far as can be counted.
fn total_len(parts: &[&[u8]]) -> usize
    ensures { result ≡ min (length (flat_map (λ part. part.now) parts.now)) (2 ^ 64 - 1) }
{
    let mut len: usize = 0;
    for part in parts {
        len = len.saturating_add(part.len());
    }
    len
}

/// Puts a line for people, of these parts, of which the last ends it; none if they are empty.
fn put_notice<W: Sink>(out: &mut Buffered<'_, W>, parts: &[&[u8]])
    requires { CanWrite W.failed out.old }
    ensures { Puts (watch W.taken W.failed) out.old out.new (told (flat_map (λ part. part.now) parts.now)) }
{
    let len = total_len(parts);
    if len == 0 {
        return;
    }
    if len > MAX_OCTETS {
        return;
    }
    put_header(out, TOLD, NOBODY, len);
    out.put_parts(parts);
}

/// Puts a line for people: these parts, then these octets as digits, and LF.
fn put_notice_digits<W: Sink>(out: &mut Buffered<'_, W>, parts: &[&[u8]], octets: &[u8])
    requires { CanWrite W.failed out.old }
    ensures { Puts (watch W.taken W.failed) out.old out.new
        (told (ended (flat_map (λ part. part.now) parts.now ++ encode_lower octets.now))) }
{
    let digits = octets.len().saturating_mul(2);
    let len = total_len(parts).saturating_add(digits).saturating_add(1);
    if len > MAX_OCTETS {
        return;
    }
    put_header(out, TOLD, NOBODY, len);
    out.put_parts(parts);
    out.put_digits(octets);
    out.put(b"\n");
}

/// A line of a table as a line for people.
pub struct AsRecords;

impl LineForm for AsRecords {
    ghost written = { told };

    ghost nothing = { told-nothing };

    fn put_line<W: Sink>(out: &mut Buffered<'_, W>, parts: &[&[u8]]) {
        put_notice(out, parts);
    }

    fn put_digits_line<W: Sink>(out: &mut Buffered<'_, W>, parts: &[&[u8]], octets: &[u8]) {
        put_notice_digits(out, parts, octets);
    }
}

/// Puts that the record of a number has a fault.
pub fn put_fault<W: Sink>(out: &mut Buffered<'_, W>, fault: LineFault, number: u64)
    requires { CanWrite W.failed out.old }
    ensures { Puts (watch W.taken W.failed) out.old out.new
        (told (ended (record_fault (codes "L" ++ decimal (code_of fault)) number))) }
{
    let mut code = itoa::Buffer::new();
    let mut digits = itoa::Buffer::new();
    put_notice(
        out,
        &[
            b"fault L",
            code.format(fault.code()).as_bytes(),
            b" record ",
            digits.format(number).as_bytes(),
            b"\n",
        ],
    );
}

/// Puts that a network refused the record of a number.
pub fn put_refusal<W: Sink>(
    out: &mut Buffered<'_, W>,
    why: NetworkRefusal,
    bssid: MacAddr,
    number: u64,
)
    requires { CanWrite W.failed out.old }
    ensures { Puts (watch W.taken W.failed) out.old out.new (reply_octets number bssid (Refuses why)) }
{
    let mut digits = itoa::Buffer::new();
    put_notice(
        out,
        &[
            b"fault ",
            refusal_word(why),
            b" record ",
            digits.format(number).as_bytes(),
            b" network ",
            &address_text(bssid),
            b"\n",
        ],
    );
}

/// Puts the frames that a network sent: those on the air, and then the one on the wire, if there is one.
pub fn put_sent<W: Sink>(out: &mut Buffered<'_, W>, bssid: MacAddr, sent: &Sent)
    requires { CanWrite W.failed out.old }
    ensures { Puts (watch W.taken W.failed) out.old out.new
        (frames_octets 65 bssid sent.now.air ++ frames_octets 87 bssid (option_to_list sent.now.wire)) }
{
    let bssid = bssid.octets();
    let (first, others) = sent.air.parts();
    put_frame_if(out, AIR, bssid, first);
    put_frames(out, AIR, bssid, others);
    put_frame_if(out, WIRE, bssid, sent.wire.as_ref());
}

/// Puts the record of a frame, if there is one.
#[inline(always)]
fn put_frame_if<W: Sink>(
    out: &mut Buffered<'_, W>,
    kind: u8,
    bssid: [u8; 6],
    frame: Option<&Octets>,
)
    requires { CanWrite W.failed out.old }
    ensures { Puts (watch W.taken W.failed) out.old out.new
        (frames_octets kind bssid (option_to_list (option_map (λ octets. octets.now) frame.entry))) }
{
    if let Some(octets) = frame {
        put_record(out, kind, bssid, octets.as_slice());
    }
}

/// Puts the records of frames.
fn put_frames<W: Sink>(out: &mut Buffered<'_, W>, kind: u8, bssid: [u8; 6], frames: &[Octets])
    requires { CanWrite W.failed out.old }
    ensures { Puts (watch W.taken W.failed) out.old out.new (frames_octets kind bssid frames.now) }
{
    for frame in frames {
        put_record(out, kind, bssid, frame.as_slice());
    }
}
