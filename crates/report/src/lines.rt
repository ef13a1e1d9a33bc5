//! The lines of a section, each put into a sink after what came before it, and dropped if the sink failed. None
//! takes memory.

ghost use Rattle.std.specs.Prelude.{◌≡◌, ◌++◌, codes};
ghost use Rattle.hex.specs.Hex.{encode_lower};
ghost use Rattle.mac_frame.specs.Address.{IsAddress, address_text};
ghost use Rattle.text_io.specs.Buffers.{CanWrite, Puts, watch};
ghost use Rattle.report.specs.Report.{network_line, counts_line, station_line, mode_text, frame_line};
ghost use Rattle.report.specs.Forms.{counts_in};
ghost use Rattle.report.specs.Report.{authenticated_line, associated_line};
ghost use Rattle.text_io.specs.Texts.{ended};

use crate::form::{AsText, LineForm};
use ap_config::NetConfig;
use events::StationRow;
use mac_frame::MacAddr;
use station_state::Standing;
use text_io::{Buffered, Sink, digits};

/// What the line of a network's counts tells. Those of a history fit 32 bits; a network that runs without one may go
/// on to count.
#[derive(Clone, Copy, Debug, PartialEq, Eq)]
pub struct Totals {
    /// The events that it took.
    pub events: u64,
    /// The beacon intervals that began.
    pub clock: u64,
    /// The events that were no request it reads.
    pub unread: u64,
    /// The units that were lost.
    pub lost: u64,
    /// The units that are kept now.
    pub kept: u64,
}

/// Puts the line of a network's address and name in a form.
#[inline]
pub fn put_network_line_in<F: LineForm, W: Sink>(out: &mut Buffered<'_, W>, config: &NetConfig)
    requires { CanWrite W.failed out.old }
    ensures { Puts (watch W.taken W.failed) out.old out.new (F.written (network_line config.now)) }
{
    let bssid = address_text(config.bssid);
    F::put_digits_line(
        out,
        &[b"network ", &bssid, b" ssid "],
        config.ssid.as_slice(),
    );
}

/// Puts the line of a network's counts in a form.
#[inline]
pub fn put_counts_line_in<F: LineForm, W: Sink>(out: &mut Buffered<'_, W>, totals: &Totals)
    requires { CanWrite W.failed out.old }
    ensures { Puts (watch W.taken W.failed) out.old out.new
        (F.written (counts_line totals.now.events (counts_in totals.now))) }
{
    let mut events = itoa::Buffer::new();
    let mut clock = itoa::Buffer::new();
    let mut unread = itoa::Buffer::new();
    let mut lost = itoa::Buffer::new();
    let mut kept = itoa::Buffer::new();
    F::put_line(
        out,
        &[
            b"events ",
            events.format(totals.events).as_bytes(),
            b" clock ",
            clock.format(totals.clock).as_bytes(),
            b" unread ",
            unread.format(totals.unread).as_bytes(),
            b" lost ",
            lost.format(totals.lost).as_bytes(),
            b" kept ",
            kept.format(totals.kept).as_bytes(),
            b"\n",
        ],
    );
}

/// Puts a station's line in a form, or nothing if it is not known.
#[inline]
pub fn put_station_line_in<F: LineForm, W: Sink>(out: &mut Buffered<'_, W>, row: &StationRow)
    requires { CanWrite W.failed out.old }
    ensures { Puts (watch W.taken W.failed) out.old out.new (F.written (station_line row.now)) }
{
    match row.standing {
        Standing::Unknown => {}
        Standing::Authenticated => put_authenticated::<F, W>(out, row.addr),
        Standing::Associated => put_associated::<F, W>(out, row),
    }
}

/// Puts the line of a station that is authenticated and not associated.
fn put_authenticated<F: LineForm, W: Sink>(out: &mut Buffered<'_, W>, addr: MacAddr)
    requires { CanWrite W.failed out.old }
    ensures { Puts (watch W.taken W.failed) out.old out.new (F.written (authenticated_line addr)) }
{
    F::put_line(
        out,
        &[b"station ", &address_text(addr), b" authenticated\n"],
    );
}

/// Puts the line of a station that is associated.
fn put_associated<F: LineForm, W: Sink>(out: &mut Buffered<'_, W>, row: &StationRow)
    requires { CanWrite W.failed out.old }
    ensures { Puts (watch W.taken W.failed) out.old out.new (F.written (associated_line row.now)) }
{
    let addr = address_text(row.addr);
    let mut aid = itoa::Buffer::new();
    let mut listen = itoa::Buffer::new();
    let mut kept = itoa::Buffer::new();
    F::put_line(
        out,
        &[
            b"station ",
            &addr,
            b" associated aid ",
            aid.format(row.aid).as_bytes(),
            b" listen ",
            listen.format(row.listen).as_bytes(),
            b" ",
            mode_text(row.doze),
            b" kept ",
            kept.format(row.kept).as_bytes(),
            b"\n",
        ],
    );
}

/// The word for a station that dozes, or does not.
fn mode_text(doze: bool) -> &'static [u8]
    ensures { result.now ≡ mode_text doze }
{
    if doze { b"doze" } else { b"active" }
}

/// Puts a frame's line: a word that says where it was sent, and its octets.
#[inline]
pub fn put_frame_line<W: Sink>(out: &mut Buffered<'_, W>, word: &[u8], frame: &[u8])
    requires { CanWrite W.failed out.old }
    ensures { Puts (watch W.taken W.failed) out.old out.new (frame_line word.now frame.now) }
{
    out.put(word);
    out.put_digits(frame);
    out.put(b"\n");
}

/// Puts the line that ends a section, as text.
#[inline]
pub fn put_end_line<W: Sink>(out: &mut Buffered<'_, W>)
    requires { CanWrite W.failed out.old }
    ensures { Puts (watch W.taken W.failed) out.old out.new (ended (codes "end")) }
{
    put_end_line_in::<AsText, W>(out);
}

/// Puts the line that ends a section in a form.
#[inline]
pub fn put_end_line_in<F: LineForm, W: Sink>(out: &mut Buffered<'_, W>)
    requires { CanWrite W.failed out.old }
    ensures { Puts (watch W.taken W.failed) out.old out.new (F.written (ended (codes "end"))) }
{
    F::put_line(out, &[b"end\n"]);
}

/// The text of an address: its octets as pairs of hexadecimal digits in lower case, with `:` between.
pub fn address_text(address: MacAddr) -> [u8; 17]
    ensures { result ≡ address_text address }
{
    let [a, b, c, d, e, f, g, h, i, j, k, l] = address_digits(address);
    [
        a, b, b':', c, d, b':', e, f, b':', g, h, b':', i, j, b':', k, l,
    ]
}

/// The octets of an address as pairs of hexadecimal digits in lower case.
fn address_digits(address: MacAddr) -> [u8; 12]
    ensures digits { result ≡ encode_lower address }
    ensures address { IsAddress address }
{
    let mut digits = [0; 12];
    digits::encode_to_slice(address.octets().as_slice(), &mut digits);
    digits
}
