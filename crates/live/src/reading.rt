//! What a line or a record says to the networks.

ghost use Rattle.std.specs.Prelude.{◌≡◌, ◌&&◌, ◌==◌, Some, codes, length, option_map};
ghost use Rattle.std.specs.Str.{bytes_eq};
ghost use Rattle.live_rules.specs.Asked.{asked_by};
ghost use Rattle.live.specs.PartialLine.{line_in};
ghost use Rattle.live.specs.Readings.{IsReading};
ghost use Rattle.live_rules.specs.Records.{IsRecord, air_record, kind_asks, nobody, record_asks, wire_record};

use crate::record::HEADER_LEN;
use events::LentLine;
use mac_frame::{MacAddr, address_at};
use trace::{LineBuffer, LineFault, place_with, read_content, without_spaces_at_end};

/// What a line says that asks for tables.
const TABLES: &[u8] = b"I";

/// The most octets of a string that is heard, or of a frame.
const MAX_OCTETS: usize = 4096;

/// What was read of a line or a record.
#[derive(Drop)]
pub enum Reading<'a> {
    /// A line that is skipped.
    Nothing,
    /// Something happened, whose octets stay where they are.
    Line(LentLine<'a>),
    /// The tables are asked for.
    Tables,
    /// It has this fault.
    Fault(LineFault),
}

/// What a line says to networks with these addresses, taken without what ends it; `None` is one that is too long. It
/// takes no memory: what the line says stands in the buffer.
pub fn read_line<'a>(
    buffer: &'a mut LineBuffer,
    bssids: &[MacAddr],
    line: Option<&[u8]>,
) -> Reading<'a>
    ensures { IsReading result (asked_by bssids.now (line_in (option_map (λ octets. octets.now) line.entry))) }
{
    match line {
        Some(octets) => read_octets(buffer, bssids, octets),
        None => Reading::Fault(LineFault::TooMany),
    }
}

/// What a line says that is not too long.
fn read_octets<'a>(buffer: &'a mut LineBuffer, bssids: &[MacAddr], line: &[u8]) -> Reading<'a>
    ensures { IsReading result (asked_by bssids.now (line_in (Some line.now))) }
{
    let content = without_spaces_at_end(line);
    if asks_for_tables(content) {
        return Reading::Tables;
    }
    match read_content(buffer, bssids, content) {
        Ok(None) => Reading::Nothing,
        Ok(Some(said)) => Reading::Line(said),
        Err(fault) => Reading::Fault(fault),
    }
}

/// Whether a line less the spaces at its end is `I`.
fn asks_for_tables(content: &[u8]) -> bool
    ensures { result ≡ bytes_eq content.now (codes "I") }
{
    content == TABLES
}

/// What a record says to networks with these addresses. It takes no memory.
pub fn read_record<'a>(bssids: &[MacAddr], octets: &'a [u8]) -> Reading<'a>
    requires { IsRecord octets.now }
    ensures { IsReading result (record_asks bssids.now octets.now) }
{
    let kind = octets[0];
    let bssid = address_at(octets, 1);
    let octets = &octets[HEADER_LEN..];
    read_kind(bssids, kind, bssid, octets)
}

/// What a record of this kind says.
fn read_kind<'a>(bssids: &[MacAddr], kind: u8, bssid: MacAddr, octets: &'a [u8]) -> Reading<'a>
    ensures { IsReading result (kind_asks bssids.now kind bssid octets.now) }
{
    match kind {
        b'A' => read_air(bssid, octets),
        b'W' => read_wire(place_with(bssid, bssids), octets),
        b'T' if is_bare(bssid, octets) => Reading::Line(LentLine::Tick),
        b'I' if is_bare(bssid, octets) => Reading::Tables,
        _ => Reading::Fault(LineFault::UnknownKind),
    }
}

/// What a record says of a string that was heard.
fn read_air(bssid: MacAddr, octets: &[u8]) -> Reading<'_>
    ensures { IsReading result (air_record bssid octets.now) }
{
    if !is_nobody(bssid) {
        return Reading::Fault(LineFault::UnknownKind);
    }
    if octets.len() > MAX_OCTETS {
        return Reading::Fault(LineFault::TooMany);
    }
    Reading::Line(LentLine::Air(octets))
}

/// What a record says of a frame that came over the wire to the network at a place, if there is one.
fn read_wire(place: Option<usize>, octets: &[u8]) -> Reading<'_>
    ensures { IsReading result (wire_record place octets.now) }
{
    let Some(place) = place else {
        return Reading::Fault(LineFault::UnknownNetwork);
    };
    if octets.len() > MAX_OCTETS {
        return Reading::Fault(LineFault::TooMany);
    }
    Reading::Line(LentLine::Wire { place, octets })
}

/// Whether a record says no more than its kind.
fn is_bare(bssid: MacAddr, octets: &[u8]) -> bool
    ensures { result ≡ (bytes_eq bssid nobody && length octets.now == 0) }
{
    is_nobody(bssid) && octets.is_empty()
}

/// Whether no BSSID stands there.
fn is_nobody(bssid: MacAddr) -> bool
    ensures { result ≡ bytes_eq bssid nobody }
{
    bssid == MacAddr::new([0; 6])
}
