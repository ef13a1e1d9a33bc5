//! Records of each kind, and what is written of them.

use crate::samples::Sample;
use fixtures::lab::{
    ASSOCIATION_REQUEST, AUTHENTICATION_REQUEST, BSSID, PROBE_RESPONSE,
    SECOND_AUTHENTICATION_RESPONSE,
};
use fixtures::{PROBE_REQUEST, octets};
use live::Face;
use std::alloc::{AllocError, Global};
use std::test::Fail;

/// No BSSID.
pub(crate) const NOBODY: [u8; 6] = [0; 6];

/// An address of no network.
const STRANGER: [u8; 6] = [0x02, 0, 0, 0, 0, 0x09];

/// What is written before anything is read: one network is open.
pub(crate) const OPEN: &[u8] = &[b'O', 0, 0, 0, 0, 0, 1, 0, 0];

/// The lines of the table of a network that took no event.
pub(crate) const FRESH_TABLE: &str = "network 02:00:00:00:00:01 ssid 6c6162\n\
    events 0 clock 0 unread 0 lost 0 kept 0\n\
    end\n";

/// A record: its kind, a BSSID, how many octets follow, the low octet first, and these.
pub(crate) fn record(
    alloc: Global,
    kind: u8,
    bssid: [u8; 6],
    octets: &[u8],
) -> Result<Vec<u8>, AllocError> {
    let len = octets.len();
    let mut record = vec![in alloc; kind]?;
    record.extend_from_slice(&bssid)?;
    record.extend_from_slice(&[(len % 256) as u8, (len / 256 % 256) as u8])?;
    record.extend_from_slice(octets)?;
    Ok(record)
}

/// The records of lines for people.
pub(crate) fn told(alloc: Global, lines: &str) -> Result<Vec<u8>, AllocError> {
    let mut records = Vec::new(alloc);
    for line in lines.split_inclusive('\n') {
        let one = record(alloc, b'N', NOBODY, line.as_bytes())?;
        records.extend_from_slice(one.as_slice())?;
    }
    Ok(records)
}

/// What is written of a record: frames of `lab` on the air and on the wire, in digits, or lines for people.
#[derive(Clone, Copy)]
pub(crate) enum Written {
    Air(&'static str),
    Both(&'static str, &'static str),
    Told(&'static str),
    Nothing,
}

/// The records of what is written.
pub(crate) fn records_of(alloc: Global, what: Written) -> Result<Vec<u8>, Fail> {
    match what {
        Written::Air(air) => Ok(record(alloc, b'A', BSSID, octets(alloc, air)?.as_slice())?),
        Written::Both(air, wire) => {
            let mut records = record(alloc, b'A', BSSID, octets(alloc, air)?.as_slice())?;
            let second = record(alloc, b'W', BSSID, octets(alloc, wire)?.as_slice())?;
            records.extend_from_slice(second.as_slice())?;
            Ok(records)
        }
        Written::Told(lines) => Ok(told(alloc, lines)?),
        Written::Nothing => Ok(Vec::new(alloc)),
    }
}

/// A record, its octets in digits.
#[derive(Clone, Copy)]
pub(crate) struct Said(pub(crate) u8, pub(crate) [u8; 6], pub(crate) &'static str);

/// The octets of a record.
pub(crate) fn octets_of(alloc: Global, what: Said) -> Result<Vec<u8>, Fail> {
    let Said(kind, bssid, digits) = what;
    Ok(record(alloc, kind, bssid, octets(alloc, digits)?.as_slice())?)
}

/// A record of each kind.
pub(crate) const KINDS: &[Said] = &[
    Said(b'A', NOBODY, PROBE_REQUEST),
    Said(b'W', BSSID, TO_STATION),
    Said(b'T', NOBODY, ""),
    Said(b'I', NOBODY, ""),
    Said(b'X', NOBODY, "00"),
];

/// A frame on the wire for the station.
const TO_STATION: &str = "02aa00000001 02bb00000001 0800 03";

/// Records of each kind and with each fault, and what is written of each: the station asks, joins, and sends to all; a
/// host sends to it, and a beacon interval begins. Sequence numbers count the frames on the air (9.2.4.4.2).
const EXCHANGES: &[(Said, Written)] = &[
    (
        Said(b'A', NOBODY, PROBE_REQUEST),
        Written::Air(PROBE_RESPONSE),
    ),
    (
        Said(b'A', NOBODY, AUTHENTICATION_REQUEST),
        Written::Air(SECOND_AUTHENTICATION_RESPONSE),
    ),
    (
        Said(b'A', NOBODY, ASSOCIATION_REQUEST),
        Written::Air(
            "10000000 02aa00000001 020000000001 020000000001 2000 0100 0000 01c0 010482840b16",
        ),
    ),
    (Said(b'X', NOBODY, ""), Written::Told("fault L1 record 4\n")),
    (
        Said(b'A', BSSID, PROBE_REQUEST),
        Written::Told("fault L1 record 5\n"),
    ),
    (
        Said(b'T', NOBODY, "00"),
        Written::Told("fault L1 record 6\n"),
    ),
    (Said(b'I', BSSID, ""), Written::Told("fault L1 record 7\n")),
    (
        Said(b'W', STRANGER, TO_STATION),
        Written::Told("fault L4 record 8\n"),
    ),
    (
        Said(b'I', NOBODY, ""),
        Written::Told(
            "network 02:00:00:00:00:01 ssid 6c6162\n\
            events 3 clock 0 unread 0 lost 0 kept 0\n\
            station 02:aa:00:00:00:01 associated aid 1 listen 10 active kept 0\n\
            end\n",
        ),
    ),
    (
        Said(
            b'A',
            NOBODY,
            "08010000 020000000001 02aa00000001 ffffffffffff 0000 aaaa030000000800 02",
        ),
        Written::Both(
            "08020000 ffffffffffff 020000000001 02aa00000001 3000 aaaa030000000800 02",
            "ffffffffffff 02aa00000001 0800 02",
        ),
    ),
    (
        Said(b'W', BSSID, TO_STATION),
        Written::Air("08020000 02aa00000001 020000000001 02bb00000001 4000 aaaa030000000800 03"),
    ),
    (
        Said(b'T', NOBODY, ""),
        Written::Air(
            "80000000 ffffffffffff 020000000001 020000000001 5000 0090010000000000 6400 0100 \
            00036c6162 010482840b16 030106 050400010000",
        ),
    ),
    (Said(b'A', NOBODY, ""), Written::Nothing),
];

/// What is written if the input ends within the record after those.
const LAST: &str = "fault L2 record 14\n\
    network 02:00:00:00:00:01 ssid 6c6162\n\
    events 6 clock 1 unread 0 lost 0 kept 0\n\
    station 02:aa:00:00:00:01 associated aid 1 listen 10 active kept 0\n\
    end\n";

/// [`EXCHANGES`], and then a record that is cut.
pub(crate) fn conversation(alloc: Global) -> Result<Sample, Fail> {
    let mut sample = Sample::new(alloc, Face::Records, OPEN)?;
    for (what, answer) in EXCHANGES {
        let octets = octets_of(alloc, *what)?;
        let answer = records_of(alloc, *answer)?;
        sample.ask(octets.as_slice(), answer.as_slice())?;
    }
    sample.say(&[b'A', 0, 0, 0, 0, 0, 0, 0x22, 0, 0x40])?;
    sample.end(told(alloc, LAST)?.as_slice())?;
    Ok(sample)
}
