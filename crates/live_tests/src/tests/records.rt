//! The face of records.

use super::{check_cuts, check_failing_reader, check_failing_writer, check_run, check_whole};
use crate::records::{
    FRESH_TABLE, KINDS, NOBODY, OPEN, Written, conversation, octets_of, record, records_of, told,
};
use crate::samples::Sample;
use crate::streams::{MANY, Shown, Streams, WHOLE};
use config_text::read_config;
use fixtures::lab::{BEACON, BSSID, PROBE_RESPONSE};
use fixtures::texts::CONFIGURATION;
use fixtures::{PROBE_REQUEST, octets};
use live::{Face, LiveRecords};
use std::alloc::Global;
use std::cell::Cell;
use std::process::Abort;
use std::test::Fail;
use text_io::{Counted, Sink};

#[test]
fn nothing_is_held_back_however_records_are_cut(rt: HostRuntime) -> Result<(), Fail> {
    let alloc = rt.alloc();
    check_cuts(&rt, alloc, &conversation(alloc)?)
}

#[test]
fn failing_reader(rt: HostRuntime) -> Result<(), Fail> {
    let alloc = rt.alloc();
    check_failing_reader(&rt, alloc, &conversation(alloc)?)
}

#[test]
fn failing_writer(rt: HostRuntime) -> Result<(), Fail> {
    let alloc = rt.alloc();
    check_failing_writer(&rt, alloc, &conversation(alloc)?)
}

/// An input that ends within its first record, and what is written of it.
fn cut(alloc: Global, begun: &[u8]) -> Result<Sample, Fail> {
    let mut sample = Sample::new(alloc, Face::Records, OPEN)?;
    sample.say(begun)?;
    sample.end(told(alloc, "fault L2 record 1\n")?.as_slice())?;
    sample.end(told(alloc, FRESH_TABLE)?.as_slice())?;
    Ok(sample)
}

/// Nothing is taken of a record that is cut, whatever its kind and wherever it is cut.
#[test]
fn a_record_of_each_kind_is_cut_at_each_octet(rt: HostRuntime) -> Result<(), Fail> {
    let alloc = rt.alloc();
    for kind in KINDS {
        let record = octets_of(alloc, *kind)?;
        for len in 1..record.len() {
            let begun = record.as_slice().get(..len).unwrap_or(b"");
            check_whole(&rt, alloc, &cut(alloc, begun)?)?;
        }
    }
    Ok(())
}

/// What is written of a record of this kind that has no BSSID and no octets, if those of lower kinds came before.
fn answer_to_kind(alloc: Global, kind: u8) -> Result<Vec<u8>, Fail> {
    let number = u32::from(kind) + 1;
    match kind {
        b'A' => records_of(alloc, Written::Nothing),
        b'I' => records_of(alloc, Written::Told(FRESH_TABLE)),
        b'T' => records_of(alloc, Written::Air(BEACON)),
        b'W' => records_of(alloc, Written::Told("fault L4 record 88\n")),
        _ => Ok(told(
            alloc,
            format!(in alloc; "fault L1 record {number}\n")?.as_str(),
        )?),
    }
}

#[test]
fn kinds_that_are_not_known_are_told(rt: HostRuntime) -> Result<(), Fail> {
    let alloc = rt.alloc();
    let mut sample = Sample::new(alloc, Face::Records, OPEN)?;
    for kind in 0..=255u8 {
        let octets = record(alloc, kind, NOBODY, &[])?;
        sample.ask(octets.as_slice(), answer_to_kind(alloc, kind)?.as_slice())?;
    }
    let table =
        "network 02:00:00:00:00:01 ssid 6c6162\nevents 1 clock 1 unread 0 lost 0 kept 0\nend\n";
    sample.end(told(alloc, table)?.as_slice())?;
    check_whole(&rt, alloc, &sample)
}

/// Strings of these lengths on the air and on the wire, and the faults and the table that are told of them. A string of
/// zeros is heard by nobody, and a frame of zeros on the wire can't be read.
const LENGTHS: &[(usize, &str, &str, &str)] = &[
    (0, "", "", ONE_UNREAD),
    (4096, "", "", ONE_UNREAD),
    (
        4097,
        "fault L5 record 1\n",
        "fault L5 record 2\n",
        FRESH_TABLE,
    ),
    (
        65_535,
        "fault L5 record 1\n",
        "fault L5 record 2\n",
        FRESH_TABLE,
    ),
];

/// The table after a frame on the wire that can't be read.
const ONE_UNREAD: &str = "network 02:00:00:00:00:01 ssid 6c6162\n\
    events 1 clock 0 unread 1 lost 0 kept 0\n\
    end\n";

#[test]
fn more_than_4096_octets_are_passed_over(rt: HostRuntime) -> Result<(), Fail> {
    let alloc = rt.alloc();
    for (len, air, wire, table) in LENGTHS {
        let octets = vec![in alloc; 0u8; *len]?;
        let mut sample = Sample::new(alloc, Face::Records, OPEN)?;
        let heard = record(alloc, b'A', NOBODY, octets.as_slice())?;
        sample.ask(heard.as_slice(), told(alloc, *air)?.as_slice())?;
        let wired = record(alloc, b'W', BSSID, octets.as_slice())?;
        sample.ask(wired.as_slice(), told(alloc, *wire)?.as_slice())?;
        sample.end(told(alloc, *table)?.as_slice())?;
        check_whole(&rt, alloc, &sample)?;
    }
    Ok(())
}

/// The probe request with an element that is not known, so that its record has 70 octets.
const LONG_PROBE: &str = "dd1b 000000000000000000000000000000000000000000000000000000";

#[test]
fn one_record_in_70_pieces(rt: HostRuntime) -> Result<(), Fail> {
    let alloc = rt.alloc();
    let mut heard = octets(alloc, PROBE_REQUEST)?.as_slice().to_vec(alloc)?;
    heard.extend_from_slice(octets(alloc, LONG_PROBE)?.as_slice())?;
    let mut sample = Sample::new(alloc, Face::Records, OPEN)?;
    let one = record(alloc, b'A', NOBODY, heard.as_slice())?;
    sample.ask(
        one.as_slice(),
        records_of(alloc, Written::Air(PROBE_RESPONSE))?.as_slice(),
    )?;
    let table =
        "network 02:00:00:00:00:01 ssid 6c6162\nevents 1 clock 0 unread 0 lost 0 kept 0\nend\n";
    sample.end(told(alloc, table)?.as_slice())?;
    let streams = Streams {
        cut: 0,
        most: 1,
        ..WHOLE
    };
    let all = sample.written.len();
    check_run(&rt, alloc, &sample, streams, Ok(()), 71, all)
}

#[test]
fn seventy_records_in_one_piece(rt: HostRuntime) -> Result<(), Fail> {
    let alloc = rt.alloc();
    let mut sample = Sample::new(alloc, Face::Records, OPEN)?;
    let one = record(alloc, b'X', NOBODY, b"1")?;
    for number in 1..=70u32 {
        let fault = format!(in alloc; "fault L1 record {number}\n")?;
        sample.ask(one.as_slice(), told(alloc, fault.as_str())?.as_slice())?;
    }
    sample.end(told(alloc, FRESH_TABLE)?.as_slice())?;
    let all = sample.written.len();
    check_run(&rt, alloc, &sample, WHOLE, Ok(()), 2, all)
}

/// Whether a piece of octets that is fed is taken.
fn is_fed(live: &mut LiveRecords, piece: &[u8], out: &mut Counted<Shown<'_>>) -> bool {
    live.ended() < MANY as u64
        && piece.len() < MANY
        && out.failures() == 0
        && live.feed(piece, out).is_ok()
}

/// What is written in the end, after octets that were fed in pieces of this length: after each piece the answers to all
/// records that ended must have been written.
fn fed_in_pieces(
    rt: &impl Abort,
    alloc: Global,
    sample: &Sample,
    len: usize,
) -> Result<Vec<u8>, Fail> {
    let taken = Cell::new(OPEN.len());
    let mut out = Counted::new(Shown {
        octets: OPEN.to_vec(alloc)?,
        room: MANY,
        taken: &taken,
    });
    let mut live = LiveRecords::new(alloc, read_config(alloc, CONFIGURATION.as_bytes())?)?;
    let mut given = 0usize;
    assert!(rt; len > 0);
    for piece in sample.input.as_slice().chunks(len) {
        let fed = is_fed(&mut live, piece, &mut out);
        given = given.saturating_add(piece.len());
        let due = sample
            .due
            .get(given)
            .copied()
            .unwrap_or(sample.due_at_end());
        assert!(rt;
            fed && due == taken.get(),
            "after {given} octets in pieces of {len}"
        );
    }
    assert!(rt; live.ended() == 13);
    assert!(rt; out.failures() == 0);
    assert!(rt; live.end(&mut out).is_ok());
    Ok(out.into_inner().octets)
}

#[test]
fn each_record_is_answered_by_the_call_that_it_ends_in(rt: HostRuntime) -> Result<(), Fail> {
    let alloc = rt.alloc();
    let sample = conversation(alloc)?;
    for len in 1..=70 {
        let written = fed_in_pieces(&rt, alloc, &sample, len)?;
        assert!(rt; written.as_slice() == sample.written.as_slice());
    }
    Ok(())
}
