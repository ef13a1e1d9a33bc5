//! The face of lines.

use super::{check_cuts, check_failing_reader, check_failing_writer};
use crate::lines::{OK, TEXT, conversation};
use crate::samples::Sample;
use crate::streams::{MANY, Shown};
use config_text::read_config;
use fixtures::texts::CONFIGURATION;
use live::Live;
use std::alloc::Global;
use std::cell::Cell;
use std::process::Abort;
use std::test::Fail;
use text_io::{Counted, Sink};

#[test]
fn nothing_is_held_back_however_the_text_is_cut(rt: HostRuntime) -> Result<(), Fail> {
    let alloc = rt.alloc();
    check_cuts(&rt, alloc, &conversation(alloc)?)
}

#[test]
fn failing_reader(rt: HostRuntime) -> Result<(), Fail> {
    let alloc = rt.alloc();
    check_failing_reader(&rt, alloc, &conversation(alloc)?)
}

#[test]
fn failing_writer(rt: HostRuntime) -> Result<(), Fail> {
    let alloc = rt.alloc();
    check_failing_writer(&rt, alloc, &conversation(alloc)?)
}

/// Whether a line that is fed is taken.
fn is_fed(live: &mut Live, line: &str, out: &mut Counted<Shown<'_>>) -> bool {
    live.ended() < MANY as u64
        && line.len() < MANY
        && out.failures() == 0
        && live.feed(line.as_bytes(), out).is_ok()
}

/// What is written in the end, after lines that were fed one by one, of which each was answered at once.
fn fed_line_by_line(rt: &impl Abort, alloc: Global, sample: &Sample) -> Result<Vec<u8>, Fail> {
    let taken = Cell::new(OK.len());
    let mut out = Counted::new(Shown {
        octets: OK.as_bytes().to_vec(alloc)?,
        room: MANY,
        taken: &taken,
    });
    let mut live = Live::new(alloc, read_config(alloc, CONFIGURATION.as_bytes())?)?;
    let mut given = 0usize;
    for line in TEXT.split_inclusive('\n') {
        let fed = is_fed(&mut live, line, &mut out);
        given = given.saturating_add(line.len());
        assert!(rt;
            fed && sample.due.get(given).copied() == Some(taken.get()),
            "{line}"
        );
    }
    assert!(rt; live.ended() < MANY as u64 && out.failures() == 0);
    assert!(rt; live.end(&mut out).is_ok());
    Ok(out.into_inner().octets)
}

#[test]
fn each_line_is_answered_by_the_call_that_it_ends_in(rt: HostRuntime) -> Result<(), Fail> {
    let alloc = rt.alloc();
    let sample = conversation(alloc)?;
    let written = fed_line_by_line(&rt, alloc, &sample)?;
    assert!(rt; written.as_slice() == sample.written.as_slice());
    Ok(())
}
