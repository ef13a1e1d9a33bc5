//! What no contract says of a run: an access point that is spoken to in either face over streams in memory.

mod lines;
mod records;

use crate::samples::Sample;
use crate::streams::{Streams, WHOLE, run};
use live::LiveFault;
use std::alloc::Global;
use std::process::Abort;
use std::test::Fail;

/// Answers an input over these streams. The run must end so, after so many reads, with so many octets written of what
/// is to be written; at each read all that was due must have been written.
fn check_run(
    rt: &impl Abort,
    alloc: Global,
    sample: &Sample,
    streams: Streams,
    answer: Result<(), LiveFault>,
    reads: usize,
    octets: usize,
) -> Result<(), Fail> {
    let run = run(alloc, sample, streams);
    let failed_reads = u64::from(answer == Err(LiveFault::Read));
    let failed_writes = u64::from(answer == Err(LiveFault::Write));
    assert_eq!(rt;
        (
            run.answer,
            run.failed_reads,
            run.failed_writes,
            run.reads,
            run.untimely
        ),
        (answer, failed_reads, failed_writes, reads, 0)
    );
    assert!(rt; Some(run.written.as_slice()) == sample.written.as_slice().get(..octets));
    Ok(())
}

/// Answers an input that is there at once, as the sample says.
fn check_whole(rt: &impl Abort, alloc: Global, sample: &Sample) -> Result<(), Fail> {
    let reads = 1 + sample.input.len().div_ceil(4096);
    check_run(
        rt,
        alloc,
        sample,
        WHOLE,
        Ok(()),
        reads,
        sample.written.len(),
    )
}

/// Two pieces, cut at each place, and then pieces of each length.
fn check_cuts(rt: &impl Abort, alloc: Global, sample: &Sample) -> Result<(), Fail> {
    let len = sample.input.len();
    let all = sample.written.len();
    for place in 1..=len {
        let streams = Streams {
            cut: place,
            ..WHOLE
        };
        let reads = 2 + usize::from(place < len);
        check_run(rt, alloc, sample, streams, Ok(()), reads, all)?;
        let streams = Streams {
            cut: 0,
            most: place,
            ..WHOLE
        };
        let reads = len.div_ceil(place) + 1;
        check_run(rt, alloc, sample, streams, Ok(()), reads, all)?;
    }
    Ok(())
}

/// A reader that fails after each octet. One that fails at once finds the count of networks written.
fn check_failing_reader(rt: &impl Abort, alloc: Global, sample: &Sample) -> Result<(), Fail> {
    for (readable, octets) in sample.due.as_slice().iter().enumerate() {
        let streams = Streams { readable, ..WHOLE };
        let reads = 1 + usize::from(readable > 0);
        let answer = Err(LiveFault::Read);
        check_run(rt, alloc, sample, streams, answer, reads, *octets)?;
    }
    Ok(())
}

/// A writer that fails after each octet. No read comes after a write that failed.
fn check_failing_writer(rt: &impl Abort, alloc: Global, sample: &Sample) -> Result<(), Fail> {
    let opened = sample.due.as_slice().first().copied().ok_or("no length")?;
    let at_end = sample.due_at_end();
    let all = sample.written.len();
    for room in 0..all {
        let streams = Streams { room, ..WHOLE };
        let reads = usize::from(room >= opened) + usize::from(room >= at_end);
        let answer = Err(LiveFault::Write);
        check_run(rt, alloc, sample, streams, answer, reads, room)?;
    }
    let streams = Streams { room: all, ..WHOLE };
    check_run(rt, alloc, sample, streams, Ok(()), 2, all)
}
