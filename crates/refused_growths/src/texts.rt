//! Reports that are written, and written again if memory ran out.

use crate::asked::Asked;
use crate::outcome::{AGAIN, ANSWER, Flaw, ROOM, grow};
use events::Section;
use mac_frame::Octets;
use play_text::{PlayTextFault, play_text};
use replay::{StreamFault, TextFault, report_texts, run_stream, run_text};
use report::write_report;
use std::alloc::Global;
use std::sync::Wait;
use std::thread::Threads;
use text_io::{Counted, ReportFault};

/// Makes the call of the trial, and makes it again if memory ran out. What it had written by then must be a
/// prefix of what it writes in the end.
pub(crate) fn write_twice<R: Threads + Wait + Sync>(
    rt: &R,
    alloc: Global,
    asked: &Asked<'_>,
    report: &mut Vec<u8>,
) -> Result<bool, Flaw> {
    let mut second = Vec::with_capacity(alloc, ROOM)?;
    let sections = sections_of(alloc, asked)?;
    let traces = [Octets::from_slice(alloc, asked.trace)?];
    let (sections, traces) = (sections.as_slice(), traces.as_slice());
    grow(alloc, asked.before)?;
    if !is_refused(rt, alloc, asked, sections, traces, report)? {
        return Ok(false);
    }
    if is_refused(rt, alloc, asked, sections, traces, &mut second)? {
        return Err(AGAIN);
    }
    if !second.as_slice().starts_with(report.as_slice()) {
        return Err(Flaw::Wrong("wrong: no prefix of the report was written\n"));
    }
    *report = second;
    Ok(true)
}

/// The sections that the texts have, if the trial is to report them.
fn sections_of(alloc: Global, asked: &Asked<'_>) -> Result<Vec<Section>, Flaw> {
    if asked.trial != "report" {
        return Ok(Vec::new(alloc));
    }
    let mut out = Counted::new(Vec::new(alloc));
    match report_texts(alloc, asked.config, asked.trace, &mut out) {
        Ok(sections) => Ok(sections),
        Err(_) => Err(Flaw::Beside),
    }
}

/// Makes the call of the trial, which writes into a piece of memory that is there before it. Answers whether
/// memory ran out.
fn is_refused<R: Threads + Wait + Sync>(
    rt: &R,
    alloc: Global,
    asked: &Asked<'_>,
    sections: &[Section],
    traces: &[Octets],
    report: &mut Vec<u8>,
) -> Result<bool, Flaw> {
    let mut out = Counted::new(report);
    match asked.trial {
        "report" => match write_report(alloc, sections, &mut out) {
            Ok(()) => Ok(false),
            Err(ReportFault::NoMemory) => Ok(true),
            Err(_) => Err(ANSWER),
        },
        "text" => match run_text(alloc, asked.config, asked.trace, &mut out) {
            Ok(()) => Ok(false),
            Err(TextFault::NoMemory) => Ok(true),
            Err(_) => Err(ANSWER),
        },
        "stream" => match run_stream(
            alloc,
            asked.config,
            &mut Counted::new(asked.trace),
            &mut out,
        ) {
            Ok(()) => Ok(false),
            Err(StreamFault::NoMemory) => Ok(true),
            Err(_) => Err(ANSWER),
        },
        "sections" => match report_texts(alloc, asked.config, asked.trace, &mut out) {
            Ok(_) => Ok(false),
            Err(TextFault::NoMemory) => Ok(true),
            Err(_) => Err(ANSWER),
        },
        _ => match play_text(rt, alloc, asked.config, traces, &mut out) {
            Ok(()) => Ok(false),
            Err(PlayTextFault::NoMemory) => Ok(true),
            Err(_) => Err(ANSWER),
        },
    }
}
