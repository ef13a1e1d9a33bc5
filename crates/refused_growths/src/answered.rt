//! Lines that are answered as they come.

use crate::asked::Asked;
use crate::outcome::{ANSWER, Flaw, grow};
use config_text::read_config;
use live::Live;
use std::alloc::Global;
use std::str;
use text_io::Counted;

/// More lines, and more octets, than any trace here has.
const MANY: usize = 1 << 32;

/// Feeds each line of a trace once, and then its end. Writes each line after `> `, what was answered to it, and what is
/// written at the end; which lines were refused stands in the answers.
pub(crate) fn answer_lines(
    alloc: Global,
    asked: &Asked<'_>,
    report: &mut Vec<u8>,
) -> Result<bool, Flaw> {
    let Ok(config) = read_config(alloc, asked.config) else {
        return Err(Flaw::Beside);
    };
    let Ok(trace) = str::from_utf8(asked.trace) else {
        return Err(Flaw::Beside);
    };
    let mut live = Live::new(alloc, config)?;
    let fed = feed_each(alloc, asked.before, &mut live, trace, report);
    if live.ended() >= MANY as u64 {
        return Err(ANSWER);
    }
    if live.end(&mut Counted::new(report)).is_err() {
        return Err(ANSWER);
    }
    fed?;
    Ok(false)
}

/// Feeds each line of a trace.
fn feed_each(
    alloc: Global,
    allocations: u32,
    live: &mut Live,
    trace: &str,
    report: &mut Vec<u8>,
) -> Result<(), Flaw> {
    grow(alloc, allocations)?;
    for line in trace.split_inclusive('\n') {
        report.extend_from_slice(b"> ")?;
        report.extend_from_slice(line.as_bytes())?;
        if live.ended() >= MANY as u64 || line.len() >= MANY {
            return Err(ANSWER);
        }
        let mut out = Counted::new(&mut *report);
        if live.feed(line.as_bytes(), &mut out).is_err() {
            return Err(ANSWER);
        }
    }
    Ok(())
}
