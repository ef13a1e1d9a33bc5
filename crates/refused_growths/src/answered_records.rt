//! Records that are answered as they come.

use crate::asked::Asked;
use crate::outcome::{AGAIN, ANSWER, Flaw, ROOM, grow};
use config_text::read_config;
use events::Line;
use live::{LiveFault, LiveRecords};
use mac_frame::{MacAddr, address_at};
use report::address_text;
use std::alloc::Global;
use text_io::Counted;
use trace::read_trace;

/// How many octets stand before those of a record: its kind, a BSSID, and how many follow.
const HEADER_LEN: usize = 9;

/// No BSSID.
const NOBODY: [u8; 6] = [0; 6];

/// Runs the access point over a trace as records, and once more if memory ran out before it read one. Writes what it
/// answered, as lines; which records were refused stands in these.
pub(crate) fn answer_records(
    alloc: Global,
    asked: &Asked<'_>,
    report: &mut Vec<u8>,
) -> Result<bool, Flaw> {
    let records = records_of(alloc, asked)?;
    let records = records.as_slice();
    let mut answers = Vec::with_capacity(alloc, ROOM)?;
    grow(alloc, asked.before)?;
    let was_refused = is_refused(alloc, asked.config, records, &mut answers)?;
    if was_refused {
        if !answers.is_empty() {
            return Err(ANSWER);
        }
        if is_refused(alloc, asked.config, records, &mut answers)? {
            return Err(AGAIN);
        }
    }
    write_answers(alloc, answers.as_slice(), report)?;
    Ok(was_refused)
}

/// Runs the access point over records. Answers whether memory ran out before it read one.
fn is_refused(
    alloc: Global,
    config: &[u8],
    records: &[u8],
    answers: &mut Vec<u8>,
) -> Result<bool, Flaw> {
    match LiveRecords::run(
        alloc,
        config,
        &mut Counted::new(records),
        &mut Counted::new(answers),
    ) {
        Ok(()) => Ok(false),
        Err(LiveFault::NoMemory) => Ok(true),
        Err(_) => Err(ANSWER),
    }
}

/// The records that say what the lines of a trace say.
fn records_of(alloc: Global, asked: &Asked<'_>) -> Result<Vec<u8>, Flaw> {
    let Ok(config) = read_config(alloc, asked.config) else {
        return Err(Flaw::Beside);
    };
    let Ok(lines) = read_trace(alloc, &config, asked.trace) else {
        return Err(Flaw::Beside);
    };
    let networks = config.networks.as_slice();
    let mut records = Vec::with_capacity(alloc, ROOM)?;
    for line in lines.as_slice() {
        match line {
            Line::Air(octets) => put_record(b'A', NOBODY, octets.as_slice(), &mut records)?,
            Line::Wire { place, octets } => {
                let network = networks.get(*place).ok_or(Flaw::Beside)?;
                put_record(
                    b'W',
                    network.bssid.octets(),
                    octets.as_slice(),
                    &mut records,
                )?;
            }
            Line::Tick => put_record(b'T', NOBODY, &[], &mut records)?,
        }
    }
    Ok(records)
}

/// Puts a record.
fn put_record(kind: u8, bssid: [u8; 6], octets: &[u8], records: &mut Vec<u8>) -> Result<(), Flaw> {
    let Ok(len) = u16::try_from(octets.len()) else {
        return Err(Flaw::Beside);
    };
    records.extend_from_slice(&[kind])?;
    records.extend_from_slice(&bssid)?;
    records.extend_from_slice(&len.to_le_bytes())?;
    records.extend_from_slice(octets)?;
    Ok(())
}

/// Writes answers in records as the lines that say the same.
fn write_answers(alloc: Global, answers: &[u8], report: &mut Vec<u8>) -> Result<(), Flaw> {
    let mut rest = answers;
    for _ in 0..answers.len() {
        if rest.is_empty() {
            break;
        }
        rest = write_answer(alloc, rest, report)?;
    }
    Ok(())
}

/// Writes the answer at the front as a line, and gives what follows it.
fn write_answer<'a>(
    alloc: Global,
    answers: &'a [u8],
    report: &mut Vec<u8>,
) -> Result<&'a [u8], Flaw> {
    if answers.len() < HEADER_LEN {
        return Err(ANSWER);
    }
    let (header, rest) = answers.split_at(HEADER_LEN);
    let len = usize::from(header[7]) + 256 * usize::from(header[8]);
    if rest.len() < len {
        return Err(ANSWER);
    }
    let (octets, rest) = rest.split_at(len);
    let bssid = address_at(header, 1);
    match header[0] {
        b'O' => {
            let networks = header[6];
            let line = format!(in alloc; "ok {networks}\n")?;
            report.extend_from_slice(line.as_bytes())?;
        }
        b'A' => write_frame(alloc, b"air ", bssid, octets, report)?,
        b'W' => write_frame(alloc, b"wire ", bssid, octets, report)?,
        b'N' => report.extend_from_slice(octets)?,
        _ => return Err(ANSWER),
    }
    Ok(rest)
}

/// Writes the line of a frame that a network sent.
fn write_frame(
    alloc: Global,
    word: &[u8],
    bssid: MacAddr,
    octets: &[u8],
    report: &mut Vec<u8>,
) -> Result<(), Flaw> {
    let digits = hex::encode(alloc, octets)?;
    report.extend_from_slice(word)?;
    report.extend_from_slice(&address_text(bssid))?;
    report.extend_from_slice(b" ")?;
    report.extend_from_slice(digits.as_bytes())?;
    report.extend_from_slice(b"\n")?;
    Ok(())
}
