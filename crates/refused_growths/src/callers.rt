//! Lines that callers give to an access point, and its end.

ghost use Rattle.workers.specs.Names.{AreNamed};

use crate::asked::Asked;
use crate::outcome::{ANSWER, CHANGED, Flaw, grow, report_sections};
use ap_config::{MAX_NETWORKS, RadioConfig};
use config_text::read_config;
use events::{Line, hears};
use mac_frame::{MacAddr, NoMemory};
use std::alloc::Global;
use std::marker::Brand;
use std::sync::Wait;
use trace::read_trace;
use workers::{Ap, ApName, Caller, FinishFault, Outcome, Parts};

/// The address of the network at each place; none if there is no network.
type Addresses = [Option<MacAddr>; MAX_NETWORKS];

/// What callers give, after this many allocations.
#[derive(Clone, Copy)]
struct Work<'a> {
    allocations: u32,
    lines: &'a [Line],
    addresses: &'a Addresses,
}

/// A line that one gives, counted from 1, and the networks that may hear it.
#[derive(Clone, Copy)]
struct NumberedLine<'a> {
    number: usize,
    line: &'a Line,
    addresses: &'a Addresses,
}

/// Gives each line once to an access point with this many callers, who give the lines in turn, and ends it. Writes which
/// lines were refused, as [`live::Live`] says it but for the network's place, and the report in the end, which is none
/// if the end was refused.
pub(crate) fn give_lines<R: Wait>(
    rt: &R,
    alloc: Global,
    asked: &Asked<'_>,
    callers: u32,
    report: &mut Vec<u8>,
) -> Result<bool, Flaw> {
    let Ok(config) = read_config(alloc, asked.config) else {
        return Err(Flaw::Beside);
    };
    let Ok(lines) = read_trace(alloc, &config, asked.trace) else {
        return Err(Flaw::Beside);
    };
    let addresses = addresses_of(&config);
    let Ok(parts) = Parts::open(alloc, config, callers) else {
        return Err(Flaw::Beside);
    };
    let work = Work {
        allocations: asked.before,
        lines: lines.as_slice(),
        addresses: &addresses,
    };
    give_lines_of::<Brand, R>(rt, alloc, parts, work, report)
}

/// The addresses of a configuration's networks.
fn addresses_of(config: &RadioConfig) -> Addresses {
    let mut addresses = [None; MAX_NETWORKS];
    for (address, network) in addresses.iter_mut().zip(config.networks.as_slice()) {
        *address = Some(network.bssid);
    }
    addresses
}

fn give_lines_of<N: ApName, R: Wait>(
    rt: &R,
    alloc: Global,
    parts: Parts,
    work: Work<'_>,
    report: &mut Vec<u8>,
) -> Result<bool, Flaw>
    requires { AreNamed N.config N.queue parts }
{
    let (ap, mut callers, transmitter) = Ap::<N>::start(alloc, parts)?;
    let given = give_each(rt, alloc, &ap, callers.as_mut_slice(), work, report);
    match ap.finish(rt, callers, transmitter) {
        Ok(end) => {
            report_sections(alloc, end.sections.as_slice(), report)?;
            given
        }
        Err(FinishFault::NoMemory) => {
            given?;
            Ok(true)
        }
        Err(_) => Err(ANSWER),
    }
}

/// The callers give the lines in turn, and all that waits is handed to the queue. Answers whether memory ran out.
fn give_each<N: ApName, R: Wait>(
    rt: &R,
    alloc: Global,
    ap: &Ap<N>,
    callers: &mut [Caller],
    work: Work<'_>,
    report: &mut Vec<u8>,
) -> Result<bool, Flaw> {
    grow(alloc, work.allocations)?;
    let addresses = work.addresses;
    let mut was_refused = false;
    let mut number = 0_usize;
    for few in work.lines.chunks(callers.len().max(1)) {
        for (caller, line) in callers.iter_mut().zip(few) {
            number = number.saturating_add(1);
            let numbered = NumberedLine {
                number,
                line,
                addresses,
            };
            was_refused |= give(rt, alloc, ap, caller, numbered, report)?;
        }
    }
    for place in 0..ap.networks() {
        ap.pump(rt, place);
    }
    Ok(was_refused)
}

/// A caller gives the line of a number. Answers whether memory ran out, and writes where. A line that is refused
/// as a whole must leave the caller without another entry.
fn give<N: ApName, R: Wait>(
    rt: &R,
    alloc: Global,
    ap: &Ap<N>,
    caller: &mut Caller,
    numbered: NumberedLine<'_>,
    report: &mut Vec<u8>,
) -> Result<bool, Flaw> {
    let entries = caller.entries().len();
    let answer = match numbered.line {
        Line::Air(octets) => ap.air(rt, caller, octets.as_slice()),
        Line::Wire { place, octets } => ap.wire(rt, caller, *place, octets.as_slice()),
        Line::Tick => ap.tick(rt, caller),
    };
    match answer {
        Ok(outcomes) => write_refusals(alloc, outcomes, numbered, report),
        Err(NoMemory) if caller.entries().len() == entries => {
            let number = numbered.number;
            let refusal = format!(in alloc; "fault memory line {number}\n")?;
            report.extend_from_slice(refusal.as_bytes())?;
            Ok(true)
        }
        Err(NoMemory) => Err(CHANGED),
    }
}

/// Writes which networks refused the line of a number for memory. Answers whether any did. Each place that hears the
/// line must have taken or refused it, and each other not have heard it.
fn write_refusals(
    alloc: Global,
    outcomes: [Outcome; MAX_NETWORKS],
    numbered: NumberedLine<'_>,
    report: &mut Vec<u8>,
) -> Result<bool, Flaw> {
    let mut was_refused = false;
    let number = numbered.number;
    for (place, (outcome, address)) in outcomes.iter().zip(numbered.addresses).enumerate() {
        match (outcome, is_heard(place, *address, numbered.line)) {
            (Outcome::NotHeard, false) | (Outcome::Took(_), true) => {}
            (Outcome::NoMemory, true) => {
                let refusal = format!(in alloc; "fault memory line {number} place {place}\n")?;
                report.extend_from_slice(refusal.as_bytes())?;
                was_refused = true;
            }
            _ => return Err(ANSWER),
        }
    }
    Ok(was_refused)
}

/// Whether the network of a place and this address hears a line; none does if no network is.
fn is_heard(place: usize, address: Option<MacAddr>, line: &Line) -> bool {
    match (address, line) {
        (None, _) => false,
        (Some(address), Line::Air(octets)) => hears(address, octets.as_slice()),
        (Some(_), Line::Wire { place: to, .. }) => *to == place,
        (Some(_), Line::Tick) => true,
    }
}
