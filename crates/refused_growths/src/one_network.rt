//! Events that are offered to one network.

use crate::asked::Asked;
use crate::outcome::{AGAIN, CHANGED, Flaw, ROOM, grow, report_sections};
use ap_config::RadioConfig;
use bss_core::Radio;
use config_text::read_config;
use events::{Event, Line};
use mac_frame::{List, NoMemory, Octets};
use network::{Bss, Refusal};
use std::alloc::Global;
use std::fmt::Write;
use trace::read_trace;

/// Offers each line to the first network of a configuration, which hears them all. An event that is refused for memory
/// must leave it as it was, and is offered again.
pub(crate) fn take_each(
    alloc: Global,
    asked: &Asked<'_>,
    report: &mut Vec<u8>,
) -> Result<bool, Flaw> {
    let Ok(config) = read_config(alloc, asked.config) else {
        return Err(Flaw::Beside);
    };
    let Ok(lines) = read_trace(alloc, &config, asked.trace) else {
        return Err(Flaw::Beside);
    };
    let mut network = first_network(alloc, config)?;
    grow(alloc, asked.before)?;
    let mut was_refused = false;
    for line in lines.as_slice() {
        was_refused |= offer(alloc, &mut network, line)?;
    }
    let air = frames_of(alloc, &mut network)?;
    let section = network.into_section(List::from_vec(air))?;
    report_sections(alloc, &[section], report)?;
    Ok(was_refused)
}

/// The first network of a radio, which has taken no event.
fn first_network(alloc: Global, config: RadioConfig) -> Result<Bss, Flaw> {
    let Ok(radio) = Radio::new(alloc, config) else {
        return Err(Flaw::Beside);
    };
    let (networks, _) = radio.into_parts();
    networks.into_vec().into_iter().next().ok_or(Flaw::Beside)
}

/// The frames that wait, which leave.
fn frames_of(alloc: Global, network: &mut Bss) -> Result<Vec<Octets>, NoMemory> {
    let mut air = Vec::with_capacity(alloc, network.waiting_len())?;
    for _ in 0..network.waiting_len() {
        if let Some(frame) = network.take_front() {
            air.push(frame)?;
        }
    }
    Ok(air)
}

/// Offers a line, and once more if it was refused. Answers whether it was.
fn offer(alloc: Global, network: &mut Bss, line: &Line) -> Result<bool, Flaw> {
    let before = seen(alloc, network)?;
    match network.take(event_of(alloc, line)?) {
        Ok(_) => return Ok(false),
        Err(Refusal::HistoryFull) => return Err(Flaw::Beside),
        Err(Refusal::NoMemory) => {}
    }
    if seen(alloc, network)? != before {
        return Err(CHANGED);
    }
    match network.take(event_of(alloc, line)?) {
        Ok(_) => Ok(true),
        Err(_) => Err(AGAIN),
    }
}

/// What a line brings to a network that hears it.
fn event_of(alloc: Global, line: &Line) -> Result<Event, NoMemory> {
    match line {
        Line::Air(octets) => Ok(Event::Air(octets.copy(alloc)?)),
        Line::Wire { octets, .. } => Ok(Event::Wire(octets.copy(alloc)?)),
        Line::Tick => Ok(Event::Tick),
    }
}

/// All that is seen of a network, as text: its history, its rows, its counts, how many frames wait, and what it sent on
/// the wire.
fn seen(alloc: Global, network: &Bss) -> Result<String, NoMemory> {
    let mut rows = Vec::with_capacity(alloc, network.table_len())?;
    for place in 0..network.table_len() {
        rows.push(network.row(place))?;
    }
    let history = network.history();
    let counts = network.counts();
    let waiting = network.waiting_len();
    let wired = network.wired();
    let mut text = String::with_capacity(alloc, ROOM)?;
    match write!(text, "{history:?} {rows:?} {counts:?} {waiting} {wired:?}") {
        Ok(()) => Ok(text),
        Err(_) => Err(NoMemory),
    }
}
