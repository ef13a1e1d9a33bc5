//! The programs of `docs/LIBRARY.md` on frames from outside: calls succeed if there is memory, and the octets are
//! those of the standard.

use super::{are_frames, are_same, count_of, have_left, octets, section_at};
use bss_core::{Network, Radio, RunResult, Setting, Spare, Step, run};
use events::{Event, Line};
use fixtures::{PROBE_REQUEST, guest, lab, lab_and_guest};
use library_examples::{answer, run_two, sections, serve, take_all};
use mac_frame::Octets;
use std::alloc::Global;
use std::sync::Wait;
use std::test::Fail;
use std::thread::Threads;
use workers::Finished;

/// What is heard if a text spells it.
fn heard(alloc: Global, text: &str) -> Result<Event, Fail> {
    Ok(Event::Air(octets(alloc, text)?))
}

#[test]
fn a_network_answers_alone(rt: HostRuntime) -> Result<(), Fail> {
    let alloc = rt.alloc();
    let first = heard(alloc, lab::AUTHENTICATION_REQUEST)?;
    let second = heard(alloc, lab::ASSOCIATION_REQUEST)?;
    let events = vec![in alloc; first, second]?;
    let section = take_all(alloc, 6, 100, lab::config(alloc, 100)?, events)?;
    let answers = [lab::AUTHENTICATION_RESPONSE, lab::ASSOCIATION_RESPONSE];
    assert!(rt; are_frames(alloc, section.air.as_slice(), &answers)?);
    Ok(())
}

/// What the network `lab` sends for the probe request, twice, octet after octet.
fn answers(alloc: Global) -> Result<Octets, Fail> {
    let setting = Setting {
        channel: 6,
        interval: 100,
        network: lab::config(alloc, 100)?,
    };
    let mut network = Network::new(alloc, setting);
    let mut spare = Spare::new(alloc);
    let mut out = Octets::new(alloc);
    let heard = octets(alloc, PROBE_REQUEST)?;
    for _ in 0..2 {
        if network.events() > 2 {
            return Err(Fail::new("too many events"));
        }
        answer(&mut network, heard.as_slice(), &mut spare, &mut out)?;
    }
    Ok(out)
}

#[test]
fn a_network_answers_in_spare_memory(rt: HostRuntime) -> Result<(), Fail> {
    let alloc = rt.alloc();
    let mut expected = octets(alloc, lab::PROBE_RESPONSE)?;
    expected.append(octets(alloc, lab::SECOND_PROBE_RESPONSE)?.as_slice())?;
    assert!(rt; answers(alloc)?.as_slice() == expected.as_slice());
    Ok(())
}

/// Whether of a radio whose second network takes the probe request that one's answer alone leaves.
fn serves_second(alloc: Global, radio: &mut Radio) -> Result<bool, Fail> {
    if radio.networks() < 2 {
        return Err(Fail::new("no second network"));
    }
    let left = serve(alloc, radio, 1, heard(alloc, PROBE_REQUEST)?)?;
    Ok(
        count_of(left.as_slice(), 1) == 1
            && have_left(alloc, left.as_slice(), &[guest::PROBE_RESPONSE])?,
    )
}

#[test]
fn a_radio_serves_one_network(rt: HostRuntime) -> Result<(), Fail> {
    let alloc = rt.alloc();
    let mut radio = Radio::new(alloc, lab_and_guest(alloc, 2, 1)?)?;
    assert!(rt; serves_second(alloc, &mut radio)?);
    Ok(())
}

/// Each network answers the probe request, and the second's answer leaves.
#[test]
fn a_radio_has_a_section_for_each_network(rt: HostRuntime) -> Result<(), Fail> {
    let alloc = rt.alloc();
    let (place, event) = (0, heard(alloc, PROBE_REQUEST)?);
    let first = Step::Take { place, event };
    let (place, event) = (1, heard(alloc, PROBE_REQUEST)?);
    let second = Step::Take { place, event };
    let steps = vec![in alloc; first, second, Step::Hand { place }, Step::Leave]?;
    let sections = sections(alloc, lab_and_guest(alloc, 2, 1)?, steps.as_slice())?;
    for (place, answer) in [lab::PROBE_RESPONSE, guest::PROBE_RESPONSE]
        .iter()
        .enumerate()
    {
        let section = section_at(&sections, place)?;
        assert!(rt; are_frames(alloc, section.air.as_slice(), &[*answer])?);
    }
    Ok(())
}

/// How often two sources run.
const TIMES: u32 = 50;

/// How many lines each of them has.
const LINES: u32 = 20;

/// The station authenticates itself with the network at each place.
const REQUESTS: [&str; 2] = [lab::AUTHENTICATION_REQUEST, guest::AUTHENTICATION_REQUEST];

/// A source of that request alone.
fn source(alloc: Global, request: &str) -> Result<Vec<Line>, Fail> {
    let mut lines = Vec::new(alloc);
    for _ in 0..LINES {
        lines.push(Line::Air(octets(alloc, request)?))?;
    }
    Ok(lines)
}

/// The end of an access point of two networks, each of which is fed by a source, while frames leave.
fn fed<R: Threads + Wait + Sync>(rt: &R, alloc: Global) -> Result<Finished, Fail> {
    let first = source(alloc, REQUESTS[0])?;
    let second = source(alloc, REQUESTS[1])?;
    let config = lab_and_guest(alloc, 100, 64)?;
    Ok(run_two(rt, alloc, config, first.as_slice(), second.as_slice())?)
}

/// What the two networks make of these requests one after the other.
fn alone(alloc: Global) -> Result<RunResult, Fail> {
    let mut steps = Vec::new(alloc);
    for _ in 0..LINES {
        for (place, request) in REQUESTS.iter().enumerate() {
            let event = heard(alloc, request)?;
            steps.push(Step::Take { place, event })?;
        }
    }
    Ok(run(alloc, lab_and_guest(alloc, 100, 64)?, steps.as_slice())?)
}

/// Whether each network took all its requests and sent what it sends alone, and nothing else left.
fn is_fed(expected: &RunResult, end: &Finished) -> Result<bool, Fail> {
    let all = LINES as usize;
    for place in 0..2 {
        let section = section_at(&end.sections, place)?;
        let alone = section_at(&expected.sections, place)?;
        if !are_same(section.air.as_slice(), alone.air.as_slice())
            || section.events.as_slice().len() != all
            || count_of(end.left.as_slice(), place) != all
        {
            return Ok(false);
        }
    }
    Ok(end.left.as_slice().len() == 2 * all)
}

/// Whether so it is with a new access point.
fn feeds<R: Threads + Wait + Sync>(
    rt: &R,
    alloc: Global,
    expected: &RunResult,
) -> Result<bool, Fail> {
    let end = fed(rt, alloc)?;
    is_fed(expected, &end)
}

#[test]
fn two_networks_are_fed_at_once(rt: HostRuntime) -> Result<(), Fail> {
    let expected = alone(rt.alloc())?;
    for _ in 0..TIMES {
        assert!(rt; feeds(&rt, rt.alloc(), &expected)?);
    }
    Ok(())
}
