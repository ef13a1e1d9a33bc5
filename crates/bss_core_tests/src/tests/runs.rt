//! Runs of steps on two networks with a queue of one frame, the first of which takes two events.

use super::{are_frames, are_items, heard};
use ap_config::RadioConfig;
use bss_core::{RunResult, Step, run};
use events::Event;
use fixtures::{PROBE_REQUEST, guest, lab, lab_and_guest, radio_config};
use std::alloc::Global;
use std::test::Fail;

/// A step of the network at a place: it takes an event, or hands a frame. Or a frame leaves.
#[derive(Clone, Copy)]
enum Move {
    Hear(usize, &'static str),
    Tick(usize),
    Hand(usize),
    Leave,
}

/// Appends the steps of these moves, `times` times.
fn push_steps(alloc: Global, steps: &mut Vec<Step>, times: u8, moves: &[Move]) -> Result<(), Fail> {
    for _ in 0..times {
        for made in moves {
            steps.push(match *made {
                Move::Hear(place, text) => Step::Take {
                    place,
                    event: heard(alloc, text)?,
                },
                Move::Tick(place) => Step::Take {
                    place,
                    event: Event::Tick,
                },
                Move::Hand(place) => Step::Hand { place },
                Move::Leave => Step::Leave,
            })?;
        }
    }
    Ok(())
}

/// Whether the sections of a run are those of two networks, which took these numbers of events and sent these frames.
fn are_sections(alloc: Global, run: &RunResult, sections: &[(u32, &[&str])]) -> Result<bool, Fail> {
    for (section, (events, air)) in run.sections.as_slice().iter().zip(sections) {
        if section.counts.events != *events || !are_frames(alloc, section.air.as_slice(), *air)? {
            return Ok(false);
        }
    }
    Ok(run.sections.as_slice().len() == sections.len())
}

/// Whether these frames left after these moves, these are queued, and the sections are these.
fn ends(
    alloc: Global,
    moves: &[Move],
    left: &[(usize, &str)],
    queued: &[(usize, &str)],
    sections: &[(u32, &[&str])],
) -> Result<[bool; 3], Fail> {
    let mut steps = Vec::new(alloc);
    push_steps(alloc, &mut steps, 1, moves)?;
    let run = run(alloc, lab_and_guest(alloc, 2, 1)?, steps.as_slice())?;
    Ok([
        are_items(alloc, run.left.as_slice(), left)?,
        are_items(alloc, run.queued.as_slice(), queued)?,
        are_sections(alloc, &run, sections)?,
    ])
}

/// A beacon interval begins in each network, and the first hands its beacon.
const TICKS: [Move; 3] = [Move::Tick(0), Move::Tick(1), Move::Hand(0)];

#[test]
fn three_steps_are_run(rt: HostRuntime) -> Result<(), Fail> {
    let beacon = [(0, lab::BEACON)];
    let sections: [(u32, &[&str]); 2] = [(1, &[lab::BEACON]), (1, &[guest::BEACON])];
    assert_eq!(rt;
        ends(rt.alloc(), &TICKS, &[], &beacon, &sections)?,
        [true; 3]
    );
    Ok(())
}

/// Steps of both networks in turn, some of which name no network. The history of the first is full before the last of
/// its events.
const INTERLEAVED: [Move; 13] = [
    ASK_FIRST,
    ASK_SECOND,
    Move::Hand(0),
    Move::Hand(1),
    Move::Leave,
    Move::Hand(1),
    Move::Hear(2, PROBE_REQUEST),
    Move::Hand(2),
    ASK_FIRST,
    ASK_FIRST,
    Move::Leave,
    Move::Leave,
    Move::Hand(0),
];

#[test]
fn steps_of_two_networks_interleave(rt: HostRuntime) -> Result<(), Fail> {
    let left = [(0, lab::PROBE_RESPONSE), (1, guest::PROBE_RESPONSE)];
    let queued = [(0, lab::SECOND_PROBE_RESPONSE)];
    let sections: [(u32, &[&str]); 2] = [
        (2, &[lab::PROBE_RESPONSE, lab::SECOND_PROBE_RESPONSE]),
        (1, &[guest::PROBE_RESPONSE]),
    ];
    assert_eq!(rt;
        ends(rt.alloc(), &INTERLEAVED, &left, &queued, &sections)?,
        [true; 3]
    );
    Ok(())
}

/// The first network takes the probe request, and then the station authenticates itself with it.
const ASK_FIRST: Move = Move::Hear(0, PROBE_REQUEST);

const AUTHENTICATE_FIRST: Move = Move::Hear(0, lab::AUTHENTICATION_REQUEST);

/// The same of the second.
const ASK_SECOND: Move = Move::Hear(1, PROBE_REQUEST);

const AUTHENTICATE_SECOND: Move = Move::Hear(1, guest::AUTHENTICATION_REQUEST);

/// The moves of the first network alone, and those of both.
const OWN: [Move; 2] = [ASK_FIRST, AUTHENTICATE_FIRST];

const BOTH: [Move; 4] = [
    ASK_FIRST,
    ASK_SECOND,
    AUTHENTICATE_FIRST,
    AUTHENTICATE_SECOND,
];

/// Before and after those, the second network takes the probe request more often, and frames of it leave.
const BEFORE: [Move; 2] = [ASK_SECOND, Move::Hand(1)];

const AFTER: [Move; 2] = [Move::Leave, ASK_SECOND];

/// How many events the last network took and frames it sent, and all of the section of the first, as text, after these
/// moves, with those before and after them `times` times.
fn seen(
    alloc: Global,
    config: RadioConfig,
    times: u8,
    moves: &[Move],
) -> Result<(u32, usize, String), Fail> {
    let mut steps = Vec::new(alloc);
    push_steps(alloc, &mut steps, times, &BEFORE)?;
    push_steps(alloc, &mut steps, 1, moves)?;
    push_steps(alloc, &mut steps, times, &AFTER)?;
    let run = run(alloc, config, steps.as_slice())?;
    let sections = run.sections.as_slice();
    let (Some(first), Some(last)) = (sections.first(), sections.last()) else {
        return Err(Fail::new("no section"));
    };
    let text = format!(in alloc; "{first:?}")?;
    Ok((last.counts.events, last.air.as_slice().len(), text))
}

/// Whether the first network's section is the same in a run like that of both; and what the last has.
fn is_same(
    alloc: Global,
    config: RadioConfig,
    times: u8,
    moves: &[Move],
) -> Result<(bool, u32, usize), Fail> {
    let (_, _, expected) = seen(alloc, lab_and_guest(alloc, 2, 1)?, 0, &BOTH)?;
    let (events, frames, first) = seen(alloc, config, times, moves)?;
    Ok((first == expected, events, frames))
}

#[test]
fn the_first_network_is_the_same_whatever_the_second_does(rt: HostRuntime) -> Result<(), Fail> {
    let alloc = rt.alloc();
    let alone = radio_config(1, vec![in alloc; lab::config(alloc, 2)?]?);
    assert_eq!(rt; is_same(alloc, alone, 0, &BOTH)?, (true, 2, 2));
    for (times, moves, expected) in [
        (0, BOTH.as_slice(), (true, 2, 2)),
        (0, OWN.as_slice(), (true, 0, 0)),
        (25, BOTH.as_slice(), (true, 52, 52)),
    ] {
        let config = lab_and_guest(alloc, 2, 1)?;
        assert_eq!(rt; is_same(alloc, config, times, moves)?, expected);
    }
    Ok(())
}
