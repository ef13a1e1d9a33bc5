//! Sources that feed one access point, each by a thread of its own.

use super::opening::CHANNEL;
use super::overlap::comes;
use super::{OTHER_ASSOCIATION, OTHER_AUTHENTICATION, are_same, octets, radio, section_at};
use bss_core::{Step, run};
use events::{Event, Section};
use fixtures::lab::{ASSOCIATION_REQUEST, AUTHENTICATION_REQUEST};
use mac_frame::Octets;
use std::alloc::Global;
use std::sync::Wait;
use std::sync::atomic::{AtomicU64, Ordering};
use std::test::Fail;
use std::thread::Threads;
use workers::{Finished, Gate, Line, PlayFault, play};

/// Holds the first line of source 0 until source 1 comes to its second, and that one until source 0 comes to a line.
/// If that is line 0, nobody is held.
#[derive(Drop)]
struct Order {
    line: u32,
    come: AtomicU64,
    second: AtomicU64,
    held: AtomicU64,
}

impl Order {
    fn until(line: u32) -> Order {
        Order {
            line,
            come: AtomicU64::new(0),
            second: AtomicU64::new(0),
            held: AtomicU64::new(0),
        }
    }

    /// Waits for a sign, and counts that it came.
    fn hold(&self, sign: &AtomicU64) {
        if comes(sign) {
            self.held.fetch_add(1, Ordering::SeqCst);
        }
    }
}

impl Gate for Order {
    fn before(&self, source: u32, line: u32) {
        if self.line == 0 {
            return;
        }
        if (source, line) == (0, self.line) {
            self.come.store(1, Ordering::SeqCst);
        }
        if (source, line) == (0, 1) {
            self.hold(&self.second);
        }
        if (source, line) == (1, 2) {
            self.second.store(1, Ordering::SeqCst);
            self.hold(&self.come);
        }
    }
}

/// A source of these frames on the air, of frames on the wire for networks that are not there, which do nothing, and a
/// tick.
fn source(alloc: Global, frames: &[&str]) -> Result<Vec<Line>, Fail> {
    let mut lines = Vec::new(alloc);
    for frame in frames {
        lines.push(Line::Air(octets(alloc, frame)?))?;
    }
    for place in [1, 64, usize::MAX] {
        let octets = Octets::from_slice(alloc, &[0; 13])?;
        lines.push(Line::Wire { place, octets })?;
    }
    lines.push(Line::Tick)?;
    Ok(lines)
}

/// The least and the greatest association identifier of the stations.
fn identifiers(section: &Section) -> [u16; 2] {
    let mut bounds = [u16::MAX, 0];
    for row in section.table.as_slice() {
        bounds = [bounds[0].min(row.aid), bounds[1].max(row.aid)];
    }
    bounds
}

/// The events as steps of the first network.
fn steps(alloc: Global, events: &[Event]) -> Result<Vec<Step>, Fail> {
    let mut steps = Vec::new(alloc);
    for event in events {
        let event = match event {
            Event::Air(frame) => Event::Air(frame.copy(alloc)?),
            Event::Wire(frame) => Event::Wire(frame.copy(alloc)?),
            Event::Tick => Event::Tick,
        };
        steps.push(Step::Take { place: 0, event })?;
    }
    Ok(steps)
}

/// Whether the networks came to the same.
fn is_same(one: &Section, other: &Section) -> bool {
    one.events.as_slice().len() == other.events.as_slice().len()
        && one.table.as_slice() == other.table.as_slice()
        && one.counts == other.counts
        && are_same(one.air.as_slice(), other.air.as_slice())
        && are_same(one.wire.as_slice(), other.wire.as_slice())
}

/// Whether the network alone makes the same of its events.
pub(super) fn is_as_alone(alloc: Global, section: &Section) -> Result<bool, Fail> {
    let steps = steps(alloc, section.events.as_slice())?;
    let alone = run(alloc, radio(alloc, 1, &[100])?, steps.as_slice())?;
    Ok(is_same(section, section_at(&alone.sections, 0)?))
}

/// Whether that is what comes of two sources: how many events the network took and how many intervals began, how many
/// of the events are unread, how many frames it sent, and which identifiers its two stations have.
fn are_joined(alloc: Global, section: &Section) -> Result<bool, Fail> {
    let counts = [
        section.counts.events,
        section.counts.clock,
        section.counts.unread,
    ];
    Ok(
        counts == [6, 2, 0]
            && section.air.as_slice().len() == 6
            && identifiers(section) == [1, 2]
            && is_as_alone(alloc, section)?,
    )
}

#[test]
fn two_sources_are_played(rt: HostRuntime) -> Result<(), Fail> {
    let alloc = rt.alloc();
    let first = source(alloc, &[AUTHENTICATION_REQUEST, ASSOCIATION_REQUEST])?;
    let second = source(alloc, &[OTHER_AUTHENTICATION, OTHER_ASSOCIATION])?;
    let sources = vec![in alloc; first, second]?;
    let end = play(
        &rt,
        alloc,
        radio(alloc, 1, &[100])?,
        sources,
        &Order::until(0),
    )?;
    assert!(rt; are_joined(alloc, section_at(&end.sections, 0)?)?);
    Ok(())
}

/// A source of a tick, a request, and another tick.
fn asking(alloc: Global, request: &str) -> Result<Vec<Line>, Fail> {
    let request = Line::Air(octets(alloc, request)?);
    Ok(vec![in alloc; Line::Tick, request, Line::Tick]?)
}

/// Whether the first network's first events came from these sources.
fn come_first(end: &Finished, sources: &[usize]) -> bool {
    match end.givers.as_slice().first() {
        Some(givers) => givers.as_slice().starts_with(sources),
        None => false,
    }
}

/// A station authenticates itself by source 0 and associates itself by source 1. The second of the two lines is held
/// until source 0 comes to this line. The answer: how many of the two were held until the sign came, the least and the
/// greatest association identifier of the stations, and whether the first events came from these sources.
fn held<R: Threads + Wait + Sync>(
    rt: &R,
    alloc: Global,
    line: u32,
    sources: &[usize],
) -> Result<(u64, [u16; 2], bool), Fail> {
    let order = Order::until(line);
    let first = asking(alloc, AUTHENTICATION_REQUEST)?;
    let second = asking(alloc, ASSOCIATION_REQUEST)?;
    let both = vec![in alloc; first, second]?;
    let end = play(rt, alloc, radio(alloc, 64, &[100])?, both, &order)?;
    let section = section_at(&end.sections, 0)?;
    let held = order.held.load(Ordering::SeqCst);
    Ok((held, identifiers(section), come_first(&end, sources)))
}

/// Source 0 comes to its first line while source 1 waits before its second.
#[test]
fn sources_overlap(rt: HostRuntime) -> Result<(), Fail> {
    let (held, _, in_order) = held(&rt, rt.alloc(), 1, &[1])?;
    assert_eq!(rt; (held, in_order), (2, true));
    Ok(())
}

/// A line is given once the gate let it, and before the gate is asked for the next: the station associates itself after
/// it was authenticated, though by another source, and the events came in this order.
#[test]
fn a_line_is_given_once_the_gate_let_it(rt: HostRuntime) -> Result<(), Fail> {
    let found = held(&rt, rt.alloc(), 3, &[1, 0, 0])?;
    assert_eq!(rt; found, (2, [1, 1], true));
    Ok(())
}

/// The networks of the frames that left, if one source gives two networks a tick, the first of them a request, and both
/// a tick again.
fn places_of_left<R: Threads + Wait + Sync>(rt: &R, alloc: Global) -> Result<Vec<usize>, Fail> {
    let source = asking(alloc, AUTHENTICATION_REQUEST)?;
    let sources = vec![in alloc; source]?;
    let config = radio(alloc, 64, &[100, 100])?;
    let end = play(rt, alloc, config, sources, &Order::until(0))?;
    let mut places = Vec::new(alloc);
    for item in end.left.as_slice() {
        places.push(item.place)?;
    }
    Ok(places)
}

/// Frames of different networks leave in the order in which they were handed.
#[test]
fn frames_of_two_networks_leave_in_their_order(rt: HostRuntime) -> Result<(), Fail> {
    let places = places_of_left(&rt, rt.alloc())?;
    assert!(rt; places.as_slice() == [0, 1, 0, 0, 1].as_slice());
    Ok(())
}

/// Counts how often it is asked, and before which lines of source 0, by a bit for each.
#[derive(Drop)]
struct Asked {
    count: AtomicU64,
    lines: AtomicU64,
}

impl Gate for Asked {
    fn before(&self, source: u32, line: u32) {
        self.count.fetch_add(1, Ordering::SeqCst);
        if source == 0 && line < 64 {
            self.lines.fetch_or(1 << line, Ordering::SeqCst);
        }
    }
}

/// How often the gate is asked for a source, and before which of its six lines, of which a network hears the second and
/// the last alone.
fn ask_gate<R: Threads + Wait + Sync>(rt: &R, alloc: Global) -> Result<(u64, u64), Fail> {
    let gate = Asked {
        count: AtomicU64::new(0),
        lines: AtomicU64::new(0),
    };
    let short = "ffffffffffffffffff";
    let sources = vec![in alloc; source(alloc, &[short, AUTHENTICATION_REQUEST])?]?;
    let end = play(rt, alloc, radio(alloc, 64, &[100])?, sources, &gate)?;
    if section_at(&end.sections, 0)?.counts.events != 2 {
        return Err(Fail::new("other lines are heard"));
    }
    let lines = gate.lines.load(Ordering::SeqCst);
    Ok((gate.count.load(Ordering::SeqCst), lines))
}

/// Before each line once, also before one that nobody hears.
#[test]
fn the_gate_is_asked_before_each_line(rt: HostRuntime) -> Result<(), Fail> {
    assert_eq!(rt; ask_gate(&rt, rt.alloc())?, (6, 0b111_1110));
    Ok(())
}

/// On a channel, with this number of sources: the configuration's fault comes first.
const ROWS: [(u8, u32, Option<PlayFault>); 5] = [
    (6, 0, Some(PlayFault::Sources)),
    (6, 65, Some(PlayFault::Sources)),
    (6, 1, None),
    (6, 64, None),
    (15, 0, Some(PlayFault::Config(CHANNEL))),
];

/// Why this number of sources of one tick are not played on a channel, if they are not.
fn fault<R: Threads + Wait + Sync>(
    rt: &R,
    alloc: Global,
    channel: u8,
    count: u32,
) -> Result<Option<PlayFault>, Fail> {
    let mut config = radio(alloc, 64, &[100])?;
    config.channel = channel;
    let mut sources = Vec::new(alloc);
    for _ in 0..count {
        sources.push(vec![in alloc; Line::Tick]?)?;
    }
    Ok(play(rt, alloc, config, sources, &Order::until(0)).err())
}

#[test]
fn one_to_sixty_four_sources(rt: HostRuntime) -> Result<(), Fail> {
    for (channel, count, expected) in ROWS {
        assert_eq!(rt;
            fault(&rt, rt.alloc(), channel, count)?,
            expected,
            "{channel} {count}"
        );
    }
    Ok(())
}
