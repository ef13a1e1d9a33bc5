//! What an access point answers, move by move, and that an event changes its network at once.

use super::playing::is_as_alone;
use super::running::{Job, run};
use super::{
    OTHER_ASSOCIATION, OTHER_AUTHENTICATION, are_frames, count_of, has_first, have_left, octets,
    radio, section_at,
};
use ap_config::MAX_NETWORKS;
use events::Counts;
use fixtures::PROBE_REQUEST;
use fixtures::lab::{
    ASSOCIATION_REQUEST, ASSOCIATION_RESPONSE, AUTHENTICATION_REQUEST, AUTHENTICATION_RESPONSE,
    BEACON, DOZE, PS_POLL, SECOND_AUTHENTICATION_RESPONSE,
};
use network::Bss;
use std::alloc::Global;
use std::process::Abort;
use std::sync::Wait;
use std::test::Fail;
use std::thread::Threads;
use workers::{Ap, ApName, Caller, Entry, Finished, Outcome, Transmitter};

/// What is given to an access point.
#[derive(Clone, Copy)]
pub(super) enum Given {
    /// A frame on the air.
    Air(&'static str),
    /// A frame on the wire for the network at a place.
    Wire(usize, &'static str),
    Tick,
}

/// What a caller does, and what comes of it.
#[derive(Clone, Copy)]
pub(super) enum Move {
    /// It gives this. The first network makes the first of it, and each of the others the second.
    Gives(Given, [Outcome; 2]),
    /// It gives this. The first network alone hears it, and takes it as its event of this number.
    Takes(Given, u32),
    /// So many frames of the first network go to the queue.
    Pumps(u32),
    /// So many frames of the network at a place go to the queue, and its first leaves.
    PumpsAt(usize, u32),
    /// The same of each network, the first first.
    PumpsEach(u32),
    /// No frame of any network goes to the queue.
    PumpsNone,
    /// A frame leaves, or none, and this many have left then.
    Leaves(bool, usize),
    /// The first network shows how many events it took, how many intervals began, how many of its events are unread,
    /// and how many stations it knows.
    Shows([usize; 4]),
    /// Each network is shown at its place.
    ShowsEach,
    /// The numbers of its receipts, and none for each refusal.
    WasTold(&'static [Option<u32>]),
}

/// Nobody heard it.
const NOBODY: [Outcome; 2] = [Outcome::NotHeard, Outcome::NotHeard];

/// Too short to be read, and too short to be heard.
const THIRTEEN: &str = "00000000000000000000000000";

const NINE: &str = "ffffffffffffffffff";

/// Beacons of the first network with sequence numbers 1, 2, 4 and 5. With number 2 the first one of all, which names
/// the station.
const SECOND_BEACON: &str = "80000000 ffffffffffff 020000000001 020000000001 1000 \
    0020030000000000 6400 0100 00036c6162 010482840b16 030106 050400010000";

const THIRD_BEACON: &str = "80000000 ffffffffffff 020000000001 020000000001 2000 \
    00b0040000000000 6400 0100 00036c6162 010482840b16 030106 050400010000";

const NAMING_BEACON: &str = "80000000 ffffffffffff 020000000001 020000000001 2000 \
    0090010000000000 6400 0100 00036c6162 010482840b16 030106 050400010002";

const BEACON_4: &str = "80000000 ffffffffffff 020000000001 020000000001 4000 \
    0090010000000000 6400 0100 00036c6162 010482840b16 030106 050400010000";

const BEACON_5: &str = "80000000 ffffffffffff 020000000001 020000000001 5000 \
    0020030000000000 6400 0100 00036c6162 010482840b16 030106 050400010000";

/// A beacon interval begins.
const BEACON_MOVES: &[Move] = &[Move::Takes(Given::Tick, 0), Move::Pumps(1)];

/// An event is pumped and left, others show at once, and what nobody hears leaves no entry.
const PUMP_THEN_LEAVE: &[Move] = &[
    Move::Takes(Given::Tick, 0),
    Move::Shows([1, 1, 0, 0]),
    Move::Pumps(1),
    Move::Leaves(true, 1),
    Move::Pumps(0),
    Move::Leaves(false, 1),
    Move::Takes(Given::Air(AUTHENTICATION_REQUEST), 1),
    Move::Shows([2, 1, 0, 1]),
    Move::Takes(Given::Wire(0, THIRTEEN), 2),
    Move::Shows([3, 1, 1, 1]),
    Move::Gives(Given::Wire(1, THIRTEEN), NOBODY),
    Move::Gives(Given::Wire(usize::MAX, THIRTEEN), NOBODY),
    Move::Gives(Given::Air(NINE), NOBODY),
    Move::WasTold(&[Some(0), Some(1), Some(2)]),
];

/// A network takes one tick, and refuses the next.
const TWO_TICKS: &[Move] = &[
    Move::Takes(Given::Tick, 0),
    Move::Gives(Given::Tick, [Outcome::Full, Outcome::NotHeard]),
    Move::WasTold(&[Some(0), None]),
];

/// Of three beacons the first leaves, the second is queued, and the third waits.
const THREE_BEACONS: &[Move] = &[
    Move::Takes(Given::Tick, 0),
    Move::Pumps(1),
    Move::Leaves(true, 1),
    Move::Takes(Given::Tick, 1),
    Move::Pumps(1),
    Move::Takes(Given::Tick, 2),
];

/// Two beacons wait, go to the queue together, and leave.
const PUMP_BOTH: &[Move] = &[
    Move::Takes(Given::Tick, 0),
    Move::Takes(Given::Tick, 1),
    Move::Pumps(2),
    Move::Leaves(true, 1),
    Move::Leaves(true, 2),
    Move::Leaves(false, 2),
];

/// A station joins and dozes, two frames come for it on the wire, and it polls them.
const UNITS: &[Move] = &[
    Move::Takes(Given::Air(AUTHENTICATION_REQUEST), 0),
    Move::Takes(Given::Air(ASSOCIATION_REQUEST), 1),
    Move::Takes(Given::Air(DOZE), 2),
    Move::Takes(Given::Wire(0, "02aa00000001 02bb00000001 0800 01"), 3),
    Move::Takes(Given::Wire(0, "02aa00000001 02bb00000001 0800 02"), 4),
    Move::Takes(Given::Tick, 5),
    Move::Takes(Given::Air(PS_POLL), 6),
    Move::Takes(Given::Air(PS_POLL), 7),
    Move::Takes(Given::Air(PS_POLL), 8),
];

/// The network answers both requests, tells in its beacon that units wait for the station, and sends them as it polls,
/// the first with More Data.
const POLLED: &[&str] = &[
    AUTHENTICATION_RESPONSE,
    ASSOCIATION_RESPONSE,
    NAMING_BEACON,
    "08220000 02aa00000001 020000000001 02bb00000001 3000 aaaa030000000800 01",
    "08020000 02aa00000001 020000000001 02bb00000001 4000 aaaa030000000800 02",
];

/// Each network takes a tick and the probe request, and is shown at its place.
const TICK_AND_PROBE: &[Move] = &[
    Move::Gives(Given::Tick, [Outcome::Took(0), Outcome::Took(0)]),
    Move::Gives(
        Given::Air(PROBE_REQUEST),
        [Outcome::Took(1), Outcome::Took(1)],
    ),
    Move::ShowsEach,
];

/// Each network takes a tick, and the second's beacon alone goes to the queue.
const PUMP_THE_SECOND: &[Move] = &[
    Move::Gives(Given::Tick, [Outcome::Took(0), Outcome::Took(0)]),
    Move::PumpsAt(1, 1),
];

/// Each network takes a tick, its beacon goes to the queue and leaves, and nothing of it waits then.
const PUMP_EACH: &[Move] = &[
    Move::Gives(Given::Tick, [Outcome::Took(0), Outcome::Took(0)]),
    Move::PumpsEach(1),
    Move::Leaves(false, MAX_NETWORKS),
    Move::PumpsNone,
    Move::Gives(Given::Tick, [Outcome::Took(1), Outcome::Took(1)]),
    Move::PumpsEach(1),
    Move::Leaves(false, 2 * MAX_NETWORKS),
];

/// Each of two callers lets a station of its own join, and gives a tick.
const IN_TURN: &[Move] = &[
    Move::Takes(Given::Air(AUTHENTICATION_REQUEST), 0),
    Move::Takes(Given::Air(OTHER_AUTHENTICATION), 1),
    Move::Takes(Given::Air(ASSOCIATION_REQUEST), 2),
    Move::Takes(Given::Air(OTHER_ASSOCIATION), 3),
    Move::Takes(Given::Tick, 4),
    Move::Takes(Given::Tick, 5),
];

/// What the network sends for that.
const BOTH_JOINED: &[&str] = &[
    AUTHENTICATION_RESPONSE,
    "b0000000 02aa00000002 020000000001 020000000001 1000 0000 0200 0000",
    "10000000 02aa00000001 020000000001 020000000001 2000 0100 0000 01c0 010482840b16",
    "10000000 02aa00000002 020000000001 020000000001 3000 0100 0000 02c0 010482840b16",
    BEACON_4,
    BEACON_5,
];

/// Whether the first network makes the first of it, and each of the others the second.
fn is_answered<N: ApName, R: Wait>(
    rt: &R,
    alloc: Global,
    ap: &Ap<N>,
    caller: &mut Caller,
    given: Given,
    expected: [Outcome; 2],
) -> Result<bool, Fail> {
    let mut all = [expected[1]; MAX_NETWORKS];
    all[0] = expected[0];
    let outcomes = match given {
        Given::Air(frame) => ap.air(rt, caller, octets(alloc, frame)?.as_slice())?,
        Given::Wire(place, frame) => ap.wire(rt, caller, place, octets(alloc, frame)?.as_slice())?,
        Given::Tick => ap.tick(rt, caller)?,
    };
    Ok(outcomes == all)
}

/// What the first network shows.
fn shown(bss: &Bss) -> [usize; 4] {
    let counts = bss.counts();
    [
        bss.history().len(),
        counts.clock as usize,
        counts.unread as usize,
        bss.table_len(),
    ]
}

/// Whether the first network shows that.
fn shows<N: ApName, R: Wait>(rt: &R, ap: &Ap<N>, counts: [usize; 4]) -> Result<bool, Fail> {
    has_first(ap)?;
    Ok(ap.inspect(rt, 0, shown) == counts)
}

/// The last octet of a network's address.
fn last_octet(bss: &Bss) -> u8 {
    bss.config().bssid.octets()[5]
}

/// Whether each place shows its network.
fn shows_each_at_its_place<N: ApName, R: Wait>(rt: &R, ap: &Ap<N>) -> bool {
    for place in 0..ap.networks() {
        if usize::from(ap.inspect(rt, place, last_octet)) != place + 1 {
            return false;
        }
    }
    true
}

/// Whether the numbers of a caller's receipts are these, and none for each refusal.
fn was_told(caller: &Caller, numbers: &[Option<u32>]) -> bool {
    for (entry, expected) in caller.entries().iter().zip(numbers) {
        let number = match entry {
            Entry::Receipt { number, .. } => Some(*number),
            Entry::Refused { .. } => None,
        };
        if number != *expected {
            return false;
        }
    }
    caller.entries().len() == numbers.len()
}

/// Whether this number of frames of the network at a place go to the queue, which is empty, and its first leaves.
fn pumps_at<N: ApName, R: Wait>(
    rt: &R,
    ap: &Ap<N>,
    transmitter: &mut Transmitter<N>,
    place: usize,
    count: u32,
) -> Result<bool, Fail> {
    if place >= ap.networks() {
        return Err(Fail::from("no such network"));
    }
    if ap.pump(rt, place) != count || !ap.leave(rt, transmitter)? {
        return Ok(false);
    }
    Ok(
        transmitter
            .left()
            .last()
            .is_some_and(|item| item.place == place),
    )
}

/// The same of each network, the first first.
fn pumps_each<N: ApName, R: Wait>(
    rt: &R,
    ap: &Ap<N>,
    transmitter: &mut Transmitter<N>,
    count: u32,
) -> Result<bool, Fail> {
    for place in 0..ap.networks() {
        if !pumps_at(rt, ap, transmitter, place, count)? {
            return Ok(false);
        }
    }
    Ok(true)
}

/// Whether no frame of any network goes to the queue.
fn pumps_none<N: ApName, R: Wait>(rt: &R, ap: &Ap<N>) -> bool {
    for place in 0..ap.networks() {
        if ap.pump(rt, place) != 0 {
            return false;
        }
    }
    true
}

/// Whether that comes of a move.
fn comes_of<N: ApName, R: Wait>(
    rt: &R,
    alloc: Global,
    ap: &Ap<N>,
    caller: &mut Caller,
    transmitter: &mut Transmitter<N>,
    made: Move,
) -> Result<bool, Fail> {
    has_first(ap)?;
    match made {
        Move::Gives(given, outcomes) => is_answered(rt, alloc, ap, caller, given, outcomes),
        Move::Takes(given, number) => {
            let outcomes = [Outcome::Took(number), Outcome::NotHeard];
            is_answered(rt, alloc, ap, caller, given, outcomes)
        }
        Move::Pumps(count) => Ok(ap.pump(rt, 0) == count),
        Move::PumpsAt(place, count) => pumps_at(rt, ap, transmitter, place, count),
        Move::PumpsEach(count) => pumps_each(rt, ap, transmitter, count),
        Move::PumpsNone => Ok(pumps_none(rt, ap)),
        Move::Leaves(leaves, count) => {
            Ok(ap.leave(rt, transmitter)? == leaves && transmitter.left().len() == count)
        }
        Move::Shows(counts) => shows(rt, ap, counts),
        Move::ShowsEach => Ok(shows_each_at_its_place(rt, ap)),
        Move::WasTold(numbers) => Ok(was_told(caller, numbers)),
    }
}

/// The callers make the moves in turn.
pub(super) fn make_all<N: ApName, R: Wait + Abort>(
    rt: &R,
    alloc: Global,
    ap: &Ap<N>,
    callers: &mut [Caller],
    transmitter: &mut Transmitter<N>,
    moves: &[Move],
) -> Result<(), Fail> {
    let count = callers.len();
    if count == 0 {
        return Err(Fail::from("no caller"));
    }
    for (number, made) in moves.iter().enumerate() {
        let caller = callers.get_mut(number % count).ok_or("no caller")?;
        assert!(rt;
            comes_of(rt, alloc, ap, caller, transmitter, *made)?,
            "move {number}"
        );
    }
    Ok(())
}

/// Whether the first network sent these frames, and these left; and whether it took these numbers of events, counted
/// these beacon intervals, and left these events unread. No unit was lost, and none is kept.
fn are_sent(alloc: Global, end: &Finished, sent: &[&str], counts: [u32; 3]) -> Result<bool, Fail> {
    let section = section_at(&end.sections, 0)?;
    let [events, clock, unread] = counts;
    let counts = Counts {
        events,
        clock,
        unread,
        lost: 0,
        kept: 0,
    };
    Ok(
        section.counts == counts
            && are_frames(alloc, section.air.as_slice(), sent)?
            && have_left(alloc, end.left.as_slice(), sent)?,
    )
}

/// Whether an access point of one network and one caller, which takes this number of events, ends so after these moves.
fn ends_so<R: Threads + Wait + Abort + Sync>(
    rt: &R,
    alloc: Global,
    most: u32,
    moves: &'static [Move],
    sent: &[&str],
    counts: [u32; 3],
) -> Result<bool, Fail> {
    let config = radio(alloc, 64, &[most])?;
    let end = run(rt, alloc, config, 1, Job::Moves(moves))?;
    are_sent(alloc, &end, sent, counts)
}

#[test]
fn a_beacon_is_sent(rt: HostRuntime) -> Result<(), Fail> {
    assert!(rt; ends_so(&rt, rt.alloc(), 100, BEACON_MOVES, &[BEACON], [1, 1, 0])?);
    Ok(())
}

#[test]
fn pump_then_leave(rt: HostRuntime) -> Result<(), Fail> {
    let sent = &[BEACON, SECOND_AUTHENTICATION_RESPONSE];
    assert!(rt; ends_so(&rt, rt.alloc(), 100, PUMP_THEN_LEAVE, sent, [3, 1, 1])?);
    Ok(())
}

#[test]
fn a_full_network_refuses(rt: HostRuntime) -> Result<(), Fail> {
    assert!(rt; ends_so(&rt, rt.alloc(), 1, TWO_TICKS, &[BEACON], [1, 1, 0])?);
    Ok(())
}

#[test]
fn all_frames_leave_in_order(rt: HostRuntime) -> Result<(), Fail> {
    let sent = &[BEACON, SECOND_BEACON, THIRD_BEACON];
    assert!(rt; ends_so(&rt, rt.alloc(), 100, THREE_BEACONS, sent, [3, 3, 0])?);
    Ok(())
}

#[test]
fn a_station_polls_its_units(rt: HostRuntime) -> Result<(), Fail> {
    assert!(rt; ends_so(&rt, rt.alloc(), 100, UNITS, POLLED, [9, 1, 0])?);
    Ok(())
}

/// Whether two frames of each network left, and no others.
fn are_two_of_each(end: &Finished) -> bool {
    for place in 0..MAX_NETWORKS {
        if count_of(end.left.as_slice(), place) != 2 {
            return false;
        }
    }
    end.left.as_slice().len() == 2 * MAX_NETWORKS
}

/// Each that waits, by one call.
#[test]
fn a_pump_hands_both_frames_that_wait(rt: HostRuntime) -> Result<(), Fail> {
    let sent = &[BEACON, SECOND_BEACON];
    assert!(rt; ends_so(&rt, rt.alloc(), 100, PUMP_BOTH, sent, [2, 2, 0])?);
    Ok(())
}

/// Those of another network stay.
#[test]
fn a_pump_hands_the_frames_of_its_network(rt: HostRuntime) -> Result<(), Fail> {
    let config = radio(rt.alloc(), 64, &[100; MAX_NETWORKS])?;
    let _end = run(&rt, rt.alloc(), config, 1, Job::Moves(PUMP_THE_SECOND))?;
    Ok(())
}

/// No two places are taken for one.
#[test]
fn a_pump_hands_the_frame_of_each_of_sixteen_networks(rt: HostRuntime) -> Result<(), Fail> {
    let config = radio(rt.alloc(), 64, &[100; MAX_NETWORKS])?;
    let end = run(&rt, rt.alloc(), config, 1, Job::Moves(PUMP_EACH))?;
    assert!(rt; are_two_of_each(&end));
    Ok(())
}

#[test]
fn as_many_networks_as_there_may_be(rt: HostRuntime) -> Result<(), Fail> {
    let config = radio(rt.alloc(), 1, &[100; MAX_NETWORKS])?;
    let end = run(&rt, rt.alloc(), config, 1, Job::Moves(TICK_AND_PROBE))?;
    assert!(rt; are_two_of_each(&end));
    Ok(())
}

/// Whether the first network's events came from these callers.
fn are_givers(end: &Finished, givers: &[usize]) -> bool {
    match end.givers.as_slice().first() {
        Some(found) => found.as_slice() == givers,
        None => false,
    }
}

#[test]
fn two_callers_give_in_turn(rt: HostRuntime) -> Result<(), Fail> {
    let config = radio(rt.alloc(), 1, &[100])?;
    let end = run(&rt, rt.alloc(), config, 2, Job::Moves(IN_TURN))?;
    assert!(rt; are_givers(&end, &[0, 1, 0, 1, 0, 1]));
    assert!(rt; are_sent(rt.alloc(), &end, BOTH_JOINED, [6, 2, 0])?);
    assert!(rt; is_as_alone(rt.alloc(), section_at(&end.sections, 0)?)?);
    Ok(())
}
