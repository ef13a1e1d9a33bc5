//! What becomes of the frames of a play: they leave by the air queue, however few it holds.

use super::{LINES, first_of, requested};
use ap_config::{NetConfig, RadioConfig};
use events::LentLine;
use fixtures::{lab, octets};
use mac_frame::{List, MacAddr, NoMemory, Octets};
use networks::{NetworkWithFrames, SentFrames};
use play::{LineLog, play_with_frames};
use std::alloc::Global;
use std::sync::Wait;
use std::test::Fail;
use std::thread::Threads;

/// A network with this last octet of its address, which takes this number of events.
fn network(alloc: Global, last: u8, max_events: u32) -> Result<NetConfig, NoMemory> {
    Ok(NetConfig {
        bssid: MacAddr::new([2, 0, 0, 0, 0, last]),
        ssid: Octets::from_slice(alloc, b"lab")?,
        rates: Octets::from_slice(alloc, &[0x82, 0x84, 0x0b, 0x16])?,
        dtim: 1,
        max_stations: 8,
        max_known: 16,
        quota: 8,
        max_events,
        relay: true,
        aging: false,
    })
}

/// A radio of this number of networks, each of which takes this number of events, with a queue of so many frames.
fn radio(
    alloc: Global,
    queue: u16,
    networks: u8,
    max_events: u32,
) -> Result<RadioConfig, NoMemory> {
    let mut made = Vec::new(alloc);
    for last in 1..=networks {
        made.push(network(alloc, last, max_events)?)?;
    }
    Ok(RadioConfig {
        channel: 6,
        interval: 100,
        queue,
        networks: List::from_vec(made),
    })
}

/// A source of one tick.
fn tick(alloc: Global) -> Result<LineLog, NoMemory> {
    let mut lines = LineLog::new(alloc);
    lines.push(LentLine::Tick)?;
    Ok(lines)
}

/// How many frames there are.
fn count_of(frames: &SentFrames) -> usize {
    frames.parts().0.len()
}

#[test]
fn two_ticks_where_one_event_fits(rt: HostRuntime) -> Result<(), Fail> {
    let alloc = rt.alloc();
    let sources = vec![in alloc; tick(alloc)?, tick(alloc)?]?;
    let logs = play_with_frames(&rt, alloc, radio(alloc, 1, 1, 1)?, sources.as_slice())?;
    let [log] = logs.as_slice() else {
        return Err(Fail::new("not one network"));
    };
    assert_eq!(rt; log.network.events(), 1);
    assert_eq!(rt; count_of(&log.air), 1);
    assert!(rt; first_of(&log.air) == octets(alloc, lab::BEACON)?.as_slice());
    Ok(())
}

/// Whether the one frame of a network is its beacon: its Address 2 ends with this octet.
fn has_its_beacon(log: &NetworkWithFrames, last: u8) -> bool {
    let frame = first_of(&log.air);
    log.network.events() == 1
        && count_of(&log.air) == 1
        && frame.get(..2) == Some(&[0x80, 0])
        && frame.get(10..16) == Some(&[2, 0, 0, 0, 0, last])
}

#[test]
fn a_tick_to_eight_networks_through_a_queue_of_one(rt: HostRuntime) -> Result<(), Fail> {
    let alloc = rt.alloc();
    let sources = vec![in alloc; tick(alloc)?]?;
    let logs = play_with_frames(&rt, alloc, radio(alloc, 1, 8, 100)?, sources.as_slice())?;
    assert_eq!(rt; logs.len(), 8);
    for (last, log) in (1..=8u8).zip(logs.as_slice()) {
        assert!(rt; has_its_beacon(log, last), "network {last}");
    }
    Ok(())
}

/// The request of a station with this number, to authenticate itself with the first network.
fn request_of(number: u16) -> [u8; 30] {
    let [high, low] = number.to_be_bytes();
    [
        0xb0, 0, 0, 0, 2, 0, 0, 0, 0, 1, 2, 0xaa, 0, 0, high, low, 2, 0, 0, 0, 0, 1, 0, 0, 0, 0, 1,
        0, 0, 0,
    ]
}

/// Whether the frames go to the stations with the numbers from 0 on, in order.
fn go_in_order(frames: &SentFrames) -> bool {
    let (lengths, octets) = frames.parts();
    let mut rest = octets;
    for (number, len) in (0..=u16::MAX).zip(lengths) {
        let [high, low] = number.to_be_bytes();
        if rest.get(4..10) != Some(&[2, 0xaa, 0, 0, high, low]) {
            return false;
        }
        rest = rest.get(*len..).unwrap_or(&[]);
    }
    true
}

/// How many stations ask: more than lines are given together, and no multiple of that.
const STATIONS: u16 = 2500;

/// The answers to one source that asks for one station after the other leave in that order, through a queue of this
/// capacity, and none is left behind.
fn are_answered_in_order<R: Threads + Wait + Sync>(
    rt: &R,
    alloc: Global,
    queue: u16,
) -> Result<bool, Fail> {
    let mut lines = LineLog::new(alloc);
    for number in 0..STATIONS {
        lines.push(LentLine::Air(&request_of(number)))?;
    }
    let sources = vec![in alloc; lines]?;
    let logs = play_with_frames(
        rt,
        alloc,
        radio(alloc, queue, 1, 10000)?,
        sources.as_slice(),
    )?;
    let [log] = logs.as_slice() else {
        return Err(Fail::new("not one network"));
    };
    Ok(count_of(&log.air) == usize::from(STATIONS) && go_in_order(&log.air))
}

#[test]
fn lines_that_are_given_together_keep_their_order(rt: HostRuntime) -> Result<(), Fail> {
    for queue in [1, 3, 64, 4096] {
        assert!(rt;
            are_answered_in_order(&rt, rt.alloc(), queue)?,
            "a queue of {queue}"
        );
    }
    Ok(())
}

/// Of two networks whose frames go through a queue of one no frame is left behind, and of the one that is full, those of
/// the events that it took are there.
#[test]
fn no_frame_is_left_behind(rt: HostRuntime) -> Result<(), Fail> {
    let logs = requested(&rt, rt.alloc())?;
    let [first, second] = logs.as_slice() else {
        return Err(Fail::new("not two networks"));
    };
    assert_eq!(rt; first.network.events(), u64::from(LINES));
    assert_eq!(rt; count_of(&first.air), LINES as usize);
    assert_eq!(rt; second.network.events(), 100);
    assert_eq!(rt; count_of(&second.air), 100);
    Ok(())
}
