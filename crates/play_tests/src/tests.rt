//! What the prover can't say of a play, on octets from outside.

mod queue;

use ap_config::{ConfigFault, RadioConfig};
use events::LentLine;
use fixtures::{guest, lab, lab_and_guest, octets};
use networks::{NetworkWithFrames, SentFrames};
use play::{LineLog, PlayFault, play_with_frames};
use std::alloc::Global;
use std::sync::Wait;
use std::test::Fail;
use std::thread;
use std::thread::Threads;

/// Another station than that of `fixtures::lab` authenticates itself with the first network.
const OTHER_AUTHENTICATION: &str =
    "b0000000 020000000001 02aa00000002 020000000001 0000 0000 0100 0000";

/// How many requests each source has: with the other lines more than it gives together, and no multiple of that.
const LINES: u32 = 1300;

/// A source of a request that comes this often.
fn repeated(alloc: Global, request: &str, count: u32) -> Result<LineLog, Fail> {
    let request = octets(alloc, request)?;
    let mut lines = LineLog::new(alloc);
    for _ in 0..count {
        lines.push(LentLine::Air(request.as_slice()))?;
    }
    Ok(lines)
}

/// A source of requests to authenticate a station, which each network answers by a frame, for the two networks by turns;
/// and of frames on the wire for networks that are not there, which do nothing.
fn requests(alloc: Global) -> Result<LineLog, Fail> {
    let both = [
        octets(alloc, lab::AUTHENTICATION_REQUEST)?,
        octets(alloc, guest::AUTHENTICATION_REQUEST)?,
    ];
    let mut lines = LineLog::new(alloc);
    for number in 0..LINES {
        let [first, second] = &both;
        let request = if number % 2 == 0 { first } else { second };
        lines.push(LentLine::Air(request.as_slice()))?;
        lines.push(LentLine::Wire {
            place: usize::MAX,
            octets: &[0; 13],
        })?;
    }
    Ok(lines)
}

/// The first frame.
fn first_of(frames: &SentFrames) -> &[u8] {
    let (lengths, octets) = frames.parts();
    match lengths.first() {
        Some(len) => octets.get(..*len).unwrap_or(&[]),
        None => &[],
    }
}

/// Whether a network answered each request of two sources to it, the first of them with this frame.
fn answered_all(alloc: Global, log: &NetworkWithFrames, first: &str) -> Result<bool, Fail> {
    let first = octets(alloc, first)?;
    Ok(
        log.network.events() == u64::from(LINES)
            && log.air.parts().0.len() == LINES as usize
            && first_of(&log.air) == first.as_slice(),
    )
}

/// The networks after two sources of requests.
fn requested<R: Threads + Wait + Sync>(
    rt: &R,
    alloc: Global,
) -> Result<Vec<NetworkWithFrames>, Fail> {
    let sources = vec![in alloc; requests(alloc)?, requests(alloc)?]?;
    let config = lab_and_guest(alloc, 2000, 1)?;
    Ok(play_with_frames(rt, alloc, config, sources.as_slice())?)
}

#[test]
fn each_line_of_two_sources_is_taken(rt: HostRuntime) -> Result<(), Fail> {
    let alloc = rt.alloc();
    let logs = requested(&rt, alloc)?;
    let [first, _] = logs.as_slice() else {
        return Err(Fail::new("not two networks"));
    };
    assert!(rt; answered_all(alloc, first, lab::AUTHENTICATION_RESPONSE)?);
    Ok(())
}

/// How many requests each of two sources has: ten times as many as it gives together.
const REQUESTS: u32 = 10240;

/// How often these sources are played until their events mix.
const TRIES: u32 = 100;

/// How many of a network's frames follow one that went to another station.
fn turns(frames: &SentFrames) -> usize {
    let (lengths, octets) = frames.parts();
    let mut rest = octets;
    let mut count = 0usize;
    let mut last = None;
    for len in lengths {
        let station = rest.get(4..10);
        count = count.saturating_add(usize::from(last.is_some() && last != station));
        last = station;
        rest = rest.get(*len..).unwrap_or(&[]);
    }
    count
}

/// Whether the events of two sources of requests, each of a station of its own, mix in one of several tries at most: after
/// some of one and then some of the other there is one of the first again.
fn mix<R: Threads + Wait + Sync>(rt: &R, alloc: Global) -> Result<bool, Fail> {
    let sources = vec![in alloc;
        repeated(alloc, lab::AUTHENTICATION_REQUEST, REQUESTS)?,
        repeated(alloc, OTHER_AUTHENTICATION, REQUESTS)?,
    ]?;
    for _ in 0..TRIES {
        let config = lab_and_guest(alloc, 2 * REQUESTS, 1)?;
        let logs = play_with_frames(rt, alloc, config, sources.as_slice())?;
        if logs
            .as_slice()
            .first()
            .is_some_and(|log| turns(&log.air) >= 2)
        {
            return Ok(true);
        }
    }
    Ok(false)
}

/// No source waits for the end of another: if there are two processors, one gives its lines while the other does.
#[test]
fn logged_sources_overlap(rt: HostRuntime) -> Result<(), Fail> {
    if thread::available_parallelism(&rt)?.get() >= 2 {
        assert!(rt; mix(&rt, rt.alloc())?);
    }
    Ok(())
}

/// On a channel, with this number of sources: the configuration's fault comes first.
fn rows() -> [(u8, u32, Option<PlayFault>); 5] {
    [
        (6, 0, Some(PlayFault::Sources)),
        (6, 65, Some(PlayFault::Sources)),
        (6, 1, None),
        (6, 64, None),
        (15, 0, Some(PlayFault::Config(ConfigFault::of_radio(4)))),
    ]
}

/// Why this number of sources of one tick are not played on a channel, if they are not.
fn fault<R: Threads + Wait + Sync>(
    rt: &R,
    alloc: Global,
    channel: u8,
    count: u32,
) -> Result<Option<PlayFault>, Fail> {
    let config = RadioConfig {
        channel,
        ..lab_and_guest(alloc, 100, 1)?
    };
    let mut sources = Vec::new(alloc);
    for _ in 0..count {
        let mut lines = LineLog::new(alloc);
        lines.push(LentLine::Tick)?;
        sources.push(lines)?;
    }
    Ok(play_with_frames(rt, alloc, config, sources.as_slice()).err())
}

#[test]
fn one_to_sixty_four_sources_are_logged(rt: HostRuntime) -> Result<(), Fail> {
    for (channel, count, expected) in rows() {
        assert_eq!(rt;
            fault(&rt, rt.alloc(), channel, count)?,
            expected,
            "{channel} {count}"
        );
    }
    Ok(())
}
