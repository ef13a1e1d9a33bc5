//! Networks that take one line after another.

use events::{LentLine, Section};
use fixtures::lab_and_guest;
use replay::Replay;
use std::alloc::Global;
use std::test::Fail;
use trace::read_trace;

/// Two beacon intervals begin. Between them come an acknowledgement to the first network, which reads no such frame,
/// and a frame for all on the wire of the second.
const LINES: &[u8] = b"T\nA d4000000 020000000001\n\
    W 02:00:00:00:00:02 ffffffffffff 02bb00000001 0800 01\nT\n";

/// The sections of `lab`, whose history is full after two events, and `guest`. The last line is for no network.
fn sections(alloc: Global) -> Result<Vec<Section>, Fail> {
    let config = lab_and_guest(alloc, 2, 64)?;
    let lines = read_trace(alloc, &config, LINES).map_err(|_| "a fault of the lines")?;
    let mut replay = Replay::new(alloc, config)?;
    for line in lines {
        replay.take(line.lend())?;
    }
    replay.take(LentLine::Wire {
        place: 2,
        octets: &[],
    })?;
    Ok(replay.into_sections()?)
}

#[test]
fn each_network_takes_its_own_lines_until_its_history_is_full(rt: HostRuntime) -> Result<(), Fail> {
    let mut counts = Vec::new(rt.alloc());
    let sections = sections(rt.alloc())?;
    for section in sections.iter() {
        let (events, air) = (section.events.as_slice(), section.air.as_slice());
        counts.push((events.len(), air.len(), section.wire.as_slice().len()))?;
    }
    assert_eq!(rt; counts.as_slice(), [(2, 1, 0), (3, 3, 0)].as_slice());
    Ok(())
}
