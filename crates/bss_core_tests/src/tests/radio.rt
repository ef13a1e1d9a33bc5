//! A radio of two networks, with a queue of one frame, the first of which takes two events.

use super::{are_items, heard};
use ap_config::{ConfigFault, OpenFault};
use bss_core::{Radio, run};
use events::{AirItem, Event, Handed};
use fixtures::{PROBE_REQUEST, guest, lab, lab_and_guest};
use mac_frame::List;
use network::{Bss, Refusal};
use std::alloc::Global;
use std::test::Fail;

/// What a radio answers if the network at a place takes these octets from the air, or a beacon interval begins.
fn take(
    alloc: Global,
    radio: &mut Radio,
    events: &[(usize, Option<&str>)],
) -> Result<Vec<Result<u32, Refusal>>, Fail> {
    let mut answers = Vec::new(alloc);
    for (place, octets) in events {
        let event = match octets {
            Some(text) => heard(alloc, *text)?,
            None => Event::Tick,
        };
        if *place < radio.networks() {
            answers.push(radio.take(*place, event))?;
        }
    }
    Ok(answers)
}

/// What became of the frames that a radio was to hand, each from the network at a place, and the frames that left where
/// there is no place.
fn hand(
    alloc: Global,
    radio: &mut Radio,
    turns: &[Option<usize>],
) -> Result<(Vec<Handed>, Vec<AirItem>), Fail> {
    let mut handed = Vec::new(alloc);
    let mut left = Vec::new(alloc);
    for turn in turns {
        match *turn {
            Some(place) if place < radio.networks() => handed.push(radio.hand(place))?,
            Some(_) => return Err(Fail::new("no network")),
            None => {
                if let Some(item) = radio.leave() {
                    left.push(item)?;
                }
            }
        }
    }
    Ok((handed, left))
}

/// What a radio answers, what became of the frames that it was to hand, and which frames left.
type Served = (Vec<Result<u32, Refusal>>, Vec<Handed>, Vec<AirItem>);

/// A beacon interval begins in each network, and both beacons leave.
fn serve(alloc: Global) -> Result<Served, Fail> {
    let mut radio = Radio::new(alloc, lab_and_guest(alloc, 2, 1)?)?;
    let taken = take(alloc, &mut radio, &[(0, None), (1, None)])?;
    let turns = [Some(0), Some(1), None, Some(1), Some(1), None, None];
    let (handed, left) = hand(alloc, &mut radio, &turns)?;
    Ok((taken, handed, left))
}

#[test]
fn a_queue_of_one_frame_serves_two_networks(rt: HostRuntime) -> Result<(), Fail> {
    let (taken, handed, left) = serve(rt.alloc())?;
    let expected = [
        Handed::Moved,
        Handed::QueueFull,
        Handed::Moved,
        Handed::Nothing,
    ];
    let beacons = [(0, lab::BEACON), (1, guest::BEACON)];
    assert!(rt; are_items(rt.alloc(), left.as_slice(), &beacons)?);
    assert_eq!(rt; taken.as_slice(), [Ok(0), Ok(0)].as_slice());
    assert_eq!(rt; handed.as_slice(), expected.as_slice());
    Ok(())
}

/// Of each network, how many events it took, how many of them it couldn't read, and how many frames wait.
fn lengths(alloc: Global, networks: &[Bss]) -> Result<Vec<(u32, u32, usize)>, Fail> {
    let mut all = Vec::new(alloc);
    for bss in networks {
        let counts = bss.counts();
        all.push((counts.events, counts.unread, bss.waiting_len()))?;
    }
    Ok(all)
}

/// The first network takes two probe requests, between them a string of no octets, and the second two, of which it
/// hands the answer to one. Answers what they answered, their lengths, and what is queued.
type Parted = (
    Vec<Result<u32, Refusal>>,
    Vec<(u32, u32, usize)>,
    List<AirItem>,
);

fn part(alloc: Global) -> Result<Parted, Fail> {
    let mut radio = Radio::new(alloc, lab_and_guest(alloc, 2, 1)?)?;
    let probe = Some(PROBE_REQUEST);
    let events = [
        (0, probe),
        (0, Some("")),
        (0, probe),
        (1, probe),
        (1, probe),
    ];
    let taken = take(alloc, &mut radio, &events)?;
    let _ = hand(alloc, &mut radio, &[Some(1)])?;
    let (networks, queued) = radio.into_parts();
    Ok((taken, lengths(alloc, networks.as_slice())?, queued))
}

#[test]
fn a_full_network_leaves_the_other_until_they_come_apart(rt: HostRuntime) -> Result<(), Fail> {
    let (taken, lengths, queued) = part(rt.alloc())?;
    let expected = [Ok(0), Ok(1), Err(Refusal::HistoryFull), Ok(0), Ok(1)];
    let answer = [(1, guest::PROBE_RESPONSE)];
    assert!(rt; are_items(rt.alloc(), queued.as_slice(), &answer)?);
    assert_eq!(rt; taken.as_slice(), expected.as_slice());
    assert_eq!(rt; lengths.as_slice(), [(2, 1, 1), (2, 0, 1)].as_slice());
    Ok(())
}

/// Why a radio with a queue of no frames is neither opened nor run.
fn faults(alloc: Global) -> Result<[Option<OpenFault>; 2], Fail> {
    Ok([
        Radio::new(alloc, lab_and_guest(alloc, 2, 0)?).err(),
        run(alloc, lab_and_guest(alloc, 2, 0)?, &[]).err(),
    ])
}

/// The fault of one that is on no channel besides.
fn first_fault(alloc: Global) -> Result<Option<ConfigFault>, Fail> {
    let mut config = lab_and_guest(alloc, 2, 0)?;
    config.channel = 15;
    Ok(config.check())
}

#[test]
fn the_first_fault_of_a_configuration_is_answered(rt: HostRuntime) -> Result<(), Fail> {
    let queue = Some(OpenFault::Config(ConfigFault::of_radio(6)));
    assert_eq!(rt; faults(rt.alloc())?, [queue, queue]);
    assert_eq!(rt; first_fault(rt.alloc())?, Some(ConfigFault::of_radio(4)));
    Ok(())
}
