//! A network alone.

use super::{are_frames, heard};
use ap_config::Setting;
use events::{Counts, Event, Section};
use fixtures::{PROBE_REQUEST, lab};
use mac_frame::{List, MacAddr, Octets};
use network::{Bss, Network, Refusal, Sent};
use std::alloc::Global;
use std::collections::VecDeque;
use std::test::Fail;

/// What a network answers if it takes these octets from the air.
fn take(
    alloc: Global,
    bss: &mut Bss,
    heard_octets: &[&str],
) -> Result<Vec<Result<u32, Refusal>>, Fail> {
    let mut answers = Vec::new(alloc);
    for text in heard_octets {
        answers.push(bss.take(heard(alloc, *text)?))?;
    }
    Ok(answers)
}

/// How many frames wait, events were taken, stations are known and frames are on the wire.
fn lengths(bss: &Bss) -> [usize; 4] {
    [
        bss.waiting_len(),
        bss.history().len(),
        bss.table_len(),
        bss.wired().len(),
    ]
}

/// Takes out the first frame that waits and gives it back. Answers whether there was a slot for it before that, then,
/// and in the end.
fn give_first_back(bss: &mut Bss) -> Option<[bool; 3]> {
    let before = bss.has_slot();
    let first = bss.take_front()?;
    let taken = bss.has_slot();
    bss.give_back(first);
    Some([before, taken, bss.has_slot()])
}

/// The first three frames that wait, or all of them if there are fewer.
fn take_out(alloc: Global, bss: &mut Bss) -> Result<List<Octets>, Fail> {
    let mut frames = Vec::new(alloc);
    for _ in 0..3 {
        if let Some(frame) = bss.take_front() {
            frames.push(frame)?;
        }
    }
    Ok(List::from_vec(frames))
}

/// What is counted of three events, of which the network couldn't read one.
const COUNTS: Counts = Counts {
    events: 3,
    clock: 0,
    unread: 1,
    lost: 0,
    kept: 0,
};

/// What is heard: probe requests, and among them a string of no octets.
const HEARD: [&str; 4] = [PROBE_REQUEST, PROBE_REQUEST, "", PROBE_REQUEST];

/// The network `lab`, which takes three events.
fn opened(alloc: Global) -> Result<Bss, Fail> {
    Ok(Bss::new(alloc, 6, 100, lab::config(alloc, 3)?)?)
}

/// What it answers, and what it has then.
type Filled = (Vec<Result<u32, Refusal>>, Counts, [usize; 4]);

fn fill(alloc: Global) -> Result<Filled, Fail> {
    let mut bss = opened(alloc)?;
    let answers = take(alloc, &mut bss, &HEARD)?;
    Ok((answers, bss.counts(), lengths(&bss)))
}

#[test]
fn a_full_history_takes_no_event(rt: HostRuntime) -> Result<(), Fail> {
    let (answers, counts, lengths) = fill(rt.alloc())?;
    let expected = [Ok(0), Ok(1), Ok(2), Err(Refusal::HistoryFull)];
    assert_eq!(rt; answers.as_slice(), expected.as_slice());
    assert_eq!(rt; (counts, lengths), (COUNTS, [2, 3, 0, 0]));
    Ok(())
}

/// The slots for its first frame, and its section with the frames that wait once that was given back.
fn give_back(alloc: Global) -> Result<(Option<[bool; 3]>, Section), Fail> {
    let mut bss = opened(alloc)?;
    let _ = take(alloc, &mut bss, &HEARD)?;
    let slots = give_first_back(&mut bss);
    let air = take_out(alloc, &mut bss)?;
    Ok((slots, bss.into_section(air)?))
}

/// Whether a section is that of `lab`, by its address and its name, and how many events, stations and frames on the
/// wire it has.
fn shape(section: &Section) -> (bool, [usize; 3]) {
    (
        section.config.bssid == MacAddr::new(lab::BSSID)
            && section.config.ssid.as_slice() == b"lab".as_slice(),
        [
            section.events.as_slice().len(),
            section.table.as_slice().len(),
            section.wire.as_slice().len(),
        ],
    )
}

#[test]
fn a_frame_is_given_back(rt: HostRuntime) -> Result<(), Fail> {
    let (slots, section) = give_back(rt.alloc())?;
    let sent = [lab::PROBE_RESPONSE, lab::SECOND_PROBE_RESPONSE];
    assert!(rt; are_frames(rt.alloc(), section.air.as_slice(), &sent)?);
    assert_eq!(rt;
        (slots, shape(&section), section.counts),
        (Some([false, true, false]), (true, [3, 0, 0]), COUNTS)
    );
    Ok(())
}

/// The frames that a network, which took few events, sends on the air for a beacon interval that begins once these
/// octets were heard.
fn sent(alloc: Global, network: &mut Network, heard_octets: &[&str]) -> Result<Vec<Octets>, Fail> {
    let mut events = Vec::new(alloc);
    for text in heard_octets {
        events.push(heard(alloc, *text)?)?;
    }
    events.push(Event::Tick)?;
    let mut frames = VecDeque::new(alloc);
    for event in events.iter() {
        if network.events() > 100 {
            return Err(Fail::new("too many events"));
        }
        let Sent { air, wire: _ } = network.take(event)?;
        air.reserve_in(&mut frames)?;
        air.append_to(&mut frames);
    }
    Ok(Vec::from(frames))
}

/// How many events it took, beacon intervals began, events were unread, units were lost and units are kept.
fn counts(network: &Network) -> [u64; 5] {
    [
        network.events(),
        u64::from(network.clock()),
        network.unread(),
        network.lost(),
        u64::from(network.kept_len()),
    ]
}

/// Its beacon of the first beacon interval, with sequence number 2.
const BEACON: &str = "80000000 ffffffffffff 020000000001 020000000001 2000 \
    0090010000000000 6400 0100 00036c6162 010482840b16 030106 050400010000";

/// The frames that `lab` sends for three strings of octets and a beacon interval, its counts, how many stations it
/// knows, and its channel.
type Shown = (Vec<Octets>, [u64; 5], usize, u8);

fn shown(alloc: Global) -> Result<Shown, Fail> {
    let setting = Setting {
        channel: 6,
        interval: 100,
        network: lab::config(alloc, 100)?,
    };
    let mut network = Network::new(alloc, setting);
    let heard = [PROBE_REQUEST, lab::AUTHENTICATION_REQUEST, "00"];
    let frames = sent(alloc, &mut network, &heard)?;
    let channel = network.setting().channel;
    Ok((frames, counts(&network), network.table_len(), channel))
}

#[test]
fn a_network_without_its_history_counts(rt: HostRuntime) -> Result<(), Fail> {
    let (frames, counts, stations, channel) = shown(rt.alloc())?;
    let expected = [
        lab::PROBE_RESPONSE,
        lab::SECOND_AUTHENTICATION_RESPONSE,
        BEACON,
    ];
    assert!(rt; are_frames(rt.alloc(), frames.as_slice(), &expected)?);
    assert_eq!(rt; (counts, stations, channel), ([4, 1, 1, 0, 0], 1, 6));
    Ok(())
}
