//! A network where units age.

use ap_config::{NetConfig, Setting};
use events::Event;
use fixtures::{lab, octets};
use mac_frame::Octets;
use network::{Network, Sent};
use std::alloc::Global;
use std::test::Fail;

/// A station deauthenticates itself (IEEE Std 802.11-2016, 9.3.3.13).
const DEAUTHENTICATION: &str = "c0000000 020000000001 02aa00000001 020000000001 0000 0300";

/// An Ethernet frame for a station.
const UNIT: &str = "02aa00000001 02bb00000001 0800 02";

/// The network `lab`, but that units age.
fn opened(alloc: Global) -> Result<Network, Fail> {
    let network = NetConfig {
        aging: true,
        ..lab::config(alloc, 100)?
    };
    let setting = Setting {
        channel: 6,
        interval: 100,
        network,
    };
    Ok(Network::new(alloc, setting))
}

/// The octets that a text spells, but for these at their places.
fn spelt(alloc: Global, text: &str, others: &[(usize, u8)]) -> Result<Octets, Fail> {
    let mut spelt = Vec::from_slice(alloc, octets(alloc, text)?.as_slice())?;
    for (place, octet) in others {
        if let Some(it) = spelt.get_mut(*place) {
            *it = *octet;
        }
    }
    Ok(Octets::from_vec(spelt))
}

/// What a network, which took few events, sends for one.
fn take(network: &mut Network, event: &Event) -> Result<Sent, Fail> {
    if network.events() > 1000 {
        return Err(Fail::new("too many events"));
    }
    Ok(network.take(event)?)
}

/// Whether a network answers on the air if it hears octets of a station.
fn hear(
    alloc: Global,
    network: &mut Network,
    text: &str,
    others: &[(usize, u8)],
) -> Result<bool, Fail> {
    let frame = spelt(alloc, text, others)?;
    let sent = take(network, &Event::Air(frame))?;
    Ok(sent.air.parts().0.is_some())
}

/// A unit comes for a station.
fn give(alloc: Global, network: &mut Network, station: u8) -> Result<(), Fail> {
    let frame = spelt(alloc, UNIT, &[(5, station)])?;
    take(network, &Event::Wire(frame))?;
    Ok(())
}

/// A station polls: whether a unit is sent.
fn poll(alloc: Global, network: &mut Network, station: u8) -> Result<bool, Fail> {
    hear(alloc, network, lab::PS_POLL, &[(2, station), (15, station)])
}

/// The stations 1 to 8 join and doze, the first with a listen interval of two beacon intervals, the others with the
/// longest, 65,535.
fn join_all(alloc: Global, network: &mut Network) -> Result<(), Fail> {
    for station in 1..=8u8 {
        let listen = if station == 1 { [2, 0] } else { [0xff, 0xff] };
        let joining = [(15, station), (26, listen[0]), (27, listen[1])];
        hear(
            alloc,
            network,
            lab::AUTHENTICATION_REQUEST,
            &[(15, station)],
        )?;
        hear(alloc, network, lab::ASSOCIATION_REQUEST, &joining)?;
        hear(alloc, network, lab::DOZE, &[(15, station)])?;
    }
    Ok(())
}

/// A unit comes for each of the stations 1 to 8, which polls it: how many are sent.
fn poll_all(alloc: Global, network: &mut Network) -> Result<u32, Fail> {
    let mut sent = 0u32;
    for station in 1..=8u8 {
        give(alloc, network, station)?;
        sent = sent.saturating_add(u32::from(poll(alloc, network, station)?));
    }
    Ok(sent)
}

/// The last octet of a beacon, which shows the stations 1 to 7 that units are kept for (9.4.2.6), and how many units
/// are kept and were lost then.
type Told = (Option<u8>, u32, u64);

/// A beacon interval begins: what its beacon tells.
fn tick(network: &mut Network) -> Result<Told, Fail> {
    let sent = take(network, &Event::Tick)?;
    let shown = match sent.air.parts().0 {
        Some(beacon) => beacon.as_slice().last().copied(),
        None => None,
    };
    Ok((shown, network.kept_len(), network.lost()))
}

/// As many beacons as are asked for: what each tells.
fn ticks(alloc: Global, network: &mut Network, count: u8) -> Result<Vec<Told>, Fail> {
    let mut told = Vec::new(alloc);
    for _ in 0..count {
        told.push(tick(network)?)?;
    }
    Ok(told)
}

/// How many units are sent in three rounds after a beacon, in each of which a unit comes for each station, which polls.
fn three_rounds(alloc: Global, network: &mut Network) -> Result<u32, Fail> {
    tick(network)?;
    let mut sent = 0u32;
    for _ in 0..3u8 {
        sent = sent.saturating_add(poll_all(alloc, network)?);
    }
    Ok(sent)
}

/// How many units are sent in nine such rounds, once all joined after twenty beacons.
fn nine_rounds(alloc: Global, network: &mut Network) -> Result<u32, Fail> {
    ticks(alloc, network, 20)?;
    join_all(alloc, network)?;
    let mut sent = 0u32;
    for _ in 0..3u8 {
        sent = sent.saturating_add(three_rounds(alloc, network)?);
    }
    Ok(sent)
}

/// A unit comes for station 1 and one for station 2, and the others leave.
fn leave_two(alloc: Global, network: &mut Network) -> Result<(), Fail> {
    give(alloc, network, 1)?;
    give(alloc, network, 2)?;
    for station in 3..=8u8 {
        hear(alloc, network, DEAUTHENTICATION, &[(15, station)])?;
    }
    Ok(())
}

/// How many units are sent in the rounds, what five beacons tell once two stations are left, and whether a unit is sent
/// to each of these two then.
type Answers = (u32, Vec<Told>, [bool; 2]);

fn answers(alloc: Global) -> Result<Answers, Fail> {
    let mut network = opened(alloc)?;
    let sent = nine_rounds(alloc, &mut network)?;
    leave_two(alloc, &mut network)?;
    let told = ticks(alloc, &mut network, 5)?;
    let first = poll(alloc, &mut network, 1)?;
    Ok((sent, told, [first, poll(alloc, &mut network, 2)?]))
}

/// A unit is kept as long as the listen interval of its station says, also if most of those that units were kept
/// for before polled them and left.
#[test]
fn units_age_where_most_stations_polled_and_left(rt: HostRuntime) -> Result<(), Fail> {
    let (sent, told, polled) = answers(rt.alloc())?;
    let expected = [
        (Some(6), 2, 0),
        (Some(6), 2, 0),
        (Some(6), 2, 0),
        (Some(4), 1, 1),
        (Some(4), 1, 1),
    ];
    assert_eq!(rt; told.as_slice(), expected.as_slice());
    assert_eq!(rt; (sent, polled), (72, [false, true]));
    Ok(())
}
