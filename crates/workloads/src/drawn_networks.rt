//! The networks of a workload and their stations.

use crate::job::Job;
use crate::piece::Piece;
use mac_frame::NoMemory;
use std::alloc::Global;

/// A station.
#[derive(Drop)]
pub(crate) struct Station {
    pub(crate) address: Piece,
    /// The address of its network, and its own.
    pub(crate) pair: Piece,
    /// Its poll, with the association identifier that it has when all join in order.
    pub(crate) poll: Piece,
    /// Whether it said last that it dozes.
    pub(crate) dozes: bool,
}

/// A network.
#[derive(Drop)]
pub(crate) struct Network {
    pub(crate) bssid: Piece,
    /// Its address, as a line spells it.
    pub(crate) spelled: String,
    /// What an association request says to it after the addresses.
    pub(crate) asks: Piece,
    pub(crate) stations: Vec<Station>,
}

/// The networks of these places.
pub(crate) fn networks_of(
    alloc: Global,
    job: &Job,
    from: u8,
    count: u8,
) -> Result<Vec<Network>, NoMemory> {
    let mut networks = Vec::new(alloc);
    for place in from..from.saturating_add(count) {
        networks.push(network_at(alloc, job, place)?)?;
    }
    Ok(networks)
}

/// The network of a place.
fn network_at(alloc: Global, job: &Job, place: u8) -> Result<Network, NoMemory> {
    let mut stations = Vec::new(alloc);
    for number in 0..job.stations {
        stations.push(station_at(alloc, place, number)?)?;
    }
    let mut asks = Vec::from_slice(alloc, &[0x01, 0x00, 0x0a, 0x00, 0x00, 0x05])?;
    asks.extend_from_slice(&ssid_of(place))?;
    asks.extend_from_slice(b"\x01\x08\x82\x84\x8b\x96\x0c\x12\x18\x24\x32\x04\x30\x48\x60\x6c")?;
    Ok(Network {
        bssid: Piece::new(alloc, &[2, 0, 0, 0, 0, place])?,
        spelled: format!(in alloc; "02:00:00:00:00:{place:02x}")?,
        asks: Piece::new(alloc, asks.as_slice())?,
        stations,
    })
}

/// The name of the network of a place.
fn ssid_of(place: u8) -> [u8; 5] {
    [b'n', b'e', b't', b'a' + place / 16, b'a' + place % 16]
}

/// The station of a number in the network of a place.
fn station_at(alloc: Global, place: u8, number: u16) -> Result<Station, NoMemory> {
    let [high, low] = number.to_be_bytes();
    let [aid_low, aid_high] = number.wrapping_add(1).to_le_bytes();
    Ok(Station {
        address: Piece::new(alloc, &[2, 0xaa, place, 0, high, low])?,
        pair: Piece::new(alloc, &[2, 0, 0, 0, 0, place, 2, 0xaa, place, 0, high, low])?,
        poll: Piece::new(
            alloc,
            &[
                0xa4,
                0,
                aid_low,
                0xc0 | aid_high,
                2,
                0,
                0,
                0,
                0,
                place,
                2,
                0xaa,
                place,
                0,
                high,
                low,
            ],
        )?,
        dozes: false,
    })
}

/// The text of the configuration of the first networks.
pub(crate) fn config_of(alloc: Global, job: &Job) -> Result<String, NoMemory> {
    let mut text = String::from_str(
        alloc,
        "version = 2\nchannel = 6\ninterval = 100\nqueue = 4096\n",
    )?;
    for place in 0..job.networks {
        let (aging, dtim) = (job.ages && place % 2 == 1, place % 3 + 1);
        let [_, _, _, first, second] = ssid_of(place);
        let (first, second) = (char::from(first), char::from(second));
        let (stations, known, quota) = (job.max_stations, job.max_known, job.quota);
        let network = format!(in alloc;
            "[[network]]\nbssid = \"02:00:00:00:00:{place:02x}\"\nssid = \"net{first}{second}\"\n\
             rates = \"82848b960c121824\"\ndtim = {dtim}\nmax_stations = {stations}\nmax_known = {known}\n\
             quota = {quota}\nmax_events = 1000000\nrelay = true\naging = {aging}\n",
        )?;
        text.push_str(network.as_str())?;
    }
    Ok(text)
}
