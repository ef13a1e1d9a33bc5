//! What the prover can't say of an access point, on octets from outside. One function opens an access point, others use
//! it by reference: one that does all takes long to prove.

ghost use Rattle.std.specs.Prelude.{◌<◌, OnOk, length};

use ap_config::{NetConfig, RadioConfig};
use events::{AirItem, Section};
use mac_frame::{List, MacAddr, NoMemory, Octets};
use std::alloc::Global;
use std::test::Fail;
use workers::{Ap, ApName};

mod library;
mod moves;
mod opening;
mod overlap;
mod playing;
mod receipts;
mod running;

/// Another station than that of `fixtures::lab` authenticates and associates itself with the first network.
const OTHER_AUTHENTICATION: &str =
    "b0000000 020000000001 02aa00000002 020000000001 0000 0000 0100 0000";

const OTHER_ASSOCIATION: &str = "00000000 020000000001 02aa00000002 020000000001 0000 0100 0a00 \
    00036c6162 010402040b16";

/// Fails if an access point has no network, so that the first of them can be named.
fn has_first<N: ApName>(ap: &Ap<N>) -> Result<(), Fail>
    ensures { OnOk result (0 < length N.config.networks) }
{
    if ap.networks() == 0 {
        return Err(Fail::from("no network"));
    }
    Ok(())
}

/// The octets that a text of digits and spaces spells.
fn octets(alloc: Global, digits: &str) -> Result<Octets, Fail> {
    Ok(fixtures::octets(alloc, digits)?)
}

/// The configuration of the network with this last octet of its address, which takes this number of events.
fn network(alloc: Global, last: u8, max_events: u32) -> Result<NetConfig, NoMemory> {
    Ok(NetConfig {
        bssid: MacAddr::new([2, 0, 0, 0, 0, last]),
        ssid: Octets::from_slice(alloc, b"lab")?,
        rates: Octets::from_slice(alloc, &[0x82, 0x84, 0x0b, 0x16])?,
        dtim: 1,
        max_stations: 8,
        max_known: 16,
        quota: 8,
        max_events,
        relay: true,
        aging: false,
    })
}

/// The configuration of a radio whose queue holds this number of frames, with a network for each of these numbers of
/// events that they take.
fn radio(alloc: Global, queue: u16, max_events: &[u32]) -> Result<RadioConfig, NoMemory> {
    let mut networks = Vec::new(alloc);
    for (last, most) in (1..=u8::MAX).zip(max_events) {
        networks.push(network(alloc, last, *most)?)?;
    }
    Ok(RadioConfig {
        channel: 6,
        interval: 100,
        queue,
        networks: List::from_vec(networks),
    })
}

/// Whether the frames are these, each by the text that spells it.
fn are_frames(alloc: Global, frames: &[Octets], texts: &[&str]) -> Result<bool, Fail> {
    for (frame, text) in frames.iter().zip(texts) {
        if frame.as_slice() != octets(alloc, text)?.as_slice() {
            return Ok(false);
        }
    }
    Ok(frames.len() == texts.len())
}

/// Whether these frames left.
fn have_left(alloc: Global, left: &[AirItem], texts: &[&str]) -> Result<bool, Fail> {
    for (item, text) in left.iter().zip(texts) {
        if item.octets.as_slice() != octets(alloc, text)?.as_slice() {
            return Ok(false);
        }
    }
    Ok(left.len() == texts.len())
}

/// How many frames of the network at a place left.
fn count_of(left: &[AirItem], place: usize) -> usize {
    let mut count = 0usize;
    for item in left {
        count = count.saturating_add(usize::from(item.place == place));
    }
    count
}

/// Whether both frames lists are the same.
fn are_same(one: &[Octets], other: &[Octets]) -> bool {
    for (frame, same) in one.iter().zip(other) {
        if frame.as_slice() != same.as_slice() {
            return false;
        }
    }
    one.len() == other.len()
}

/// The section at a place.
fn section_at(sections: &List<Section>, place: usize) -> Result<&Section, Fail> {
    Ok(sections.as_slice().get(place).ok_or("no such section")?)
}
