//! The longest frames by which a network announces itself, written with ample memory.

ghost use Rattle.std.specs.Prelude.{◌≡◌, ◌≤◌, ◌<◌, length};

use crate::addresses::{NETWORK, STATION};
use beacon::{Advert, write_beacon, write_probe_response};
use mac_frame::{MacAddr, Octets};
use std::test::Fail;
use tim::Bitmap;

/// Of the longest probe response, of 93 octets: where parts of it begin, and their octets.
const PROBE_RESPONSE: [(usize, &[u8]); 3] = [
    (22, &[0xf0, 0xff]), // Sequence Control
    (80, &[3, 1, 14]), // DSSS Parameter Set
    (83, &[50, 8]), // Extended Supported Rates
];

/// The same of the longest beacon, of 349 octets.
const BEACON: [(usize, &[u8]); 5] = [
    (22, &[0xf0, 0xff]), // Sequence Control
    (80, &[3, 1, 14]), // DSSS Parameter Set
    (83, &[5, 254, 1, 255, 0, 2]), // TIM
    (338, &[0x80]), // the last octet of its bitmap
    (339, &[50, 8]), // Extended Supported Rates
];

/// An announcement in which each field has its greatest value.
fn longest() -> Advert<'static>
    ensures ssid { length result.ssid.now ≤ 32 }
    ensures rates { (1 ≤ length result.rates.now) × (length result.rates.now ≤ 16) }
    ensures seq { result.seq < 4096 }
    ensures clock { 1 ≤ result.clock }
{
    Advert {
        bss: MacAddr::new(NETWORK),
        ssid: &[b'x'; 32],
        rates: &[0x82; 16],
        channel: 14,
        interval: u16::MAX,
        clock: u32::MAX,
        seq: 4095,
    }
}

/// Whether a frame has this length, and these parts at their places.
fn has_parts(frame: &[u8], len: usize, parts: &[(usize, &[u8])]) -> bool {
    for (place, part) in parts {
        if *place > frame.len() || !frame[*place..].starts_with(part) {
            return false;
        }
    }
    frame.len() == len
}

#[test]
fn the_longest_probe_response_has_93_octets(rt: HostRuntime) -> Result<(), Fail> {
    let mut out = Octets::new(rt.alloc());
    write_probe_response(&mut out, &longest(), MacAddr::new(STATION))?;
    assert!(rt; has_parts(out.as_slice(), 93, &PROBE_RESPONSE));
    Ok(())
}

/// Association identifiers of both ends: the partial virtual bitmap is as long as can be.
fn bits() -> Bitmap {
    let mut bits = Bitmap::new();
    bits.set(1);
    bits.set(2007);
    bits
}

#[test]
fn the_longest_beacon_has_349_octets(rt: HostRuntime) -> Result<(), Fail> {
    let mut out = Octets::new(rt.alloc());
    write_beacon(&mut out, &longest(), 255, true, &bits())?;
    assert!(rt; has_parts(out.as_slice(), 349, &BEACON));
    Ok(())
}
