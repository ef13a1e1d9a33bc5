//! Frames on the wire at the edges of what is read, and as they come back from the air.

use encapsulation::{Ether, Kind, to_air, to_wire};
use mac_frame::{NoMemory, Octets, Unread};
use std::alloc::Global;
use std::test::Fail;

/// The octets from the destination to the source of a frame from the host to the station.
const ADDRESSES: [u8; 12] = [0x02, 0xaa, 0, 0, 0, 1, 0x02, 0xbb, 0, 0, 0, 1];

/// Length/Type fields, how many octets stand behind them, and why such a frame is not read.
const REFUSED: [([u8; 2], usize, Unread); 4] = [
    ([0x06, 0x00], 2297, Unread::TooLong),
    ([0x05, 0xdd], 1501, Unread::Body),
    ([0x05, 0xdc], 1499, Unread::Body),
    ([0x00, 0x02], 2, Unread::Body),
];

/// Length/Type fields, how many octets stand behind them, what the field says, how many octets such a frame has on the
/// air, and how many are back on the wire, without its padding.
const READ: [([u8; 2], usize, Kind, usize, usize); 2] = [
    ([0x06, 0x00], 2296, Kind::Typed(0x0600), 2304, 2310),
    ([0x05, 0xdc], 1502, Kind::Sized, 1500, 1514),
];

/// A frame from the host to the station with this Length/Type field and `len` octets of 7 after it.
fn frame(alloc: Global, field: [u8; 2], len: usize) -> Result<Octets, NoMemory> {
    let mut octets = Octets::from_slice(alloc, &ADDRESSES)?;
    octets.append(&field)?;
    for _ in 0..len {
        octets.append(&[7])?;
    }
    Ok(octets)
}

#[test]
fn a_frame_comes_back_without_its_padding(rt: HostRuntime) -> Result<(), Fail> {
    for (field, len, kind, on_air, on_wire) in READ {
        let octets = frame(rt.alloc(), field, len)?;
        let Ok(ether) = Ether::decode(octets.as_slice()) else {
            panic!(rt; "no frame");
        };
        assert_eq!(rt; ether.kind, kind);
        let mut body = Octets::new(rt.alloc());
        to_air(&mut body, &ether)?;
        assert_eq!(rt; body.as_slice().len(), on_air);
        let mut back = Octets::new(rt.alloc());
        assert!(rt; to_wire(&mut back, ether.to, ether.source, body.as_slice())?);
        assert_eq!(rt; Some(back.as_slice()), octets.as_slice().get(..on_wire));
    }
    Ok(())
}

/// Why a frame is not read, if it isn't.
fn fault_of(frame: &[u8]) -> Option<Unread> {
    match Ether::decode(frame) {
        Ok(_) => None,
        Err(fault) => Some(fault),
    }
}

#[test]
fn frames_past_the_edges_are_refused(rt: HostRuntime) -> Result<(), Fail> {
    for (field, len, fault) in REFUSED {
        let octets = frame(rt.alloc(), field, len)?;
        assert!(rt; fault_of(octets.as_slice()) == Some(fault), "{len}");
    }
    assert!(rt; fault_of(&[0; 13]) == Some(Unread::Short));
    Ok(())
}
