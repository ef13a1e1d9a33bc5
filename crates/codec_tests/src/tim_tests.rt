//! TIMs that were written by hand, or bit by bit, with ample memory.

use mac_frame::{MAX_AID, NoMemory, Octets};
use std::alloc::Global;
use std::process::Abort;
use std::test::Fail;
use tim::{Bitmap, numbers_are_aids, read_tim, write_tim};

/// Association identifiers, and the TIM that shows them at DTIM Count 0 and DTIM Period 1.
const SHORT_TIMS: [(&[u16], &[u8]); 7] = [
    (&[], &[5, 4, 0, 1, 0, 0]),
    (&[8], &[5, 5, 0, 1, 0, 0, 1]),
    (&[16], &[5, 4, 0, 1, 2, 1]),
    (&[63, 64, 65], &[5, 6, 0, 1, 6, 0, 0x80, 3]),
    (&[1999], &[5, 5, 0, 1, 0xf8, 0, 0x80]),
    (
        &[2000, 2001, 2002, 2003, 2004, 2005, 2006, 2007],
        &[5, 4, 0, 1, 0xfa, 0xff],
    ),
    (&[2007], &[5, 4, 0, 1, 0xfa, 0x80]),
];

/// What is no TIM, or one in another spelling.
const REFUSED: [&[u8]; 13] = [
    // a last octet that is 0
    &[5, 5, 0, 1, 0, 0, 0],
    // an octet past number 2007
    &[5, 5, 0, 1, 0xfa, 0x80, 1],
    // two first octets that are 0
    &[5, 6, 0, 1, 0, 0, 0, 1],
    // no number, and another offset
    &[5, 4, 0, 1, 2, 0],
    // number 0
    &[5, 4, 0, 1, 0, 1],
    // a DTIM Period of 0, and a DTIM Count that isn't below the period
    &[5, 4, 0, 0, 0, 0],
    &[5, 4, 1, 1, 0, 0],
    // the group at another count than 0
    &[5, 4, 1, 2, 1, 0],
    // a Length that doesn't fit, on either side
    &[5, 5, 0, 1, 0, 0],
    &[5, 4, 0, 1, 0, 0, 0],
    // no octet of the virtual bitmap
    &[5, 3, 0, 1, 0],
    // another element
    &[6, 4, 0, 1, 0, 0],
    &[],
];

/// The set of these association identifiers.
fn set_of(rt: &impl Abort, aids: &[u16]) -> Bitmap {
    let mut bits = Bitmap::new();
    for aid in aids {
        assert!(rt; 1 <= *aid && *aid <= MAX_AID);
        bits.set(*aid);
    }
    bits
}

/// Writes the set as `tim`, after what was there, and reads it back: it must show these numbers and no other.
fn shows(rt: &impl Abort, alloc: Global, aids: &[u16], tim: &[u8]) -> Result<(), NoMemory> {
    let mut out = Octets::from_slice(alloc, &[0xff])?;
    write_tim(&mut out, 0, 1, false, &set_of(rt, aids))?;
    let [0xff, written @ ..] = out.as_slice() else {
        panic!(rt; "another octet first");
    };
    assert_eq!(rt; written, tim, "{aids:?}");
    let Some(read) = read_tim(tim) else {
        panic!(rt; "no TIM");
    };
    assert!(rt; read.count == 0 && read.period == 1 && !read.group);
    for aid in 1..=MAX_AID {
        assert_eq!(rt; read.bits.has(aid), aids.contains(&aid), "{aid}");
    }
    Ok(())
}

#[test]
fn sets_are_shown_in_one_spelling(rt: HostRuntime) -> Result<(), Fail> {
    for (aids, tim) in &SHORT_TIMS {
        shows(&rt, rt.alloc(), aids, tim)?;
    }
    let mut longest = [0; 256];
    longest[..6].copy_from_slice(&[5, 0xfe, 0, 1, 0, 2]);
    longest[255] = 0x80;
    shows(&rt, rt.alloc(), &[1, 2007], &longest)?;
    Ok(())
}

/// The TIM of two numbers at DTIM Count 0 and DTIM Period 1. The first is not the greater. It goes from the octet of
/// the first, or from the one before it if that stands at an odd place, to the octet of the other.
fn plain_tim(
    rt: &impl Abort,
    alloc: Global,
    least: u16,
    greatest: u16,
) -> Result<Octets, NoMemory> {
    assert!(rt; least <= greatest && greatest <= MAX_AID);
    let offset = least / 16;
    let len = greatest / 8 - 2 * offset + 4;
    let mut tim = Octets::from_slice(alloc, &[5, len as u8, 0, 1, 2 * offset as u8])?;
    for place in 2 * offset..=greatest / 8 {
        let mut octet = 0;
        for aid in [least, greatest] {
            if aid / 8 == place {
                octet |= 1 << (aid % 8);
            }
        }
        tim.append(&[octet])?;
    }
    Ok(tim)
}

/// Numbers at the edges of octets.
const EDGES: [u16; 13] = [1, 7, 8, 15, 16, 63, 64, 65, 1984, 1999, 2000, 2006, 2007];

#[test]
fn pairs_at_the_edges_of_octets_are_shown_bit_by_bit(rt: HostRuntime) -> Result<(), Fail> {
    for one in EDGES {
        for other in EDGES {
            let tim = plain_tim(&rt, rt.alloc(), one.min(other), one.max(other))?;
            shows(&rt, rt.alloc(), &[one, other], tim.as_slice())?;
        }
    }
    Ok(())
}

/// The group at count 0 of 3.
#[test]
fn count_period_and_group_are_read(rt: HostRuntime) {
    let Some(read) = read_tim(&[5, 4, 0, 3, 1, 0]) else {
        panic!(rt; "no TIM");
    };
    assert!(rt; read.count == 0 && read.period == 3 && read.group);
}

#[test]
fn other_spellings_are_refused(rt: HostRuntime) {
    for octets in REFUSED {
        assert!(rt; read_tim(octets).is_none());
    }
}

#[test]
fn numbers_come_and_go(rt: HostRuntime) {
    let mut bits = Bitmap::new();
    assert!(rt; !bits.has(7));
    bits.set(7);
    bits.set(MAX_AID);
    assert!(rt; bits.has(7) && bits.has(MAX_AID) && !bits.has(8));
    bits.clear(7);
    assert!(rt; !bits.has(7) && bits.has(MAX_AID));
    bits.set(1999);
    bits.set(2000);
    bits.clear(MAX_AID);
    assert!(rt; bits.has(1999) && bits.has(2000) && !bits.has(MAX_AID));
    numbers_are_aids(&bits);
}
