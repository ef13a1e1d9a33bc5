//! Digits of each length up to more than two blocks of 16 octets, beside what `hex` makes of the same.

use std::alloc::Global;
use std::process::Abort;
use text_io::digits;

/// 40 octets, and their digits in both cases.
const OCTETS: &[u8] =
    b"\x1f\x54\x89\xbe\xf3\x28\x5d\x92\xc7\xfc\x31\x66\x9b\xd0\x05\x3a\x6f\xa4\xd9\x0e\
    \x43\x78\xad\xe2\x17\x4c\x81\xb6\xeb\x20\x55\x8a\xbf\xf4\x29\x5e\x93\xc8\xfd\x32";

const DIGITS: &[u8] = b"1F5489BEf3285d92c7FC31669BD0053a6fa4D90E\
    4378aDe2174C81b6eb20558AbfF4295e93c8Fd32";

/// Characters beside the digits, and octets beyond them.
const OTHERS: &[u8] = b"/:@G`g \x00\x7f\x80\xb0\xff";

/// What is read of a text of an even number of characters must be what `hex` reads, or refused if `hex` has a fault.
fn reads_as_hex(rt: &impl Abort, alloc: Global, text: &[u8]) {
    let mut memory = [0; 64];
    let len = text.len() / 2;
    assert!(rt; len <= memory.len() && 2 * len == text.len());
    let read = digits::decode_to_slice(text, &mut memory[..len]);
    match hex::decode(alloc, text) {
        Ok(wanted) => {
            assert!(rt; read);
            assert_eq!(rt; &memory[..len], wanted.as_slice());
        }
        Err(_) => assert!(rt; !read),
    }
}

#[test]
fn octets_of_digits_are_read(rt: HostRuntime) {
    let mut octets = [0; 40];
    assert!(rt; digits::decode_to_slice(DIGITS, &mut octets));
    assert_eq!(rt; octets.as_slice(), OCTETS);
    assert!(rt; !digits::decode_to_slice(b"1f5489be f31", &mut octets[..6]));
}

#[test]
fn digits_of_each_length_are_read(rt: HostRuntime) {
    for octets in 0..=OCTETS.len() {
        reads_as_hex(&rt, rt.alloc(), &DIGITS[..2 * octets]);
    }
}

/// A text with one other character, at each place.
#[test]
fn another_character_is_refused_at_each_place(rt: HostRuntime) {
    let mut text = [0; 80];
    for place in 0..text.len() {
        for other in OTHERS {
            text.copy_from_slice(DIGITS);
            text[place] = *other;
            for octets in place / 2..=text.len() / 2 {
                reads_as_hex(&rt, rt.alloc(), &text[..2 * octets]);
            }
        }
    }
}

/// A text of each character, at both places of a pair.
#[test]
fn each_character_is_read(rt: HostRuntime) {
    let mut text = [b'0'; 32];
    for character in 0..=255 {
        for place in [0, 13, 31] {
            text[place] = character;
            reads_as_hex(&rt, rt.alloc(), &text);
            text[place] = b'0';
        }
    }
}

#[test]
fn octets_of_each_length_are_written(rt: HostRuntime) {
    let mut text = [b'-'; 80];
    let mut wanted = [b'-'; 80];
    for len in 0..=OCTETS.len() {
        let octets = &OCTETS[..len];
        digits::encode_to_slice(octets, &mut text[..2 * len]);
        assert!(rt; hex::encode_to_slice(octets, &mut wanted[..2 * len]).is_ok());
        assert_eq!(rt; text.as_slice(), wanted.as_slice());
    }
}
