//! Digits of octets, a block of them at a time.

ghost use Rattle.std.specs.Prelude.{◌≡◌, ℕ, ◌+◌, ◌*◌, ◌/◌, ◌%◌, ◌≤◌, ◌<◌, ◌++◌, length, slice_index};
ghost use Rattle.std.specs.Simd.Lanes.{Each1};
ghost use Rattle.hex.specs.Hex.{encode_lower, lower_digits};
ghost use Rattle.text_io.specs.Pairs.{SpellsAt};

use std::simd::prelude::*;

const LOWER_DIGITS: [u8; 16] = *b"0123456789abcdef";

/// Writes octets as pairs of digits.
pub(crate) fn encode_octets(octets: &[u8], text: &mut [u8])
    requires { length text.old ≡ 2 * length octets.now }
    ensures { text.new ≡ encode_lower octets.now }
{
    let len = octets.len();
    if len >= 16 {
        encode_blocks(octets, text);
    } else if len >= 8 {
        encode_eight(octets, text, 0);
        encode_eight(octets, text, len - 8);
    } else if len >= 4 {
        encode_four(octets, text, 0);
        encode_four(octets, text, len - 4);
    } else {
        hex::encode_to_slice(octets, text).unwrap();
    }
}

/// Writes 16 octets or more. The last block ends with them, so it may lie over the one before it.
fn encode_blocks(octets: &[u8], text: &mut [u8])
    requires fits { length text.old ≡ 2 * length octets.now }
    requires a_block { 16 ≤ length octets.now }
    ensures { text.new ≡ encode_lower octets.now }
{
    let last = octets.len() - 16;
    let mut at = 0;
    while at < last {
        encode_sixteen(octets, text, at);
        at += 16;
    }
    encode_sixteen(octets, text, last);
}

/// Writes the 16 octets from a place on.
#[inline(always)]
fn encode_sixteen(octets: &[u8], text: &mut [u8], at: usize)
    requires fits { length text.old ≡ 2 * length octets.now }
    requires within { at + 16 ≤ length octets.now }
    ensures spells { (k : ℕ) → at ≤ k → k < at + 16 → SpellsAt octets.now text.new k }
    ensures keeps { (k : ℕ) → k < 2 * at → slice_index text.new k ≡ slice_index text.old k }
{
    let (front, back) = pairs_of(u8x16::from_slice(&octets[at..]));
    front.copy_to_slice(&mut text[2 * at..]);
    back.copy_to_slice(&mut text[2 * at + 16..]);
}

/// Writes the eight octets from a place on.
#[inline(always)]
fn encode_eight(octets: &[u8], text: &mut [u8], at: usize)
    requires fits { length text.old ≡ 2 * length octets.now }
    requires within { at + 8 ≤ length octets.now }
    ensures spells { (k : ℕ) → at ≤ k → k < at + 8 → SpellsAt octets.now text.new k }
    ensures keeps { (k : ℕ) → k < 2 * at → slice_index text.new k ≡ slice_index text.old k }
{
    let few = u8x8::from_slice(&octets[at..]);
    let (front, _) = pairs_of(few.swizzle([0, 1, 2, 3, 4, 5, 6, 7, 0, 1, 2, 3, 4, 5, 6, 7]));
    front.copy_to_slice(&mut text[2 * at..]);
}

/// Writes the four octets from a place on.
#[inline(always)]
fn encode_four(octets: &[u8], text: &mut [u8], at: usize)
    requires fits { length text.old ≡ 2 * length octets.now }
    requires within { at + 4 ≤ length octets.now }
    ensures spells { (k : ℕ) → at ≤ k → k < at + 4 → SpellsAt octets.now text.new k }
    ensures keeps { (k : ℕ) → k < 2 * at → slice_index text.new k ≡ slice_index text.old k }
{
    let few = u8x4::from_slice(&octets[at..]);
    let (front, _) = pairs_of(few.swizzle([0, 1, 2, 3, 0, 1, 2, 3, 0, 1, 2, 3, 0, 1, 2, 3]));
    front.extract::<0, 8>().copy_to_slice(&mut text[2 * at..]);
}

/// The pairs of digits of 16 octets, of the first eight and of the last eight.
#[inline(always)]
fn pairs_of(block: u8x16) -> (u8x16, u8x16)
    ensures front { length result.0 ≡ 16 }
    ensures back { length result.1 ≡ 16 }
    ensures spells { (j : ℕ) → j < 16 → SpellsAt block (result.0 ++ result.1) j }
{
    digits_of(block >> 4).interleave(digits_of(block & u8x16::splat(15)))
}

/// The digits of values, each below 16.
#[inline(always)]
fn digits_of(values: u8x16) -> u8x16
    requires { Each1 (λ value. value < 16) values }
    ensures len { length result ≡ 16 }
    ensures digits { (j : ℕ) → j < 16
        → slice_index result j ≡ slice_index lower_digits (slice_index values j) }
{
    u8x16::from_array(LOWER_DIGITS).swizzle_dyn(values)
}
