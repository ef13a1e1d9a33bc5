//! Octets of digits, a block of them at a time.

ghost use Rattle.std.specs.Bool.{OnTrue};
ghost use Rattle.std.specs.Prelude.{◌≡◌, ℕ, ◌+◌, ◌*◌, ◌≤◌, ◌<◌, ◌++◌, true, length, slice_index, Some, IsTrue};
ghost use Rattle.hex.specs.Hex.{decode_pairs, hex_digit_value, is_hex_digit};
ghost use Rattle.text_io.specs.Pairs.{AreDigits, ReadsAt};

use std::simd::prelude::*;

/// Reads digits, two for each octet. `true` comes exactly if all characters are digits; else what the octets then
/// are is not specified.
pub(crate) fn decode_digits(text: &[u8], octets: &mut [u8]) -> bool
    requires { length text.now ≡ 2 * length octets.old }
    ensures reads { OnTrue result (decode_pairs 0 text.now ≡ Ok octets.new) }
    ensures all { AreDigits text.now → IsTrue result }
{
    let len = octets.len();
    if len >= 16 {
        return decode_blocks(text, octets);
    }
    if len >= 8 {
        return decode_eight(text, octets, 0) && decode_eight(text, octets, len - 8);
    }
    if len >= 4 {
        return decode_four(text, octets, 0) && decode_four(text, octets, len - 4);
    }
    hex::decode_to_slice(text, octets).is_ok()
}

/// Reads the digits of 16 octets or more. The last block ends with them, so it may lie over the one before it.
fn decode_blocks(text: &[u8], octets: &mut [u8]) -> bool
    requires fits { length text.now ≡ 2 * length octets.old }
    requires a_block { 16 ≤ length octets.old }
    ensures reads { OnTrue result (decode_pairs 0 text.now ≡ Ok octets.new) }
    ensures all { AreDigits text.now → IsTrue result }
{
    let last = octets.len() - 16;
    let mut at = 0;
    while at < last {
        if !decode_sixteen(text, octets, at) {
            return false;
        }
        at += 16;
    }
    decode_sixteen(text, octets, last)
}

/// Reads the digits of 16 octets from a place on.
#[inline(always)]
fn decode_sixteen(text: &[u8], octets: &mut [u8], at: usize) -> bool
    requires fits { length text.now ≡ 2 * length octets.old }
    requires within { at + 16 ≤ length octets.old }
    ensures reads { OnTrue result ((k : ℕ) → at ≤ k → k < at + 16 → ReadsAt text.now octets.new k) }
    ensures keeps { (k : ℕ) → k < at → slice_index octets.new k ≡ slice_index octets.old k }
    ensures all { AreDigits text.now → IsTrue result }
{
    let front = u8x16::from_slice(&text[2 * at..]);
    let back = u8x16::from_slice(&text[2 * at + 16..]);
    let (block, are_digits) = read_pairs(front, back);
    block.copy_to_slice(&mut octets[at..]);
    are_digits
}

/// Reads the digits of eight octets from a place on.
#[inline(always)]
fn decode_eight(text: &[u8], octets: &mut [u8], at: usize) -> bool
    requires fits { length text.now ≡ 2 * length octets.old }
    requires within { at + 8 ≤ length octets.old }
    ensures reads { OnTrue result ((k : ℕ) → at ≤ k → k < at + 8 → ReadsAt text.now octets.new k) }
    ensures keeps { (k : ℕ) → k < at → slice_index octets.new k ≡ slice_index octets.old k }
    ensures all { AreDigits text.now → IsTrue result }
{
    let pairs = u8x16::from_slice(&text[2 * at..]);
    let (block, are_digits) = read_pairs(pairs, pairs);
    block.extract::<0, 8>().copy_to_slice(&mut octets[at..]);
    are_digits
}

/// Reads the digits of four octets from a place on.
#[inline(always)]
fn decode_four(text: &[u8], octets: &mut [u8], at: usize) -> bool
    requires fits { length text.now ≡ 2 * length octets.old }
    requires within { at + 4 ≤ length octets.old }
    ensures reads { OnTrue result ((k : ℕ) → at ≤ k → k < at + 4 → ReadsAt text.now octets.new k) }
    ensures keeps { (k : ℕ) → k < at → slice_index octets.new k ≡ slice_index octets.old k }
    ensures all { AreDigits text.now → IsTrue result }
{
    let few = u8x8::from_slice(&text[2 * at..]);
    let pairs = few.swizzle([0, 1, 2, 3, 4, 5, 6, 7, 0, 1, 2, 3, 4, 5, 6, 7]);
    let (block, are_digits) = read_pairs(pairs, pairs);
    block.extract::<0, 4>().copy_to_slice(&mut octets[at..]);
    are_digits
}

/// The octets of 16 pairs of characters, and whether all of these are digits.
#[inline(always)]
fn read_pairs(front: u8x16, back: u8x16) -> (u8x16, bool)
    ensures len { length result.0 ≡ 16 }
    ensures reads { OnTrue result.1 ((j : ℕ) → j < 16 → ReadsAt (front ++ back) result.0 j) }
    ensures all { ((m : ℕ) → m < 32 → is_hex_digit (slice_index (front ++ back) m) ≡ true) → IsTrue result.1 }
{
    let (high, low) = front.deinterleave(back);
    let high = digit_values(high);
    let low = digit_values(low);
    (high << 4 | low, are_values(high, low))
}

/// Whether all lanes are values of digits: below 16, so with no bit of the upper four.
#[inline(always)]
fn are_values(high: u8x16, low: u8x16) -> bool
    ensures high { OnTrue result ((j : ℕ) → j < 16 → slice_index high j < 16) }
    ensures low { OnTrue result ((j : ℕ) → j < 16 → slice_index low j < 16) }
    ensures all { ((j : ℕ) → j < 16 → slice_index high j < 16) → ((j : ℕ) → j < 16 → slice_index low j < 16)
        → IsTrue result }
{
    ((high | low) & u8x16::splat(0xf0)).reduce_or() == 0
}

/// The values of digits of either case, and 16 or more if a character is no digit.
///
/// Of what two sums of a character give, the smaller is the value. A digit up to `9` becomes 246 and more, from which 6
/// and 240 are taken; a letter counts from `A`, of either case, and 10 are added. What is no digit of its own, each sum
/// leaves above 15. The method is that of Geoff Langdale and Wojciech Muła.
#[inline(always)]
fn digit_values(characters: u8x16) -> u8x16
    ensures len { length result ≡ 16 }
    ensures value { (j : ℕ) → j < 16 → slice_index characters j < 256 → slice_index result j < 16
        → hex_digit_value (slice_index characters j) ≡ Some (slice_index result j) }
    ensures digit { (j : ℕ) → j < 16 → is_hex_digit (slice_index characters j) ≡ true → slice_index result j < 16 }
{
    let from_zero = (characters + u8x16::splat(198)).saturating_sub(u8x16::splat(6))
        - u8x16::splat(240);
    let letter = (characters & u8x16::splat(0xdf)) - u8x16::splat(b'A');
    let from_ten = letter.simd_min(u8x16::splat(245)) + u8x16::splat(10);
    from_zero.simd_min(from_ten)
}
