//! A set of association identifiers (IEEE Std 802.11-2016, 9.4.1.8), kept as its virtual bitmap (9.4.2.6).

ghost use Rattle.std.specs.Prelude.{◌≡◌, ◌+◌, ◌*◌, ◌≤◌, ◌↔◌, ℕ, IsTrue, length, slice_index};
ghost use Rattle.std.specs.FinSet as set;
ghost use Rattle.tim.specs.Tim.{HasNumber, IsAid, virtual_bitmap, up_to_last, from_first_pair, partial_of};
ghost use Rattle.tim.specs.Bitmap.{has_bit, sent_at};

use mac_frame::MAX_AID;
use std::marker::Model;

/// How many octets the virtual bitmap has (9.4.2.6): that of the greatest identifier stands at the last place, 250.
pub(crate) const BITMAP_LEN: usize = MAX_AID as usize / 8 + 1;

/// A set of association identifiers (9.4.1.8). Contracts see it as a finite set of numbers from 1 to [`MAX_AID`]. None
/// of its methods takes memory.
#[derive(Debug, Drop)]
pub struct Bitmap {
    // the virtual bitmap: bit n mod 8 of octet n / 8 tells whether the set has n; that of 0, no identifier, stays 0
    octets: [u8; BITMAP_LEN],
}

impl Model for Bitmap {
    ghost use Rattle.std.specs.Prelude.{◌≡◌, false};
    ghost use Rattle.std.specs.Ordering.{nat_cmp};
    ghost use Rattle.std.specs.Coded.{coded_ℕ};
    ghost use Rattle.std.specs.FinSet as set;
    ghost use Rattle.tim.specs.Bitmap.{aids_where, has_bit};

    ghost Value = { set.FinSet nat_cmp };

    ghost coded = { set.code coded_ℕ };

    ghost view = { λ b. aids_where (has_bit b.octets) };

    ghost invariant = { λ b. has_bit b.octets 0 ≡ false };
}

impl Bitmap {
    /// The empty set.
    pub fn new() -> Bitmap
        ensures { result ≡ set.empty }
    {
        Bitmap {
            octets: [0; BITMAP_LEN],
        }
    }

    /// Another set of the same identifiers.
    pub fn copy(&self) -> Bitmap
        ensures { result ≡ self.now }
    {
        Bitmap {
            octets: self.octets,
        }
    }

    /// Puts an association identifier, 1 to [`MAX_AID`], into the set. One that is there, and the others, stay.
    pub fn set(&mut self, aid: u16)
        requires least { 1 ≤ aid }
        requires greatest { aid ≤ MAX_AID }
        ensures { self.new ≡ set.insert self.old aid }
    {
        self.octets[usize::from(aid / 8)] |= 1 << (aid % 8);
    }

    /// Takes an association identifier, 1 to [`MAX_AID`], out of the set, if it is there. The others stay.
    pub fn clear(&mut self, aid: u16)
        requires least { 1 ≤ aid }
        requires greatest { aid ≤ MAX_AID }
        ensures { self.new ≡ set.remove self.old aid }
    {
        self.octets[usize::from(aid / 8)] &= !(1 << (aid % 8));
    }

    /// Whether the set has an association identifier, 1 to [`MAX_AID`].
    pub fn has(&self, aid: u16) -> bool
        requires least { 1 ≤ aid }
        requires greatest { aid ≤ MAX_AID }
        ensures { result ≡ set.contains self.now aid }
    {
        has_bit(&self.octets, aid)
    }

    /// The set of which octets that stand from a place of the virtual bitmap on have the bits (9.4.2.6).
    pub(crate) fn from_octets(first: usize, octets: &[u8]) -> Bitmap
        requires within { first + length octets.now ≤ BITMAP_LEN }
        requires no_number_0 { ¬ HasNumber first octets.now 0 }
        ensures numbers { (n : ℕ) → IsTrue (set.contains result n) ↔ HasNumber first octets.now n }
        ensures aids { (n : ℕ) → IsTrue (set.contains result n) → IsAid n }
    {
        Bitmap {
            octets: from_place(first, octets),
        }
    }

    /// What is sent of the virtual bitmap (9.4.2.6; which octets is *profile*). First comes the Bitmap Offset. Then
    /// come the octets from the first pair that isn't 0 and 0 up to the last octet that isn't 0, or one 0 if there is
    /// none.
    pub(crate) fn partial(&self) -> (u8, &[u8])
        ensures octets { (result.0, result.1.now) ≡ partial_of (virtual_bitmap (set.contains self.now)) }
        ensures within { 2 * result.0 + length result.1.now ≤ BITMAP_LEN }
    {
        let used = up_to_last(&self.octets);
        let (offset, octets) = from_first_pair(used);
        if octets.is_empty() {
            return (offset, &[0]);
        }
        (offset, octets)
    }
}

/// Whoever holds a set knows that it has no number but association identifiers (9.4.1.8).
pub fn numbers_are_aids(bits: &Bitmap)
    ensures { (n : ℕ) → IsTrue (set.contains bits.now n) → IsAid n }
{
    let _octets = &bits.octets;
}

/// The bit of a number.
fn has_bit(octets: &[u8; BITMAP_LEN], aid: u16) -> bool
    requires { aid ≤ MAX_AID }
    ensures { result ≡ has_bit octets.now aid }
{
    octets[usize::from(aid / 8)] >> (aid % 8) & 1 == 1
}

/// A virtual bitmap that has these octets from a place on, and 0 at every other.
fn from_place(first: usize, octets: &[u8]) -> [u8; BITMAP_LEN]
    requires { first + length octets.now ≤ BITMAP_LEN }
    ensures { (place : ℕ) → slice_index result place ≡ sent_at first octets.now place }
{
    let mut bitmap = [0; BITMAP_LEN];
    bitmap[first..first + octets.len()].copy_from_slice(octets);
    bitmap
}

/// The octets up to the last that isn't 0.
fn up_to_last(octets: &[u8]) -> &[u8]
    ensures octets { result.now ≡ up_to_last octets.now }
    ensures within { length result.now ≤ length octets.now }
{
    let mut octets = octets;
    while let [others @ .., 0] = octets {
        octets = others;
    }
    octets
}

/// The octets from the first pair on that isn't 0 and 0, and how many pairs stand before it.
fn from_first_pair(octets: &[u8]) -> (u8, &[u8])
    requires { length octets.now ≤ BITMAP_LEN }
    ensures octets { (result.0, result.1.now) ≡ from_first_pair 0 octets.now }
    ensures within { 2 * result.0 + length result.1.now ≤ BITMAP_LEN }
{
    let mut octets = octets;
    let mut passed = 0;
    while let [0, 0, others @ ..] = octets {
        octets = others;
        passed += 1;
    }
    (passed, octets)
}
