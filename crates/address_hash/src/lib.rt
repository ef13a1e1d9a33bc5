//! A hash for keys that are addresses, or hold one, which costs one multiplication for a key.
//!
//! [`AddressHasher`] promises exactly what it computes: each call that writes puts what is written into one number of 64
//! bits, by a rotation and an exclusive or, and the end mixes that number once. Each octet of an address has bits of its
//! own there, so no two addresses are the same number before it is mixed. It takes the calls that any `Hash` makes, and
//! [`AddressHashes`] makes one for each key of a map.
//!
//! Where it starts is fixed, as it is for std's `FoldHasher`: whoever chooses many addresses can choose them so that
//! they collide, and a map is slower then. A limit on how many keys a map has is left to its owner.
//!
//! A map finds a name by an address:
//!
//! ```
//! use address_hash::AddressHashes;
//! use indexmap::IndexMap;
//! use mac_frame::MacAddr;
//!
//! let printer = MacAddr::new([2, 0xaa, 0, 0, 0, 1]);
//! let mut names = IndexMap::with_hasher(rt.alloc(), AddressHashes::new());
//! names.insert(printer, "printer")?;
//! assert_eq!(rt; names.get(&printer), Some(&"printer"));
//! assert_eq!(rt; names.get(&MacAddr::BROADCAST), None);
//! ```
#![tactic(auto)]

ghost use Rattle.std.specs.Prelude.{◌≡◌};
ghost use Rattle.std.specs.Hash.FoldHasher.{folded_multiply};
ghost use Rattle.address_hash.specs.AddressHash.{initial, gathered, number_of};

use std::hash::{BuildHasherDefault, Hasher};

/// What makes an [`AddressHasher`] for each key of a map.
pub type AddressHashes = BuildHasherDefault<AddressHasher>;

/// The octets of a key, gathered in one number.
#[derive(Clone, Copy)]
pub struct AddressHasher {
    gathered: u64,
}

impl Default for AddressHasher {
    ghost is_default = { λ hasher. hasher ≡ initial };

    fn default() -> AddressHasher {
        AddressHasher {
            gathered: 0x243f_6a88_85a3_08d3,
        }
    }
}

impl Hasher for AddressHasher {
    ghost use Rattle.address_hash.specs.AddressHash.{write, finish};

    ghost write = { write };

    ghost finish = { finish };

    /// The folded multiplication of wyhash (Wang Yi): both halves of a product of 128 bits, so that each bit of the key
    /// reaches the low and the high bits of its hash.
    #[inline(always)]
    fn finish(&self) -> u64 {
        folded_multiply(self.gathered, 0x9e37_79b9_7f4a_7c15)
    }

    #[inline(always)]
    fn write(&mut self, bytes: &[u8]) {
        self.gather(number_of(bytes));
    }

    /// What one octet writes, without a list of it.
    #[inline(always)]
    fn write_u8(&mut self, i: u8) {
        self.gather(u64::from(i));
    }

    /// What the eight octets of a number write, which are that number.
    #[inline(always)]
    fn write_u64(&mut self, i: u64) {
        self.gather(i);
    }

    /// What the eight octets of a length write.
    #[inline(always)]
    fn write_usize(&mut self, i: usize) {
        self.gather(i as u64);
    }
}

impl AddressHasher {
    /// Puts one number more to what is gathered, which moves up by an octet for it.
    #[inline(always)]
    fn gather(&mut self, number: u64)
        ensures { self.new ≡ record { gathered = gathered self.old.gathered number } }
    {
        self.gathered = self.gathered.rotate_left(8) ^ number;
    }
}

/// Octets as one number.
fn number_of(bytes: &[u8]) -> u64
    ensures { result ≡ number_of bytes.now }
{
    let mut number = 0u64;
    let mut left = bytes.len();
    while left > 0 {
        left -= 1;
        number = number.rotate_left(8) ^ u64::from(bytes[left]);
    }
    number
}

/// Both halves of the product of two numbers, joined by exclusive or.
#[inline(always)]
fn folded_multiply(a: u64, b: u64) -> u64
    ensures { result ≡ folded_multiply a b }
{
    let product = u128::from(a) * u128::from(b);
    (product & 0xffff_ffff_ffff_ffff) as u64 ^ (product >> 64) as u64
}
