//! Hexadecimal digits (those of `hex`), many octets a step.
//!
//! [`encode_to_slice`] promises what the function of this name in `hex` promises. [`decode_to_slice`] reads what that of
//! `hex` reads, and names no character that is no digit. Both are faster: they work on blocks of octets, each of which a
//! few instructions on vectors read or write. They take no memory.

ghost use Rattle.std.specs.Bool.{OnTrue};
ghost use Rattle.std.specs.Prelude.{◌≡◌, ◌*◌, false, length, IsErr};
ghost use Rattle.hex.specs.Hex.{decode_of, encode_lower};

mod decoding;
mod encoding;

/// Writes the octets that hexadecimal digits of either case spell, two digits for each, and tells whether all characters
/// are digits. If they aren't, what the octets then are is not specified.
#[inline]
pub fn decode_to_slice(text: &[u8], octets: &mut [u8]) -> bool
    requires { length text.now ≡ 2 * length octets.old }
    ensures read { OnTrue result (decode_of text.now ≡ Ok octets.new) }
    ensures refused { result ≡ false → IsErr (decode_of text.now) }
{
    decoding::decode_digits(text, octets)
}

/// Writes octets as pairs of hexadecimal digits in lower case.
pub fn encode_to_slice(octets: &[u8], text: &mut [u8])
    requires { length text.old ≡ 2 * length octets.now }
    ensures { text.new ≡ encode_lower octets.now }
{
    encoding::encode_octets(octets, text)
}
