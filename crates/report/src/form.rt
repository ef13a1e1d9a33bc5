//! How a line of a table goes out.

ghost use Rattle.std.specs.Prelude.{◌≡◌, ◌++◌, ℕ, List, [], flat_map, refl};
ghost use Rattle.hex.specs.Hex.{encode_lower};
ghost use Rattle.text_io.specs.Buffers.{CanWrite, Puts, watch};
ghost use Rattle.text_io.specs.Texts.{ended};

use text_io::{Buffered, Sink};

/// How a line goes out: as it stands, or as one that is framed in some other way. Contracts see what is written of it.
pub trait LineForm {
    // What is written of a line with its LF.
    ghost written: { List ℕ → List ℕ };

    /// Puts a line of these parts, of which the last ends it, and nothing if they are empty. It takes no memory.
    fn put_line<W: Sink>(out: &mut Buffered<'_, W>, parts: &[&[u8]])
        requires { CanWrite W.failed out.old }
        ensures { Puts (watch W.taken W.failed) out.old out.new (written (flat_map (λ part. part.now) parts.now)) };

    /// Puts a line of these parts, then these octets as pairs of hexadecimal digits in lower case, and LF. It takes no
    /// memory.
    fn put_digits_line<W: Sink>(out: &mut Buffered<'_, W>, parts: &[&[u8]], octets: &[u8])
        requires { CanWrite W.failed out.old }
        ensures { Puts (watch W.taken W.failed) out.old out.new
            (written (ended (flat_map (λ part. part.now) parts.now ++ encode_lower octets.now))) };

    // Nothing is written of no line.
    ghost nothing: { written [] ≡ [] };
}

/// A line as it stands.
pub struct AsText;

impl LineForm for AsText {
    ghost written = { λ line. line };

    ghost nothing = { refl };

    #[inline(always)]
    fn put_line<W: Sink>(out: &mut Buffered<'_, W>, parts: &[&[u8]]) {
        out.put_parts(parts);
    }

    #[inline(always)]
    fn put_digits_line<W: Sink>(out: &mut Buffered<'_, W>, parts: &[&[u8]], octets: &[u8]) {
        out.put_parts(parts);
        out.put_digits(octets);
        out.put(b"\n");
    }
}
