//! A sink with a piece of memory before it, which is asked for nothing more once it failed.

ghost use Rattle.std.specs.Prelude.{◌≡◌, ◌+◌, ◌*◌, ◌≤◌, ◌++◌, [], false, length, flat_map};
ghost use Rattle.hex.specs.Hex.{encode_lower};

use crate::digits;
use crate::sink::{Failed, Sink, write_all};

/// How many octets become digits at a time if the piece has no room for all of them.
const OCTETS_AT_A_TIME: usize = 32;

/// A sink with a piece of memory before it, in which texts are collected until it is full. It takes no memory itself.
///
/// What the piece still holds goes to the sink by [`Buffered::flush`], which answers whether the sink failed, and not
/// if the value is dropped. Once the sink failed, what is put is dropped.
#[derive(Drop)]
pub struct Buffered<'a, W> {
    sink: &'a mut W,
    piece: &'a mut [u8],
    len: usize,
    has_failed: bool,
    ghost within: { len ≤ length piece.now },
}

impl<'a, W> Buffered<'a, W> {
    ghost use Rattle.text_io.specs.Buffers.{held};

    /// The sink with this piece before it, of any length, which holds nothing yet: what stands in it doesn't matter.
    pub fn new(sink: &'a mut W, piece: &'a mut [u8]) -> Buffered<'a, W>
        ensures same_sink { result.sink.ghost_name ≡ sink.entry.ghost_name }
        ensures sink { result.sink.now ≡ sink.old }
        ensures empty { held result ≡ [] }
        ensures fresh { result.has_failed ≡ false }
    {
        Buffered {
            sink,
            piece,
            len: 0,
            has_failed: false,
        }
    }
}

impl<W: Sink> Buffered<'_, W> {
    ghost use Rattle.text_io.specs.Buffers.{CanWrite, Flushes, Puts, held, watch};

    /// Puts a text after what the piece holds, which goes to the sink first if both would be more than the piece
    /// has room for; a text longer than the piece goes there directly. It takes no memory. If the sink fails, it has
    /// taken a prefix of what was held and of the text; once it failed, it takes nothing.
    #[inline(always)]
    pub fn put(&mut self, text: &[u8])
        requires { CanWrite W.failed self.old }
        ensures { Puts (watch W.taken W.failed) self.old self.new text.now }
    {
        if text.len() > self.piece.len() - self.len {
            self.put_past(text);
            return;
        }
        self.hold(text);
    }

    /// Puts texts, one after the other, as [`Buffered::put`] puts one.
    #[inline(always)]
    pub fn put_parts(&mut self, parts: &[&[u8]])
        requires { CanWrite W.failed self.old }
        ensures { Puts (watch W.taken W.failed) self.old self.new (flat_map (λ part. part.now) parts.now) }
    {
        for part in parts {
            self.put(part);
        }
    }

    /// Puts octets as pairs of hexadecimal digits in lower case, as [`Buffered::put`] puts a text.
    #[inline]
    pub fn put_digits(&mut self, octets: &[u8])
        requires { CanWrite W.failed self.old }
        ensures { Puts (watch W.taken W.failed) self.old self.new (encode_lower octets.now) }
    {
        if octets.len() > (self.piece.len() - self.len) / 2 {
            self.put_digits_past(octets);
            return;
        }
        self.hold_digits(octets);
    }

    /// Puts a text for which the piece has no room.
    fn put_past(&mut self, text: &[u8])
        requires { CanWrite W.failed self.old }
        ensures { Puts (watch W.taken W.failed) self.old self.new text.now }
    {
        if let Ok(()) = self.flush() {
            self.has_failed = write_all(self.sink, text).is_err();
        }
    }

    /// Puts a text for which the piece has room.
    #[inline(always)]
    fn hold(&mut self, text: &[u8])
        requires { self.old.len + length text.now ≤ length self.old.piece.now }
        ensures same_sink { self.new.sink.ghost_name ≡ self.old.sink.ghost_name }
        ensures sink { self.new.sink.now ≡ self.old.sink.now }
        ensures held { held self.new ≡ held self.old ++ text.now }
        ensures flag { self.new.has_failed ≡ self.old.has_failed }
    {
        let end = self.len + text.len();
        self.piece[self.len..end].copy_from_slice(text);
        self.len = end;
    }

    /// Puts octets as digits for which the piece has no room.
    fn put_digits_past(&mut self, octets: &[u8])
        requires { CanWrite W.failed self.old }
        ensures { Puts (watch W.taken W.failed) self.old self.new (encode_lower octets.now) }
    {
        let mut rest = octets;
        while !rest.is_empty() {
            let (few, others) = rest.split_at(rest.len().min(OCTETS_AT_A_TIME));
            self.put_few_digits(few);
            rest = others;
        }
    }

    /// Puts as many octets as become digits at a time, or fewer, as pairs of hexadecimal digits.
    fn put_few_digits(&mut self, octets: &[u8])
        requires few { length octets.now ≤ OCTETS_AT_A_TIME }
        requires can_write { CanWrite W.failed self.old }
        ensures { Puts (watch W.taken W.failed) self.old self.new (encode_lower octets.now) }
    {
        let mut digits = [0; 2 * OCTETS_AT_A_TIME];
        let pairs = &mut digits[..2 * octets.len()];
        digits::encode_to_slice(octets, pairs);
        self.put(pairs);
    }

    /// Puts octets as digits for which the piece has room.
    #[inline]
    fn hold_digits(&mut self, octets: &[u8])
        requires { self.old.len + 2 * length octets.now ≤ length self.old.piece.now }
        ensures same_sink { self.new.sink.ghost_name ≡ self.old.sink.ghost_name }
        ensures sink { self.new.sink.now ≡ self.old.sink.now }
        ensures held { held self.new ≡ held self.old ++ encode_lower octets.now }
        ensures flag { self.new.has_failed ≡ self.old.has_failed }
    {
        let end = self.len + 2 * octets.len();
        digits::encode_to_slice(octets, &mut self.piece[self.len..end]);
        self.len = end;
    }

    /// Has the sink take what the piece holds, which is empty then. `Failed` comes exactly if the sink failed, now
    /// or in a call before; it has then taken a prefix of what was put.
    pub fn flush(&mut self) -> Result<(), Failed>
        requires { CanWrite W.failed self.old }
        ensures { Flushes (watch W.taken W.failed) result self.old self.new }
    {
        if self.has_failed {
            return Err(Failed);
        }
        let written = write_all(self.sink, &self.piece[..self.len]);
        self.len = 0;
        self.has_failed = written.is_err();
        written
    }
}
