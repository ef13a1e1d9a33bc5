//! A writer that keeps of all that it takes four numbers alone, however it is cut.

use std::io::{self, Write};

/// How many octets are mixed at a time.
const BLOCK: usize = 32;

/// The digest of what was written: blocks of four words, each of which is mixed into a number of its own, so that the
/// four don't wait for each other.
#[derive(Drop)]
pub(crate) struct Digest {
    mixed: Mixed,
    // the first octets of a block, and how many
    begun: [u8; BLOCK],
    begun_len: usize,
    written: u64,
}

/// A number for each word of a block.
#[derive(Clone, Copy)]
struct Mixed {
    first: u64,
    second: u64,
    third: u64,
    fourth: u64,
}

/// A number after a word.
#[inline(always)]
fn mix(mixed: u64, word: u64) -> u64 {
    (mixed ^ word)
        .wrapping_mul(0x9e37_79b9_7f4a_7c15)
        .rotate_left(23)
}

/// The words of a block.
#[inline(always)]
fn words_of(block: &[u8; BLOCK]) -> [u64; 4] {
    let b = block;
    [
        u64::from_le_bytes([b[0], b[1], b[2], b[3], b[4], b[5], b[6], b[7]]),
        u64::from_le_bytes([b[8], b[9], b[10], b[11], b[12], b[13], b[14], b[15]]),
        u64::from_le_bytes([b[16], b[17], b[18], b[19], b[20], b[21], b[22], b[23]]),
        u64::from_le_bytes([b[24], b[25], b[26], b[27], b[28], b[29], b[30], b[31]]),
    ]
}

/// The numbers after a block.
#[inline(always)]
fn mix_block(mixed: Mixed, block: &[u8; BLOCK]) -> Mixed {
    let [first, second, third, fourth] = words_of(block);
    Mixed {
        first: mix(mixed.first, first),
        second: mix(mixed.second, second),
        third: mix(mixed.third, third),
        fourth: mix(mixed.fourth, fourth),
    }
}

/// The block that stands at a place of octets.
#[inline(always)]
fn block_at(octets: &[u8], at: usize) -> Option<&[u8; BLOCK]> {
    octets.get(at..)?.first_chunk::<BLOCK>()
}

impl Digest {
    /// The digest of nothing.
    pub(crate) fn new() -> Digest {
        Digest {
            mixed: Mixed {
                first: 1,
                second: 2,
                third: 3,
                fourth: 4,
            },
            begun: [0; BLOCK],
            begun_len: 0,
            written: 0,
        }
    }

    /// How many octets were written.
    pub(crate) fn written(&self) -> u64 {
        self.written
    }

    /// One number for all of it.
    pub(crate) fn number(&self) -> u64 {
        let last = mix_block(self.mixed, &self.begun);
        let first = mix(mix(self.written, last.first), last.second);
        mix(mix(first, last.third), last.fourth)
    }

    /// Takes one octet into the block that has begun.
    fn take(&mut self, octet: u8) {
        if let Some(place) = self.begun.get_mut(self.begun_len) {
            *place = octet;
        }
        self.begun_len = self.begun_len.saturating_add(1);
        if self.begun_len >= BLOCK {
            self.mixed = mix_block(self.mixed, &self.begun);
            self.begun = [0; BLOCK];
            self.begun_len = 0;
        }
    }

    /// Takes octets up to the end of a block that has begun, and gives those after it.
    fn end_block<'a>(&mut self, octets: &'a [u8]) -> &'a [u8] {
        for (place, octet) in octets.iter().enumerate() {
            if self.begun_len == 0 {
                return octets.get(place..).unwrap_or(b"");
            }
            self.take(*octet);
        }
        b""
    }
}

impl Write for Digest {
    fn write(&mut self, buf: &[u8]) -> io::Result<usize> {
        let rest = self.end_block(buf);
        let whole = rest.len() / BLOCK;
        let mut mixed = self.mixed;
        for number in 0..whole {
            if let Some(block) = block_at(rest, number.saturating_mul(BLOCK)) {
                mixed = mix_block(mixed, block);
            }
        }
        self.mixed = mixed;
        for octet in rest.get(whole.saturating_mul(BLOCK)..).unwrap_or(b"") {
            self.take(*octet);
        }
        self.written = self.written.wrapping_add(buf.len() as u64);
        Ok(buf.len())
    }

    fn flush(&mut self) -> io::Result<()> {
        Ok(())
    }
}
