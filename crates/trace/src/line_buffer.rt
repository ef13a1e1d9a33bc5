//! The octets of a line, in memory that is kept.

ghost use Rattle.std.specs.Bool.{OnTrue};
ghost use Rattle.std.specs.Prelude.{◌≡◌, ◌<◌, ◌≤◌, ◌/◌, ◌+◌, ◌++◌, false, not, length, take, drop, Ok, Err, IsErr, MatchOption};
ghost use Rattle.std.specs.List.{prefix_len};
ghost use Rattle.hex.specs.Hex.{decode_of, is_hex_digit};
ghost use Rattle.text_io.specs.Endings.{Gives, Refused};
ghost use Rattle.trace.specs.TraceText.{digits_of, is_space, octets_of};

use crate::fault::LineFault;
use mac_frame::NoMemory;
use std::alloc::Global;
use std::marker::Model;
use std::simd::prelude::*;
use text_io::digits;

/// The most octets of a line.
const MAX_OCTETS: usize = 4096;

/// The most digits of a line.
const MAX_DIGITS: usize = 8192;

/// How many characters are looked at together.
const BLOCK: usize = 16;

/// Memory for the octets of one line after another, as many as a line may have, and for the digits of one with spaces
/// among them (*profile*). It is taken once, so that reading a line takes none. Contracts see nothing of it.
#[derive(Drop)]
pub struct LineBuffer {
    octets: Vec<u8>,
    digits: Vec<u8>,
}

impl Model for LineBuffer {
    ghost use Rattle.std.specs.Prelude.{◌≡◌, length};

    ghost Value = { Unit {0} };

    ghost view = { λ _. tt };

    ghost invariant = { λ b. (length b.octets.items ≡ 4096) × (length b.digits.items ≡ 8192) };
}

impl LineBuffer {
    /// The memory. `NoMemory` if there is none.
    pub fn new(alloc: Global) -> Result<LineBuffer, NoMemory> {
        Ok(LineBuffer {
            octets: vec![in alloc; 0; MAX_OCTETS]?,
            digits: vec![in alloc; 0; MAX_DIGITS]?,
        })
    }

    /// The octets that a text spells in hexadecimal digits of either case, with spaces among them.
    #[inline(always)]
    pub(crate) fn read(&mut self, text: &[u8]) -> Result<&[u8], LineFault>
        ensures { Gives (λ octets. octets.now) Refused result (octets_of text.now) }
    {
        let LineBuffer { octets, digits } = self;
        read_octets(text, digits.as_mut_slice(), octets.as_mut_slice())
    }
}

/// The octets that a text spells, put into a piece of memory. Most texts are of digits alone, which are read many at a
/// time. Of others the digits are put together first, into another piece.
#[inline(always)]
fn read_octets<'a>(
    text: &[u8],
    digits: &mut [u8],
    memory: &'a mut [u8],
) -> Result<&'a [u8], LineFault>
    requires digits { length digits.old ≡ MAX_DIGITS }
    requires memory { length memory.old ≡ MAX_OCTETS }
    ensures { Gives (λ octets. octets.now) Refused result (octets_of text.now) }
{
    if read_digits(text, memory) {
        return Ok(&memory[..text.len() / 2]);
    }
    let Some(gathered) = gather(text, digits) else {
        return Err(fault_of_many(text));
    };
    if read_digits(gathered, memory) {
        return Ok(&memory[..gathered.len() / 2]);
    }
    Err(LineFault::NotHexadecimal)
}

/// The characters of a text that are no spaces, put into a piece of memory; `None` if they are more than a line may
/// have. What stands between two spaces is put there many characters at a time, as long as there is room for so many.
fn gather<'a>(text: &[u8], memory: &'a mut [u8]) -> Option<&'a [u8]>
    requires { length memory.old ≡ MAX_DIGITS }
    ensures { MatchOption result (MAX_DIGITS < length (digits_of text.now))
        (λ gathered. (gathered.now ≡ digits_of text.now) × (length gathered.now ≤ MAX_DIGITS)) }
{
    let mut len = 0;
    let mut rest = text;
    while let [character, others @ ..] = rest {
        if *character == b' ' {
            rest = others;
        } else if rest.len() >= BLOCK && len + BLOCK <= MAX_DIGITS {
            let run = put_run(rest, memory, len);
            len += run;
            rest = text_from(rest, run);
        } else if len < MAX_DIGITS {
            memory[len] = *character;
            len += 1;
            rest = others;
        } else {
            return None;
        }
    }
    Some(&memory[..len])
}

/// Puts the first characters of a text into a piece of memory from a place on, up to the first space of a block, and
/// tells how many they are. What stands behind them in the memory is not specified.
#[inline(always)]
fn put_run(text: &[u8], memory: &mut [u8], at: usize) -> usize
    requires text { BLOCK ≤ length text.now }
    requires room { at + BLOCK ≤ length memory.old }
    ensures run { result ≡ prefix_len (λ character. not (is_space character)) (take BLOCK text.now) }
    ensures put { take (at + result) memory.new ≡ take at memory.old ++ take result text.now }
    ensures same { length memory.new ≡ length memory.old }
{
    let block = u8x16::from_slice(text);
    block.copy_to_slice(&mut memory[at..]);
    before_space(block)
}

/// How many characters of a block come before its first space.
#[inline(always)]
fn before_space(block: u8x16) -> usize
    requires { length block ≡ BLOCK }
    ensures { result ≡ prefix_len (λ character. not (is_space character)) block }
{
    let spaces = block.simd_eq(u8x16::splat(b' ')).to_bitmask();
    if spaces == 0 {
        return BLOCK;
    }
    spaces.trailing_zeros() as usize
}

/// What stands from a place of a text on.
#[inline(always)]
fn text_from(text: &[u8], place: usize) -> &[u8]
    requires { place ≤ length text.now }
    ensures { result.now ≡ drop place text.now }
{
    &text[place..]
}

/// The fault of a text of more digits than a line may have, unless another character is among them or their number is
/// odd, which is the fault then.
#[tactic(auto, using(crate::proofs::DigitTexts::look_other))]
fn fault_of_many(text: &[u8]) -> LineFault
    requires { MAX_DIGITS < length (digits_of text.now) }
    ensures { octets_of text.now ≡ Err result }
{
    let mut is_odd = false;
    let mut rest = text;
    while let [character, others @ ..] = rest {
        if *character != b' ' {
            if !is_digit(*character) {
                return LineFault::NotHexadecimal;
            }
            is_odd = !is_odd;
        }
        rest = others;
    }
    if is_odd {
        return LineFault::NotHexadecimal;
    }
    LineFault::TooMany
}

/// Reads a text of digits alone that are no more than a line may have, and tells whether it is one.
#[inline(always)]
fn read_digits(text: &[u8], memory: &mut [u8]) -> bool
    requires { length memory.old ≡ MAX_OCTETS }
    ensures read { OnTrue result (decode_of text.now ≡ Ok (take (length text.now / 2) memory.new)) }
    ensures few { OnTrue result (length text.now / 2 ≤ MAX_OCTETS) }
    ensures refused { result ≡ false → length text.now ≤ MAX_DIGITS → IsErr (decode_of text.now) }
{
    let len = text.len() / 2;
    if text.len() % 2 != 0 || len > MAX_OCTETS {
        return false;
    }
    digits::decode_to_slice(text, &mut memory[..len])
}

/// Whether a character is a hexadecimal digit of either case.
fn is_digit(character: u8) -> bool
    ensures { result ≡ is_hex_digit character }
{
    matches!(character, b'A'..=b'F' | b'a'..=b'f' | b'0'..=b'9')
}
