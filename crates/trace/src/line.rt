//! One line of a trace text.

ghost use Rattle.std.specs.Prelude.{◌≡◌, position, option_map};
ghost use Rattle.text_io.specs.Endings.{Gives, Refused};
ghost use Rattle.mac_frame.specs.Address.{address_of};
ghost use Rattle.events.specs.LentEvents.{line_of};
ghost use Rattle.trace.specs.TraceText.{is_skipped, is_space, first_word, without_spaces_at_end};
ghost use Rattle.trace.specs.TraceText.{without_spaces_at_start, after_first_word};
ghost use Rattle.trace.specs.TraceText.{place_with, place_named, wired_line, line_with, content_of, said_by};

use crate::fault::LineFault;
use crate::line_buffer::LineBuffer;
use events::LentLine;
use mac_frame::MacAddr;
use std::str;

/// What a line says to the networks that have these addresses, in order of place: nothing if it is skipped. It is
/// taken without its LF, and without a CR directly before that. What it says is lent: its octets stand in the buffer
/// until the next line is read there, and no memory is taken.
///
/// The spaces at its end are dropped; a line that is then empty, or that begins with `#`, is skipped. Only spaces part
/// words. The word `A` stands before a string that was heard on the air; `W` before the address of a network and a
/// frame that came over the wire to it; `T` alone is the beginning of a beacon interval. Strings and frames are
/// hexadecimal digits of either case, or none, with spaces among them.
///
/// A line with a fault gives the first, in this order. `L1`: a first word that is none of these, also an empty one, or
/// something after `T`. `L3`: a second word of `W` that is missing or no address. `L4`: an address that no network has.
/// `L2`: an odd number of digits, or another character. `L5`: more than 4096 octets.
pub fn read_line<'a>(
    buffer: &'a mut LineBuffer,
    bssids: &[MacAddr],
    line: &[u8],
) -> Result<Option<LentLine<'a>>, LineFault>
    ensures { Gives (option_map line_of) Refused result (said_by bssids.now line.now) }
{
    read_content(buffer, bssids, without_spaces_at_end(line))
}

/// What a line less the spaces at its end says, as [`read_line`] tells it of the whole line.
#[inline]
pub fn read_content<'a>(
    buffer: &'a mut LineBuffer,
    bssids: &[MacAddr],
    line: &[u8],
) -> Result<Option<LentLine<'a>>, LineFault>
    ensures { Gives (option_map line_of) Refused result (content_of bssids.now line.now) }
{
    if is_skipped(line) {
        return Ok(None);
    }
    let (word, text) = split_word(line);
    Ok(Some(line_with(buffer, bssids, word, text)?))
}

/// The line of a first word and the text after it.
#[inline(always)]
fn line_with<'a>(
    buffer: &'a mut LineBuffer,
    bssids: &[MacAddr],
    word: &[u8],
    text: &[u8],
) -> Result<LentLine<'a>, LineFault>
    ensures { Gives line_of Refused result (line_with bssids.now word.now text.now) }
{
    match word {
        b"A" => Ok(LentLine::Air(buffer.read(text)?)),
        b"W" => wired_line(buffer, bssids, without_spaces_at_start(text)),
        b"T" if text.is_empty() => Ok(LentLine::Tick),
        _ => Err(LineFault::UnknownKind),
    }
}

/// The line of an address and a frame that came over the wire to its network.
fn wired_line<'a>(
    buffer: &'a mut LineBuffer,
    bssids: &[MacAddr],
    text: &[u8],
) -> Result<LentLine<'a>, LineFault>
    ensures { Gives line_of Refused result (wired_line bssids.now text.now) }
{
    let (address, frame) = split_word(text);
    let place = place_named(bssids, address)?;
    let octets = buffer.read(frame)?;
    Ok(LentLine::Wire { place, octets })
}

/// The place of the network whose address a word spells.
fn place_named(bssids: &[MacAddr], word: &[u8]) -> Result<usize, LineFault>
    ensures { result ≡ place_named bssids.now word.now }
{
    let address = address_of(word).ok_or(LineFault::NoAddress)?;
    place_with(address, bssids).ok_or(LineFault::UnknownNetwork)
}

/// The address that a word spells.
#[tactic(auto, using(crate::proofs::AddressTexts::no_address))]
fn address_of(word: &[u8]) -> Option<MacAddr>
    ensures { result ≡ address_of word.now }
{
    match str::from_utf8(word) {
        Ok(text) => MacAddr::parse_text(text),
        Err(_) => None,
    }
}

/// The place of the first network that has an address, of networks that have these in order of place, counted from 0;
/// `None` if none has it.
#[inline]
pub fn place_with(address: MacAddr, bssids: &[MacAddr]) -> Option<usize>
    ensures { result ≡ place_with address bssids.now }
{
    bssids.iter().position(|bssid| *bssid == address)
}

/// A line less the spaces at its end.
#[inline]
pub fn without_spaces_at_end(line: &[u8]) -> &[u8]
    ensures { result.now ≡ without_spaces_at_end line.now }
{
    let mut end = line.len();
    while end > 0 && line[end - 1] == b' ' {
        end -= 1;
    }
    &line[..end]
}

/// A text less the spaces at its start.
#[tactic(auto, using(crate::proofs::TraceSteps::starts))]
#[inline]
fn without_spaces_at_start(text: &[u8]) -> &[u8]
    ensures { result.now ≡ without_spaces_at_start text.now }
{
    let mut rest = text;
    while let [b' ', others @ ..] = rest {
        rest = others;
    }
    rest
}

/// Whether a line is empty or begins with `#`.
#[inline]
fn is_skipped(line: &[u8]) -> bool
    ensures { result ≡ is_skipped line.now }
{
    matches!(line, [] | [b'#', ..])
}

/// The first word of a line, and what stands after the space that ends it.
#[inline]
fn split_word(line: &[u8]) -> (&[u8], &[u8])
    ensures word { result.0.now ≡ first_word line.now }
    ensures after { result.1.now ≡ after_first_word line.now }
{
    match first_space(line) {
        Some(end) => (&line[..end], &line[end + 1..]),
        None => (line, &[]),
    }
}

/// The place of the first space of a line. It stands near the start, where `memchr` would cost more than it saves.
#[inline]
fn first_space(line: &[u8]) -> Option<usize>
    ensures { result ≡ position is_space line.now }
{
    line.iter().position(|character| *character == b' ')
}
