//! Texts by their octets: what each reader of lines asks.

ghost use Rattle.std.specs.Prelude.{◌≡◌, ◌==◌, position};
ghost use Rattle.std.specs.Str.Lines.{strip_carriage_return};

use memchr::memchr;

/// The place of the first octet of a text that is this one, counted from 0; `None` if it has none.
pub fn place_of(octet: u8, text: &[u8]) -> Option<usize>
    ensures { result ≡ position (λ c. c == octet) text.now }
{
    memchr(octet, text)
}

/// A line less the CR at its end, if it has one.
#[inline]
pub fn without_carriage_return(line: &[u8]) -> &[u8]
    ensures { result.now ≡ strip_carriage_return line.now }
{
    match line {
        [prefix @ .., b'\r'] => prefix,
        _ => line,
    }
}
