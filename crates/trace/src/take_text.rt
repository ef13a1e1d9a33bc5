//! A text that comes in pieces, which are cut into lines.

ghost use Rattle.std.specs.Prelude.{◌++◌, ◌<◌, ◌+◌, ◌≡◌, List, ℕ, Result, MatchResult, Ok, Err, length, drop};
ghost use Rattle.text_io.specs.Texts.{LacksLineFeed, ended};

use text_io::place_of;

/// Who takes a text that comes in pieces, line by line, and keeps what came of the line that has not ended (*profile*).
/// What the lines say goes to `lines`, and what is answered to them to `out`.
pub trait TakeText<L, O> {
    /// Why it takes no more.
    type Fault;

    // Since these stood so, a piece was to be taken, and now they stand so, and this rest of it is to be taken.
    ghost remains: { Self → L → O → List ℕ → Self → L → O → List ℕ → Type 0 };

    // Since these stood so, a piece was to be taken, which ended with this answer, and now they stand so.
    ghost ends: { Self → L → O → List ℕ → Result Unit Self.Fault → Self → L → O → Type 0 };

    /// Takes the octets before the next LF, and that LF, which ends a line. A fault ends the text.
    fn end_line(&mut self, octets: &[u8], lines: &mut L, out: &mut O) -> Result<(), Self::Fault>
        requires lacks { LacksLineFeed octets.now }
        requires some { (first : Self) × (l : L) × (o : O) × (piece later : List ℕ)
            × remains first l o piece self.old lines.old out.old (ended octets.now ++ later) }
        ensures { (first : Self) (l : L) (o : O) (piece later : List ℕ)
            → remains first l o piece self.old lines.old out.old (ended octets.now ++ later) → MatchResult result
            (λ _. remains first l o piece self.new lines.new out.new later)
            (λ fault. ends first l o piece (Err fault) self.new lines.new out.new) };

    /// Takes octets after the last LF, with which no line ends.
    fn hold_on(&mut self, octets: &[u8]) -> Result<(), Self::Fault>
        requires lacks { LacksLineFeed octets.now }
        ensures { (first : Self) (l is : L) (o to : O) (piece : List ℕ)
            → remains first l o piece self.old is to octets.now → ends first l o piece result self.new is to };
}

/// Has `part` take a piece of a text: each line that ends in it, in order, and then what stands after the last LF. The
/// first fault is the answer, and nothing after that line is taken. It takes no memory itself.
#[inline(always)]
pub fn cut_text<P: TakeText<L, O>, L, O>(
    part: &mut P,
    piece: &[u8],
    lines: &mut L,
    out: &mut O,
) -> Result<(), P::Fault>
    requires { (first : P) × (l : L) × (o : O) × (whole : List ℕ)
        × P.remains first l o whole part.old lines.old out.old piece.now }
    ensures { (first : P) (l : L) (o : O) (whole : List ℕ)
        → P.remains first l o whole part.old lines.old out.old piece.now
        → P.ends first l o whole result part.new lines.new out.new }
{
    let mut rest = piece;
    while let Some(end) = place_of(b'\n', rest) {
        if let Err(fault) = part.end_line(&rest[..end], lines, out) {
            return Err(fault);
        }
        rest = text_after(rest, end);
    }
    part.hold_on(rest)
}

/// What stands after the octet at a place.
#[inline(always)]
fn text_after(text: &[u8], place: usize) -> &[u8]
    requires { place < length text.now }
    ensures rest { result.now ≡ drop (place + 1) text.now }
    ensures shorter { length result.now < length text.now }
{
    &text[place + 1..]
}
