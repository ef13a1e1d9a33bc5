//! Trace texts that come in pieces.
//!
//! A [`LineReader`] lends the lines that end in each piece; the pieces may be cut anywhere.

ghost use Rattle.std.specs.Prelude.{◌≡◌, ◌+◌, ◌<◌, ◌≤◌, ◌++◌, List, [], ℕ, length, Err, IfOk};
ghost use Rattle.std.specs.Prelude.{IfSome, MatchResult, None, Some, Ok, OnOk, OnErr};
ghost use Rattle.std.specs.Str.Lines.{strip_carriage_return};
ghost use Rattle.text_io.specs.Endings.{Gives, IsFaultOf};
ghost use Rattle.text_io.specs.Faults.{read_ending};
ghost use Rattle.text_io.specs.Texts.{LacksLineFeed};
ghost use Rattle.trace.specs.TraceText.{bssids_of, line_of, lines_of};
ghost use Rattle.trace.specs.Pieces.{new_reader, before_line, said_in, said_last, as_list, Takes, after_line};
ghost use Rattle.trace.specs.Pieces.{AreTakenSoFar, AreTaken, Remains, EndsPiece};
ghost use Rattle.ap_config.specs.declared.config.RadioConfig.{RadioConfig};
ghost use Rattle.trace.specs.declared.fault.TraceFault.{TraceFault};
ghost use Rattle.trace.specs.Pieces.{answer_to, answer_to_end, after_piece, after_end, past, past_end, Leaves, keeping};

use crate::fault::{LineFault, TraceFault, TraceTextFault};
use crate::line::read_line;
use crate::line_buffer::LineBuffer;
use crate::take_lines::{OwnedLines, TakeLines};
use crate::take_text::{TakeText, cut_text};
use ap_config::RadioConfig;
use events::Line;
use mac_frame::{MacAddr, NoMemory};
use std::alloc::Global;
use std::marker::Model;
use text_io::{ReadFault, without_carriage_return};

/// The most lines of a text.
const MAX_LINES: u32 = 1_000_000;

/// Reads a trace text that comes in pieces, which may be cut anywhere: within a line, or between the CR and the LF that
/// end it. Contracts see the addresses of the networks in order of place, how many lines have ended, the octets of the
/// line that has not, and the fault that it met, if it met one.
#[derive(Drop)]
pub struct LineReader {
    alloc: Global,
    bssids: Vec<MacAddr>,
    ended_lines: u32,
    unfinished: Vec<u8>,
    fault: Option<TraceFault>,
    buffer: LineBuffer,
}

impl Model for LineReader {
    ghost use Rattle.std.specs.Prelude.{◌<◌, ◌≤◌, length};
    ghost use Rattle.text_io.specs.Texts.{LacksLineFeed};
    ghost use Rattle.trace.specs.TraceText.{max_lines};
    ghost use Rattle.trace.specs.Pieces.{ReaderView};

    ghost Value = { ReaderView };

    ghost view = { λ r. record {
      bssids = r.bssids.items;
      ended_lines = r.ended_lines;
      unfinished = r.unfinished.items;
      fault = r.fault;
    } };

    ghost invariant = { λ r. LacksLineFeed r.unfinished.items
        × (r.ended_lines ≤ max_lines)
        × (0 < length r.unfinished.items → r.ended_lines < max_lines) };
}

impl LineReader {
    /// The reader of a text of which nothing came, for the networks of a configuration. `NoMemory` if memory ran
    /// out.
    pub fn new(alloc: Global, config: &RadioConfig) -> Result<LineReader, NoMemory>
        ensures { IfOk result (λ reader. reader ≡ new_reader (bssids_of config.now)) }
    {
        Ok(LineReader {
            alloc,
            bssids: config.bssids(alloc)?,
            ended_lines: 0,
            unfinished: Vec::new(alloc),
            fault: None,
            buffer: LineBuffer::new(alloc)?,
        })
    }

    /// Takes the next piece of the text, and lends what the lines say that end in it, one after another. The first of
    /// them may have begun before the piece. What follows the last LF becomes the unfinished line. It takes memory for
    /// that alone.
    ///
    /// A line with a fault is the answer, and none after it is lent; those before it were. An octet after 1,000,000
    /// lines is `L5` in the line after them, whatever it is. From then on each call answers the same fault. `NoMemory`
    /// if memory ran out, here or with whoever takes the lines; of the reader nothing is known then.
    pub fn take_piece<T: TakeLines>(
        &mut self,
        piece: &[u8],
        lines: &mut T,
    ) -> Result<(), TraceTextFault>
        ensures all { (c : RadioConfig) (text : List ℕ)
            → AreTakenSoFar c text self.old (λ said. T.has_taken c said lines.old) → MatchResult result
            (λ _. AreTakenSoFar c (text ++ piece.now) self.new (λ said. T.has_taken c said lines.new))
            (λ fault. IsFaultOf (lines_of c (text ++ piece.now)) (read_ending fault)) }
        ensures met { IfSome self.old.fault (λ met. result ≡ Err (ReadFault.At met)) }
        ensures stays { (met : TraceFault) → result ≡ Err (ReadFault.At met) → self.new.fault ≡ Some met }
    {
        self.take_unless_met(piece, lines)
    }

    /// Ends the text, and lends what the unfinished line says, of which no CR is dropped; nothing if it is empty or
    /// skipped. It is empty then, and if it was not it counts as one more that ended.
    ///
    /// A line with a fault gives its first, and so does each call from then on. `NoMemory` if whoever takes the line
    /// has none; the reader is then as it was.
    pub fn take_end<T: TakeLines>(&mut self, lines: &mut T) -> Result<(), TraceTextFault>
        ensures takes { Takes result (as_list (answer_to_end self.old))
            (λ c said. T.has_taken c said lines.old) (λ c said. T.has_taken c said lines.new) }
        ensures after { Leaves result self.old (after_end self.old) self.new }
        ensures met { IfSome self.old.fault (λ met. result ≡ Err (ReadFault.At met)) }
        ensures all { (c : RadioConfig) (text : List ℕ)
            → AreTakenSoFar c text self.old (λ said. T.has_taken c said lines.old) → MatchResult result
            (λ _. AreTaken c text (λ said. T.has_taken c said lines.new))
            (λ fault. IsFaultOf (lines_of c text) (read_ending fault)) }
    {
        self.end_unless_met(lines)
    }

    /// Takes a text that is there whole, and lends, one after another, what its lines say.
    ///
    /// A text with a fault gives the first; the lines before it were lent. `NoMemory` if memory ran out, here or with
    /// whoever takes the lines.
    pub fn take_text<T: TakeLines>(
        mut self,
        text: &[u8],
        lines: &mut T,
    ) -> Result<(), TraceTextFault>
        ensures { (c : RadioConfig) → self ≡ new_reader (bssids_of c) → T.has_taken c [] lines.old → MatchResult result
            (λ _. AreTaken c text.now (λ said. T.has_taken c said lines.new))
            (λ fault. IsFaultOf (lines_of c text.now) (read_ending fault)) }
    {
        self.take_piece(text, lines)?;
        self.take_end(lines)
    }

    /// Takes the next piece of the text, and gives what the lines say that end in it, each with memory of its own.
    ///
    /// A piece is judged whole: if a line that ends in it has a fault, that is the answer, as [`Self::take_piece`]
    /// tells it, and the lines before it are not given. From then on each call answers the same fault, and takes no
    /// memory. `NoMemory` if memory ran out; the reader is then as it was, and the piece counts as not taken.
    pub fn feed(&mut self, piece: &[u8]) -> Result<Vec<Line>, TraceTextFault>
        ensures exact { Gives (λ lines. lines.items) read_ending result (answer_to self.old piece.now) }
        ensures after { Leaves result self.old (after_piece self.old piece.now) self.new }
        ensures met { IfSome self.old.fault (λ met. result ≡ Err (ReadFault.At met)) }
    {
        if let Some(fault) = self.fault {
            return Err(ReadFault::At(fault));
        }
        let read = self.read_piece(piece);
        self.keep_fault(&read);
        read
    }

    /// Ends the text as [`Self::take_end`] does, and gives the line with memory of its own. `NoMemory` if memory ran
    /// out; the reader is then as it was.
    pub fn end(&mut self) -> Result<Option<Line>, TraceTextFault>
        ensures exact { Gives (λ said. said) read_ending result (answer_to_end self.old) }
        ensures after { Leaves result self.old (after_end self.old) self.new }
        ensures met { IfSome self.old.fault (λ met. result ≡ Err (ReadFault.At met)) }
    {
        let mut owned = OwnedLines::new(self.alloc);
        self.take_end(&mut owned)?;
        Ok(owned.lines.pop())
    }

    /// Takes the next piece, unless there was a fault.
    #[inline(always)]
    fn take_unless_met<T: TakeLines>(
        &mut self,
        piece: &[u8],
        lines: &mut T,
    ) -> Result<(), TraceTextFault>
        ensures takes { Takes result (answer_to self.old piece.now)
            (λ c said. T.has_taken c said lines.old) (λ c said. T.has_taken c said lines.new) }
        ensures after { OnOk result (self.new ≡ after_piece self.old piece.now) }
        ensures met { IfSome self.old.fault (λ met. result ≡ Err (ReadFault.At met)) }
        ensures stays { (met : TraceFault) → result ≡ Err (ReadFault.At met) → self.new.fault ≡ Some met }
    {
        if let Some(fault) = self.fault {
            return Err(ReadFault::At(fault));
        }
        let taken = self.take_lines(piece, lines);
        self.keep_fault(&taken);
        taken
    }

    /// Ends the text, unless there was a fault.
    fn end_unless_met<T: TakeLines>(&mut self, lines: &mut T) -> Result<(), TraceTextFault>
        ensures takes { Takes result (as_list (answer_to_end self.old))
            (λ c said. T.has_taken c said lines.old) (λ c said. T.has_taken c said lines.new) }
        ensures after { Leaves result self.old (after_end self.old) self.new }
        ensures met { IfSome self.old.fault (λ met. result ≡ Err (ReadFault.At met)) }
    {
        if let Some(fault) = self.fault {
            return Err(ReadFault::At(fault));
        }
        let taken = self.take_last(lines);
        self.keep_fault(&taken);
        taken
    }

    /// Keeps the fault that a call met.
    #[inline(always)]
    fn keep_fault<T>(&mut self, read: &Result<T, TraceTextFault>)
        ensures { self.new ≡ keeping read.now self.old }
    {
        if let Err(ReadFault::At(fault)) = read {
            self.fault = Some(*fault);
        }
    }

    /// What the lines say that end in a piece. If there is a fault or memory ran out, the reader is as it was.
    fn read_piece(&mut self, piece: &[u8]) -> Result<Vec<Line>, TraceTextFault>
        requires { LacksLineFeed self.old.unfinished }
        ensures exact { Gives (λ lines. lines.items) read_ending result
            (said_in self.old (self.old.unfinished ++ piece.now)) }
        ensures ok { OnOk result (self.new ≡ past self.old (self.old.unfinished ++ piece.now)) }
        ensures err { OnErr result (self.new ≡ self.old) }
    {
        let ended_lines = self.ended_lines;
        let unfinished = Vec::from_slice(self.alloc, self.unfinished.as_slice())?;
        let mut owned = OwnedLines::new(self.alloc);
        match self.take_lines(piece, &mut owned) {
            Ok(()) => Ok(owned.lines),
            Err(fault) => {
                self.ended_lines = ended_lines;
                self.unfinished = unfinished;
                Err(fault)
            }
        }
    }

    /// Lends what the lines say that end in a piece. The reader goes on to the line after them.
    fn take_lines<T: TakeLines>(
        &mut self,
        piece: &[u8],
        lines: &mut T,
    ) -> Result<(), TraceTextFault>
        requires { LacksLineFeed self.old.unfinished }
        ensures takes { Takes result (said_in self.old (self.old.unfinished ++ piece.now))
            (λ c said. T.has_taken c said lines.old) (λ c said. T.has_taken c said lines.new) }
        ensures ok { OnOk result (self.new ≡ past self.old (self.old.unfinished ++ piece.now)) }
        ensures keeps { self.new ≡ record self.old
            { ended_lines = self.new.ended_lines; unfinished = self.new.unfinished } }
    {
        cut_text(self, piece, lines, &mut ())
    }

    /// Lends what a line says of which nothing came before these octets and an LF. The reader stays at that line.
    #[inline(always)]
    fn take_unbroken<T: TakeLines>(
        &mut self,
        octets: &[u8],
        lines: &mut T,
    ) -> Result<(), TraceTextFault>
        ensures takes { Takes result (as_list (line_of self.old.bssids (self.old.ended_lines + 1)
            (strip_carriage_return octets.now)))
            (λ c said. T.has_taken c said lines.old) (λ c said. T.has_taken c said lines.new) }
        ensures within { OnOk result (self.old.ended_lines < MAX_LINES) }
        ensures keeps { self.new ≡ self.old }
    {
        let line = without_carriage_return(octets);
        let number = self.ended_lines + 1;
        take_numbered(
            &mut self.buffer,
            self.bssids.as_slice(),
            number,
            line,
            lines,
        )
    }

    /// The same if some of the line came before. It is put together in the memory that it stands in already.
    fn take_joined<T: TakeLines>(
        &mut self,
        octets: &[u8],
        lines: &mut T,
    ) -> Result<(), TraceTextFault>
        requires some { 0 < length self.old.unfinished }
        requires unfinished { LacksLineFeed self.old.unfinished }
        requires lacks { LacksLineFeed octets.now }
        ensures takes { Takes result (as_list (line_of self.old.bssids (self.old.ended_lines + 1)
            (strip_carriage_return (self.old.unfinished ++ octets.now))))
            (λ c said. T.has_taken c said lines.old) (λ c said. T.has_taken c said lines.new) }
        ensures within { OnOk result (self.old.ended_lines < MAX_LINES) }
        ensures keeps { self.new ≡ record self.old { unfinished = self.new.unfinished } }
    {
        self.unfinished.extend_from_slice(octets)?;
        take_numbered(
            &mut self.buffer,
            self.bssids.as_slice(),
            self.ended_lines + 1,
            without_carriage_return(self.unfinished.as_slice()),
            lines,
        )
    }

    /// Adds a piece in which no line ends to the unfinished line.
    fn hold(&mut self, piece: &[u8]) -> Result<(), TraceTextFault>
        requires { LacksLineFeed piece.now }
        ensures exact { Gives (λ _. []) read_ending result
            (before_line (self.old.ended_lines + 1) (self.old.unfinished ++ piece.now) []) }
        ensures ok { OnOk result (self.new ≡ record self.old { unfinished = self.old.unfinished ++ piece.now }) }
        ensures err { OnErr result (self.new ≡ self.old) }
    {
        may_begin(self.ended_lines, piece)?;
        self.unfinished.extend_from_slice(piece)?;
        Ok(())
    }

    /// Lends what the unfinished line says at the end of the text. The reader goes on past it, unless it has a fault.
    fn take_last<T: TakeLines>(&mut self, lines: &mut T) -> Result<(), TraceTextFault>
        ensures takes { Takes result
            (as_list (said_last self.old.bssids (self.old.ended_lines + 1) self.old.unfinished))
            (λ c said. T.has_taken c said lines.old) (λ c said. T.has_taken c said lines.new) }
        ensures ok { OnOk result (self.new ≡ past_end self.old) }
        ensures err { OnErr result (self.new ≡ self.old) }
    {
        if self.unfinished.is_empty() {
            return Ok(());
        }
        take_numbered(
            &mut self.buffer,
            self.bssids.as_slice(),
            self.ended_lines + 1,
            self.unfinished.as_slice(),
            lines,
        )?;
        self.go_on();
        Ok(())
    }

    /// Goes on to the line after the unfinished one, which has ended.
    #[inline]
    fn go_on(&mut self)
        requires { self.old.ended_lines < MAX_LINES }
        ensures { self.new ≡ after_line self.old }
    {
        self.ended_lines += 1;
        self.unfinished.clear();
    }
}

impl<T: TakeLines> TakeText<T, ()> for LineReader {
    type Fault = TraceTextFault;

    ghost remains = { λ first was _ piece reader is _ rest. Remains first piece reader rest
        (λ c said. T.has_taken c said was) (λ c said. T.has_taken c said is) };

    ghost ends = { λ first was _ piece result reader is _. EndsPiece result first piece reader
        (λ c said. T.has_taken c said was) (λ c said. T.has_taken c said is) };

    #[inline(always)]
    fn end_line(&mut self, octets: &[u8], lines: &mut T, _: &mut ()) -> Result<(), TraceTextFault> {
        if self.unfinished.is_empty() {
            self.take_unbroken(octets, lines)?;
            self.go_on();
            Ok(())
        } else {
            self.take_joined(octets, lines)?;
            self.go_on();
            Ok(())
        }
    }

    #[inline(always)]
    fn hold_on(&mut self, octets: &[u8]) -> Result<(), TraceTextFault> {
        self.hold(octets)
    }
}

/// Lends what the line of a number says.
#[inline(always)]
fn take_numbered<T: TakeLines>(
    buffer: &mut LineBuffer,
    bssids: &[MacAddr],
    number: u32,
    line: &[u8],
    lines: &mut T,
) -> Result<(), TraceTextFault>
    ensures takes { Takes result (as_list (line_of bssids.now number line.now))
        (λ c said. T.has_taken c said lines.old) (λ c said. T.has_taken c said lines.new) }
    ensures within { OnOk result (number ≤ MAX_LINES) }
    ensures skipped { line_of bssids.now number line.now ≡ Ok None → result ≡ Ok tt }
{
    if number > MAX_LINES {
        return Err(ReadFault::At(LineFault::TooMany.at(number)));
    }
    match read_line(buffer, bssids, line) {
        Ok(Some(said)) => Ok(lines.take_line(said)?),
        Ok(None) => Ok(()),
        Err(fault) => Err(ReadFault::At(fault.at(number))),
    }
}

/// Whether a line may begin with these octets after those that have ended: the fault of a line too many, if there is
/// an octet.
#[inline]
fn may_begin(ended_lines: u32, octets: &[u8]) -> Result<(), TraceTextFault>
    requires { ended_lines ≤ MAX_LINES }
    ensures exact { Gives (λ _. []) read_ending result (before_line (ended_lines + 1) octets.now []) }
    ensures room { OnOk result (0 < length octets.now → ended_lines < MAX_LINES) }
{
    if ended_lines == MAX_LINES && !octets.is_empty() {
        return Err(ReadFault::At(LineFault::TooMany.at(ended_lines + 1)));
    }
    Ok(())
}
