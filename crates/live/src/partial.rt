//! A partial line, of which more is to come.

ghost use Rattle.std.specs.Prelude.{◌≡◌, ◌↔◌, [], IfOk, IsTrue, option_map};
ghost use Rattle.text_io.specs.Texts.{LacksLineFeed};
ghost use Rattle.live.specs.PartialLine.{IsUnended, ended_with, line_in, whole_with};
ghost use Rattle.live_rules.specs.TextLines.{Octets, line_with, partial_after};

use mac_frame::NoMemory;
use std::alloc::Global;
use std::marker::Model;
use text_io::without_carriage_return;

/// The most octets of a line, without the LF that ends it and one CR before that.
const MAX_LINE: usize = 65_536;

/// The most octets that are kept of a partial line: as many, and a CR that may be dropped.
const MAX_PARTIAL: usize = 65_537;

/// What came of a line that has not ended, in memory that was taken when it was made. Contracts see its octets, or that
/// they are too many.
#[derive(Drop)]
pub struct PartialLine {
    octets: Vec<u8>,
    too_long: bool,
}

impl Model for PartialLine {
    ghost use Rattle.std.specs.Prelude.{◌≤◌, length, vec_len, vec_capacity, if◌then◌else◌};
    ghost use Rattle.text_io.specs.Texts.{LacksLineFeed};
    ghost use Rattle.live_rules.specs.TextLines.{TextLine, Octets, TooLong};

    ghost Value = { TextLine };

    ghost view = { λ b. if b.too_long then TooLong else Octets b.octets.items };

    ghost invariant = { λ b. LacksLineFeed b.octets.items
        × (vec_len b.octets ≤ 65537) × (65537 ≤ vec_capacity b.octets) };
}

impl PartialLine {
    /// A line of which nothing came. `NoMemory` if memory ran out.
    pub fn new(alloc: Global) -> Result<PartialLine, NoMemory>
        ensures { IfOk result (λ partial. partial ≡ Octets []) }
    {
        Ok(PartialLine {
            octets: Vec::with_capacity(alloc, MAX_PARTIAL)?,
            too_long: false,
        })
    }

    /// More octets came of it, none of which is an LF. It takes no memory, and keeps none of a line that is too long.
    pub fn add(&mut self, octets: &[u8])
        requires { LacksLineFeed octets.now }
        ensures after { self.new ≡ partial_after self.old octets.now }
        ensures unended { IsUnended self.old }
    {
        if self.too_long {
            return;
        }
        if octets.len() > MAX_PARTIAL - self.octets.len() {
            self.octets.clear();
            self.too_long = true;
            return;
        }
        self.octets.extend_from_slice(octets).unwrap();
    }

    /// The next line begins, of which nothing came.
    pub fn begin(&mut self)
        ensures { self.new ≡ Octets [] }
    {
        self.octets.clear();
        self.too_long = false;
    }

    /// Whether nothing came of it.
    pub fn is_empty(&self) -> bool
        ensures { IsTrue result ↔ (self.now ≡ Octets []) }
    {
        !self.too_long && self.octets.is_empty()
    }

    /// The line, if an LF ends it: less a CR at its end. `None` if it is too long.
    pub fn ended(&self) -> Option<&[u8]>
        ensures { line_in (option_map (λ octets. octets.now) result) ≡ ended_with self.now [] }
    {
        if self.too_long {
            return None;
        }
        ended_line(self.octets.as_slice())
    }

    /// The line, if the text ends it. `None` if it is too long.
    pub fn whole(&self) -> Option<&[u8]>
        ensures { line_in (option_map (λ octets. octets.now) result) ≡ whole_with self.now }
    {
        if self.too_long {
            return None;
        }
        line_of(self.octets.as_slice())
    }
}

/// The line that these octets and an LF are: less a CR at its end. `None` if it is too long.
pub fn ended_line(octets: &[u8]) -> Option<&[u8]>
    ensures { line_in (option_map (λ octets. octets.now) result) ≡ ended_with (Octets []) octets.now }
{
    line_of(without_carriage_return(octets))
}

/// A line of these octets. `None` if they are too many.
fn line_of(octets: &[u8]) -> Option<&[u8]>
    ensures { line_in (option_map (λ octets. octets.now) result) ≡ line_with octets.now }
{
    (octets.len() <= MAX_LINE).then_some(octets)
}
