//! Why a text is no trace.

ghost use Rattle.std.specs.Prelude.{◌≡◌};
ghost use Rattle.trace.specs.TraceText.{code_of, fault_in};

use std::fmt;
use text_io::ReadFault;

/// The first fault of a trace text.
#[derive(Clone, Copy, Debug, PartialEq, Eq)]
pub struct TraceFault {
    /// Which fault: 1 to 5, for `L1` to `L5`.
    pub code: u8,
    /// The number of its line, counted from 1.
    pub line: u32,
}

/// The fault as a user meets it, as in `L2 line 7`.
impl fmt::Display for TraceFault {
    fn fmt<W: fmt::Write>(&self, f: &mut fmt::Formatter<W>) -> fmt::Result {
        let TraceFault { code, line } = *self;
        write!(f, "L{code} line {line}")
    }
}

/// Why a trace text is not read.
pub type TraceTextFault = ReadFault<TraceFault>;

/// The first fault of a line.
#[derive(Clone, Copy, Debug)]
pub enum LineFault {
    /// Its first word is no kind of line, or something follows `T`.
    UnknownKind,
    /// Its string is not pairs of hexadecimal digits.
    NotHexadecimal,
    /// No address stands where one of a network should.
    NoAddress,
    /// No network has the address.
    UnknownNetwork,
    /// Its string has too many octets, or its text too many lines.
    TooMany,
}

impl LineFault {
    /// The number of its code, as a user meets it: 1 to 5, for `L1` to `L5`.
    pub fn code(self) -> u8
        ensures { result ≡ code_of self }
    {
        match self {
            LineFault::UnknownKind => 1,
            LineFault::NotHexadecimal => 2,
            LineFault::NoAddress => 3,
            LineFault::UnknownNetwork => 4,
            LineFault::TooMany => 5,
        }
    }

    /// The fault in the line of this number.
    pub fn at(self, line: u32) -> TraceFault
        ensures { result ≡ fault_in line self }
    {
        TraceFault {
            code: self.code(),
            line,
        }
    }
}
