//! Why an access point could not be finished (*profile*).

ghost use Rattle.std.specs.Prelude.{◌≡◌};
ghost use Rattle.play.specs.declared.finish_fault.FinishFault.TheVariants as faults;

use mac_frame::NoMemory;
use std::alloc::{AllocError, AllocFailed};
use std::fmt;

/// Why an access point could not be finished. Its parts are gone then (*profile*).
#[derive(Clone, Copy, Debug, PartialEq, Eq)]
pub enum FinishFault {
    /// F1: memory ran out.
    NoMemory,
    /// F2: a receipt's place, number or event is not there, another receipt repeats it, or the numbers of a caller's
    /// receipts from one network don't rise; or a network was not at its place, which no test has met.
    BadReceipt,
    /// F3: no receipt tells of an event of a history.
    Uncovered,
    /// F4: a caller was told that a network is full which is not, or which it has a later receipt from.
    FullEarly,
}

impl From<NoMemory> for FinishFault {
    ghost from_gives = { λ _ fault. fault ≡ faults.NoMemory };

    fn from(_e: NoMemory) -> FinishFault {
        FinishFault::NoMemory
    }
}

impl From<AllocError> for FinishFault {
    ghost from_gives = { λ _ fault. fault ≡ faults.NoMemory };

    fn from(_e: AllocError) -> FinishFault {
        FinishFault::NoMemory
    }
}

impl<T: Drop> From<AllocFailed<T>> for FinishFault {
    ghost from_gives = { λ _ fault. fault ≡ faults.NoMemory };

    fn from(_e: AllocFailed<T>) -> FinishFault {
        FinishFault::NoMemory
    }
}

/// The fault as a user meets it, `F1` to `F4`.
impl fmt::Display for FinishFault {
    fn fmt<W: fmt::Write>(&self, f: &mut fmt::Formatter<W>) -> fmt::Result {
        f.write_str(match self {
            FinishFault::NoMemory => "F1",
            FinishFault::BadReceipt => "F2",
            FinishFault::Uncovered => "F3",
            FinishFault::FullEarly => "F4",
        })
    }
}
