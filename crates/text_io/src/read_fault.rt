//! Why a text is not read.

ghost use Rattle.std.specs.Prelude.{◌≡◌};
ghost use Rattle.text_io.specs.declared.read_fault.ReadFault.TheVariants as faults;

use mac_frame::NoMemory;
use std::alloc::{AllocError, AllocFailed};

/// Why a text is not read, whose faults are of this type.
#[derive(Clone, Copy, Debug, PartialEq, Eq)]
pub enum ReadFault<F> {
    /// The text has this fault, and none before it.
    At(F),
    /// Memory ran out, which says nothing of the text.
    NoMemory,
}

impl<F> From<NoMemory> for ReadFault<F> {
    ghost from_gives = { λ _ fault. fault ≡ faults.NoMemory };

    fn from(_refused: NoMemory) -> ReadFault<F> {
        ReadFault::NoMemory
    }
}

impl<F> From<AllocError> for ReadFault<F> {
    ghost from_gives = { λ _ fault. fault ≡ faults.NoMemory };

    fn from(_refused: AllocError) -> ReadFault<F> {
        ReadFault::NoMemory
    }
}

impl<F, T: Drop> From<AllocFailed<T>> for ReadFault<F> {
    ghost from_gives = { λ _ fault. fault ≡ faults.NoMemory };

    fn from(_refused: AllocFailed<T>) -> ReadFault<F> {
        ReadFault::NoMemory
    }
}
