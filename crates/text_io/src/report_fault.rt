//! Why a text is not written.

ghost use Rattle.std.specs.Prelude.{◌≡◌};
ghost use Rattle.text_io.specs.declared.report_fault.ReportFault.TheVariants.{Write, NoMemory};

use crate::sink::Failed;
use std::alloc::AllocError;

/// Why a report could not be written.
#[derive(Clone, Copy, Debug, PartialEq, Eq)]
pub enum ReportFault {
    /// A write failed.
    Write,
    /// Memory ran out.
    NoMemory,
}

impl From<Failed> for ReportFault {
    ghost from_gives = { λ _ fault. fault ≡ Write };

    fn from(_failed: Failed) -> ReportFault {
        ReportFault::Write
    }
}

impl From<AllocError> for ReportFault {
    ghost from_gives = { λ _ fault. fault ≡ NoMemory };

    fn from(_e: AllocError) -> ReportFault {
        ReportFault::NoMemory
    }
}
