//! Why several texts could not be played.

ghost use Rattle.std.specs.Prelude.{◌≡◌};
ghost use Rattle.text_io.specs.Faults.{read_as, report_as};
ghost use Rattle.play_text.specs.Playing.{of_play};
ghost use Rattle.play_text.specs.declared.fault.PlayTextFault.TheVariants as faults;

use ap_config::ConfigFault;
use config_text::ConfigTextFault;
use play::{FinishFault, PlayFault};
use std::alloc::{AllocError, AllocFailed};
use text_io::ReportFault;
use trace::TraceFault;

/// Why a configuration's text and the texts of several traces could not be played. Of several faults it is the first in
/// this order, but `NoMemory`, which may come at any point.
#[derive(Clone, Copy, Debug, PartialEq, Eq)]
pub enum PlayTextFault {
    /// The first fault of the configuration.
    Config(ConfigFault),
    /// Not 1 to 64 traces.
    Sources,
    /// The first trace that has a fault, if the configuration has none.
    Trace {
        /// The trace's place, from 0.
        source: usize,
        /// Its first fault.
        fault: TraceFault,
    },
    /// A thread could not be started.
    NoThread,
    /// Memory ran out.
    NoMemory,
    /// The access point could not be finished.
    Finish(FinishFault),
    /// A write failed.
    Write,
}

impl From<ConfigTextFault> for PlayTextFault {
    ghost from_gives = { λ fault given. given ≡ read_as faults.Config faults.NoMemory fault };

    fn from(fault: ConfigTextFault) -> PlayTextFault {
        match fault {
            ConfigTextFault::At(fault) => PlayTextFault::Config(fault),
            ConfigTextFault::NoMemory => PlayTextFault::NoMemory,
        }
    }
}

impl From<PlayFault> for PlayTextFault {
    ghost from_gives = { λ fault given. given ≡ of_play fault };

    fn from(fault: PlayFault) -> PlayTextFault {
        match fault {
            PlayFault::Config(fault) => PlayTextFault::Config(fault),
            PlayFault::Sources => PlayTextFault::Sources,
            PlayFault::NoThread => PlayTextFault::NoThread,
            PlayFault::NoMemory => PlayTextFault::NoMemory,
            PlayFault::Finish(fault) => PlayTextFault::Finish(fault),
        }
    }
}

impl From<ReportFault> for PlayTextFault {
    ghost from_gives = { λ fault given. given ≡ report_as faults.Write faults.NoMemory fault };

    fn from(fault: ReportFault) -> PlayTextFault {
        match fault {
            ReportFault::Write => PlayTextFault::Write,
            ReportFault::NoMemory => PlayTextFault::NoMemory,
        }
    }
}

impl From<AllocError> for PlayTextFault {
    ghost from_gives = { λ _ given. given ≡ faults.NoMemory };

    fn from(_e: AllocError) -> PlayTextFault {
        PlayTextFault::NoMemory
    }
}

impl<T: Drop> From<AllocFailed<T>> for PlayTextFault {
    ghost from_gives = { λ _ given. given ≡ faults.NoMemory };

    fn from(_e: AllocFailed<T>) -> PlayTextFault {
        PlayTextFault::NoMemory
    }
}
