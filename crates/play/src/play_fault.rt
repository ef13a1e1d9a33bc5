//! Why several sources could not be played (*profile*).

ghost use Rattle.std.specs.Prelude.{◌≡◌};
ghost use Rattle.play.specs.Faults.{IsLater};
ghost use Rattle.play.specs.declared.play_fault.PlayFault.TheVariants as faults;

use crate::finish_fault::FinishFault;
use ap_config::{ConfigFault, OpenFault};
use mac_frame::NoMemory;
use std::alloc::{AllocError, AllocFailed};
use std::thread::SpawnError;

/// Why sources could not be played (*profile*). Of several faults it is the first in this order.
#[derive(Clone, Copy, Debug, PartialEq, Eq)]
pub enum PlayFault {
    /// The first fault of the configuration.
    Config(ConfigFault),
    /// Not 1 to 64 sources.
    Sources,
    /// A thread could not be started.
    NoThread,
    /// The program or a network ran out of memory.
    NoMemory,
    /// The access point could not be finished.
    Finish(FinishFault),
}

impl From<OpenFault> for PlayFault {
    ghost use Rattle.play.specs.Faults.{play_fault_of};

    ghost from_gives = { λ opening fault. fault ≡ play_fault_of opening };

    fn from(fault: OpenFault) -> PlayFault {
        match fault {
            OpenFault::Config(fault) => PlayFault::Config(fault),
            OpenFault::Callers => PlayFault::Sources,
            OpenFault::NoMemory => PlayFault::NoMemory,
        }
    }
}

impl From<FinishFault> for PlayFault {
    ghost from_gives = { λ _ fault. IsLater fault };

    fn from(fault: FinishFault) -> PlayFault {
        match fault {
            FinishFault::NoMemory => PlayFault::NoMemory,
            _ => PlayFault::Finish(fault),
        }
    }
}

impl From<NoMemory> for PlayFault {
    ghost from_gives = { λ _ fault. fault ≡ faults.NoMemory };

    fn from(_e: NoMemory) -> PlayFault {
        PlayFault::NoMemory
    }
}

impl From<AllocError> for PlayFault {
    ghost from_gives = { λ _ fault. fault ≡ faults.NoMemory };

    fn from(_e: AllocError) -> PlayFault {
        PlayFault::NoMemory
    }
}

impl<T: Drop> From<AllocFailed<T>> for PlayFault {
    ghost from_gives = { λ _ fault. fault ≡ faults.NoMemory };

    fn from(_e: AllocFailed<T>) -> PlayFault {
        PlayFault::NoMemory
    }
}

impl<F: Drop> From<SpawnError<F>> for PlayFault {
    ghost from_gives = { λ _ fault. fault ≡ faults.NoThread };

    fn from(_refused: SpawnError<F>) -> PlayFault {
        PlayFault::NoThread
    }
}
