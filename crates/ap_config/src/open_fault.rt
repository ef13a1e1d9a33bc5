//! Why an access point was not opened.

ghost use Rattle.std.specs.Prelude.{◌≡◌};
ghost use Rattle.ap_config.specs.declared.open_fault.OpenFault.TheVariants as faults;

use crate::config::ConfigFault;
use mac_frame::NoMemory;
use std::alloc::AllocError;

/// Why an access point was not opened.
#[derive(Clone, Copy, Debug, PartialEq, Eq)]
pub enum OpenFault {
    /// The first fault of the configuration.
    Config(ConfigFault),
    /// Not 1 to 64 callers (*profile*). Only an access point whose networks run at the same time has callers.
    Callers,
    /// Memory ran out.
    NoMemory,
}

impl From<NoMemory> for OpenFault {
    ghost from_gives = { λ _ fault. fault ≡ faults.NoMemory };

    fn from(_e: NoMemory) -> OpenFault {
        OpenFault::NoMemory
    }
}

impl From<AllocError> for OpenFault {
    ghost from_gives = { λ _ fault. fault ≡ faults.NoMemory };

    fn from(_e: AllocError) -> OpenFault {
        OpenFault::NoMemory
    }
}
