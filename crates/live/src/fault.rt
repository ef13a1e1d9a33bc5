//! Why the access point stopped.

ghost use Rattle.std.specs.Prelude.{◌≡◌};
ghost use Rattle.text_io.specs.Faults.{read_as, report_as};
ghost use Rattle.live.specs.declared.fault.LiveFault.TheVariants as faults;

use ap_config::ConfigFault;
use config_text::ConfigTextFault;
use mac_frame::NoMemory;
use text_io::{Failed, ReportFault};

/// Why an access point stopped before the end of its input.
#[derive(Clone, Copy, Debug, PartialEq, Eq)]
pub enum LiveFault {
    /// The first fault of the configuration. Nothing was read or written.
    Config(ConfigFault),
    /// Memory ran out before the first read. Nothing was read or written.
    NoMemory,
    /// A read failed, or 2^46 were made.
    Read,
    /// A write failed.
    Write,
}

impl From<ConfigTextFault> for LiveFault {
    ghost from_gives = { λ fault given. given ≡ read_as faults.Config faults.NoMemory fault };

    fn from(fault: ConfigTextFault) -> LiveFault {
        match fault {
            ConfigTextFault::At(fault) => LiveFault::Config(fault),
            ConfigTextFault::NoMemory => LiveFault::NoMemory,
        }
    }
}

impl From<ReportFault> for LiveFault {
    ghost from_gives = { λ fault given. given ≡ report_as faults.Write faults.NoMemory fault };

    fn from(fault: ReportFault) -> LiveFault {
        match fault {
            ReportFault::Write => LiveFault::Write,
            ReportFault::NoMemory => LiveFault::NoMemory,
        }
    }
}

impl From<NoMemory> for LiveFault {
    ghost from_gives = { λ _ given. given ≡ faults.NoMemory };

    fn from(_e: NoMemory) -> LiveFault {
        LiveFault::NoMemory
    }
}

impl From<Failed> for LiveFault {
    ghost from_gives = { λ _ given. given ≡ faults.Write };

    fn from(_e: Failed) -> LiveFault {
        LiveFault::Write
    }
}
