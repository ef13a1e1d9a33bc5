//! Why a text was not answered.

ghost use Rattle.std.specs.Prelude.{◌≡◌};
ghost use Rattle.text_io.specs.Faults.{read_as, report_as};
ghost use Rattle.replay.specs.declared.fault.StreamFault.TheVariants as streams;
ghost use Rattle.replay.specs.declared.fault.TextFault.TheVariants as texts;

use ap_config::ConfigFault;
use config_text::ConfigTextFault;
use mac_frame::NoMemory;
use text_io::ReportFault;
use trace::{TraceFault, TraceTextFault};

/// Why a configuration's and a trace's text were not answered.
#[derive(Clone, Copy, Debug, PartialEq, Eq)]
pub enum TextFault {
    /// The first fault of the configuration.
    Config(ConfigFault),
    /// The first fault of the trace, if the configuration has none.
    Trace(TraceFault),
    /// Memory ran out.
    NoMemory,
    /// A write failed.
    Write,
}

/// Why a configuration's text and a trace that is read as it comes were not answered.
#[derive(Clone, Copy, Debug, PartialEq, Eq)]
pub enum StreamFault {
    /// The first fault of the configuration. Nothing was read.
    Config(ConfigFault),
    /// The first fault of what was read of the trace, if the configuration has none. Reading stopped there.
    Trace(TraceFault),
    /// Memory ran out.
    NoMemory,
    /// A read failed, or 4,294,967,295 reads were made and the trace had not ended.
    Read,
    /// A write failed.
    Write,
}

impl From<ConfigTextFault> for TextFault {
    ghost from_gives = { λ fault given. given ≡ read_as texts.Config texts.NoMemory fault };

    fn from(fault: ConfigTextFault) -> TextFault {
        match fault {
            ConfigTextFault::At(fault) => TextFault::Config(fault),
            ConfigTextFault::NoMemory => TextFault::NoMemory,
        }
    }
}

impl From<TraceTextFault> for TextFault {
    ghost from_gives = { λ fault given. given ≡ read_as texts.Trace texts.NoMemory fault };

    fn from(fault: TraceTextFault) -> TextFault {
        match fault {
            TraceTextFault::At(fault) => TextFault::Trace(fault),
            TraceTextFault::NoMemory => TextFault::NoMemory,
        }
    }
}

impl From<ReportFault> for TextFault {
    ghost from_gives = { λ fault given. given ≡ report_as texts.Write texts.NoMemory fault };

    fn from(fault: ReportFault) -> TextFault {
        match fault {
            ReportFault::Write => TextFault::Write,
            ReportFault::NoMemory => TextFault::NoMemory,
        }
    }
}

impl From<ConfigTextFault> for StreamFault {
    ghost from_gives = { λ fault given. given ≡ read_as streams.Config streams.NoMemory fault };

    fn from(fault: ConfigTextFault) -> StreamFault {
        match fault {
            ConfigTextFault::At(fault) => StreamFault::Config(fault),
            ConfigTextFault::NoMemory => StreamFault::NoMemory,
        }
    }
}

impl From<TraceTextFault> for StreamFault {
    ghost from_gives = { λ fault given. given ≡ read_as streams.Trace streams.NoMemory fault };

    fn from(fault: TraceTextFault) -> StreamFault {
        match fault {
            TraceTextFault::At(fault) => StreamFault::Trace(fault),
            TraceTextFault::NoMemory => StreamFault::NoMemory,
        }
    }
}

impl From<ReportFault> for StreamFault {
    ghost from_gives = { λ fault given. given ≡ report_as streams.Write streams.NoMemory fault };

    fn from(fault: ReportFault) -> StreamFault {
        match fault {
            ReportFault::Write => StreamFault::Write,
            ReportFault::NoMemory => StreamFault::NoMemory,
        }
    }
}

impl From<NoMemory> for StreamFault {
    ghost from_gives = { λ _ given. given ≡ streams.NoMemory };

    fn from(_e: NoMemory) -> StreamFault {
        StreamFault::NoMemory
    }
}
