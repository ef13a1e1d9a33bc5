//! What can go wrong, as a user meets it: one line on standard error and an exit status.

ghost use Rattle.std.specs.Prelude.{◌≡◌, ◌≢◌, ◌+◌, IfOk, Ok, Err};
ghost use Rattle.text_io.specs.Endings.{Ends, failures_of, ending_of};
ghost use Rattle.text_io.specs.Sinks.{MayFail, report_ending};
ghost use Rattle.text_files.specs.Faults.{of_texts, of_play, status_of, memory_line, IsOfFile, IsOfStream, IsOfLive};
ghost use Rattle.text_files.specs.declared.fault.Fault.TheVariants as faults;

use ap_config::ConfigFault;
use live::LiveFault;
use play::FinishFault;
use play_text::PlayTextFault;
use replay::{StreamFault, TextFault};
use std::alloc::{AllocError, AllocFailed, Global};
use std::fmt;
use text_io::{ReportFault, Sink, write_all};
use thiserror::Error;
use trace::TraceFault;

/// The first fault of one of several traces.
#[derive(Clone, Copy, Debug)]
pub struct FaultInTrace {
    /// The trace's place, from 0.
    pub source: usize,
    /// Its first fault.
    pub fault: TraceFault,
}

/// The fault as a user meets it, as in `L2 trace 0 line 7`.
impl fmt::Display for FaultInTrace {
    fn fmt<W: fmt::Write>(&self, f: &mut fmt::Formatter<W>) -> fmt::Result {
        let source = self.source;
        let TraceFault { code, line } = self.fault;
        write!(f, "L{code} trace {source} line {line}")
    }
}

/// A fault of the program. It is shown as its line, without the LF.
#[derive(Debug, Drop, Error)]
pub enum Fault {
    /// The first fault of the configuration.
    #[error("fault {0}")]
    Config(ConfigFault),
    /// The first fault of the trace.
    #[error("fault {0}")]
    Trace(TraceFault),
    /// The first fault of the first of several traces that has one.
    #[error("fault {0}")]
    InTrace(FaultInTrace),
    /// Not 1 to 64 traces.
    #[error("fault sources")]
    Sources,
    /// The program was given words that it has no use for.
    #[error("fault words")]
    Words,
    /// Memory ran out.
    #[error("fault memory")]
    Memory,
    /// A thread could not be started.
    #[error("fault thread")]
    Thread,
    /// The access point could not be finished.
    #[error("fault {0}")]
    Finish(FinishFault),
    /// A file of this name, or standard input if it is `-`, can't be read.
    #[error("fault file {0}")]
    File(String),
    /// Standard output can't be written.
    #[error("fault output")]
    Output,
}

impl Fault {
    /// The exit status of the program that ends with it. 1: a fault of what it read. 2: its words. 3: it ran out of
    /// memory or threads, or could not end what it played. 4: a file or a stream.
    pub fn status(&self) -> u8
        ensures { result ≡ status_of self.now }
    {
        match self {
            Fault::Config(_) | Fault::Trace(_) | Fault::InTrace(_) | Fault::Sources => 1,
            Fault::Words => 2,
            Fault::Memory | Fault::Thread | Fault::Finish(_) => 3,
            Fault::File(_) | Fault::Output => 4,
        }
    }

    /// The fault of a file of this name that can't be read: `File`, or `Memory` if the name can't be kept.
    pub fn of_file(alloc: Global, name: &str) -> Fault
        ensures { IsOfFile name.now result }
    {
        match String::from_str(alloc, name) {
            Ok(name) => Fault::File(name),
            Err(_) => Fault::Memory,
        }
    }

    /// The fault of a run whose trace was read from a file of this name: if reading it failed, that of the file.
    pub fn of_stream(alloc: Global, fault: StreamFault, name: &str) -> Fault
        ensures { IsOfStream fault name.now result }
    {
        match fault {
            StreamFault::Config(fault) => Fault::Config(fault),
            StreamFault::Trace(fault) => Fault::Trace(fault),
            StreamFault::NoMemory => Fault::Memory,
            StreamFault::Read => Fault::of_file(alloc, name),
            StreamFault::Write => Fault::Output,
        }
    }

    /// The fault of an access point that answered lines from a stream of this name: if reading it failed, that of
    /// the stream.
    pub fn of_live(alloc: Global, fault: LiveFault, name: &str) -> Fault
        ensures { IsOfLive fault name.now result }
    {
        match fault {
            LiveFault::Config(fault) => Fault::Config(fault),
            LiveFault::NoMemory => Fault::Memory,
            LiveFault::Read => Fault::of_file(alloc, name),
            LiveFault::Write => Fault::Output,
        }
    }
}

impl From<TextFault> for Fault {
    ghost from_gives = { λ fault given. given ≡ of_texts fault };

    fn from(fault: TextFault) -> Fault {
        match fault {
            TextFault::Config(fault) => Fault::Config(fault),
            TextFault::Trace(fault) => Fault::Trace(fault),
            TextFault::NoMemory => Fault::Memory,
            TextFault::Write => Fault::Output,
        }
    }
}

impl From<PlayTextFault> for Fault {
    ghost from_gives = { λ fault given. given ≡ of_play fault };

    fn from(fault: PlayTextFault) -> Fault {
        match fault {
            PlayTextFault::Config(fault) => Fault::Config(fault),
            PlayTextFault::Sources => Fault::Sources,
            PlayTextFault::Trace { source, fault } => {
                Fault::InTrace(FaultInTrace { source, fault })
            }
            PlayTextFault::NoThread => Fault::Thread,
            PlayTextFault::NoMemory => Fault::Memory,
            PlayTextFault::Finish(fault) => Fault::Finish(fault),
            PlayTextFault::Write => Fault::Output,
        }
    }
}

impl From<AllocError> for Fault {
    ghost from_gives = { λ _ given. given ≡ faults.Memory };

    fn from(_e: AllocError) -> Fault {
        Fault::Memory
    }
}

impl<T: Drop> From<AllocFailed<T>> for Fault {
    ghost from_gives = { λ _ given. given ≡ faults.Memory };

    fn from(_e: AllocFailed<T>) -> Fault {
        Fault::Memory
    }
}

/// The line of the fault that memory ran out.
const MEMORY_LINE: &[u8] = b"fault memory\n";

/// Writes the line of a fault, and answers the exit status that goes with it. `Write` if a write of `out`
/// failed, `NoMemory` if memory ran out: never of `Memory`, whose line takes no memory.
pub fn show_fault<W: Sink>(alloc: Global, fault: &Fault, out: &mut W) -> Result<u8, ReportFault>
    requires { MayFail (W.failed out.old) }
    ensures status { IfOk result (λ status. status ≡ status_of fault.now) }
    ensures memory { fault.now ≡ faults.Memory → result ≢ Err ReportFault.NoMemory }
    ensures memory_line { fault.now ≡ faults.Memory →
        Ends (ending_of report_ending result) (Ok memory_line) (W.taken out.old) (W.taken out.new) }
    ensures failures { W.failed out.new ≡ W.failed out.old + failures_of report_ending result }
{
    if let Fault::Memory = fault {
        write_all(out, MEMORY_LINE)?;
    } else {
        let line = format!(in alloc; "{fault}\n")?;
        write_all(out, line.as_bytes())?;
    }
    Ok(fault.status())
}
