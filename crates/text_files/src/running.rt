//! From a file system to a sink: a configuration and a trace in files of their own, and the report of their run.

ghost use Rattle.text_io.specs.Sinks.{MayFail};
ghost use Rattle.text_files.specs.RunFiles.{EndsRun};

use crate::fault::Fault;
use crate::file_system::FileSystem;
use crate::files::{open_file, read_file};
use replay::run_stream;
use std::alloc::Global;
use text_io::{Counted, Sink};

/// Reads the configuration of a file, and then the trace of another as it comes, and appends the report to what `out`
/// has taken, as [`replay::run_stream`] does.
///
/// `File` comes if one of them can't be opened or read. It names the configuration if that can't be, and the
/// trace only after the configuration was read. Nothing is written then. `Memory` comes if memory ran out: nothing
/// is written then, or a prefix of the report.
pub fn run_files<S: FileSystem, W: Sink>(
    system: &mut S,
    alloc: Global,
    config: &str,
    trace: &str,
    out: &mut W,
) -> Result<(), Fault>
    requires { MayFail (W.failed out.old) }
    ensures { EndsRun S.opens S.opened S.File.gives S.File.remaining system.old config.now trace.now result
        (record { taken = W.taken out.old; failed = W.failed out.old })
        (record { taken = W.taken out.new; failed = W.failed out.new }) }
{
    let config = read_file(system, alloc, config)?;
    let mut source = Counted::new(open_file(system, alloc, trace)?);
    match run_stream(alloc, config.as_slice(), &mut source, out) {
        Ok(()) => Ok(()),
        Err(fault) => Err(Fault::of_stream(alloc, fault, trace)),
    }
}
