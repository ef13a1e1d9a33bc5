//! From a file system to a sink: a configuration and traces in files of their own, and the report of their play.

ghost use Rattle.std.specs.Prelude.{◌≡◌, ◌+◌, ◌∷◌};
ghost use Rattle.text_io.specs.Endings.{failures_of};
ghost use Rattle.text_io.specs.Sinks.{MayFail};
ghost use Rattle.text_files.specs.Faults.{run_ending};
ghost use Rattle.text_files.specs.Files.{names_of};
ghost use Rattle.text_files.specs.PlayedFiles.{EndsFiles};

use crate::fault::Fault;
use crate::file_system::FileSystem;
use crate::files::{read_file, read_traces};
use play_text::play_owned;
use std::alloc::Global;
use std::sync::Wait;
use std::thread::Threads;
use text_io::Sink;

/// Reads the configuration of a file and the traces of others, in the order of these words. It plays the traces by
/// threads that `threads` starts, and appends the report to what `out` has taken, as [`play_text::play_owned`] does.
///
/// `File` comes if one of them can't be opened or read: it names the first such, and nothing is written then.
/// `Memory` comes if memory ran out: nothing is written then, or a prefix of the report. It may wait for other
/// threads.
pub fn play_files<S: FileSystem, T: Threads + Wait + Sync, W: Sink>(
    system: &mut S,
    threads: &T,
    alloc: Global,
    config: &str,
    traces: &[&str],
    out: &mut W,
) -> Result<(), Fault>
    requires { MayFail (W.failed out.old) }
    ensures ends { EndsFiles S.opens system.old (config.now ∷ names_of traces.now) result
        (W.taken out.old) (W.taken out.new) }
    ensures failures { W.failed out.new ≡ W.failed out.old + failures_of run_ending result }
{
    let config = read_file(system, alloc, config)?;
    let traces = read_traces(system, threads, alloc, traces)?;
    Ok(play_owned(threads, alloc, config.as_slice(), traces, out)?)
}
