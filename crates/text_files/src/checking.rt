//! From a file system to a sink: a configuration in a file, and what is said of it alone.

ghost use Rattle.std.specs.Prelude.{◌≡◌, ◌+◌};
ghost use Rattle.text_io.specs.Endings.{failures_of};
ghost use Rattle.text_io.specs.Sinks.{MayFail};
ghost use Rattle.text_files.specs.CheckedFile.{EndsCheck};
ghost use Rattle.text_files.specs.Faults.{run_ending};

use crate::fault::Fault;
use crate::file_system::FileSystem;
use crate::files::read_file;
use replay::check_text;
use std::alloc::Global;
use text_io::Sink;

/// Reads the configuration of a file, and appends to what `out` has taken how many networks it has, as
/// [`replay::check_text`] does.
///
/// `File` comes if the file can't be opened or read: it names the file, and nothing is written then. `Memory` comes
/// if memory ran out: nothing is written then, or a prefix of that line.
pub fn check_file<S: FileSystem, W: Sink>(
    system: &mut S,
    alloc: Global,
    config: &str,
    out: &mut W,
) -> Result<(), Fault>
    requires { MayFail (W.failed out.old) }
    ensures ends { EndsCheck S.opens system.old config.now result (W.taken out.old) (W.taken out.new) }
    ensures failures { W.failed out.new ≡ W.failed out.old + failures_of run_ending result }
{
    let config = read_file(system, alloc, config)?;
    Ok(check_text(alloc, config.as_slice(), out)?)
}
