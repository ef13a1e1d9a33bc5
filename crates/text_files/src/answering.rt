//! From a file system, a source and a sink: a configuration in a file, and the answers to what a source says.

ghost use Rattle.std.specs.Prelude.{◌≡◌, ◌+◌};
ghost use Rattle.text_io.specs.Endings.{failures_of};
ghost use Rattle.text_io.specs.Sinks.{MayFail};
ghost use Rattle.live.specs.Run.{seen, streams};
ghost use Rattle.text_files.specs.AnsweredInput.{EndsAnswers};
ghost use Rattle.text_files.specs.Faults.{run_ending};

use crate::fault::Fault;
use crate::file_system::FileSystem;
use crate::files::read_file;
use crate::input::STANDARD_INPUT;
use live::{InFace, LiveIn};
use std::alloc::Global;
use text_io::{Sink, Source};

/// Reads the configuration of a file, and then answers the lines or records that a source gives, as they come, as
/// [`live::LiveIn::run`] does.
///
/// `File` comes if the file can't be opened or read: it names the file, and nothing is read of the source or written
/// then. It also comes if the source can't be read, and names standard input. `Memory` comes if memory ran out
/// before the first read of the source: nothing is written then.
pub fn answer_input<F: InFace, S: FileSystem, R: Source, W: Sink>(
    system: &mut S,
    alloc: Global,
    config: &str,
    input: &mut R,
    out: &mut W,
) -> Result<(), Fault>
    requires input { MayFail (R.failed input.old) }
    requires out { MayFail (W.failed out.old) }
    ensures ends { EndsAnswers S.opens system.old config.now F.face result
        (streams (seen (R.left input.old) (R.failed input.old) (R.reads input.old))
        (W.taken out.old) (W.failed out.old))
        (streams (seen (R.left input.new) (R.failed input.new) (R.reads input.new))
        (W.taken out.new) (W.failed out.new)) }
    ensures failures { W.failed out.new ≡ W.failed out.old + failures_of run_ending result }
{
    let config = read_file(system, alloc, config)?;
    match LiveIn::<F>::run(alloc, config.as_slice(), input, out) {
        Ok(()) => Ok(()),
        Err(fault) => Err(Fault::of_live(alloc, fault, STANDARD_INPUT)),
    }
}
