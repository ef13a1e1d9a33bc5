//! What is said of a configuration alone: how many networks it has, or its first fault.

ghost use Rattle.std.specs.Prelude.{◌≡◌, ◌+◌};
ghost use Rattle.text_io.specs.Endings.{Ends, failures_of, ending_of};
ghost use Rattle.text_io.specs.Sinks.{MayFail};
ghost use Rattle.replay.specs.Answer.{text_ending};
ghost use Rattle.replay.specs.Checking.{check_of};

use crate::fault::TextFault;
use config_text::read_config;
use report::write_count;
use std::alloc::Global;
use text_io::Sink;

/// Reads a configuration, and appends `ok N` and LF to what `out` has taken, N the number of its networks in decimal
/// digits.
///
/// A fault of the configuration is the first one, and nothing is written then. `Write` comes exactly if a write of
/// `out` failed, and `NoMemory` if memory ran out; what was written by then is nothing or a prefix of that line.
/// `Trace` never comes.
pub fn check_text<W: Sink>(alloc: Global, config: &[u8], out: &mut W) -> Result<(), TextFault>
    requires { MayFail (W.failed out.old) }
    ensures ends { Ends (ending_of text_ending result) (check_of config.now) (W.taken out.old) (W.taken out.new) }
    ensures failures { W.failed out.new ≡ W.failed out.old + failures_of text_ending result }
{
    let config = read_config(alloc, config)?;
    write_count(alloc, config.networks.as_slice().len(), out)?;
    Ok(())
}
