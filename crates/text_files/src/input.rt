//! From a reader to a sink: a configuration and a trace in one text, and the report of them.
//!
//! It is all that the program does without words, but for its streams and the line of a fault.

ghost use Rattle.std.specs.Prelude.{◌≡◌, ◌+◌, IfOk, IfErr, IfSome};
ghost use Rattle.text_io.specs.Endings.{failures_of, outcome_of};
ghost use Rattle.text_io.specs.Sinks.{MayFail};
ghost use Rattle.text_files.specs.Faults.{IsOfFile, run_ending};
ghost use Rattle.text_files.specs.Input.{EndsInput, AreOfInput};

use crate::fault::Fault;
use crate::file_system::Unread;
use crate::files::fault_of;
use events::Section;
use replay::{report_texts, split_joined};
use std::alloc::Global;
use std::io::Read;
use text_io::Sink;

/// The name of standard input in the line of a fault.
pub const STANDARD_INPUT: &str = "-";

/// Reads a configuration and a trace in one text, to the end of the reader. It appends the report of them to what `out`
/// has taken, as [`replay::run_text`] does of the two parts of the text. It hands out the sections that it reported, so
/// that the program, which ends then, need not give back their memory.
///
/// `File` comes if the reader failed, and names standard input; nothing is written then. `Memory` comes if
/// memory ran out: nothing is written then, or a prefix of the report. `Words` never comes.
pub fn run_input<R: Read, W: Sink>(
    alloc: Global,
    reader: &mut R,
    out: &mut W,
) -> Result<Vec<Section>, Fault>
    requires { MayFail (W.failed out.old) }
    ensures ends { EndsInput (outcome_of result) (R.remaining reader.old) (W.taken out.old) (W.taken out.new) }
    ensures sections { IfOk result (λ sections. AreOfInput sections.items (R.remaining reader.old)) }
    ensures failures { W.failed out.new ≡ W.failed out.old + failures_of run_ending result }
{
    let input = read_all(alloc, reader, STANDARD_INPUT)?;
    let (config, trace) = split_joined(input.as_slice());
    Ok(report_texts(alloc, config, trace, out)?)
}

/// All that a reader gives. An interrupted read is tried again. `File` with this name if the reader failed, and
/// `Memory` if memory ran out.
pub fn read_all<R: Read>(alloc: Global, reader: &mut R, name: &str) -> Result<Vec<u8>, Fault>
    ensures ok { IfOk result (λ input. IfSome (R.remaining reader.old) (λ octets. input.items ≡ octets)) }
    ensures err { IfErr result (IsOfFile name.now) }
{
    match read_to_end(alloc, reader) {
        Ok(input) => Ok(input),
        Err(why) => Err(fault_of(alloc, why, name)),
    }
}

/// All that a reader gives. An interrupted read is tried again. `Failed` if the reader failed, and `NoMemory` if
/// memory ran out.
pub fn read_to_end<R: Read>(alloc: Global, reader: &mut R) -> Result<Vec<u8>, Unread>
    ensures { IfOk result (λ input. IfSome (R.remaining reader.old) (λ octets. input.items ≡ octets)) }
{
    let mut input = Vec::new(alloc);
    match reader.read_to_end(&mut input) {
        Ok(_) => Ok(input),
        Err(error) => Err(Unread::by(&error)),
    }
}
