//! The line that says how many networks a configuration has.

ghost use Rattle.std.specs.Prelude.{◌≡◌, ◌+◌, Ok, Err, IfOk, string_bytes};
ghost use Rattle.std.specs.Io.KnownBytes.{Keeps};
ghost use Rattle.text_io.specs.Endings.{Ends, failures_of, ending_of};
ghost use Rattle.report.specs.Report.{count_line};
ghost use Rattle.text_io.specs.Sinks.{MayFail, report_ending};

use std::alloc::{AllocError, Global};
use text_io::{ReportFault, Sink, write_all};

/// Has the sink take `ok N` and LF, N this number of networks in decimal digits. `Write` comes exactly if a write to
/// the sink failed, which has then taken a prefix of the line. `NoMemory` if memory ran out, before any write.
pub fn write_count<W: Sink>(alloc: Global, count: usize, out: &mut W) -> Result<(), ReportFault>
    requires { MayFail (W.failed out.old) }
    ensures ends { Ends (ending_of report_ending result) (Ok (count_line count)) (W.taken out.old) (W.taken out.new) }
    ensures memory { result ≡ Err ReportFault.NoMemory → Keeps (W.taken out.old) (W.taken out.new) }
    ensures failures { W.failed out.new ≡ W.failed out.old + failures_of report_ending result }
{
    let line = count_text(alloc, count)?;
    write_all(out, line.as_bytes())?;
    Ok(())
}

/// The line, with its LF.
#[tactic(auto, unfolding(crate::specs::Report::count_line))]
fn count_text(alloc: Global, count: usize) -> Result<String, AllocError>
    ensures { IfOk result (λ line. string_bytes line ≡ count_line count) }
{
    format!(in alloc; "ok {count}\n")
}
