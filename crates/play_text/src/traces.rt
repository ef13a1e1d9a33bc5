//! Traces that are read by threads.

ghost use Rattle.std.specs.Prelude.{◌≡◌, MatchResult};
ghost use Rattle.play_text.specs.Playing.{AreLines, IsTracesFault, in_trace};

use crate::fault::PlayTextFault;
use crate::reading::read_by_threads;
use ap_config::RadioConfig;
use mac_frame::Octets;
use play::LineLog;
use std::alloc::Global;
use std::thread::Threads;
use text_io::ReadFault;
use trace::TraceTextFault;

/// The lines of each trace, in order, or the fault of the first trace that has one. The traces are read by threads, as
/// far as there are any.
pub(crate) fn read_traces<R: Threads + Sync>(
    rt: &R,
    alloc: Global,
    config: &RadioConfig,
    traces: &[Octets],
) -> Result<Vec<LineLog>, PlayTextFault>
    ensures { MatchResult result
        (λ sources. AreLines config.now traces.now sources.items)
        (λ fault. IsTracesFault config.now traces.now fault) }
{
    let read = read_by_threads(rt, alloc, config, traces)?;
    let mut sources = Vec::with_capacity(alloc, traces.len())?;
    for lines in read {
        match lines {
            Ok(lines) => sources.push(lines)?,
            Err(fault) => return Err(in_trace(sources.len(), fault)),
        }
    }
    Ok(sources)
}

/// A fault of the trace at this place.
fn in_trace(source: usize, fault: TraceTextFault) -> PlayTextFault
    ensures { result ≡ in_trace source fault }
{
    match fault {
        ReadFault::At(fault) => PlayTextFault::Trace { source, fault },
        ReadFault::NoMemory => PlayTextFault::NoMemory,
    }
}
