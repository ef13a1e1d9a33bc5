//! The report of two texts, of networks that keep no history.

ghost use Rattle.std.specs.Prelude.{◌≡◌, ◌+◌, None, MatchResult};
ghost use Rattle.ap_config.specs.Configuration.{fault_of};
ghost use Rattle.network_report.specs.NetworkText.{networks_after_lines};
ghost use Rattle.replay.specs.Answer.{answer_of, text_ending};
ghost use Rattle.text_io.specs.Endings.{Ends, IsFaultOf, failures_of, ending_of};
ghost use Rattle.text_io.specs.Faults.{read_ending};
ghost use Rattle.trace.specs.Pieces.{AreTaken};
ghost use Rattle.text_io.specs.Sinks.{MayFail};
ghost use Rattle.trace.specs.TraceText.{lines_of};

use crate::fault::TextFault;
use crate::run::networks_with_frames::NetworksWithFrames;
use ap_config::RadioConfig;
use config_text::read_config;
use network_report::as_sections;
use std::alloc::Global;
use text_io::Sink;
use trace::{LineReader, TraceTextFault};

/// Reads a configuration and a trace. It lets each network take what it hears of the trace's lines, in order, and keep
/// the frames that it sends, but no history. Then it appends the report of all networks to what `out` has taken.
///
/// A fault of the configuration or of the trace is the first one, and nothing is written then. `Write` comes exactly
/// if a write of `out` failed, and `NoMemory` if memory ran out; what was written by then is nothing or a prefix
/// of the report.
pub fn run_text<W: Sink>(
    alloc: Global,
    config: &[u8],
    trace: &[u8],
    out: &mut W,
) -> Result<(), TextFault>
    requires { MayFail (W.failed out.old) }
    ensures ends { Ends (ending_of text_ending result) (answer_of config.now trace.now) (W.taken out.old) (W.taken out.new) }
    ensures failures { W.failed out.new ≡ W.failed out.old + failures_of text_ending result }
{
    as_sections();
    let radio = read_config(alloc, config)?;
    let networks = networks_of_text(alloc, radio, trace)?;
    networks.write(alloc, out)?;
    Ok(())
}

/// The networks without their histories, which took what they hear of the lines of a trace.
fn networks_of_text(
    alloc: Global,
    config: RadioConfig,
    trace: &[u8],
) -> Result<NetworksWithFrames, TraceTextFault>
    requires { fault_of config ≡ None }
    ensures { MatchResult result
        (λ networks. AreTaken config trace.now (λ said. networks.networks ≡ networks_after_lines config said))
        (λ fault. IsFaultOf (lines_of config trace.now) (read_ending fault)) }
{
    let lines = LineReader::new(alloc, &config)?;
    let mut networks = NetworksWithFrames::new(alloc, config)?;
    lines.take_text(trace, &mut networks)?;
    Ok(networks)
}
