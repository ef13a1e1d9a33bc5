//! A trace that is read as it comes, and the report of it.

ghost use Rattle.std.specs.Prelude.{◌≡◌, [], None};
ghost use Rattle.ap_config.specs.Configuration.{fault_of};
ghost use Rattle.ap_config.specs.declared.config.RadioConfig.{RadioConfig};
ghost use Rattle.trace.specs.Pieces.{AreTaken, AreTakenSoFar};
ghost use Rattle.text_io.specs.Sinks.{MayFail};
ghost use Rattle.text_io.specs.Streams.{changed};
ghost use Rattle.network_report.specs.NetworkText.{networks_after_lines};
ghost use Rattle.replay.specs.Stream.{ReadsToEnd, RunsStream};
ghost use Rattle.replay.specs.Stream.{seen, streams};

use crate::fault::StreamFault;
use crate::run::networks_with_frames::NetworksWithFrames;
use ap_config::RadioConfig;
use config_text::read_config;
use network_report::as_sections;
use std::alloc::Global;
use text_io::{Sink, Source};
use trace::{LineReader, TakeLines, piece_by_piece};

/// How many octets are read at a time.
const PIECE_LEN: usize = 4096;

/// The most reads of one trace.
const MAX_READS: u32 = u32::MAX;

/// Reads a configuration, and a trace from a source to its end. It lets each network take what it hears of each line as
/// it comes, and keep the frames that it sends, but no history. Then it appends the report of all networks to what
/// `out` has taken. It is what [`crate::run_text`] appends for the same texts.
///
/// A fault of the configuration is the first one, and nothing is read then. A fault of the trace is the first of what
/// was read, and ends reading. `Read` comes if a read of the source failed, or 4,294,967,295 reads were made; no
/// line that ended before has a fault then. Nothing is written by then. `Write` comes exactly if a write of `out`
/// failed, and `NoMemory` if memory ran out; what was written by then is nothing or, once all was read, a prefix of
/// the report.
pub fn run_stream<R: Source, W: Sink>(
    alloc: Global,
    config: &[u8],
    source: &mut R,
    out: &mut W,
) -> Result<(), StreamFault>
    requires source { MayFail (R.failed source.old) }
    requires sink { MayFail (W.failed out.old) }
    ensures { RunsStream result config.now
        (streams (seen (R.left source.old) (R.failed source.old) (R.reads source.old)) (W.taken out.old) (W.failed out.old))
        (streams (seen (R.left source.new) (R.failed source.new) (R.reads source.new)) (W.taken out.new)
        (W.failed out.new)) }
{
    as_sections();
    let radio = read_config(alloc, config)?;
    let networks = networks_of_stream(alloc, radio, source)?;
    networks.write(alloc, out)?;
    Ok(())
}

/// The networks without their histories, which took what they hear of the lines of a source.
fn networks_of_stream<R: Source>(
    alloc: Global,
    config: RadioConfig,
    source: &mut R,
) -> Result<NetworksWithFrames, StreamFault>
    requires config { fault_of config ≡ None }
    requires source { MayFail (R.failed source.old) }
    ensures { ReadsToEnd
        (λ networks text. AreTaken config text (λ said. networks.networks ≡ networks_after_lines config said)) result config
        (changed (seen (R.left source.old) (R.failed source.old) (R.reads source.old))
        (seen (R.left source.new) (R.failed source.new) (R.reads source.new))) }
{
    piece_by_piece();
    let lines = LineReader::new(alloc, &config)?;
    let mut networks = NetworksWithFrames::new(alloc, config)?;
    take_whole(lines, &mut networks, source)?;
    Ok(networks)
}

/// Lets the networks take the lines of what a source has left.
fn take_whole<R: Source, T: TakeLines>(
    mut lines: LineReader,
    networks: &mut T,
    source: &mut R,
) -> Result<(), StreamFault>
    requires { MayFail (R.failed source.old) }
    ensures { (c : RadioConfig) → AreTakenSoFar c [] lines (λ said. T.has_taken c said networks.old)
        → ReadsToEnd (λ _ text. AreTaken c text (λ said. T.has_taken c said networks.new)) result c
        (changed (seen (R.left source.old) (R.failed source.old) (R.reads source.old))
        (seen (R.left source.new) (R.failed source.new) (R.reads source.new))) }
{
    take_stream(&mut lines, networks, source)?;
    lines.take_end(networks)?;
    Ok(())
}

/// Lets the networks take the lines that end in what a source has left.
fn take_stream<R: Source, T: TakeLines>(
    lines: &mut LineReader,
    networks: &mut T,
    source: &mut R,
) -> Result<(), StreamFault>
    requires { MayFail (R.failed source.old) }
    ensures { (c : RadioConfig) → AreTakenSoFar c [] lines.old (λ said. T.has_taken c said networks.old)
        → ReadsToEnd (λ _ text. AreTakenSoFar c text lines.new (λ said. T.has_taken c said networks.new)) result c
        (changed (seen (R.left source.old) (R.failed source.old) (R.reads source.old))
        (seen (R.left source.new) (R.failed source.new) (R.reads source.new))) }
{
    let mut buffer = [0; PIECE_LEN];
    for _ in 0..MAX_READS {
        let Ok(count) = source.read_some(&mut buffer) else {
            return Err(StreamFault::Read);
        };
        if count == 0 {
            return Ok(());
        }
        lines.take_piece(&buffer[..count], networks)?;
    }
    Err(StreamFault::Read)
}
