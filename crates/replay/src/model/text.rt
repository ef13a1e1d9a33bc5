//! The report of two texts, of a radio that keeps histories.

ghost use Rattle.std.specs.Prelude.{◌≡◌, ◌+◌, None, Ok, IfOk, MatchResult};
ghost use Rattle.ap_config.specs.Configuration.{fault_of};
ghost use Rattle.ap_config.specs.declared.config.RadioConfig.{RadioConfig};
ghost use Rattle.replay.specs.Answer.{answer_of, text_ending};
ghost use Rattle.replay.specs.Stream.{AreSectionsOf};
ghost use Rattle.config_text.specs.ConfigurationText.{configuration_of};
ghost use Rattle.text_io.specs.Endings.{Ends, IsFaultOf, failures_of, ending_of};
ghost use Rattle.text_io.specs.Faults.{read_ending};
ghost use Rattle.text_io.specs.Sinks.{MayFail};
ghost use Rattle.trace.specs.TraceText.{lines_of};

use crate::fault::TextFault;
use crate::model::radio_replay::Replay;
use ap_config::RadioConfig;
use config_text::read_config;
use events::Section;
use report::write_report;
use std::alloc::Global;
use text_io::Sink;
use trace::{LineReader, TraceTextFault};

/// Does what [`crate::run_text`] does, and hands out the sections that it reported. These have the events of each
/// network, so that it takes more memory.
pub fn report_texts<W: Sink>(
    alloc: Global,
    config: &[u8],
    trace: &[u8],
    out: &mut W,
) -> Result<Vec<Section>, TextFault>
    requires { MayFail (W.failed out.old) }
    ensures ends { Ends (ending_of text_ending result) (answer_of config.now trace.now) (W.taken out.old) (W.taken out.new) }
    ensures sections { IfOk result (λ sections. (c : RadioConfig) × (configuration_of config.now ≡ Ok c)
        × AreSectionsOf c trace.now sections.items) }
    ensures failures { W.failed out.new ≡ W.failed out.old + failures_of text_ending result }
{
    let config = read_config(alloc, config)?;
    let sections = replay_text(alloc, config, trace)?;
    write_report(alloc, sections.as_slice(), out)?;
    Ok(sections)
}

/// The section of each network, in order of place: each takes what it hears of the lines of a trace.
fn replay_text(
    alloc: Global,
    config: RadioConfig,
    trace: &[u8],
) -> Result<Vec<Section>, TraceTextFault>
    requires { fault_of config ≡ None }
    ensures { MatchResult result
        (λ sections. AreSectionsOf config trace.now sections.items)
        (λ fault. IsFaultOf (lines_of config trace.now) (read_ending fault)) }
{
    let lines = LineReader::new(alloc, &config)?;
    let mut replay = Replay::new(alloc, config)?;
    lines.take_text(trace, &mut replay)?;
    Ok(replay.into_sections()?)
}
