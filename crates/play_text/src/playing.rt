//! Several traces that are played at once, and the report of it.

ghost use Rattle.std.specs.Prelude.{◌≡◌, ◌+◌, ℕ, List, Option, None, Err, IfErr, MatchResult};
ghost use Rattle.ap_config.specs.Configuration.{fault_of};
ghost use Rattle.text_io.specs.Endings.{failures_at, failures_of};
ghost use Rattle.text_io.specs.Sinks.{MayFail};
ghost use Rattle.play_text.specs.Playing.{ArePlayable, EndsPlay, play_ending};
ghost use Rattle.play.specs.Faults.{callers_fit};

use crate::fault::PlayTextFault;
use crate::reporting::write_by_threads;
use crate::traces::read_traces;
use ap_config::RadioConfig;
use config_text::read_config;
use mac_frame::Octets;
use network_report::as_sections;
use play::{LineLog, MAX_CALLERS, play_with_frames};
use std::alloc::Global;
use std::sync::Wait;
use std::thread::Threads;
use text_io::Sink;

/// Reads a configuration and 1 to 64 traces, plays the traces at once, each as a source with a thread of its own, and
/// appends the report of all networks to what `out` has taken (`play` of `workers`). For each network by itself it is
/// what some order of the traces' lines gives, in which each trace keeps its own; which order, the threads decide.
///
/// A fault is the first one of the configuration, else `Sources`, else that of the first trace that has one; these come
/// before anything is played. `NoThread` if a thread could not be started, `Finish`, with `Uncovered` alone, if a
/// network was not given all lines of each trace; nothing is written before it was. `Write` comes exactly if a write
/// of `out` failed, and `NoMemory` if memory ran out; what was written by then is nothing or a prefix of the report. It
/// may wait for other threads.
pub fn play_text<R: Threads + Wait + Sync, W: Sink>(
    rt: &R,
    alloc: Global,
    config: &[u8],
    traces: &[Octets],
    out: &mut W,
) -> Result<(), PlayTextFault>
    requires { MayFail (W.failed out.old) }
    ensures ends { EndsPlay result config.now traces.now (W.taken out.old) (W.taken out.new) }
    ensures failures { W.failed out.new ≡ W.failed out.old + failures_of play_ending result }
{
    let (config, sources) = read_texts(rt, alloc, config, traces)?;
    report_sources(rt, alloc, config, sources, out)
}

/// Does what [`play_text`] does of traces that it takes over: the memory of their texts is given back before anything
/// is played.
pub fn play_owned<R: Threads + Wait + Sync, W: Sink>(
    rt: &R,
    alloc: Global,
    config: &[u8],
    traces: Vec<Octets>,
    out: &mut W,
) -> Result<(), PlayTextFault>
    requires { MayFail (W.failed out.old) }
    ensures ends { EndsPlay result config.now traces.items (W.taken out.old) (W.taken out.new) }
    ensures failures { W.failed out.new ≡ W.failed out.old + failures_of play_ending result }
{
    let read = read_texts(rt, alloc, config, traces.as_slice());
    drop(traces);
    let (config, sources) = read?;
    report_sources(rt, alloc, config, sources, out)
}

/// The configuration and the lines of each trace, in order; or why there are none, before anything is played.
fn read_texts<R: Threads + Sync>(
    rt: &R,
    alloc: Global,
    config: &[u8],
    traces: &[Octets],
) -> Result<(RadioConfig, Vec<LineLog>), PlayTextFault>
    ensures read { MatchResult result
        (λ read. (fault_of read.0 ≡ None) × ArePlayable config.now traces.now read.0 read.1.items)
        (λ fault. (known : Option (List ℕ)) → EndsPlay (Err fault) config.now traces.now known known) }
    ensures no_write { IfErr result (λ fault. failures_at (play_ending fault) ≡ 0) }
{
    let config = read_config(alloc, config)?;
    if !fit(traces.len()) {
        return Err(PlayTextFault::Sources);
    }
    let sources = read_traces(rt, alloc, &config, traces)?;
    Ok((config, sources))
}

/// Plays sources of lines, and reports what each network did.
fn report_sources<R: Threads + Wait + Sync, W: Sink>(
    rt: &R,
    alloc: Global,
    config: RadioConfig,
    sources: Vec<LineLog>,
    out: &mut W,
) -> Result<(), PlayTextFault>
    requires sound { fault_of config ≡ None }
    requires can_write { MayFail (W.failed out.old) }
    ensures ends { (text : List ℕ) (traces : List (List ℕ)) → ArePlayable text traces config sources.items
        → EndsPlay result text traces (W.taken out.old) (W.taken out.new) }
    ensures failures { W.failed out.new ≡ W.failed out.old + failures_of play_ending result }
{
    as_sections();
    let networks = play_with_frames(rt, alloc, config, sources.as_slice())?;
    write_by_threads(rt, alloc, networks.as_slice(), out)?;
    Ok(())
}

/// Whether an access point may have this many sources.
fn fit(count: usize) -> bool
    ensures { result ≡ callers_fit count }
{
    (1..=MAX_CALLERS as usize).contains(&count)
}
