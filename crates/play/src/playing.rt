//! Several sources that are played to the networks of a configuration at once.

ghost use Rattle.std.specs.Prelude.{◌≡◌, ◌≢◌, ◌↔◌, None, Some, Err, IfOk, IfErr, length, false, map, true};
ghost use Rattle.ap_config.specs.Configuration.{fault_of};
ghost use Rattle.ap_config.specs.declared.config.ConfigFault.{ConfigFault};
ghost use Rattle.play.specs.Faults.{callers_fit};
ghost use Rattle.play.specs.Faults.{IsPlayFault};
ghost use Rattle.play.specs.Played.{IsPlayOf};
ghost use Rattle.play.specs.declared.finish_fault.FinishFault.{FinishFault};
ghost use Rattle.play.specs.declared.finish_fault.FinishFault.TheVariants as ends;
ghost use Rattle.play.specs.Kept.{IsEnd};
ghost use Rattle.play.specs.Plays.{IsPlayWithFrames};

use crate::ending::{finish, networks_after};
use crate::gate::{Gate, NoGate};
use crate::kept::PlayedNetwork;
use crate::locked_networks::LockedNetworks;
use crate::name::PlayName;
use crate::outlet::Left;
use crate::parts::Parts;
use crate::sources::Sources;
use crate::threads::run_sources;
use crate::{FinishFault, Finished, LineLog, PlayFault};
use ap_config::{ConfigFault, RadioConfig};
use events::Line;
use networks::NetworkWithFrames;
use std::alloc::Global;
use std::marker::Brand;
use std::sync::Wait;
use std::thread::Threads;

/// How many lines of a source are given together at most, where no gate is asked before each.
const MOST_LINES: usize = 1024;

/// Plays the lines of sources to the networks of a configuration, each source by a thread of its own, and answers the
/// networks with the frames that they sent, in order of place (*profile*). The frames leave by the air queue of the
/// configuration, in an order between networks that the threads decide. A `Wire` line whose place is not there does
/// nothing. The lines are lent, and stay as they are.
///
/// `Config` with the first fault exactly where the configuration has one, else `Sources` exactly where there are not 1
/// to 64 of them; else `NoThread` where a thread could not be started, and `NoMemory` where memory ran out. `Finish`, with
/// `Uncovered` and no other, would tell that a network was not given all lines of each source, or that a frame of it
/// still waits: no clause excludes it, and no test has met it. It may wait for other threads.
pub fn play_with_frames<R: Threads + Wait + Sync>(
    rt: &R,
    alloc: Global,
    config: RadioConfig,
    sources: &[LineLog],
) -> Result<Vec<NetworkWithFrames>, PlayFault>
    ensures config { (fault : ConfigFault) → (result ≡ Err (PlayFault.Config fault)) ↔ (fault_of config ≡ Some fault) }
    ensures sources { (result ≡ Err PlayFault.Sources) ↔
        ((fault_of config ≡ None) × (callers_fit (length sources.now) ≡ false)) }

    // The fault F1 of finishing, that memory ran out, is never answered.
    ensures memory { result ≢ Err (PlayFault.Finish ends.NoMemory) }

    // The one fault of finishing is that a network was not given all lines of each source, or that a frame of it waits.
    ensures finish { (fault : FinishFault) → result ≡ Err (PlayFault.Finish fault) → fault ≡ ends.Uncovered }

    // Each network is the one alone that took what the sources gave it: of each source the first of the events that the
    // network hears of its lines, in their order, and all of them where the network is not full.
    ensures played { IfOk result (λ logs. IsPlayWithFrames config sources.now logs.items) }
{
    let parts = Parts::open(alloc, config, Sources::Logs(sources), false)?;
    networks_named::<Brand, R>(rt, alloc, parts)
}

/// Plays the lines of sources as [`play_with_frames`] does, and answers what an access point ends with that they fed
/// (*profile*). That is a section of each network and all frames in the order in which they left. For each event of a
/// network it is also the number of the source that gave it, from 0. The thread of a source calls the gate before each
/// line, and gives the line then. It answers the faults of [`play_with_frames`]. It may wait for other threads.
pub fn play_finished<G: Gate + Sync, R: Threads + Wait + Sync>(
    rt: &R,
    alloc: Global,
    config: RadioConfig,
    sources: &[Vec<Line>],
    gate: &G,
) -> Result<Finished, PlayFault>
    ensures config { (fault : ConfigFault) → (result ≡ Err (PlayFault.Config fault)) ↔ (fault_of config ≡ Some fault) }
    ensures sources { (result ≡ Err PlayFault.Sources) ↔
        ((fault_of config ≡ None) × (callers_fit (length sources.now) ≡ false)) }

    // The fault F1 of finishing, that memory ran out, is never answered.
    ensures memory { result ≢ Err (PlayFault.Finish ends.NoMemory) }

    // The one fault of finishing is that a network was not given all lines of each source, or that a frame of it waits.
    ensures finish { (fault : FinishFault) → result ≡ Err (PlayFault.Finish fault) → fault ≡ ends.Uncovered }

    // Each section is that of the network alone, with its own events; what left of it is all that it sent; and each event
    // was given by one source, of whose events a network took the first, and all where it is not full.
    ensures played { IfOk result (IsPlayOf config (map (λ s. s.items) sources.now)) }
{
    let parts = Parts::open(alloc, config, Sources::Lists(sources), true)?;
    finish_named::<Brand, G, R>(rt, alloc, parts, gate)
}

/// What [`play_with_frames`] does of a configuration without a fault.
fn networks_named<N: PlayName + Send + Sync, R: Threads + Wait + Sync>(
    rt: &R,
    alloc: Global,
    parts: Parts<'_>,
) -> Result<Vec<NetworkWithFrames>, PlayFault>
    requires { parts ≡ N.play }
    ensures err { IfErr result IsPlayFault }
    ensures played { IfOk result (λ logs. IsPlayWithFrames N.play.config N.play.sources logs.items) }
{
    let (networks, left) = play_named::<N, NoGate, R>(rt, alloc, parts, &NoGate, MOST_LINES)?;
    let logs = networks_after::<N>(alloc, networks, left)?;
    Ok(logs)
}

/// What [`play_finished`] does of a configuration without a fault.
fn finish_named<N: PlayName + Send + Sync, G: Gate + Sync, R: Threads + Wait + Sync>(
    rt: &R,
    alloc: Global,
    parts: Parts<'_>,
    gate: &G,
) -> Result<Finished, PlayFault>
    requires named { parts ≡ N.play }
    requires keeps { N.play.keeps ≡ true }
    ensures err { IfErr result IsPlayFault }
    ensures played { IfOk result (IsPlayOf N.play.config N.play.sources) }
{
    let sources = parts.sources;
    let (networks, left) = play_named::<N, G, R>(rt, alloc, parts, gate, 1)?;
    let end = finish::<N>(alloc, sources, networks, left)?;
    Ok(end)
}

/// Plays the lines of sources, this many of a source together, and answers the networks, and what left.
fn play_named<N: PlayName + Send + Sync, G: Gate + Sync, R: Threads + Wait + Sync>(
    rt: &R,
    alloc: Global,
    parts: Parts<'_>,
    gate: &G,
    together: usize,
) -> Result<(Vec<PlayedNetwork>, Left), PlayFault>
    requires { parts ≡ N.play }
    ensures err { IfErr result IsPlayFault }
    ensures end { IfOk result (λ r. IsEnd N.play r.0.items r.1.logs.items r.1.items.items) }
{
    let sources = parts.sources;
    let networks = LockedNetworks::<N>::open(alloc, parts)?;
    run_sources(rt, alloc, &networks, sources, gate, together)?;
    networks.into_end(rt, alloc, sources)
}
