//! The threads of several sources.

ghost use Rattle.std.specs.Prelude.{◌≡◌, ◌+◌, ◌-◌, ◌^◌, min, IfErr};
ghost use Rattle.play.specs.Faults.{IsPlayFault};
ghost use Rattle.play.specs.Sources.{lists_of};

use crate::PlayFault;
use crate::batch::Batch;
use crate::gate::Gate;
use crate::locked_networks::{LockedNetworks, Relief};
use crate::name::PlayName;
use crate::sources::{Source, Sources, sources_of};
use mac_frame::NoMemory;
use std::alloc::Global;
use std::sync::Wait;
use std::thread;
use std::thread::{JoinHandle, Scope, Threads};

/// Runs a thread for each source, which gives its lines to the networks, and waits for all of them.
pub(crate) fn run_sources<N: PlayName + Send + Sync, G: Gate + Sync, R: Threads + Wait + Sync>(
    rt: &R,
    alloc: Global,
    networks: &LockedNetworks<N>,
    all: Sources<'_>,
    gate: &G,
    together: usize,
) -> Result<(), PlayFault>
    requires { lists_of all ≡ N.play.sources }
    ensures { IfErr result IsPlayFault }
{
    let sources = sources_of::<N>(alloc, all)?;
    thread::scope(
        thread::scope_env(),
        rt,
        move |scope| -> Result<(), PlayFault>
            ensures { IfErr result IsPlayFault }
        {
            let threads = start_sources(rt, alloc, scope, networks, sources, gate, together)?;
            join_sources(rt, threads)
        },
    )
}

/// Starts a thread for each source, in order.
fn start_sources<
    's,
    'e: 's,
    'a: 'e,
    N: PlayName + Send + Sync,
    G: Gate + Sync,
    R: Threads + Wait + Sync,
>(
    rt: &'e R,
    alloc: Global,
    scope: &Scope<'s, &'e ()>,
    networks: &'e LockedNetworks<N>,
    sources: Vec<Source<'a, N>>,
    gate: &'e G,
    together: usize,
) -> Result<Vec<JoinHandle<Result<(), NoMemory>>>, PlayFault>
    ensures { IfErr result IsPlayFault }
{
    let mut threads = Vec::with_capacity(alloc, sources.len())?;
    for source in sources {
        threads.push(scope.spawn(move || {
            play_source(rt, alloc, networks, source, gate, together)
        })?)?;
    }
    Ok(threads)
}

/// Waits for each thread. `NoMemory` where memory ran out in one.
fn join_sources<R: Threads>(
    rt: &R,
    threads: Vec<JoinHandle<Result<(), NoMemory>>>,
) -> Result<(), PlayFault>
    ensures { IfErr result IsPlayFault }
{
    for thread in threads {
        thread.join(rt)?;
    }
    Ok(())
}

/// Gives the lines of a source to the networks, this many of them at a time, each time when the gate lets it.
fn play_source<N: PlayName, G: Gate, R: Wait>(
    rt: &R,
    alloc: Global,
    networks: &LockedNetworks<N>,
    source: Source<'_, N>,
    gate: &G,
    together: usize,
) -> Result<(), NoMemory> {
    let mut relief = Relief::new(alloc);
    let number = u32::try_from(source.number).unwrap_or(u32::MAX);
    let mut first = 0;
    while first < source.len() {
        gate.before(number, number_of(first));
        let end = first.saturating_add(together.max(1)).min(source.len());
        let batch = Batch::read(alloc, &source, first, end)?;
        networks.give(rt, alloc, &batch, &mut relief)?;
        first = end;
    }
    Ok(())
}

/// The number of a line at a place, from 1, as the gate is told it; 4,294,967,295 from there on.
fn number_of(line: usize) -> u32
    ensures { result ≡ min (line + 1) (2 ^ 32 - 1) }
{
    u32::try_from(line).unwrap_or(u32::MAX).saturating_add(1)
}
