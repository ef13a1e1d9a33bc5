//! The workloads of `bench/`: jobs that a user of this software waits for, over inputs that it draws from a seed.
//!
//! The words are a workload's name, how many acts its input has, and the seed; `all` runs each. It prints a line for
//! each: its name, how many octets the public calls wrote, and a digest of them, the same at each run with the same
//! words. `bench/run` compares the times of two builds; nothing in here looks at a clock.
//!
//! Nothing is promised here beyond what the libraries promise. What they are asked is that of a user: `run_stream`,
//! `Live::run`, `LiveRecords::run` and `play_text`.
#![tactic(auto)]

mod digest;
mod draw;
mod drawn_networks;
mod input;
mod job;
mod piece;
mod script;

use digest::Digest;
use drawn_networks::config_of;
use input::Input;
use job::{DAY, DOZE, GUESTS, Job, LINES, PLAY, RECORDS, SCAN};
use live::{Face, Live, LiveRecords};
use mac_frame::{NoMemory, Octets};
use play_text::play_text;
use replay::run_stream;
use script::Script;
use std::alloc::Global;
use std::env;
use std::process::ExitCode;
use std::sync::Wait;
use std::thread::Threads;
use text_io::Counted;

/// How many traces are played at once.
const TRACES: u8 = 4;

/// Each workload.
const NAMES: [&str; 6] = ["day", "records", "lines", "play", "doze", "guests"];

/// Why a workload did not run to its end.
#[derive(Debug, Drop)]
enum Flaw {
    /// Memory ran out.
    NoMemory,
    /// A call answered a fault, or the words name no workload.
    Refused,
}

impl From<NoMemory> for Flaw {
    fn from(_e: NoMemory) -> Flaw {
        Flaw::NoMemory
    }
}

fn main(rt: HostRuntime) -> ExitCode {
    match run_asked(&rt, &rt) {
        Ok(()) => ExitCode::SUCCESS,
        Err(_) => ExitCode::FAILURE,
    }
}

/// Runs the workload that the words ask for.
fn run_asked<T: Threads + Wait + Sync>(rt: &HostRuntime, threads: &T) -> Result<(), Flaw> {
    let words = env::args(rt).map_err(|_| Flaw::Refused)?;
    let words = words
        .collect::<Vec<String>>(rt.alloc())
        .map_err(|_| Flaw::NoMemory)?;
    let [_, name, acts, seed] = words.as_slice() else {
        return Err(Flaw::Refused);
    };
    let acts = acts.as_str().parse::<u32>().map_err(|_| Flaw::Refused)?;
    let seed = seed.as_str().parse::<u32>().map_err(|_| Flaw::Refused)?;
    for known in NAMES {
        if name.as_str() == known || name.as_str() == "all" {
            let digest = workload(threads, rt.alloc(), known, acts, seed)?;
            let (written, number) = (digest.written(), digest.number());
            println!(rt; "{known}: {written} octets, digest {number:016x}").map_err(
                |_| Flaw::Refused,
            )?;
        }
    }
    Ok(())
}

/// Runs a workload, and answers the digest of what it wrote.
fn workload<T: Threads + Wait + Sync>(
    threads: &T,
    alloc: Global,
    name: &str,
    acts: u32,
    seed: u32,
) -> Result<Digest, Flaw> {
    match name {
        "day" => replayed(alloc, &DAY, acts, seed),
        "records" => answered(alloc, &RECORDS, Face::Records, acts, seed),
        "lines" => answered(alloc, &LINES, Face::Lines, acts, seed),
        "play" => played(threads, alloc, acts, seed),
        "doze" => replayed(alloc, &DOZE, acts, seed),
        "guests" => replayed(alloc, &GUESTS, acts, seed),
        _ => Err(Flaw::Refused),
    }
}

/// Runs a trace that is read as it comes.
fn replayed(alloc: Global, job: &Job, acts: u32, seed: u32) -> Result<Digest, Flaw> {
    let config = config_of(alloc, job)?;
    let script = Script::new(alloc, job, (0, job.networks), Face::Lines, seed)?;
    let mut source = Counted::new(Input::new(script, acts));
    let mut out = Counted::new(Digest::new());
    match run_stream(alloc, config.as_bytes(), &mut source, &mut out) {
        Ok(()) => Ok(out.into_inner()),
        Err(_) => Err(Flaw::Refused),
    }
}

/// Runs an access point that answers as it is asked.
fn answered(alloc: Global, job: &Job, face: Face, acts: u32, seed: u32) -> Result<Digest, Flaw> {
    let config = config_of(alloc, job)?;
    let script = Script::new(alloc, job, (0, job.networks), face, seed)?;
    let mut source = Counted::new(Input::new(script, acts));
    let mut out = Counted::new(Digest::new());
    let answer = match face {
        Face::Lines => Live::run(alloc, config.as_bytes(), &mut source, &mut out),
        Face::Records => LiveRecords::run(alloc, config.as_bytes(), &mut source, &mut out),
    };
    match answer {
        Ok(()) => Ok(out.into_inner()),
        Err(_) => Err(Flaw::Refused),
    }
}

/// Plays four traces at once, each of two networks of its own, and then four in which one station asks all networks.
/// So what comes out does not hang on how the threads run.
fn played<T: Threads + Wait + Sync>(
    threads: &T,
    alloc: Global,
    acts: u32,
    seed: u32,
) -> Result<Digest, Flaw> {
    let digest = play_once(threads, alloc, &PLAY, acts, seed, Digest::new())?;
    play_once(threads, alloc, &SCAN, acts / 16, seed, digest)
}

/// Plays four traces at once, and goes on with a digest.
fn play_once<T: Threads + Wait + Sync>(
    threads: &T,
    alloc: Global,
    job: &Job,
    acts: u32,
    seed: u32,
    digest: Digest,
) -> Result<Digest, Flaw> {
    let traces = traces_of(alloc, job, acts, seed)?;
    let config = config_of(alloc, job)?;
    let mut out = Counted::new(digest);
    match play_text(
        threads,
        alloc,
        config.as_bytes(),
        traces.as_slice(),
        &mut out,
    ) {
        Ok(()) => Ok(out.into_inner()),
        Err(_) => Err(Flaw::Refused),
    }
}

/// Four traces, of two networks each.
fn traces_of(alloc: Global, job: &Job, acts: u32, seed: u32) -> Result<Vec<Octets>, NoMemory> {
    let mut traces = Vec::new(alloc);
    for trace in 0..TRACES {
        let seed = seed.wrapping_add(u32::from(trace));
        let script = Script::new(alloc, job, (2 * trace, 2), Face::Lines, seed)?;
        traces.push(Octets::from_vec(script.whole(acts)?))?;
    }
    Ok(traces)
}
