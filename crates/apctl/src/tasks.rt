//! What each form of the words does, over the program's files and streams. Files are opened in the order of the words,
//! and a configuration is read whole before anything is done with it.

use live::InFace;
use std::mem;
use std::sync::Wait;
use std::thread::Threads;
use text_files::{Fault, HostFiles, answer_input, check_file, play_files, run_files, run_input};
use text_io::Counted;

/// Runs what standard input holds, a configuration and a trace.
pub(crate) fn run_joined(rt: &HostRuntime) -> Result<(), Fault> {
    let mut out = Counted::new(rt.stdout());
    end_with(run_input(rt.alloc(), &mut rt.stdin(), &mut out)?);
    Ok(())
}

/// Reads the configuration of a file.
pub(crate) fn check_config(rt: &HostRuntime, config: &str) -> Result<(), Fault> {
    let mut out = Counted::new(rt.stdout());
    check_file(&mut HostFiles::new(rt), rt.alloc(), config, &mut out)
}

/// Runs the trace of a file, read as it comes, on the configuration of another.
pub(crate) fn run_trace(rt: &HostRuntime, config: &str, trace: &str) -> Result<(), Fault> {
    let mut out = Counted::new(rt.stdout());
    run_files(&mut HostFiles::new(rt), rt.alloc(), config, trace, &mut out)
}

/// Plays the traces of files, which are read whole, on the configuration of another, by threads that `threads` starts.
pub(crate) fn play_traces<T: Threads + Wait + Sync>(
    rt: &HostRuntime,
    threads: &T,
    config: &str,
    traces: &[&str],
) -> Result<(), Fault> {
    let mut out = Counted::new(rt.stdout());
    play_files(
        &mut HostFiles::new(rt),
        threads,
        rt.alloc(),
        config,
        traces,
        &mut out,
    )
}

/// Answers the lines or records of standard input as they come, on the configuration of a file.
pub(crate) fn answer<F: InFace>(rt: &HostRuntime, config: &str) -> Result<(), Fault> {
    let mut out = Counted::new(rt.stdout());
    let mut source = Counted::new(rt.stdin());
    answer_input::<F, _, _, _>(
        &mut HostFiles::new(rt),
        rt.alloc(),
        config,
        &mut source,
        &mut out,
    )
}

/// Ends with what was reported: the process ends now, and its memory goes back as a whole.
fn end_with<T: Drop>(reported: T) {
    mem::forget(reported);
}
