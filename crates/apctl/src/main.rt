//! The program `apctl` (*profile*): its words, and the streams and files of the system, around the library
//! `text_files`.
//!
//! It promises nothing of words, of the process's streams and files, or of the lines of faults: what the built program
//! does shows them (`tests/`), and so it has no tests of its own. The crate `text_files` promises what each form of the
//! words does over any file system, source and sink, and with which exit status a fault ends it. Here the answer for a
//! fault is that exit status, or 3 or 4. That it is 3 or 4 only where its line couldn't be written is tested.
#![tactic(auto)]

ghost use Rattle.std.specs.Prelude.{◌≡◌, ◌⊎◌};
ghost use Rattle.text_files.specs.Faults.{status_of};

mod tasks;

use live::{InLines, InRecords};
use std::env;
use std::io::ErrorKind;
use std::process::ExitCode;
use std::sync::Wait;
use std::thread::Threads;
use tasks::{answer, check_config, play_traces, run_joined, run_trace};
use text_files::{Fault, show_fault};
use text_io::{Counted, ReportFault};
use words::{Asked, Task, asked_of, write_page};

/// The exit status if the line of a fault can't be written.
const UNWRITTEN: u8 = 4;

fn main(rt: HostRuntime) -> ExitCode {
    match run(&rt, &rt) {
        Ok(()) => ExitCode::SUCCESS,
        Err(fault) => ExitCode::from(tell(&rt, &fault)),
    }
}

/// Writes the line of a fault to standard error, or that of `Memory` if there is none for it, and answers the exit
/// status that goes with what was written.
fn tell(rt: &HostRuntime, fault: &Fault) -> u8
    ensures { (result ≡ status_of fault.now) ⊎ ((result ≡ 3) ⊎ (result ≡ 4)) }
{
    let mut out = Counted::new(rt.stderr());
    let shown = match show_fault(rt.alloc(), fault, &mut out) {
        Err(ReportFault::NoMemory) => show_fault(rt.alloc(), &Fault::Memory, &mut out),
        shown => shown,
    };
    shown.unwrap_or(UNWRITTEN)
}

/// Does what the words ask for. `threads` starts the threads of `play`.
fn run<T: Threads + Wait + Sync>(rt: &HostRuntime, threads: &T) -> Result<(), Fault> {
    let words = given_words(rt)?;
    match asked_of(rt.alloc(), words.as_slice())? {
        Asked::Task(task) => perform(rt, threads, &task),
        Asked::Page(page) => {
            // words that ask for no task are the fault, also where the page can't be written
            let _ = write_page(page, &mut Counted::new(rt.stdout()));
            Err(Fault::Words)
        }
        Asked::Nothing => Err(Fault::Words),
    }
}

/// Performs a task.
fn perform<T: Threads + Wait + Sync>(
    rt: &HostRuntime,
    threads: &T,
    task: &Task<'_>,
) -> Result<(), Fault> {
    match task {
        Task::Joined => run_joined(rt),
        Task::Check { config } => check_config(rt, config),
        Task::Run { config, trace } => run_trace(rt, config, trace),
        Task::Play { config, traces } => play_traces(rt, threads, config, traces.as_slice()),
        Task::Live { config } => answer::<InLines>(rt, config),
        Task::LiveOctets { config } => answer::<InRecords>(rt, config),
    }
}

/// The words that the program was given, its own name first.
fn given_words(rt: &HostRuntime) -> Result<Vec<String>, Fault> {
    match env::args(rt) {
        Ok(words) => Ok(words.collect(rt.alloc())?),
        Err(e) if e.kind() == ErrorKind::OutOfMemory => Err(Fault::Memory),
        Err(_) => Err(Fault::Words),
    }
}
