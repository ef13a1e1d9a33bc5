//! What each form of the words does over listed files, by the contracts of `text_files` alone.

ghost use Rattle.std.specs.Prelude.{◌≡◌, ◌∷◌, [], map};
ghost use Rattle.std.specs.Io.KnownBytes.{Keeps};
ghost use Rattle.text_io.specs.Sinks.{MayFail};
ghost use Rattle.live.specs.Run.{seen, streams};
ghost use Rattle.text_files.specs.Files.{names_of};
ghost use Rattle.text_files_tests.specs.ListedFiles.{listed, named};
ghost use Rattle.text_files_tests.specs.Outcome.{Answers, Checks, EndsBy, EndsRunBy, Plays, outcome};

use crate::listed_files::{ListedFiles, NamedFile};
use live::InFace;
use std::alloc::Global;
use std::sync::Wait;
use std::thread::Threads;
use text_files::{Fault, answer_input, check_file, play_files, run_files};
use text_io::{Sink, Source};

/// Checks the configuration of a listed file.
pub fn check_listed<W: Sink>(
    files: &[NamedFile<'_>],
    alloc: Global,
    config: &str,
    out: &mut W,
) -> Result<(), Fault>
    requires { MayFail (W.failed out.old) }
    ensures { EndsBy (outcome (map listed files.now) (config.now ∷ []))
        (λ texts. Checks texts result (W.taken out.old) (W.taken out.new)) result
        (Keeps (W.taken out.old) (W.taken out.new)) }
{
    let mut system = ListedFiles::new(files);
    check_file(&mut system, alloc, config, out)
}

/// Runs the trace of a listed file on the configuration of another.
pub fn run_listed<W: Sink>(
    files: &[NamedFile<'_>],
    alloc: Global,
    config: &str,
    trace: &str,
    out: &mut W,
) -> Result<(), Fault>
    requires { MayFail (W.failed out.old) }
    ensures { EndsRunBy (outcome (map listed files.now) (config.now ∷ [])) (named (map listed files.now) trace.now)
        trace.now result
        (record { taken = W.taken out.old; failed = W.failed out.old })
        (record { taken = W.taken out.new; failed = W.failed out.new }) }
{
    let mut system = ListedFiles::new(files);
    run_files(&mut system, alloc, config, trace, out)
}

/// Plays the traces of listed files on the configuration of another. It may wait for other threads.
pub fn play_listed<T: Threads + Wait + Sync, W: Sink>(
    files: &[NamedFile<'_>],
    threads: &T,
    alloc: Global,
    config: &str,
    traces: &[&str],
    out: &mut W,
) -> Result<(), Fault>
    requires { MayFail (W.failed out.old) }
    ensures { EndsBy (outcome (map listed files.now) (config.now ∷ names_of traces.now))
        (λ texts. Plays texts result (W.taken out.old) (W.taken out.new)) result
        (Keeps (W.taken out.old) (W.taken out.new)) }
{
    let mut system = ListedFiles::new(files);
    play_files(&mut system, threads, alloc, config, traces, out)
}

/// Answers what a source says on the configuration of a listed file.
pub fn live_listed<F: InFace, R: Source, W: Sink>(
    files: &[NamedFile<'_>],
    alloc: Global,
    config: &str,
    input: &mut R,
    out: &mut W,
) -> Result<(), Fault>
    requires input { MayFail (R.failed input.old) }
    requires out { MayFail (W.failed out.old) }
    ensures { let old = streams (seen (R.left input.old) (R.failed input.old) (R.reads input.old))
        (W.taken out.old) (W.failed out.old) in
        let new = streams (seen (R.left input.new) (R.failed input.new) (R.reads input.new))
        (W.taken out.new) (W.failed out.new) in
        EndsBy (outcome (map listed files.now) (config.now ∷ [])) (λ texts. Answers texts F.face result old new) result
        (new ≡ old) }
{
    let mut system = ListedFiles::new(files);
    answer_input::<F, _, _, _>(&mut system, alloc, config, input, out)
}
