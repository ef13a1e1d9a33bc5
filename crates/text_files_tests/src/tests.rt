//! What the calls do over listed files, beside what their contracts say: that they read what there is, and which of two
//! faults they tell if memory runs out as a file is read. `tests/devices` shows the same of the files of the system
//! but for these.

use crate::{Content, NamedFile, Reading, check_listed, live_listed, play_listed, run_listed};
use fixtures::texts::{ANSWERED_REPORT, CONFIGURATION, PROBE_LINE};
use live::InLines;
use std::alloc::Global;
use std::sync::Wait;
use std::test::Fail;
use std::thread::Threads;
use text_files::Fault;
use text_io::Counted;

/// The names of a configuration and of two traces; the last has spaces.
const RADIO: &str = "radio.toml";

const TRACE: &str = "trace";

const OTHER: &str = " two  words ";

/// How a call ended: what a user is told, nothing if it ended well, and what was written.
type Ended = (String, Vec<u8>);

fn ended(alloc: Global, answer: Result<(), Fault>, out: Counted<Vec<u8>>) -> Result<Ended, Fail> {
    let told = match answer {
        Ok(()) => String::new(alloc),
        Err(fault) => format!(in alloc; "{fault}")?,
    };
    Ok((told, out.into_inner()))
}

fn check(alloc: Global, files: &[NamedFile<'_>]) -> Result<Ended, Fail> {
    let mut out = Counted::new(Vec::new(alloc));
    let answer = check_listed(files, alloc, RADIO, &mut out);
    ended(alloc, answer, out)
}

fn run(alloc: Global, files: &[NamedFile<'_>]) -> Result<Ended, Fail> {
    let mut out = Counted::new(Vec::new(alloc));
    let answer = run_listed(files, alloc, RADIO, TRACE, &mut out);
    ended(alloc, answer, out)
}

fn play<T: Threads + Wait + Sync>(
    threads: &T,
    alloc: Global,
    files: &[NamedFile<'_>],
    traces: &[&str],
) -> Result<Ended, Fail> {
    let mut out = Counted::new(Vec::new(alloc));
    let answer = play_listed(files, threads, alloc, RADIO, traces, &mut out);
    ended(alloc, answer, out)
}

fn live(alloc: Global, files: &[NamedFile<'_>]) -> Result<Ended, Fail> {
    let mut out = Counted::new(Vec::new(alloc));
    let mut input = Counted::new([].as_slice());
    let answer = live_listed::<InLines, _, _>(files, alloc, RADIO, &mut input, &mut out);
    ended(alloc, answer, out)
}

/// A file that stands on a disk, or doesn't, and gives this text.
fn text<'a>(name: &'a str, on_disk: bool, text: &'a str) -> NamedFile<'a> {
    file(name, on_disk, text.as_bytes(), Reading::Gives)
}

fn file<'a>(name: &'a str, on_disk: bool, held: &'a [u8], reading: Reading) -> NamedFile<'a> {
    NamedFile {
        name,
        content: Content {
            on_disk,
            held,
            grown: &[],
            reading,
        },
    }
}

/// A file that holds the first half of a text as it is opened, and grows by the second before it is read.
fn growing<'a>(name: &'a str, text: &'a str) -> NamedFile<'a> {
    let (held, grown) = text.as_bytes().split_at(text.len() / 2);
    NamedFile {
        name,
        content: Content {
            on_disk: true,
            held,
            grown,
            reading: Reading::Gives,
        },
    }
}

/// Memory runs out as one file is read, and another can't be read: the first in the order of the words is told, whether
/// they stand on a disk or not.
#[test]
fn the_first_file_is_told_where_memory_runs_out(rt: HostRuntime) -> Result<(), Fail> {
    let traces = [TRACE, OTHER].as_slice();
    let radio = text(RADIO, true, CONFIGURATION);
    for on_disk in [false, true] {
        let large = |name| file(name, on_disk, &[], Reading::TakesTooMuch);
        let folder = |name| file(name, false, &[], Reading::Fails);
        let sound = text(OTHER, on_disk, PROBE_LINE);
        for (files, line) in [
            ([large(RADIO), folder(TRACE), sound], "fault memory"),
            (
                [folder(RADIO), large(TRACE), sound],
                "fault file radio.toml",
            ),
            ([large(TRACE), large(OTHER), sound], "fault file radio.toml"),
            ([radio, large(TRACE), folder(OTHER)], "fault memory"),
            ([radio, folder(TRACE), large(OTHER)], "fault file trace"),
            ([radio, large(TRACE), large(OTHER)], "fault memory"),
        ] {
            let (told, written) = play(&rt, rt.alloc(), files.as_slice(), traces)?;
            assert_eq!(rt; told.as_str(), line);
            assert!(rt; written.is_empty());
        }
    }
    Ok(())
}

/// The same of `run`, which reads its trace as it comes. It takes no memory for what it reads of it, so that if a read
/// finds none, the trace can't be read.
#[test]
fn the_configuration_is_told_before_the_trace(rt: HostRuntime) -> Result<(), Fail> {
    let large = |name| file(name, true, &[], Reading::TakesTooMuch);
    let folder = |name| file(name, false, &[], Reading::Fails);
    let radio = text(RADIO, true, CONFIGURATION);
    for (files, line) in [
        ([large(RADIO), folder(TRACE)], "fault memory"),
        ([folder(RADIO), large(TRACE)], "fault file radio.toml"),
        ([large(TRACE), folder(OTHER)], "fault file radio.toml"),
        ([radio, large(TRACE)], "fault file trace"),
    ] {
        let (told, written) = run(rt.alloc(), files.as_slice())?;
        assert_eq!(rt; told.as_str(), line);
        assert!(rt; written.is_empty());
    }
    Ok(())
}

/// Files are read to their end, also if they have grown since they were opened, or their length is 0.
#[test]
fn files_that_grow_and_pipes_are_read_whole(rt: HostRuntime) -> Result<(), Fail> {
    let alloc = rt.alloc();
    for files in [
        [growing(RADIO, CONFIGURATION), growing(TRACE, PROBE_LINE)],
        [
            text(RADIO, false, CONFIGURATION),
            text(TRACE, false, PROBE_LINE),
        ],
    ] {
        let files = files.as_slice();
        let (told, written) = check(alloc, files)?;
        assert_eq!(rt;
            (told.as_str(), written.as_slice()),
            ("", b"ok 1\n".as_slice())
        );
        for (told, written) in [run(alloc, files)?, play(&rt, alloc, files, &[TRACE])?] {
            assert_eq!(rt; told.as_str(), "");
            assert_eq!(rt; written.as_slice(), ANSWERED_REPORT.as_bytes());
        }
        let (told, written) = live(alloc, files)?;
        assert_eq!(rt; told.as_str(), "");
        assert!(rt; written.as_slice().starts_with(b"ok 1\n"));
    }
    Ok(())
}
