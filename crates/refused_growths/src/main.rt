//! A program for tests: calls of the libraries in a run in which one allocation fails (*profile*).
//!
//! Standard output then holds a line of what was refused and what the trial wrote. That is the report, before which the
//! lines stand that an access point was not given, since memory ran out; or it is the answers to lines as they came.
//!
//! Nothing is promised here beyond what the libraries promise. The trials show on the real calls that a failed
//! allocation changes nothing, and that what is offered again is taken.
#![tactic(auto)]

mod answered;
mod answered_records;
mod asked;
mod callers;
mod lines;
mod one_network;
mod outcome;
mod texts;

use answered::answer_lines;
use answered_records::answer_records;
use asked::{Asked, asked_of};
use callers::give_lines;
use lines::feed_pieces;
use one_network::take_each;
use outcome::{Flaw, ROOM};
use std::alloc::Global;
use std::io::{Read, Write};
use std::process::ExitCode;
use std::sync::Wait;
use std::thread::Threads;
use texts::write_twice;

/// If something beside the calls failed, the trial begins anew; in a run in which one allocation fails this happens
/// once at most.
fn main(rt: HostRuntime) -> ExitCode {
    let mut input = Vec::new(rt.alloc());
    if rt.stdin().read_to_end(&mut input).is_err() {
        return ExitCode::FAILURE;
    }
    let Some(asked) = asked_of(input.as_slice()) else {
        return ExitCode::FAILURE;
    };
    let Ok(mut report) = Vec::with_capacity(rt.alloc(), ROOM) else {
        return ExitCode::FAILURE;
    };
    let mut met = "refused nothing\n";
    let mut tried = trial(&rt, rt.alloc(), &asked, &mut report);
    if let Err(Flaw::Beside) = tried {
        met = "refused beside the calls\n";
        report.clear();
        tried = trial(&rt, rt.alloc(), &asked, &mut report);
    }
    let (line, status) = match tried {
        Ok(false) => (met, ExitCode::SUCCESS),
        Ok(true) => ("refused in a call\n", ExitCode::SUCCESS),
        Err(Flaw::Beside) => ("wrong: what is not tried failed twice\n", ExitCode::FAILURE),
        Err(Flaw::Wrong(line)) => (line, ExitCode::FAILURE),
    };
    let mut out = rt.stdout();
    if out.write_all(line.as_bytes()).is_err() || out.write_all(report.as_slice()).is_err() {
        return ExitCode::FAILURE;
    }
    status
}

/// Tries the calls of a name. Answers whether memory ran out in one.
fn trial<R: Threads + Wait + Sync>(
    rt: &R,
    alloc: Global,
    asked: &Asked<'_>,
    report: &mut Vec<u8>,
) -> Result<bool, Flaw> {
    match asked.trial {
        // `Bss::take` for each line; an event that was refused is offered again.
        "take" => take_each(alloc, asked, report),
        // The calls of one caller on an access point, none of which is made again, and its end.
        "neighbour" => give_lines(rt, alloc, asked, 1, report),
        // The same, by two callers in turn.
        "finish" => give_lines(rt, alloc, asked, 2, report),
        // `LineReader::feed`, in small pieces, and `end`; a piece that was refused is offered again.
        "lines" => feed_pieces(alloc, asked, report),
        // `Live::feed` for each line, none of which is offered again, and `end`.
        "live" => answer_lines(alloc, asked, report),
        // `LiveRecords::run` over the lines as records, none of which is offered again; made again if it read none.
        "records" => answer_records(alloc, asked, report),
        // The calls of these names that write a report, `play` with the trace as the only one.
        "report" | "text" | "stream" | "sections" | "play" => write_twice(rt, alloc, asked, report),
        _ => Err(Flaw::Wrong("wrong: there is no such trial\n")),
    }
}
