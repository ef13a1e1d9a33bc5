//! The words that the program `apctl` is given after its name (*profile*).
//!
//! [`asked_of`] answers what they ask for: a [`Task`], a [`Page`] of the program itself, or nothing. It promises which
//! words ask for which page, and that no others do; [`write_page`] promises which text is written for a page. Neither
//! promises which words ask for which task: what the built program does shows that. Files, and the fault of words that
//! ask for no task, are left to the program.
#![tactic(auto)]

ghost use Rattle.std.specs.Prelude.{◌≡◌, None, IfOk, OnErr, map, string_bytes};
ghost use Rattle.words.specs.Pages.{asked_page, page_for};

mod asked;
mod page;

pub use asked::{Asked, Task};
use clap::error::ErrorKind;
use clap::{Arg, ArgAction, ArgMatches, Command};
use page::page_of;
pub use page::{Page, write_page};
use std::alloc::{AllocError, Global};

/// The subcommand that reads a configuration.
const CHECK: &str = "check";

/// The subcommand that runs a trace.
const RUN: &str = "run";

/// The subcommand that plays several traces at once.
const PLAY: &str = "play";

/// The subcommand that answers lines or records as they come.
const LIVE: &str = "live";

/// The word that asks for records in place of lines.
const OCTETS: &str = "octets";

/// What stands for the name of a configuration's file.
const CONFIG: &str = "CONFIG";

/// What stands for the name of a trace's file, or for those of several.
const TRACE: &str = "TRACE";

/// What the words ask for, of which the first is the program's own name. A page is told exactly if they ask for it.
/// `AllocError` if memory ran out, never where they ask for a page.
pub fn asked_of<'a>(alloc: Global, words: &'a [String]) -> Result<Asked<'a>, AllocError>
    ensures page { IfOk result (λ asked. asked_page asked ≡ page_for (map string_bytes words.now)) }
    ensures memory { OnErr result (page_for (map string_bytes words.now) ≡ None) }
{
    if let Some(page) = page_of(words) {
        return Ok(Asked::Page(page));
    }
    Ok(task_of(alloc, words)?.map_or(Asked::Nothing, Asked::Task))
}

/// The task that the words ask for, if any.
fn task_of<'a>(alloc: Global, words: &'a [String]) -> Result<Option<Task<'a>>, AllocError> {
    if words.len() <= 1 {
        return Ok(Some(Task::Joined));
    }
    match command(alloc)?.try_get_matches_from(words) {
        Ok(matches) => matched(alloc, &matches),
        Err(error) if error.kind() == ErrorKind::OutOfMemory => Err(AllocError),
        Err(_) => Ok(None),
    }
}

/// The program's subcommands with the files that each needs.
fn command<'a>(alloc: Global) -> Result<Command<'a>, AllocError> {
    let root = Command::new(alloc, "apctl").subcommand_required(true);
    let root = with_check(alloc, root)?;
    let root = with_run(alloc, root)?;
    let root = with_play(alloc, root)?;
    with_live(alloc, root)
}

/// `check CONFIG`, after the subcommands that are there.
fn with_check<'a>(alloc: Global, root: Command<'a>) -> Result<Command<'a>, AllocError> {
    root.subcommand(Command::new(alloc, CHECK).arg(file(alloc, CONFIG))?)
}

/// `run CONFIG TRACE`, after the subcommands that are there.
fn with_run<'a>(alloc: Global, root: Command<'a>) -> Result<Command<'a>, AllocError> {
    root.subcommand(with_traces(alloc, RUN, file(alloc, TRACE))?)
}

/// `play CONFIG TRACE...`, after the subcommands that are there.
fn with_play<'a>(alloc: Global, root: Command<'a>) -> Result<Command<'a>, AllocError> {
    root.subcommand(with_traces(alloc, PLAY, file(alloc, TRACE).num_args(1..))?)
}

/// `live CONFIG` and `live --octets CONFIG`, after the subcommands that are there.
fn with_live<'a>(alloc: Global, root: Command<'a>) -> Result<Command<'a>, AllocError> {
    let octets = Arg::new(alloc, OCTETS)
        .long(OCTETS)
        .action(ArgAction::SetTrue);
    let live = Command::new(alloc, LIVE)
        .arg(octets)?
        .arg(file(alloc, CONFIG))?;
    root.subcommand(live)
}

/// A subcommand of a configuration and traces.
fn with_traces<'a>(
    alloc: Global,
    name: &'a str,
    traces: Arg<'a>,
) -> Result<Command<'a>, AllocError> {
    Command::new(alloc, name)
        .arg(file(alloc, CONFIG))?
        .arg(traces)
}

/// The name of a file, which must be there.
fn file<'a>(alloc: Global, id: &'a str) -> Arg<'a> {
    Arg::new(alloc, id).required(true)
}

/// The task of words that were accepted. None for another subcommand than those of [`command`]. `AllocError` if
/// memory ran out.
fn matched<'a>(alloc: Global, matches: &ArgMatches<'a>) -> Result<Option<Task<'a>>, AllocError> {
    let Some((name, files)) = matches.subcommand() else {
        return Ok(None);
    };
    let (Some(config), trace) = (files.get_str(CONFIG), files.get_str(TRACE)) else {
        return Ok(None);
    };
    match (name, trace) {
        (CHECK, _) => Ok(Some(Task::Check { config })),
        (RUN, Some(trace)) => Ok(Some(Task::Run { config, trace })),
        (PLAY, _) => played(alloc, config, files.get_strs(TRACE)),
        (LIVE, _) if files.get_flag(OCTETS) => Ok(Some(Task::LiveOctets { config })),
        (LIVE, _) => Ok(Some(Task::Live { config })),
        _ => Ok(None),
    }
}

/// The task of playing these traces, if there are any.
fn played<'a>(
    alloc: Global,
    config: &'a str,
    traces: Option<&[&'a str]>,
) -> Result<Option<Task<'a>>, AllocError> {
    let Some(names) = traces else {
        return Ok(None);
    };
    let mut traces = Vec::new(alloc);
    for name in names {
        traces.push(*name)?;
    }
    Ok(Some(Task::Play { config, traces }))
}
