//! What the program is asked for.

use crate::page::Page;

/// What words ask for.
#[derive(Drop)]
pub enum Asked<'a> {
    /// To do something.
    Task(Task<'a>),
    /// A page of the program, alone.
    Page(Page),
    /// Nothing that the program does.
    Nothing,
}

/// What the program is asked to do.
#[derive(Drop)]
pub enum Task<'a> {
    /// Without a word: run what standard input holds, a configuration and a trace.
    Joined,
    /// `check CONFIG`: read the configuration of a file.
    Check {
        /// The file's name, the word as it stands.
        config: &'a str,
    },
    /// `run CONFIG TRACE`: run the trace of a file on the configuration of another.
    Run {
        /// The configuration's file.
        config: &'a str,
        /// The trace's file.
        trace: &'a str,
    },
    /// `play CONFIG TRACE...`: play the traces of several files at once, on the configuration of another.
    Play {
        /// The configuration's file.
        config: &'a str,
        /// The traces' files, in order.
        traces: Vec<&'a str>,
    },
    /// `live CONFIG`: answer the lines of standard input as they come, on the configuration of a file.
    Live {
        /// The configuration's file.
        config: &'a str,
    },
    /// `live --octets CONFIG`: answer the records of standard input as they come, on the configuration of a file.
    LiveOctets {
        /// The configuration's file.
        config: &'a str,
    },
}
