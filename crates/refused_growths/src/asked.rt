//! What standard input asks for.

use replay::split_joined;
use std::str;

/// A trial, how many allocations come before the calls that it tries, and its texts.
#[derive(Drop)]
pub struct Asked<'a> {
    /// The name of the trial.
    pub trial: &'a str,
    /// How many allocations come before the calls that it tries.
    pub before: u32,
    /// The text of a configuration.
    pub config: &'a [u8],
    /// The text of a trace.
    pub trace: &'a [u8],
}

/// What a text asks for; `None` if it is no such text.
pub(crate) fn asked_of(input: &[u8]) -> Option<Asked<'_>> {
    let Ok(text) = str::from_utf8(input) else {
        return None;
    };
    let (line, texts) = text.split_once('\n')?;
    let (trial, before) = line.split_once(' ')?;
    let Ok(before) = before.parse::<u32>() else {
        return None;
    };
    let (config, trace) = split_joined(texts.as_bytes());
    Some(Asked {
        trial,
        before,
        config,
        trace,
    })
}
