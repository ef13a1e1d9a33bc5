//! Tests of the crates `replay` and `play_text`, over their public calls.
//!
//! They show what neither a contract nor a run of the program shows: that calls succeed if there is memory, and what
//! they answer if readers and writers fail, texts come in pieces, or histories are full. What the program writes of
//! a configuration and traces is shown by `tests/`. They stand beside those crates since a crate with tests is proved
//! twice.
#![tactic(auto)]

#[cfg(test)]
mod cut_frames;
#[cfg(test)]
mod line_by_line;
#[cfg(test)]
mod playing;
#[cfg(test)]
mod streams;
#[cfg(test)]
mod texts;
