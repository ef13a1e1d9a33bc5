//! Tests of the crate `trace`, over its public calls.
//!
//! They show what no contract says, that calls succeed if there is memory, and what the program does not: pieces of
//! any length, and writers that fail. What it shows of a configuration, a trace and a report stands in `tests/`.
//! They stand beside that crate since a crate with tests is proved twice.
#![tactic(auto)]

#[cfg(test)]
mod reports;
#[cfg(test)]
mod traces;
