//! Tests of the crate `live`, over its public calls.
//!
//! They show, in both faces, what no contract says: that calls succeed if there is memory, that each answer is with
//! the sink when the source is asked for more, and readers and writers that fail after each octet. Each row of the
//! tables of docs/FORMATS.md on records is met, and each fault but for memory that is refused, which `tests/octets`
//! shows, and the end of the clock. They stand beside that crate since a crate with tests is proved twice.
#![tactic(auto)]

#[cfg(test)]
mod lines;
#[cfg(test)]
mod records;
#[cfg(test)]
mod samples;
#[cfg(test)]
mod streams;
#[cfg(test)]
mod tests;
