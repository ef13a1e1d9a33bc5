//! Tests of the crate `play`, over its public calls.
//!
//! They show what no contract says: that a play succeeds if there is memory, and that no source waits for the end of
//! another.
#![tactic(auto)]

#[cfg(test)]
mod tests;
