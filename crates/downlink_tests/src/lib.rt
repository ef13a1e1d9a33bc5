//! Tests of the crate `downlink`, over its public calls.
//!
//! They show what no contract says: that calls succeed where there is memory. They stand beside that crate since a
//! crate with tests is proved twice.
//!
//! A test is rows of calls and their answers, and asserts once: one that asserts much itself, while a queue is at hand,
//! takes long to prove.
#![tactic(auto)]

#[cfg(test)]
mod network_tests;
#[cfg(test)]
mod radio_tests;
#[cfg(test)]
mod receiver_tests;
