//! Tests of the crate `air_share`, over its public calls.
//!
//! They stand beside that crate since a crate with tests is proved twice.
#![tactic(auto)]

#[cfg(test)]
mod lane_tests;
