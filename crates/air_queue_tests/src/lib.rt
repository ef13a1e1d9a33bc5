//! Tests of the crate `air_queue`, over its public calls: frames through a queue, of as many networks as there may be,
//! and on one thread and on three.
//!
//! They show what no contract says: that calls succeed if there is memory, that a frame comes back only from a full
//! queue, that a pop finds what was pushed, and that threads get on. They stand beside that crate since a crate with
//! tests is proved twice.
#![tactic(auto)]

#[cfg(test)]
mod tests;
