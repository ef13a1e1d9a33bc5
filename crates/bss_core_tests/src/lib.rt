//! Tests of the crate `bss_core`, over its public calls: on one network, with its history and without (`network`), on a
//! radio of two (`radio`), and on runs of such a radio (`runs`).
//!
//! They show what no contract says, that calls succeed if there is memory, on octets from outside, and what only a
//! caller of the crate sees. What the networks send of a trace, examples of the program show. They stand beside that
//! crate since a crate with tests is proved twice.
#![tactic(auto)]

#[cfg(test)]
mod tests;
