//! Tests of the crate `workers`, over its public calls.
//!
//! They show what no contract says: that networks answer while another is looked at, that an event changes its
//! network at once, that frames move when they are pumped, and that calls succeed if there is memory.
#![tactic(auto)]

#[cfg(test)]
mod tests;
