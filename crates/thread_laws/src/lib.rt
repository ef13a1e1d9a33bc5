//! What follows for an access point of threads, from what it ends with, and for the radio that runs step by step
//! (*profile*).
//!
//! The law [`as_steps`] ties the two: what a run with threads hands out is what some list of steps of a radio gives. So
//! all that is said of a radio's steps is said of it too, as that no network touches another (`two_worlds` of `bss_core`).
//! Which steps they are stands in the definitions (`Steps`). How threads run is left to `workers` and `play`.
#![tactic(auto)]

mod laws;

pub use laws::as_steps;
