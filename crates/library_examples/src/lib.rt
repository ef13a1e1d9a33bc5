//! Programs on the crates of this repository, which `docs/LIBRARY.md` shows word for word: on a network alone
//! ([`take_all`], [`answer`]), on a radio ([`serve`], [`sections`]), and on an access point whose networks run at the same time
//! ([`run_two`]).
//!
//! Each is what a caller writes, with what the contracts of the crates give it. They are examples: only tests stand on
//! them, those of `workers_tests`.
#![tactic(auto)]

mod one_network;
mod radio;
mod threads;

pub use one_network::{answer, take_all};
pub use radio::{sections, serve};
pub use threads::run_two;
