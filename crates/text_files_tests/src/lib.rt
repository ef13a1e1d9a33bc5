//! Tests of the crate `text_files` over a file system that contracts see.
//!
//! [`ListedFiles`] is a file system of a list: names, and what becomes of each file. On it the contracts of
//! [`run_files`](text_files::run_files) and its like say all that is read, and which file is told: `run_listed` and the
//! others beside it promise that, by these contracts alone. `specs/Rows` has what they come to for each pair of files
//! that can't be read, in each order. The tests show that the calls do it, where the files of a system hardly can:
//! memory that runs out as a file is read, and a file that grows.
#![tactic(auto)]

mod forms;
mod listed_files;
#[cfg(test)]
mod tests;

pub use forms::{check_listed, live_listed, play_listed, run_listed};
pub use listed_files::{Content, ListedFiles, NamedFile, Reading};
