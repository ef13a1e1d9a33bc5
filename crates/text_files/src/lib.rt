//! Texts that stand in files, from their names to a report (*profile*): what is read of files, in which order, and
//! which fault is told.
//!
//! It promises, on [`run_input`], of one text that is read and cut in two what [`replay::run_text`] promises of the
//! two. On [`play_files`] it promises of files what [`play_text::play_owned`] promises of what they hold, and that the
//! first that can't be read is told. It promises the same on [`run_files`] of what [`replay::run_stream`] promises, on
//! [`check_file`] of [`replay::check_text`], and on [`answer_input`] of [`live::LiveIn::run`]. On [`show_fault`] it
//! promises the exit status of a fault, and that `fault memory` is written without taking any.
//!
//! Files are those of any [`FileSystem`]. It promises nothing of those of the system, [`HostFiles`], nor of the lines
//! of other faults: what the built program does shows them (`tests/`). Its tests are the crate `text_files_tests`.
//!
//! A configuration is not there, and a line says so:
//!
//! ```
//! use text_files::{HostFiles, check_file, show_fault};
//! use text_io::Counted;
//!
//! let mut out = Counted::new(Vec::new(rt.alloc()));
//! let mut files = HostFiles::new(&rt);
//! let Err(fault) = check_file(&mut files, rt.alloc(), "absent.toml", &mut out) else {
//!     panic!(rt; "it is there");
//! };
//! assert_eq!(rt; show_fault(rt.alloc(), &fault, &mut out)?, 4);
//! assert_eq!(rt; out.into_inner().as_slice(), b"fault file absent.toml\n".as_slice());
//! ```
#![tactic(auto)]

mod answering;
mod checking;
mod fault;
mod file_system;
mod files;
mod input;
mod playing;
mod running;

pub use answering::answer_input;
pub use checking::check_file;
pub use fault::{Fault, FaultInTrace, show_fault};
pub use file_system::{FileSystem, HostFiles, OpenedFile, Unread};
pub use input::run_input;
pub use playing::play_files;
pub use running::run_files;
