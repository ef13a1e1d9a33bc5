//! Octets in and out: where they come from, where they go, what fails there, and how a call on them ends (*profile*).
//!
//! A [`Sink`] takes octets and a [`Source`] gives them, a part at a time, and each counts its failures. [`Counted`]
//! makes either of a writer or reader of the standard library. [`write_all`] promises that a sink took a whole text or,
//! if a write failed, a prefix of it. [`Buffered`] promises the same of all that is put into it, and [`write_each`] of
//! items that are put into one, one after another.
//!
//! [`digits`] is how octets are spelled in hexadecimal, many octets a step.
//!
//! What the octets say is left to the crates above. How a call can end (well, refused by a fault, a read or a write
//! failed, out of memory) is said here once for all of them. So is what its sink and its source did then.
//!
//! A vector takes two texts, as any writer does:
//!
//! ```
//! use text_io::{Counted, Sink, write_all};
//!
//! let mut out = Counted::new(Vec::new(rt.alloc()));
//! write_all(&mut out, b"ok 1\n")?;
//! write_all(&mut out, b"end\n")?;
//! assert_eq!(rt; out.failures(), 0);
//! assert_eq!(rt; out.into_inner().as_slice(), b"ok 1\nend\n".as_slice());
//! ```
#![tactic(auto)]

mod buffer;
mod counted;
pub mod digits;
mod each;
mod read_fault;
mod report_fault;
mod sink;
mod source;
mod text;

pub use buffer::Buffered;
pub use counted::Counted;
pub use each::{PutItem, write_each};
pub use read_fault::ReadFault;
pub use report_fault::ReportFault;
pub use sink::{Failed, Sink, write_all};
pub use source::Source;
pub use text::{place_of, without_carriage_return};
