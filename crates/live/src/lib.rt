//! The access point as it runs: each line or record is answered as it comes, and no history is kept (*profile*).
//!
//! It has two faces. In that of lines, frames come and go in digits, in that of records as octets, and all else is the
//! same. [`LiveIn`] is the access point in either face: [`Live`] in lines, [`LiveRecords`] in records.
//!
//! [`LiveIn::run`] runs it over an input, from the octets of its configuration on. It promises that the output is the
//! number of networks, the answers to all that is said in the input, in order, and the tables of the networks. If a
//! write failed, the output is a prefix of that. If memory runs out after the first read, nothing ends: the answer says
//! so.
//!
//! [`LiveIn::feed`] takes a piece of the input, which may be cut anywhere. It promises that the sink has gained exactly
//! the answers to the lines or records that end in it or, if a write failed, a prefix of them. [`LiveIn::end`] promises
//! the same of a last line or record, and of the tables.
//!
//! The definitions of the crate `live_rules` say what is answered. Its laws speak of what is said, however it came:
//! [`isolation`] and those beside it. Only [`lines_come_in_pieces`] and [`records_come_in_pieces`] are of one face
//! each. `specs/` says what an input says in either face (`Inputs`), and how answers are written (`AnswerOctets`,
//! `Written`). The answers to more that is said begin with those to the first of it ([`more_lines`]), and no answer is
//! held back when the source is asked for more ([`answers_come_before_reads`]).
//!
//! Where the input comes from, and where the answers go, is left to the program.
//!
//! A line of no known kind is answered by its fault, and the end of the input by the tables:
//!
//! ```
//! use config_text::read_config;
//! use fixtures::texts::CONFIGURATION;
//! use live::Live;
//! use text_io::Counted;
//!
//! let config = read_config(rt.alloc(), CONFIGURATION.as_bytes())?;
//! let mut live = Live::new(rt.alloc(), config)?;
//! let mut out = Counted::new(Vec::new(rt.alloc()));
//! live.feed(b"X\n", &mut out)?;
//! live.end(&mut out)?;
//! let text = b"fault L1 line 1\nnetwork 02:00:00:00:00:01 ssid 6c6162\n\
//!     events 0 clock 0 unread 0 lost 0 kept 0\nend\n";
//! assert_eq!(rt; out.into_inner().as_slice(), text.as_slice());
//! ```
#![tactic(auto)]

mod face;
mod fault;
mod laws;
mod lines;
mod live_in;
mod live_networks;
mod output;
mod partial;
mod partial_input;
mod reading;
mod record;
mod records;
mod reply;
mod run;

pub use face::{Face, InFace, InLines, InRecords};
pub use fault::LiveFault;
pub use laws::{answers_come_before_reads, more_lines};
pub use live_in::{Live, LiveIn, LiveRecords};
pub use live_rules::{
    as_replayed, either_face, enough_memory, isolation, lines_come_in_pieces,
    records_come_in_pieces, two_inputs,
};
