//! What an access point answers that runs, as definitions, and what follows from them (*profile*).
//!
//! `specs/` says what the lines of a text are (`TextLines`), and the records of octets (`Records`). It says what each
//! of them says to the networks (`Asked`), and which event that is to which of them (`Dispatch`). It says what is
//! answered and what becomes of the networks (`Answers`), in which words (`AnswerText`), and what of it is one
//! network's own (`Own`).
//!
//! The crate promises this of these definitions, whatever is said and however it came. No network reaches another
//! ([`isolation`]): two inputs that give a network the same events give it the same frames and table ([`two_inputs`]).
//! A text has the same lines, and octets have the same records, however they are cut ([`lines_come_in_pieces`],
//! [`records_come_in_pieces`]). The answers to more go on from those to less ([`answers_to_more`]). They are those of
//! `answers_of` if memory suffices ([`enough_memory`]). A trace is then answered as its report tells it, as far as a
//! history would reach ([`as_replayed`]). What comes says the same as a line and as a record, as `BothFaces` defines
//! them, so both have the same answers ([`either_face`]).
//!
//! It has no code that runs: the crate `live` answers.
#![tactic(auto)]

mod laws;

pub use laws::{
    answers_to_more, as_replayed, either_face, enough_memory, isolation, lines_come_in_pieces,
    records_come_in_pieces, two_inputs,
};
