//! What stations ask of a network (IEEE Std 802.11-2016, 9.3 and 11.3), and how they come to it and leave it:
//! authentication, association, disassociation and deauthentication.
//!
//! [`Request`] is what [`read`] gives of a string of octets, and what a network answers; its [`class`] and a notice to
//! a station are `station_state`'s `Class` and `Notice`. There is one file for each kind of request, with what is read
//! and what is written of it.
//!
//! It promises which request a string of octets is for a network, if it is one, and of which class. It promises with
//! which status a request is answered. Each answer and each notice is appended with exactly the octets of its frame.
//!
//! Whether there is room for a station, which identifier it is given, when a notice is sent, and what becomes of a unit
//! or a poll, is left to the network.
//!
//! A station asks to authenticate itself, and is answered:
//!
//! ```
//! use association::{Request, auth_status, read, write_auth};
//! use mac_frame::{MacAddr, Octets};
//!
//! let network = MacAddr::new([2, 0, 0, 0, 0, 1]);
//! let frame = [
//!     0xb0, 0, 0, 0, 2, 0, 0, 0, 0, 1, 2, 9, 0, 0, 0, 1, 2, 0, 0, 0, 0, 1, 0, 0, 0, 0, 1, 0, 0, 0,
//! ];
//! let Request::Auth { from, algorithm, step } = read(network, &frame)? else {
//!     panic!(rt; "another request");
//! };
//! let status = auth_status(algorithm, step, true);
//! let mut answer = Octets::new(rt.alloc());
//! write_auth(&mut answer, from, network, 0, algorithm, status)?;
//! assert!(rt; answer.as_slice().ends_with(&[0, 0, 2, 0, 0, 0]));
//! ```
#![tactic(auto)]

mod authentication;
mod joining;
mod leaving;
mod management;
mod probe;
mod received;
mod request;
mod status;

pub use authentication::{auth_status, write_auth};
pub use joining::{assoc_status, write_assoc};
pub use leaving::write_notice;
pub use received::{ReceivedFrame, same_probe};
pub use request::{Request, class, one_request, read, sender};
pub use status::{
    DENIED_NO_MORE_STAS, REFUSED, REFUSED_BASIC_RATES_MISMATCH, SUCCESS,
    TRANSACTION_SEQUENCE_ERROR, UNSUPPORTED_AUTH_ALGORITHM,
};
