//! The frames of a wireless access point, as octets (IEEE Std 802.11-2016, clause 9).
//!
//! It promises which strings of octets are which frame. [`decode`] reads a frame exactly if a string is one, and else
//! names the first fault. [`write_mgmt`] and [`write_msdu`] append exact headers. [`MacAddr`], [`Octets`] and [`List`]
//! are the values that every crate above passes on.
//!
//! It knows no network and no station: what a body holds, and what an answer is, is left to the crates above.
//!
//! A station leaves a network, which reads its frame. Another network refuses it:
//!
//! ```
//! use mac_frame::{DEAUTHENTICATION, MacAddr, Rx, Unread, decode};
//!
//! let network = MacAddr::new([2, 0, 0, 0, 0, 1]);
//! let other = MacAddr::new([2, 0, 0, 0, 0, 2]);
//! let frame = [
//!     0xc0, 0, 0, 0, 2, 0, 0, 0, 0, 1, 2, 0xaa, 0, 0, 0, 1, 2, 0, 0, 0, 0, 1, 0, 0, 3, 0,
//! ];
//! let Rx::Mgmt { subtype, body, .. } = decode(network, &frame)? else {
//!     panic!(rt; "another kind of frame");
//! };
//! assert_eq!(rt; subtype, DEAUTHENTICATION);
//! assert_eq!(rt; body, [3, 0].as_slice());
//! assert_eq!(rt; decode(other, &frame).err(), Some(Unread::Address));
//! ```
#![tactic(auto)]

mod address;
mod data;
mod frame;
mod frame_control;
mod header;
mod item_list;
mod laws;
mod management;
mod memory;
mod octet_string;
mod ps_poll;

pub use address::MacAddr;
pub use data::write_msdu;
pub use frame::{Rx, Unread, decode, decode_broadcast};
pub use header::{ADDRESS_LEN, HEADER_LEN, MAX_BODY_LEN, address_at, addressed};
pub use item_list::List;
pub use laws::{address_comes_back, body_has_octets, frame_is_addressed, hearing, one_frame};
pub use management::{
    ASSOCIATION_REQUEST, ASSOCIATION_RESPONSE, AUTHENTICATION, BEACON, CAPABILITY,
    DEAUTHENTICATION, DISASSOCIATION, MAX_AID, PROBE_REQUEST, PROBE_RESPONSE,
    REASSOCIATION_REQUEST, REASSOCIATION_RESPONSE, write_mgmt,
};
pub use memory::NoMemory;
pub use octet_string::Octets;
pub use ps_poll::AID_HIGH_BITS;
