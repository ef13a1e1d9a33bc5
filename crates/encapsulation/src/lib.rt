//! The same unit on the wire and on the air: Ethernet frames, and the bodies of 802.11 data frames (IEEE Std
//! 802.11-2016, 5.1.4; RFC 1042).
//!
//! [`Ether`] is an Ethernet frame; its [`Kind`] says whether it names a type or its length.
//!
//! [`Ether::decode`] promises to read a string of octets exactly if it is an Ethernet frame, and else names the first
//! fault. [`to_air`] and [`to_wire`] promise to append exactly the octets of the body and of the frame. A frame that
//! names a type comes back from the air as it was.
//!
//! Which unit goes where, and what becomes of one without a wired form, is left to the network.
//!
//! A frame goes from the wire to the air, and comes back as it was:
//!
//! ```
//! use encapsulation::{Ether, Kind, to_air, to_wire};
//! use mac_frame::Octets;
//!
//! let wired = [2, 0xaa, 0, 0, 0, 1, 2, 0xbb, 0, 0, 0, 1, 8, 0, 0x45, 0];
//! let ether = Ether::decode(&wired)?;
//! assert_eq!(rt; ether.kind, Kind::Typed(0x0800));
//! let mut body = Octets::new(rt.alloc());
//! to_air(&mut body, &ether)?;
//! assert_eq!(rt; body.as_slice(), [0xaa, 0xaa, 3, 0, 0, 0, 8, 0, 0x45, 0].as_slice());
//! let mut back = Octets::new(rt.alloc());
//! assert!(rt; to_wire(&mut back, ether.to, ether.source, body.as_slice())?);
//! assert_eq!(rt; back.as_slice(), wired.as_slice());
//! ```
#![tactic(auto)]

mod encapsulation;
mod ethernet;

pub use encapsulation::{TYPED_HEADER_LEN, body_comes_back, frame_comes_back, to_air, to_wire};
pub use ethernet::{Ether, Kind, one_ethernet_frame};
