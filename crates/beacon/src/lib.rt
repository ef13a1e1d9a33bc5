//! What a network announces of itself (IEEE Std 802.11-2016, 9.3.3): beacons and probe responses.
//!
//! It promises that [`write_beacon`] and [`write_probe_response`] append exactly the octets of the frame, every field
//! in its place. A network that answers many probes puts the elements of its probe responses together once
//! ([`ResponseElements`]), and writes each response with them ([`write_response_with`]).
//!
//! When a network sends one, for whom units are kept, and with which sequence number, is left to the network.
//!
//! The first beacon of a network on channel 6, whose TIM shows no station:
//!
//! ```
//! use beacon::{Advert, write_beacon};
//! use mac_frame::{MacAddr, Octets};
//! use tim::Bitmap;
//!
//! let advert = Advert {
//!     bss: MacAddr::new([2, 0, 0, 0, 0, 1]), ssid: b"lab", rates: &[0x82, 0x84, 11, 22],
//!     channel: 6, interval: 100, clock: 1, seq: 0,
//! };
//! let mut frame = Octets::new(rt.alloc());
//! write_beacon(&mut frame, &advert, 1, false, &Bitmap::new())?;
//! assert_eq!(rt; frame.as_slice().len(), 56);
//! assert!(rt; frame.as_slice().ends_with(&[3, 1, 6, 5, 4, 0, 1, 0, 0]));
//! ```
#![tactic(auto)]

mod advert;
mod beacon_frame;
mod probe_response;
mod response_elements;

pub use advert::Advert;
pub use beacon_frame::{dtim_count, write_beacon};
pub use probe_response::{write_probe_response, write_response_with};
pub use response_elements::ResponseElements;
