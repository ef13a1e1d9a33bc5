//! Elements (IEEE Std 802.11-2016, 9.4.2): a body is a list of them.
//!
//! It promises that [`Elements`] reads a body exactly if the body is a concatenation of elements, and gives
//! those and no others; and that what it writes is exactly the octets of the element.
//!
//! Which elements a frame needs, and what they mean, is left to the crates above.
//!
//! An SSID and rates are written into a body, and read from it:
//!
//! ```
//! use elements::{Elements, SSID, write_element, write_rates};
//! use mac_frame::Octets;
//!
//! let mut body = Octets::new(rt.alloc());
//! write_element(&mut body, SSID, b"lab")?;
//! write_rates(&mut body, &[0x82, 0x84, 11, 22])?;
//! let elements = Elements::new(body.as_slice())?;
//! assert_eq!(rt; elements.first(SSID), Some(b"lab".as_slice()));
//! assert!(rt; elements.has_rate(2) && !elements.has_rate(12));
//! assert!(rt; Elements::new(&[0, 3, b'l']).is_err());
//! ```
#![tactic(auto)]

mod element;
mod rates;

pub use element::{
    DSSS_PARAMETER_SET, EXTENDED_SUPPORTED_RATES, Element, Elements, Overrun, SSID,
    SUPPORTED_RATES, one_list, write_element,
};
pub use rates::{
    BASIC_RATE, is_rate_among, units_of, write_extended_rates, write_rates, write_supported_rates,
};
