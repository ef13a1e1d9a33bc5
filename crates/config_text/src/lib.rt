//! The configuration that a TOML text writes (*profile*).
//!
//! [`read_config`] promises the [`ap_config::RadioConfig`] of a text, or its first fault in the order C1 to C13, or that
//! memory ran out. `document` reads the whole, `values` the value at one key, `keys` says which keys there are,
//! `network` reads the table of one network, and `version` says what a text of each version may have.
//!
//! Which values a configuration may have is said in `ap_config`, and what is TOML by the library `toml`.
//!
//! A text of one network, and one whose version is not known (C2):
//!
//! ```
//! use ap_config::ConfigFault;
//! use config_text::read_config;
//! use text_io::ReadFault;
//!
//! let text = b"version = 1\nchannel = 6\ninterval = 100\nqueue = 64\n[[network]]\n\
//!     bssid = '02:00:00:00:00:01'\nssid = 'lab'\nrates = '82840b16'\ndtim = 1\n\
//!     max_stations = 8\nmax_known = 16\nquota = 8\nmax_events = 100\n";
//! let config = read_config(rt.alloc(), text)?;
//! assert!(rt; config.channel == 6 && config.networks.as_slice().len() == 1);
//! let fault = read_config(rt.alloc(), b"version = 3\n").err();
//! assert_eq!(rt; fault, Some(ReadFault::At(ConfigFault::of_radio(2))));
//! ```
#![tactic(auto)]

mod document;
mod fault;
mod keys;
mod network;
mod values;
mod version;

pub use document::read_config;
pub use fault::ConfigTextFault;
