//! What a radio and its networks are configured to be, and which configurations are sound (*profile*).
//!
//! Two types to know first: a [`RadioConfig`] is a radio with its [`NetConfig`]s, one for each network. Its `check`
//! promises the first fault, in a fixed order, and none exactly if the configuration is sound. A [`Setting`] is what
//! one network sees of it: its own configuration, and the channel and the beacon interval of its radio.
//!
//! Reading a configuration from a text is left to the crates above.
//!
//! A configuration of one network, before and after it gets a fault:
//!
//! ```
//! use ap_config::{ConfigFault, RadioConfig};
//! use fixtures::lab;
//! use mac_frame::List;
//!
//! let networks = List::from_vec(vec![in rt.alloc(); lab::config(rt.alloc(), 100)?]?);
//! let mut config = RadioConfig { channel: 6, interval: 100, queue: 64, networks };
//! assert_eq!(rt; config.check(), None);
//! config.channel = 15;
//! assert_eq!(rt; config.check(), Some(ConfigFault::of_radio(4)));
//! ```
#![tactic(auto)]

mod checking;
mod config;
mod laws;
mod limits;
mod open_fault;
mod setting;

pub use checking::{is_taken, rates_fit, stations_fit};
pub use config::{ConfigFault, NetConfig, RadioConfig};
pub use laws::{checked_networks, checked_numbers};
pub use limits::{
    CHANNEL_LIMITS, DTIM_LIMITS, EVENT_LIMITS, INTERVAL_LIMITS, KNOWN_LIMITS, Limits, MAX_EVENTS,
    MAX_NETWORKS, MAX_QUEUE, MAX_RATE, MAX_RATES, MAX_SSID_LEN, MAX_STATIONS, QUEUE_LIMITS,
    QUOTA_LIMITS, STATION_LIMITS, count_fits, ssid_fits,
};
pub use open_fault::OpenFault;
pub use setting::Setting;
