//! A radio of several networks.
//!
//! Two names to know first: a [`Radio`] is several networks and the queue of frames that are about to leave, and
//! [`run`] makes a list of steps with a radio and ends in a section for each network. A radio promises that none of its
//! networks reaches another, and that no frame is lost or doubled on its way.
//!
//! What one network does stands in `network`, what goes in and comes out in `events`, and which configurations are
//! sound in `ap_config`. What callers of a radio need of these is re-exported here. When frames leave, and where events
//! come from, is left to the crates above.
//!
//! A beacon goes from a network to the queue, and leaves:
//!
//! ```
//! use bss_core::{Event, Handed, Radio};
//! use config_text::read_config;
//! use fixtures::texts::CONFIGURATION;
//!
//! let config = read_config(rt.alloc(), CONFIGURATION.as_bytes())?;
//! let mut radio = Radio::new(rt.alloc(), config)?;
//! assert_eq!(rt; radio.networks(), 1);
//! radio.take(0, Event::Tick)?;
//! assert_eq!(rt; radio.hand(0), Handed::Moved);
//! let beacon = radio.leave().ok_or("nothing left")?;
//! assert!(rt; beacon.place == 0 && beacon.octets.as_slice().starts_with(&[0x80, 0]));
//! ```
#![tactic(auto)]

mod laws;
mod radio;

pub use ap_config::{
    CHANNEL_LIMITS, ConfigFault, DTIM_LIMITS, EVENT_LIMITS, INTERVAL_LIMITS, KNOWN_LIMITS, Limits,
    MAX_EVENTS, MAX_NETWORKS, MAX_QUEUE, MAX_RATE, MAX_RATES, MAX_SSID_LEN, MAX_STATIONS,
    NetConfig, OpenFault, QUEUE_LIMITS, QUOTA_LIMITS, RadioConfig, STATION_LIMITS, Setting,
    checked_networks, checked_numbers, count_fits, is_taken, rates_fit, ssid_fits, stations_fit,
};
pub use events::{AirItem, Counts, Event, Handed, LentEvent, Line, Section, StationRow, hears};
pub use laws::two_worlds;
pub use network::{
    Bss, Frames, Network, NetworkRefusal, Refusal, Sent, Spare, frame_sizes, one_step, reachable,
    sent_frames, steps_append,
};
pub use radio::{Radio, RunResult, Step, run};
pub use versions::first_version;
