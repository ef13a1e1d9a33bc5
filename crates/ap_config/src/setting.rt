//! What a network is configured to be, with what it uses of its radio.

use crate::config::NetConfig;

/// The configuration of a network, with the settings of its radio that it uses.
#[derive(Debug, Drop)]
pub struct Setting {
    /// The channel, within [`crate::CHANNEL_LIMITS`] (IEEE Std 802.11-2016, 9.4.2.4).
    pub channel: u8,
    /// The beacon interval in time units of 1024 microseconds, 1 to 65535 (9.4.1.3).
    pub interval: u16,
    /// The configuration of the network itself.
    pub network: NetConfig,
}
