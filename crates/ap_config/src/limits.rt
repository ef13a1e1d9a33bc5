//! The least and the greatest values of a configuration (*profile*): the same for whoever checks one and for whoever
//! reads its text.

ghost use Rattle.std.specs.Prelude.{◌≡◌, length};
ghost use Rattle.ap_config.specs.Configuration.{is_between, count_fits, ssid_fits};

use mac_frame::MAX_AID;

/// The least and the greatest value of a number.
#[derive(Clone, Copy, Debug, PartialEq, Eq)]
pub struct Limits {
    /// The least value.
    pub least: u32,
    /// The greatest value.
    pub most: u32,
}

impl Limits {
    /// Whether a number is neither less than the least nor greater than the greatest.
    pub fn allow(self, number: u32) -> bool
        ensures { result ≡ is_between self.least self.most number }
    {
        self.least <= number && number <= self.most
    }
}

/// The most frames that the air queue holds.
pub const MAX_QUEUE: u16 = 4096;

/// The most networks of a radio.
pub const MAX_NETWORKS: usize = 16;

/// The most octets of an SSID (IEEE Std 802.11-2016, 9.4.2.2).
pub const MAX_SSID_LEN: usize = 32;

/// The most rates of a network.
pub const MAX_RATES: usize = 16;

/// The greatest rate in units of 500 kb/s, 54 Mb/s, without the mark of a basic rate.
pub const MAX_RATE: u8 = 108;

/// The most stations that are associated at a time: as many as there are association identifiers (9.4.1.8).
pub const MAX_STATIONS: u16 = MAX_AID;

/// The most events that a network takes.
pub const MAX_EVENTS: u32 = 1_000_000;

/// The channel (9.4.2.4).
pub const CHANNEL_LIMITS: Limits = Limits { least: 1, most: 14 };

/// The beacon interval in time units of 1024 microseconds (9.4.1.3).
pub const INTERVAL_LIMITS: Limits = Limits {
    least: 1,
    most: u16::MAX as u32,
};

/// The frames that the air queue holds.
pub const QUEUE_LIMITS: Limits = Limits {
    least: 1,
    most: MAX_QUEUE as u32,
};

/// The DTIM period in beacon intervals (9.4.2.6).
pub const DTIM_LIMITS: Limits = Limits {
    least: 1,
    most: u8::MAX as u32,
};

/// The stations that are associated at a time.
pub const STATION_LIMITS: Limits = Limits {
    least: 1,
    most: MAX_STATIONS as u32,
};

/// The stations that are known at a time.
pub const KNOWN_LIMITS: Limits = Limits {
    least: 1,
    most: 10_000,
};

/// The units that a network keeps, whoever they are for.
pub const QUOTA_LIMITS: Limits = Limits {
    least: 0,
    most: 100_000,
};

/// The events that a network takes.
pub const EVENT_LIMITS: Limits = Limits {
    least: 1,
    most: MAX_EVENTS,
};

/// Whether a radio may have this number of networks.
pub fn count_fits(networks: usize) -> bool
    ensures { result ≡ count_fits networks }
{
    (1..=MAX_NETWORKS).contains(&networks)
}

/// Whether a network may have this SSID (9.4.2.2).
pub fn ssid_fits(ssid: &[u8]) -> bool
    ensures { result ≡ ssid_fits ssid.now }
{
    (1..=MAX_SSID_LEN).contains(&ssid.len())
}
