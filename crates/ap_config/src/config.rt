//! Configurations (*profile*).

ghost use Rattle.std.specs.Prelude.{◌≡◌, IfOk, map};
ghost use Rattle.ap_config.specs.Configuration.{of_radio, of_network};

use mac_frame::{List, MacAddr, NoMemory, Octets};
use std::alloc::Global;
use std::fmt;

/// What one network is configured to be.
#[derive(Debug, Drop)]
pub struct NetConfig {
    /// Its address, no group address and no other network's.
    pub bssid: MacAddr,
    /// Its name, 1 to [`crate::MAX_SSID_LEN`] octets (IEEE Std 802.11-2016, 9.4.2.2).
    pub ssid: Octets,
    /// Its rates in units of 500 kb/s, bit 7 set for a basic rate: 1 to [`crate::MAX_RATES`] octets, whose low seven
    /// bits are 1 to [`crate::MAX_RATE`] and all different (9.4.2.3, 9.4.2.13; that they differ is *profile*).
    pub rates: Octets,
    /// The DTIM period in beacon intervals, within [`crate::DTIM_LIMITS`] (9.4.2.6).
    pub dtim: u8,
    /// The most stations that are associated at a time, within [`crate::STATION_LIMITS`].
    pub max_stations: u16,
    /// The most stations that are known at a time, within [`crate::KNOWN_LIMITS`] and not below `max_stations`.
    pub max_known: u16,
    /// The most units that are kept, for stations and for the group, within [`crate::QUOTA_LIMITS`].
    pub quota: u32,
    /// The most events that it takes, within [`crate::EVENT_LIMITS`].
    pub max_events: u32,
    /// Whether a station's unit may go to another station or to the group on the air; if not, it goes on the wire.
    pub relay: bool,
    /// Whether a unit is dropped that was kept for a station for more beacon intervals than its listen interval
    /// (9.4.1.6).
    pub aging: bool,
}

/// What a radio and its networks are configured to be.
#[derive(Debug, Drop)]
pub struct RadioConfig {
    /// The channel, within [`crate::CHANNEL_LIMITS`] (IEEE Std 802.11-2016, 9.4.2.4).
    pub channel: u8,
    /// The beacon interval in time units of 1024 microseconds, within [`crate::INTERVAL_LIMITS`] (9.4.1.3).
    pub interval: u16,
    /// The most frames that the air queue holds, within [`crate::QUEUE_LIMITS`].
    pub queue: u16,
    /// The networks, 1 to [`crate::MAX_NETWORKS`]. A network's place in this list is its name.
    pub networks: List<NetConfig>,
}

impl RadioConfig {
    /// The address of each network, in order of place (IEEE Std 802.11-2016, 9.2.4.3.4). `NoMemory` if memory ran
    /// out.
    pub fn bssids(&self, alloc: Global) -> Result<Vec<MacAddr>, NoMemory>
        ensures { IfOk result (λ bssids. bssids.items ≡ map (λ n. n.bssid) self.now.networks) }
    {
        Ok(
            self.networks
                .as_slice()
                .iter()
                .map(|network| network.bssid)
                .collect(alloc)?,
        )
    }
}

/// The first fault of a configuration (*profile*).
#[derive(Clone, Copy, Debug, PartialEq, Eq)]
pub struct ConfigFault {
    /// Which fault, 1 to 13: `C1` to `C13`.
    pub code: u8,
    /// The network's place, for a fault of one network: 8 and above.
    pub place: Option<usize>,
}

impl ConfigFault {
    /// The fault with this code, 1 to 7, of the radio's own settings or of the text as a whole: it has no place
    /// (*profile*).
    pub fn of_radio(code: u8) -> ConfigFault
        ensures { result ≡ of_radio code }
    {
        ConfigFault { code, place: None }
    }

    /// The fault with this code, 8 to 13, of the network at a place, counted from 0 (*profile*).
    pub fn of_network(code: u8, place: usize) -> ConfigFault
        ensures { result ≡ of_network code place }
    {
        ConfigFault {
            code,
            place: Some(place),
        }
    }
}

/// The fault as a user meets it, as in `C4`, or `C8 network 1`.
impl fmt::Display for ConfigFault {
    fn fmt<W: fmt::Write>(&self, f: &mut fmt::Formatter<W>) -> fmt::Result {
        let code = self.code;
        match self.place {
            None => write!(f, "C{code}"),
            Some(place) => write!(f, "C{code} network {place}"),
        }
    }
}
