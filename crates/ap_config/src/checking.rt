//! The first fault of a configuration (*profile*).

ghost use Rattle.std.specs.Prelude.{◌≡◌, nat_le, []};
ghost use Rattle.std.specs.List.{list_all};
ghost use Rattle.ap_config.specs.Configuration.{is_rate, are_different, rates_fit, numbers_fit, network_fault};
ghost use Rattle.ap_config.specs.Configuration.{is_taken, fault_among, networks_fault, fault_of};

use crate::config::{ConfigFault, NetConfig, RadioConfig};
use crate::limits::{
    CHANNEL_LIMITS, DTIM_LIMITS, EVENT_LIMITS, INTERVAL_LIMITS, KNOWN_LIMITS, MAX_RATE, MAX_RATES,
    QUEUE_LIMITS, QUOTA_LIMITS, STATION_LIMITS, count_fits, ssid_fits,
};
use elements::{is_rate_among, units_of};
use mac_frame::MacAddr;

impl RadioConfig {
    /// The first fault, in the order `C4` to `C12`; the faults from `C8` on are tried network by network. It looks at
    /// values alone: that a text has every key, and no other, is for the reader of the text. `None` if the
    /// configuration is sound (*profile*).
    pub fn check(&self) -> Option<ConfigFault>
        ensures { result ≡ fault_of self.now }
    {
        if !CHANNEL_LIMITS.allow(u32::from(self.channel)) {
            return Some(ConfigFault::of_radio(4));
        }
        if !INTERVAL_LIMITS.allow(u32::from(self.interval)) {
            return Some(ConfigFault::of_radio(5));
        }
        if !QUEUE_LIMITS.allow(u32::from(self.queue)) {
            return Some(ConfigFault::of_radio(6));
        }
        let networks = self.networks.as_slice();
        if !count_fits(networks.len()) {
            return Some(ConfigFault::of_radio(7));
        }
        networks_fault(networks)
    }
}

/// The first fault of the networks, each after those before it.
fn networks_fault(networks: &[NetConfig]) -> Option<ConfigFault>
    ensures { result ≡ networks_fault [] networks.now }
{
    for (place, network) in networks.iter().enumerate() {
        if let Some(code) = fault_among(&networks[..place], network) {
            return Some(ConfigFault::of_network(code, place));
        }
    }
    None
}

/// The first fault of a network that stands after these.
fn fault_among(earlier: &[NetConfig], network: &NetConfig) -> Option<u8>
    ensures { result ≡ fault_among earlier.now network.now }
{
    if is_taken(earlier, network.bssid) {
        return Some(8);
    }
    network_fault(network)
}

/// Whether a network among others has this BSSID (*profile*).
pub fn is_taken(others: &[NetConfig], bssid: MacAddr) -> bool
    ensures { result ≡ is_taken others.now bssid }
{
    others.iter().any(|other| other.bssid == bssid)
}

/// The first fault of a network by itself.
fn network_fault(network: &NetConfig) -> Option<u8>
    ensures { result ≡ network_fault network.now }
{
    if network.bssid.is_group() {
        return Some(8);
    }
    if !ssid_fits(network.ssid.as_slice()) {
        return Some(9);
    }
    if !rates_fit(network.rates.as_slice()) {
        return Some(10);
    }
    if !numbers_fit(network) {
        return Some(11);
    }
    if !stations_fit(network.max_stations, network.max_known) {
        return Some(12);
    }
    None
}

/// Whether as many stations may be known as may be associated (*profile*).
pub fn stations_fit(max_stations: u16, max_known: u16) -> bool
    ensures { result ≡ nat_le max_stations max_known }
{
    max_stations <= max_known
}

/// Whether the rates are 1 to 16, each from 1 to 108 but for the mark of a basic rate (bit 7), and all different
/// (IEEE Std 802.11-2016, 9.4.2.3; that they differ is *profile*).
pub fn rates_fit(rates: &[u8]) -> bool
    ensures { result ≡ rates_fit rates.now }
{
    (1..=MAX_RATES).contains(&rates.len()) && are_rates(rates) && are_different(rates)
}

/// Whether each octet is such a rate.
fn are_rates(rates: &[u8]) -> bool
    ensures { result ≡ list_all is_rate rates.now }
{
    rates.iter().all(|rate| is_rate(*rate))
}

/// Whether an octet is a rate from 1 to 108, but for the mark of a basic rate.
fn is_rate(octet: u8) -> bool
    ensures { result ≡ is_rate octet }
{
    (1..=MAX_RATE).contains(&units_of(octet))
}

/// Whether no rate stands twice.
fn are_different(rates: &[u8]) -> bool
    ensures { result ≡ are_different rates.now }
{
    let mut rest = rates;
    while let Some((first, others)) = rest.split_first() {
        if is_rate_among(*first, others) {
            return false;
        }
        rest = others;
    }
    true
}

/// Whether each number is in its limits.
fn numbers_fit(network: &NetConfig) -> bool
    ensures { result ≡ numbers_fit network.now }
{
    DTIM_LIMITS.allow(u32::from(network.dtim))
        && STATION_LIMITS.allow(u32::from(network.max_stations))
        && KNOWN_LIMITS.allow(u32::from(network.max_known))
        && QUOTA_LIMITS.allow(network.quota)
        && EVENT_LIMITS.allow(network.max_events)
}
