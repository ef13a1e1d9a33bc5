//! The networks of a configuration, one table each.

ghost use Rattle.std.specs.Prelude.{◌≡◌, [], IfOk, option_map, option_copied};
ghost use Rattle.toml.specs.View.{array_view, table_view, items_view};
ghost use Rattle.text_io.specs.Endings.{Gives};
ghost use Rattle.text_io.specs.Faults.{read_ending};
ghost use Rattle.config_text.specs.ConfigurationText.{bssid_at, ssid_at, rates_at, network_of_table, network_of, networks_of};
ghost use Rattle.config_text.specs.ConfigurationText.{networks_at, are_tables, tables_in};

use crate::fault::{ConfigTextFault, at_network};
use crate::values::{array_at, number_at, text_at, truth_at};
use crate::version::Version;
use ap_config::{
    DTIM_LIMITS, EVENT_LIMITS, KNOWN_LIMITS, NetConfig, QUOTA_LIMITS, STATION_LIMITS, is_taken,
    rates_fit, ssid_fits, stations_fit,
};
use mac_frame::{MacAddr, NoMemory, Octets};
use std::alloc::Global;
use toml::value::Array;
use toml::{Table, Value};

/// The array of networks, if it has tables alone, as many as there may be in a version.
#[tactic(auto, using(crate::proofs::ConfigurationReading::counts), unfolding(crate::specs::ConfigurationText::networks_at))]
pub(crate) fn networks_at(version: Version, top: &Table) -> Option<&Array>
    ensures { option_map (λ values. array_view values.now) result ≡ networks_at version (table_view top.now) }
{
    let values = array_at(top, "network")?;
    if are_tables(values) && (1..=version.most_networks()).contains(&values.len()) {
        Some(values)
    } else {
        None
    }
}

/// Whether the values are tables alone.
#[tactic(auto, using(crate::proofs::ConfigurationReading::value_lists))]
fn are_tables(values: &[Value]) -> bool
    ensures { result ≡ are_tables (items_view values.now) }
{
    for value in values {
        if !value.is_table() {
            return false;
        }
    }
    true
}

/// The networks of the tables among the values, each after those before it.
pub(crate) fn read_networks(
    alloc: Global,
    version: Version,
    values: &[Value],
) -> Result<Vec<NetConfig>, ConfigTextFault>
    ensures { Gives (λ networks. networks.items) read_ending result
        (networks_of version [] (tables_in (items_view values.now))) }
{
    let mut networks = Vec::new(alloc);
    for value in values {
        if let Some(table) = value.as_table() {
            let network = read_network(alloc, version, &networks, table)?;
            networks.push(network)?;
        }
    }
    Ok(networks)
}

/// The network of a table of a version, after earlier networks.
#[tactic(auto, unfolding(crate::specs::ConfigurationText::with_options))]
fn read_network(
    alloc: Global,
    version: Version,
    earlier: &[NetConfig],
    table: &Table,
) -> Result<NetConfig, ConfigTextFault>
    ensures { Gives (λ network. network) read_ending result (network_of version earlier.now (table_view table.now)) }
{
    let mut network = read_table(alloc, earlier, table)?;
    if version == Version::Two {
        let fault = at_network(13, earlier.len());
        network.relay = truth_at(table, "relay").ok_or(fault)?;
        network.aging = truth_at(table, "aging").ok_or(fault)?;
    }
    Ok(network)
}

/// The network of a table, after earlier networks, as version 1 says it: it relays, and its units don't age.
#[tactic(auto, unfolding(crate::specs::ConfigurationText::network_of_table))]
fn read_table(
    alloc: Global,
    earlier: &[NetConfig],
    table: &Table,
) -> Result<NetConfig, ConfigTextFault>
    ensures { Gives (λ network. network) read_ending result (network_of_table earlier.now (table_view table.now)) }
{
    let place = earlier.len();
    let bssid = bssid_at(earlier, table).ok_or(at_network(8, place))?;
    let ssid = ssid_at(table).ok_or(at_network(9, place))?;
    let rates = rates_at(alloc, table)?.ok_or(at_network(10, place))?;
    let fault = at_network(11, place);
    let dtim = number_at(table, "dtim", DTIM_LIMITS).ok_or(fault)?;
    let max_stations = number_at(table, "max_stations", STATION_LIMITS).ok_or(fault)?;
    let max_known = number_at(table, "max_known", KNOWN_LIMITS).ok_or(fault)?;
    let quota = number_at(table, "quota", QUOTA_LIMITS).ok_or(fault)?;
    let max_events = number_at(table, "max_events", EVENT_LIMITS).ok_or(fault)?;
    if !stations_fit(max_stations as u16, max_known as u16) {
        return Err(at_network(12, place));
    }
    Ok(NetConfig {
        bssid,
        ssid: Octets::from_slice(alloc, ssid)?,
        rates,
        dtim: dtim as u8,
        max_stations: max_stations as u16,
        max_known: max_known as u16,
        quota,
        max_events,
        relay: true,
        aging: false,
    })
}

/// The address of a network: no group address, and no earlier network's.
#[tactic(auto, unfolding(crate::specs::ConfigurationText::bssid_at))]
fn bssid_at(earlier: &[NetConfig], table: &Table) -> Option<MacAddr>
    ensures { result ≡ bssid_at earlier.now (table_view table.now) }
{
    let bssid = MacAddr::parse_text(text_at(table, "bssid")?)?;
    if bssid.is_group() || is_taken(earlier, bssid) {
        None
    } else {
        Some(bssid)
    }
}

/// The name of a network.
#[tactic(auto, unfolding(crate::specs::ConfigurationText::ssid_at))]
fn ssid_at(table: &Table) -> Option<&[u8]>
    ensures { option_copied result ≡ ssid_at (table_view table.now) }
{
    let ssid = text_at(table, "ssid")?.as_bytes();
    if ssid_fits(ssid) { Some(ssid) } else { None }
}

/// The rates of a network, which hexadecimal digits spell.
#[tactic(auto, unfolding(crate::specs::ConfigurationText::rates_at))]
fn rates_at(alloc: Global, table: &Table) -> Result<Option<Octets>, NoMemory>
    ensures { IfOk result (λ rates. rates ≡ rates_at (table_view table.now)) }
{
    let Some(digits) = text_at(table, "rates") else {
        return Ok(None);
    };
    let rates = match hex::decode(alloc, digits) {
        Ok(rates) => rates,
        Err(hex::FromHexError::OutOfMemory) => return Err(NoMemory),
        Err(_) => return Ok(None),
    };
    if rates_fit(&rates) {
        Ok(Some(Octets::from_vec(rates)))
    } else {
        Ok(None)
    }
}
