//! The keys that a configuration has.

ghost use Rattle.std.specs.Prelude.{◌≡◌, map};
ghost use Rattle.std.specs.List.{list_any, list_all};
ghost use Rattle.std.specs.Str.{bytes_eq};
ghost use Rattle.toml.specs.View.{table_view, items_view};
ghost use Rattle.config_text.specs.ConfigurationText.{has_only, tables_in, is_listed};

use crate::values::array_at;
use crate::version::Version;
use toml::{Table, Value};

/// The keys at the top.
const RADIO_KEYS: &[&str] = &["version", "channel", "interval", "queue", "network"];

/// Whether each key is listed, at the top and in the tables of the array of networks.
#[tactic(auto, unfolding(crate::specs::ConfigurationText::is_listed))]
pub(crate) fn is_listed(version: Version, top: &Table) -> bool
    ensures { result ≡ is_listed version (table_view top.now) }
{
    has_only(RADIO_KEYS, top)
        && match array_at(top, "network") {
            Some(values) => have_only(version.network_keys(), values),
            None => true,
        }
}

/// Whether each key of the tables among the values is one of these.
#[tactic(auto, using(crate::proofs::ConfigurationReading::value_lists))]
fn have_only(keys: &[&str], values: &[Value]) -> bool
    ensures { result ≡ list_all (has_only (map (λ listed. listed.now) keys.now)) (tables_in (items_view values.now)) }
{
    for value in values {
        if let Some(network) = value.as_table()
            && !has_only(keys, network)
        {
            return false;
        }
    }
    true
}

/// Whether each key of a table is one of these.
#[tactic(auto, using(crate::proofs::ConfigurationReading::key_lists))]
fn has_only(keys: &[&str], table: &Table) -> bool
    ensures { result ≡ has_only (map (λ listed. listed.now) keys.now) (table_view table.now) }
{
    for key in table.keys() {
        if !is_among(keys, key.as_str()) {
            return false;
        }
    }
    true
}

/// Whether a key is one of these.
fn is_among(keys: &[&str], key: &str) -> bool
    ensures { result ≡ list_any (λ listed. bytes_eq key.now listed.now) keys.now }
{
    keys.iter().any(|listed| key == *listed)
}
