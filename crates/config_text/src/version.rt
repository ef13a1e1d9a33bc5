//! The versions of a configuration's text.

ghost use Rattle.std.specs.Prelude.{◌≡◌, map};
ghost use Rattle.toml.specs.View.{table_view};
ghost use Rattle.config_text.specs.ConfigurationText.{version_at, most_networks_in, network_keys};

use crate::values::number_at;
use ap_config::{Limits, MAX_NETWORKS};
use toml::Table;

/// The numbers of the versions that are read.
const VERSIONS: Limits = Limits { least: 1, most: 2 };

/// The most networks in version 1.
const MAX_NETWORKS_IN_ONE: usize = 8;

/// The keys of a network in version 1.
const KEYS_IN_ONE: &[&str] = &[
    "bssid",
    "ssid",
    "rates",
    "dtim",
    "max_stations",
    "max_known",
    "quota",
    "max_events",
];

/// Those in version 2.
const KEYS_IN_TWO: &[&str] = &[
    "bssid",
    "ssid",
    "rates",
    "dtim",
    "max_stations",
    "max_known",
    "quota",
    "max_events",
    "relay",
    "aging",
];

/// A version of the text (*profile*).
#[derive(Clone, Copy, PartialEq, Eq)]
pub(crate) enum Version {
    /// At most eight networks, which relay units of stations, and whose units don't age.
    One,
    /// As many networks as there may be; each says whether it relays, and whether its units age.
    Two,
}

impl Version {
    /// How many networks there may be.
    pub(crate) fn most_networks(self) -> usize
        ensures { result ≡ most_networks_in self }
    {
        match self {
            Version::One => MAX_NETWORKS_IN_ONE,
            Version::Two => MAX_NETWORKS,
        }
    }

    /// The keys of a network.
    pub(crate) fn network_keys(self) -> &'static [&'static str]
        ensures { map (λ key. key.now) result.now ≡ network_keys self }
    {
        match self {
            Version::One => KEYS_IN_ONE,
            Version::Two => KEYS_IN_TWO,
        }
    }
}

/// The version of a document.
#[tactic(auto, unfolding(crate::specs::ConfigurationText::version_at))]
pub(crate) fn version_at(top: &Table) -> Option<Version>
    ensures { result ≡ version_at (table_view top.now) }
{
    match number_at(top, "version", VERSIONS)? {
        1 => Some(Version::One),
        2 => Some(Version::Two),
        _ => None,
    }
}
