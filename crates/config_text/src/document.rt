//! The document that a text is, and the configuration of a document.

ghost use Rattle.std.specs.Prelude.{◌≡◌, None, IfOk};
ghost use Rattle.std.specs.Option.{ok_or};
ghost use Rattle.ap_config.specs.Configuration.{fault_of, of_radio};
ghost use Rattle.toml.specs.View.{table_view};
ghost use Rattle.text_io.specs.Endings.{Gives};
ghost use Rattle.text_io.specs.Faults.{read_ending};
ghost use Rattle.config_text.specs.ConfigurationText.{configuration_of, document_of, radio_of};

use crate::fault::{ConfigTextFault, at_radio};
use crate::keys::is_listed;
use crate::network::{networks_at, read_networks};
use crate::values::number_at;
use crate::version::version_at;
use ap_config::{CHANNEL_LIMITS, INTERVAL_LIMITS, QUEUE_LIMITS, RadioConfig};
use mac_frame::List;
use std::alloc::Global;
use text_io::ReadFault;
use toml::Table;

/// The configuration that a text writes in TOML: all its keys are there, and no others.
///
/// `At` names the first fault, in the order C1 to C13, if C8 to C13 are tried network by network. `NoMemory`
/// says nothing of the text.
#[tactic(auto, unfolding(crate::specs::ConfigurationText::configuration_of))]
pub fn read_config(alloc: Global, text: &[u8]) -> Result<RadioConfig, ConfigTextFault>
    ensures exact { Gives (λ configuration. configuration) read_ending result (configuration_of text.now) }
    ensures sound { IfOk result (λ configuration. fault_of configuration ≡ None) }
{
    let top = read_document(alloc, text)?;
    read_radio(alloc, &top)
}

/// The document that a text is: its octets are UTF-8, and `toml` reads them.
#[tactic(auto, using(crate::proofs::ConfigurationReading::documents))]
fn read_document(alloc: Global, text: &[u8]) -> Result<Table, ConfigTextFault>
    ensures { Gives table_view read_ending result (ok_or (document_of text.now) (of_radio 1)) }
{
    match toml::table_from_slice(alloc, text) {
        Ok(top) => Ok(top),
        Err(error) if error.is_memory() => Err(ReadFault::NoMemory),
        Err(_) => Err(at_radio(1)),
    }
}

/// The configuration of a document.
#[tactic(auto, unfolding(crate::specs::ConfigurationText::radio_of))]
fn read_radio(alloc: Global, top: &Table) -> Result<RadioConfig, ConfigTextFault>
    ensures { Gives (λ configuration. configuration) read_ending result (radio_of (table_view top.now)) }
{
    let version = version_at(top).ok_or(at_radio(2))?;
    if !is_listed(version, top) {
        return Err(at_radio(3));
    }
    let channel = number_at(top, "channel", CHANNEL_LIMITS).ok_or(at_radio(4))?;
    let interval = number_at(top, "interval", INTERVAL_LIMITS).ok_or(at_radio(5))?;
    let queue = number_at(top, "queue", QUEUE_LIMITS).ok_or(at_radio(6))?;
    let values = networks_at(version, top).ok_or(at_radio(7))?;
    let networks = read_networks(alloc, version, values)?;
    Ok(RadioConfig {
        channel: channel as u8,
        interval: interval as u16,
        queue: queue as u16,
        networks: List::from_vec(networks),
    })
}
