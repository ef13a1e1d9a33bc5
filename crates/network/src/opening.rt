//! The networks of a configuration, before their first event.

ghost use Rattle.std.specs.Prelude.{◌≡◌, None, IfOk, map};
ghost use Rattle.std.specs.List.{AllByRecursion};
ghost use Rattle.ap_config.specs.Configuration.{setting_fault, network_fault};
ghost use Rattle.ap_config.specs.declared.setting.Setting.{Setting};
ghost use Rattle.network.specs.NetworkView.{new_network};
ghost use Rattle.network.specs.BssView.{opened};

use crate::bss::Bss;
use crate::network::Network;
use ap_config::{NetConfig, Setting};
use mac_frame::{List, NoMemory};
use std::alloc::Global;

/// What a network of a configuration is opened as: a [`Network`], or a [`Bss`] with its history.
pub trait Open: Sized {
    // One that took no event.
    ghost opened: { Setting → Self };

    /// A network that took no event, of a setting in which `check` finds no fault. `NoMemory` if memory ran out.
    fn open(alloc: Global, setting: Setting) -> Result<Self, NoMemory>
        requires setting { setting_fault setting.channel setting.interval ≡ None }
        requires network { network_fault setting.network ≡ None }
        ensures { IfOk result (λ network. network ≡ opened setting) };
}

impl Open for Network {
    ghost opened = { new_network };

    fn open(alloc: Global, setting: Setting) -> Result<Network, NoMemory> {
        Ok(Network::new(alloc, setting))
    }
}

impl Open for Bss {
    ghost opened = { λ s. opened s.channel s.interval s.network };

    fn open(alloc: Global, setting: Setting) -> Result<Bss, NoMemory> {
        let Setting {
            channel,
            interval,
            network,
        } = setting;
        Bss::new(alloc, channel, interval, network)
    }
}

/// A network for each configuration, in their order, on a channel and with a beacon interval in time units. `NoMemory`
/// if memory ran out.
pub fn open_networks<N: Open + Drop>(
    alloc: Global,
    channel: u8,
    interval: u16,
    networks: List<NetConfig>,
) -> Result<Vec<N>, NoMemory>
    requires setting { setting_fault channel interval ≡ None }
    requires networks { AllByRecursion (λ n. network_fault n ≡ None) networks }
    ensures { IfOk result (λ made. made.items
        ≡ map (λ n. N.opened (record { channel = channel; interval = interval; network = n })) networks) }
{
    let mut made = Vec::new(alloc);
    for network in networks.into_vec() {
        let setting = Setting {
            channel,
            interval,
            network,
        };
        made.push(N::open(alloc, setting)?)?;
    }
    Ok(made)
}
