//! The networks of a configuration.

ghost use Rattle.std.specs.Prelude.{◌≡◌, true, None, OnOk, OnErr, IfOk, map};
ghost use Rattle.std.specs.List.{AllByRecursion};
ghost use Rattle.ap_config.specs.Configuration.{fault_of};
ghost use Rattle.ap_config.specs.Places.{setting_in};
ghost use Rattle.events.specs.LentEvents.{line_of};
ghost use Rattle.networks.specs.Takes.{Takes, change, dispatch};

use crate::dispatch::{Addressed, Deliver, take_line};
use ap_config::{RadioConfig, checked_networks};
use events::LentLine;
use mac_frame::{MacAddr, NoMemory};
use network::{Open, Spare, open_networks};
use std::alloc::Global;
use std::marker::Model;

/// The networks of a configuration, in order of place, which take one line after another. Contracts see the networks.
///
/// Their addresses stand beside them, so that a line is read against a slice of addresses and a network that doesn't
/// hear it is not touched. The memory of a frame that is done with is kept for the next.
#[derive(Drop)]
pub struct Networks<N: Addressed> {
    bssids: Vec<MacAddr>,
    networks: Vec<N>,
    spare: Spare,
}

impl<N: Addressed> Model for Networks<N> {
    ghost use Rattle.std.specs.Prelude.{◌≡◌, List, map};

    ghost Value = { List N };

    ghost view = { λ a. a.networks.items };

    ghost invariant = { λ a. a.bssids.items ≡ map N.bssid a.networks.items };
}

impl<N: Addressed + Open + Drop> Networks<N> {
    /// The networks of a configuration without a fault, none of which took an event. `NoMemory` where memory ran out.
    pub fn open(alloc: Global, config: RadioConfig) -> Result<Networks<N>, NoMemory>
        requires { fault_of config ≡ None }
        ensures { IfOk result (λ networks.
            networks ≡ map (λ n. N.opened (setting_in config n)) config.networks) }
    {
        checked_networks();
        let RadioConfig {
            channel,
            interval,
            queue: _,
            networks,
        } = config;
        let networks = open_networks::<N>(alloc, channel, interval, networks)?;
        Ok(Networks {
            bssids: bssids_of(alloc, networks.as_slice())?,
            networks,
            spare: Spare::new(alloc),
        })
    }
}

impl<N: Addressed> Networks<N> {
    /// The address of each network, in order of place.
    #[inline]
    pub fn bssids(&self) -> &[MacAddr]
        ensures { result.now ≡ map N.bssid self.now }
    {
        self.bssids.as_slice()
    }

    /// The networks, in order of place.
    #[inline]
    pub fn networks(&self) -> &[N]
        ensures { result.now ≡ self.now }
    {
        self.networks.as_slice()
    }

    /// Has each network that hears a line take it, in order of place, as `how` says, and leaves the others alone. After
    /// `NoMemory` those behind the one at which it stopped took nothing.
    #[inline]
    pub fn take<O, D: Deliver<N, O>>(
        &mut self,
        how: &D,
        line: LentLine<'_>,
        out: &mut O,
    ) -> Result<(), NoMemory>
        requires may { AllByRecursion D.may_take self.old }
        requires ready { D.is_ready out.old }
        ensures taken { OnOk result (Takes (dispatch N.bssid (D.delivers how.now) (line_of line.entry) 0)
            self.old self.new (change out.old out.new)) }
        ensures stops { OnErr result (D.may_stop ≡ true) }
    {
        take_line(
            how,
            self.bssids.as_slice(),
            self.networks.as_mut_slice(),
            line,
            &mut self.spare,
            out,
        )
    }
}

/// The address of each network, in order of place.
fn bssids_of<N: Addressed>(alloc: Global, networks: &[N]) -> Result<Vec<MacAddr>, NoMemory>
    ensures { IfOk result (λ bssids. bssids.items ≡ map N.bssid networks.now) }
{
    Ok(
        networks
            .iter()
            .map(|network| network.bssid())
            .collect(alloc)?,
    )
}
