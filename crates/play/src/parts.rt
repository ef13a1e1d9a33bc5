//! What a play is made of.

ghost use Rattle.std.specs.Prelude.{◌≡◌, ◌≢◌, ◌↔◌, Bool, Err, None, Some, IfOk, length, false};
ghost use Rattle.ap_config.specs.Configuration.{fault_of};
ghost use Rattle.ap_config.specs.declared.config.ConfigFault.{ConfigFault};
ghost use Rattle.play.specs.Faults.{callers_fit};
ghost use Rattle.play.specs.declared.finish_fault.FinishFault.{FinishFault};
ghost use Rattle.play.specs.Sources.{lists_of};

use crate::sources::Sources;
use crate::{FinishFault, MAX_CALLERS, PlayFault};
use air_queue::{AirQueue, NetPass, RadioPass};
use ap_config::{ConfigFault, RadioConfig};
use std::alloc::Global;
use std::marker::Model;

/// What a play is made of: a configuration without a fault, an empty air queue with its passes, the lines of its sources,
/// and what it keeps. Contracts see which play it is.
#[derive(Drop)]
pub(crate) struct Parts<'a> {
    pub(crate) config: RadioConfig,
    pub(crate) queue: AirQueue,
    pub(crate) nets: Vec<NetPass>,
    pub(crate) radio: RadioPass,
    pub(crate) sources: Sources<'a>,
    /// Whether it keeps who gave each event, and what left in its order.
    pub(crate) keeps: bool,
}

impl<'a> Model for Parts<'a> {
    ghost use Rattle.std.specs.Prelude.{◌≡◌, None, length};
    ghost use Rattle.air_queue.specs.Passes.{fresh_passes, fresh_radio};
    ghost use Rattle.ap_config.specs.Configuration.{fault_of};
    ghost use Rattle.play.specs.Plays.{PlayView};
    ghost use Rattle.play.specs.Sources.{lists_of};

    ghost Value = { PlayView };

    ghost view = { λ p.
        record { config = p.config; sources = lists_of p.sources; queue = p.queue.name; keeps = p.keeps } };

    ghost invariant = { λ p.
        (fault_of p.config ≡ None)
        × (p.queue.capacity ≡ p.config.queue)
        × (p.nets.items ≡ fresh_passes p.queue.name (length p.config.networks))
        × (p.radio ≡ fresh_radio p.queue.name (length p.config.networks) p.radio.spare) };
}

impl<'a> Parts<'a> {
    /// The parts of a play of these sources, with the air queue of the configuration, of the capacity that it says. `Config`
    /// with the first fault exactly where the configuration has one, else `Sources` exactly where there are not 1 to 64 of
    /// them; else `NoMemory` where memory ran out.
    pub(crate) fn open(
        alloc: Global,
        config: RadioConfig,
        sources: Sources<'a>,
        keeps: bool,
    ) -> Result<Parts<'a>, PlayFault>
        ensures config { (fault : ConfigFault) →
            (result ≡ Err (PlayFault.Config fault)) ↔ (fault_of config ≡ Some fault) }
        ensures sources { (result ≡ Err PlayFault.Sources) ↔
            ((fault_of config ≡ None) × (callers_fit (length (lists_of sources.entry)) ≡ false)) }
        ensures finish { (fault : FinishFault) → result ≢ Err (PlayFault.Finish fault) }
        ensures opened { IfOk result (λ parts. (parts.config ≡ config) × (parts.sources ≡ lists_of sources.entry)
            × (parts.keeps ≡ keeps)) }
    {
        if let Some(fault) = config.check() {
            return Err(PlayFault::Config(fault));
        }
        let count = sources.len();
        if !(1..=MAX_CALLERS as usize).contains(&count) {
            return Err(PlayFault::Sources);
        }
        let networks = config.networks.as_slice().len();
        let (queue, nets, radio) = AirQueue::open(alloc, config.queue, networks)?;
        Ok(Parts {
            config,
            queue,
            nets,
            radio,
            sources,
            keeps,
        })
    }
}
