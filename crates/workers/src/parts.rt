//! What an access point is made of (*profile*).

ghost use Rattle.std.specs.Prelude.{◌≡◌, ◌↔◌, false, None, Some, Err, IfOk};
ghost use Rattle.ap_config.specs.Configuration.{fault_of};
ghost use Rattle.ap_config.specs.declared.config.ConfigFault.{ConfigFault};
ghost use Rattle.play.specs.Faults.{callers_fit};

use air_queue::{AirQueue, NetPass, RadioPass};
use ap_config::{OpenFault, RadioConfig};
use play::MAX_CALLERS;
use std::alloc::Global;
use std::marker::Model;

/// What an access point is made of (*profile*): a configuration without a fault, an empty air queue with its passes,
/// and how many callers there are to be. Contracts see the configuration, the queue's name and the number of callers.
#[derive(Drop)]
pub struct Parts {
    pub(crate) config: RadioConfig,
    pub(crate) callers: u32,
    pub(crate) queue: AirQueue,
    pub(crate) nets: Vec<NetPass>,
    pub(crate) radio: RadioPass,
}

impl Model for Parts {
    ghost use Rattle.std.specs.Prelude.{◌≡◌, ◌≤◌, None, length};
    ghost use Rattle.air_queue.specs.Passes.{fresh_passes, fresh_radio};
    ghost use Rattle.ap_config.specs.Configuration.{fault_of};
    ghost use Rattle.workers.specs.Names.{PartsView};

    ghost Value = { PartsView };

    ghost view = { λ p. record { config = p.config; queue = p.queue.name; callers = p.callers } };

    ghost invariant = { λ p.
        (fault_of p.config ≡ None)
        × (p.queue.capacity ≡ p.config.queue)
        × (p.nets.items ≡ fresh_passes p.queue.name (length p.config.networks))
        × (p.radio ≡ fresh_radio p.queue.name (length p.config.networks) p.radio.spare) };
}

impl Parts {
    /// The parts of an access point of this configuration, with this number of callers. `Config` with the first fault exactly
    /// if the configuration has one, which is tested first; else `Callers` exactly if there are not 1 to
    /// [`MAX_CALLERS`] of them; `NoMemory` if memory ran out (*profile*).
    pub fn open(alloc: Global, config: RadioConfig, callers: u32) -> Result<Parts, OpenFault>
        ensures fault { (fault : ConfigFault) →
            (result ≡ Err (OpenFault.Config fault)) ↔ (fault_of config ≡ Some fault) }
        ensures callers { (result ≡ Err OpenFault.Callers) ↔
            ((fault_of config ≡ None) × (callers_fit callers ≡ false)) }
        ensures opened { IfOk result (λ parts. (parts.config ≡ config) × (parts.callers ≡ callers)) }
    {
        if let Some(fault) = config.check() {
            return Err(OpenFault::Config(fault));
        }
        if !(1..=MAX_CALLERS).contains(&callers) {
            return Err(OpenFault::Callers);
        }
        let networks = config.networks.as_slice().len();
        let (queue, nets, radio) = AirQueue::open(alloc, config.queue, networks)?;
        Ok(Parts {
            config,
            callers,
            queue,
            nets,
            radio,
        })
    }
}
