//! How an access point is made of its parts (*profile*).

ghost use Rattle.std.specs.Prelude.{◌≡◌, [], None, IfOk, vec_len, length, replicate};
ghost use Rattle.air_queue.specs.Passes.{fresh_passes};
ghost use Rattle.ap_config.specs.Configuration.{fault_of};
ghost use Rattle.workers.specs.Names.{AreNamed};

use crate::ap::Ap;
use crate::caller::Caller;
use crate::name::ApName;
use crate::parts::Parts;
use crate::seat::Seat;
use crate::transmitter::Transmitter;
use crate::waiting::Waiting;
use air_queue::NetPass;
use ap_config::{RadioConfig, checked_networks};
use mac_frame::NoMemory;
use network::Bss;
use std::alloc::Global;
use std::marker::PhantomData;
use std::sync::Mutex;

impl<N: ApName> Ap<N> {
    /// The access point N of its parts, whose networks have taken no event, its callers without entries, and the
    /// transmitter, by which nothing left (*profile*). `NoMemory` if memory ran out; the parts are gone then.
    pub fn start(
        alloc: Global,
        parts: Parts,
    ) -> Result<(Ap<N>, Vec<Caller>, Transmitter<N>), NoMemory>
        requires { AreNamed N.config N.queue parts }
        ensures ap { IfOk result (λ r. r.0 ≡ N.config) }
        ensures callers { IfOk result (λ r. r.1.items ≡ replicate parts.callers []) }
        ensures transmitter { IfOk result (λ r. r.2 ≡ []) }
    {
        let Parts {
            config,
            callers,
            queue,
            nets,
            radio,
        } = parts;
        let bssids = config.bssids(alloc)?;
        let callers = open_callers(alloc, callers)?;
        let mut waiting = Waiting::new();
        let seats = seat_networks::<N>(alloc, config, nets, &mut waiting)?;
        let ap = Ap {
            alloc,
            bssids,
            seats,
            queue,
            waiting,
        };
        let transmitter = Transmitter {
            pass: radio,
            of: PhantomData,
        };
        Ok((ap, callers, transmitter))
    }
}

/// This number of callers without entries.
fn open_callers(alloc: Global, count: u32) -> Result<Vec<Caller>, NoMemory>
    ensures { IfOk result (λ callers. callers.items ≡ replicate count []) }
{
    let mut callers = Vec::new(alloc);
    for _ in 0..count {
        callers.push(Caller::new(alloc))?;
    }
    Ok(callers)
}

/// Each network under a lock of its own, with its pass, in order of place. Of each is told that its frames may wait.
fn seat_networks<N: ApName>(
    alloc: Global,
    config: RadioConfig,
    nets: Vec<NetPass>,
    waiting: &mut Waiting,
) -> Result<Vec<Mutex<Seat<N>>>, NoMemory>
    requires config { config ≡ N.config }
    requires sound { fault_of config ≡ None }
    requires nets { nets.items ≡ fresh_passes N.queue (length config.networks) }
    ensures { IfOk result (λ seats. vec_len seats ≡ length N.config.networks) }
{
    checked_networks();
    let RadioConfig {
        channel,
        interval,
        queue: _,
        networks,
    } = config;
    let mut seats = Vec::new(alloc);
    for (network, pass) in networks.into_vec().into_iter().zip(nets) {
        let bss = Bss::new(alloc, channel, interval, network)?;
        let told = waiting.begin(pass.place());
        seats.push(Mutex::new(Seat::new(bss, pass, told)))?;
    }
    Ok(seats)
}
