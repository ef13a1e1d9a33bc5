//! The networks of a play, each under a lock of its own, and the air queue in which their frames meet.

ghost use Rattle.std.specs.Prelude.{◌≡◌, ◌<◌, ℕ, None, Some, IfOk, IfErr, length, slice_get, slice_index_or, vec_len};
ghost use Rattle.air_queue.specs.Passes.{AllThere, fresh_pass, fresh_passes};
ghost use Rattle.ap_config.specs.Configuration.{fault_of};
ghost use Rattle.play.specs.Faults.{IsPlayFault};
ghost use Rattle.play.specs.Kept.{IsEnd, IsWholeAt};
ghost use Rattle.play.specs.Sources.{lists_of};
ghost use Rattle.play.specs.declared.kept.PlayedNetwork.{PlayedNetwork};

use crate::PlayFault;
use crate::batch::Batch;
use crate::kept::PlayedNetwork;
use crate::name::PlayName;
use crate::outlet::{Left, Outlet};
use crate::parts::Parts;
use crate::seat::{Handing, Seat};
use crate::sources::Sources;
use crate::spares::Spares;
use air_queue::{AirQueue, NetPass};
use ap_config::{RadioConfig, checked_networks};
use mac_frame::NoMemory;
use network::open_networks;
use networks::NetworkWithFrames;
use std::alloc::Global;
use std::hint;
use std::marker::Model;
use std::sync::{Mutex, Wait};

/// How often a thread goes over the networks that are left before it sleeps until one is let go.
const TRIES: u32 = 200;

/// The networks of the play N, in order of place, and the air queue. Threads share them by reference.
#[derive(Drop)]
pub(crate) struct LockedNetworks<N: PlayName> {
    seats: Vec<Mutex<Seat<N>>>,
    queue: AirQueue,
    outlet: Mutex<Outlet<N>>,
    /// How many frames the queue holds at most.
    capacity: u16,
    /// After how many frames of one source frames leave.
    enough: u32,
}

impl<N: PlayName> Model for LockedNetworks<N> {
    ghost use Rattle.std.specs.Prelude.{◌≡◌, vec_len, length};

    ghost Value = { Unit {0} };

    ghost view = { λ _. tt };

    ghost invariant = { λ n. (vec_len n.seats ≡ length N.play.config.networks) × (n.queue.name ≡ N.play.queue) };
}

impl<N: PlayName> LockedNetworks<N> {
    /// The networks of a play, none of which took an event, and its empty air queue.
    pub(crate) fn open(alloc: Global, parts: Parts<'_>) -> Result<LockedNetworks<N>, NoMemory>
        requires { parts ≡ N.play }
    {
        let Parts {
            config,
            queue,
            nets,
            radio,
            sources,
            keeps,
        } = parts;
        let capacity = config.queue;
        let networks = config.networks.as_slice().len();
        let outlet = Mutex::new(Outlet::new(alloc, radio, networks, keeps)?);
        Ok(LockedNetworks {
            seats: seat_networks(alloc, config, nets, sources.len(), keeps)?,
            queue,
            outlet,
            capacity,
            enough: enough_of(capacity, sources.len()),
        })
    }

    /// Gives lines to each network, to those first that no other thread has. Frames leave meanwhile. `NoMemory` where
    /// memory ran out, after which those that are left were given none.
    pub(crate) fn give<R: Wait>(
        &self,
        rt: &R,
        alloc: Global,
        batch: &Batch<'_, N>,
        relief: &mut Relief,
    ) -> Result<(), NoMemory> {
        let mut given = vec![in alloc; false; self.seats.len()]?;
        for _ in 0..TRIES {
            if self.give_free(rt, batch, given.as_mut_slice(), relief)? {
                return Ok(());
            }
            hint::spin_loop();
        }
        self.give_left(rt, batch, given.as_slice(), relief)
    }

    /// Gives lines to those networks that were not given them and that no other thread has. Whether all were given
    /// them then.
    fn give_free<R: Wait>(
        &self,
        rt: &R,
        batch: &Batch<'_, N>,
        given: &mut [bool],
        relief: &mut Relief,
    ) -> Result<bool, NoMemory>
        requires { length given.old ≡ length N.play.config.networks }
        ensures { length given.new ≡ length given.old }
    {
        let mut were_free = true;
        for place in 0..self.seats.len() {
            if !given[place] {
                match self.seats[place].try_lock() {
                    Some(mut seat) => {
                        let handing = seat.take(rt, &self.queue, batch, &mut relief.spares)?;
                        drop(seat);
                        self.relieve(rt, place, handing, relief)?;
                        given[place] = true;
                    }
                    None => were_free = false,
                }
            }
        }
        Ok(were_free)
    }

    /// Gives lines to the networks that were not given them, to one after the other, and sleeps while another thread has
    /// the next.
    fn give_left<R: Wait>(
        &self,
        rt: &R,
        batch: &Batch<'_, N>,
        given: &[bool],
        relief: &mut Relief,
    ) -> Result<(), NoMemory>
        requires { length given.now ≡ length N.play.config.networks }
    {
        for place in 0..self.seats.len() {
            if !given[place] {
                let handing = self.seats[place]
                    .lock(rt)
                    .take(rt, &self.queue, batch, &mut relief.spares)?;
                self.relieve(rt, place, handing, relief)?;
            }
        }
        Ok(())
    }

    /// Counts the frames of the network at a place that were handed on, and lets frames leave where they are enough, unless
    /// another source does so just then. Where some wait, since the queue was full, frames leave and those are handed on
    /// until none waits.
    fn relieve<R: Wait>(
        &self,
        rt: &R,
        place: usize,
        handing: Handing,
        relief: &mut Relief,
    ) -> Result<(), NoMemory>
        requires { place < length N.play.config.networks }
    {
        relief.handed = relief.handed.saturating_add(handing.count);
        if handing.waits {
            relief.handed = 0;
            return self.hand_rest(rt, place, &mut relief.spares);
        }
        if relief.handed < self.enough {
            return Ok(());
        }
        relief.handed = 0;
        match self.outlet.try_lock() {
            Some(mut outlet) => outlet.leave(rt, &self.queue, self.capacity, &mut relief.spares),
            None => Ok(()),
        }
    }

    /// Lets frames leave, and hands on those that wait of the network at a place, by turns, until none waits.
    fn hand_rest<R: Wait>(&self, rt: &R, place: usize, spares: &mut Spares) -> Result<(), NoMemory>
        requires { place < length N.play.config.networks }
    {
        for _ in rt.forever() {
            self.outlet
                .lock(rt)
                .leave(rt, &self.queue, self.capacity, spares)?;
            if !self.seats[place].lock(rt).hand_all(rt, &self.queue).waits {
                return Ok(());
            }
        }
        unreachable!()
    }

    /// The networks, where each was given all lines of these sources, and what left. All frames leave.
    pub(crate) fn into_end<R: Wait>(
        self,
        rt: &R,
        alloc: Global,
        sources: Sources<'_>,
    ) -> Result<(Vec<PlayedNetwork>, Left), PlayFault>
        requires { lists_of sources ≡ N.play.sources }
        ensures err { IfErr result IsPlayFault }
        ensures end { IfOk result (λ r. IsEnd N.play r.0.items r.1.logs.items r.1.items.items) }
    {
        let LockedNetworks {
            seats,
            queue,
            outlet,
            capacity: _,
            enough: _,
        } = self;
        let (networks, nets) = unseat(alloc, seats, sources)?;
        let left = outlet.into_inner().end(rt, alloc, queue, nets)?;
        Ok((networks, left))
    }
}

/// What a source's thread needs that frames leave: how many frames it handed to the air queue since frames left by it,
/// and the memory of those that left.
#[derive(Drop)]
pub(crate) struct Relief {
    handed: u32,
    spares: Spares,
}

impl Relief {
    /// That of a source that handed nothing.
    pub(crate) fn new(alloc: Global) -> Relief {
        Relief {
            handed: 0,
            spares: Spares::new(alloc),
        }
    }
}

/// After how many frames of one of these sources frames leave: together they fill half of the queue then.
fn enough_of(capacity: u16, sources: usize) -> u32 {
    let half = u32::from(capacity) / 2;
    let sources = u32::try_from(sources).unwrap_or(u32::MAX).max(1);
    (half / sources).max(1)
}

/// The networks and their passes, in order of place, where each was given all lines of these sources.
fn unseat<N: PlayName>(
    alloc: Global,
    seats: Vec<Mutex<Seat<N>>>,
    sources: Sources<'_>,
) -> Result<(Vec<PlayedNetwork>, Vec<NetPass>), PlayFault>
    requires sources { lists_of sources ≡ N.play.sources }
    requires count { vec_len seats ≡ length N.play.config.networks }
    ensures err { IfErr result IsPlayFault }
    ensures passes { IfOk result (λ r. AllThere N.play.queue (length N.play.config.networks) r.1.items) }
    ensures count { IfOk result (λ r. (length r.0.items ≡ length N.play.config.networks)
        × (length r.1.items ≡ length N.play.config.networks)) }
    ensures sent { IfOk result (λ r. (place : ℕ) (n : PlayedNetwork) → slice_get r.0.items place ≡ Some n
        → IsWholeAt N.play place (slice_index_or r.1.items place (fresh_pass N.play.queue 0)).pushed n) }
{
    let mut networks = Vec::with_capacity(alloc, seats.len())?;
    let mut nets = Vec::with_capacity(alloc, seats.len())?;
    for seat in seats {
        let place = nets.len();
        let (network, pass) = seat.into_inner().into_parts(place, sources)?;
        networks.push(network)?;
        nets.push(pass)?;
    }
    Ok((networks, nets))
}

/// Each network of a configuration under a lock of its own, with its pass, in order of place.
fn seat_networks<N: PlayName>(
    alloc: Global,
    config: RadioConfig,
    nets: Vec<NetPass>,
    sources: usize,
    keeps: bool,
) -> Result<Vec<Mutex<Seat<N>>>, NoMemory>
    requires config { config ≡ N.play.config }
    requires sound { fault_of config ≡ None }
    requires nets { nets.items ≡ fresh_passes N.play.queue (length config.networks) }
    requires sources { sources ≡ length N.play.sources }
    requires keeps { keeps ≡ N.play.keeps }
    ensures { IfOk result (λ seats. vec_len seats ≡ length N.play.config.networks) }
{
    checked_networks();
    let RadioConfig {
        channel,
        interval,
        queue: _,
        networks,
    } = config;
    let networks = open_networks::<NetworkWithFrames>(alloc, channel, interval, networks)?;
    let mut seats = Vec::with_capacity(alloc, networks.len())?;
    for (network, pass) in networks.into_iter().zip(nets) {
        seats.push(Mutex::new(Seat::new(alloc, network, pass, sources, keeps)?))?;
    }
    Ok(seats)
}
