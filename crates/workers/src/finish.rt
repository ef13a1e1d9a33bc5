//! The end of an access point: all that waits or is queued leaves, and every network has its section (*profile*).

ghost use Rattle.std.specs.Prelude.{◌≡◌, ◌++◌, IfOk, OnOk, vec_len, length};
ghost use Rattle.events.specs.Lists.{IsPrefix};
ghost use Rattle.events.specs.Items.{items_of};
ghost use Rattle.network.specs.BssView.{section_with};
ghost use Rattle.play.specs.Sections.{AreSections, HaveLeft, ArePlaced};
ghost use Rattle.workers.specs.Ending.{AreSeated, items_at, sections_from, waiting_from};
ghost use Rattle.play.specs.Givers.{AreGivers, histories_of};
ghost use Rattle.workers.specs.Receipts.{AreReceipts, AreFullLast, limits_of};

use crate::ap::Ap;
use crate::caller::Caller;
use crate::name::ApName;
use crate::receipts::givers_of;
use crate::seat::Seat;
use crate::transmitter::Transmitter;
use air_queue::NetPass;
use events::{AirItem, Section};
use mac_frame::{List, NoMemory, Octets};
use network::Bss;
use play::{FinishFault, Finished};
use std::alloc::Global;
use std::sync::{Mutex, Wait};

impl<N: ApName> Ap<N> {
    /// Ends the access point (*profile*). It tests what the callers were told against the histories, all frames that
    /// wait or are queued leave, and each network has its section. `NoMemory`: memory ran out, which may be at any
    /// point. Else it answers the first of these that there is. `BadReceipt`: a receipt's place or number is not there,
    /// its event is another, another receipt repeats it, or the numbers of a caller's receipts from one network don't
    /// rise. `Uncovered`: no receipt tells of an event of a history. `FullEarly`: a caller was told that a network is
    /// full which is not, or the same caller has a later receipt from it. The access point, the callers and the
    /// transmitter are gone then. It may wait for other threads.
    pub fn finish<R: Wait>(
        self,
        rt: &R,
        callers: Vec<Caller>,
        transmitter: Transmitter<N>,
    ) -> Result<Finished, FinishFault>
        // Each section is that of the network alone, with its own events, as many at most as it may take.
        ensures networks { IfOk result (λ end. length end.sections ≡ length N.config.networks) }
        ensures sections { IfOk result (λ end. AreSections N.config end.sections) }

        // What left of a network is all that it sent on the air, and nothing else left.
        ensures air { IfOk result (λ end. HaveLeft end.sections end.left) }
        ensures nothing_else { IfOk result (λ end. ArePlaced N.config end.left) }
        ensures begins { IfOk result (λ end. IsPrefix transmitter end.left) }

        // Each event of a history has one giver, and a caller's receipts are what is dealt to it of each history. A
        // network that a caller was told is full is full, and that caller has no receipt from it afterwards.
        ensures receipts { IfOk result (λ end. AreReceipts callers.items (histories_of end.sections) end.givers) }
        ensures givers { IfOk result (λ end. AreGivers (vec_len callers) (histories_of end.sections) end.givers) }
        ensures full { IfOk result (λ end.
            AreFullLast (limits_of end.sections) (histories_of end.sections) callers.items) }
    {
        let Ap {
            alloc,
            bssids: _,
            seats,
            queue,
            waiting: _,
        } = self;
        let Transmitter { pass: radio, of: _ } = transmitter;
        let (networks, nets) = unseat(alloc, seats)?;
        let givers = givers_of(alloc, networks.as_slice(), callers.as_slice())?;
        let Ok(left) = queue.take_in(rt, radio, nets) else {
            return Err(FinishFault::NoMemory);
        };
        let (sections, mut waited) = end_networks(alloc, networks, left.items.as_slice())?;
        let mut left = left.items.into_vec();
        left.append(&mut waited)?;
        Ok(Finished {
            sections: List::from_vec(sections),
            left: List::from_vec(left),
            givers,
        })
    }
}

/// The networks and their passes, in order of place.
fn unseat<N: ApName>(
    alloc: Global,
    seats: Vec<Mutex<Seat<N>>>,
) -> Result<(Vec<Bss>, Vec<NetPass>), FinishFault>
    requires { vec_len seats ≡ length N.config.networks }
    ensures { IfOk result (λ r. AreSeated N.config N.queue r.0.items r.1.items) }
{
    let mut networks = Vec::with_capacity(alloc, seats.len())?;
    let mut nets = Vec::with_capacity(alloc, seats.len())?;
    for seat in seats {
        let (bss, pass) = seat.into_inner().into_parts();
        if pass.place() != nets.len() {
            return Err(FinishFault::BadReceipt);
        }
        networks.push(bss)?;
        nets.push(pass)?;
    }
    Ok((networks, nets))
}

/// The section of each network, in order of place, and the frames that wait, which leave after these that left.
fn end_networks(
    alloc: Global,
    networks: Vec<Bss>,
    left: &[AirItem],
) -> Result<(Vec<Section>, Vec<AirItem>), NoMemory>
    ensures sections { IfOk result (λ r. r.0.items ≡ sections_from left.now 0 networks.items) }
    ensures waited { IfOk result (λ r. r.1.items ≡ waiting_from 0 networks.items) }
{
    let mut sections = Vec::with_capacity(alloc, networks.len())?;
    let mut waited = Vec::new(alloc);
    for network in networks {
        let place = sections.len();
        sections.push(end_network(alloc, place, network, left, &mut waited)?)?;
    }
    Ok((sections, waited))
}

/// The section of the network at a place, whose frames that wait leave last.
fn end_network(
    alloc: Global,
    place: usize,
    mut network: Bss,
    left: &[AirItem],
    waited: &mut Vec<AirItem>,
) -> Result<Section, NoMemory>
    ensures waited { OnOk result (waited.new.items ≡ waited.old.items ++ items_at place network.waiting) }
    ensures section { IfOk result (λ section.
        section ≡ section_with (items_of place left.now ++ network.waiting) network) }
{
    let mut air = frames_of(alloc, place, left)?;
    while let Some(octets) = network.take_front() {
        air.push(octets.copy(alloc)?)?;
        waited.push(AirItem { place, octets })?;
    }
    network.into_section(List::from_vec(air))
}

/// Copies of the frames of the network at a place.
fn frames_of(alloc: Global, place: usize, items: &[AirItem]) -> Result<Vec<Octets>, NoMemory>
    ensures { IfOk result (λ frames. frames.items ≡ items_of place items.now) }
{
    let mut frames = Vec::new(alloc);
    for item in items {
        if item.place == place {
            frames.push(item.octets.copy(alloc)?)?;
        }
    }
    Ok(frames)
}
