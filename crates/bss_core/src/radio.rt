//! A radio with several networks: each takes its own events, and their frames leave through one queue.

ghost use Rattle.std.specs.Prelude.{◌≡◌, ◌≢◌, ◌↔◌, ◌++◌, ◌<◌, [], None, Some, Err, IfOk, OnOk, OnErr, IsNone, length};
ghost use Rattle.std.specs.Prelude.{map, option_to_list};
ghost use Rattle.ap_config.specs.Configuration.{fault_of};
ghost use Rattle.ap_config.specs.Places.{network_at, setting_at};
ghost use Rattle.bss_core.specs.RadioView.{IsSoundRadio, view_at, shown, settings_of, fresh_radio, took, after_hand};
ghost use Rattle.ap_config.specs.declared.config.ConfigFault.{ConfigFault};

mod running;
mod step;

use ap_config::{ConfigFault, OpenFault, RadioConfig, checked_networks};
use events::{AirItem, Event, Handed, own_frames};
use mac_frame::{List, NoMemory};
use network::{Bss, Refusal, open_networks, sent_frames};
pub use running::{RunResult, run};
use std::alloc::Global;
use std::collections::VecDeque;
use std::marker::Model;
pub use step::Step;

/// The networks of a radio and the queue of frames that are about to leave.
///
/// Contracts see its configuration, for each network by its place the events that it took and the frames that wait,
/// and the queue. A network is a [`Bss`], which none of the others reaches: what it makes of its events is what the
/// definition `alone` gives of its own configuration and its own events. No frame is lost or doubled on its way:
/// what is queued of a network and then what waits is the end of all that it sent.
#[derive(Drop)]
pub struct Radio {
    channel: u8,
    interval: u16,
    capacity: u16,
    networks: Vec<Bss>,
    queue: VecDeque<AirItem>,
}

impl Model for Radio {
    ghost use Rattle.std.specs.Prelude.{◌≡◌, ◌≤◌, map};
    ghost use Rattle.std.specs.VecDeque.{deque_capacity};
    ghost use Rattle.bss_core.specs.RadioView.{RadioView, IsSoundRadio, settings_of, config_of, radio_of};

    ghost Value = { RadioView };

    ghost view = { λ r. radio_of r.channel r.interval r.capacity r.networks.items r.queue.items };

    ghost invariant = { λ r.
        IsSoundRadio (radio_of r.channel r.interval r.capacity r.networks.items r.queue.items)
        × (map (λ s. s.setting) r.networks.items
        ≡ settings_of (config_of r.channel r.interval r.capacity r.networks.items))
        × (r.capacity ≤ deque_capacity r.queue) };
}

impl Radio {
    /// The networks of a configuration, none of which took an event, and an empty queue. `Config` with the first fault
    /// exactly if the configuration has one, which is tested first; `NoMemory` if memory ran out.
    pub fn new(alloc: Global, config: RadioConfig) -> Result<Radio, OpenFault>
        ensures fault { (fault : ConfigFault)
            → (result ≡ Err (OpenFault.Config fault)) ↔ (fault_of config ≡ Some fault) }
        ensures callers { result ≢ Err OpenFault.Callers }
        ensures opened { IfOk result (λ radio. radio ≡ fresh_radio config) }
    {
        match config.check() {
            Some(fault) => Err(OpenFault::Config(fault)),
            None => Ok(Radio::of_checked(alloc, config)?),
        }
    }

    /// The networks of a configuration in which `check` finds no fault, none of which took an event, and an empty
    /// queue. `NoMemory` if memory ran out.
    pub fn of_checked(alloc: Global, config: RadioConfig) -> Result<Radio, NoMemory>
        requires sound { fault_of config ≡ None }
        ensures opened { IfOk result (λ radio. radio ≡ fresh_radio config) }
    {
        checked_networks();
        let RadioConfig {
            channel,
            interval,
            queue: capacity,
            networks,
        } = config;
        let networks = open_networks::<Bss>(alloc, channel, interval, networks)?;
        let queue = VecDeque::with_capacity(alloc, usize::from(capacity))?;
        Ok(Radio {
            channel,
            interval,
            capacity,
            networks,
            queue,
        })
    }

    /// How many networks it has. Their places are 0 and the numbers below this one.
    pub fn networks(&self) -> usize
        ensures count { result ≡ length self.now.config.networks }
        ensures sound { IsSoundRadio self.now }
    {
        self.networks.len()
    }

    /// The network at a place, from 0 and below [`Radio::networks`].
    pub fn bss(&self, place: usize) -> &Bss
        requires { place < length self.now.config.networks }
        ensures setting { result.now.setting ≡ setting_at self.now.config place }
        ensures history { result.now.history ≡ (view_at self.now place).history }
        ensures waiting { result.now.waiting ≡ (view_at self.now place).waiting }
        ensures sound { IsSoundRadio self.now }
    {
        &self.networks[place]
    }

    /// Lets the network at a place, below [`Radio::networks`], take an event, as [`Bss::take`] does: it answers the
    /// event's number in that network's history, from 0, and frames that it sends wait after the others. `HistoryFull`
    /// exactly if that history is full, which is tested first; `NoMemory` if memory ran out. After either
    /// nothing has changed. The other networks and the queue stay as they were.
    pub fn take(&mut self, place: usize, event: Event) -> Result<u32, Refusal>
        requires { place < length self.old.config.networks }
        ensures number { IfOk result (λ number. number ≡ length (view_at self.old place).history) }
        ensures room { OnOk result
            (length (view_at self.old place).history < (network_at self.old.config place).max_events) }
        ensures after { OnOk result (self.new ≡ took place event self.old) }
        ensures config { self.new.config ≡ self.old.config }
        ensures full { (result ≡ Err Refusal.HistoryFull)
            ↔ (length (view_at self.old place).history ≡ (network_at self.old.config place).max_events) }
        ensures err { OnErr result (self.new ≡ self.old) }
    {
        self.networks[place].take(event)
    }

    /// Moves the first waiting frame of a network to the end of the queue. Its place is below [`Radio::networks`].
    /// `Nothing` exactly if none of its frames waits; else `QueueFull` exactly if the queue is full. After either
    /// nothing has changed. Takes no memory.
    pub fn hand(&mut self, place: usize) -> Handed
        requires { place < length self.old.config.networks }
        ensures nothing { (result ≡ Handed.Nothing) ↔ ((view_at self.old place).waiting ≡ []) }
        ensures full { (result ≡ Handed.QueueFull)
            ↔ (((view_at self.old place).waiting ≢ []) × (length self.old.queue ≡ self.old.config.queue)) }
        ensures after { self.new ≡ after_hand place result self.old }
        ensures config { self.new.config ≡ self.old.config }
    {
        // the frames of one network among those of several, and those that it sends
        own_frames();
        sent_frames();
        let network = &mut self.networks[place];
        if network.waiting_len() == 0 {
            return Handed::Nothing;
        }
        if self.queue.len() >= usize::from(self.capacity) {
            return Handed::QueueFull;
        }
        match network.take_front() {
            None => Handed::Nothing,
            Some(octets) => {
                self.queue.push_back_reserved(AirItem { place, octets });
                Handed::Moved
            }
        }
    }

    /// Takes the first frame out of the queue: it leaves. `None` exactly if the queue is empty. Nothing else
    /// changes. Takes no memory.
    pub fn leave(&mut self) -> Option<AirItem>
        ensures first { self.old.queue ≡ option_to_list result ++ self.new.queue }
        ensures none { IsNone result ↔ (self.old.queue ≡ []) }
        ensures others { self.new ≡ record self.old { queue = self.new.queue } }
    {
        // the frames of one network among those of several, and those that it sends
        own_frames();
        sent_frames();
        self.queue.pop_front()
    }

    /// Its networks in order of place, and the frames that are queued.
    pub fn into_parts(self) -> (List<Bss>, List<AirItem>)
        ensures settings { map (λ s. s.setting) result.0 ≡ settings_of self.config }
        ensures networks { map shown result.0 ≡ self.networks }
        ensures queue { result.1 ≡ self.queue }
    {
        let queue = Vec::from(self.queue);
        (List::from_vec(self.networks), List::from_vec(queue))
    }
}
