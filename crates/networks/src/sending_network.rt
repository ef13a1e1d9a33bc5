//! A network that keeps no history, whose frames on the air wait to be handed on.

ghost use Rattle.std.specs.Prelude.{◌≡◌, ◌++◌, List, [], ℕ, OnOk, option_to_list};
ghost use Rattle.ap_config.specs.declared.setting.Setting.{Setting};
ghost use Rattle.events.specs.declared.event.Event.{Event};
ghost use Rattle.network.specs.ReceivedEvents.{event_received};
ghost use Rattle.networks.specs.WithFrames.{after_events, sent_after, taken_next};

use crate::network_with_frames::NetworkWithFrames;
use crate::sent_frames::SentFrames;
use ap_config::checked_numbers;
use mac_frame::{NoMemory, Octets};
use network::{
    Network, NetworkRefusal, ReceivedEvent, Sent, Spare, one_step, reachable, steps_append,
};
use std::alloc::Global;
use std::collections::VecDeque;

/// A network, with those of its frames that were not handed on. Of the events that it took it keeps the number alone.
#[derive(Drop)]
pub struct SendingNetwork {
    /// The network.
    pub network: Network,
    /// The frames on the air that wait, the first of them first.
    pub waiting: VecDeque<Octets>,
    /// The frames that it sent on the wire, the first of them first.
    pub wire: SentFrames,
}

impl SendingNetwork {
    /// A network of which no frame waits. The frames that it kept of those on the air are gone.
    pub fn of(alloc: Global, held: NetworkWithFrames) -> SendingNetwork
        ensures network { (result.network ≡ held.network) × (result.wire ≡ held.wire) }
        ensures waiting { result.waiting.items ≡ [] }
    {
        let NetworkWithFrames {
            network,
            air: _,
            wire,
        } = held;
        SendingNetwork {
            network,
            waiting: VecDeque::new(alloc),
            wire,
        }
    }

    /// Takes an event, unless it took as many as its history might have. The frames that it sends on the air wait; the
    /// first of all that it sends is built in spare memory. `NoMemory` where memory ran out.
    #[inline(always)]
    pub fn take(&mut self, event: &ReceivedEvent<'_>, spare: &mut Spare) -> Result<(), NoMemory>
        ensures events { (s : Setting) (es : List Event) (gone : List (List ℕ)) → sent_after gone self.old ≡ after_events s es
            → OnOk result (sent_after gone self.new ≡ after_events s (es ++ taken_next s es (event_received event.now))) }
        ensures setting { self.new.network.setting ≡ self.old.network.setting }
    {
        // no history is so long that the network's clock or its number of events could end
        checked_numbers();
        reachable();
        one_step();
        steps_append();
        if self.network.events() >= u64::from(self.network.setting().network.max_events) {
            return Ok(());
        }
        match self.network.take_received(event, spare) {
            Ok(sent) => self.keep(sent),
            Err(NetworkRefusal::NoMemory) => Err(NoMemory),
            // its clock counts more beacon intervals than it may take events
            Err(NetworkRefusal::Clock) => Ok(()),
        }
    }

    /// Keeps the frames that it sent for an event: those on the air wait.
    fn keep(&mut self, sent: Sent) -> Result<(), NoMemory>
        ensures kept { OnOk result ((self.new.waiting.items ≡ self.old.waiting.items ++ sent.air)
            × (self.new.wire ≡ self.old.wire ++ option_to_list sent.wire)) }
        ensures network { self.new.network ≡ self.old.network }
    {
        let Sent { air, wire } = sent;
        air.reserve_in(&mut self.waiting)?;
        self.wire.push_if(wire.as_ref())?;
        air.append_to(&mut self.waiting);
        Ok(())
    }
}
