//! A network that keeps no history, with the frames that it sent.

ghost use Rattle.std.specs.Prelude.{◌≡◌, ◌++◌, List, [], true, OnOk, option_to_list};
ghost use Rattle.ap_config.specs.declared.setting.Setting.{Setting};
ghost use Rattle.events.specs.declared.event.Event.{Event};
ghost use Rattle.network.specs.ReceivedEvents.{event_received};
ghost use Rattle.networks.specs.WithFrames.{TakesUnlessFull, after_events, taken_next};

use crate::dispatch::{Addressed, Deliver};
use crate::sent_frames::SentFrames;
use ap_config::{Setting, checked_numbers};
use mac_frame::{MacAddr, NoMemory};
use network::{
    Network, NetworkRefusal, Open, ReceivedEvent, Sent, Spare, one_step, reachable, steps_append,
};
use std::alloc::Global;

/// A network, and the frames that it sent. Of the events that it took it keeps the number alone.
#[derive(Drop)]
pub struct NetworkWithFrames {
    /// The network.
    pub network: Network,
    /// The frames that it sent on the air, the first of them first.
    pub air: SentFrames,
    /// The frames that it sent on the wire, the first of them first.
    pub wire: SentFrames,
}

impl Addressed for NetworkWithFrames {
    ghost bssid = { λ n. n.network.setting.network.bssid };

    fn bssid(&self) -> MacAddr {
        self.network.setting().network.bssid
    }
}

impl Open for NetworkWithFrames {
    ghost opened = { λ s. after_events s [] };

    fn open(alloc: Global, setting: Setting) -> Result<NetworkWithFrames, NoMemory> {
        one_step();
        Ok(NetworkWithFrames {
            network: Network::new(alloc, setting),
            air: SentFrames::new(alloc),
            wire: SentFrames::new(alloc),
        })
    }
}

impl NetworkWithFrames {
    /// Takes an event, unless it took as many as its history might have, and keeps the frames that it sends, which are
    /// built in spare memory.
    #[inline(always)]
    pub fn take(&mut self, event: &ReceivedEvent<'_>, spare: &mut Spare) -> Result<(), NoMemory>
        ensures events { (s : Setting) (es : List Event) → self.old ≡ after_events s es
            → OnOk result (self.new ≡ after_events s (es ++ taken_next s es (event_received event.now))) }
        ensures setting { self.new.network.setting ≡ self.old.network.setting }
    {
        // no history is so long that the network's clock or its number of events could end
        checked_numbers();
        reachable();
        one_step();
        steps_append();
        if self.network.events() >= u64::from(self.network.setting().network.max_events) {
            return Ok(());
        }
        match self.network.take_received(event, spare) {
            Ok(sent) => self.keep(sent, spare),
            Err(NetworkRefusal::NoMemory) => Err(NoMemory),
            // its clock counts more beacon intervals than it may take events
            Err(NetworkRefusal::Clock) => Ok(()),
        }
    }

    /// Keeps the frames that it sent for an event, whose memory is spare then.
    fn keep(&mut self, sent: Sent, spare: &mut Spare) -> Result<(), NoMemory>
        ensures kept { OnOk result (self.new ≡ record self.old {
          air = self.old.air ++ sent.air;
          wire = self.old.wire ++ option_to_list sent.wire;
        }) }
        ensures network { self.new.network ≡ self.old.network }
    {
        let (first, others) = sent.air.parts();
        self.air.push_if(first)?;
        self.air.push_all(others)?;
        self.wire.push_if(sent.wire.as_ref())?;
        spare.keep(sent);
        Ok(())
    }
}

/// Keeps the frames of each network with it. It stops where memory ran out.
#[derive(Clone, Copy, Debug)]
pub struct KeepFrames;

impl Deliver<NetworkWithFrames, ()> for KeepFrames {
    ghost may_take = { λ _. Unit {0} };

    ghost is_ready = { λ _. Unit {0} };

    ghost may_stop = { true };

    ghost delivers = { λ _ e n _. TakesUnlessFull e n.old n.new };

    #[inline]
    fn deliver(
        &self,
        network: &mut NetworkWithFrames,
        event: &ReceivedEvent<'_>,
        spare: &mut Spare,
        _out: &mut (),
    ) -> Result<(), NoMemory> {
        network.take(event, spare)
    }
}
