//! Frames of the wire (IEEE Std 802.11-2016, 4.5.2.2).

ghost use Rattle.std.specs.Prelude.{◌≡◌, ◌<◌, OnOk};
ghost use Rattle.encapsulation.specs.Ethernet.{ethernet_of};
ghost use Rattle.network.specs.Network.{answer_wired};
ghost use Rattle.network.specs.Replies.{no_reply, after_reply, IsFitting};

use crate::network::Network;
use crate::reply::{Arrival, Body, Reply};
use encapsulation::Ether;
use mac_frame::NoMemory;

impl Network {
    /// The reply to a frame of the wire: it is delivered on the air to the group or to an associated station.
    pub(crate) fn answer_wired(&self, reply: &mut Reply, frame: &[u8]) -> Result<(), NoMemory>
        requires nothing { reply.old ≡ no_reply self.now.network.sequence }
        requires sequence { reply.old.sequence < 4096 }
        ensures fitting { OnOk result (IsFitting self.now.setting reply.new self.now.network) }
        ensures answer { OnOk result (
            answer_wired self.now.setting (ethernet_of frame.now) self.now.network
            ≡ after_reply reply.new self.now.network) }
    {
        let Ok(ether) = Ether::decode(frame) else {
            reply.unread = 1;
            return Ok(());
        };
        let state = self.stations().state_after(reply.change, ether.to);
        let unit = Arrival {
            to: ether.to,
            source: ether.source,
            body: Body::Wired(ether),
            at: self.clock(),
        };
        self.deliver(reply, &unit, state)
    }
}
