//! Requests to associate or reassociate and their answers (IEEE Std 802.11-2016, 11.3.5.3 and
//! 11.3.5.5).

ghost use Rattle.std.specs.Prelude.{◌≡◌, ◌<◌, OnOk, is_some, true};
ghost use Rattle.network.specs.Network.{answer_association};
ghost use Rattle.network.specs.Replies.{no_reply, after_reply, IsFitting};
ghost use Rattle.stations.specs.Stations.{state_of};

use crate::network::Network;
use crate::reply::Reply;
use association::{SUCCESS, assoc_status, write_assoc};
use elements::Elements;
use mac_frame::{MacAddr, NoMemory};
use station_state::StationState;
use stations::Change;

impl Network {
    /// The reply to the request of a known station to associate, or `again` to reassociate: its answer, and if it
    /// is served the station is associated.
    pub(crate) fn answer_association(
        &self,
        reply: &mut Reply,
        from: MacAddr,
        state: Option<StationState>,
        again: bool,
        listen: u16,
        elements: &Elements<'_>,
    ) -> Result<(), NoMemory>
        requires known { is_some state ≡ true }
        requires nothing { reply.old ≡ no_reply self.now.network.sequence }
        requires sequence { reply.old.sequence < 4096 }
        requires state { state ≡ state_of from self.now.network.stations }
        ensures fitting { OnOk result (IsFitting self.now.setting reply.new self.now.network) }
        ensures answer { OnOk result (
            answer_association self.now.setting from again listen elements.now self.now.network
            ≡ after_reply reply.new self.now.network) }
    {
        let network = &self.setting().network;
        let rates = network.rates.as_slice();
        let aid = self.stations().next_aid(from, state);
        let status = assoc_status(network.ssid.as_slice(), rates, aid.is_some(), elements);
        let aid = aid.unwrap_or(0);
        let mut frame = reply.spare.blank(self.alloc());
        let sequence = reply.sequence;
        write_assoc(
            &mut frame,
            from,
            network.bssid,
            sequence,
            again,
            status,
            aid,
            rates,
        )?;
        reply.send(frame)?;
        if status == SUCCESS {
            reply.change_state(from, Change::Associate { addr: from, listen });
        }
        Ok(())
    }
}
