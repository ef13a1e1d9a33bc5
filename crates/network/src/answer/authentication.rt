//! Requests to authenticate and their answers (IEEE Std 802.11-2016, 11.3.4.3).

ghost use Rattle.std.specs.Prelude.{◌≡◌, ◌<◌, ℕ, List, OnOk};
ghost use Rattle.network.specs.Network.{may_be_known, answer_authentication};
ghost use Rattle.network.specs.Replies.{no_reply, after_reply, IsFitting};
ghost use Rattle.stations.specs.Stations.{state_of};

use crate::network::Network;
use crate::reply::Reply;
use association::{SUCCESS, auth_status, write_auth};
use mac_frame::{MacAddr, NoMemory};
use station_state::StationState;
use stations::Change;

impl Network {
    /// The reply to a request to authenticate: its answer, and if it is served the station is authenticated.
    pub(crate) fn answer_authentication(
        &self,
        reply: &mut Reply,
        from: MacAddr,
        state: Option<StationState>,
        algorithm: u16,
        step: u16,
    ) -> Result<(), NoMemory>
        requires nothing { reply.old ≡ no_reply self.now.network.sequence }
        requires sequence { reply.old.sequence < 4096 }
        requires state { state ≡ state_of from self.now.network.stations }
        ensures fitting { OnOk result (IsFitting self.now.setting reply.new self.now.network) }
        ensures answer { OnOk result (
            answer_authentication self.now.setting from algorithm step self.now.network
            ≡ after_reply reply.new self.now.network) }
    {
        let status = auth_status(algorithm, step, self.may_be_known(state));
        let mut frame = reply.spare.blank(self.alloc());
        let bssid = self.setting().network.bssid;
        write_auth(&mut frame, from, bssid, reply.sequence, algorithm, status)?;
        reply.send(frame)?;
        if status == SUCCESS {
            reply.change_state(from, Change::Authenticate(from));
        }
        Ok(())
    }

    /// Whether a station in this state is known, or there is room for it (*profile*).
    fn may_be_known(&self, state: Option<StationState>) -> bool
        ensures { (addr : List ℕ) → state ≡ state_of addr self.now.network.stations
            → result ≡ may_be_known self.now.setting addr self.now.network }
    {
        let max_known = usize::from(self.setting().network.max_known);
        state.is_some() || self.stations().len() < max_known
    }
}
