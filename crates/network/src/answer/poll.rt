//! Polls of stations that doze (IEEE Std 802.11-2016, 11.2.3.6).

ghost use Rattle.std.specs.Prelude.{◌≡◌, IfSome};
ghost use Rattle.network.specs.Network.{answer_poll};
ghost use Rattle.network.specs.Replies.{no_reply, serves, outcome, reply_of, unit_taken, after_answer, IsFitting};
ghost use Rattle.stations.specs.Stations.{state_of};
ghost use Rattle.network.specs.Units.{may_poll};

use crate::network::Network;
use crate::reply::Reply;
use mac_frame::MacAddr;
use roster::kept_counts;
use station_state::StationState;

impl Network {
    /// The reply to a poll: it is served if its station, in this state, dozes and names its own identifier. The unit
    /// that was kept first for the station leaves as a frame if the reply is carried out.
    pub(crate) fn answer_poll(
        &self,
        reply: &mut Reply,
        from: MacAddr,
        state: Option<StationState>,
        aid: u16,
    )
        requires nothing { reply.old ≡ no_reply self.now.network.sequence }
        requires state { state ≡ state_of from self.now.network.stations }
        ensures fitting { IsFitting self.now.setting
            (reply_of self.now.setting (outcome reply.new) self.now.network)
            (unit_taken (outcome reply.new) self.now.network) }
        ensures answer { answer_poll self.now.setting from aid self.now.network
            ≡ after_answer self.now.setting (outcome reply.new) self.now.network }
        ensures alone { IfSome reply.new.served (λ from. reply.new ≡ serves from self.now.network.sequence) }
    {
        // none leaves if none is kept
        kept_counts();
        if may_poll(aid, state) {
            reply.served = Some(from);
        }
    }
}

/// Whether a station in this state dozes and has this association identifier.
fn may_poll(aid: u16, state: Option<StationState>) -> bool
    ensures { result ≡ may_poll aid state }
{
    match state {
        Some(StationState::Associated { aid: own, doze, .. }) => doze && aid == own,
        _ => false,
    }
}
