//! Stations that leave, and notices to those whose frames are not taken (IEEE Std 802.11-2016, 11.3.3, 11.3.4.5 and
//! 11.3.5.9).

ghost use Rattle.std.specs.Prelude.{◌≡◌, ◌<◌, OnOk};
ghost use Rattle.association.specs.Leaving.{notice_frame};
ghost use Rattle.network.specs.Network.{change_state, send};
ghost use Rattle.network.specs.Replies.{no_reply, after_reply, IsFitting};
ghost use Rattle.stations.specs.Stations.{disassociate, forget};

use crate::network::Network;
use crate::reply::Reply;
use association::write_notice;
use mac_frame::{MacAddr, NoMemory};
use station_state::Notice;
use stations::Change;

impl Network {
    /// The reply to a disassociation, which is not answered: the station is no longer associated.
    pub(crate) fn answer_disassociation(&self, reply: &mut Reply, from: MacAddr)
        requires nothing { reply.old ≡ no_reply self.now.network.sequence }
        requires sequence { reply.old.sequence < 4096 }
        ensures fitting { IsFitting self.now.setting reply.new self.now.network }
        ensures answer { change_state from (disassociate from) self.now.network
            ≡ after_reply reply.new self.now.network }
    {
        reply.change_state(from, Change::Disassociate(from));
    }

    /// The reply to a deauthentication, which is not answered: the station is not known any more.
    pub(crate) fn answer_deauthentication(&self, reply: &mut Reply, from: MacAddr)
        requires nothing { reply.old ≡ no_reply self.now.network.sequence }
        requires sequence { reply.old.sequence < 4096 }
        ensures fitting { IsFitting self.now.setting reply.new self.now.network }
        ensures answer { change_state from (forget from) self.now.network
            ≡ after_reply reply.new self.now.network }
    {
        reply.change_state(from, Change::Forget(from));
    }

    /// The reply to a frame whose class is not taken from its station: a notice, and nothing else (11.3.3).
    pub(crate) fn notify(
        &self,
        reply: &mut Reply,
        from: MacAddr,
        notice: Notice,
    ) -> Result<(), NoMemory>
        requires nothing { reply.old ≡ no_reply self.now.network.sequence }
        requires sequence { reply.old.sequence < 4096 }
        ensures fitting { OnOk result (IsFitting self.now.setting reply.new self.now.network) }
        ensures answer { OnOk result (
            send (λ sequence. notice_frame from self.now.setting.network.bssid sequence notice) self.now.network
            ≡ after_reply reply.new self.now.network) }
    {
        let mut frame = reply.spare.blank(self.alloc());
        let bssid = self.setting().network.bssid;
        write_notice(&mut frame, from, bssid, reply.sequence, notice)?;
        reply.send(frame)
    }
}
