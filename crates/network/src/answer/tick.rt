//! Beacon intervals (IEEE Std 802.11-2016, 11.1.3.2 and 11.2.3.3).

ghost use Rattle.std.specs.Prelude.{◌≡◌, ◌<◌, ◌≤◌, OnOk, OnErr};
ghost use Rattle.network.specs.Network.{tick, beacon_frame, age_units};
ghost use Rattle.network.specs.NetworkView.{IsStill};
ghost use Rattle.network.specs.Replies.{no_reply, after_reply, sending, IsFitting};
ghost use Rattle.roster.specs.Roster.{AreWaitedFor};

use crate::network::Network;
use crate::reply::Reply;
use crate::shown::announcement;
use ap_config::checked_numbers;
use beacon::{dtim_count, write_beacon};
use mac_frame::NoMemory;
use powersave::Whom;
use roster::{Leaving, group_stays};
use tim::{Bitmap, one_tim};

impl Network {
    /// The reply to a beacon interval that begins, once units have aged: a beacon, and at a DTIM after it all units
    /// that are kept for the group.
    pub(crate) fn tick(&self, reply: &mut Reply) -> Result<(), NoMemory>
        requires clock { self.now.network.clock < 4294967295 }
        requires nothing { reply.old ≡ no_reply self.now.network.sequence }
        requires sequence { reply.old.sequence < 4096 }
        ensures fitting { OnOk result (
            IsFitting self.now.setting reply.new (age_units self.now.setting self.now.network)) }
        ensures answer { OnOk result (tick self.now.setting (age_units self.now.setting self.now.network)
            ≡ after_reply reply.new (age_units self.now.setting self.now.network)) }
        ensures begins { OnOk result (reply.new.clock ≡ 1) }
        ensures still { OnOk result (IsStill reply.new) }
    {
        // there is a DTIM period
        checked_numbers();
        // units for the group don't age
        group_stays();
        let clock = self.clock() + 1;
        reply.clock = 1;
        self.announce(reply, clock)?;
        if dtim_count(clock, self.setting().network.dtim) == 0 {
            reply.keeping.leaving = Leaving::All(Whom::Group);
            self.send_kept(reply, &Whom::Group, true)?;
        }
        Ok(())
    }

    /// Goes on with a reply: sends the beacon at this clock, which tells of the units that are kept once they have
    /// aged.
    fn announce(&self, reply: &mut Reply, clock: u32) -> Result<(), NoMemory>
        requires clock { 1 ≤ clock }
        requires sequence { reply.old.sequence < 4096 }
        ensures ok { OnOk result (reply.new ≡ sending reply.old
            (beacon_frame self.now.setting clock self.now.network.stations
            (age_units self.now.setting self.now.network).kept)) }
        ensures err { OnErr result (reply.new ≡ reply.old) }
    {
        if self.setting().network.aging {
            self.announce_for(reply, clock, &self.traffic_after_aging()?)
        } else {
            self.announce_for(reply, clock, self.traffic())
        }
    }

    /// Goes on with a reply: sends the beacon at this clock, for the stations with these association identifiers.
    fn announce_for(&self, reply: &mut Reply, clock: u32, bits: &Bitmap) -> Result<(), NoMemory>
        requires clock { 1 ≤ clock }
        requires sequence { reply.old.sequence < 4096 }
        requires waited_for { AreWaitedFor bits.now self.now.network.stations
            (age_units self.now.setting self.now.network).kept }
        ensures ok { OnOk result (reply.new ≡ sending reply.old
            (beacon_frame self.now.setting clock self.now.network.stations
            (age_units self.now.setting self.now.network).kept)) }
        ensures err { OnErr result (reply.new ≡ reply.old) }
    {
        // a beacon is the same for sets with the same identifiers
        one_tim();
        // units for the group don't age
        group_stays();
        let setting = self.setting();
        let group = self.group_is_kept();
        let advert = announcement(setting, clock, reply.sequence);
        let mut frame = reply.spare.blank(self.alloc());
        write_beacon(&mut frame, &advert, setting.network.dtim, group, bits)?;
        reply.send(frame)?;
        Ok(())
    }
}
