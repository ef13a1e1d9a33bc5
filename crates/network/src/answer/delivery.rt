//! Units and how they are delivered on the air (IEEE Std 802.11-2016, 11.2.3.2).

ghost use Rattle.std.specs.Prelude.{◌≡◌, ◌≤◌, ◌<◌, ◌+◌, ◌&&◌, nat_lt, false, None, length, OnOk, OnErr, Some};
ghost use Rattle.std.specs.Prelude.{slice_get};
ghost use Rattle.powersave.specs.Keep.{units_for};
ghost use Rattle.powersave.specs.declared.unit.Unit.{Unit as DataUnit};
ghost use Rattle.network.specs.Arrivals.{unit_shown};
ghost use Rattle.network.specs.Network.{Network as NetworkAlone, deliver, keep_or_lose, send_each};
ghost use Rattle.network.specs.Replies.{after_reply, sending, IsModeReply};
ghost use Rattle.roster.specs.Keeping.{aid_at, aid_for, is_leaving, IsWithin};
ghost use Rattle.stations.specs.Stations.{IsModeAlone, changed, state_of};
ghost use Rattle.network.specs.Units.{delivery_of, delivery_with, group_waits, unit_frame};
ghost use Rattle.roster.specs.KeptUnits.{group_is_kept};

use crate::network::Network;
use crate::reply::{Arrival, Delivery, Reply};
use mac_frame::{MacAddr, NoMemory};
use powersave::Whom;
use roster::{Arriving, group_stays, kept_counts, modes_keep_identifiers};
use station_state::StationState;
use stations::{Change, aid_with};

impl Network {
    /// Goes on with a reply, which sets the mode of one station at most: delivers a unit on the air as the network does
    /// once the reply is carried out, to a station in this state then. After `NoMemory` the reply is of no use.
    pub(crate) fn deliver(
        &self,
        reply: &mut Reply,
        unit: &Arrival<'_>,
        state: Option<StationState>,
    ) -> Result<(), NoMemory>
        requires mode { IsModeReply reply.old self.now.network }
        requires state { state ≡ state_of unit.now.to (changed reply.old.change self.now.network.stations) }
        ensures ok { OnOk result (
            deliver self.now.setting (unit_shown unit.now) (after_reply reply.old self.now.network)
            ≡ after_reply reply.new self.now.network) }
        ensures within { OnOk result (IsWithin self.now.setting.network.quota reply.new.change
            reply.new.keeping.leaving self.now.network.stations self.now.network.kept reply.new.keeping.arriving) }
        ensures change { reply.new.change ≡ reply.old.change }
        ensures wired { reply.new.wired ≡ reply.old.wired }
        ensures served { reply.new.served ≡ reply.old.served }
        ensures lost { reply.new.lost ≤ 1 }
    {
        // units that leave are none of the group's, and identifiers stay
        group_stays();
        modes_keep_identifiers();
        match self.delivery_of(reply.change, unit.to, state) {
            Delivery::Now => {
                let bssid = self.setting().network.bssid;
                reply.send_unit(self.alloc(), bssid, false, unit)
            }
            Delivery::Kept(whom) => {
                let aid = aid_at(&whom, state);
                self.keep_or_lose(reply, whom, aid, unit)
            }
            Delivery::Nowhere => Ok(()),
        }
    }

    /// How a unit to this address is delivered on the air once the mode of a station is set, and the station there is
    /// in this state.
    fn delivery_of(&self, change: Change, to: MacAddr, state: Option<StationState>) -> Delivery
        requires alone { IsModeAlone change }
        requires state { state ≡ state_of to (changed change self.now.network.stations) }
        ensures { result ≡ delivery_of to (changed change self.now.network.stations) self.now.network.kept }
    {
        if !to.is_group() {
            delivery_with(state, to)
        } else if self.group_waits(change) {
            Delivery::Kept(Whom::Group)
        } else {
            Delivery::Now
        }
    }

    /// Whether a unit for the group waits once the mode of a station is set: a station dozes, or others are kept.
    fn group_waits(&self, change: Change) -> bool
        requires { IsModeAlone change }
        ensures { result ≡ group_waits (changed change self.now.network.stations) self.now.network.kept }
    {
        self.stations().some_dozes_after(change) || self.group_is_kept()
    }

    /// Whether units for the group are kept (11.2.3.3).
    pub(crate) fn group_is_kept(&self) -> bool
        ensures { result ≡ group_is_kept self.now.network.kept }
    {
        // some are kept if one stands among them
        kept_counts();
        self.kept().count_for(Whom::Group) > 0
    }

    /// Goes on with a reply: keeps a unit for one that has this association identifier, or counts it as lost.
    fn keep_or_lose(
        &self,
        reply: &mut Reply,
        whom: Whom,
        aid: Option<u16>,
        unit: &Arrival<'_>,
    ) -> Result<(), NoMemory>
        requires mode { IsModeAlone reply.old.change }
        requires aid { aid ≡ aid_for whom self.now.network.stations }
        requires apart { is_leaving reply.old.keeping.leaving whom ≡ false }
        requires none_arrives { reply.old.keeping.arriving ≡ None }
        requires lost { reply.old.lost ≡ 0 }
        ensures ok { OnOk result (
            keep_or_lose self.now.setting whom (unit_shown unit.now) (after_reply reply.old self.now.network)
            ≡ after_reply reply.new self.now.network) }
        ensures within { OnOk result (IsWithin self.now.setting.network.quota reply.new.change
            reply.new.keeping.leaving self.now.network.stations self.now.network.kept reply.new.keeping.arriving) }
        ensures change { reply.new.change ≡ reply.old.change }
        ensures wired { reply.new.wired ≡ reply.old.wired }
        ensures served { reply.new.served ≡ reply.old.served }
        ensures lost { reply.new.lost ≤ 1 }
    {
        let quota = self.setting().network.quota as usize;
        if reply.keeping.leaving.len_after(self.kept()) < quota {
            let unit = unit.copy(self.alloc())?;
            reply.keeping.arriving = Some(Arriving { whom, aid, unit });
        } else {
            reply.lost += 1;
        }
        Ok(())
    }

    /// Goes on with a reply: sends all units that are kept for one, and if so asked tells of all but the last that
    /// others follow.
    pub(crate) fn send_kept(
        &self,
        reply: &mut Reply,
        whom: &Whom,
        shows_more: bool,
    ) -> Result<(), NoMemory>
        requires { reply.old.sequence < 4096 }
        ensures ok { OnOk result ((n : NetworkAlone) →
            send_each self.now.setting shows_more (units_for whom.now self.now.network.kept) (after_reply reply.old n)
            ≡ after_reply reply.new n) }
        ensures same { reply.new ≡ record reply.old { frames = reply.new.frames; sequence = reply.new.sequence } }
        ensures sequence { reply.new.sequence < 4096 }
    {
        let count = self.kept().count_for(*whom);
        for n in 0..count {
            self.send_nth(reply, whom, n, more_data(shows_more, n, count))?;
        }
        Ok(())
    }

    /// Goes on with a reply: sends the unit at a place, from 0, of those that are kept for one, with More Data or
    /// without.
    pub(crate) fn send_nth(
        &self,
        reply: &mut Reply,
        whom: &Whom,
        place: usize,
        more: bool,
    ) -> Result<(), NoMemory>
        requires sequence { reply.old.sequence < 4096 }
        requires kept { place < length (units_for whom.now self.now.network.kept) }
        ensures ok { OnOk result ((unit : DataUnit) →
            slice_get (units_for whom.now self.now.network.kept) place ≡ Some unit →
            reply.new ≡ sending reply.old (unit_frame self.now.setting.network.bssid more unit)) }
        ensures same { reply.new ≡ record reply.old { frames = reply.new.frames; sequence = reply.new.sequence } }
        ensures err { OnErr result (reply.new ≡ reply.old) }
    {
        let unit = self.kept().nth(*whom, place).unwrap();
        reply.send_kept(self.alloc(), self.setting().network.bssid, more, unit)
    }
}

/// Whether More Data is set for the unit at a place, from 0, of `count` units, if that is asked: others follow it.
fn more_data(shows_more: bool, place: usize, count: usize) -> bool
    requires { place < count }
    ensures { result ≡ (shows_more && nat_lt (place + 1) count) }
{
    shows_more && place + 1 < count
}

/// The association identifier of whom a unit is kept for, a station in this state; the group has none.
fn aid_at(whom: &Whom, state: Option<StationState>) -> Option<u16>
    ensures { result ≡ aid_at whom.now state }
{
    match whom {
        Whom::One(_) => aid_with(state),
        Whom::Group => None,
    }
}

/// How a unit is delivered to the station in this state.
fn delivery_with(state: Option<StationState>, to: MacAddr) -> Delivery
    ensures { result ≡ delivery_with state to }
{
    match state {
        Some(StationState::Associated { doze: true, .. }) => Delivery::Kept(Whom::One(to)),
        Some(StationState::Associated { doze: false, .. }) => Delivery::Now,
        _ => Delivery::Nowhere,
    }
}
