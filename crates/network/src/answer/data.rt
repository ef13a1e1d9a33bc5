//! Data frames: the mode of a station, and its units (IEEE Std 802.11-2016, 4.5.2 and 11.2.3.2).

ghost use Rattle.std.specs.Prelude.{◌≡◌, ◌≤◌, ◌<◌, false, None, OnOk};
ghost use Rattle.encapsulation.specs.Encapsulation.{on_wire};
ghost use Rattle.powersave.specs.Keep.{units_for};
ghost use Rattle.powersave.specs.declared.unit.Whom.TheVariants as whoms;
ghost use Rattle.network.specs.Arrivals.{unit_shown};
ghost use Rattle.network.specs.Network.{forward, relay, set_power_mode, put_on_wire, send_each, change_state};
ghost use Rattle.network.specs.Replies.{no_reply, after_reply, IsFitting, IsModeReply};
ghost use Rattle.roster.specs.Keeping.{IsWithin};
ghost use Rattle.stations.specs.Stations.{Table, state_of, changed, set_mode};
ghost use Rattle.network.specs.Units.{unit, goes_on_wire};

use crate::network::Network;
use crate::reply::{Arrival, Body, Reply};
use encapsulation::to_wire;
use mac_frame::{MacAddr, NoMemory};
use powersave::Whom;
use station_state::StationState;
use stations::{Change, dozes_with, is_associated, modes_alone};

impl Network {
    /// The reply to a unit of an associated station: its mode is set, and then the unit is delivered on the air, put on
    /// the wire, or both. A network that doesn't relay puts it on the wire alone.
    pub(crate) fn answer_unit(
        &self,
        reply: &mut Reply,
        from: MacAddr,
        state: Option<StationState>,
        doze: bool,
        to: MacAddr,
        body: &[u8],
    ) -> Result<(), NoMemory>
        requires nothing { reply.old ≡ no_reply self.now.network.sequence }
        requires sequence { reply.old.sequence < 4096 }
        requires state { state ≡ state_of from self.now.network.stations }
        ensures fitting { OnOk result (IsFitting self.now.setting reply.new self.now.network) }
        ensures answer { OnOk result (
            forward self.now.setting (unit self.now.network.clock to from body.now)
            (set_power_mode self.now.setting from doze self.now.network)
            ≡ after_reply reply.new self.now.network) }
    {
        self.set_power_mode(reply, from, state, doze)?;
        let there = self.stations().state_after(reply.change, to);
        let relay = self.setting().network.relay;
        let goes_on_wire = goes_on_wire(relay, to, there);
        let unit = Arrival {
            to,
            source: from,
            body: Body::Plain(body),
            at: self.clock(),
        };
        self.relay(reply, &unit, there)?;
        if goes_on_wire {
            self.put_on_wire(reply, to, from, body)?;
        }
        Ok(())
    }

    /// The reply to what tells the mode of an associated station. One that dozed and is active now is sent all units
    /// that were kept for it. A mode that stays changes nothing.
    pub(crate) fn set_power_mode(
        &self,
        reply: &mut Reply,
        from: MacAddr,
        state: Option<StationState>,
        doze: bool,
    ) -> Result<(), NoMemory>
        requires nothing { reply.old ≡ no_reply self.now.network.sequence }
        requires sequence { reply.old.sequence < 4096 }
        requires state { state ≡ state_of from self.now.network.stations }
        ensures fitting { OnOk result (IsFitting self.now.setting reply.new self.now.network) }
        ensures answer { OnOk result (
            set_power_mode self.now.setting from doze self.now.network ≡ after_reply reply.new self.now.network) }
        ensures mode { OnOk result (IsModeReply reply.new self.now.network) }
    {
        // a mode that is set again changes nothing
        modes_alone();
        let dozed = dozes_with(state);
        if dozed == doze {
            return Ok(());
        }
        if dozed {
            return self.wake(reply, from);
        }
        reply.change = Change::SetMode { addr: from, doze };
        Ok(())
    }

    /// The reply to a station that dozed and is active now: it is sent all units that were kept for it.
    fn wake(&self, reply: &mut Reply, from: MacAddr) -> Result<(), NoMemory>
        requires nothing { reply.old ≡ no_reply self.now.network.sequence }
        requires sequence { reply.old.sequence < 4096 }
        ensures fitting { OnOk result (IsFitting self.now.setting reply.new self.now.network) }
        ensures answer { OnOk result (
            send_each self.now.setting false (units_for (whoms.One from) self.now.network.kept)
            (change_state from (set_mode from false) self.now.network)
            ≡ after_reply reply.new self.now.network) }
        ensures mode { OnOk result (IsModeReply reply.new self.now.network) }
    {
        // it doesn't doze then
        modes_alone();
        let awake = Change::SetMode {
            addr: from,
            doze: false,
        };
        reply.change_state(from, awake);
        self.send_kept(reply, &Whom::One(from), false)?;
        Ok(())
    }

    /// Goes on with a reply, which sets the mode of one station at most: delivers a station's unit on the air, to a
    /// station in this state then, if the network relays. After `NoMemory` the reply is of no use.
    fn relay(
        &self,
        reply: &mut Reply,
        unit: &Arrival<'_>,
        state: Option<StationState>,
    ) -> Result<(), NoMemory>
        requires mode { IsModeReply reply.old self.now.network }
        requires fitting { IsFitting self.now.setting reply.old self.now.network }
        requires state { state ≡ state_of unit.now.to (changed reply.old.change self.now.network.stations) }
        ensures ok { OnOk result (
            relay self.now.setting (unit_shown unit.now) (after_reply reply.old self.now.network)
            ≡ after_reply reply.new self.now.network) }
        ensures within { OnOk result (IsWithin self.now.setting.network.quota reply.new.change
            reply.new.keeping.leaving self.now.network.stations self.now.network.kept reply.new.keeping.arriving) }
        ensures change { reply.new.change ≡ reply.old.change }
        ensures wired { reply.new.wired ≡ reply.old.wired }
        ensures served { reply.new.served ≡ reply.old.served }
        ensures lost { reply.new.lost ≤ 1 }
    {
        if self.setting().network.relay {
            self.deliver(reply, unit, state)
        } else {
            Ok(())
        }
    }

    /// Goes on with a reply: puts a unit on the wire, or counts it as lost if it has no wired form.
    fn put_on_wire(
        &self,
        reply: &mut Reply,
        to: MacAddr,
        source: MacAddr,
        body: &[u8],
    ) -> Result<(), NoMemory>
        requires wired { reply.old.wired ≡ None }
        requires lost { reply.old.lost ≤ 1 }
        ensures ok { OnOk result (
            put_on_wire (on_wire to source body.now) (after_reply reply.old self.now.network)
            ≡ after_reply reply.new self.now.network) }
        ensures change { reply.new.change ≡ reply.old.change }
        ensures keeping { reply.new.keeping ≡ reply.old.keeping }
        ensures served { reply.new.served ≡ reply.old.served }
    {
        let mut frame = reply.spare.blank(self.alloc());
        if to_wire(&mut frame, to, source, body)? {
            reply.wired = Some(frame);
        } else {
            reply.lost += 1;
        }
        Ok(())
    }
}

/// Whether a unit of a station goes on the wire, unless it is relayed to one associated station, by the state that
/// it is in.
fn goes_on_wire(relay: bool, to: MacAddr, state: Option<StationState>) -> bool
    ensures { (stations : Table) → state ≡ state_of to stations → result ≡ goes_on_wire relay to stations }
{
    !relay || to.is_group() || !is_associated(state)
}
