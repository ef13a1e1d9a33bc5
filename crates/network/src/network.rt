//! A network as it runs, without its history.

ghost use Rattle.std.specs.Prelude.{◌≡◌, ◌+◌, ◌*◌, ◌<◌, ◌≤◌, ◌^◌, ◌&&◌, nat_lt, ℕ, true, ◌↔◌, None, Some, Err, IfSome};
ghost use Rattle.std.specs.Prelude.{IfOk, OnOk, OnErr, [], length, slice_get};
ghost use Rattle.ap_config.specs.Configuration.{setting_fault, network_fault};
ghost use Rattle.beacon.specs.ProbeResponse.{response_elements};
ghost use Rattle.network.specs.Network.{step, table_of, age_units, announced_at};
ghost use Rattle.network.specs.NetworkView.{new_network, carried_out, MayFollow, TakesEvent, EndsClock};
ghost use Rattle.network.specs.Sizes.{IsWithinSizes};
ghost use Rattle.network.specs.Sound.{IsSoundNetwork};
ghost use Rattle.network.specs.Replies.{no_reply, serves, Replied, Served, outcome, reply_of, after_outcome};
ghost use Rattle.roster.specs.Roster.{AreWaitedFor};
ghost use Rattle.network.specs.ReceivedEvents.{event_received};
ghost use Rattle.events.specs.declared.event.Event.{Event as AnyEvent};
ghost use Rattle.events.specs.declared.event.Event.TheVariants as events;
ghost use Rattle.network.specs.declared.network.NetworkRefusal.TheVariants as refusals;
ghost use Rattle.powersave.specs.Keep.{units_for};
ghost use Rattle.powersave.specs.declared.unit.Whom.TheVariants as whoms;

use crate::announced_setting::AnnouncedSetting;
use crate::laws::{frame_sizes, stays_sound};
use crate::received_event::ReceivedEvent;
use crate::reply::{Frames, Reply, SEQUENCE_NUMBERS, Spare};
use crate::shown::row_of;
use ap_config::{Setting, checked_numbers};
use beacon::ResponseElements;
use events::{Event, StationRow};
use mac_frame::{MacAddr, NoMemory, Octets};
use powersave::{Keep, Whom};
use roster::{Roster, kept_counts};
use stations::Stations;
use std::alloc::Global;
use std::marker::Model;
use std::mem;
use tim::Bitmap;

/// Why a network refused an event. Nothing of it has changed then.
#[derive(Clone, Copy, Debug, PartialEq, Eq)]
pub enum NetworkRefusal {
    /// Memory ran out.
    NoMemory,
    /// As many beacon intervals began as its clock can count.
    Clock,
}

impl From<NoMemory> for NetworkRefusal {
    ghost from_gives = { λ _ refusal. refusal ≡ refusals.NoMemory };

    fn from(_e: NoMemory) -> NetworkRefusal {
        NetworkRefusal::NoMemory
    }
}

/// What a network sent for one event.
#[derive(Debug, Drop)]
pub struct Sent {
    /// The frames on the air, the first of them first.
    pub air: Frames,
    /// The frame on the wire, if there is one.
    pub wire: Option<Octets>,
}

/// A network that takes events, and hands out what it sends for each.
///
/// Contracts see its setting, how many events it took, and the network that these made but for the frames that it sent:
/// one event more is one `step` of that network. Nothing of it grows with the number of its events.
#[derive(Drop)]
pub struct Network {
    alloc: Global,
    setting: AnnouncedSetting,
    roster: Roster,
    events: u64,
    clock: u32,
    sequence: u16,
    lost: u64,
    unread: u64,
}

impl Model for Network {
    ghost use Rattle.network.specs.NetworkView.{NetworkState, network_with, IsNetwork};

    ghost Value = { NetworkState };

    ghost view = { λ n. record {
      setting = n.setting;
      events = n.events;
      network = network_with n.roster n.clock n.sequence n.lost n.unread;
    } };

    ghost invariant = { λ n. IsNetwork n.roster (record {
      setting = n.setting;
      events = n.events;
      network = network_with n.roster n.clock n.sequence n.lost n.unread;
    }) };
}

impl Network {
    /// A network that took no event. Its setting is that of a [`crate::RadioConfig`] in which `check` finds no fault.
    /// It takes no memory.
    pub fn new(alloc: Global, setting: Setting) -> Network
        requires setting { setting_fault setting.channel setting.interval ≡ None }
        requires network { network_fault setting.network ≡ None }
        ensures { result ≡ new_network setting }
    {
        // its pool of identifiers is as large as is allowed
        checked_numbers();
        Network {
            alloc,
            roster: Roster::new(alloc, setting.network.max_stations, setting.network.quota),
            setting: AnnouncedSetting::new(setting),
            events: 0,
            clock: 0,
            sequence: 0,
            lost: 0,
            unread: 0,
        }
    }

    /// Its configuration, with its radio's settings.
    pub fn setting(&self) -> &Setting
        ensures setting { result.now ≡ self.now.setting }
        ensures sound { network_fault result.now.network ≡ None }
    {
        self.setting.get()
    }

    /// The elements of its probe responses, the same at each clock (IEEE Std 802.11-2016, 9.3.3.11).
    pub(crate) fn response_elements(&self) -> &ResponseElements
        ensures { (clock : ℕ) → result.now ≡ response_elements (announced_at self.now.setting clock) }
    {
        self.setting.response_elements()
    }

    /// How many events it took.
    pub fn events(&self) -> u64
        ensures { result ≡ self.now.events }
    {
        self.events
    }

    /// How many beacon intervals began.
    pub fn clock(&self) -> u32
        ensures { result ≡ self.now.network.clock }
    {
        self.clock
    }

    /// How many of its events were no request that it reads (*profile*).
    pub fn unread(&self) -> u64
        ensures { result ≡ self.now.network.unread }
    {
        self.unread
    }

    /// How many units were lost (*profile*).
    pub fn lost(&self) -> u64
        ensures { result ≡ self.now.network.lost }
    {
        self.lost
    }

    /// How many units are kept now, for stations and for the group.
    pub fn kept_len(&self) -> u32
        ensures { result ≡ length self.now.network.kept }
    {
        // the quota is counted by 32 bits
        checked_numbers();
        self.roster.kept().len() as u32
    }

    /// How many stations it knows.
    pub fn table_len(&self) -> usize
        ensures { result ≡ length (table_of self.now.network) }
    {
        self.roster.stations().len()
    }

    /// The station at a place of its table, from 0 and below [`Network::table_len`], in order of first authentication
    /// (IEEE Std 802.11-2016, 11.3.1).
    pub fn row(&self, place: usize) -> StationRow
        requires { place < length (table_of self.now.network) }
        ensures { slice_get (table_of self.now.network) place ≡ Some result }
    {
        let (addr, state) = self.roster.stations().row(place);
        row_of(addr, state, self.kept_for(addr))
    }

    /// How many units are kept for a station.
    fn kept_for(&self, addr: MacAddr) -> u32
        ensures { result ≡ length (units_for (whoms.One addr) self.now.network.kept) }
    {
        // the quota is counted by 32 bits
        checked_numbers();
        kept_counts();
        self.roster.kept().count_for(Whom::One(addr)) as u32
    }

    /// Takes an event, if it took fewer than 2^62 before, and hands out what it sends for it. `Clock` exactly if
    /// 4,294,967,295 beacon intervals began and one more begins; `NoMemory` if memory ran out. After either
    /// nothing has changed. A frame on the air has at most 2,328 octets, one on the wire at most 2,310. An air event that
    /// the network doesn't hear and a wired frame that can't be read count as unread (*profile*).
    pub fn take(&mut self, event: &Event) -> Result<Sent, NetworkRefusal>
        requires countable { self.old.events < 2 ^ 62 }
        ensures ok { IfOk result (λ sent. TakesEvent event.now self.old self.new sent) }
        ensures clock { (result ≡ Err NetworkRefusal.Clock) ↔ EndsClock event.now self.old }
        ensures err { OnErr result (self.new ≡ self.old) }
    {
        let event = ReceivedEvent::for_one(event.lend());
        self.take_received(&event, &mut Spare::new(self.alloc))
    }

    /// Takes an event as [`Network::take`] does. Its octets are lent. What is the same of it for each network may have
    /// been read before. The first of the frames that it sends is built in spare memory, if there
    /// is any; the frame of a poll takes memory of its own. The spare memory is gone after `NoMemory`, and stays after
    /// `Clock` (*profile*).
    #[inline(always)]
    pub fn take_received(
        &mut self,
        event: &ReceivedEvent<'_>,
        spare: &mut Spare,
    ) -> Result<Sent, NetworkRefusal>
        requires countable { self.old.events < 2 ^ 62 }
        ensures ok { IfOk result (λ sent. TakesEvent (event_received event.now) self.old self.new sent) }
        ensures clock { (result ≡ Err NetworkRefusal.Clock) ↔ EndsClock (event_received event.now) self.old }
        ensures err { OnErr result (self.new ≡ self.old) }
    {
        let begins = matches!(event, ReceivedEvent::Tick);
        if begins && self.clock == u32::MAX {
            return Err(NetworkRefusal::Clock);
        }
        self.look_up_due(begins);
        self.frames_fit();
        let mut reply = self.no_reply();
        mem::swap(&mut reply.spare, spare);
        self.reply(&mut reply, event)?;
        self.finish(&mut reply)?;
        mem::swap(&mut reply.spare, spare);
        // No unit is left in it. With that gone, nothing else is dropped, and what is sent moves out once.
        drop(reply.keeping);
        Ok(Sent {
            air: reply.frames,
            wire: reply.wired,
        })
    }

    /// What holds of the network: whatever it takes next, each frame that it sends for it has at most so many octets.
    fn frames_fit(&self)
        ensures { (e : AnyEvent) → IsWithinSizes (step self.now.setting self.now.network e) }
    {
        frame_sizes();
        // The prover opens what the network keeps, of which each unit fits a frame, where a field is read.
        let _ = &self.roster;
        // its address has six octets
        let _ = self.setting.get().network.bssid.octets();
    }

    /// If units age, looks up before a beacon interval begins which stations may have a unit that is too old, so that
    /// the reply to it, and what carries it out, look at these stations alone.
    pub(crate) fn look_up_due(&mut self, begins: bool)
        ensures { self.new ≡ self.old }
    {
        if begins && self.setting.get().network.aging {
            self.roster.look_up_due(self.clock);
        }
    }

    /// Fills in what it does about an event, which can be carried out. It changes nothing.
    pub(crate) fn reply(&self, reply: &mut Reply, event: &ReceivedEvent<'_>) -> Result<(), NoMemory>
        requires nothing { reply.old ≡ no_reply self.now.network.sequence }
        requires sequence { reply.old.sequence < 4096 }
        requires ticks { event_received event.now ≡ events.Tick → self.now.network.clock < 4294967295 }
        ensures follows { OnOk result (MayFollow self.now (outcome reply.new)) }
        ensures step { OnOk result (step self.now.setting self.now.network (event_received event.now)
            ≡ after_outcome self.now.setting (outcome reply.new) self.now.network) }
        ensures alone { OnOk result (
            IfSome reply.new.served (λ from. reply.new ≡ serves from self.now.network.sequence)) }
    {
        // what it keeps to stays so
        stays_sound();
        // The prover opens what the network keeps, which bounds its counts, where a field is read.
        let _ = &self.roster;
        match event {
            ReceivedEvent::Air(frame) => self.answer(reply, frame),
            ReceivedEvent::Wire(frame) => self.answer_wired(reply, frame),
            ReceivedEvent::Tick => self.tick(reply),
        }
    }

    /// Does what a reply to an event says, or serves a poll, and leaves in the reply what is sent. After `NoMemory`
    /// nothing of the network has changed.
    #[inline(always)]
    pub(crate) fn finish(&mut self, reply: &mut Reply) -> Result<(), NoMemory>
        requires follows { MayFollow self.old (outcome reply.old) }
        requires countable { self.old.events < 2 ^ 62 }
        requires alone { IfSome reply.old.served (λ from. reply.old ≡ serves from self.old.network.sequence) }
        ensures after { OnOk result (self.new ≡ carried_out (outcome reply.old) self.old) }
        ensures air { OnOk result
            (reply.new.frames ≡ (reply_of self.old.setting (outcome reply.old) self.old.network).frames) }
        ensures wire { OnOk result
            (reply.new.wired ≡ (reply_of self.old.setting (outcome reply.old) self.old.network).wired) }
        ensures few { OnOk result
            ((room : ℕ) → 1 ≤ room → length reply.old.frames ≤ room → length reply.new.frames ≤ room) }
        ensures err { OnErr result (self.new ≡ self.old) }
    {
        match reply.served {
            None => self.carry_out(reply),
            Some(from) => self.serve_poll(&mut reply.frames, from),
        }
    }

    /// Serves the poll of a station: sends the unit that was kept first for it, if there is one and nothing else is
    /// sent. After `NoMemory` nothing of the network has changed.
    fn serve_poll(&mut self, frames: &mut Frames, from: MacAddr) -> Result<(), NoMemory>
        requires none { frames.old ≡ [] }
        requires sound { IsSoundNetwork self.old.setting (self.old.events + 1) (2 * (self.old.events + 1))
            (carried_out (Served from) self.old).network }
        requires countable { self.old.events < 2 ^ 62 }
        ensures after { OnOk result (self.new ≡ carried_out (Served from) self.old) }
        ensures air { OnOk result
            (frames.new ≡ (reply_of self.old.setting (Served from) self.old.network).frames) }
        ensures few { OnOk result (length frames.new ≤ 1) }
        ensures err { OnErr result (self.new ≡ self.old) }
    {
        let bssid = self.setting.get().network.bssid;
        let sent = self.roster.send_oldest(from, bssid, self.sequence)?;
        self.events += 1;
        let Some(frame) = sent else {
            return Ok(());
        };
        self.sequence = (self.sequence + 1) % SEQUENCE_NUMBERS;
        *frames = Frames::one(self.alloc, frame);
        Ok(())
    }

    /// Does what a reply to an event says, and leaves in it what is sent. After `NoMemory` nothing of the network has
    /// changed.
    #[inline(always)]
    fn carry_out(&mut self, reply: &mut Reply) -> Result<(), NoMemory>
        requires follows { MayFollow self.old (Replied reply.old) }
        requires countable { self.old.events < 2 ^ 62 }
        ensures after { OnOk result (self.new ≡ carried_out (Replied reply.old) self.old) }
        ensures air { reply.new.frames ≡ reply.old.frames }
        ensures wire { reply.new.wired ≡ reply.old.wired }
        ensures err { OnErr result (self.new ≡ self.old) }
    {
        // the quota is counted by 32 bits
        checked_numbers();
        let ages = units_age(reply.clock, self.setting.get().network.aging);
        let aged = self
            .roster
            .carry_out_from(&reply.change, &mut reply.keeping, ages, self.clock)?;
        // All that may be refused is done.
        self.lost += u64::from(aged);
        self.events += 1;
        self.clock += reply.clock;
        self.sequence = reply.sequence;
        self.lost += u64::from(reply.lost);
        self.unread += u64::from(reply.unread);
        Ok(())
    }

    /// Its stations.
    pub(crate) fn stations(&self) -> &Stations
        ensures most { result.now.most ≡ self.now.setting.network.max_stations }
        ensures table { result.now.table ≡ self.now.network.stations }
    {
        self.roster.stations()
    }

    /// The units that it keeps.
    pub(crate) fn kept(&self) -> &Keep
        ensures entries { result.now.entries ≡ self.now.network.kept }
        ensures quota { result.now.quota ≡ self.now.setting.network.quota }
    {
        self.roster.kept()
    }

    /// The association identifiers of the stations that units are kept for (IEEE Std 802.11-2016, 9.4.2.6).
    pub(crate) fn traffic(&self) -> &Bitmap
        ensures { AreWaitedFor result.now self.now.network.stations self.now.network.kept }
    {
        self.roster.traffic()
    }

    /// The same once the units that are kept have aged (*profile*), in a network that lets them.
    pub(crate) fn traffic_after_aging(&self) -> Result<Bitmap, NoMemory>
        requires { self.now.setting.network.aging ≡ true }
        ensures { IfOk result (λ bits. AreWaitedFor bits self.now.network.stations
            (age_units self.now.setting self.now.network).kept) }
    {
        self.roster.traffic_after_aging(self.clock)
    }

    /// The sequence number of its next frame.
    pub(crate) fn sequence(&self) -> u16
        ensures sequence { result ≡ self.now.network.sequence }
        ensures bounded { result < 4096 }
    {
        self.sequence
    }

    /// Where its memory comes from.
    pub(crate) fn alloc(&self) -> Global {
        self.alloc
    }

    /// Its configuration, if nothing else is asked for any more.
    pub(crate) fn into_setting(self) -> Setting
        ensures { result ≡ self.setting }
    {
        self.setting.into_inner()
    }
}

/// Whether units age in a network that lets them, or doesn't, as `begin` beacon intervals begin: if one does.
fn units_age(begin: u32, aging: bool) -> bool
    ensures { result ≡ (nat_lt 0 begin && aging) }
{
    begin > 0 && aging
}
