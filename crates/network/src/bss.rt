//! A network alone, as it runs.

ghost use Rattle.std.specs.Prelude.{◌≡◌, Err, ◌+◌, ◌++◌, ◌∷◌, [], ◌↔◌, ◌<◌, ◌≤◌, true, false, None, Some, slice_get};
ghost use Rattle.std.specs.Prelude.{IsTrue, IfOk, OnOk, OnErr, IfNone, vec_len, vec_capacity, length, is_some};
ghost use Rattle.std.specs.Prelude.{option_to_list, if◌then◌else◌};
ghost use Rattle.ap_config.specs.Configuration.{setting_fault, network_fault};
ghost use Rattle.network.specs.Network.{table_of, counts_of};
ghost use Rattle.network.specs.BssView.{BssView, network_of, sent_by, wired_by, opened, section_with};
ghost use Rattle.network.specs.declared.bss.Refusal.TheVariants as refusals;

use crate::laws::reachable;
use crate::network::Network;
use crate::received_event::ReceivedEvent;
use ap_config::{NetConfig, Setting, checked_numbers};
use events::{Counts, Event, Section, StationRow};
use mac_frame::{List, NoMemory, Octets};
use std::alloc::{AllocError, Global};
use std::collections::VecDeque;
use std::marker::Model;

/// Why a network refused an event. Nothing of it has changed then, and the event is dropped.
#[derive(Clone, Copy, Debug, PartialEq, Eq)]
pub enum Refusal {
    /// N1: memory ran out.
    NoMemory,
    /// N2: it has taken as many events as it may.
    HistoryFull,
}

impl From<NoMemory> for Refusal {
    ghost from_gives = { λ _ refusal. refusal ≡ refusals.NoMemory };

    fn from(_e: NoMemory) -> Refusal {
        Refusal::NoMemory
    }
}

impl From<AllocError> for Refusal {
    ghost from_gives = { λ _ refusal. refusal ≡ refusals.NoMemory };

    fn from(_e: AllocError) -> Refusal {
        Refusal::NoMemory
    }
}

/// A network that takes events, and answers them by frames that wait until they are taken out.
///
/// Contracts see its configuration with the radio's channel and interval, its history, the frames that wait, and
/// whether there is a slot for one of them to be given back. Its table, its counts and its wired frames are those
/// that the definition `alone` gives of its configuration and its history. The frames that wait are what
/// [`Bss::take`] appended, which is what each event adds to the frames of `alone`, less what [`Bss::take_front`]
/// took, with what [`Bss::give_back`] put before them. That call takes any octets, so the type alone doesn't tie
/// the waiting frames to `alone`; a caller who gives back only what it took out has that tie.
#[derive(Drop)]
pub struct Bss {
    history: Vec<Event>,
    network: Network,
    waiting: VecDeque<Octets>,
    wired: Vec<Octets>,
    has_slot: bool,
}

impl Model for Bss {
    ghost use Rattle.std.specs.Prelude.{◌<◌, IsTrue};
    ghost use Rattle.std.specs.VecDeque.{deque_len, deque_capacity};
    ghost use Rattle.network.specs.BssView.{BssView, IsAfterHistory};

    ghost Value = { BssView };

    ghost view = { λ b. record {
      setting = b.network.setting;
      history = b.history.items;
      waiting = b.waiting.items;
      has_slot = b.has_slot;
    } };

    ghost invariant = { λ b.
        IsAfterHistory b.history.items b.network b.wired.items
        × (IsTrue b.has_slot → deque_len b.waiting < deque_capacity b.waiting) };
}

impl Bss {
    /// A network that has taken no event. The channel, the interval in time units and the configuration are those
    /// of a [`crate::RadioConfig`] in which `check` finds no fault. It takes no memory today.
    pub fn new(
        alloc: Global,
        channel: u8,
        interval: u16,
        config: NetConfig,
    ) -> Result<Bss, NoMemory>
        requires setting { setting_fault channel interval ≡ None }
        requires network { network_fault config ≡ None }
        ensures { IfOk result (λ bss. bss ≡ opened channel interval config) }
    {
        let setting = Setting {
            channel,
            interval,
            network: config,
        };
        Ok(Bss {
            history: Vec::new(alloc),
            network: Network::new(alloc, setting),
            waiting: VecDeque::new(alloc),
            wired: Vec::new(alloc),
            has_slot: false,
        })
    }

    /// Its configuration.
    pub fn config(&self) -> &NetConfig
        ensures { result.now ≡ self.now.setting.network }
    {
        &self.network.setting().network
    }

    /// The events that it took, the first of them first; at most `max_events`.
    pub fn history(&self) -> &[Event]
        ensures events { result.now ≡ self.now.history }
        ensures bounded { length self.now.history ≤ self.now.setting.network.max_events }
    {
        self.history.as_slice()
    }

    /// How many stations it knows.
    pub fn table_len(&self) -> usize
        ensures { result ≡ length (table_of (network_of self.now)) }
    {
        self.network.table_len()
    }

    /// The station at a place of its table, from 0 and below [`Bss::table_len`], in order of first authentication
    /// (IEEE Std 802.11-2016, 11.3.1).
    pub fn row(&self, place: usize) -> StationRow
        requires { place < length (table_of (network_of self.now)) }
        ensures { slice_get (table_of (network_of self.now)) place ≡ Some result }
    {
        self.network.row(place)
    }

    /// Its counts.
    pub fn counts(&self) -> Counts
        ensures { result ≡ counts_of (length self.now.history) (network_of self.now) }
    {
        // a history is as long as 32 bits can count
        checked_numbers();
        // and counts no more than its events
        reachable();
        Counts {
            events: self.history.len() as u32,
            clock: self.network.clock(),
            unread: self.network.unread() as u32,
            lost: self.network.lost() as u32,
            kept: self.network.kept_len(),
        }
    }

    /// How many frames wait.
    pub fn waiting_len(&self) -> usize
        ensures { result ≡ length self.now.waiting }
    {
        self.waiting.len()
    }

    /// The frames that it sent on the wire, the first of them first.
    pub fn wired(&self) -> &[Octets]
        ensures { result.now ≡ (network_of self.now).wire }
    {
        self.wired.as_slice()
    }

    /// Whether a frame may be given back.
    pub fn has_slot(&self) -> bool
        ensures { result ≡ self.now.has_slot }
    {
        self.has_slot
    }

    /// Takes out the first frame that waits, and leaves a slot to give it back. `None`, and no change, if none
    /// waits.
    pub fn take_front(&mut self) -> Option<Octets>
        ensures first { self.old.waiting ≡ option_to_list result ++ self.new.waiting }
        ensures slot { self.new.has_slot ≡ (if is_some result then true else self.old.has_slot) }
        ensures none { IfNone result (self.old.waiting ≡ []) }
        ensures setting { self.new.setting ≡ self.old.setting }
        ensures history { self.new.history ≡ self.old.history }
    {
        let first = self.waiting.pop_front();
        if first.is_some() {
            self.has_slot = true;
        }
        first
    }

    /// Puts a frame before those that wait, in the slot that [`Bss::take_front`] left. Takes no memory.
    pub fn give_back(&mut self, octets: Octets)
        requires { IsTrue self.old.has_slot }
        ensures { self.new ≡ record self.old { waiting = octets ∷ self.old.waiting; has_slot = false } }
    {
        self.waiting.push_front_reserved(octets);
        self.has_slot = false;
    }

    /// Takes an event, and answers its number in the history, from 0. Frames that it sends wait after the others.
    /// `HistoryFull` exactly if the history is full, which is tested first; `NoMemory` if memory ran out.
    /// After either nothing has changed. An air event that the network doesn't hear and a wired frame
    /// that can't be read count as unread (*profile*).
    pub fn take(&mut self, event: Event) -> Result<u32, Refusal>
        ensures number { IfOk result (λ number. number ≡ length self.old.history) }
        ensures history { OnOk result (self.new.history ≡ self.old.history ++ event ∷ []) }
        ensures waiting { OnOk result
            (self.new.waiting ≡ self.old.waiting ++ sent_by self.old.setting self.old.history event) }
        ensures air { OnOk result
            ((network_of self.new).air ≡ (network_of self.old).air ++ sent_by self.old.setting self.old.history event) }
        ensures wire { OnOk result ((network_of self.new).wire
            ≡ (network_of self.old).wire ++ wired_by self.old.setting self.old.history event) }
        ensures bounded { length self.new.history ≤ self.new.setting.network.max_events }
        ensures setting { self.new.setting ≡ self.old.setting }
        ensures full { (result ≡ Err Refusal.HistoryFull)
            ↔ (length self.old.history ≡ self.old.setting.network.max_events) }
        ensures err { OnErr result (self.new ≡ self.old) }
    {
        // a history is as long as 32 bits can count
        checked_numbers();
        // and its clock counts no more than its events
        reachable();
        if self.history.len() >= self.config().max_events as usize {
            return Err(Refusal::HistoryFull);
        }
        self.network.look_up_due(matches!(event, Event::Tick));
        let mut reply = self.network.no_reply();
        self.network
            .reply(&mut reply, &ReceivedEvent::for_one(event.lend()))?;
        self.history.reserve(1)?;
        reply.frames.reserve_in(&mut self.waiting)?;
        self.wired.reserve(1)?;
        self.network.finish(&mut reply)?;
        // All that may be refused is done.
        let number = self.history.len() as u32;
        self.history.push_reserved(event);
        reply.frames.append_to(&mut self.waiting);
        put_last(&mut self.wired, reply.wired);
        self.has_slot = false;
        Ok(number)
    }

    /// A row for each station, in their order. `NoMemory` if memory ran out.
    fn rows(&self) -> Result<Vec<StationRow>, NoMemory>
        ensures { IfOk result (λ rows. rows.items ≡ table_of (network_of self.now)) }
    {
        let mut rows = Vec::with_capacity(self.network.alloc(), self.table_len())?;
        for place in 0..self.table_len() {
            rows.push_reserved(self.row(place));
        }
        Ok(rows)
    }

    /// The section of all that it took, with `air` as the frames that left it. `NoMemory` if memory
    /// ran out.
    pub fn into_section(self, air: List<Octets>) -> Result<Section, NoMemory>
        ensures { IfOk result (λ section. section ≡ section_with air self) }
    {
        let counts = self.counts();
        let table = List::from_vec(self.rows()?);
        Ok(Section {
            config: self.network.into_setting().network,
            events: List::from_vec(self.history),
            table,
            counts,
            air,
            wire: List::from_vec(self.wired),
        })
    }
}

/// Puts a frame, if there is one, after those on the wire, for which there is room.
fn put_last(wired: &mut Vec<Octets>, frame: Option<Octets>)
    requires { vec_len wired.old < vec_capacity wired.old }
    ensures { wired.new.items ≡ wired.old.items ++ option_to_list frame }
{
    if let Some(frame) = frame {
        wired.push_reserved(frame);
    }
}
