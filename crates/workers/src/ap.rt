//! An access point whose networks run at the same time (*profile*).

ghost use Rattle.std.specs.Prelude.{◌≡◌, ◌≢◌, ◌+◌, ◌<◌, ◌≤◌, ◌++◌, ◌∷◌, [], length, map, IfOk, IfSome, OnOk, OnErr, MatchBool};
ghost use Rattle.std.specs.Prelude.{vec_len, vec_capacity};
ghost use Rattle.std.specs.Fn.{FnOnceTakesAt, FnOnceReturnsAt};
ghost use Rattle.network.specs.BssView.{BssView};
ghost use Rattle.events.specs.LentEvents.{line_of};
ghost use Rattle.events.specs.Lines.{event_of_line};
ghost use Rattle.events.specs.declared.event.Event.{Event};
ghost use Rattle.events.specs.declared.line.Line.{Line};
ghost use Rattle.events.specs.declared.line.Line.TheVariants as line;
ghost use Rattle.events.specs.declared.air_item.AirItem.{AirItem};
ghost use Rattle.workers.specs.Copies.{copies_at, AreCopies, IsOffered};
ghost use Rattle.workers.specs.Giving.{AreHeard, AddsEntries, entry_of};
ghost use Rattle.workers.specs.Seats.{IsNetworkOf};

use crate::caller::{Caller, Entry};
use crate::copies::Copies;
use crate::name::ApName;
use crate::outcome::Outcome;
use crate::seat::Seat;
use crate::transmitter::Transmitter;
use crate::waiting::Waiting;
use air_queue::AirQueue;
use ap_config::MAX_NETWORKS;
use events::{Event, LentLine};
use mac_frame::{MacAddr, NoMemory};
use network::Bss;
use std::alloc::Global;
use std::hint;
use std::marker::Model;
use std::sync::{Mutex, MutexGuard, Wait};

/// The access point N: its networks, each under a lock of its own, and the air queue in which their frames meet
/// (*profile*). Threads share it by reference. Contracts see its configuration; what stands under a lock another
/// thread may change at any moment, so of it they say what its type keeps.
#[derive(Drop)]
pub struct Ap<N: ApName> {
    pub(crate) alloc: Global,
    pub(crate) bssids: Vec<MacAddr>,
    pub(crate) seats: Vec<Mutex<Seat<N>>>,
    pub(crate) queue: AirQueue,
    pub(crate) waiting: Waiting,
}

/// How often a thread tries to get a lock before it sleeps until it is let go.
const TRIES: u32 = 200;

impl<N: ApName> Model for Ap<N> {
    ghost use Rattle.std.specs.Prelude.{◌≡◌, vec_len, length, map};
    ghost use Rattle.ap_config.specs.declared.config.RadioConfig.{RadioConfig};

    ghost Value = { RadioConfig };

    ghost view = { λ _. N.config };

    ghost invariant = { λ a.
        (a.bssids.items ≡ map (λ n. n.bssid) N.config.networks)
        × (vec_len a.seats ≡ length N.config.networks)
        × (a.queue.name ≡ N.queue) };
}

impl<N: ApName> Ap<N> {
    /// How many networks it has. Their places are 0 and the numbers below this one. It takes no memory.
    pub fn networks(&self) -> usize
        ensures { result ≡ length N.config.networks }
    {
        self.seats.len()
    }

    /// Gives a string of octets that was heard on the air to each network that hears it, in order of place, and
    /// answers what each made of it (*profile*). For each that took or refused it the caller has an entry more. A
    /// refusal of one network does not keep the others from it. `NoMemory` if memory ran out, before any
    /// network was touched; then the caller is as it was. It may wait for other threads.
    pub fn air<R: Wait>(
        &self,
        rt: &R,
        caller: &mut Caller,
        frame: &[u8],
    ) -> Result<[Outcome; MAX_NETWORKS], NoMemory>
        ensures count { IfOk result (λ outcomes. length outcomes ≡ MAX_NETWORKS) }
        ensures heard { IfOk result (AreHeard N.config (line.Air frame.now)) }
        ensures entries { IfOk result (AddsEntries (Event.Air frame.now) caller.old caller.new) }
        ensures err { OnErr result (caller.new ≡ caller.old) }
    {
        self.give(rt, caller, LentLine::Air(frame))
    }

    /// Gives a frame that came over the wire to the network at a place, and answers as [`Ap::air`] does (*profile*).
    /// If there is no network at that place, nobody hears it.
    pub fn wire<R: Wait>(
        &self,
        rt: &R,
        caller: &mut Caller,
        place: usize,
        octets: &[u8],
    ) -> Result<[Outcome; MAX_NETWORKS], NoMemory>
        ensures count { IfOk result (λ outcomes. length outcomes ≡ MAX_NETWORKS) }
        ensures heard { IfOk result (AreHeard N.config (line.Wire place octets.now)) }
        ensures entries { IfOk result (AddsEntries (Event.Wire octets.now) caller.old caller.new) }
        ensures err { OnErr result (caller.new ≡ caller.old) }
    {
        self.give(rt, caller, LentLine::Wire { place, octets })
    }

    /// Tells each network that a beacon interval began, and answers as [`Ap::air`] does (*profile*).
    pub fn tick<R: Wait>(
        &self,
        rt: &R,
        caller: &mut Caller,
    ) -> Result<[Outcome; MAX_NETWORKS], NoMemory>
        ensures count { IfOk result (λ outcomes. length outcomes ≡ MAX_NETWORKS) }
        ensures heard { IfOk result (AreHeard N.config line.Tick) }
        ensures entries { IfOk result (AddsEntries Event.Tick caller.old caller.new) }
        ensures err { OnErr result (caller.new ≡ caller.old) }
    {
        self.give(rt, caller, LentLine::Tick)
    }

    /// Gives a line to each network that hears it.
    fn give<R: Wait>(
        &self,
        rt: &R,
        caller: &mut Caller,
        given: LentLine<'_>,
    ) -> Result<[Outcome; MAX_NETWORKS], NoMemory>
        ensures count { IfOk result (λ outcomes. length outcomes ≡ MAX_NETWORKS) }
        ensures heard { IfOk result (AreHeard N.config (line_of given.entry)) }
        ensures entries { IfOk result (AddsEntries (event_of_line (line_of given.entry)) caller.old caller.new) }
        ensures err { OnErr result (caller.new ≡ caller.old) }
    {
        let copies = self.copies(given)?;
        caller.entries.reserve(MAX_NETWORKS)?;
        Ok(self.offer_each(rt, &mut caller.entries, copies))
    }

    /// For each place, copies of the event if the network there hears the line.
    fn copies(&self, given: LentLine<'_>) -> Result<Vec<Option<Copies>>, NoMemory>
        ensures { IfOk result (λ copies. AreCopies N.config (line_of given.entry) copies.items) }
    {
        let mut copies = Vec::with_capacity(self.alloc, MAX_NETWORKS)?;
        for place in 0..MAX_NETWORKS {
            copies.push_reserved(self.copies_at(place, given)?);
        }
        Ok(copies)
    }

    /// Copies of the event if the network at this place hears the line.
    fn copies_at(&self, place: usize, given: LentLine<'_>) -> Result<Option<Copies>, NoMemory>
        ensures { IfOk result (λ copies. copies ≡ copies_at N.config (line_of given.entry) place) }
    {
        if place >= self.bssids.len() {
            return Ok(None);
        }
        let Some(event) = given.event_for(place, self.bssids[place]) else {
            return Ok(None);
        };
        Ok(Some(Copies::of(self.alloc, event)?))
    }

    /// Offers the event to the network at each place that has copies of it, and keeps the entries, for which there is
    /// room.
    fn offer_each<R: Wait>(
        &self,
        rt: &R,
        entries: &mut Vec<Entry>,
        mut copies: Vec<Option<Copies>>,
    ) -> [Outcome; MAX_NETWORKS]
        requires count { vec_len copies ≡ MAX_NETWORKS }
        requires copies { (told : Line) × AreCopies N.config told copies.items }
        requires room { vec_len entries.old + MAX_NETWORKS ≤ vec_capacity entries.old }
        ensures count { length result ≡ MAX_NETWORKS }
        ensures heard { (told : Line) → AreCopies N.config told copies.items → AreHeard N.config told result }
        ensures entries { (told : Line) → AreCopies N.config told copies.items →
            AddsEntries (event_of_line told) entries.old.items entries.new.items result }
    {
        let mut outcomes = [Outcome::NotHeard; MAX_NETWORKS];
        for place in 0..MAX_NETWORKS {
            let copies = copies[place].take();
            outcomes[place] = self.offer(rt, entries, place, copies);
        }
        outcomes
    }

    /// Offers the event to the network at a place, if there are copies for it, and keeps the entry, for which there is room.
    fn offer<R: Wait>(
        &self,
        rt: &R,
        entries: &mut Vec<Entry>,
        place: usize,
        copies: Option<Copies>,
    ) -> Outcome
        requires place { IfSome copies (λ _. place < length N.config.networks) }
        requires room { vec_len entries.old < vec_capacity entries.old }
        ensures heard { IsOffered copies result }
        ensures entries { (event : Event) → IfSome copies (λ pair. pair.kept ≡ event)
            → entries.new.items ≡ entries.old.items ++ entry_of event place result }
        ensures len { vec_len entries.new ≤ vec_len entries.old + 1 }
        ensures capacity { vec_capacity entries.new ≡ vec_capacity entries.old }
    {
        let Some(Copies { offered, kept }) = copies else {
            return Outcome::NotHeard;
        };
        let outcome = self.take(rt, place, offered);
        if let Some(entry) = Entry::of(place, outcome, kept) {
            entries.push_reserved(entry);
        }
        outcome
    }

    /// Offers the event to the network at a place.
    fn take<R: Wait>(&self, rt: &R, place: usize, event: Event) -> Outcome
        requires { place < length N.config.networks }
        ensures { result ≢ Outcome.NotHeard }
    {
        self.sit(rt, place).take(event, &self.waiting)
    }

    /// Hands frames of the network at a place to the air queue, the first that waits first, until none waits or the
    /// queue is full, and answers how many went there (*profile*). It takes no memory. It may wait for other threads.
    pub fn pump<R: Wait>(&self, rt: &R, place: usize) -> u32
        requires { place < length N.config.networks }
    {
        if !self.waiting.may_wait(place) {
            return 0;
        }
        self.sit(rt, place).hand_all(rt, &self.queue, &self.waiting)
    }

    /// The network at a place, under its lock. Who holds it does so for one event, so it is tried some times before a
    /// thread sleeps.
    fn sit<R: Wait>(&self, rt: &R, place: usize) -> MutexGuard<'_, Seat<N>>
        requires { place < length N.config.networks }
    {
        let seat = &self.seats[place];
        for _ in 0..TRIES {
            if let Some(guard) = seat.try_lock() {
                return guard;
            }
            hint::spin_loop();
        }
        seat.lock(rt)
    }

    /// Lets the first frame of the air queue leave, after room was made for it: it is the last that left then.
    /// `false`, and no change, only if the queue was empty at one moment of the call, which tests show;
    /// `NoMemory`, and no change, if memory ran out (*profile*). It may wait for other threads.
    pub fn leave<R: Wait>(&self, rt: &R, transmitter: &mut Transmitter<N>) -> Result<bool, NoMemory>
        ensures left { IfOk result (λ left. MatchBool left
            ((item : AirItem) × (item.place < length N.config.networks)
            × (transmitter.new ≡ transmitter.old ++ item ∷ []))
            (transmitter.new ≡ transmitter.old)) }
        ensures err { OnErr result (transmitter.new ≡ transmitter.old) }
    {
        transmitter.pass.reserve(1)?;
        Ok(self.queue.pop(rt, &mut transmitter.pass))
    }

    /// What `f` answers of the network at a place, which it is shown under that network's lock alone. It may be
    /// called on every network of the configuration, and was called on one of them (*profile*). It may wait for other
    /// threads.
    pub fn inspect<R: Wait, T, F: FnOnce(&Bss) -> T>(&self, rt: &R, place: usize, f: F) -> T
        requires place { place < length N.config.networks }
        requires callable { (network : BssView) → IsNetworkOf N.config network → FnOnceTakesAt F.FnOnce f network }
        ensures { (network : BssView) × IsNetworkOf N.config network × FnOnceReturnsAt F.FnOnce f network result }
    {
        self.seats[place].lock(rt).show(f)
    }
}
