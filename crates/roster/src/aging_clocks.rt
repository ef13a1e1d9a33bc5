//! Up to which clock no unit for a station is too old (*profile*), so that a beacon looks up those stations alone that
//! may have one.
//!
//! A clock stands at each association identifier that units wait for. A unit that comes sets it, and the beacon that
//! finds it due looks its station up and sets it anew. Up to the soonest of the clocks no beacon looks at any.

ghost use Rattle.std.specs.Prelude.{◌≡◌, ◌≢◌, ◌<◌, ◌/◌, ◌&&◌, ◌++◌, ◌∷◌, [], ℕ, List, true, false, IsTrue, IfOk, OnOk, IfSome};
ghost use Rattle.std.specs.Prelude.{filter, leb, length, nat_lt, slice_get, Some};
ghost use Rattle.std.specs.FinSet as set;
ghost use Rattle.aid_pool.specs.LeastFree.{is_among};
ghost use Rattle.powersave.specs.Keep.{Entry, units_for, first_clock, AreOldest, AreToldOnce};
ghost use Rattle.powersave.specs.declared.unit.Whom.TheVariants.{One};
ghost use Rattle.tim.specs.Tim.{IsAid, is_shown};
ghost use Rattle.roster.specs.AgingClocks.{HasClock, HaveClocks, IsEntered, IsNoted, IsListed, StayAt, listing, is_due, due_at};
ghost use Rattle.roster.specs.AgingClocks.{IsNoSooner, AreNoSooner, IsSetAt};
ghost use Rattle.roster.specs.Keeping.{aid_for};
ghost use Rattle.roster.specs.Roster.{AreWaitedFor};
ghost use Rattle.stations.specs.Sound.{AreSound};
ghost use Rattle.roster.specs.KeptUnits.{CameBy};
ghost use Rattle.stations.specs.Stations.{state_of, listen_with};

use mac_frame::{MAX_AID, MacAddr, NoMemory};
use powersave::{Keep, Oldest, Whom};
use station_state::StationState;
use stations::{Stations, identifiers_differ, listen_with};
use std::alloc::Global;
use tim::Bitmap;

/// How many clocks there is room for at first.
const FIRST_CLOCKS: usize = 64;

/// How many clocks there are at most: one for each association identifier up to the last, and none at 0.
const MOST_CLOCKS: usize = MAX_AID as usize + 1;

/// A station that units are kept for.
#[derive(Clone, Copy, Debug)]
pub(crate) struct AgingClock {
    pub(crate) addr: MacAddr,
    /// The place of its association identifier among those that are listed.
    pub(crate) place: u16,
    /// None of its units came before this clock.
    pub(crate) at: u32,
    /// Its listen interval in beacon intervals, or less.
    pub(crate) listen: u16,
}

/// The clocks of the stations that units are kept for, by association identifier.
#[derive(Drop)]
pub(crate) struct AgingClocks {
    alloc: Global,
    clocks: Vec<AgingClock>,
    // the identifiers of those that units are kept for, and of some that none is kept for any more
    aids: Vec<u16>,
    // whether each that units are kept for has a clock
    complete: bool,
    // up to this clock none of those that are listed is due, where they are complete
    soonest: u32,
}

impl AgingClocks {
    /// No clock, and none that is told to be complete. It takes no memory.
    pub(crate) fn new(alloc: Global) -> AgingClocks
        ensures { result.complete ≡ false }
    {
        AgingClocks {
            alloc,
            clocks: Vec::new(alloc),
            aids: Vec::new(alloc),
            complete: false,
            soonest: 0,
        }
    }

    /// Whether each that units are kept for has a clock.
    pub(crate) fn are_complete(&self) -> bool
        ensures { result ≡ self.now.complete }
    {
        self.complete
    }

    /// One that units are kept for may have no clock any more.
    pub(crate) fn lose_one(&mut self)
        ensures { self.new.complete ≡ false }
    {
        self.complete = false;
    }

    /// Whether, by the soonest clock, none is due at this one.
    pub(crate) fn none_is_due(&self, clock: u32) -> bool
        ensures { result ≡ (self.now.complete && leb clock self.now.soonest) }
    {
        self.complete && clock <= self.soonest
    }

    /// Whether so few units are kept that most of the list can be of stations that none is kept for.
    pub(crate) fn are_mostly_gone(&self, units: usize) -> bool
        ensures { result ≡ nat_lt units (length self.now.aids.items / 8) }
    {
        units < self.aids.len() / 8
    }

    /// Sets the clock of whom a unit comes for at a clock, whose bit in the traffic isn't set for it yet.
    pub(crate) fn arrive(
        &mut self,
        stations: &Stations,
        traffic: &Bitmap,
        whom: &Whom,
        aid: Option<u16>,
        at: u32,
    )
        requires { IfSome aid IsAid }
        ensures clocks { (most : ℕ) (kept : List Entry) → AreSound most stations.now.table
            → aid ≡ aid_for whom.now stations.now.table
            → AreWaitedFor traffic.now stations.now.table kept
            → (self.old.complete ≡ true
            → HaveClocks self.old.clocks.items self.old.aids.items stations.now.table kept)
            → self.new.complete ≡ true
            → HaveClocks self.new.clocks.items self.new.aids.items stations.now.table kept
            × HasClock self.new.clocks.items self.new.aids.items stations.now.table whom.now at }
        ensures soonest { (self.old.complete ≡ true
            → AreNoSooner self.old.soonest self.old.clocks.items self.old.aids.items)
            → self.new.complete ≡ true
            → AreNoSooner self.new.soonest self.new.clocks.items self.new.aids.items }
    {
        // no other station has the identifier
        identifiers_differ();
        if !self.complete {
            return;
        }
        match (whom, aid) {
            (Whom::Group, _) => {}
            (Whom::One(addr), Some(aid)) => {
                self.complete = if traffic.has(aid) {
                    self.note(aid, at)
                } else {
                    self.enter(aid, *addr, at, listen_with(stations.state_of(*addr)))
                };
            }
            (Whom::One(_), None) => self.complete = false,
        }
    }

    /// Lists those for whom units are kept anew, each with its clock. Where one isn't associated, or there is no room,
    /// they aren't complete.
    pub(crate) fn list(&mut self, stations: &Stations, oldest: &[Oldest])
        ensures clocks { (most clock : ℕ) (kept : List Entry) → AreSound most stations.now.table
            → AreOldest oldest.now kept → AreToldOnce oldest.now → CameBy clock kept
            → self.new.complete ≡ true
            → HaveClocks self.new.clocks.items self.new.aids.items stations.now.table kept }
        ensures soonest { self.new.complete ≡ true
            → AreNoSooner self.new.soonest self.new.clocks.items self.new.aids.items }
    {
        self.aids.clear();
        self.complete = false;
        self.soonest = u32::MAX;
        for one in oldest {
            if !self.list_one(stations, one) {
                return;
            }
        }
        self.complete = true;
    }

    /// Gives one its clock, and answers whether it has one now.
    fn list_one(&mut self, stations: &Stations, one: &Oldest) -> bool
        ensures complete { self.new.complete ≡ self.old.complete }
        ensures listed { IsTrue result → IsListed stations.now.table one.now
            (listing self.old.clocks.items self.old.aids.items)
            (listing self.new.clocks.items self.new.aids.items) }
        ensures soonest { AreNoSooner self.old.soonest self.old.clocks.items self.old.aids.items → IsTrue result
            → AreNoSooner self.new.soonest self.new.clocks.items self.new.aids.items }
    {
        // no other station has the identifier
        identifiers_differ();
        let Whom::One(addr) = one.whom else {
            return true;
        };
        let Some(StationState::Associated { aid, listen, .. }) = stations.state_of(addr) else {
            return false;
        };
        self.make_room(aid);
        self.enter(aid, addr, one.at, listen)
    }

    /// Makes room for the clock of an identifier, and of as many above it as there may be, if there is memory. The clocks
    /// stay.
    fn make_room(&mut self, aid: u16)
        ensures complete { self.new.complete ≡ self.old.complete }
        ensures aids { self.new.aids.items ≡ self.old.aids.items }
        ensures soonest { self.new.soonest ≡ self.old.soonest }
        ensures clocks { StayAt self.old.clocks.items self.new.clocks.items }
    {
        let room = usize::from(aid) + 1;
        let len = self.clocks.len();
        if room <= len {
            return;
        }
        let more = FIRST_CLOCKS
            .max(2 * room)
            .min(MOST_CLOCKS)
            .saturating_sub(len);
        if self.clocks.reserve_exact(more).is_err() {
            return;
        }
        let none = AgingClock {
            addr: MacAddr::BROADCAST,
            place: 0,
            at: 0,
            listen: 0,
        };
        let _ = self.clocks.resize(len + more, none);
    }

    /// Sets the clock of an identifier to this one, lists the identifier, and answers whether there was room.
    fn enter(&mut self, aid: u16, addr: MacAddr, at: u32, listen: u16) -> bool
        ensures complete { self.new.complete ≡ self.old.complete }
        ensures entered { IsTrue result → (place : ℕ) × IsEntered aid
            (record { addr = addr; place = place; at = at; listen = listen })
            (listing self.old.clocks.items self.old.aids.items)
            (listing self.new.clocks.items self.new.aids.items) }
        ensures soonest { AreNoSooner self.old.soonest self.old.clocks.items self.old.aids.items → IsTrue result
            → AreNoSooner self.new.soonest self.new.clocks.items self.new.aids.items }
    {
        let index = usize::from(aid);
        if index >= self.clocks.len() {
            return false;
        }
        let Some(place) = place_of(&mut self.aids, aid, self.clocks[index].place) else {
            return false;
        };
        let one = AgingClock {
            addr,
            place,
            at,
            listen,
        };
        self.soonest = self.soonest.min(one.young_until());
        self.clocks[index] = one;
        true
    }

    /// Notes that a unit came at a clock for the station of an identifier, which has some, and answers whether it has a
    /// clock.
    fn note(&mut self, aid: u16, at: u32) -> bool
        ensures aids { self.new.aids.items ≡ self.old.aids.items }
        ensures clocks { IsTrue result → IsNoted aid at self.old.clocks.items self.new.clocks.items }
        ensures soonest { AreNoSooner self.old.soonest self.old.clocks.items self.old.aids.items
            → AreNoSooner self.new.soonest self.new.clocks.items self.old.aids.items }
    {
        let index = usize::from(aid);
        if index >= self.clocks.len() {
            return false;
        }
        if at < self.clocks[index].at {
            self.clocks[index].at = at;
            self.soonest = self.soonest.min(at);
        }
        true
    }

    /// Takes those out of the list for whom no unit is kept, and looks up each for whom one may be too old at this
    /// clock.
    pub(crate) fn look_up_due(
        &mut self,
        stations: &Stations,
        kept: &Keep,
        traffic: &Bitmap,
        clock: u32,
    )
        ensures complete { self.new.complete ≡ self.old.complete }
        ensures clocks { (most last : ℕ) → AreSound most stations.now.table → CameBy last kept.now.entries
            → AreWaitedFor traffic.now stations.now.table kept.now.entries
            → HaveClocks self.old.clocks.items self.old.aids.items stations.now.table kept.now.entries
            → HaveClocks self.new.clocks.items self.new.aids.items stations.now.table kept.now.entries }
        ensures soonest { AreNoSooner self.old.soonest self.old.clocks.items self.old.aids.items
            → AreNoSooner self.new.soonest self.new.clocks.items self.new.aids.items }
    {
        // no other station has the identifier
        identifiers_differ();
        self.drop_gone(traffic);
        let mut soonest = u32::MAX;
        for place in 0..self.aids.len() {
            let young_until = self.look_up(stations, kept, place, clock);
            soonest = soonest.min(young_until);
        }
        self.soonest = soonest;
    }

    /// Takes those out of the list for whom no unit is kept.
    fn drop_gone(&mut self, traffic: &Bitmap)
        ensures complete { self.new.complete ≡ self.old.complete }
        ensures clocks { self.new.clocks.items ≡ self.old.clocks.items }
        ensures aids { self.new.aids.items ≡ filter (is_shown (set.contains traffic.now)) self.old.aids.items }
    {
        self.aids.retain(|aid| has_bit(traffic, *aid));
    }

    /// Looks up the one at a place of the list, where a unit for it may be too old at this clock. Answers up to which
    /// clock it isn't due then.
    fn look_up(&mut self, stations: &Stations, kept: &Keep, place: usize, clock: u32) -> u32
        requires { place < length self.old.aids.items }
        ensures complete { self.new.complete ≡ self.old.complete }
        ensures aids { self.new.aids.items ≡ self.old.aids.items }
        ensures clocks { (most last : ℕ) → AreSound most stations.now.table → CameBy last kept.now.entries
            → HaveClocks self.old.clocks.items self.old.aids.items stations.now.table kept.now.entries
            → HaveClocks self.new.clocks.items self.old.aids.items stations.now.table kept.now.entries }
        ensures set { (aid : ℕ) → slice_get self.old.aids.items place ≡ Some aid
            → IsSetAt aid result self.old.clocks.items self.new.clocks.items }
    {
        let index = usize::from(self.aids[place]);
        if index >= self.clocks.len() {
            return u32::MAX;
        }
        let mut one = self.clocks[index];
        one.place = place.min(usize::from(MAX_AID)) as u16;
        if one.is_due(clock) {
            one.look_up(stations, kept);
        }
        self.clocks[index] = one;
        one.young_until()
    }

    /// The stations of those that are listed for which a unit may be too old at this clock. `NoMemory` where memory ran
    /// out.
    pub(crate) fn due(&self, clock: u32) -> Result<Vec<Oldest>, NoMemory>
        requires { AreNoSooner self.now.soonest self.now.clocks.items self.now.aids.items }
        ensures { IfOk result (λ due. due.items ≡ due_at clock self.now.clocks.items self.now.aids.items) }
    {
        let mut due = Vec::new(self.alloc);
        if clock <= self.soonest {
            return Ok(due);
        }
        for aid in self.aids.as_slice() {
            if let Some(one) = self.clocks.get(usize::from(*aid)) {
                if one.is_due(clock) {
                    add_due(&mut due, one.addr, self.aids.len())?;
                }
            }
        }
        Ok(due)
    }
}

impl AgingClock {
    /// A clock up to which no unit for the station is too old.
    fn young_until(&self) -> u32
        ensures { IsNoSooner result self.now }
    {
        self.at.saturating_add(u32::from(self.listen))
    }

    /// Whether a unit for the station may be too old at this clock.
    fn is_due(&self, clock: u32) -> bool
        ensures { result ≡ is_due clock self.now }
    {
        u64::from(self.at) + u64::from(self.listen) < u64::from(clock)
    }

    /// Looks up when the oldest unit for the station came, and its listen interval. Where no unit is kept for it,
    /// nothing changes.
    fn look_up(&mut self, stations: &Stations, kept: &Keep)
        ensures addr { self.new.addr ≡ self.old.addr }
        ensures at { IfSome (first_clock (units_for (One self.old.addr) kept.now.entries)) (λ at. self.new.at ≡ at) }
        ensures listen { IfSome (first_clock (units_for (One self.old.addr) kept.now.entries))
            (λ at. self.new.listen ≡ listen_with (state_of self.old.addr stations.now.table)) }
    {
        if let Some(unit) = kept.nth(Whom::One(self.addr), 0) {
            self.at = unit.at;
            self.listen = listen_with(stations.state_of(self.addr));
        }
    }
}

/// Adds a station, whenever the units for it came, to a list that has room for so many from the first on.
fn add_due(due: &mut Vec<Oldest>, addr: MacAddr, room: usize) -> Result<(), NoMemory>
    ensures { OnOk result (due.new.items ≡ due.old.items ++ record { whom = One addr; at = 0 } ∷ []) }
{
    if due.is_empty() {
        due.reserve(room)?;
    }
    due.push(Oldest {
        whom: Whom::One(addr),
        at: 0,
    })?;
    Ok(())
}

/// Whether a set has an identifier.
fn has_bit(traffic: &Bitmap, aid: u16) -> bool
    ensures { result ≡ is_shown (set.contains traffic.now) aid }
{
    1 <= aid && aid <= MAX_AID && traffic.has(aid)
}

/// The place of an identifier in a list: this one, or else it goes last. `None` where there is no room.
fn place_of(aids: &mut Vec<u16>, aid: u16, place: u16) -> Option<u16>
    ensures { IfSome result (λ _. (is_among aids.new.items aid ≡ true)
        × ((n : ℕ) → is_among aids.old.items n ≡ true → is_among aids.new.items n ≡ true)
        × ((n : ℕ) → n ≢ aid → is_among aids.new.items n ≡ true → is_among aids.old.items n ≡ true)) }
{
    if let Some(listed) = aids.get(usize::from(place)) {
        if *listed == aid {
            return Some(place);
        }
    }
    if aids.len() > usize::from(MAX_AID) {
        return None;
    }
    let last = aids.len() as u16;
    if aids.push(aid).is_err() {
        return None;
    }
    Some(last)
}
