//! The stations of a network with the units that are kept for them (IEEE Std 802.11-2016, 11.2.3).

ghost use Rattle.std.specs.Prelude.{◌≡◌, ◌<◌, ◌≤◌, ◌+◌, ◌^◌, ◌++◌, ◌∷◌, ◌&&◌, ◌||◌, ℕ, List, [], not, None, Some};
ghost use Rattle.std.specs.Prelude.{false, IsTrue, IfSome, IfOk, IsOk, OnOk, OnErr, true, filter, length, nat_lt, option_map};
ghost use Rattle.std.specs.FinSet as set;
ghost use Rattle.powersave.specs.Keep.{Entry, units_for, without_all, without_oldest, room_beside, first_frame};
ghost use Rattle.powersave.specs.declared.unit.Whom.TheVariants as whoms;
ghost use Rattle.tim.specs.Tim.{IsAid};
ghost use Rattle.roster.specs.Keeping.{without, room_after, kept_after, entry_of, aid_for, IsWithin};
ghost use Rattle.roster.specs.Roster.{empty_roster, is_aged, is_number, renumbered, AreWaitedFor, Follows};
ghost use Rattle.stations.specs.Sound.{AreSound};
ghost use Rattle.roster.specs.KeptUnits.{CameBy};
ghost use Rattle.stations.specs.Stations.{with_table, changed, IsAllowed, IsModeAlone};

mod aging;
mod returning;

use crate::aging_clocks::AgingClocks;
use crate::keeping::{Arriving, Keeping, Leaving};
use mac_frame::{MAX_AID, MacAddr, NoMemory, Octets};
use powersave::{Keep, Whom, parts_stay};
use stations::{
    Change, Stations, changes_stay_sound, identifiers_differ, modes_alone, others_stay,
};
use std::alloc::Global;
use std::marker::Model;
use std::mem;
use tim::Bitmap;

/// The stations of a network and the units that it keeps. It also has the association identifiers of the stations that
/// units are kept for, so that no beacon walks over the stations (11.2.3.3). It knows up to which clock none of these
/// units is too old. Contracts see the stations and the units.
#[derive(Drop)]
pub struct Roster {
    stations: Stations,
    kept: Keep,
    // the identifiers of the stations that units are kept for
    traffic: Bitmap,
    clocks: AgingClocks,
}

impl Model for Roster {
    ghost use Rattle.roster.specs.Roster.{RosterState, IsRoster};

    ghost Value = { RosterState };

    ghost view = { λ r. record { stations = r.stations; kept = r.kept } };

    ghost invariant = { λ r. IsRoster r.traffic r.clocks.complete r.clocks.clocks.items r.clocks.aids.items
        r.clocks.soonest (record { stations = r.stations; kept = r.kept }) };
}

impl Roster {
    /// No station is known and no unit is kept. At most `most` stations may be associated, 1 to 2007, and at most
    /// `quota` units are kept. It takes no memory.
    pub fn new(alloc: Global, most: u16, quota: u32) -> Roster
        requires some { 1 ≤ most }
        requires few { most ≤ MAX_AID }
        ensures { result ≡ empty_roster most quota }
    {
        Roster {
            stations: Stations::new(alloc, most),
            kept: Keep::new(alloc, quota),
            traffic: Bitmap::new(),
            clocks: AgingClocks::new(alloc),
        }
    }

    /// Its stations.
    pub fn stations(&self) -> &Stations
        ensures { result.now ≡ self.now.stations }
    {
        &self.stations
    }

    /// The units that are kept.
    pub fn kept(&self) -> &Keep
        ensures { result.now ≡ self.now.kept }
    {
        &self.kept
    }

    /// The association identifiers of the stations that units are kept for (9.4.2.6).
    pub fn traffic(&self) -> &Bitmap
        ensures { AreWaitedFor result.now self.now.stations.table self.now.kept.entries }
    {
        &self.traffic
    }

    /// Changes one station; the units stay. `NoMemory`, and no change, can come if an unknown one is authenticated.
    fn change(&mut self, change: Change) -> Result<(), NoMemory>
        requires { IsAllowed self.old.stations.most change self.old.stations.table }
        ensures ok { OnOk result (self.new ≡ record self.old {
          stations = with_table self.old.stations (changed change self.old.stations.table);
        }) }
        ensures err { OnErr result (self.new ≡ self.old) }
        ensures mode { IsModeAlone change → IsOk result }
    {
        // the other stations stay, and all stay sound
        others_stay();
        modes_alone();
        identifiers_differ();
        changes_stay_sound();
        let Some(addr) = renumbered(&change) else {
            return self.stations.change(change);
        };
        let waits = self.kept.count_for(Whom::One(addr)) > 0;
        if !waits {
            // nothing is kept for it, so no bit is its own
            return self.stations.change(change);
        }
        let before = self.stations.aid_of(addr);
        self.stations.change(change)?;
        let after = self.stations.aid_of(addr);
        self.clocks.lose_one();
        show(&mut self.traffic, before, after, waits);
        Ok(())
    }

    /// Does with its stations and units what a reply says: changes one station, takes out the units that leave, and
    /// keeps one. If units age, first those that are too old at this clock leave, and it answers how many these
    /// were. After `NoMemory` nothing has changed.
    pub fn carry_out(
        &mut self,
        change: Change,
        keeping: Keeping,
        ages: bool,
        clock: u32,
    ) -> Result<u32, NoMemory>
        requires allowed { IsAllowed self.old.stations.most change self.old.stations.table }
        requires still { ages ≡ true → (change ≡ Change.Nothing) × (keeping.arriving ≡ None) }
        requires within { IsWithin self.old.kept.quota change keeping.leaving self.old.stations.table
            self.old.kept.entries keeping.arriving }
        requires came { CameBy clock self.old.kept.entries }
        requires few { length self.old.kept.entries < 2 ^ 32 }
        requires countable { self.old.kept.puts < 2 ^ 62 }
        ensures count { IfOk result (λ dropped. dropped
            ≡ length (filter (is_aged ages clock self.old.stations.table) self.old.kept.entries)) }
        ensures entries { OnOk result (self.new.kept.entries ≡ kept_after keeping
            (filter (λ entry. not (is_aged ages clock self.old.stations.table entry)) self.old.kept.entries)) }
        ensures stations { OnOk result
            (self.new.stations ≡ with_table self.old.stations (changed change self.old.stations.table)) }
        ensures quota { self.new.kept.quota ≡ self.old.kept.quota }
        ensures puts { self.new.kept.puts ≤ self.old.kept.puts + 1 }
        ensures err { OnErr result (self.new ≡ self.old) }
    {
        let Keeping { leaving, arriving } = keeping;
        let Some(arriving) = arriving else {
            if is_settled(&change, &leaving, ages) {
                return Ok(0);
            }
            let oldest = self.oldest_if(ages, clock)?;
            self.change(change)?;
            let dropped = self.age_if(ages, &oldest, clock);
            self.leave(&leaving);
            return Ok(dropped);
        };
        self.keep(change, &leaving, arriving)?;
        Ok(0)
    }

    /// Does what [`Roster::carry_out`] does, and answers and refuses as it does. What is said of the units is taken out
    /// of where it stands, also where memory is refused, unless nothing has to be done. No clause says what is left
    /// there: who is refused says anew what becomes of the units (*profile*).
    #[inline(always)]
    pub fn carry_out_from(
        &mut self,
        change: &Change,
        keeping: &mut Keeping,
        ages: bool,
        clock: u32,
    ) -> Result<u32, NoMemory>
        requires allowed { IsAllowed self.old.stations.most change.now self.old.stations.table }
        requires still { ages ≡ true → (change.now ≡ Change.Nothing) × (keeping.old.arriving ≡ None) }
        requires within { IsWithin self.old.kept.quota change.now keeping.old.leaving self.old.stations.table
            self.old.kept.entries keeping.old.arriving }
        requires came { CameBy clock self.old.kept.entries }
        requires few { length self.old.kept.entries < 2 ^ 32 }
        requires countable { self.old.kept.puts < 2 ^ 62 }
        ensures count { IfOk result (λ dropped. dropped
            ≡ length (filter (is_aged ages clock self.old.stations.table) self.old.kept.entries)) }
        ensures entries { OnOk result (self.new.kept.entries ≡ kept_after keeping.old
            (filter (λ entry. not (is_aged ages clock self.old.stations.table entry)) self.old.kept.entries)) }
        ensures stations { OnOk result
            (self.new.stations ≡ with_table self.old.stations (changed change.now self.old.stations.table)) }
        ensures quota { self.new.kept.quota ≡ self.old.kept.quota }
        ensures puts { self.new.kept.puts ≤ self.old.kept.puts + 1 }
        ensures err { OnErr result (self.new ≡ self.old) }
    {
        if keeping.arriving.is_none() && is_settled(change, &keeping.leaving, ages) {
            return Ok(0);
        }
        let taken = mem::replace(keeping, Keeping::nothing());
        self.carry_out(*change, taken, ages, clock)
    }

    /// Sets the mode of one station at most, takes out the units that leave, and keeps one. After `NoMemory` nothing
    /// has changed.
    fn keep(
        &mut self,
        change: Change,
        leaving: &Leaving,
        arriving: Arriving,
    ) -> Result<(), NoMemory>
        requires allowed { IsAllowed self.old.stations.most change self.old.stations.table }
        requires within { IsWithin self.old.kept.quota change leaving.now self.old.stations.table
            self.old.kept.entries (Some arriving) }
        requires countable { self.old.kept.puts < 2 ^ 62 }
        ensures ok { OnOk result (self.new ≡ record {
          stations = with_table self.old.stations (changed change self.old.stations.table);
          kept = record self.old.kept {
            entries = without leaving.now self.old.kept.entries ++ entry_of arriving ∷ [];
            reserved = None;
            puts = self.old.kept.puts + 1;
          };
        }) }
        ensures err { OnErr result (self.new ≡ self.old) }
    {
        // a mode is nothing to an identifier
        modes_alone();
        if matches!(leaving, Leaving::Nothing) {
            self.put(arriving)?;
            // A mode is set without memory.
            self.change(change).unwrap();
            return Ok(());
        }
        self.reserve(arriving.whom)?;
        // All that may be refused is done.
        self.change(change).unwrap();
        self.leave(leaving);
        self.put(arriving).unwrap();
        Ok(())
    }

    /// Makes room for a unit for one, so that it can be put without memory. After `NoMemory` nothing has changed.
    fn reserve(&mut self, whom: Whom) -> Result<(), NoMemory>
        ensures ok { OnOk result (self.new ≡ record self.old {
          kept = record self.old.kept { reserved = Some whom };
        }) }
        ensures err { OnErr result (self.new ≡ self.old) }
    {
        self.kept.reserve(whom)
    }

    /// Takes out the units that leave.
    fn leave(&mut self, leaving: &Leaving)
        ensures { self.new ≡ record self.old {
          kept = record self.old.kept {
            entries = without leaving.now self.old.kept.entries;
            reserved = room_after leaving.now self.old.kept.reserved;
          };
        } }
    {
        match leaving {
            Leaving::Nothing => {}
            Leaving::All(whom) => self.drop_for(whom),
        }
    }

    /// Takes out all units for one. If none was kept, no bit is its own, and its identifier isn't looked up.
    fn drop_for(&mut self, whom: &Whom)
        ensures { self.new ≡ record self.old {
          kept = record self.old.kept {
            entries = without_all whom.now self.old.kept.entries;
            reserved = room_beside whom.now self.old.kept.reserved;
          };
        } }
    {
        // the units for the others stay
        parts_stay();
        let before = self.kept.len();
        self.kept.drop_for(*whom);
        if self.kept.len() < before {
            follow(&mut self.traffic, &self.stations, whom, false);
        }
    }

    /// Takes out the unit that was kept first for a station, as the Data frame that carries it. The frame comes from
    /// the network `bss` with this sequence number. `None`, and no unit leaves, if none is kept for it. After
    /// `NoMemory` all is as it was.
    pub fn send_oldest(
        &mut self,
        addr: MacAddr,
        bss: MacAddr,
        seq: u16,
    ) -> Result<Option<Octets>, NoMemory>
        requires { seq < 4096 }
        ensures sent { IfOk result (λ sent. sent ≡ option_map (λ first. first.0)
            (first_frame bss seq (units_for (whoms.One addr) self.old.kept.entries))) }
        ensures stations { self.new.stations ≡ self.old.stations }
        ensures quota { self.new.kept.quota ≡ self.old.kept.quota }
        ensures puts { self.new.kept.puts ≡ self.old.kept.puts }
        ensures entries { OnOk result
            (self.new.kept.entries ≡ without_oldest (whoms.One addr) self.old.kept.entries) }
        ensures err { OnErr result (self.new ≡ self.old) }
    {
        // the units for the others stay
        parts_stay();
        let whom = Whom::One(addr);
        let sent = self.kept.send_oldest(whom, bss, seq)?;
        let Some((frame, waits)) = sent else {
            return Ok(None);
        };
        follow(&mut self.traffic, &self.stations, &whom, waits);
        Ok(Some(frame))
    }

    /// Keeps a unit, which comes with the association identifier of its station, so that none is looked up. After
    /// `NoMemory` nothing has changed.
    fn put(&mut self, arriving: Arriving) -> Result<(), NoMemory>
        requires not_full { length self.old.kept.entries < self.old.kept.quota }
        requires countable { self.old.kept.puts < 2 ^ 62 }
        requires aid { arriving.aid ≡ aid_for arriving.whom self.old.stations.table }
        ensures ok { OnOk result (self.new ≡ record self.old {
          kept = record self.old.kept {
            entries = self.old.kept.entries ++ entry_of arriving ∷ [];
            reserved = None;
            puts = self.old.kept.puts + 1;
          };
        }) }
        ensures err { OnErr result (self.new ≡ self.old) }
        ensures room { self.old.kept.reserved ≡ Some arriving.whom → IsOk result }
    {
        // the units for the others stay, and no other has its identifier
        parts_stay();
        others_stay();
        identifiers_differ();
        let Arriving { whom, aid, unit } = arriving;
        let at = unit.at;
        self.kept.put(whom, unit)?;
        self.clocks
            .arrive(&self.stations, &self.traffic, &whom, aid, at);
        set_bit(&mut self.traffic, aid);
        Ok(())
    }
}

/// Whether no station changes, and no unit leaves or ages, as when a probe is answered.
fn is_settled(change: &Change, leaving: &Leaving, ages: bool) -> bool
    ensures { IsTrue result
        → (change.now ≡ Change.Nothing) × (leaving.now ≡ Leaving.Nothing) × (ages ≡ false) }
{
    !ages && matches!(change, Change::Nothing) && matches!(leaving, Leaving::Nothing)
}

/// The station whose identifier a change may change.
fn renumbered(change: &Change) -> Option<MacAddr>
    ensures { result ≡ renumbered change.now }
{
    match change {
        Change::Nothing | Change::SetMode { .. } => None,
        Change::Authenticate(addr) => Some(*addr),
        Change::Associate { addr, .. } => Some(*addr),
        Change::Disassociate(addr) => Some(*addr),
        Change::Forget(addr) => Some(*addr),
    }
}

/// Shows in a bitmap whether units are kept for one, once those for it alone changed. The bitmap has the stations that
/// units were kept for before.
fn follow(traffic: &mut Bitmap, stations: &Stations, whom: &Whom, waits: bool)
    ensures { AreSound stations.now.most stations.now.table
        → Follows stations.now whom.now waits traffic.old traffic.new }
{
    // no other has its identifier
    others_stay();
    identifiers_differ();
    let Whom::One(addr) = whom else {
        return;
    };
    let aid = stations.aid_of(*addr);
    show(traffic, aid, aid, waits);
}

/// Shows in a bitmap whether units are kept for a station, which had the identifier `before` and has `after`.
fn show(traffic: &mut Bitmap, before: Option<u16>, after: Option<u16>, waits: bool)
    requires before { IfSome before IsAid }
    requires after { IfSome after IsAid }
    ensures { (n : ℕ) → set.contains traffic.new n
        ≡ ((waits && is_number after n) || (not (is_number before n) && set.contains traffic.old n)) }
{
    clear_bit(traffic, before);
    if waits {
        set_bit(traffic, after);
    }
}

/// Clears the bit of an identifier, if there is one.
fn clear_bit(traffic: &mut Bitmap, aid: Option<u16>)
    requires { IfSome aid IsAid }
    ensures { (n : ℕ) → set.contains traffic.new n ≡ (not (is_number aid n) && set.contains traffic.old n) }
{
    if let Some(aid) = aid {
        traffic.clear(aid);
    }
}

/// Sets the bit of an identifier, if there is one.
pub(crate) fn set_bit(traffic: &mut Bitmap, aid: Option<u16>)
    requires { IfSome aid IsAid }
    ensures { (n : ℕ) → set.contains traffic.new n ≡ (is_number aid n || set.contains traffic.old n) }
{
    if let Some(aid) = aid {
        traffic.set(aid);
    }
}
