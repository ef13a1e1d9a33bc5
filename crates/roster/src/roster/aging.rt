//! Units that are too old for the station that they are kept for (*profile*).

ghost use Rattle.std.specs.Prelude.{◌≡◌, ◌<◌, ◌≤◌, ◌^◌, ◌&&◌, filter, length, nat_lt, not, option_map, IfOk};
ghost use Rattle.powersave.specs.Keep.{units_for, is_older, without_older, room_beside, CameInOrder};
ghost use Rattle.roster.specs.Roster.{AreWaitedFor, AreAmong, FollowsLoss, AgesBy, limit_for, stays};
ghost use Rattle.roster.specs.KeptUnits.{CameBy, is_too_old};

use crate::roster::{Roster, follow};
use mac_frame::NoMemory;
use powersave::{Oldest, Whom, parts_stay};
use stations::listen_with;
use tim::Bitmap;

impl Roster {
    /// Looks up the stations of which a unit may be too old at this clock, and notes from which clock on one may be the
    /// next time. What asks for this clock looks up those alone then of which a unit is too old. Contracts see no
    /// change (*profile*).
    #[inline(never)]
    pub fn look_up_due(&mut self, clock: u32)
        requires { CameBy clock self.old.kept.entries }
        ensures { self.new ≡ self.old }
    {
        if self.kept.is_empty() || self.clocks.none_is_due(clock) {
            return;
        }
        if self.clocks.are_complete() && !self.clocks.are_mostly_gone(self.kept.len()) {
            self.clocks
                .look_up_due(&self.stations, &self.kept, &self.traffic, clock);
            return;
        }
        // where memory runs out, all are looked up by what asks
        if let Ok(oldest) = self.kept.oldest_of_each() {
            self.clocks.list(&self.stations, oldest.as_slice());
        }
    }

    /// Those of whom a unit may be too old at this clock, each with a clock that none of its units came before.
    /// `NoMemory` where memory ran out.
    fn due(&self, clock: u32) -> Result<Vec<Oldest>, NoMemory>
        requires { CameBy clock self.now.kept.entries }
        ensures { IfOk result (λ due. AreAmong clock self.now.stations.table due.items self.now.kept.entries) }
    {
        if self.clocks.are_complete() && !self.kept.is_empty() {
            self.clocks.due(clock)
        } else {
            Ok(self.kept.oldest_of_each()?)
        }
    }

    /// Where units age, those of whom one may be too old at this clock. `NoMemory` where memory ran out.
    pub(crate) fn oldest_if(&self, ages: bool, clock: u32) -> Result<Option<Vec<Oldest>>, NoMemory>
        requires { CameBy clock self.now.kept.entries }
        ensures { IfOk result (λ oldest. AgesBy ages clock self.now.stations.table
            (option_map (λ v. v.items) oldest) self.now.kept.entries) }
    {
        if ages {
            Ok(Some(self.due(clock)?))
        } else {
            Ok(None)
        }
    }

    /// Does as [`Roster::age`] where units age, and else nothing. `oldest` are those that [`Roster::oldest_if`] told.
    pub(crate) fn age_if(&mut self, ages: bool, oldest: &Option<Vec<Oldest>>, clock: u32) -> u32
        requires oldest { AgesBy ages clock self.old.stations.table (option_map (λ v. v.items) oldest.now)
            self.old.kept.entries }
        requires came { CameBy clock self.old.kept.entries }
        requires countable { length self.old.kept.entries < 2 ^ 32 }
        ensures count { result
            ≡ length (filter (λ entry. ages && is_too_old clock self.old.stations.table entry) self.old.kept.entries) }
        ensures entries { self.new.kept.entries
            ≡ filter (λ entry. not (ages && is_too_old clock self.old.stations.table entry)) self.old.kept.entries }
        ensures stations { self.new.stations ≡ self.old.stations }
        ensures quota { self.new.kept.quota ≡ self.old.kept.quota }
        ensures puts { self.new.kept.puts ≡ self.old.kept.puts }
    {
        match oldest {
            Some(oldest) => self.age(oldest.as_slice(), clock),
            None => 0,
        }
    }

    /// Takes out each unit that is too old at this clock, which counts the beacon intervals that began: more began
    /// since it came than the listen interval of the station that it is kept for (IEEE Std 802.11-2016, 9.4.1.6).
    /// Answers how many units these were. `oldest` tells those of whom a unit may be too old: the units of one are only
    /// looked for where that may be by its clock. It takes no memory.
    fn age(&mut self, oldest: &[Oldest], clock: u32) -> u32
        requires oldest { AreAmong clock self.old.stations.table oldest.now self.old.kept.entries }
        requires came { CameBy clock self.old.kept.entries }
        requires countable { length self.old.kept.entries < 2 ^ 32 }
        ensures count { result
            ≡ length (filter (is_too_old clock self.old.stations.table) self.old.kept.entries) }
        ensures entries { self.new.kept.entries
            ≡ filter (λ entry. not (is_too_old clock self.old.stations.table entry)) self.old.kept.entries }
        ensures stations { self.new.stations ≡ self.old.stations }
        ensures quota { self.new.kept.quota ≡ self.old.kept.quota }
        ensures puts { self.new.kept.puts ≡ self.old.kept.puts }
    {
        let mut dropped = 0;
        for one in oldest {
            dropped += self.age_one(one, clock);
        }
        dropped
    }

    /// Takes out the units for one that are too old at this clock, where the oldest of them is, and answers how many
    /// these were.
    fn age_one(&mut self, one: &Oldest, clock: u32) -> u32
        requires in_order { CameInOrder (units_for one.now.whom self.old.kept.entries) }
        ensures count { one.now.at < limit_for clock self.old.stations.table one.now.whom → result ≡ length
            (filter (is_older one.now.whom (limit_for clock self.old.stations.table one.now.whom))
            self.old.kept.entries) }
        ensures after { one.now.at < limit_for clock self.old.stations.table one.now.whom → self.new
            ≡ record self.old {
              kept = record self.old.kept {
                entries = without_older one.now.whom (limit_for clock self.old.stations.table one.now.whom)
                    self.old.kept.entries;
                reserved = room_beside one.now.whom self.old.kept.reserved;
              };
            } }
        ensures young { limit_for clock self.old.stations.table one.now.whom ≤ one.now.at
            → (result ≡ 0) × (self.new ≡ self.old) }
    {
        let limit = self.limit_for(&one.whom, clock);
        if one.at < limit {
            self.age_for(&one.whom, limit)
        } else {
            0
        }
    }

    /// Takes out the units for one that came before a clock, and answers how many these were.
    fn age_for(&mut self, whom: &Whom, limit: u32) -> u32
        requires in_order { CameInOrder (units_for whom.now self.old.kept.entries) }
        ensures count { result ≡ length (filter (is_older whom.now limit) self.old.kept.entries) }
        ensures after { self.new ≡ record self.old {
          kept = record self.old.kept {
            entries = without_older whom.now limit self.old.kept.entries;
            reserved = room_beside whom.now self.old.kept.reserved;
          };
        } }
    {
        // the units for the others stay
        parts_stay();
        let dropped = self.kept.drop_older(*whom, limit);
        if self.kept.count_for(*whom) == 0 {
            follow(&mut self.traffic, &self.stations, whom, false);
        }
        dropped
    }

    /// The association identifiers of the stations that units are kept for once they have aged at this clock.
    /// `NoMemory` where memory ran out.
    pub fn traffic_after_aging(&self, clock: u32) -> Result<Bitmap, NoMemory>
        requires { CameBy clock self.now.kept.entries }
        ensures { IfOk result (λ bits. AreWaitedFor bits self.now.stations.table
            (filter (λ entry. not (is_too_old clock self.now.stations.table entry)) self.now.kept.entries)) }
    {
        let due = self.due(clock)?;
        let mut bits = self.traffic().copy();
        self.show_each(&mut bits, due.as_slice(), clock);
        Ok(bits)
    }

    /// Shows in a bitmap, which has those that units are kept for, for whom units stay at this clock.
    fn show_each(&self, bits: &mut Bitmap, oldest: &[Oldest], clock: u32)
        requires oldest { AreAmong clock self.now.stations.table oldest.now self.now.kept.entries }
        requires came { CameBy clock self.now.kept.entries }
        requires bits { AreWaitedFor bits.old self.now.stations.table self.now.kept.entries }
        ensures { AreWaitedFor bits.new self.now.stations.table
            (filter (λ entry. not (is_too_old clock self.now.stations.table entry)) self.now.kept.entries) }
    {
        // the units for the others stay
        parts_stay();
        for one in oldest {
            self.show_one(bits, one, clock);
        }
    }

    /// Shows in a bitmap whether units stay for one at this clock, where the oldest of them is too old.
    fn show_one(&self, bits: &mut Bitmap, one: &Oldest, clock: u32)
        requires { CameInOrder (units_for one.now.whom self.now.kept.entries) }
        ensures old { one.now.at < limit_for clock self.now.stations.table one.now.whom →
            FollowsLoss self.now.stations one.now.whom (nat_lt 0 (length
            (filter (stays clock self.now.stations.table one.now.whom)
            (units_for one.now.whom self.now.kept.entries)))) bits.old bits.new }
        ensures young { limit_for clock self.now.stations.table one.now.whom ≤ one.now.at → bits.new ≡ bits.old }
    {
        let limit = self.limit_for(&one.whom, clock);
        if one.at < limit && !self.some_stay(&one.whom, limit) {
            follow(bits, &self.stations, &one.whom, false);
        }
    }

    /// Whether units for one stay that came at a clock or later: the one that came last does.
    fn some_stay(&self, whom: &Whom, limit: u32) -> bool
        requires { CameInOrder (units_for whom.now self.now.kept.entries) }
        ensures { result ≡ nat_lt 0 (length (filter (λ unit. not (nat_lt unit.at limit))
            (units_for whom.now self.now.kept.entries))) }
    {
        let count = self.kept.count_for(*whom);
        match self.kept.nth(*whom, count.saturating_sub(1)) {
            Some(unit) => unit.at >= limit,
            None => false,
        }
    }

    /// The clock before which a unit for one is too old at this clock.
    fn limit_for(&self, whom: &Whom, clock: u32) -> u32
        ensures { result ≡ limit_for clock self.now.stations.table whom.now }
    {
        match whom {
            Whom::One(addr) => {
                clock.saturating_sub(u32::from(listen_with(self.stations.state_of(*addr))))
            }
            Whom::Group => 0,
        }
    }
}
