//! Units that come back to those that are kept, and units that are handed over (*profile*).

ghost use Rattle.std.specs.Prelude.{◌≡◌, ◌<◌, ◌+◌, ◌^◌, length, None, Some, IsOk, OnOk, OnErr};
ghost use Rattle.powersave.specs.Keep.{units_for, without_all, room_beside};
ghost use Rattle.powersave.specs.Returns.{put_back};
ghost use Rattle.roster.specs.Keeping.{aid_for};

use crate::keeping::Arriving;
use crate::roster::{Roster, follow, set_bit};
use mac_frame::NoMemory;
use powersave::{UnitQueue, Whom, parts_stay, returns_in_its_place};
use stations::{identifiers_differ, others_stay};

impl Roster {
    /// Keeps a unit again that was given out. It stands behind as many of those for its receiver as are told, and comes
    /// with the association identifier of its station. The units age from the clock at which they came. After
    /// `NoMemory` nothing has changed.
    pub fn put_back(&mut self, arriving: Arriving, before: usize) -> Result<(), NoMemory>
        requires not_full { length self.old.kept.entries < self.old.kept.quota }
        requires countable { self.old.kept.in_front + before < 2 ^ 62 }
        requires aid { arriving.aid ≡ aid_for arriving.whom self.old.stations.table }
        ensures ok { OnOk result (self.new ≡ record self.old {
          kept = record self.old.kept {
            entries = put_back arriving.whom before arriving.unit self.old.kept.entries;
            reserved = None;
            in_front = self.old.kept.in_front + (before + 1);
          };
        }) }
        ensures err { OnErr result (self.new ≡ self.old) }
        ensures room { self.old.kept.reserved ≡ Some arriving.whom → IsOk result }
    {
        // the units for the others stay, and no other has its identifier
        returns_in_its_place();
        others_stay();
        identifiers_differ();
        let Arriving { whom, aid, unit } = arriving;
        let at = unit.at;
        self.kept.put_back(whom, before, unit)?;
        self.clocks
            .arrive(&self.stations, &self.traffic, &whom, aid, at);
        set_bit(&mut self.traffic, aid);
        Ok(())
    }

    /// Takes out all units for one, and hands them over as they are kept: none is moved or copied.
    pub fn take_for(&mut self, whom: Whom) -> UnitQueue
        ensures units { result ≡ units_for whom self.old.kept.entries }
        ensures after { self.new ≡ record self.old {
          kept = record self.old.kept {
            entries = without_all whom self.old.kept.entries;
            reserved = room_beside whom self.old.kept.reserved;
          };
        } }
    {
        // the units for the others stay
        parts_stay();
        let units = self.kept.take_for(whom);
        follow(&mut self.traffic, &self.stations, &whom, false);
        units
    }
}
