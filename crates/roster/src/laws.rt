//! What follows from the definitions of units that are kept, for whoever stands on them.

ghost use Rattle.roster.specs.Changes.{KeptForDozing, CameInTurn, KeptCounts, GroupStays, ModesKeepIdentifiers};

use powersave::returns_in_its_place;
use stations::modes_alone;

/// Units that are kept for stations that doze are so still if those of a station that changes leave, if others
/// leave, and if one comes for a station that dozes (IEEE Std 802.11-2016, 11.2.3.2).
#[inline(always)]
pub fn kept_for_dozing()
    ensures { KeptForDozing }
{}

/// Units that stand as they came do so still if some leave, if one comes last, and if one comes back to its place
/// (*profile*).
#[inline(always)]
pub fn came_in_turn()
    ensures { CameInTurn }
{
    returns_in_its_place();
}

/// How many units are kept if some leave, and how many for one (*profile*).
#[inline(always)]
pub fn kept_counts()
    ensures { KeptCounts }
{}

/// Units for the group stay if those of a station leave, and don't age (11.2.3.2 and *profile*).
#[inline(always)]
pub fn group_stays()
    ensures { GroupStays }
{}

/// If the mode of one station is set, whoever a unit is kept for keeps the association identifier (9.4.1.8).
#[inline(always)]
pub fn modes_keep_identifiers()
    ensures { ModesKeepIdentifiers }
{
    modes_alone();
}
