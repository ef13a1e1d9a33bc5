//! What follows from the definitions of a table, for whoever stands on them.

ghost use Rattle.stations.specs.Changes.{OthersStay, ModesAlone, IdentifiersDiffer, StaySound, LengthsAfter};
ghost use Rattle.stations.specs.RestoredStations.{RestoredStaySound, RestoredAsItCame};

use address_map::addresses_stay_apart;
use aid_pool::least_is_free;
use station_state::StationState;

/// If the state of one station is set, if it is forgotten or its mode is set, every other keeps its state
/// (IEEE Std 802.11-2016, 11.3.1).
#[inline(always)]
pub fn others_stay()
    ensures { OthersStay }
{}

/// If the mode of a station is set, it keeps its state but for the mode, and all keep their identifiers (11.2.3.2).
#[inline(always)]
pub fn modes_alone()
    ensures { ModesAlone }
{}

/// The association identifier of a station is one of 1 to 2007 and no other station's (9.4.1.8).
#[inline(always)]
pub fn identifiers_differ()
    ensures { IdentifiersDiffer }
{}

/// A change that is allowed leaves no station twice, no two with one identifier, and no more associated than may be
/// (9.4.1.8, 11.3).
#[inline(always)]
pub fn changes_stay_sound()
    ensures { StaySound }
{
    addresses_stay_apart::<StationState>();
    least_is_free();
}

/// How many stations are known after a change of one: a new one is one more, and a mode changes nothing (*profile*).
#[inline(always)]
pub fn lengths_after()
    ensures { LengthsAfter }
{}

/// A station that is restored leaves sound stations, too. It stands as after an authentication, an association that
/// gives it its identifier, and a frame that shows its mode (9.4.1.8, 11.3).
#[inline(always)]
pub fn restored_stay_sound()
    ensures sound { RestoredStaySound }
    ensures same { RestoredAsItCame }
{
    addresses_stay_apart::<StationState>();
}
