//! What follows from the definitions of a map, for whoever stands on them.

ghost use Rattle.address_map.specs.Entries.{StayApart};

/// No address stands twice where none did, and the value of one is set or one is taken out (*profile*).
#[inline(always)]
pub fn addresses_stay_apart<V>()
    ensures { StayApart V }
{}
