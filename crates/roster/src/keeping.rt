//! What becomes of the units that a network keeps.

ghost use Rattle.std.specs.Prelude.{◌≡◌, length, None};
ghost use Rattle.roster.specs.Keeping.{without};

use powersave::{Keep, Unit, Whom};

/// Which units leave.
#[derive(Clone, Copy, Debug)]
pub enum Leaving {
    /// None does.
    Nothing,
    /// All for one do.
    All(Whom),
}

/// A unit that comes to those that are kept.
#[derive(Debug, Drop)]
pub struct Arriving {
    /// Whom it is kept for.
    pub whom: Whom,
    /// The association identifier of that station (IEEE Std 802.11-2016, 9.4.1.8); the group has none.
    pub aid: Option<u16>,
    /// The unit.
    pub unit: Unit,
}

/// What becomes of the units that are kept: first some leave, then one may come.
#[derive(Debug, Drop)]
pub struct Keeping {
    /// Which leave.
    pub leaving: Leaving,
    /// Which one comes.
    pub arriving: Option<Arriving>,
}

impl Leaving {
    /// How many units are kept once these have left.
    pub fn len_after(&self, keep: &Keep) -> usize
        ensures { result ≡ length (without self.now keep.now.entries) }
    {
        match self {
            Leaving::Nothing => keep.len(),
            Leaving::All(whom) => keep.len() - keep.count_for(*whom),
        }
    }
}

impl Keeping {
    /// All stay, and none comes.
    pub fn nothing() -> Keeping
        ensures { result ≡ record { leaving = Leaving.Nothing; arriving = None } }
    {
        Keeping {
            leaving: Leaving::Nothing,
            arriving: None,
        }
    }
}
