//! Whose frames wait, for who has no lock (*profile*).

ghost use Rattle.std.specs.Prelude.{◌≡◌, ◌<◌, ◌^◌, true};
ghost use Rattle.ap_config.specs.Configuration.{most_networks};
ghost use Rattle.workers.specs.Seats.{ToldView};

use std::marker::Model;
use std::sync::atomic::{AtomicU64, Ordering};

/// Whose frames may wait, by a bit for each place. Whoever has what was [`Told`] of a place tells it. Anybody may read
/// it.
#[derive(Drop)]
pub(crate) struct Waiting {
    bits: AtomicU64,
}

/// What was told last of the frames of the network at a place. It is made and changed by telling alone: where it stands
/// under a lock, nobody tells without that lock.
#[derive(Drop)]
pub(crate) struct Told {
    place: usize,
    waits: bool,
}

impl Model for Told {
    ghost use Rattle.workers.specs.Seats.{ToldView};

    ghost Value = { ToldView };

    ghost view = { λ t. record { place = t.place; waits = t.waits } };
}

impl Waiting {
    /// Nobody's frames wait.
    pub(crate) fn new() -> Waiting {
        Waiting {
            bits: AtomicU64::new(0),
        }
    }

    /// Tells of a place for the first time: its frames may wait.
    pub(crate) fn begin(&mut self, place: usize) -> Told
        ensures { result ≡ record { place = place; waits = true } }
    {
        self.bits.fetch_or(bit_of(place), Ordering::SeqCst);
        Told { place, waits: true }
    }

    /// Whether frames of the network at a place wait, as it was told last.
    pub(crate) fn may_wait(&self, place: usize) -> bool {
        self.bits.load(Ordering::SeqCst) & bit_of(place) != 0
    }

    /// Tells whether frames of a network wait, unless that was told last.
    pub(crate) fn tell(&self, told: &mut Told, waits: bool)
        ensures { told.new ≡ record { place = told.old.place; waits = waits } }
    {
        if waits && !told.waits {
            self.bits.fetch_or(bit_of(told.place), Ordering::SeqCst);
        }
        if told.waits && !waits {
            self.bits.fetch_and(!bit_of(told.place), Ordering::SeqCst);
        }
        told.waits = waits;
    }
}

/// The bit of a place. No two places of an access point have the same.
fn bit_of(place: usize) -> u64
    ensures { place < most_networks → result ≡ 2 ^ place }
{
    1 << (place % 64)
}
