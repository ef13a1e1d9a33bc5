//! Copies of an event, made before any lock is taken.

ghost use Rattle.std.specs.Prelude.{◌≡◌, IfOk};
ghost use Rattle.events.specs.LentEvents.{event_of};
ghost use Rattle.workers.specs.Copies.{copies_of_event};

use events::{Event, LentEvent};
use mac_frame::NoMemory;
use std::alloc::Global;

/// An event twice: for the network that it is offered to, and for the caller's receipt.
#[derive(Debug, Drop)]
pub(crate) struct Copies {
    pub(crate) offered: Event,
    pub(crate) kept: Event,
}

impl Copies {
    /// The copies of an event that is lent.
    pub(crate) fn of(alloc: Global, event: LentEvent<'_>) -> Result<Copies, NoMemory>
        ensures { IfOk result (λ copies. copies ≡ copies_of_event (event_of event.entry)) }
    {
        let offered = event.copy(alloc)?;
        let kept = event.copy(alloc)?;
        Ok(Copies { offered, kept })
    }
}
