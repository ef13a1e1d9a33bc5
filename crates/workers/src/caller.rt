//! Who gives events to an access point, and what it was answered (*profile*).

ghost use Rattle.std.specs.Prelude.{◌≡◌, [], option_to_list};
ghost use Rattle.workers.specs.Giving.{entry_of};

use crate::outcome::Outcome;
use events::Event;
use network::Refusal;
use std::alloc::Global;
use std::marker::Model;

/// What a caller was answered by one network (*profile*).
#[derive(Debug, Drop)]
pub enum Entry {
    /// The network took the event.
    Receipt {
        /// The network's place in the configuration, from 0.
        place: usize,
        /// The event's number in the network's history, from 0.
        number: u32,
        /// The event.
        event: Event,
    },
    /// The network refused the event.
    Refused {
        /// The network's place in the configuration, from 0.
        place: usize,
        /// Why it did.
        refusal: Refusal,
    },
}

impl Entry {
    /// The entry of an event's outcome at a place: none if nobody heard it.
    pub(crate) fn of(place: usize, outcome: Outcome, event: Event) -> Option<Entry>
        ensures { option_to_list result ≡ entry_of event place outcome }
    {
        match outcome {
            Outcome::NotHeard => None,
            Outcome::Took(number) => Some(Entry::Receipt {
                place,
                number,
                event,
            }),
            Outcome::Full => Some(Entry::Refused {
                place,
                refusal: Refusal::HistoryFull,
            }),
            Outcome::NoMemory => Some(Entry::Refused {
                place,
                refusal: Refusal::NoMemory,
            }),
        }
    }
}

/// Who gives events to an access point, and keeps what it is answered (*profile*). Contracts see its entries, the
/// first of them first.
#[derive(Debug, Drop)]
pub struct Caller {
    pub(crate) entries: Vec<Entry>,
}

impl Model for Caller {
    ghost use Rattle.std.specs.Prelude.{List};
    ghost use Rattle.workers.specs.declared.caller.Entry.{Entry};

    ghost Value = { List Entry };

    ghost view = { λ c. c.entries.items };
}

impl Caller {
    /// A caller without entries. It takes no memory.
    pub(crate) fn new(alloc: Global) -> Caller
        ensures { result ≡ [] }
    {
        Caller {
            entries: Vec::new(alloc),
        }
    }

    /// What it was answered, the first entry first (*profile*). It takes no memory.
    pub fn entries(&self) -> &[Entry]
        ensures { result.now ≡ self.now }
    {
        self.entries.as_slice()
    }
}
