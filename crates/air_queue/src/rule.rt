//! The rule of the queue and the kinds of step, for proofs alone: no value of these types is made.
//!
//! The rule is `IsKept` of `specs/Rule.antt` (*profile*). A push that finds the queue full and a pop that finds it
//! empty change no pass.

ghost use Rattle.std.specs.Prelude.{◌≡◌, ◌<◌, ⊤};
ghost use Rattle.air_queue.specs.Rule.{IsKept, Accounts, fresh, giving, given, pushing, leaving, networks_of};
ghost use Rattle.air_queue.specs.Rule.{taking_in};
ghost use Rattle.air_queue.specs.declared.known.Known.TheVariants.{Spent};

use crate::known::Known;
use crossbeam_queue::protocol::{Join, Lesson, Outcome, Protocol, Split};
use crossbeam_queue::{Pass, RuledArrayQueue};
use events::AirItem;

/// The queue, under the rule.
pub type RuledQueue = RuledArrayQueue<AirItem, Known, Rule>;

/// A pass to it.
pub type QueuePass = Pass<AirItem, Known>;

/// The rule.
pub struct Rule;

impl Protocol<AirItem, Known> for Rule {
    ghost holds = { IsKept };

    ghost first = { fresh };
}

/// A network is given its pass.
pub struct Give;

impl Split<Known> for Give {
    ghost left = { giving };

    ghost right = { given };
}

/// A network's pass is taken in.
pub struct TakeIn;

impl Join<Known> for TakeIn {
    ghost both = { taking_in };

    ghost spent = { Spent };
}

/// A push: if it adds, the item's frame is the last that was pushed.
pub struct Push;

impl Outcome<AirItem, Known> for Push {
    ghost then = { λ v item w. w ≡ pushing v item };
}

impl Lesson<AirItem, Known> for Push {
    ghost fact = { λ v queued. ⊤ };
}

/// A pop: if it takes, the item is the last that left.
pub struct Leave;

impl Outcome<AirItem, Known> for Leave {
    ghost then = { λ v item w. (w ≡ leaving v item) × (item.place < networks_of v) };
}

impl Lesson<AirItem, Known> for Leave {
    ghost fact = { Accounts };
}
