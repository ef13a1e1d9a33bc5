//! What a pass knows of the queue (*profile*), for proofs alone: no value of these types is made.

use events::AirItem;
use mac_frame::Octets;
use std::collections::LinkedList;
use std::marker::Model;

/// What the networks had pushed whose passes were taken in, by place.
pub struct TakenIn;

impl Model for TakenIn {
    ghost use Rattle.std.specs.Prelude.{ℕ, List};
    ghost use Rattle.std.specs.Ordering.{nat_cmp};
    ghost use Rattle.std.specs.FinMap as finite;
    ghost use Rattle.std.specs.Coded.{coded_ℕ, coded_list};

    ghost Value = { finite.FinMap nat_cmp (List (List ℕ)) };

    ghost coded = { finite.code coded_ℕ (coded_list (coded_list coded_ℕ)) };

    ghost view = { λ _. finite.empty };
}

/// What a pass knows.
pub enum Known {
    /// A network's pass: what was pushed with it.
    Network {
        /// The network's place.
        place: usize,
        /// The frames, in order.
        pushed: LinkedList<Octets>,
    },
    /// The radio's pass.
    Radio {
        /// What left, in order.
        left: LinkedList<AirItem>,
        /// How many networks were given a pass.
        networks: usize,
        /// What was taken in of them.
        taken_in: TakenIn,
    },
    /// A network's pass that was taken in: nothing.
    Spent,
}
