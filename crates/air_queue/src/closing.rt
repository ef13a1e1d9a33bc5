//! A queue to which nobody pushes any more, and from which frames are handed out until none is left (*profile*).

ghost use Rattle.std.specs.Prelude.{◌≡◌, ◌<◌, ◌++◌, ◌∷◌, [], MatchOption};
ghost use Rattle.std.specs.FinMap as finite;
ghost use Rattle.air_queue.specs.Passes.{AllThere, HasEach, IsDrained};

use crate::ending::take_passes;
use crate::pass::{NetPass, PopPass};
use crate::queue::{AirQueue, pop_from};
use crate::rule::{QueuePass, RuledQueue};
use events::AirItem;
use std::marker::Model;
use std::sync::Wait;

/// A queue whose passes are all back, so that nobody pushes (*profile*). Contracts see what left it, how many networks
/// had a pass, and what these pushed, by place.
#[derive(Drop)]
pub struct ClosedQueue {
    queue: RuledQueue,
    queue_pass: QueuePass,
}

impl Model for ClosedQueue {
    ghost use Rattle.std.specs.Prelude.{◌≡◌};
    ghost use Rattle.crossbeam_queue.specs.Passes.{view as known_by, IsPassOf};
    ghost use Rattle.air_queue.specs.Passes.{ClosedView, closed_code};
    ghost use Rattle.air_queue.specs.Rule.{IsRadio, left_of, networks_of, taken_in_of};

    ghost Value = { ClosedView };

    ghost coded = { closed_code };

    ghost view = { λ c. record {
      left = left_of (known_by c.queue_pass);
      networks = networks_of (known_by c.queue_pass);
      taken_in = taken_in_of (known_by c.queue_pass);
    } };

    ghost invariant = { λ c. IsPassOf c.queue c.queue_pass × IsRadio (known_by c.queue_pass) };
}

impl AirQueue {
    /// Closes the queue, once all its passes are back, those of the networks in order of place (*profile*). What remains
    /// is there to be taken out. It takes no memory.
    pub fn close(self, pass: PopPass, nets: Vec<NetPass>) -> ClosedQueue
        requires pass { pass.name ≡ self.name }
        requires new { pass.taken_in ≡ finite.empty }
        requires nets { AllThere self.name pass.networks nets.items }
        ensures left { (result.left ≡ pass.left) × (result.networks ≡ pass.networks) }
        ensures pushed { HasEach result.taken_in nets.items }
    {
        let AirQueue { queue } = self;
        let PopPass { mut queue_pass } = pass;
        take_passes(&queue, &mut queue_pass, nets);
        ClosedQueue { queue, queue_pass }
    }
}

impl ClosedQueue {
    /// Takes the first frame that is left and hands it out. After `None` there is none: what left of each network is what
    /// its pass pushed, in that order, and nothing else left (*profile*). It may wait for other threads. It takes no
    /// memory.
    pub fn pop<R: Wait>(&mut self, rt: &R) -> Option<AirItem>
        ensures pushed { (self.new.networks ≡ self.old.networks) × (self.new.taken_in ≡ self.old.taken_in) }
        ensures left { MatchOption result ((self.new ≡ self.old) × IsDrained self.new)
            (λ item. (item.place < self.old.networks) × (self.new.left ≡ self.old.left ++ item ∷ [])) }
    {
        pop_from(rt, &self.queue, &mut self.queue_pass)
    }
}
