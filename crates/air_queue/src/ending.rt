//! The end of a queue: all passes are back, and what remains is taken out (*profile*).

ghost use Rattle.std.specs.Prelude.{◌≡◌, ◌+◌, ◌<◌, ◌≤◌, [], All, vec_len, vec_capacity, IfOk, IfErr};
ghost use Rattle.std.specs.List.{AllByRecursion};
ghost use Rattle.std.specs.FinMap as finite;
ghost use Rattle.crossbeam_queue.specs.Passes.{view as known_by, IsPassOf, IsSamePass, ruled_capacity};
ghost use Rattle.events.specs.Items.{items_of};
ghost use Rattle.air_queue.specs.Passes.{AllThere};
ghost use Rattle.events.specs.Lists.{IsPrefix};
ghost use Rattle.air_queue.specs.Rule.{IsRadio, IsRadioWith, AllTaken, Accounts, networks_of, taken_in_of, taking_in};
ghost use Rattle.air_queue.specs.Rule.{after_taking};
ghost use Rattle.air_queue.specs.declared.known.Known.TheVariants.{Network, Radio};

use crate::pass::{NetPass, RadioPass};
use crate::queue::{AirQueue, pop_into};
use crate::rule::{Leave, QueuePass, RuledQueue, TakeIn};
use events::AirItem;
use mac_frame::List;
use std::sync::Wait;

/// All that was ever pushed to a queue (*profile*).
#[derive(Drop)]
pub struct Left {
    /// The frames, in the order in which they left.
    pub items: List<AirItem>,
}

/// Memory ran out: the queue and its passes, as they were (*profile*).
#[derive(Drop)]
pub struct TakeInFault {
    /// The queue.
    pub queue: AirQueue,
    /// The radio's pass.
    pub radio: RadioPass,
    /// The passes of the networks.
    pub nets: List<NetPass>,
}

impl AirQueue {
    /// Ends the queue, once all its passes are back, those of the networks in order of place: takes out what remains.
    /// So the answer begins with what had left, and has of each network what its pass pushed, in that order, and
    /// nothing else (*profile*). If memory ran out, it hands all back unchanged. It may wait for other threads.
    pub fn take_in<R: Wait>(
        self,
        rt: &R,
        radio: RadioPass,
        nets: Vec<NetPass>,
    ) -> Result<Left, TakeInFault>
        requires radio { radio.name ≡ self.name }
        requires new { radio.taken_in ≡ finite.empty }
        requires nets { AllThere self.name radio.networks nets.items }
        ensures begins { IfOk result (λ left. IsPrefix radio.left left.items) }
        ensures whole { IfOk result (λ left.
            AllByRecursion (λ pass. items_of pass.place left.items ≡ pass.pushed) nets.items) }
        ensures nothing_else { IfOk result (λ left. All (λ item. item.place < radio.networks) left.items) }
        ensures fault { IfErr result (λ fault.
            (fault.queue ≡ self) × (fault.radio ≡ radio) × (fault.nets ≡ nets.items)) }
    {
        let AirQueue { queue } = self;
        let RadioPass {
            mut left,
            mut queue_pass,
        } = radio;
        if left.reserve(queue.capacity()).is_err() {
            return Err(TakeInFault {
                queue: AirQueue { queue },
                radio: RadioPass { left, queue_pass },
                nets: List::from_vec(nets),
            });
        }
        take_passes(&queue, &mut queue_pass, nets);
        drain(rt, &queue, &mut queue_pass, &mut left);
        Ok(Left {
            items: List::from_vec(left),
        })
    }
}

/// Takes the passes of the networks in.
pub(crate) fn take_passes(queue: &RuledQueue, queue_pass: &mut QueuePass, nets: Vec<NetPass>)
    requires queue { IsPassOf queue.now queue_pass.old }
    requires radio { IsRadio (known_by queue_pass.old) }
    requires nets { AllByRecursion (λ pass. pass.name ≡ queue.now.table.shared.table_id) nets.items }
    ensures queue { IsSamePass queue_pass.old queue_pass.new }
    ensures radio { known_by queue_pass.new ≡ after_taking (known_by queue_pass.old) nets.items }
{
    for net in nets {
        take_pass(queue, queue_pass, net);
    }
}

/// Takes the pass of a network in.
fn take_pass(queue: &RuledQueue, queue_pass: &mut QueuePass, net: NetPass)
    requires queue { IsPassOf queue.now queue_pass.old }
    requires radio { IsRadio (known_by queue_pass.old) }
    requires net { net.name ≡ queue.now.table.shared.table_id }
    ensures queue { IsSamePass queue_pass.old queue_pass.new }
    ensures radio { known_by queue_pass.new ≡ taking_in (known_by queue_pass.old) (Network net.place net.pushed) }
{
    let NetPass {
        place: _,
        queue_pass: theirs,
    } = net;
    queue.absorb::<TakeIn>(queue_pass, theirs);
}

/// Takes all out that is queued, once the passes of the networks are in, so that nobody pushes.
fn drain<R: Wait>(rt: &R, queue: &RuledQueue, queue_pass: &mut QueuePass, left: &mut Vec<AirItem>)
    requires queue { IsPassOf queue.now queue_pass.old }
    requires radio { IsRadioWith left.old.items (known_by queue_pass.old) }
    requires taken { AllTaken (known_by queue_pass.old) }
    requires room { vec_len left.old + ruled_capacity queue.now ≤ vec_capacity left.old }
    ensures begins { IsPrefix left.old.items left.new.items }
    ensures account { Accounts (Radio left.new.items (networks_of (known_by queue_pass.old))
        (taken_in_of (known_by queue_pass.old))) [] }
{
    let all = left.len() + queue.len_as::<Leave, R>(rt, queue_pass);
    while left.len() < all {
        if !pop_into(rt, queue, queue_pass, left) {
            return;
        }
    }
    queue.learn_as::<Leave>(queue_pass);
}
