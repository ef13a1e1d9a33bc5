//! The queue: made with its passes, pushed to, popped from, and taken in (*profile*).

ghost use Rattle.std.specs.Prelude.{◌≡◌, ◌+◌, ◌<◌, ◌≤◌, ◌++◌, [], ◌∷◌, vec_len, vec_capacity, IfOk, OnOk, IfErr};
ghost use Rattle.std.specs.Prelude.{MatchBool, MatchOption};
ghost use Rattle.std.specs.FinMap as finite;
ghost use Rattle.crossbeam_queue.specs.Passes.{view as known_by, IsPassOf, IsSamePass};
ghost use Rattle.events.specs.declared.air_item.AirItem.{AirItem};
ghost use Rattle.air_queue.specs.Passes.{fresh_passes, fresh_radio};
ghost use Rattle.air_queue.specs.Rule.{IsRadio, IsRadioWith, Accounts, left_of, networks_of, taken_in_of};
ghost use Rattle.air_queue.specs.declared.known.Known.TheVariants.{Radio};

use crate::pass::{NetPass, PopPass, RadioPass};
use crate::rule::{Give, Leave, Push, QueuePass, RuledQueue};
use ap_config::{MAX_NETWORKS, MAX_QUEUE};
use events::AirItem;
use mac_frame::NoMemory;
use std::alloc::Global;
use std::marker::Model;
use std::sync::Wait;

/// A queue of whole frames (IEEE Std 802.11-2016, 9.2) that threads share by reference (*profile*). Contracts see its
/// name, which its passes have too, and how many frames it holds at most; what it holds another thread may change at
/// any moment, so no contract tells.
#[derive(Drop)]
pub struct AirQueue {
    pub(crate) queue: RuledQueue,
}

impl Model for AirQueue {
    ghost use Rattle.crossbeam_queue.specs.Passes.{ruled_capacity};
    ghost use Rattle.air_queue.specs.Passes.{QueueView};

    ghost Value = { QueueView };

    ghost view = { λ q. record { name = q.queue.table.shared.table_id; capacity = ruled_capacity q.queue } };
}

impl AirQueue {
    /// An empty queue of a capacity in frames, 1 to [`MAX_QUEUE`], with a pass for each of this number of networks, 1
    /// to [`MAX_NETWORKS`], in order of place, and the radio's pass (*profile*). Nothing was pushed and nothing left.
    /// `NoMemory` if memory ran out.
    pub fn open(
        alloc: Global,
        capacity: u16,
        networks: usize,
    ) -> Result<(AirQueue, Vec<NetPass>, RadioPass), NoMemory>
        requires capacity { (1 ≤ capacity) × (capacity ≤ MAX_QUEUE) }
        requires networks { (1 ≤ networks) × (networks ≤ MAX_NETWORKS) }
        ensures queue { IfOk result (λ r. r.0.capacity ≡ capacity) }
        ensures passes { IfOk result (λ r. r.1.items ≡ fresh_passes r.0.name networks) }
        ensures radio { IfOk result (λ r. r.2 ≡ fresh_radio r.0.name networks r.2.spare) }
    {
        let room = Vec::with_capacity(alloc, networks)?;
        let (queue, queue_pass) = RuledQueue::ruled(alloc, usize::from(capacity))?;
        let (nets, queue_pass) = give_passes(&queue, queue_pass, room, networks);
        let radio = RadioPass {
            left: Vec::new(alloc),
            queue_pass,
        };
        Ok((AirQueue { queue }, nets, radio))
    }

    /// Puts a frame at the end of the queue, by its network's pass (*profile*). If the frame comes back, the pass
    /// has pushed nothing. That the queue was full then is no clause, and shown by a test on one thread alone. It may
    /// wait for other threads. It takes no memory.
    pub fn push<R: Wait>(&self, rt: &R, pass: &mut NetPass, item: AirItem) -> Result<(), AirItem>
        requires queue { pass.old.name ≡ self.now.name }
        requires place { item.place ≡ pass.old.place }
        ensures pass { (pass.new.name ≡ pass.old.name) × (pass.new.place ≡ pass.old.place) }
        ensures ok { OnOk result (pass.new.pushed ≡ pass.old.pushed ++ item.octets ∷ []) }
        ensures err { IfErr result (λ back. (back ≡ item) × (pass.new.pushed ≡ pass.old.pushed)) }
    {
        self.queue
            .push_as::<Push, R>(rt, &mut pass.queue_pass, item)
    }

    /// Takes the first frame of the queue, which is the last that left then (*profile*). After `false` nothing has
    /// changed. That the queue was empty then is no clause, and shown by a test on one thread alone. It may wait for
    /// other threads. It takes no memory, but uses room that [`RadioPass::reserve`] made.
    pub fn pop<R: Wait>(&self, rt: &R, pass: &mut RadioPass) -> bool
        requires queue { pass.old.name ≡ self.now.name }
        requires room { 1 ≤ pass.old.spare }
        ensures name { pass.new.name ≡ pass.old.name }
        ensures networks { (pass.new.networks ≡ pass.old.networks) × (pass.new.taken_in ≡ pass.old.taken_in) }
        ensures left { MatchBool result
            ((item : AirItem) × (item.place < pass.old.networks) × (pass.new.left ≡ pass.old.left ++ item ∷ [])
            × (pass.new.spare + 1 ≡ pass.old.spare))
            (pass.new ≡ pass.old) }
    {
        pop_into(rt, &self.queue, &mut pass.queue_pass, &mut pass.left)
    }

    /// Takes the first frame of the queue, which is the last that left then, and hands it out (*profile*). After `None`
    /// nothing has changed. That the queue was empty then is no clause. It may wait for other threads. It takes no
    /// memory.
    pub fn pop_item<R: Wait>(&self, rt: &R, pass: &mut PopPass) -> Option<AirItem>
        requires queue { pass.old.name ≡ self.now.name }
        ensures name { pass.new.name ≡ pass.old.name }
        ensures networks { (pass.new.networks ≡ pass.old.networks) × (pass.new.taken_in ≡ pass.old.taken_in) }
        ensures left { MatchOption result (pass.new ≡ pass.old)
            (λ item. (item.place < pass.old.networks) × (pass.new.left ≡ pass.old.left ++ item ∷ [])) }
    {
        pop_from(rt, &self.queue, &mut pass.queue_pass)
    }
}

/// Gives each network its pass, in order of place.
fn give_passes(
    queue: &RuledQueue,
    queue_pass: QueuePass,
    room: Vec<NetPass>,
    networks: usize,
) -> (Vec<NetPass>, QueuePass)
    requires queue { IsPassOf queue.now queue_pass }
    requires radio { known_by queue_pass ≡ Radio [] 0 finite.empty }
    requires room { (room.items ≡ []) × (vec_len room ≡ 0) × (networks ≤ vec_capacity room) }
    ensures queue { IsPassOf queue.now result.1 }
    ensures radio { known_by result.1 ≡ Radio [] networks finite.empty }
    ensures passes { result.0.items ≡ fresh_passes queue.now.table.shared.table_id networks }
{
    let mut queue_pass = queue_pass;
    let mut nets = room;
    for place in 0..networks {
        let theirs = queue.another::<Give>(&mut queue_pass);
        nets.push_reserved(NetPass::new(place, theirs));
    }
    (nets, queue_pass)
}

/// Takes the first frame of the queue.
pub(crate) fn pop_from<R: Wait>(
    rt: &R,
    queue: &RuledQueue,
    queue_pass: &mut QueuePass,
) -> Option<AirItem>
    requires queue { IsPassOf queue.now queue_pass.old }
    requires radio { IsRadio (known_by queue_pass.old) }
    ensures queue { IsSamePass queue_pass.old queue_pass.new }
    ensures radio { IsRadio (known_by queue_pass.new) }
    ensures networks { (networks_of (known_by queue_pass.new) ≡ networks_of (known_by queue_pass.old))
        × (taken_in_of (known_by queue_pass.new) ≡ taken_in_of (known_by queue_pass.old)) }
    ensures left { MatchOption result
        ((known_by queue_pass.new ≡ known_by queue_pass.old) × Accounts (known_by queue_pass.old) [])
        (λ item. (item.place < networks_of (known_by queue_pass.old))
        × (left_of (known_by queue_pass.new) ≡ left_of (known_by queue_pass.old) ++ item ∷ [])) }
{
    queue.pop_as::<Leave, R>(rt, queue_pass)
}

/// Takes the first frame of the queue into the list of what left.
pub(crate) fn pop_into<R: Wait>(
    rt: &R,
    queue: &RuledQueue,
    queue_pass: &mut QueuePass,
    left: &mut Vec<AirItem>,
) -> bool
    requires queue { IsPassOf queue.now queue_pass.old }
    requires radio { IsRadioWith left.old.items (known_by queue_pass.old) }
    requires room { vec_len left.old < vec_capacity left.old }
    ensures queue { IsSamePass queue_pass.old queue_pass.new }
    ensures radio { IsRadioWith left.new.items (known_by queue_pass.new) }
    ensures networks { (networks_of (known_by queue_pass.new) ≡ networks_of (known_by queue_pass.old))
        × (taken_in_of (known_by queue_pass.new) ≡ taken_in_of (known_by queue_pass.old)) }
    ensures left { MatchBool result
        ((item : AirItem) × (item.place < networks_of (known_by queue_pass.old))
        × (left.new.items ≡ left.old.items ++ item ∷ []) × (vec_len left.new ≡ vec_len left.old + 1)
        × (vec_capacity left.new ≡ vec_capacity left.old))
        ((known_by queue_pass.new ≡ known_by queue_pass.old) × (left.new ≡ left.old)
        × Accounts (known_by queue_pass.old) []) }
{
    match queue.pop_as::<Leave, R>(rt, queue_pass) {
        Some(item) => {
            left.push_reserved(item);
            true
        }
        None => false,
    }
}
