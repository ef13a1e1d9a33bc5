//! The passes to a queue: by one a network pushes, by two others the radio pops (*profile*).

ghost use Rattle.std.specs.Prelude.{◌≡◌, ◌≤◌, [], OnOk, OnErr};
ghost use Rattle.crossbeam_queue.specs.Passes.{view as known_by};
ghost use Rattle.air_queue.specs.Rule.{IsNetworkAt, pushed_by};

use crate::rule::QueuePass;
use events::AirItem;
use mac_frame::NoMemory;
use std::marker::Model;

/// A network's right to push its frames to a queue (*profile*). Contracts see which queue it is, the network's place,
/// and the frames that were pushed with it, in order. It has no bytes for these but the place.
#[derive(Drop)]
pub struct NetPass {
    pub(crate) place: usize,
    pub(crate) queue_pass: QueuePass,
}

impl Model for NetPass {
    ghost use Rattle.std.specs.Prelude.{◌≡◌, []};
    ghost use Rattle.crossbeam_queue.specs.Passes.{view as known_by};
    ghost use Rattle.air_queue.specs.Passes.{NetPassView};
    ghost use Rattle.air_queue.specs.Rule.{IsNetworkAt, pushed_by};

    ghost Value = { NetPassView };

    ghost view = { λ p. record {
      name = p.queue_pass.table_id;
      place = p.place;
      pushed = pushed_by (known_by p.queue_pass);
    } };

    ghost invariant = { λ p. (p.queue_pass.me.1 ≡ []) × IsNetworkAt p.place (known_by p.queue_pass) };
}

impl NetPass {
    /// The pass of the network at a place.
    pub(crate) fn new(place: usize, queue_pass: QueuePass) -> NetPass
        requires free { queue_pass.me.1 ≡ [] }
        requires network { IsNetworkAt place (known_by queue_pass) }
        ensures { result ≡ record {
          name = queue_pass.table_id;
          place = place;
          pushed = pushed_by (known_by queue_pass);
        } }
    {
        NetPass { place, queue_pass }
    }

    /// The network's place in the configuration, from 0 (*profile*).
    pub fn place(&self) -> usize
        ensures { result ≡ self.now.place }
    {
        self.place
    }
}

/// The radio's right to pop frames from a queue, with the list of what left (*profile*). Contracts see which queue it
/// is, that list, how many networks were given a pass, what was taken in of them, and for how many frames more there is
/// room.
#[derive(Drop)]
pub struct RadioPass {
    pub(crate) left: Vec<AirItem>,
    pub(crate) queue_pass: QueuePass,
}

impl Model for RadioPass {
    ghost use Rattle.std.specs.Prelude.{◌≡◌, ◌-◌, []};
    ghost use Rattle.std.specs.Vec.{vec_len, vec_capacity};
    ghost use Rattle.crossbeam_queue.specs.Passes.{view as known_by};
    ghost use Rattle.air_queue.specs.Passes.{RadioPassView, radio_pass_code};
    ghost use Rattle.air_queue.specs.Rule.{IsRadioWith, networks_of, taken_in_of};

    ghost Value = { RadioPassView };

    ghost coded = { radio_pass_code };

    ghost view = { λ p. record {
      name = p.queue_pass.table_id;
      left = p.left.items;
      networks = networks_of (known_by p.queue_pass);
      taken_in = taken_in_of (known_by p.queue_pass);
      spare = vec_capacity p.left - vec_len p.left;
    } };

    ghost invariant = { λ p. (p.queue_pass.me.1 ≡ []) × IsRadioWith p.left.items (known_by p.queue_pass) };
}

impl RadioPass {
    /// Makes room for `count` frames more in the list of what left (*profile*). `NoMemory` if memory ran out; then
    /// nothing has changed.
    pub fn reserve(&mut self, count: usize) -> Result<(), NoMemory>
        ensures name { self.new.name ≡ self.old.name }
        ensures left { self.new.left ≡ self.old.left }
        ensures networks { (self.new.networks ≡ self.old.networks) × (self.new.taken_in ≡ self.old.taken_in) }
        ensures room { self.old.spare ≤ self.new.spare }
        ensures ok { OnOk result (count ≤ self.new.spare) }
        ensures err { OnErr result (self.new ≡ self.old) }
    {
        self.left.reserve(count)?;
        Ok(())
    }

    /// For how many frames more there is room (*profile*). It takes no memory.
    pub fn spare(&self) -> usize
        ensures { result ≡ self.now.spare }
    {
        self.left.capacity() - self.left.len()
    }

    /// The same right, by which frames are handed out from now on (*profile*). The list of what left is gone.
    pub fn into_pop_pass(self) -> PopPass
        ensures { result ≡ record {
          name = self.name;
          left = self.left;
          networks = self.networks;
          taken_in = self.taken_in;
        } }
    {
        let RadioPass {
            left: _,
            queue_pass,
        } = self;
        PopPass { queue_pass }
    }

    /// The frames that left, the first of them first (*profile*). It takes no memory.
    pub fn left(&self) -> &[AirItem]
        ensures { result.now ≡ self.now.left }
    {
        self.left.as_slice()
    }
}

/// The radio's right to pop frames, each of which is handed to who pops it (*profile*). Contracts see which queue it
/// is, what left, how many networks were given a pass, and what was taken in of them. It has no bytes: what left
/// stands in proofs alone.
#[derive(Drop)]
pub struct PopPass {
    pub(crate) queue_pass: QueuePass,
}

impl Model for PopPass {
    ghost use Rattle.std.specs.Prelude.{◌≡◌, []};
    ghost use Rattle.crossbeam_queue.specs.Passes.{view as known_by};
    ghost use Rattle.air_queue.specs.Passes.{PopPassView, pop_pass_code};
    ghost use Rattle.air_queue.specs.Rule.{IsRadio, left_of, networks_of, taken_in_of};

    ghost Value = { PopPassView };

    ghost coded = { pop_pass_code };

    ghost view = { λ p. record {
      name = p.queue_pass.table_id;
      left = left_of (known_by p.queue_pass);
      networks = networks_of (known_by p.queue_pass);
      taken_in = taken_in_of (known_by p.queue_pass);
    } };

    ghost invariant = { λ p. (p.queue_pass.me.1 ≡ []) × IsRadio (known_by p.queue_pass) };
}
