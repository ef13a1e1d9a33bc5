//! The memory of a frame that is done with.

ghost use Rattle.std.specs.Prelude.{◌≡◌, []};

use crate::network::Sent;
use mac_frame::Octets;
use std::alloc::Global;
use std::marker::Model;
use std::mem;

/// The memory of one frame that was sent, in which the next may be built, or none (*profile*). Contracts see nothing of
/// it.
#[derive(Debug, Drop)]
pub struct Spare {
    octets: Octets,
}

impl Model for Spare {
    ghost Value = { Unit {0} };

    ghost view = { λ _. tt };
}

impl Spare {
    /// No memory.
    pub fn new(alloc: Global) -> Spare {
        Spare {
            octets: Octets::new(alloc),
        }
    }

    /// Lets go what was sent, and keeps of it the memory of one frame: the first on the air, or that on the wire
    /// (*profile*).
    #[inline(always)]
    pub fn keep(&mut self, sent: Sent) {
        let Sent { air, wire } = sent;
        if let Some(frame) = air.into_first().or(wire) {
            self.octets = frame;
        }
    }

    /// No octets, to build a frame of, in this memory, which is gone from here then.
    #[inline(always)]
    pub(crate) fn blank(&mut self, alloc: Global) -> Octets
        ensures { result ≡ [] }
    {
        let mut frame = mem::replace(&mut self.octets, Octets::new(alloc));
        frame.truncate(0);
        frame
    }
}
