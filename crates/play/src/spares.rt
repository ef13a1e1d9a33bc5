//! The memory of frames that left, in which a source's thread has further frames built.

use mac_frame::Octets;
use network::{Frames, Sent, Spare};
use std::alloc::Global;

/// How many frames' memory a source keeps at most. What it has more of is given back.
const MOST_FRAMES: usize = 1024;

/// The memory of frames that left. Nothing is promised of it but that it is memory.
#[derive(Drop)]
pub(crate) struct Spares {
    alloc: Global,
    frames: Vec<Octets>,
    /// That in which the next frame is built.
    pub(crate) next: Spare,
}

impl Spares {
    /// No memory.
    pub(crate) fn new(alloc: Global) -> Spares {
        Spares {
            alloc,
            frames: Vec::new(alloc),
            next: Spare::new(alloc),
        }
    }

    /// Keeps the memory of a frame that left.
    #[inline]
    pub(crate) fn keep(&mut self, frame: Octets) {
        if self.frames.len() < MOST_FRAMES && self.frames.reserve(1).is_ok() {
            self.frames.push_reserved(frame);
        }
    }

    /// Has memory ready for the next frame, if there is any, after one was built.
    #[inline]
    pub(crate) fn refill(&mut self) {
        if let Some(frame) = self.frames.pop() {
            self.next.keep(Sent {
                air: Frames::one(self.alloc, frame),
                wire: None,
            });
        }
    }
}
