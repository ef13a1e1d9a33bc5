//! Frames of several networks on their way out.

use mac_frame::Octets;

/// A frame that a network handed to the air queue.
#[derive(Debug, Drop)]
pub struct AirItem {
    /// The network's place in the configuration, from 0.
    pub place: usize,
    /// The frame.
    pub octets: Octets,
}

/// What became of a network's first waiting frame.
#[derive(Clone, Copy, Debug, PartialEq, Eq)]
pub enum Handed {
    /// It is the last frame of the air queue now.
    Moved,
    /// No frame of the network waits.
    Nothing,
    /// The air queue is full, and the frame goes on waiting.
    QueueFull,
}
