//! What may happen to a radio, one step at a time.

use events::Event;

/// One step of a radio. It names a network by its place in the configuration, from 0.
#[derive(Debug, Drop)]
pub enum Step {
    /// The network takes the event.
    Take {
        /// The network's place.
        place: usize,
        /// What happened to it.
        event: Event,
    },
    /// The network's first waiting frame goes to the end of the air queue.
    Hand {
        /// The network's place.
        place: usize,
    },
    /// The first frame of the air queue leaves.
    Leave,
}
