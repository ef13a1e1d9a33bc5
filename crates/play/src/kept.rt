//! What a play keeps of the events of a network: who gave each of them.

use network::Network;
use networks::SentFrames;

/// Who gave an event to a network, and by which line.
#[derive(Clone, Copy, Debug)]
pub(crate) struct Given {
    /// The number of the source, from 0.
    pub(crate) source: usize,
    /// The number of the line in its source, from 0.
    pub(crate) line: usize,
}

/// A network that was played, none of whose frames waits: with those that it sent on the wire, and with who gave each event
/// that it took, where that is kept.
#[derive(Drop)]
pub(crate) struct PlayedNetwork {
    pub(crate) network: Network,
    pub(crate) wire: SentFrames,
    pub(crate) given: Vec<Given>,
}
