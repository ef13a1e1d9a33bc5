//! The frames that left the air queue, network by network.

ghost use Rattle.std.specs.Prelude.{◌≡◌, ◌<◌, ◌∷◌, [], length, map, IfOk, OnOk};
ghost use Rattle.replay.specs.Frames.{none_sent, sends_more};

use events::AirItem;
use mac_frame::{NoMemory, Octets};
use std::alloc::Global;
use std::marker::Model;

/// The frames that left the air queue, for each network by its place, the first of them first. Contracts see it as a
/// list of lists.
#[derive(Debug, Drop)]
pub struct FramesLeft {
    frames: Vec<Vec<Octets>>,
}

impl Model for FramesLeft {
    ghost use Rattle.std.specs.Prelude.{map};
    ghost use Rattle.replay.specs.Frames.{FrameLists};

    ghost Value = { FrameLists };

    ghost view = { λ l. map (λ frames. frames.items) l.frames.items };
}

impl FramesLeft {
    /// No frame of this many networks. `NoMemory` if memory ran out.
    pub fn new(alloc: Global, networks: usize) -> Result<FramesLeft, NoMemory>
        ensures { IfOk result (λ sent. sent ≡ none_sent networks) }
    {
        let mut frames = Vec::new(alloc);
        for _ in 0..networks {
            frames.push(Vec::new(alloc))?;
        }
        Ok(FramesLeft { frames })
    }

    /// A frame of the network at its place left after the others. `NoMemory` if memory ran out.
    pub fn push(&mut self, item: AirItem) -> Result<(), NoMemory>
        requires { item.place < length self.old }
        ensures { OnOk result (self.new ≡ sends_more self.old item.place (item.octets ∷ [])) }
    {
        self.frames[item.place].push(item.octets)?;
        Ok(())
    }

    /// The frames of each network, in order of place.
    pub fn into_vec(self) -> Vec<Vec<Octets>>
        ensures { map (λ frames. frames.items) result.items ≡ self }
    {
        self.frames
    }
}
