//! Frames that are kept.

ghost use Rattle.std.specs.Prelude.{◌≡◌, ◌++◌, ◌∷◌, [], OnOk, OnErr, length, option_to_list, option_map, sum};
ghost use Rattle.networks.specs.SentFrames.{cut_by};

use mac_frame::{NoMemory, Octets};
use std::alloc::Global;
use std::marker::Model;

/// Frames in order. Contracts see a list of octet strings. Their octets stand one after another in one piece of memory,
/// with their lengths beside it, so that no frame takes memory of its own that would be given back frame by frame.
#[derive(Drop)]
pub struct SentFrames {
    octets: Vec<u8>,
    lengths: Vec<usize>,
}

impl Model for SentFrames {
    ghost use Rattle.std.specs.Prelude.{◌≡◌, ℕ, List, length, sum};
    ghost use Rattle.networks.specs.SentFrames.{cut_by};

    ghost Value = { List (List ℕ) };

    ghost view = { λ l. cut_by l.lengths.items l.octets.items };

    ghost invariant = { λ l. sum l.lengths.items ≡ length l.octets.items };
}

impl SentFrames {
    /// No frame. It takes no memory.
    pub fn new(alloc: Global) -> SentFrames
        ensures { result ≡ [] }
    {
        SentFrames {
            octets: Vec::new(alloc),
            lengths: Vec::new(alloc),
        }
    }

    /// Adds a frame after the others. After `NoMemory` the frames are as they were.
    pub fn push(&mut self, frame: &[u8]) -> Result<(), NoMemory>
        ensures ok { OnOk result (self.new ≡ self.old ++ frame.now ∷ []) }
        ensures err { OnErr result (self.new ≡ self.old) }
    {
        self.lengths.reserve(1)?;
        self.octets.extend_from_slice(frame)?;
        // All that may be refused is done.
        self.lengths.push_reserved(frame.len());
        Ok(())
    }

    /// Adds a frame after the others, if there is one.
    pub fn push_if(&mut self, frame: Option<&Octets>) -> Result<(), NoMemory>
        ensures { OnOk result (self.new
            ≡ self.old ++ option_to_list (option_map (λ octets. octets.now) frame.entry)) }
    {
        match frame {
            Some(octets) => self.push(octets.as_slice()),
            None => Ok(()),
        }
    }

    /// Adds frames after the others, in their order.
    pub fn push_all(&mut self, frames: &[Octets]) -> Result<(), NoMemory>
        ensures { OnOk result (self.new ≡ self.old ++ frames.now) }
    {
        for frame in frames {
            self.push(frame.as_slice())?;
        }
        Ok(())
    }

    /// The length of each frame, the first of them first, and the octets of all of them, one after another.
    #[inline]
    pub fn parts(&self) -> (&[usize], &[u8])
        ensures frames { cut_by result.0.now result.1.now ≡ self.now }
        ensures whole { sum result.0.now ≡ length result.1.now }
    {
        (self.lengths.as_slice(), self.octets.as_slice())
    }
}
