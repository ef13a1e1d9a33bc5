//! Some of the frames that a network sent.

ghost use Rattle.std.specs.Prelude.{◌≡◌, ◌≤◌, ◌<◌, ◌^◌, [], length, map, take, drop, sum};
ghost use Rattle.networks.specs.SentFrames.{cut_by};

use networks::SentFrames;
use std::marker::Model;

/// Frames of a [`SentFrames`] that stand one after another in it. Contracts see a list of octet strings.
#[derive(Debug, Drop)]
pub struct FrameSlice<'a> {
    lengths: &'a [usize],
    octets: &'a [u8],
}

impl<'a> Model for FrameSlice<'a> {
    ghost use Rattle.std.specs.Prelude.{◌≡◌, ℕ, List, length, sum};
    ghost use Rattle.networks.specs.SentFrames.{cut_by};

    ghost Value = { List (List ℕ) };

    ghost view = { λ f. cut_by f.lengths.now f.octets.now };

    ghost invariant = { λ f. sum f.lengths.now ≡ length f.octets.now };
}

impl<'a> FrameSlice<'a> {
    /// All frames that were sent.
    pub fn of(frames: &'a SentFrames) -> FrameSlice<'a>
        ensures { result ≡ frames.now }
    {
        let (lengths, octets) = frames.parts();
        FrameSlice { lengths, octets }
    }

    /// No frame.
    pub fn none() -> FrameSlice<'a>
        ensures { result ≡ [] }
    {
        FrameSlice {
            lengths: &[],
            octets: &[],
        }
    }

    /// The length of each frame, the first of them first.
    #[inline]
    pub fn lengths(&self) -> &'a [usize]
        ensures { result.now ≡ map length self.now }
    {
        self.lengths
    }

    /// The first frames, as many as `count` says, and the others.
    pub fn split_at(&self, count: usize) -> (FrameSlice<'a>, FrameSlice<'a>)
        requires { count ≤ length self.now }
        ensures front { result.0 ≡ take count self.now }
        ensures back { result.1 ≡ drop count self.now }
    {
        let (lengths, later) = self.lengths.split_at(count);
        let (octets, others) = self.octets.split_at(total(lengths));
        (
            FrameSlice { lengths, octets },
            FrameSlice {
                lengths: later,
                octets: others,
            },
        )
    }

    /// The octets of the frames, one after another, each frame as long as the list says.
    #[inline]
    pub(crate) fn parts(&self) -> (&'a [usize], &'a [u8])
        ensures frames { cut_by result.0.now result.1.now ≡ self.now }
        ensures whole { sum result.0.now ≡ length result.1.now }
    {
        (self.lengths, self.octets)
    }
}

/// How many octets frames of these lengths have together.
fn total(lengths: &[usize]) -> usize
    requires { sum lengths.now < 2 ^ 64 }
    ensures { result ≡ sum lengths.now }
{
    lengths.iter().sum()
}
