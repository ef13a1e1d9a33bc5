//! Which play it is, for proofs alone.

use std::marker::Brand;

/// Names one play. The call of a function that is generic in it picks which, from the [`crate::parts::Parts`] that it
/// hands on. It has no code, and no value of it is made.
pub trait PlayName {
    ghost use Rattle.play.specs.Plays.{PlayView};

    ghost play: { PlayView };
}

/// What such a call passes, so that its proof picks the name. Where it picks none, the name is nobody's.
impl PlayName for Brand {
    ghost use Rattle.play.specs.Plays.{no_play};

    ghost play = { no_play };
}
