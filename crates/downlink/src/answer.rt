//! What a call answers of a frame.

ghost use Rattle.std.specs.Prelude.{◌≡◌};
ghost use Rattle.downlink.specs.Receiver.{is_sending};

use crate::frame::Frame;

/// What became of a frame.
#[derive(Clone, Copy, Debug, PartialEq, Eq)]
pub struct Answer {
    pub frame: Frame,
    pub fate: Fate,
}

/// What may become of a frame.
#[derive(Clone, Copy, Debug, PartialEq, Eq)]
pub enum Fate {
    /// It goes, for the first time.
    Goes,
    /// It goes once more.
    GoesAgain,
    /// Its receiver acknowledged it.
    Acknowledged,
    /// Nobody acknowledged it, and it waits to go once more.
    WaitsAgain,
    /// Nobody acknowledged it, and it is lost.
    Lost,
    /// It goes back to the program, since its station dozes.
    HandedBack,
    /// It is dropped: it waited as long as it was worth sending.
    Late,
    /// It is dropped: too many younger ones wait for its receiver.
    Crowded,
    /// It is dropped: its station left.
    Left,
    /// It is dropped: its caller gave it up.
    GivenUp,
}

impl Fate {
    /// Whether the frame goes, for the first time or once more.
    pub fn is_sending(&self) -> bool
        ensures { result ≡ is_sending self.now }
    {
        matches!(self, Fate::Goes | Fate::GoesAgain)
    }
}
