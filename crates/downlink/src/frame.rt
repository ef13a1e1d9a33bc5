//! A frame on its way to the air.

ghost use Rattle.std.specs.Prelude.{◌≡◌};
ghost use Rattle.downlink.specs.Receiver.{goes, answers_poll};

/// A frame that came for a receiver. The caller keeps the octets.
#[derive(Clone, Copy, Debug, PartialEq, Eq)]
pub struct Frame {
    /// The caller's name for the frame, and for no other one that is held.
    pub ticket: u64,
    /// Whether it is a unit: an MSDU, which waits while its station dozes (11.2.3). Management frames are none.
    pub is_unit: bool,
    /// After this time it is worth nothing (*profile*). It stays as it was when the frame came.
    pub until: u64,
    /// What is to become of it.
    pub way: Way,
}

/// What is to become of a frame that waits.
#[derive(Clone, Copy, Debug, PartialEq, Eq)]
pub enum Way {
    /// It goes in its turn.
    InTurn,
    /// It goes, and answers a poll (11.2.3.6).
    AnswersPoll,
    /// It goes back to the program, since its station dozes.
    GoesBack,
    /// It is dropped, since its station left.
    IsDropped,
}

impl Frame {
    /// Whether it goes when its turn comes.
    pub fn goes(&self) -> bool
        ensures { result ≡ goes self.now }
    {
        match self.way {
            Way::InTurn | Way::AnswersPoll => true,
            Way::GoesBack | Way::IsDropped => false,
        }
    }

    /// Whether it is a unit that answers a poll (11.2.3.6).
    pub fn answers_poll(&self) -> bool
        ensures { result ≡ answers_poll self.now }
    {
        self.is_unit && matches!(self.way, Way::AnswersPoll)
    }
}

/// A frame that went, and of which nothing was told yet.
#[derive(Clone, Copy, Debug, PartialEq, Eq)]
pub struct Sent {
    pub frame: Frame,
    /// Whether it went for the second time.
    pub is_again: bool,
}
