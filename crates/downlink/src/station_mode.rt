//! How a station is, as far as its units on their way to the air go by it.

ghost use Rattle.std.specs.Prelude.{◌≡◌};
ghost use Rattle.downlink.specs.Receiver.{is_asleep};

/// How a station is (11.2.1). It is taken to doze from the frame by which it says so (Power Management, 9.2.4.1.7).
#[derive(Clone, Copy, Debug, PartialEq, Eq)]
pub enum StationMode {
    /// It isn't associated.
    Absent,
    /// It is associated and awake.
    Awake,
    /// It dozes, and answers to what came before may still be on their way.
    FallsAsleep,
    /// It dozes, and all was answered that came before.
    Dozing,
}

impl StationMode {
    /// Whether it dozes.
    pub fn is_asleep(&self) -> bool
        ensures { result ≡ is_asleep self.now }
    {
        matches!(self, StationMode::FallsAsleep | StationMode::Dozing)
    }
}
