//! What a station does, as far as its frames on their way to the air go by it.

/// What a station does (11.2.3, 11.3).
#[derive(Clone, Copy, Debug, PartialEq, Eq)]
pub enum StationChange {
    /// It is associated, and awake.
    Joins,
    /// It isn't associated any more.
    Leaves,
    /// It says that it dozes.
    Dozes,
    /// All was answered that came before it said that it dozes.
    Settles,
    /// It says that it is awake.
    Wakes,
    /// It polls, and is answered until this time.
    Polls { until: u64 },
}
