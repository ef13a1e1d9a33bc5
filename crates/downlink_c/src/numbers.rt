//! Calls and answers of a radio as numbers.

ghost use Rattle.std.specs.Prelude.{◌≡◌};
ghost use Rattle.downlink_c.specs.Numbers.{fate_number, frame_told, chosen_told, change_of};

use downlink::{Fate, NetworkAnswer, StationChange};

/// What became of a frame.
#[repr(C)]
#[derive(Clone, Copy, Debug, PartialEq, Eq)]
pub struct FrameTold {
    /// Whether something became of one. If not, the others are 0.
    pub is_told: bool,
    /// What: it goes, goes again, was acknowledged, waits again, is lost, is handed back, was late, crowded out, its
    /// station left, or its caller gave it up, from 0 on.
    pub fate: u8,
    pub network: usize,
    pub receiver: usize,
    pub ticket: u64,
}

/// What a frame that comes is told.
#[repr(C)]
#[derive(Clone, Copy, Debug, PartialEq, Eq)]
pub struct Taken {
    /// Whether there is such a receiver.
    pub is_there: bool,
    /// Whether there was memory too, and the frame is taken.
    pub is_taken: bool,
    /// What became of an older one.
    pub told: FrameTold,
}

/// Whose turn it is.
#[repr(C)]
#[derive(Clone, Copy, Debug, PartialEq, Eq)]
pub struct Chosen {
    /// Whether it is that of a network.
    pub is_there: bool,
    /// The network's place, or 0 where there is none.
    pub network: usize,
}

/// What a network more is told.
#[repr(C)]
#[derive(Clone, Copy, Debug, PartialEq, Eq)]
pub struct Added {
    /// Whether its weight is allowed.
    pub is_allowed: bool,
    /// Whether there was memory too, and the network is there.
    pub is_added: bool,
}

/// What the change of a station is told.
#[repr(C)]
#[derive(Clone, Copy, Debug, PartialEq, Eq)]
pub struct Changed {
    /// Whether the number is that of a change.
    pub is_known: bool,
    /// Whether there is such a receiver.
    pub is_there: bool,
}

/// Nothing became of any frame.
pub(crate) const NOTHING: FrameTold = FrameTold {
    is_told: false,
    fate: 0,
    network: 0,
    receiver: 0,
    ticket: 0,
};

/// What became of a frame, as numbers.
pub(crate) fn frame_told(answer: Option<NetworkAnswer>) -> FrameTold
    ensures { result ≡ frame_told answer }
{
    match answer {
        Some(told) => FrameTold {
            is_told: true,
            fate: fate_number(told.answer.answer.fate),
            network: told.network,
            receiver: told.answer.receiver,
            ticket: told.answer.answer.frame.ticket,
        },
        None => NOTHING,
    }
}

/// Whose turn it is, as a number.
pub(crate) fn chosen_told(turn: Option<usize>) -> Chosen
    ensures { result ≡ chosen_told turn }
{
    match turn {
        Some(network) => Chosen {
            is_there: true,
            network,
        },
        None => Chosen {
            is_there: false,
            network: 0,
        },
    }
}

/// The number of a fate.
fn fate_number(fate: Fate) -> u8
    ensures { result ≡ fate_number fate }
{
    match fate {
        Fate::Goes => 0,
        Fate::GoesAgain => 1,
        Fate::Acknowledged => 2,
        Fate::WaitsAgain => 3,
        Fate::Lost => 4,
        Fate::HandedBack => 5,
        Fate::Late => 6,
        Fate::Crowded => 7,
        Fate::Left => 8,
        Fate::GivenUp => 9,
    }
}

/// The change of a number, if it is that of one.
pub(crate) fn change_of(number: u8, until: u64) -> Option<StationChange>
    ensures { result ≡ change_of number until }
{
    match number {
        0 => Some(StationChange::Joins),
        1 => Some(StationChange::Leaves),
        2 => Some(StationChange::Dozes),
        3 => Some(StationChange::Settles),
        4 => Some(StationChange::Wakes),
        5 => Some(StationChange::Polls { until }),
        _ => None,
    }
}
