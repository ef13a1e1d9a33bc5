//! The first frame of a list that is looked for, and whether one is there.

ghost use Rattle.std.specs.Prelude.{◌≡◌, IfSome, IfNone};
ghost use Rattle.std.specs.List.{list_any};
ghost use Rattle.downlink.specs.Receiver.{takes_way, has_ticket, answers_poll, is_unit_sent};
ghost use Rattle.downlink.specs.Places.{IsFirst, IsNowhere};

use crate::frame::{Frame, Sent};

/// The place of the first frame that goes, or of the first that leaves without going.
pub(crate) fn place_of(frames: &[Frame], goes: bool) -> Option<usize>
    ensures found { IfSome result (IsFirst (takes_way goes) frames.now) }
    ensures none { IfNone result (IsNowhere (takes_way goes) frames.now) }
{
    for (place, frame) in frames.iter().enumerate() {
        if frame.goes() == goes {
            return Some(place);
        }
    }
    None
}

/// The place of the first frame with a ticket.
pub(crate) fn place_of_ticket(sent: &[Sent], ticket: u64) -> Option<usize>
    ensures found { IfSome result (IsFirst (has_ticket ticket) sent.now) }
    ensures none { IfNone result (IsNowhere (has_ticket ticket) sent.now) }
{
    for (place, one) in sent.iter().enumerate() {
        if one.frame.ticket == ticket {
            return Some(place);
        }
    }
    None
}

/// Whether a unit is among these frames that answers a poll.
pub(crate) fn any_answers_poll(frames: &[Frame]) -> bool
    ensures { result ≡ list_any answers_poll frames.now }
{
    frames.iter().any(|frame| frame.answers_poll())
}

/// Whether a unit is among these frames that went.
pub(crate) fn any_unit(sent: &[Sent]) -> bool
    ensures { result ≡ list_any is_unit_sent sent.now }
{
    sent.iter().any(|one| one.frame.is_unit)
}
