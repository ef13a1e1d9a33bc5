//! The classes of frames (IEEE Std 802.11-2016, 11.3.3), and what is sent for a frame whose class is not taken.

ghost use Rattle.std.specs.Prelude.{◌≡◌};
ghost use Rattle.station_state.specs.ClassFault.{class_fault};

use crate::Standing;

/// The reason of a notice for a Class 2 frame from a station that is not authenticated (9.4.1.7, Table 9-45).
pub const INVALID_CLASS_2_FRAME: u16 = 6;

/// The reason of a notice for a Class 3 frame from a station that is not associated (9.4.1.7, Table 9-45).
pub const INVALID_CLASS_3_FRAME: u16 = 7;

/// The class of a frame: in which states of its station it is taken (11.3.3).
#[derive(Clone, Copy, Debug, PartialEq, Eq)]
pub enum Class {
    /// In every state.
    One,
    /// From a station that is authenticated, associated or not.
    Two,
    /// From a station that is associated.
    Three,
}

/// A notice that a network sends to a station of its own accord, with its reason code (9.4.1.7, Table 9-45).
#[derive(Clone, Copy, Debug, PartialEq, Eq)]
pub enum Notice {
    /// The station is no longer authenticated (9.3.3.13).
    Deauthenticate(u16),
    /// The station is no longer associated (9.3.3.5).
    Disassociate(u16),
}

/// The notice that answers a frame of this class from a station in this state (11.3.3). `None` if the frame is taken.
/// Its reason is 6 for a Class 2 frame and 7 for a Class 3 frame (*profile*).
pub fn fault(standing: Standing, class: Class) -> Option<Notice>
    ensures { result ≡ class_fault standing class }
{
    match (standing, class) {
        (Standing::Unknown, Class::Two) => Some(Notice::Deauthenticate(INVALID_CLASS_2_FRAME)),
        (Standing::Unknown, Class::Three) => Some(Notice::Deauthenticate(INVALID_CLASS_3_FRAME)),
        (Standing::Authenticated, Class::Three) => {
            Some(Notice::Disassociate(INVALID_CLASS_3_FRAME))
        }
        _ => None,
    }
}
