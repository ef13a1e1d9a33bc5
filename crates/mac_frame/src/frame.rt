//! Frames heard on the air (IEEE Std 802.11-2016, 9.2.3 and 9.3): which strings of octets are which frame.

ghost use Rattle.std.specs.Prelude.{◌≡◌, Ok, Err, IsOkAnd, IfOk, IfSome, MatchResult};
ghost use Rattle.mac_frame.specs.Address.{broadcast};
ghost use Rattle.mac_frame.specs.Frame.{Frame, IsFrame, shown, frame_of};

use crate::address::MacAddr;
use crate::data::{data_of, is_data_read};
use crate::frame_control::FrameType;
use crate::header::{CONTROL_HEADER_LEN, HEADER_LEN, control_at};
use crate::management::{is_management_read, management_of};
use crate::ps_poll::{is_ps_poll_read, ps_poll_of};

/// A frame that was heard from a station. Its body is a part of the string that it was read from.
#[derive(Clone, Copy, Debug)]
pub enum Rx<'a> {
    /// A management frame (9.3.3).
    Mgmt {
        /// Which management frame it is, a number below 16 (9.2.4.1.3).
        subtype: u8,
        /// Address 2, the station that sent it.
        from: MacAddr,
        /// Whether Address 1 is the broadcast address.
        to_all: bool,
        /// What follows the header.
        body: &'a [u8],
    },
    /// A Data frame (9.3.2.1), with a unit that the network is to pass on.
    Msdu {
        /// Address 2, the station that sent it.
        from: MacAddr,
        /// Power Management: whether the station dozes from now on (9.2.4.1.7).
        doze: bool,
        /// Address 3, for whom the unit is.
        to: MacAddr,
        /// What follows the header.
        body: &'a [u8],
    },
    /// A Null frame (9.3.2.1), which tells the mode of its station alone.
    Null {
        /// Address 2, the station that sent it.
        from: MacAddr,
        /// Power Management: whether the station dozes from now on (9.2.4.1.7).
        doze: bool,
    },
    /// A PS-Poll frame (9.3.1.5).
    Poll {
        /// Its transmitter, the station that sent it.
        from: MacAddr,
        /// The identifier that it names, below 16384 (9.4.1.8).
        aid: u16,
    },
}

/// Why a string of octets is not read: the first of these, in the order of [`Unread::Short`] to
/// [`Unread::Address`], then [`Unread::TooLong`], then [`Unread::Body`] (*profile*).
#[derive(Clone, Copy, Debug, PartialEq, Eq)]
pub enum Unread {
    /// U1: it has fewer octets than a header.
    Short,
    /// U2: the protocol version isn't 0 (9.2.4.1.2).
    Version,
    /// U3: it is not of a kind that is read.
    Kind,
    /// U4: it is a fragment, protected, or has an HT Control field (9.2.4.1).
    Flags,
    /// U5: To DS and From DS are not those of its kind (9.2.4.1.4).
    Direction,
    /// U6: its addresses are not those of a frame from a station to this network.
    Address,
    /// U7: the body has not the fields and elements of its kind.
    Body,
    /// U8: more than 2304 octets follow the header (9.2.4.7.1).
    TooLong,
}

/// The frame that a string of octets is for the network `bss` (9.2.3, 9.3), or its first fault. The faults are all but
/// [`Unread::Body`], in the order of [`Unread`] (*profile*). It takes no memory.
pub fn decode(bss: MacAddr, frame: &[u8]) -> Result<Rx<'_>, Unread>
    // What is read is this frame; what is this frame is read.
    ensures frame { IfOk result (λ rx. IsFrame bss frame.now (shown rx)) }
    ensures only { (f : Frame) → IsFrame bss frame.now f → IsOkAnd result (λ rx. shown rx ≡ f) }
    // Which fault it is.
    ensures fault { MatchResult result
        (λ rx. frame_of bss frame.now ≡ Ok (shown rx))
        (λ fault. frame_of bss frame.now ≡ Err fault) }
{
    if frame.len() < CONTROL_HEADER_LEN {
        return Err(Unread::Short);
    }
    let control = control_at(frame);
    if frame.len() < HEADER_LEN && control.kind != FrameType::Control {
        return Err(Unread::Short);
    }
    if control.version != 0 {
        return Err(Unread::Version);
    }
    if is_management_read(control) {
        management_of(bss, control, frame)
    } else if is_data_read(control) {
        data_of(bss, control, frame)
    } else if is_ps_poll_read(control) {
        ps_poll_of(bss, control, frame)
    } else {
        Err(Unread::Kind)
    }
}

/// The management frame that a string of octets is for a network with the broadcast address, if it is one. That is the
/// wildcard BSSID (9.2.4.3.4). Of a probe request to all stations and for any network it tells what each network
/// reads. It takes no memory.
pub fn decode_broadcast(frame: &[u8]) -> Option<Rx<'_>>
    ensures { IfSome result (λ rx. frame_of broadcast frame.now ≡ Ok (shown rx)) }
{
    if frame.len() < HEADER_LEN {
        return None;
    }
    let control = control_at(frame);
    if control.version != 0 || !is_management_read(control) {
        return None;
    }
    match management_of(MacAddr::BROADCAST, control, frame) {
        Ok(rx) => Some(rx),
        Err(_) => None,
    }
}
