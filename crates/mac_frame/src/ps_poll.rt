//! PS-Poll frames (IEEE Std 802.11-2016, 9.3.1.5), with which a station in power save mode asks for what is kept for
//! it.

ghost use Rattle.std.specs.Prelude.{◌≡◌, ◌≤◌, length, Ok, Err, MatchResult};
ghost use Rattle.mac_frame.specs.Header.{control_at};
ghost use Rattle.mac_frame.specs.PsPoll.{is_ps_poll_read, aid_at, ps_poll_of};
ghost use Rattle.mac_frame.specs.Rx.{shown};

use crate::address::MacAddr;
use crate::frame::{Rx, Unread};
use crate::frame_control::{FrameControl, FrameType, bits};
use crate::header::{CONTROL_HEADER_LEN, address_2, is_from_station, is_to_network};

/// The subtype of a PS-Poll frame (9.2.4.1.3).
const PS_POLL: u8 = 10;

/// Where the AID stands, after Frame Control (9.3.1.5). BSSID and transmitter stand where Address 1 and Address 2 do.
const AID: usize = 2;

/// How many bits of an AID field hold the identifier, the lowest (9.4.1.8).
const AID_WIDTH: u32 = 14;

/// The two high bits of an AID field, which stand above the identifier (9.4.1.8).
pub const AID_HIGH_BITS: u16 = 0b11 << AID_WIDTH;

/// Whether a frame is a PS-Poll frame (9.2.4.1.3).
pub fn is_ps_poll_read(control: FrameControl) -> bool
    ensures { result ≡ is_ps_poll_read control }
{
    control.kind == FrameType::Control && control.subtype == PS_POLL
}

/// The PS-Poll frame that a string of octets is for the network `bss`, or its first fault after that of its kind
/// (9.3.1.5). What follows its header is ignored (*profile*).
pub fn ps_poll_of(bss: MacAddr, control: FrameControl, frame: &[u8]) -> Result<Rx<'_>, Unread>
    requires long { CONTROL_HEADER_LEN ≤ length frame.now }
    requires control { control ≡ control_at frame.now }
    ensures { MatchResult result
        (λ rx. ps_poll_of bss frame.now ≡ Ok (shown rx))
        (λ fault. ps_poll_of bss frame.now ≡ Err fault) }
{
    if control.has_refused_flags() {
        return Err(Unread::Flags);
    }
    if control.has_direction() {
        return Err(Unread::Direction);
    }
    if !is_from_station(bss, frame) || !is_to_network(bss, frame) {
        return Err(Unread::Address);
    }
    Ok(Rx::Poll {
        from: address_2(frame),
        aid: aid_at(frame),
    })
}

/// The identifier that a PS-Poll frame names: the low 14 bits of its field, whatever the two high ones are (*profile*).
fn aid_at(frame: &[u8]) -> u16
    requires { CONTROL_HEADER_LEN ≤ length frame.now }
    ensures { result ≡ aid_at frame.now }
{
    bits(
        u16::from_le_bytes([frame[AID], frame[AID + 1]]),
        0,
        AID_WIDTH,
    )
}
