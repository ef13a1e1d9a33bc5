//! Management frames (IEEE Std 802.11-2016, 9.3.3): their subtypes, which of them are read, and the header of one that
//! is sent.

ghost use Rattle.std.specs.Prelude.{◌≡◌, ◌++◌, ◌<◌, ◌≤◌, length, Ok, Err, MatchResult, OnOk, OnErr};
ghost use Rattle.mac_frame.specs.Header.{control_at};
ghost use Rattle.mac_frame.specs.Management.{is_individual_subtype, is_management_read, is_probe_addressed};
ghost use Rattle.mac_frame.specs.Management.{is_individually_addressed, is_management_addressed, management_of};
ghost use Rattle.mac_frame.specs.Management.{management_header};
ghost use Rattle.mac_frame.specs.Rx.{shown};

use crate::address::MacAddr;
use crate::frame::{Rx, Unread};
use crate::frame_control::{FrameControl, FrameType};
use crate::header::{
    HEADER_LEN, address_1, address_2, address_3, append_header, body_of, is_from_station,
    is_refused, is_to_network, is_too_long,
};
use crate::memory::NoMemory;
use crate::octet_string::Octets;

/// The subtype of an association request (9.2.4.1.3).
pub const ASSOCIATION_REQUEST: u8 = 0;

/// The subtype of an association response (9.2.4.1.3).
pub const ASSOCIATION_RESPONSE: u8 = 1;

/// The subtype of a reassociation request (9.2.4.1.3).
pub const REASSOCIATION_REQUEST: u8 = 2;

/// The subtype of a reassociation response (9.2.4.1.3).
pub const REASSOCIATION_RESPONSE: u8 = 3;

/// The subtype of a probe request (9.2.4.1.3).
pub const PROBE_REQUEST: u8 = 4;

/// The subtype of a probe response (9.2.4.1.3).
pub const PROBE_RESPONSE: u8 = 5;

/// The subtype of a beacon (9.2.4.1.3).
pub const BEACON: u8 = 8;

/// The subtype of a disassociation (9.2.4.1.3).
pub const DISASSOCIATION: u8 = 10;

/// The subtype of an authentication (9.2.4.1.3).
pub const AUTHENTICATION: u8 = 11;

/// The subtype of a deauthentication (9.2.4.1.3).
pub const DEAUTHENTICATION: u8 = 12;

/// Capability Information as it is sent: ESS alone (9.4.1.4).
pub const CAPABILITY: u16 = 1;

/// The greatest association identifier (9.4.1.8). The least is 1.
pub const MAX_AID: u16 = 2007;

/// Whether a frame is a management frame of a subtype that is read (9.2.4.1.3).
#[inline(always)]
pub fn is_management_read(control: FrameControl) -> bool
    ensures { result ≡ is_management_read control }
{
    control.kind == FrameType::Management
        && (control.subtype == PROBE_REQUEST || is_individual_subtype(control.subtype))
}

/// Whether a management frame of this subtype is read, and sent by a station to its network alone.
fn is_individual_subtype(subtype: u8) -> bool
    ensures { result ≡ is_individual_subtype subtype }
{
    subtype == ASSOCIATION_REQUEST
        || subtype == REASSOCIATION_REQUEST
        || subtype == DISASSOCIATION
        || subtype == AUTHENTICATION
        || subtype == DEAUTHENTICATION
}

/// The management frame that a string of octets is for the network `bss`, or its first fault after that of its kind
/// (9.3.3.2).
#[inline(always)]
pub fn management_of(bss: MacAddr, control: FrameControl, frame: &[u8]) -> Result<Rx<'_>, Unread>
    requires long { HEADER_LEN ≤ length frame.now }
    requires control { control ≡ control_at frame.now }
    ensures { MatchResult result
        (λ rx. management_of bss frame.now ≡ Ok (shown rx))
        (λ fault. management_of bss frame.now ≡ Err fault) }
{
    if is_refused(control, frame) {
        return Err(Unread::Flags);
    }
    if control.has_direction() {
        return Err(Unread::Direction);
    }
    if !is_from_station(bss, frame) || !is_management_addressed(bss, control.subtype, frame) {
        return Err(Unread::Address);
    }
    if is_too_long(frame) {
        return Err(Unread::TooLong);
    }
    Ok(Rx::Mgmt {
        subtype: control.subtype,
        from: address_2(frame),
        to_all: address_1(frame).is_broadcast(),
        body: body_of(frame),
    })
}

/// Whether Address 1 and Address 3 of a management frame of this subtype are those of a frame for the network `bss`.
#[inline(always)]
fn is_management_addressed(bss: MacAddr, subtype: u8, frame: &[u8]) -> bool
    requires long { HEADER_LEN ≤ length frame.now }
    requires subtype { subtype ≡ (control_at frame.now).subtype }
    ensures { result ≡ is_management_addressed bss frame.now }
{
    if subtype == PROBE_REQUEST {
        is_probe_addressed(bss, frame)
    } else {
        is_individually_addressed(bss, frame)
    }
}

/// Whether a probe request is sent to the network `bss` or to all, and for it or for any (11.1.4.3).
#[inline(always)]
fn is_probe_addressed(bss: MacAddr, frame: &[u8]) -> bool
    requires { HEADER_LEN ≤ length frame.now }
    ensures { result ≡ is_probe_addressed bss frame.now }
{
    let is_bss_or_broadcast = |address: MacAddr| address == bss || address.is_broadcast();
    is_bss_or_broadcast(address_1(frame)) && is_bss_or_broadcast(address_3(frame))
}

/// Whether a frame is sent to the network `bss` alone, and for it (9.3.3.5 to 9.3.3.8, 9.3.3.12, 9.3.3.13).
#[inline(always)]
fn is_individually_addressed(bss: MacAddr, frame: &[u8]) -> bool
    requires { HEADER_LEN ≤ length frame.now }
    ensures { result ≡ is_individually_addressed bss frame.now }
{
    is_to_network(bss, frame) && address_3(frame) == bss
}

/// Appends the header of a management frame (9.3.3.2) from the network `bss` to a receiver. Its subtype is below 16
/// (9.2.4.1.3), its sequence number below 4096 (9.2.4.4.2). After `NoMemory` `out` is as it was.
pub fn write_mgmt(
    out: &mut Octets,
    subtype: u8,
    to: MacAddr,
    bss: MacAddr,
    seq: u16,
) -> Result<(), NoMemory>
    requires subtype { subtype < 16 }
    requires seq { seq < 4096 }
    ensures ok { OnOk result (out.new ≡ out.old ++ management_header subtype to bss seq) }
    ensures err { OnErr result (out.new ≡ out.old) }
{
    let control = FrameControl::plain(FrameType::Management, subtype);
    append_header(out, control, to, bss, bss, seq)
}
