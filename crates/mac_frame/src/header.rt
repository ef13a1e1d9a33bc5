//! Headers (IEEE Std 802.11-2016, 9.2.3): where the fields of one stand, what is read of them, and one that is sent.
//!
//! No other file of the code knows where a field stands that more than one kind of frame has.

ghost use Rattle.std.specs.Prelude.{◌≡◌, ◌+◌, ◌++◌, ◌<◌, ◌≤◌, length, take, drop, OnOk, OnErr};
ghost use Rattle.std.specs.Option.{SomeIff};
ghost use Rattle.mac_frame.specs.Header.{control_at, address_at, addressed_to, fragment_at, is_refused};
ghost use Rattle.mac_frame.specs.Header.{is_from_station, is_to_network, is_too_long, header};

use crate::address::MacAddr;
use crate::frame_control::{FrameControl, bits};
use crate::memory::NoMemory;
use crate::octet_string::Octets;

/// How many octets the header has of a management frame (9.3.3.2) and of a data frame with three addresses (9.3.2.1).
pub const HEADER_LEN: usize = 24;

/// How many octets the header has of the control frame that is read (9.3.1.5).
pub const CONTROL_HEADER_LEN: usize = 16;

/// How many octets follow a header at most (9.2.4.7.1).
pub const MAX_BODY_LEN: usize = 2304;

/// How many octets an address has (9.2.4.3.2).
pub const ADDRESS_LEN: usize = 6;

/// Where Frame Control stands (9.2.3).
const FRAME_CONTROL: usize = 0;

/// Where Address 1 stands, after Frame Control and Duration.
const ADDRESS_1: usize = 4;

/// Where Address 2 stands.
const ADDRESS_2: usize = ADDRESS_1 + ADDRESS_LEN;

/// Where Address 3 stands.
const ADDRESS_3: usize = ADDRESS_2 + ADDRESS_LEN;

/// Where Sequence Control stands.
const SEQUENCE_CONTROL: usize = ADDRESS_3 + ADDRESS_LEN;

/// Frame Control at the beginning of a frame of at least two octets.
pub fn control_at(frame: &[u8]) -> FrameControl
    requires { 2 ≤ length frame.now }
    ensures { result ≡ control_at frame.now }
{
    FrameControl::from_octets([frame[FRAME_CONTROL], frame[FRAME_CONTROL + 1]])
}

/// Address 1 of a frame of at least 10 octets: to whom it is sent (9.2.4.3).
pub fn address_1(frame: &[u8]) -> MacAddr
    requires { 10 ≤ length frame.now }
    ensures { result ≡ address_at frame.now 4 }
{
    address_at(frame, ADDRESS_1)
}

/// Address 2 of a frame of at least 16 octets: who sends it (9.2.4.3).
pub fn address_2(frame: &[u8]) -> MacAddr
    requires { 16 ≤ length frame.now }
    ensures { result ≡ address_at frame.now 10 }
{
    address_at(frame, ADDRESS_2)
}

/// Address 3 of a frame with a header of 24 octets, which means another thing in each kind of frame (9.2.4.3).
pub fn address_3(frame: &[u8]) -> MacAddr
    requires { HEADER_LEN ≤ length frame.now }
    ensures { result ≡ address_at frame.now 16 }
{
    address_at(frame, ADDRESS_3)
}

/// The six octets of a string from a place on, counted from 0, as an address (9.2.4.3.2). The string has that many from
/// there.
pub fn address_at(octets: &[u8], place: usize) -> MacAddr
    requires { place + ADDRESS_LEN ≤ length octets.now }
    ensures { result ≡ address_at octets.now place }
{
    MacAddr::new([
        octets[place],
        octets[place + 1],
        octets[place + 2],
        octets[place + 3],
        octets[place + 4],
        octets[place + 5],
    ])
}

/// The fragment number of a frame with a header of 24 octets (9.2.4.4.3).
fn fragment_at(frame: &[u8]) -> u16
    requires { HEADER_LEN ≤ length frame.now }
    ensures { result ≡ fragment_at frame.now }
{
    let sequence_control = [frame[SEQUENCE_CONTROL], frame[SEQUENCE_CONTROL + 1]];
    bits(u16::from_le_bytes(sequence_control), 0, 4)
}

/// Whether a frame with a header of 24 octets is a fragment, protected, or has an HT Control field (9.2.4.1,
/// 9.2.4.4.3).
pub fn is_refused(control: FrameControl, frame: &[u8]) -> bool
    requires long { HEADER_LEN ≤ length frame.now }
    requires control { control ≡ control_at frame.now }
    ensures { result ≡ is_refused frame.now }
{
    control.has_refused_flags() || fragment_at(frame) != 0
}

/// Whether Address 2 may be that of a station of the network `bss`: it is neither a group address nor `bss`.
pub fn is_from_station(bss: MacAddr, frame: &[u8]) -> bool
    requires { 16 ≤ length frame.now }
    ensures { result ≡ is_from_station bss frame.now }
{
    let transmitter = address_2(frame);
    !(transmitter.is_group() || transmitter == bss)
}

/// Whether Address 1 is that of the network `bss`.
pub fn is_to_network(bss: MacAddr, frame: &[u8]) -> bool
    requires { 10 ≤ length frame.now }
    ensures { result ≡ is_to_network bss frame.now }
{
    address_1(frame) == bss
}

/// Whether more octets follow the header of 24 octets than a frame has (9.2.4.7.1).
pub fn is_too_long(frame: &[u8]) -> bool
    requires { HEADER_LEN ≤ length frame.now }
    ensures { result ≡ is_too_long frame.now }
{
    body_of(frame).len() > MAX_BODY_LEN
}

/// What follows the header of a frame of at least 24 octets (9.2.3).
pub fn body_of(frame: &[u8]) -> &[u8]
    requires { HEADER_LEN ≤ length frame.now }
    ensures { result.now ≡ drop 24 frame.now }
{
    &frame[HEADER_LEN..]
}

/// Address 1 of a string of octets, octets 4 to 9: to whom it was sent (9.2.3). `None` below 10 octets.
pub fn addressed(frame: &[u8]) -> Option<MacAddr>
    ensures { SomeIff result (10 ≤ length frame.now) (addressed_to frame.now) }
{
    if frame.len() < ADDRESS_1 + ADDRESS_LEN {
        return None;
    }
    Some(address_at(frame, ADDRESS_1))
}

/// Appends a header (9.2.3): Frame Control, the three addresses, fragment number 0 and a sequence number.
/// After `NoMemory` `out` is as it was.
#[inline(always)]
pub fn append_header(
    out: &mut Octets,
    control: FrameControl,
    address_1: MacAddr,
    address_2: MacAddr,
    address_3: MacAddr,
    seq: u16,
) -> Result<(), NoMemory>
    requires version { control.version < 4 }
    requires subtype { control.subtype < 16 }
    requires seq { seq < 4096 }
    ensures ok { OnOk result (out.new ≡ out.old ++ header control address_1 address_2 address_3 seq) }
    ensures err { OnErr result (out.new ≡ out.old) }
{
    let mut header = [0; HEADER_LEN];
    put(&mut header, FRAME_CONTROL, &control.to_octets());
    put(&mut header, ADDRESS_1, &address_1.octets());
    put(&mut header, ADDRESS_2, &address_2.octets());
    put(&mut header, ADDRESS_3, &address_3.octets());
    put(&mut header, SEQUENCE_CONTROL, &(16 * seq).to_le_bytes());
    out.append(&header)
}

/// Writes a field of a header at its place.
#[inline(always)]
fn put(header: &mut [u8; HEADER_LEN], place: usize, field: &[u8])
    requires { place + length field.now ≤ HEADER_LEN }
    ensures { header.new ≡ take place header.old ++ field.now ++ drop (place + length field.now) header.old }
{
    header[place..place + field.len()].copy_from_slice(field);
}
