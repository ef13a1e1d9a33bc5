//! The same unit on the air and on the wire (IEEE Std 802.11-2016, 5.1.4; RFC 1042).

ghost use Rattle.std.specs.Prelude.{◌≡◌, ◌+◌, ◌++◌, ◌<◌, ◌≤◌, List, ℕ, false, length, take, slice_index};
ghost use Rattle.std.specs.Prelude.{option_map, is_some, Ok, Some, IfOk, OnOk, OnErr, MatchOption};
ghost use Rattle.std.specs.Int.{w16, to_be_bytes};
ghost use Rattle.encapsulation.specs.Ethernet.{Ethernet, ethernet_of, shown};
ghost use Rattle.encapsulation.specs.Encapsulation.{rfc1042_header, on_air, names_type, number_and_payload, on_wire, Carries};

use crate::ethernet::{Ether, HEADER_LEN, Kind, MAX_LENGTH, MIN_LENGTH, MIN_TYPE};
use mac_frame::{MAX_BODY_LEN, MacAddr, NoMemory, Octets};

/// How many octets the RFC 1042 header has: the LLC header, of three, and the organization code of the SNAP header.
const RFC1042_HEADER_LEN: usize = 6;

/// The RFC 1042 header of a unit that names a type: both service access points AA, unnumbered information (03), and the
/// organization code 00-00-00. The type follows it.
const RFC1042_HEADER: [u8; RFC1042_HEADER_LEN] = [0xaa, 0xaa, 0x03, 0x00, 0x00, 0x00];

/// How many octets stand before the payload in a unit that names a type: the RFC 1042 header, and the type of two
/// octets.
pub const TYPED_HEADER_LEN: usize = RFC1042_HEADER_LEN + 2;

/// Appends the body of the 802.11 frame that carries an Ethernet frame: the RFC 1042 header, the type and the payload
/// if it names a type, and else the payload alone, whatever its length is (RFC 1042). After `NoMemory` `out` is as
/// it was.
pub fn to_air(out: &mut Octets, ether: &Ether<'_>) -> Result<(), NoMemory>
    ensures ok { OnOk result (out.new ≡ out.old ++ on_air (shown ether.now)) }
    ensures err { OnErr result (out.new ≡ out.old) }
{
    match ether.kind {
        Kind::Typed(number) => out.append_both(&typed_header(number), ether.payload),
        Kind::Sized => out.append(ether.payload),
    }
}

/// Appends the Ethernet frame from `source` to `to` that carries a body of an 802.11 frame, and answers true. A body
/// that begins with the RFC 1042 header and a type of at least 0x0600 gives a frame that names the type. Any other of 3
/// to 1500 octets gives one that names its length. Any other has no wired form: then the answer is false, and `out` is
/// as it was (RFC 1042; which bodies have none is *profile*). After `NoMemory` `out` is as it was.
pub fn to_wire(
    out: &mut Octets,
    to: MacAddr,
    source: MacAddr,
    body: &[u8],
) -> Result<bool, NoMemory>
    ensures answer { IfOk result (λ written. written ≡ is_some (on_wire to source body.now)) }
    ensures ok { OnOk result (MatchOption (on_wire to source body.now)
        (out.new ≡ out.old)
        (λ octets. out.new ≡ out.old ++ octets)) }
    ensures err { OnErr result (out.new ≡ out.old) }
{
    let Some((number, payload)) = number_and_payload(body) else {
        return Ok(false);
    };
    out.append_both(&ethernet_header(to, source, number), payload)?;
    Ok(true)
}

/// The RFC 1042 header with a type.
fn typed_header(number: u16) -> [u8; TYPED_HEADER_LEN]
    ensures { result ≡ rfc1042_header ++ to_be_bytes w16 number }
{
    let [a, b, c, d, e, f] = RFC1042_HEADER;
    let [high, low] = number.to_be_bytes();
    [a, b, c, d, e, f, high, low]
}

/// The type or length, and the payload, of the Ethernet frame that carries a body, if there is one.
fn number_and_payload(body: &[u8]) -> Option<(u16, &[u8])>
    ensures { option_map (λ parts. (parts.0, parts.1.now)) result ≡ number_and_payload body.now }
{
    if let Some([high, low, payload @ ..]) = body.strip_prefix(&RFC1042_HEADER) {
        let number = u16::from_be_bytes([*high, *low]);
        if number >= MIN_TYPE {
            return Some((number, payload));
        }
    }
    let number = u16::try_from(body.len()).ok()?;
    if number < MIN_LENGTH || number > MAX_LENGTH {
        return None;
    }
    Some((number, body))
}

/// The header of an Ethernet frame: destination, source, and the Length/Type field.
fn ethernet_header(to: MacAddr, source: MacAddr, number: u16) -> [u8; HEADER_LEN]
    ensures { result ≡ to ++ source ++ to_be_bytes w16 number }
{
    let [a, b, c, d, e, f] = to.octets();
    let [g, h, i, j, k, l] = source.octets();
    let [high, low] = number.to_be_bytes();
    [a, b, c, d, e, f, g, h, i, j, k, l, high, low]
}

/// A frame that was read comes back from the air: as it was if it names a type, and without its padding if it
/// names its length, unless its payload begins as a body that names a type does (RFC 1042).
pub fn frame_comes_back()
    ensures typed { (y : List ℕ) (w : Ethernet) (type : ℕ) → ((place : ℕ) → slice_index y place < 256)
        → ethernet_of y ≡ Ok w → w.kind ≡ Kind.Typed type → on_wire w.to w.source (on_air w) ≡ Some y }
    ensures sized { (y : List ℕ) (w : Ethernet) → ((place : ℕ) → slice_index y place < 256)
        → ethernet_of y ≡ Ok w → w.kind ≡ Kind.Sized → names_type w.payload ≡ false
        → on_wire w.to w.source (on_air w) ≡ Some (take (14 + length w.payload) y) }
{}

/// What carries a body, of at most 2304 octets (IEEE Std 802.11-2016, 9.2.4.7.1), on the wire between two addresses of
/// six octets is an Ethernet frame between the same, whose body on the air is the same (RFC 1042).
pub fn body_comes_back()
    ensures { (y to source body : List ℕ) → length to ≡ 6 → length source ≡ 6
        → ((place : ℕ) → slice_index body place < 256) → length body ≤ MAX_BODY_LEN
        → on_wire to source body ≡ Some y → Carries y to source body }
{}
