//! Ethernet frames (IEEE Std 802.3, 3.1.1 and 3.2): which strings of octets are which frame.

ghost use Rattle.std.specs.Prelude.{◌≡◌, ◌<◌, ◌≤◌, ◌↔◌, List, ℕ, length, take, Ok, Err, IsOkAnd, IfOk, MatchResult};
ghost use Rattle.encapsulation.specs.Ethernet.{Ethernet, IsEthernet, ethernet_of, shown};

use crate::encapsulation::TYPED_HEADER_LEN;
use mac_frame::{ADDRESS_LEN, MAX_BODY_LEN, MacAddr, Unread, address_at};

/// The least number of the Length/Type field that is a type (IEEE Std 802.3, 3.2.6).
pub const MIN_TYPE: u16 = 0x0600;

/// The least length that is read (*profile*).
pub const MIN_LENGTH: u16 = 3;

/// The greatest number of the Length/Type field that is a length (IEEE Std 802.3, 3.2.6).
pub const MAX_LENGTH: u16 = 1500;

/// Where the destination address stands (IEEE Std 802.3, 3.1.1).
const DESTINATION: usize = 0;

/// Where the source address stands.
const SOURCE: usize = DESTINATION + ADDRESS_LEN;

/// Where the Length/Type field stands, of two octets, the high one first.
const LENGTH_OR_TYPE: usize = SOURCE + ADDRESS_LEN;

/// How many octets stand before the payload: two addresses and the Length/Type field.
pub const HEADER_LEN: usize = LENGTH_OR_TYPE + 2;

/// How many octets the payload of a typed frame has at most: on the air the RFC 1042 header and the type are put before
/// it, and the body of a frame has a limit (IEEE Std 802.11-2016, 9.2.4.7.1).
const MAX_TYPED_LEN: usize = MAX_BODY_LEN - TYPED_HEADER_LEN;

/// What the Length/Type field of a frame says (IEEE Std 802.3, 3.2.6).
#[derive(Clone, Copy, Debug, PartialEq, Eq)]
pub enum Kind {
    /// A type, from 0x0600 on.
    Typed(u16),
    /// The length of the payload, 3 to 1500 (that shorter ones are not read is *profile*).
    Sized,
}

/// An Ethernet frame (IEEE Std 802.3, 3.1.1). Its payload is a part of the string that it was read from.
#[derive(Clone, Copy, Debug)]
pub struct Ether<'a> {
    /// The destination address.
    pub to: MacAddr,
    /// The source address.
    pub source: MacAddr,
    /// What the Length/Type field says.
    pub kind: Kind,
    /// What follows that field, without the padding of a sized frame.
    pub payload: &'a [u8],
}

impl<'a> Ether<'a> {
    /// The Ethernet frame that a string of octets is, or its first fault (IEEE Std 802.3, 3.2; the limits are
    /// *profile*). [`Unread::Short`]: it has fewer than 14 octets. [`Unread::TooLong`]: more than 2296 octets follow a
    /// type. [`Unread::Body`]: fewer octets follow than the length says, or the field is neither a type nor a length of
    /// 3 to 1500. It takes no memory.
    pub fn decode(octets: &'a [u8]) -> Result<Ether<'a>, Unread>
        // What is read is this frame; what is this frame is read.
        ensures frame { IfOk result (λ ether. IsEthernet octets.now (shown ether)) }
        ensures only { (w : Ethernet) → IsEthernet octets.now w → IsOkAnd result (λ ether. shown ether ≡ w) }
        // Which fault it is.
        ensures fault { MatchResult result
            (λ ether. ethernet_of octets.now ≡ Ok (shown ether))
            (λ fault. ethernet_of octets.now ≡ Err fault) }
    {
        if octets.len() < HEADER_LEN {
            return Err(Unread::Short);
        }
        let (header, rest) = octets.split_at(HEADER_LEN);
        let number = u16::from_be_bytes([header[LENGTH_OR_TYPE], header[LENGTH_OR_TYPE + 1]]);
        let (kind, payload) = match number {
            MIN_TYPE.. => (Kind::Typed(number), typed_payload(rest)?),
            MIN_LENGTH..=MAX_LENGTH => (Kind::Sized, sized_payload(rest, usize::from(number))?),
            _ => return Err(Unread::Body),
        };
        Ok(Ether {
            to: address_at(header, DESTINATION),
            source: address_at(header, SOURCE),
            kind,
            payload,
        })
    }
}

/// The payload of a frame that names a type: all that follows.
fn typed_payload(rest: &[u8]) -> Result<&[u8], Unread>
    ensures { MatchResult result
        (λ payload. (payload.now ≡ rest.now) × (length rest.now ≤ MAX_TYPED_LEN))
        (λ fault. (fault ≡ Unread.TooLong) × (MAX_TYPED_LEN < length rest.now)) }
{
    if rest.len() > MAX_TYPED_LEN {
        return Err(Unread::TooLong);
    }
    Ok(rest)
}

/// The payload of a frame that names its length: the first `len` octets of what follows.
fn sized_payload(rest: &[u8], len: usize) -> Result<&[u8], Unread>
    ensures { MatchResult result
        (λ payload. (payload.now ≡ take len rest.now) × (len ≤ length rest.now))
        (λ fault. (fault ≡ Unread.Body) × (length rest.now < len)) }
{
    rest.get(..len).ok_or(Unread::Body)
}

/// A string is at most one Ethernet frame, which is the one that the tests in their order give (IEEE Std 802.3, 3.2).
pub fn one_ethernet_frame()
    ensures reading { (y : List ℕ) (w : Ethernet) → (ethernet_of y ≡ Ok w) ↔ IsEthernet y w }
    ensures unique { (y : List ℕ) (v w : Ethernet) → IsEthernet y v → IsEthernet y w → v ≡ w }
{}
