//! Addresses (IEEE Std 802.11-2016, 9.2.4.3).

ghost use Rattle.std.specs.Prelude.{◌≡◌, ℕ, ◌+◌, ◌*◌, ◌<◌, ◌↔◌, List, length, IsTrue, Some, IfSome};
ghost use Rattle.mac_frame.specs.Address.{IsAddress, broadcast, is_group, is_parted, octet_at, address_of};
ghost use Rattle.mac_frame.specs.Address.{address_text, octet_text, first_number, last_number};
ghost use Rattle.hex.specs.Hex.{hex_digit_value};

use std::fmt;
use std::marker::Model;

/// The address of a station, or of a network, its BSSID (9.2.4.3). Contracts see it as its six octets.
#[derive(Clone, Copy, Debug, PartialEq, Eq, PartialOrd, Ord, Hash)]
pub struct MacAddr {
    octets: [u8; 6],
}

impl Model for MacAddr {
    ghost Value = { List ℕ };

    ghost view = { λ a. a.octets };

    ghost inverse = { λ o. record { octets = o } };
}

impl MacAddr {
    /// The broadcast address, which is all stations' and the wildcard BSSID (9.2.4.3).
    pub const BROADCAST: MacAddr = MacAddr { octets: [0xff; 6] };

    /// The address of six octets, the first of them sent first (9.2.4.3.2).
    pub fn new(octets: [u8; 6]) -> MacAddr
        ensures { result ≡ octets }
    {
        MacAddr { octets }
    }

    /// Its six octets, each below 256.
    pub fn octets(self) -> [u8; 6]
        ensures value { result ≡ self }
        ensures address { IsAddress self }
    {
        self.octets
    }

    /// Whether it is a group address: bit 0 of its first octet is 1 (9.2.2).
    pub fn is_group(self) -> bool
        ensures { result ≡ is_group self }
    {
        self.octets[0] % 2 == 1
    }

    /// Whether it is the broadcast address (9.2.4.3.4).
    #[inline(always)]
    pub fn is_broadcast(self) -> bool
        ensures { IsTrue result ↔ (self ≡ broadcast) }
    {
        self.parts() == MacAddr::BROADCAST.parts()
    }

    /// Its first four octets and its last two, each as one number, the first of them the lowest: a load each, so that two
    /// addresses are compared, or one is hashed, in a few steps.
    #[inline(always)]
    pub fn parts(self) -> (u32, u16)
        ensures first { result.0 ≡ first_number self }
        ensures last { result.1 ≡ last_number self }
    {
        let [a, b, c, d, e, f] = self.octets;
        (u32::from_le_bytes([a, b, c, d]), u16::from_le_bytes([e, f]))
    }

    /// The address that a text spells: six pairs of hexadecimal digits of either case with `:` between
    /// (*profile*). `None` for any other text.
    pub fn parse_text(text: &str) -> Option<MacAddr>
        ensures { result ≡ address_of text.now }
    {
        let text = text.as_bytes();
        if !is_parted(text) {
            return None;
        }
        Some(MacAddr::new([
            octet_at(text, 0)?,
            octet_at(text, 1)?,
            octet_at(text, 2)?,
            octet_at(text, 3)?,
            octet_at(text, 4)?,
            octet_at(text, 5)?,
        ]))
    }
}

/// Whether a text has the length of an address, with `:` between its pairs.
fn is_parted(text: &[u8]) -> bool
    ensures { result ≡ is_parted text.now }
{
    text.len() == 17
        && text[2] == b':'
        && text[5] == b':'
        && text[8] == b':'
        && text[11] == b':'
        && text[14] == b':'
}

/// The octet that the pair of digits at a place spells.
fn octet_at(text: &[u8], place: usize) -> Option<u8>
    requires { 3 * place + 1 < length text.now }
    ensures { result ≡ octet_at text.now place }
{
    let high = digit(text[3 * place])?;
    let low = digit(text[3 * place + 1])?;
    Some(16 * high + low)
}

/// The value of a hexadecimal digit.
fn digit(character: u8) -> Option<u8>
    ensures value { result ≡ hex_digit_value character }
    ensures small { IfSome result (λ value. value < 16) }
{
    match character {
        b'0'..=b'9' => Some(character - b'0'),
        b'a'..=b'f' => Some(character - b'a' + 10),
        b'A'..=b'F' => Some(character - b'A' + 10),
        _ => None,
    }
}

/// An octet, shown as two hexadecimal digits in lower case.
#[derive(Clone, Copy)]
struct OctetText(u8);

impl fmt::Display for OctetText {
    ghost output = { λ o. Some (octet_text o.0) };

    #[tactic(auto, using(std::proofs::lemmas::Fmt::hex_byte))]
    fn fmt<W: fmt::Write>(&self, f: &mut fmt::Formatter<W>) -> fmt::Result {
        let OctetText(octet) = *self;
        write!(f, "{octet:02x}")
    }
}

/// The octets in lower case, as in `02:aa:00:00:00:01`.
impl fmt::Display for MacAddr {
    ghost output = { λ a. Some (address_text a) };

    fn fmt<W: fmt::Write>(&self, f: &mut fmt::Formatter<W>) -> fmt::Result {
        let [a, b, c, d, e, g] = self.octets();
        write!(
            f,
            "{}:{}:{}:{}:{}:{}",
            OctetText(a),
            OctetText(b),
            OctetText(c),
            OctetText(d),
            OctetText(e),
            OctetText(g)
        )
    }
}
