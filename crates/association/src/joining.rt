//! Association and reassociation (IEEE Std 802.11-2016, 9.3.3.6 to 9.3.3.9, 11.3.5.3 and 11.3.5.5): what a request
//! says, its status, and its answer.

ghost use Rattle.std.specs.Prelude.{◌≡◌, ◌++◌, ◌<◌, ◌≤◌, length, OnOk, OnErr};
ghost use Rattle.association.specs.Joining.{fixed_length, assoc_of, names_network, has_basic_rates, assoc_status};
ghost use Rattle.association.specs.Joining.{aid_field, association_fields, association_response};

use crate::management::{number_at, write_frame};
use crate::status::{DENIED_NO_MORE_STAS, REFUSED, REFUSED_BASIC_RATES_MISMATCH, SUCCESS};
use elements::{BASIC_RATE, Elements, SSID, write_rates};
use mac_frame::{
    ADDRESS_LEN, AID_HIGH_BITS, ASSOCIATION_RESPONSE, CAPABILITY, HEADER_LEN, MacAddr, NoMemory,
    Octets, REASSOCIATION_RESPONSE, Unread,
};

/// The octets before the elements of an association request: Capability Information and Listen Interval (9.3.3.6).
const ASSOCIATION_LEN: usize = 4;

/// The octets before the elements of a reassociation request: the same, and Current AP Address (9.3.3.8).
const REASSOCIATION_LEN: usize = ASSOCIATION_LEN + ADDRESS_LEN;

/// The octets of an answer beside the rates: the header, fixed fields of 6, and the first two octets of two elements
/// (9.3.3.7).
const LEN_WITHOUT_RATES: usize = HEADER_LEN + 6 + 2 * 2;

/// What the body of a request to associate, or `again` to reassociate, says (9.3.3.6, 9.3.3.8): the listen interval in
/// beacon intervals (9.4.1.6), and the elements. The other fixed fields are ignored. [`Unread::Body`] if there are
/// fewer octets than the fixed fields have, or what follows them is no list of elements. It takes no memory.
pub fn read_assoc(again: bool, body: &[u8]) -> Result<(u16, Elements<'_>), Unread>
    ensures { result ≡ assoc_of again body.now }
{
    let fixed = fixed_len(again);
    if body.len() < fixed {
        return Err(Unread::Body);
    }
    let elements = Elements::new(&body[fixed..]).map_err(|_| Unread::Body)?;
    Ok((number_at(body, 2), elements))
}

/// The octets before the elements of a request to associate, or `again` to reassociate.
fn fixed_len(again: bool) -> usize
    ensures value { result ≡ fixed_length again }
    ensures least { 4 ≤ result }
{
    if again {
        REASSOCIATION_LEN
    } else {
        ASSOCIATION_LEN
    }
}

/// The status of a request to associate or reassociate with these elements (9.4.1.9), by the network's SSID, its rates,
/// as octets of Supported Rates (9.4.2.3), and whether there is room for the station. The first of these that applies,
/// in this order (*profile*): [`REFUSED`] if the elements don't name the SSID, [`REFUSED_BASIC_RATES_MISMATCH`]
/// if they lack a basic rate, [`DENIED_NO_MORE_STAS`] if there is no room, [`SUCCESS`].
pub fn assoc_status(ssid: &[u8], rates: &[u8], room: bool, elements: &Elements<'_>) -> u16
    ensures { result ≡ assoc_status ssid.now rates.now room elements.now }
{
    if !names_network(ssid, elements) {
        REFUSED
    } else if !has_basic_rates(rates, elements) {
        REFUSED_BASIC_RATES_MISMATCH
    } else if !room {
        DENIED_NO_MORE_STAS
    } else {
        SUCCESS
    }
}

/// Whether the elements name the network with this SSID.
fn names_network(ssid: &[u8], elements: &Elements<'_>) -> bool
    ensures { result ≡ names_network ssid.now elements.now }
{
    elements.first(SSID).is_some_and(|named| named == ssid)
}

/// Whether the elements have each basic rate of these.
fn has_basic_rates(rates: &[u8], elements: &Elements<'_>) -> bool
    ensures { result ≡ has_basic_rates rates.now elements.now }
{
    rates
        .iter()
        .all(|rate| *rate < BASIC_RATE || elements.has_rate(*rate))
}

/// Appends the whole answer to a request to associate, or `again` to reassociate, with this status, to the station
/// `to`, from the network `bss` (9.3.3.7, 9.3.3.9). The sequence number `seq` is below 4096. The association identifier
/// `aid`, 0 to 2007, is written with the two high bits set (9.4.1.8) if the status is [`SUCCESS`]; else the AID
/// field is 0 (*profile*). There are 1 to 16 rates, as octets of Supported Rates (9.4.2.3): the first 8 go into that
/// element, the others into Extended Supported Rates (9.4.2.13). After `NoMemory` `out` is as it was.
pub fn write_assoc(
    out: &mut Octets,
    to: MacAddr,
    bss: MacAddr,
    seq: u16,
    again: bool,
    status: u16,
    aid: u16,
    rates: &[u8],
) -> Result<(), NoMemory>
    requires seq { seq < 4096 }
    requires aid { aid ≤ 2007 }
    requires some_rates { 1 ≤ length rates.now }
    requires few_rates { length rates.now ≤ 16 }
    ensures ok { OnOk result (out.new ≡ out.old ++ association_response to bss seq again status aid rates.now) }
    ensures err { OnErr result (out.new ≡ out.old) }
{
    let len = out.as_slice().len();
    let subtype = if again {
        REASSOCIATION_RESPONSE
    } else {
        ASSOCIATION_RESPONSE
    };
    out.reserve(LEN_WITHOUT_RATES + rates.len())?;
    write_frame(out, subtype, to, bss, seq, &fixed_fields(status, aid))?;
    let written = write_rates(out, rates);
    out.roll_back(len, written)
}

/// The fields before the elements: Capability Information, Status Code and AID (9.3.3.7).
fn fixed_fields(status: u16, aid: u16) -> [u8; 6]
    requires { aid ≤ 2007 }
    ensures { result ≡ association_fields status aid }
{
    let [a, b] = CAPABILITY.to_le_bytes();
    let [c, d] = status.to_le_bytes();
    let [e, f] = aid_field(status, aid).to_le_bytes();
    [a, b, c, d, e, f]
}

/// The AID field of an answer with this status (9.4.1.8): 0 if the request is refused (*profile*).
fn aid_field(status: u16, aid: u16) -> u16
    requires { aid ≤ 2007 }
    ensures { result ≡ aid_field status aid }
{
    if status == SUCCESS {
        AID_HIGH_BITS + aid
    } else {
        0
    }
}
