//! What a network announces, and the fields that its beacons and probe responses share (IEEE Std 802.11-2016, 9.3.3.3
//! and 9.3.3.11).

ghost use Rattle.std.specs.Prelude.{◌≡◌, ◌++◌, ◌≤◌, length, take, OnOk, OnErr};
ghost use Rattle.beacon.specs.Advert.{announced, timestamp, fixed_fields, network_elements};

use elements::{DSSS_PARAMETER_SET, SSID, write_element, write_supported_rates};
use mac_frame::{CAPABILITY, MacAddr, NoMemory, Octets};

/// The microseconds of a time unit (3.1).
const TIME_UNIT: u64 = 1024;

/// How many octets the fields before the elements have.
pub(crate) const FIXED_FIELDS_LEN: usize = 12;

/// A network at one moment, as its beacons and probe responses announce it.
#[derive(Clone, Copy, Debug)]
pub struct Advert<'a> {
    /// The BSSID.
    pub bss: MacAddr,
    /// The SSID, at most 32 octets (9.4.2.2).
    pub ssid: &'a [u8],
    /// The rates in units of 500 kb/s, bit 7 set for a basic rate; 1 to 16 of them (9.4.2.3).
    pub rates: &'a [u8],
    /// The channel (9.4.2.4).
    pub channel: u8,
    /// The beacon interval in time units of 1024 microseconds (9.4.1.3).
    pub interval: u16,
    /// How many beacon intervals have begun since the network was made (*profile*).
    pub clock: u32,
    /// The sequence number of the frame, below 4096 (9.2.4.4.2).
    pub seq: u16,
}

/// The fields before the elements: Timestamp, Beacon Interval and Capability Information.
#[tactic(auto, unfolding(crate::specs::Advert::fixed_fields))]
#[inline(always)]
pub(crate) fn fixed_fields(advert: &Advert<'_>) -> [u8; FIXED_FIELDS_LEN]
    ensures { result ≡ fixed_fields (announced advert.now) }
{
    let [a, b, c, d, e, f, g, h] = timestamp(advert.clock, advert.interval);
    let [low, high] = advert.interval.to_le_bytes();
    let [first, second] = CAPABILITY.to_le_bytes();
    [a, b, c, d, e, f, g, h, low, high, first, second]
}

/// Timestamp (9.4.1.10): the beginning of the beacon interval, in microseconds (*profile*).
#[tactic(auto, unfolding(crate::specs::Advert::timestamp))]
fn timestamp(clock: u32, interval: u16) -> [u8; 8]
    ensures { result ≡ timestamp clock interval }
{
    (u64::from(clock) * u64::from(interval) * TIME_UNIT).to_le_bytes()
}

/// Appends the elements that stand first: SSID, Supported Rates and DSSS Parameter Set. After `NoMemory` some may
/// follow what was there.
#[tactic(auto, unfolding(crate::specs::Advert::network_elements))]
#[inline(always)]
pub(crate) fn append_network_elements(out: &mut Octets, advert: &Advert<'_>) -> Result<(), NoMemory>
    requires { length advert.now.ssid.now ≤ 32 }
    ensures ok { OnOk result (out.new ≡ out.old ++ network_elements (announced advert.now)) }
    ensures err { OnErr result (take (length out.old) out.new ≡ out.old) }
{
    write_element(out, SSID, advert.ssid)?;
    write_supported_rates(out, advert.rates)?;
    write_element(out, DSSS_PARAMETER_SET, &[advert.channel])
}
