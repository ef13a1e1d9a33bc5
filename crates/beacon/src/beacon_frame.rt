//! Beacons (IEEE Std 802.11-2016, 9.3.3.3).

ghost use Rattle.std.specs.Prelude.{◌≡◌, ◌++◌, ◌<◌, ◌≤◌, length, take, OnOk, OnErr};
ghost use Rattle.std.specs.FinSet as set;
ghost use Rattle.beacon.specs.Advert.{announced};
ghost use Rattle.beacon.specs.Beacon.{beacon, beacon_body, beacon_tim, dtim_count, traffic_indicator};

use crate::advert::{Advert, FIXED_FIELDS_LEN, append_network_elements, fixed_fields};
use elements::write_extended_rates;
use mac_frame::{BEACON, HEADER_LEN, MacAddr, NoMemory, Octets, write_mgmt};
use tim::{Bitmap, write_tim};

/// The octets of a beacon without its SSID, its rates and its TIM: the header, the fixed fields, the DSSS Parameter Set
/// of 3, and the first two octets of three elements (9.3.3.3).
const FIXED_LEN: usize = HEADER_LEN + FIXED_FIELDS_LEN + 3 + 3 * 2;

/// The octets of a TIM with one octet of the virtual bitmap, the fewest that it has (9.4.2.6).
const LEAST_TIM_LEN: usize = 6;

/// Appends a whole beacon to the broadcast address (9.3.3.3), of a network whose clock is at least 1, with an SSID of
/// at most 32 octets (9.4.2.2), 1 to 16 rates (*profile*) and a sequence number below 4096 (9.2.4.4.2). `period`, at
/// least 1, is the DTIM period: each `period`-th beacon is a DTIM (9.4.2.6). `group` tells whether units for the group
/// are kept, which the TIM of a DTIM alone shows; `bits` has the association identifiers of the stations for which
/// units are kept. After `NoMemory` `out` is as it was.
pub fn write_beacon(
    out: &mut Octets,
    advert: &Advert<'_>,
    period: u8,
    group: bool,
    bits: &Bitmap,
) -> Result<(), NoMemory>
    requires ssid { length advert.now.ssid.now ≤ 32 }
    requires some_rates { 1 ≤ length advert.now.rates.now }
    requires few_rates { length advert.now.rates.now ≤ 16 }
    requires seq { advert.now.seq < 4096 }
    requires clock { 1 ≤ advert.now.clock }
    requires period { 1 ≤ period }
    ensures ok { OnOk result (out.new
        ≡ out.old ++ beacon (announced advert.now) advert.now.seq period group (set.contains bits.now)) }
    ensures err { OnErr result (out.new ≡ out.old) }
{
    let len = out.as_slice().len();
    out.reserve(FIXED_LEN + LEAST_TIM_LEN + advert.ssid.len() + advert.rates.len())?;
    write_mgmt(out, BEACON, MacAddr::BROADCAST, advert.bss, advert.seq)?;
    let written = append_body(out, advert, period, group, bits);
    out.roll_back(len, written)
}

/// Appends the body, field by field. After `NoMemory` some fields may follow what was there.
fn append_body(
    out: &mut Octets,
    advert: &Advert<'_>,
    period: u8,
    group: bool,
    bits: &Bitmap,
) -> Result<(), NoMemory>
    requires ssid { length advert.now.ssid.now ≤ 32 }
    requires few_rates { length advert.now.rates.now ≤ 16 }
    requires clock { 1 ≤ advert.now.clock }
    requires period { 1 ≤ period }
    ensures ok { OnOk result (out.new
        ≡ out.old ++ beacon_body (announced advert.now) period group (set.contains bits.now)) }
    ensures err { OnErr result (take (length out.old) out.new ≡ out.old) }
{
    out.append(&fixed_fields(advert))?;
    append_network_elements(out, advert)?;
    append_tim(out, advert.clock, period, group, bits)?;
    write_extended_rates(out, advert.rates)
}

/// Appends the TIM of the beacon at a clock. After `NoMemory` `out` is as it was.
fn append_tim(
    out: &mut Octets,
    clock: u32,
    period: u8,
    group: bool,
    bits: &Bitmap,
) -> Result<(), NoMemory>
    requires clock { 1 ≤ clock }
    requires period { 1 ≤ period }
    ensures ok { OnOk result (out.new ≡ out.old ++ beacon_tim clock period group (set.contains bits.now)) }
    ensures err { OnErr result (out.new ≡ out.old) }
{
    let count = dtim_count(clock, period);
    write_tim(out, count, period, traffic_indicator(count, group), bits)
}

/// DTIM Count (9.4.2.6): how many beacons come before the next DTIM, 0 in a DTIM. The beacon at clock 1 is one
/// (*profile*). Takes a clock and a period of at least 1, and no memory.
#[tactic(auto, unfolding(crate::specs::Beacon::dtim_count))]
pub fn dtim_count(clock: u32, period: u8) -> u8
    requires clock { 1 ≤ clock }
    requires period { 1 ≤ period }
    ensures count { result ≡ dtim_count clock period }
    ensures below { result < period }
{
    let period = u32::from(period);
    let passed = (clock - 1) % period;
    ((period - passed) % period) as u8
}

/// The Traffic Indicator (9.4.2.6): whether units for the group are kept, and follow this beacon, a DTIM.
fn traffic_indicator(count: u8, group: bool) -> bool
    ensures { result ≡ traffic_indicator count group }
{
    group && count == 0
}
