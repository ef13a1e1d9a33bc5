//! Probe responses (IEEE Std 802.11-2016, 9.3.3.11).

ghost use Rattle.std.specs.Prelude.{◌≡◌, ◌++◌, ◌<◌, ◌≤◌, length, take, OnOk, OnErr};
ghost use Rattle.beacon.specs.Advert.{announced};
ghost use Rattle.beacon.specs.ProbeResponse.{probe_response, probe_response_body, response_elements};

use crate::advert::{Advert, FIXED_FIELDS_LEN, fixed_fields};
use crate::response_elements::ResponseElements;
use mac_frame::{HEADER_LEN, MacAddr, NoMemory, Octets, PROBE_RESPONSE, write_mgmt};

/// Appends a whole probe response to the station `to` (9.3.3.11), of a network with an SSID of at most 32 octets
/// (9.4.2.2), 1 to 16 rates (*profile*) and a sequence number below 4096 (9.2.4.4.2), at any clock. After `NoMemory`
/// `out` is as it was.
pub fn write_probe_response(
    out: &mut Octets,
    advert: &Advert<'_>,
    to: MacAddr,
) -> Result<(), NoMemory>
    requires ssid { length advert.now.ssid.now ≤ 32 }
    requires some_rates { 1 ≤ length advert.now.rates.now }
    requires few_rates { length advert.now.rates.now ≤ 16 }
    requires seq { advert.now.seq < 4096 }
    ensures ok { OnOk result (out.new ≡ out.old ++ probe_response (announced advert.now) to advert.now.seq) }
    ensures err { OnErr result (out.new ≡ out.old) }
{
    write_response_with(out, advert, &ResponseElements::new(advert), to)
}

/// Appends a whole probe response to the station `to` as [`write_probe_response`] does, with the elements of this
/// network, which were put together before. After `NoMemory` `out` is as it was.
#[inline(always)]
pub fn write_response_with(
    out: &mut Octets,
    advert: &Advert<'_>,
    elements: &ResponseElements,
    to: MacAddr,
) -> Result<(), NoMemory>
    requires elements { elements.now ≡ response_elements (announced advert.now) }
    requires seq { advert.now.seq < 4096 }
    ensures ok { OnOk result (out.new ≡ out.old ++ probe_response (announced advert.now) to advert.now.seq) }
    ensures err { OnErr result (out.new ≡ out.old) }
{
    let len = out.as_slice().len();
    out.reserve(HEADER_LEN + FIXED_FIELDS_LEN + elements.as_slice().len())?;
    write_mgmt(out, PROBE_RESPONSE, to, advert.bss, advert.seq)?;
    let written = out.append_both(&fixed_fields(advert), elements.as_slice());
    out.roll_back(len, written)
}
