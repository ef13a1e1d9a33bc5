//! Probe requests (IEEE Std 802.11-2016, 9.3.3.10): what the body of one says. The answer, a probe response, is written
//! by the crate `beacon`.

ghost use Rattle.std.specs.Prelude.{◌≡◌, option_map, Ok, Err, MatchResult};
ghost use Rattle.association.specs.Probe.{probe_of};

use elements::{Elements, SSID};
use mac_frame::Unread;

/// The SSID that the body of a probe request names, if it names one (9.3.3.10, 9.4.2.2): of any length, empty for the
/// wildcard SSID. [`Unread::Body`] if the body is no list of elements. It takes no memory.
#[inline(always)]
pub fn read_probe(body: &[u8]) -> Result<Option<&[u8]>, Unread>
    ensures { MatchResult result
        (λ ssid. probe_of body.now ≡ Ok (option_map (λ s. s.now) ssid))
        (λ fault. probe_of body.now ≡ Err fault) }
{
    let elements = Elements::new(body).map_err(|_| Unread::Body)?;
    Ok(elements.first(SSID))
}
