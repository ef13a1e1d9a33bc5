//! Disassociation and deauthentication (IEEE Std 802.11-2016, 9.3.3.5 and 9.3.3.13): what the body of one says, and the
//! notice by which a network ends what a station had with it.

ghost use Rattle.std.specs.Prelude.{◌≡◌, ◌++◌, ◌<◌, OnOk, OnErr};
ghost use Rattle.association.specs.Leaving.{reason_of, notice_frame};

use crate::management::{number_at, write_frame};
use mac_frame::{DEAUTHENTICATION, DISASSOCIATION, MacAddr, NoMemory, Octets, Unread};
use station_state::Notice;

/// The octets of a Reason Code (9.4.1.7).
const REASON_LEN: usize = 2;

/// The reason of a disassociation or a deauthentication with this body (9.4.1.7), any number. What follows it is
/// ignored. [`Unread::Body`] below two octets.
pub fn read_reason(body: &[u8]) -> Result<u16, Unread>
    ensures { result ≡ reason_of body.now }
{
    if body.len() < REASON_LEN {
        return Err(Unread::Body);
    }
    Ok(number_at(body, 0))
}

/// Appends the whole frame of a notice to the station `to`, from the network `bss`: a deauthentication or a
/// disassociation with its reason (9.3.3.5, 9.3.3.13). The sequence number `seq` is below 4096. After `NoMemory` `out`
/// is as it was.
pub fn write_notice(
    out: &mut Octets,
    to: MacAddr,
    bss: MacAddr,
    seq: u16,
    notice: Notice,
) -> Result<(), NoMemory>
    requires { seq < 4096 }
    ensures ok { OnOk result (out.new ≡ out.old ++ notice_frame to bss seq notice) }
    ensures err { OnErr result (out.new ≡ out.old) }
{
    let (subtype, reason) = match notice {
        Notice::Deauthenticate(reason) => (DEAUTHENTICATION, reason),
        Notice::Disassociate(reason) => (DISASSOCIATION, reason),
    };
    write_frame(out, subtype, to, bss, seq, &reason.to_le_bytes())
}
