//! What the management frames of this crate share (IEEE Std 802.11-2016, 9.3.3): the numbers of a body that is read,
//! and a frame that is sent, whole.

ghost use Rattle.std.specs.Prelude.{◌≡◌, ◌+◌, ◌++◌, ◌<◌, ◌≤◌, length, OnOk, OnErr};
ghost use Rattle.association.specs.Management.{number_at, management_frame};

use mac_frame::{HEADER_LEN, MacAddr, NoMemory, Octets, write_mgmt};

/// The number of the two octets at a place of a body, the low octet first (9.2.2). Both stand in the body, and the
/// place is below 65536.
pub fn number_at(body: &[u8], place: usize) -> u16
    requires within { place < 65536 }
    requires fits { place + 2 ≤ length body.now }
    ensures { result ≡ number_at body.now place }
{
    u16::from_le_bytes([body[place], body[place + 1]])
}

/// Appends a management frame of this subtype and body to a receiver, from the network `bss`, with a sequence number.
/// After `NoMemory` `out` is as it was.
pub fn write_frame(
    out: &mut Octets,
    subtype: u8,
    to: MacAddr,
    bss: MacAddr,
    seq: u16,
    body: &[u8],
) -> Result<(), NoMemory>
    requires subtype { subtype < 16 }
    requires seq { seq < 4096 }
    requires body { length body.now ≤ 2304 }
    ensures ok { OnOk result (out.new ≡ out.old ++ management_frame subtype to bss seq body.now) }
    ensures err { OnErr result (out.new ≡ out.old) }
{
    let len = out.as_slice().len();
    out.reserve(HEADER_LEN + body.len())?;
    write_mgmt(out, subtype, to, bss, seq)?;
    let written = out.append(body);
    out.roll_back(len, written)
}
