//! Data frames with three addresses (IEEE Std 802.11-2016, 9.3.2.1): those that a station sends to the access point,
//! and the header of one from it.

ghost use Rattle.std.specs.Prelude.{◌≡◌, ◌++◌, ◌<◌, ◌≤◌, length, Ok, Err, MatchResult, OnOk, OnErr};
ghost use Rattle.mac_frame.specs.Header.{control_at};
ghost use Rattle.mac_frame.specs.Data.{is_data_read, data_of, data_header};
ghost use Rattle.mac_frame.specs.Rx.{shown};

use crate::address::MacAddr;
use crate::frame::{Rx, Unread};
use crate::frame_control::{FrameControl, FrameType};
use crate::header::{
    HEADER_LEN, address_2, address_3, append_header, body_of, is_from_station, is_refused,
    is_to_network, is_too_long,
};
use crate::memory::NoMemory;
use crate::octet_string::Octets;

/// The subtype of a Data frame (9.2.4.1.3).
const DATA_SUBTYPE: u8 = 0;

/// The subtype of a Null frame, which has no data (9.2.4.1.3).
const NULL_SUBTYPE: u8 = 4;

/// Whether a frame is a data frame of a subtype that is read (9.2.4.1.3).
pub fn is_data_read(control: FrameControl) -> bool
    ensures { result ≡ is_data_read control }
{
    control.kind == FrameType::Data
        && (control.subtype == DATA_SUBTYPE || control.subtype == NULL_SUBTYPE)
}

/// The data frame that a string of octets is for the network `bss`, or its first fault after that of its kind
/// (9.3.2.1).
pub fn data_of(bss: MacAddr, control: FrameControl, frame: &[u8]) -> Result<Rx<'_>, Unread>
    requires long { HEADER_LEN ≤ length frame.now }
    requires control { control ≡ control_at frame.now }
    ensures { MatchResult result
        (λ rx. data_of bss frame.now ≡ Ok (shown rx))
        (λ fault. data_of bss frame.now ≡ Err fault) }
{
    if is_refused(control, frame) {
        return Err(Unread::Flags);
    }
    if !control.is_to_ds() {
        return Err(Unread::Direction);
    }
    if !is_from_station(bss, frame) || !is_to_network(bss, frame) {
        return Err(Unread::Address);
    }
    if is_too_long(frame) {
        return Err(Unread::TooLong);
    }
    let from = address_2(frame);
    let doze = control.power_management;
    if control.subtype == DATA_SUBTYPE {
        Ok(Rx::Msdu {
            from,
            doze,
            to: address_3(frame),
            body: body_of(frame),
        })
    } else {
        Ok(Rx::Null { from, doze })
    }
}

/// Appends the header of a Data frame (9.3.2.1) from the network `bss` to a receiver, with the address of the station
/// that the unit comes from and a sequence number below 4096 (9.2.4.4.2). `more` says that more is kept for the
/// receiver (More Data, 9.2.4.1.8). After `NoMemory` `out` is as it was.
pub fn write_msdu(
    out: &mut Octets,
    to: MacAddr,
    bss: MacAddr,
    source: MacAddr,
    seq: u16,
    more: bool,
) -> Result<(), NoMemory>
    requires { seq < 4096 }
    ensures ok { OnOk result (out.new ≡ out.old ++ data_header to bss source seq more) }
    ensures err { OnErr result (out.new ≡ out.old) }
{
    let control = FrameControl {
        from_ds: true,
        more_data: more,
        ..FrameControl::plain(FrameType::Data, DATA_SUBTYPE)
    };
    append_header(out, control, to, bss, source, seq)
}
