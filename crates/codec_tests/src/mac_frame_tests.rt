//! What no network looks at: an address as text, and whether a management frame is to all.

use crate::addresses::{NETWORK, STATION};
use mac_frame::{MacAddr, Rx, decode};
use std::test::Fail;

#[test]
fn an_address_is_shown(rt: HostRuntime) -> Result<(), Fail> {
    let address = MacAddr::new(STATION);
    let text = format!(in rt.alloc(); "{address}")?;
    assert_eq!(rt; text.as_str(), "02:aa:00:00:00:01");
    Ok(())
}

/// A probe request.
const PROBE: [u8; 26] = [
    0x40, 0x00, 0x00, 0x00, // Frame Control and Duration
    0xff, 0xff, 0xff, 0xff, 0xff, 0xff, // all
    0x02, 0xaa, 0x00, 0x00, 0x00, 0x01, // the station
    0xff, 0xff, 0xff, 0xff, 0xff, 0xff, // any network
    0x00, 0x00, // sequence number 0
    0x00, 0x00, // an empty SSID
];

#[test]
fn a_probe_request_is_to_all(rt: HostRuntime) {
    let Ok(Rx::Mgmt { to_all, .. }) = decode(MacAddr::new(NETWORK), &PROBE) else {
        panic!(rt; "no management frame");
    };
    assert!(rt; to_all);
}
