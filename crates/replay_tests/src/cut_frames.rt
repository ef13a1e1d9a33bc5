//! Frames that end early. A radio gives one that ends before its receiver's address to no network, so no run shows what
//! a network reads in it.

use fixtures::{PROBE_REQUEST, lab, octets};
use mac_frame::{MacAddr, Unread, decode};
use std::test::Fail;

#[test]
fn a_frame_that_ends_in_its_header_is_too_short(rt: HostRuntime) -> Result<(), Fail> {
    for (text, header_len) in [
        (PROBE_REQUEST, 24),
        (lab::AUTHENTICATION_REQUEST, 24),
        (lab::PS_POLL, 16),
    ] {
        let frame = octets(rt.alloc(), text)?;
        for len in 0..header_len {
            let part = frame.as_slice().get(..len).ok_or("a frame is shorter")?;
            let read = decode(MacAddr::new(lab::BSSID), part);
            assert!(rt; matches!(read, Err(Unread::Short)));
        }
    }
    Ok(())
}
