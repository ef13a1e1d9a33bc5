//! Which access points are opened.

use super::radio;
use ap_config::{ConfigFault, OpenFault};
use std::alloc::Global;
use std::test::Fail;
use workers::Parts;

/// The fault of a channel that is not there.
pub(super) const CHANNEL: ConfigFault = ConfigFault {
    code: 4,
    place: None,
};

/// On a channel, with this number of callers: the configuration's fault comes first.
const ROWS: [(u8, u32, Option<OpenFault>); 5] = [
    (6, 0, Some(OpenFault::Callers)),
    (6, 65, Some(OpenFault::Callers)),
    (6, 1, None),
    (6, 64, None),
    (15, 0, Some(OpenFault::Config(CHANNEL))),
];

/// Why no access point of one network is opened on a channel for this number of callers, if none is.
fn fault(alloc: Global, channel: u8, callers: u32) -> Result<Option<OpenFault>, Fail> {
    let mut config = radio(alloc, 64, &[100])?;
    config.channel = channel;
    Ok(Parts::open(alloc, config, callers).err())
}

#[test]
fn there_are_1_to_64_callers(rt: HostRuntime) -> Result<(), Fail> {
    for (channel, callers, expected) in ROWS {
        assert_eq!(rt;
            fault(rt.alloc(), channel, callers)?,
            expected,
            "{channel} {callers}"
        );
    }
    Ok(())
}
