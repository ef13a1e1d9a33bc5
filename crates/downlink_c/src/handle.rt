//! The handle by which a caller in another language keeps a radio.

ghost use Rattle.std.specs.Prelude.{Bool};
ghost use Rattle.downlink.specs.Radios.{Radio};

use std::marker::Model;

/// Where a radio is kept: memory of the caller's, which holds a radio while `is_made` says so, and else nothing. A
/// caller writes the pointer once, and from then on neither that nor the memory.
#[repr(C)]
pub struct RadioHandle {
    pub(crate) at: *mut u8,
    pub ghost is_made: { Bool },
    pub ghost radio: { Radio },
}

impl Model for RadioHandle {
    ghost use Rattle.downlink_c.specs.Owned.{radio_owns};

    ghost also_owns = { λ h. radio_owns h.is_made h.at h.radio };
}
