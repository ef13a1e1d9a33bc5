//! How a radio comes into a caller's memory, is reached there, and is taken out again.

ghost use Rattle.std.specs.Prelude.{◌≡◌, true, false};
ghost use Rattle.std.specs.Borrow.{sem};
ghost use Rattle.downlink_c.specs.Holding.{LendsRadio};

use crate::handle::RadioHandle;
use downlink::RadioQueue;

/// The memory holds this radio from now on.
pub(crate) fn put(handle: &mut RadioHandle, radio: RadioQueue)
    requires { handle.old.is_made ≡ false }
    ensures { handle.new ≡ record handle.old { is_made = true; radio = radio } }
{
    unsafe { (handle.at as *mut RadioQueue).write(radio) }
}

/// The radio that the memory held, and holds no more.
pub(crate) fn take(handle: &mut RadioHandle) -> RadioQueue
    requires { handle.old.is_made ≡ true }
    ensures { (result ≡ handle.old.radio) × (handle.new ≡ record handle.old { is_made = false }) }
{
    unsafe { (handle.at as *mut RadioQueue).read() }
}

/// The radio that the memory holds.
pub(crate) fn lend(handle: &mut RadioHandle) -> &mut RadioQueue
    requires { handle.old.is_made ≡ true }
    ensures* writes_back { sem 𝓛 (LendsRadio handle.entry result) }
    ensures radio { result.now ≡ handle.old.radio }
{
    unsafe { &mut *(handle.at as *mut RadioQueue) }
}
