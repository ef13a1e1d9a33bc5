//! Frames that no one here made: what the definitions say of them.
//!
//! Unmodified Linux stations, hosts and hostapd sent them in the guest of `tools/guest`, and `tools/guest/record-frames`
//! recorded them. Each stands in `specs/` as hexadecimal digits, with the kernel and the tools that made it, and beside it
//! what a network makes of it. The laws say that the definitions of the crates below give just that.
//!
//! Nothing here runs. What the definitions mean is left to those crates.
#![tactic(auto)]

ghost use Rattle.std.specs.Prelude.{false, [], ◌∷◌, take, drop};
ghost use Rattle.std.specs.List.{AllByRecursion};
ghost use Rattle.tim.specs.Tim.{ShowsTim};
ghost use Rattle.recorded_frames.specs.Crossed.{CrossesToAir, CrossesToWire, IsEthernetSo, StaysWhole};
ghost use Rattle.recorded_frames.specs.Heard.{IsReadSo};
ghost use Rattle.recorded_frames.specs.Hostapd.{beacon_that_tells_of_more, of_hostapd};
ghost use Rattle.recorded_frames.specs.Linux61.{of_linux_6_1};
ghost use Rattle.recorded_frames.specs.Linux612.{of_linux_6_12};
ghost use Rattle.recorded_frames.specs.Sent.{AgreesBut, these};
ghost use Rattle.recorded_frames.specs.Wires.{appletalk_to_wire, to_air, to_wire, wired};

use tim::one_tim;

/// Each frame of a Linux station is heard or not, and is this request for a network, or has this first fault.
pub fn stations_are_read()
    ensures older { AllByRecursion IsReadSo of_linux_6_1 }
    ensures newer { AllByRecursion IsReadSo of_linux_6_12 }
{}

/// Each frame of a wire is this Ethernet frame.
pub fn wires_are_read()
    ensures { AllByRecursion IsEthernetSo wired }
{}

/// Each unit that hostapd's kernel carried between air and wire has the same form by the definitions, but for Duration.
/// Only a unit with the header of IEEE Std 802.1H has not: the kernel puts its type on the wire, and here it stays
/// whole (*profile*).
pub fn units_cross()
    ensures from_stations { AllByRecursion CrossesToWire to_wire }
    ensures from_hosts { AllByRecursion CrossesToAir to_air }
    ensures another_header { StaysWhole appletalk_to_wire }
{}

/// Each frame of hostapd is that of the definitions, but for the fields and elements that are named beside it.
pub fn hostapd_agrees()
    ensures { AllByRecursion AgreesBut of_hostapd }
{}

/// The TIM of a beacon of hostapd, the six octets at place 56, shows the identifiers 16 and 17, of which each was one of a
/// station that dozed.
pub fn tim_is_shown()
    ensures { ShowsTim (take 6 (drop 56 beacon_that_tells_of_more.octets)) 0 2 false (these (16 ∷ 17 ∷ [])) }
{
    one_tim();
}
