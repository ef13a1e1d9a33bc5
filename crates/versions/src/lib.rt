//! What networks did under earlier versions of the configuration, and that they do so still (*profile*).
//!
//! One definition and one law to know first: `FirstVersion` says what a network of the first version does, once more and
//! by itself, and [`first_version`] that a network of today does the same if it has none of the options that came
//! later. That definition is never changed, since later versions are measured by it.
//!
//! Nothing here runs. What a network does is `network`'s, what a text of either version means `trace`'s.
#![tactic(auto)]

ghost use Rattle.std.specs.Prelude.{◌≡◌, true, false, List, length};
ghost use Rattle.ap_config.specs.declared.setting.Setting.{Setting};
ghost use Rattle.events.specs.declared.event.Event.{Event};
ghost use Rattle.network.specs.Network.{alone, table_of, counts_of};
ghost use Rattle.versions.specs.FirstVersion as first;
ghost use Rattle.versions.specs.Versions.{first_setting};

use network::nothing_ages;

/// If a network relays and no unit ages, its frames on the air and on the wire, its table and its counts are those
/// of a network of the first version, whose definition knows neither option (*profile*).
pub fn first_version()
    ensures air { (s : Setting) (es : List Event) → s.network.relay ≡ true → s.network.aging ≡ false
        → (alone s es).air ≡ (first.alone (first_setting s) es).air }
    ensures wire { (s : Setting) (es : List Event) → s.network.relay ≡ true → s.network.aging ≡ false
        → (alone s es).wire ≡ (first.alone (first_setting s) es).wire }
    ensures table { (s : Setting) (es : List Event) → s.network.relay ≡ true → s.network.aging ≡ false
        → table_of (alone s es) ≡ first.table_of (first.alone (first_setting s) es) }
    ensures counts { (s : Setting) (es : List Event) → s.network.relay ≡ true → s.network.aging ≡ false
        → counts_of (length es) (alone s es) ≡ first.counts_of (length es) (first.alone (first_setting s) es) }
{
    nothing_ages();
}
