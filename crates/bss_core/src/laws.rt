//! No network of a radio can touch another, as it follows from the definitions.

ghost use Rattle.std.specs.Prelude.{◌≡◌, ℕ, List, slice_get};
ghost use Rattle.ap_config.specs.declared.config.RadioConfig.{RadioConfig};
ghost use Rattle.events.specs.Items.{items_of};
ghost use Rattle.bss_core.specs.declared.radio.step.Step.{Step};
ghost use Rattle.bss_core.specs.Radio.{after_steps, sections_after};
ghost use Rattle.bss_core.specs.Worlds.{AreAlike, AreCutFromOne};

use events::own_frames;
use network::sent_frames;

/// No network of a radio can touch another. Take any two radios, whatever happens to them, and a network of each. If
/// both networks have the same configuration, channel and interval and take the same events, their sections are the
/// same. Of the frames that left, one list then begins with the other.
pub fn two_worlds()
    ensures sections { (c d : RadioConfig) (steps others : List Step) (p q : ℕ) → AreAlike c d steps others p q →
        slice_get (sections_after c steps) p ≡ slice_get (sections_after d others) q }
    ensures left { (c d : RadioConfig) (steps others : List Step) (p q : ℕ) → AreAlike c d steps others p q →
        AreCutFromOne (items_of p (after_steps c steps).left) (items_of q (after_steps d others).left) }
{
    // the frames of one network among those of several, and those that it sends
    own_frames();
    sent_frames();
}
