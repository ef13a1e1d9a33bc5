//! What follows from the definitions of a network, for whoever stands on them.

ghost use Rattle.std.specs.Prelude.{◌≡◌, ◌+◌, ◌*◌, ◌++◌, false, ℕ, List, [], ◌∷◌, length, None};
ghost use Rattle.ap_config.specs.Configuration.{network_fault};
ghost use Rattle.ap_config.specs.declared.setting.Setting.{Setting};
ghost use Rattle.events.specs.declared.event.Event.{Event};
ghost use Rattle.network.specs.Network.{Network, alone, empty_network, step, age_units};
ghost use Rattle.network.specs.NetworkView.{sent_before};
ghost use Rattle.network.specs.Sizes.{IsWithinSizes};
ghost use Rattle.network.specs.Sound.{IsSoundNetwork};
ghost use Rattle.network.specs.Returns.{Told, after_told, events_in, returns_in, AreCarried};
ghost use Rattle.network.specs.BssView.{sent_by};

use ap_config::checked_numbers;
use encapsulation::one_ethernet_frame;
use mac_frame::one_frame;
use powersave::returns_in_its_place;
use roster::{came_in_turn, kept_counts, kept_for_dozing};
use stations::{changes_stay_sound, lengths_after, modes_alone, others_stay};
use tim::one_tim;

/// What holds of every network that events make of an empty one, if its configuration has no fault. Among it: for each
/// event that it took, it keeps and has lost two units at most.
pub fn reachable()
    ensures { (s : Setting) (es : List Event) → network_fault s.network ≡ None
        → IsSoundNetwork s (length es) (2 * length es) (alone s es) }
{
    stays_sound();
}

/// The same of every network to which units came back, too, each of which fits a frame (*profile*): one unit more for
/// each of them.
pub fn reachable_with_returns()
    ensures { (s : Setting) (told : List Told) → network_fault s.network ≡ None → AreCarried told
        → IsSoundNetwork s (events_in told) (2 * events_in told + returns_in told) (after_told s empty_network told) }
{
    stays_sound();
    // units stand as they came, and one that comes back is one more
    came_in_turn();
    returns_in_its_place();
}

/// What holds of every network that can be reached holds after one event more.
pub(crate) fn stays_sound()
    ensures { (s : Setting) (events units : ℕ) (n : Network) (e : Event) → network_fault s.network ≡ None
        → IsSoundNetwork s events units n → IsSoundNetwork s (events + 1) (units + 2) (step s n e) }
{
    // no more stations may associate than there are identifiers
    checked_numbers();
    // what a change of one station leaves as it was
    others_stay();
    modes_alone();
    changes_stay_sound();
    lengths_after();
    // and what of the units that are kept
    kept_for_dozing();
    came_in_turn();
    kept_counts();
    // what is read is of the lengths that its relation says
    one_frame();
    one_ethernet_frame();
}

/// A network alone begins empty, and each further event is one further step.
pub fn one_step()
    ensures first { (s : Setting) → alone s [] ≡ empty_network }
    ensures next { (s : Setting) (es : List Event) (e : Event) → alone s (es ++ e ∷ []) ≡ step s (alone s es) e }
{}

/// The frames that a network sent stay, in their order: those of a further event come after them.
pub fn sent_frames()
    ensures { (s : Setting) (es : List Event) (e : Event)
        → (alone s (es ++ e ∷ [])).air ≡ (alone s es).air ++ sent_by s es e }
{}

/// A step adds its frames to those that the network sent before, whatever these are: what it sends, and all else that
/// becomes of the network, is the same for one that sent nothing.
pub fn steps_append()
    ensures { (s : Setting) (n : Network) (e : Event) (air wire : List (List ℕ))
        → step s (sent_before air wire n) e ≡ sent_before air wire (step s n e) }
{}

/// Each frame that a network sends has at most 2,328 octets on the air, and at most 2,310 on the wire, whatever its
/// events, and each unit that it keeps fits a frame. This holds if its configuration has no fault, and its address six
/// octets. One step more keeps it so in any network of which it holds.
pub fn frame_sizes()
    ensures alone { (s : Setting) (es : List Event) → length s.network.bssid ≡ 6 → network_fault s.network ≡ None
        → IsWithinSizes (alone s es) }
    ensures step { (s : Setting) (n : Network) (e : Event) → length s.network.bssid ≡ 6
        → network_fault s.network ≡ None → IsWithinSizes n → IsWithinSizes (step s n e) }
{
    // what is read is of the lengths that its relation says
    one_frame();
    one_ethernet_frame();
    one_tim();
}

/// If the units of a network don't age, none leaves as a beacon interval begins (*profile*).
pub fn nothing_ages()
    ensures { (s : Setting) (n : Network) → s.network.aging ≡ false → age_units s n ≡ n }
{}
