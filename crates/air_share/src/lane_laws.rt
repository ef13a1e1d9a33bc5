//! What the rule promises, over any list of events.

ghost use Rattle.std.specs.Prelude.{◌≡◌, ◌↔◌, ℕ, List, Some};
ghost use Rattle.air_share.specs.declared.lane.Lane.{Lane};
ghost use Rattle.air_share.specs.Lanes.{chosen, IsChoice};
ghost use Rattle.air_share.specs.LaneRuns.{IsExact, IsBounded, IsSoon};

/// Whose turn it is, is the lane of least debt of those that wait, and of several the one of lowest place, and no other.
pub fn one_choice()
    ensures { (lanes : List Lane) (place : ℕ) → (chosen lanes ≡ Some place) ↔ IsChoice lanes place }
{}

/// While something of a network waits, what any other gets beyond its share is no more than what it owes the more.
pub fn exact()
    ensures { IsExact }
{}

/// While something of a network waits, any other gets no more than its share beside it, and a turn of each. No turn of
/// either takes more than a limit of its own, with all that is told of it before the next.
pub fn bounded()
    ensures { IsBounded }
{}

/// From when something of a network waits until its turn, any other gets no more than a turn, and its share beside a
/// turn of that network.
pub fn soon()
    ensures { IsSoon }
{}
