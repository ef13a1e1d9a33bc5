//! What the rule keeps of a network, and the rule: start-time fair queueing (Goyal, Vin and Cheng, 1996).

ghost use Rattle.std.specs.Prelude.{◌≡◌, ◌+◌, ◌*◌, ◌<◌, ◌^◌, ◌↔◌, ℕ, true, false, length, IsTrue, Some};
ghost use Rattle.std.specs.Prelude.{IfSome, IfNone};
ghost use Rattle.std.specs.Bool.{OnTrue, OnFalse};
ghost use Rattle.air_share.specs.LaneRuns.{Serve, Tell, lane_step};
ghost use Rattle.air_share.specs.Lanes.{chosen, after_turn, after_telling, lane_at, IsChoice};

/// The greatest weight of a network.
pub const MAX_WEIGHT: u8 = 16;

/// What the rule keeps of a network. A caller lays the lanes of a radio side by side and names a lane by its place. It
/// begins each with debt 0, and from then on writes `waits` alone.
#[derive(Clone, Copy, Debug, PartialEq, Eq)]
#[repr(C)]
pub struct Lane {
    /// What the network owes for air it had: a number of time units, each times the scale.
    pub debt: u64,
    /// What a time unit of air costs the network: a common multiple of all weights over its own weight.
    pub scale: u32,
    /// Whether a frame of the network waits.
    pub waits: bool,
}

/// Whose turn it is: of those that wait the lane of least debt, and of several the one of lowest place. `None` if
/// none waits.
pub fn choose(lanes: &[Lane]) -> Option<usize>
    ensures exact { result ≡ chosen lanes.now }
    ensures some { IfSome result (IsChoice lanes.now) }
    ensures none { IfNone result ((place : ℕ) → (lane_at lanes.now place).waits ≡ false) }
{
    let mut best = first_that_waits(lanes)?;
    let mut least = lanes[best].debt;
    for place in best + 1..lanes.len() {
        let lane = lanes[place];
        if lane.waits && lane.debt < least {
            best = place;
            least = lane.debt;
        }
    }
    Some(best)
}

/// The lowest place of a lane that waits, if one does.
fn first_that_waits(lanes: &[Lane]) -> Option<usize>
    ensures some { IfSome result (λ place. (lane_at lanes.now place).waits ≡ true) }
    ensures first { IfSome result (λ place. (other : ℕ) → other < place → (lane_at lanes.now other).waits ≡ false) }
    ensures none { IfNone result ((place : ℕ) → (lane_at lanes.now place).waits ≡ false) }
    ensures within { IfSome result (λ place. place < length lanes.now) }
{
    lanes.iter().position(|lane| lane.waits)
}

/// Serves the lane at a place, whose turn it is as [`choose`] says, with a frame of this cost in time units of air.
/// Every debt becomes itself less that lane's, not below 0. That lane's own becomes its scale times the cost, which
/// never overflows.
pub fn serve_chosen(lanes: &mut [Lane], place: usize, cost: u32)
    requires turn { chosen lanes.old ≡ Some place }
    requires within { place < length lanes.old }
    ensures after { lanes.new ≡ after_turn lanes.old place cost }
    ensures event { lanes.new ≡ lane_step lanes.old (Serve cost) }
{
    let least = lanes[place].debt;
    for lane in lanes.iter_mut() {
        lane.debt = lane.debt.saturating_sub(least);
    }
    let lane = &mut lanes[place];
    lane.debt = u64::from(lane.scale) * u64::from(cost);
}

/// Adds the time units of air that a network used beyond what was reckoned: its debt grows by its scale times them.
/// `false` if the debt would reach 2^64, or if there is no such lane, and then nothing changes.
pub fn told(lanes: &mut [Lane], place: usize, more: u32) -> bool
    ensures fits { IsTrue result ↔ ((place < length lanes.old)
        × ((lane_at lanes.old place).debt + (lane_at lanes.old place).scale * more < 2 ^ 64)) }
    ensures after { OnTrue result (lanes.new ≡ after_telling lanes.old place more) }
    ensures event { OnTrue result (lanes.new ≡ lane_step lanes.old (Tell place more)) }
    ensures refused { OnFalse result (lanes.new ≡ lanes.old) }
{
    if place >= lanes.len() {
        return false;
    }
    let lane = &mut lanes[place];
    let used = u64::from(lane.scale) * u64::from(more);
    let Some(debt) = lane.debt.checked_add(used) else {
        return false;
    };
    lane.debt = debt;
    true
}
