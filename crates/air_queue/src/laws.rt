//! What holds of the queue's rule.

ghost use Rattle.std.specs.Prelude.{◌≡◌, ◌<◌, ℕ, List, [], ◌∷◌};
ghost use Rattle.crossbeam_queue.specs.Fifo.{Pushes, Pops, Forks, Merges, Learns};
ghost use Rattle.events.specs.declared.air_item.AirItem.{AirItem};
ghost use Rattle.air_queue.specs.Rule.{IsKept, IsNetworkAt, IsRadio, IsRadioWith, Accounts, fresh, giving, given};
ghost use Rattle.air_queue.specs.Rule.{pushing, leaving, networks_of, taking_in};
ghost use Rattle.air_queue.specs.declared.known.Known.{Known};
ghost use Rattle.air_queue.specs.declared.known.Known.TheVariants.{Spent};

/// Each kind of step keeps the rule of the queue, whatever other threads did before it: making the queue with the
/// radio's pass; giving a network its pass; a push that adds; a pop that takes; taking a network's pass in. A push that
/// finds the queue full and a pop that finds it empty change nothing. The last clause is what the radio's pass learns
/// at any moment (*profile*).
pub fn rule_is_kept()
    ensures made { IsKept [] (fresh ∷ []) }
    ensures given { (pass : ℕ) (left : List AirItem) (v : Known) → IsRadioWith left v
        → Forks IsKept pass v (giving v) (given v) }
    ensures pushed { (capacity pass : ℕ) (v : Known) (item : AirItem) → IsNetworkAt item.place v
        → Pushes IsKept capacity pass v item (λ w. w ≡ pushing v item) }
    ensures popped { (pass : ℕ) (left : List AirItem) (v : Known) → IsRadioWith left v
        → Pops IsKept pass v (λ item w. (w ≡ leaving v item) × (item.place < networks_of v)) }
    ensures taken_in { (pass : ℕ) (v : Known) (other place : ℕ) (u : Known) → IsRadio v → IsNetworkAt place u
        → Merges IsKept pass v other u (taking_in v u) Spent }
    ensures learned { (pass : ℕ) (left : List AirItem) (v : Known) → IsRadioWith left v
        → Learns IsKept pass v (Accounts v) }
{}
