//! What follows from the definitions, for whoever stands on them.

ghost use Rattle.std.specs.Prelude.{◌≡◌, ◌≢◌, ◌++◌, ◌∷◌, [], ℕ, List};
ghost use Rattle.events.specs.Items.{items_of};
ghost use Rattle.events.specs.declared.air_item.AirItem.{AirItem};

/// A network's own frames among those of several, in their order: a frame of the network that comes last is the last
/// of them, and a frame of another changes nothing (*profile*).
pub fn own_frames()
    ensures append { (place : ℕ) (xs ys : List AirItem)
        → items_of place (xs ++ ys) ≡ items_of place xs ++ items_of place ys }
    ensures same { (place : ℕ) (items : List AirItem) (octets : List ℕ)
        → items_of place (items ++ (record { place = place; octets = octets }) ∷ [])
        ≡ items_of place items ++ octets ∷ [] }
    ensures other { (place other : ℕ) (items : List AirItem) (octets : List ℕ) → place ≢ other
        → items_of place (items ++ (record { place = other; octets = octets }) ∷ []) ≡ items_of place items }
{}
