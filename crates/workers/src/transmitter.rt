//! By what frames leave an access point (*profile*).

ghost use Rattle.std.specs.Prelude.{◌≡◌, ◌++◌, ◌∷◌, [], List};

use crate::name::ApName;
use air_queue::RadioPass;
use events::AirItem;
use std::marker::{Model, PhantomData};

/// The one right to let frames leave the access point N (*profile*). Contracts see the frames that left by it, in
/// order.
#[derive(Drop)]
pub struct Transmitter<N: ApName> {
    pub(crate) pass: RadioPass,
    pub(crate) of: PhantomData<N>,
}

impl<N: ApName> Model for Transmitter<N> {
    ghost use Rattle.std.specs.Prelude.{List};
    ghost use Rattle.events.specs.declared.air_item.AirItem.{AirItem};
    ghost use Rattle.workers.specs.Seats.{IsRadioOf};

    ghost Value = { List AirItem };

    ghost view = { λ t. t.pass.left };

    ghost invariant = { λ t. IsRadioOf N.config N.queue t.pass };
}

impl<N: ApName> Transmitter<N> {
    /// The frames that left, the first of them first (*profile*). It takes no memory.
    pub fn left(&self) -> &[AirItem]
        ensures { result.now ≡ self.now }
    {
        self.pass.left()
    }
}
