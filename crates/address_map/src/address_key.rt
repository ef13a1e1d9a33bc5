//! Addresses as the keys of a map.

ghost use Rattle.std.specs.Hash as fed;
ghost use Rattle.std.specs.Cmp.Rules.{hashing};
ghost use Rattle.std.proofs.Common.{rules};

use mac_frame::MacAddr;
use std::hash::{Hash, Hasher};
use std::marker::Model;

/// An address that gives a hasher all its octets as one number, where a `MacAddr` gives one after another. Contracts see
/// it as these octets.
#[derive(Clone, Copy, PartialEq, Eq)]
pub(crate) struct AddressKey {
    pub(crate) addr: MacAddr,
}

impl Model for AddressKey {
    ghost use Rattle.std.specs.Prelude.{ℕ, List};

    ghost Value = { List ℕ };

    ghost view = { λ k. k.addr };

    ghost inverse = { λ o. record { addr = o } };
}

impl Hash for AddressKey {
    ghost use Rattle.mac_frame.specs.Address.{address_number};

    ghost hash_input = { λ k. fed.u64 (address_number k) };

    ghost respects_eq = { Prim.search (hashing, rules) };

    #[inline(always)]
    fn hash<H: Hasher>(&self, state: &mut H) {
        let (first, last) = self.addr.parts();
        state.write_u64(u64::from(first) + u64::from(last) * (1 << 32));
    }
}
