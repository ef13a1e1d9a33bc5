//! A station that is restored as it was known before (*profile*).

ghost use Rattle.std.specs.Prelude.{◌≡◌, ◌&&◌, nat_le, not, OnOk, OnErr, IfErr, None};
ghost use Rattle.stations.specs.Stations.{with_table};
ghost use Rattle.stations.specs.Restoring.{is_free, restore_fault, restored, MayRefuse};

use crate::table::{Stations, aid_with, dozes_with};
use mac_frame::{MAX_AID, MacAddr};
use station_state::StationState;

/// Why a station isn't restored.
#[derive(Clone, Copy, Debug, PartialEq, Eq)]
pub enum RestoreFault {
    /// It is known already.
    Known,
    /// As many stations are known as may be, or it is associated and as many are associated as may be.
    Full,
    /// Its association identifier is another station's, or is none of 1 to 2007 (IEEE Std 802.11-2016, 9.4.1.8).
    NoAid,
    /// Memory ran out.
    NoMemory,
}

impl Stations {
    /// Makes a station known in a state that it had before, with its identifier, its listen interval and its mode. It
    /// stands last. At most `most_known` stations may be known. Each fault tells the first reason that there is, and
    /// [`RestoreFault::NoMemory`] comes only where there is none. Nothing changes then.
    pub fn restore(
        &mut self,
        addr: MacAddr,
        state: StationState,
        most_known: usize,
    ) -> Result<(), RestoreFault>
        ensures fault { IfErr result
            (MayRefuse (restore_fault self.old.most most_known addr state self.old.table)) }
        ensures allowed { OnOk result (restore_fault self.old.most most_known addr state self.old.table ≡ None) }
        ensures ok { OnOk result (self.new ≡ with_table self.old (restored addr state self.old.table)) }
        ensures err { OnErr result (self.new ≡ self.old) }
    {
        if let Some(fault) = self.restore_fault(addr, state, most_known) {
            return Err(fault);
        }
        if self.add(addr, state) {
            Ok(())
        } else {
            Err(RestoreFault::NoMemory)
        }
    }

    /// The first reason why a station can't be restored, memory aside.
    fn restore_fault(
        &self,
        addr: MacAddr,
        state: StationState,
        most_known: usize,
    ) -> Option<RestoreFault>
        ensures { result ≡ restore_fault self.now.most most_known addr state self.now.table }
    {
        if self.state_of(addr).is_some() {
            return Some(RestoreFault::Known);
        }
        if most_known <= self.len() {
            return Some(RestoreFault::Full);
        }
        let StationState::Associated { aid, .. } = state else {
            return None;
        };
        if self.is_full() {
            Some(RestoreFault::Full)
        } else if self.is_free(aid) {
            None
        } else {
            Some(RestoreFault::NoAid)
        }
    }
}
