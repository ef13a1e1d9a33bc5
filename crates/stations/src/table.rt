//! The stations that a network knows (IEEE Std 802.11-2016, 11.3.1).

ghost use Rattle.std.specs.Prelude.{◌≡◌, ◌<◌, ◌≤◌, [], IsTrue, IsOk, OnOk, OnErr, IfSome, Some, None, option_map};
ghost use Rattle.std.specs.Prelude.{length, slice_get, is_some, if◌then◌else◌, false, nat_le, not, ◌&&◌};
ghost use Rattle.tim.specs.Tim.{IsAid};
ghost use Rattle.stations.specs.Stations.{with_table, state_of, standing_with, aid_of, aid_with, dozes_with};
ghost use Rattle.stations.specs.Stations.{some_station_dozes, listen_with, may_associate, next_aid, is_associated};
ghost use Rattle.stations.specs.Stations.{set_state, authenticate, associate, disassociate, forget, set_mode, with_mode};
ghost use Rattle.stations.specs.Stations.{changed, IsAllowed, IsModeAlone, identifiers};
ghost use Rattle.stations.specs.Restoring.{is_free, restored, state_fault};

use address_map::AddressMap;
use aid_pool::AidPool;
use mac_frame::{MAX_AID, MacAddr, NoMemory};
use station_state::{Standing, StationState};
use std::alloc::Global;
use std::marker::Model;

/// What becomes of one station.
#[derive(Clone, Copy, Debug)]
pub enum Change {
    /// Nothing does.
    Nothing,
    /// It is authenticated (11.3.4.3).
    Authenticate(MacAddr),
    /// It is associated (11.3.5.3).
    Associate {
        /// The station.
        addr: MacAddr,
        /// Its listen interval in beacon intervals (9.4.1.6).
        listen: u16,
    },
    /// It is no longer associated (11.3.5.9).
    Disassociate(MacAddr),
    /// It is not known any more (11.3.4.5).
    Forget(MacAddr),
    /// It dozes or is active, if it is associated (11.2.3.2).
    SetMode {
        /// The station.
        addr: MacAddr,
        /// Whether it dozes.
        doze: bool,
    },
}

/// The stations of a network, in order of first authentication. Contracts see how many may be associated at most, and
/// the list of the stations with their states. Each is found by its address without a walk over the list.
#[derive(Drop)]
pub struct Stations {
    states: AddressMap<StationState>,
    pool: AidPool,
    // how many doze
    dozing: usize,
}

impl Model for Stations {
    ghost use Rattle.stations.specs.Stations.{StationTable};
    ghost use Rattle.stations.specs.StationsKept.{AreCounted};

    ghost Value = { StationTable };

    ghost view = { λ s. record { most = s.pool.most; table = s.states } };

    ghost invariant = { λ s. AreCounted s.pool.most s.pool.out s.dozing s.states };
}

impl Stations {
    /// No station is known. At most `most` may be associated, 1 to 2007.
    pub fn new(alloc: Global, most: u16) -> Stations
        requires some { 1 ≤ most }
        requires few { most ≤ MAX_AID }
        ensures { result ≡ record { most = most; table = [] } }
    {
        Stations {
            states: AddressMap::new(alloc),
            pool: AidPool::new(most),
            dozing: 0,
        }
    }

    /// How many are known.
    pub fn len(&self) -> usize
        ensures { result ≡ length self.now.table }
    {
        self.states.len()
    }

    /// The station at a place, from 0, with its state.
    pub fn row(&self, place: usize) -> (MacAddr, StationState)
        requires { place < length self.now.table }
        ensures { slice_get self.now.table place ≡ Some result }
    {
        self.states.entry(place)
    }

    /// The state of a station, or `None` if it is not known.
    pub fn state_of(&self, addr: MacAddr) -> Option<StationState>
        ensures { result ≡ state_of addr self.now.table }
    {
        self.states.get(addr)
    }

    /// The association identifier of a station, if it is associated.
    pub fn aid_of(&self, addr: MacAddr) -> Option<u16>
        ensures aid { result ≡ aid_of addr self.now.table }
        ensures within { IfSome result IsAid }
    {
        // The prover opens what the table keeps, which bounds each identifier, where a field is read.
        let _ = &self.pool;
        aid_with(self.state_of(addr))
    }

    /// The state of a station once the mode of one is set.
    pub fn state_after(&self, change: Change, addr: MacAddr) -> Option<StationState>
        requires { IsModeAlone change }
        ensures { result ≡ state_of addr (changed change self.now.table) }
    {
        let state = self.state_of(addr);
        let Change::SetMode { addr: set, doze } = change else {
            return state;
        };
        if set == addr {
            state_with_mode(state, doze)
        } else {
            state
        }
    }

    /// Whether a station dozes once the mode of one is set (11.2.3.2).
    pub fn some_dozes_after(&self, change: Change) -> bool
        requires { IsModeAlone change }
        ensures { result ≡ some_station_dozes (changed change self.now.table) }
    {
        let Change::SetMode { addr, .. } = change else {
            return self.dozing > 0;
        };
        let before = dozes_with(self.state_of(addr));
        let after = dozes_with(self.state_after(change, addr));
        after || self.dozing > usize::from(before)
    }

    /// The identifier that an association of the station in this state gives: the one that it has, or the least that
    /// is free. `None` exactly if as many others are associated as may be.
    pub fn next_aid(&self, addr: MacAddr, state: Option<StationState>) -> Option<u16>
        requires { state ≡ state_of addr self.now.table }
        ensures room { is_some result ≡ may_associate self.now.most addr self.now.table }
        ensures aid { IfSome result (λ aid. aid ≡ next_aid addr self.now.table) }
        ensures last { IfSome result (λ aid. aid ≤ MAX_AID) }
    {
        match aid_with(state) {
            Some(aid) => Some(aid),
            None => self.pool.least(),
        }
    }

    /// Changes one station. `NoMemory`, and no change, can come if an unknown one is authenticated.
    pub fn change(&mut self, change: Change) -> Result<(), NoMemory>
        requires { IsAllowed self.old.most change self.old.table }
        ensures ok { OnOk result (self.new ≡ with_table self.old (changed change self.old.table)) }
        ensures err { OnErr result (self.new ≡ self.old) }
        ensures mode { IsModeAlone change → IsOk result }
    {
        match change {
            Change::Nothing => {}
            Change::Authenticate(addr) => self.authenticate(addr)?,
            Change::Associate { addr, listen } => self.associate(addr, listen),
            Change::Disassociate(addr) => self.disassociate(addr),
            Change::Forget(addr) => self.forget(addr),
            Change::SetMode { addr, doze } => self.set_mode(addr, doze),
        }
        Ok(())
    }

    /// Authenticates a station: an unknown one goes last, a known one keeps its place and is no longer associated, so
    /// that its identifier is free. `NoMemory`, and no change, can come for an unknown station alone.
    pub fn authenticate(&mut self, addr: MacAddr) -> Result<(), NoMemory>
        ensures ok { OnOk result (self.new ≡ with_table self.old (authenticate addr self.old.table)) }
        ensures err { OnErr result (self.new ≡ self.old) }
        ensures unknown { OnErr result (state_of addr self.old.table ≡ None) }
    {
        let before = self.states.insert(addr, StationState::Authenticated)?;
        self.dozing -= usize::from(dozes_with(before));
        if let Some(aid) = aid_with(before) {
            self.pool.give(aid);
        }
        Ok(())
    }

    /// Associates a known station with this listen interval, under the identifier that [`Stations::next_aid`] tells.
    pub fn associate(&mut self, addr: MacAddr, listen: u16)
        requires known { IsTrue (is_some (state_of addr self.old.table)) }
        requires room { IsTrue (may_associate self.old.most addr self.old.table) }
        ensures { self.new ≡ with_table self.old (associate addr listen self.old.table) }
    {
        let before = self.state_of(addr);
        self.dozing -= usize::from(dozes_with(before));
        let aid = match aid_with(before) {
            Some(aid) => aid,
            None => self.pool.take().unwrap(),
        };
        let state = StationState::Associated {
            aid,
            listen,
            doze: false,
        };
        set_known(&mut self.states, addr, state);
    }

    /// Whether as many are associated as may be.
    pub(crate) fn is_full(&self) -> bool
        ensures { result ≡ nat_le self.now.most (length (identifiers self.now.table)) }
    {
        self.pool.least().is_none()
    }

    /// Whether a number is an identifier that no station has (9.4.1.8).
    pub(crate) fn is_free(&self, aid: u16) -> bool
        ensures { result ≡ is_free aid self.now.table }
    {
        aid >= 1 && aid <= MAX_AID && !self.pool.is_out(aid)
    }

    /// Puts an unknown station last, in a state that may be restored, and answers whether there was memory for it.
    /// Nothing changes if there was none.
    pub(crate) fn add(&mut self, addr: MacAddr, state: StationState) -> bool
        requires unknown { state_of addr self.old.table ≡ None }
        requires may { state_fault self.old.most state self.old.table ≡ None }
        ensures ok { IsTrue result → self.new ≡ with_table self.old (restored addr state self.old.table) }
        ensures err { result ≡ false → self.new ≡ self.old }
    {
        let Ok(_before) = self.states.insert(addr, state) else {
            return false;
        };
        self.dozing += usize::from(dozes_with(Some(state)));
        if let Some(aid) = aid_with(Some(state)) {
            // It is free, and fewer are out than may be.
            self.pool.take_this(aid);
        }
        true
    }

    /// Ends the association of a station, which is authenticated only from then on and whose identifier is free.
    /// Nothing changes if it is not associated.
    pub fn disassociate(&mut self, addr: MacAddr)
        ensures { self.new ≡ with_table self.old (disassociate addr self.old.table) }
    {
        let before = self.state_of(addr);
        let Some(aid) = aid_with(before) else {
            return;
        };
        self.pool.give(aid);
        self.dozing -= usize::from(dozes_with(before));
        set_known(&mut self.states, addr, StationState::Authenticated);
    }

    /// Forgets a station, whose identifier is free then. The others keep their order, and none moves unless many have
    /// left. Nothing changes if it is not known.
    pub fn forget(&mut self, addr: MacAddr)
        ensures { self.new ≡ with_table self.old (forget addr self.old.table) }
    {
        let before = self.states.remove(addr);
        self.dozing -= usize::from(dozes_with(before));
        if let Some(aid) = aid_with(before) {
            self.pool.give(aid);
        }
    }

    /// Sets the mode of a station. Nothing changes if it is not associated.
    pub fn set_mode(&mut self, addr: MacAddr, doze: bool)
        ensures { self.new ≡ with_table self.old (set_mode addr doze self.old.table) }
    {
        let Some(before) = set_mode(&mut self.states, addr, doze) else {
            return;
        };
        let state = with_mode(before, doze);
        self.dozing -= usize::from(dozes_with(Some(before)));
        self.dozing += usize::from(dozes_with(Some(state)));
    }
}

/// Which of the states of 11.3.1 that is.
pub fn standing_with(state: Option<StationState>) -> Standing
    ensures { result ≡ standing_with state }
{
    match state {
        None => Standing::Unknown,
        Some(StationState::Authenticated) => Standing::Authenticated,
        Some(StationState::Associated { .. }) => Standing::Associated,
    }
}

/// Whether a station in this state dozes.
pub fn dozes_with(state: Option<StationState>) -> bool
    ensures { result ≡ dozes_with state }
{
    matches!(state, Some(StationState::Associated { doze: true, .. }))
}

/// The listen interval of a station in this state, in beacon intervals (9.4.1.6), or 0 if it is not associated.
pub fn listen_with(state: Option<StationState>) -> u16
    ensures { result ≡ listen_with state }
{
    match state {
        Some(StationState::Associated { listen, .. }) => listen,
        _ => 0,
    }
}

/// Whether a station in this state is associated.
pub fn is_associated(state: Option<StationState>) -> bool
    ensures { result ≡ is_associated state }
{
    matches!(state, Some(StationState::Associated { .. }))
}

/// The state of a station, if it is known, in another mode.
fn state_with_mode(state: Option<StationState>, doze: bool) -> Option<StationState>
    ensures { result ≡ option_map (with_mode doze) state }
{
    match state {
        Some(state) => Some(with_mode(state, doze)),
        None => None,
    }
}

/// A state in another mode; a station that is not associated has no mode.
fn with_mode(state: StationState, doze: bool) -> StationState
    ensures { result ≡ with_mode doze state }
{
    match state {
        StationState::Authenticated => StationState::Authenticated,
        StationState::Associated { aid, listen, .. } => StationState::Associated {
            aid,
            listen,
            doze,
        },
    }
}

/// The association identifier of a station in this state, if it is associated.
pub fn aid_with(state: Option<StationState>) -> Option<u16>
    ensures { result ≡ aid_with state }
{
    match state {
        Some(StationState::Associated { aid, .. }) => Some(aid),
        _ => None,
    }
}

/// Sets the state of a station that is known.
fn set_known(states: &mut AddressMap<StationState>, addr: MacAddr, state: StationState)
    requires { IsTrue (is_some (state_of addr states.old)) }
    ensures { states.new ≡ set_state addr state states.old }
{
    states.replace(addr, state);
}

/// Sets the mode of a station, and answers its state before. Nothing changes if it is not associated.
fn set_mode(
    states: &mut AddressMap<StationState>,
    addr: MacAddr,
    doze: bool,
) -> Option<StationState>
    ensures old { result ≡ state_of addr states.old }
    ensures stations { states.new ≡ set_mode addr doze states.old }
{
    states.update(addr, |state| with_mode(state, doze))
}
