//! The queues of all networks of a radio, and which of them goes next.

ghost use Rattle.std.specs.Prelude.{◌≡◌, ◌↔◌, ◌+◌, ◌*◌, ◌^◌, ◌<◌, ◌≤◌, [], ◌∷◌, ◌++◌, Some, None, false, length};
ghost use Rattle.std.specs.Prelude.{is_some, MatchOption, IsSome, IfOk, OnOk, OnErr, IsErrOf, IsTrue};
ghost use Rattle.std.specs.Bool.{OnTrue, OnFalse};
ghost use Rattle.std.specs.Option.{option_map};
ghost use Rattle.air_share.specs.Lanes.{chosen, lane_at};
ghost use Rattle.air_share.specs.LaneRuns.{Waits, lane_step, lanes_after, is_turn_of};
ghost use Rattle.downlink.specs.Receiver.{is_sending, are_ignored};
ghost use Rattle.downlink.specs.Calls.{Comes, Told, Returns, GivesUp, call_of};
ghost use Rattle.downlink.specs.Radios.{new_radio, receiver_at, turn_if};
ghost use Rattle.downlink.specs.Radios.{with_network, Of, Next, NextOf, Pauses, Used, radio_step, radio_answer};
ghost use Rattle.downlink.specs.Radios.{network_answer_of, answer_from};

use crate::network_queue::{NetworkQueue, ReceiverAnswer, Refusal};
use crate::station_change::StationChange;
use air_share::{Lane, MAX_WEIGHT, choose, serve_chosen, told};
use std::alloc::{AllocError, Global};
use std::marker::Model;

/// The least common multiple of the weights 1 to [`MAX_WEIGHT`].
const COMMON_MULTIPLE: u32 = 720_720;

/// What a call answers of a frame of a radio.
#[derive(Clone, Copy, Debug, PartialEq, Eq)]
pub struct NetworkAnswer {
    /// The place of the frame's network.
    pub network: usize,
    /// The frame's receiver there, and what became of the frame.
    pub answer: ReceiverAnswer,
}

/// The networks of a radio, each at a place, which share its air by the rule of `air_share` (*profile*). Contracts see
/// it as the record `Radio`. A call answers what became of one frame, and of no other one.
#[derive(Debug, Drop)]
pub struct RadioQueue {
    // of each network a lane, which tells whether it has a frame that may go
    lanes: Vec<Lane>,
    networks: Vec<NetworkQueue>,
}

impl Model for RadioQueue {
    ghost use Rattle.std.specs.Prelude.{◌≡◌, length};
    ghost use Rattle.downlink.specs.Radios.{Radio};

    ghost Value = { Radio };

    ghost view = { λ r. record { lanes = r.lanes.items; networks = r.networks.items } };

    ghost invariant = { λ r. length r.lanes.items ≡ length r.networks.items };
}

impl RadioQueue {
    /// A radio with no network.
    pub fn new(alloc: Global) -> RadioQueue
        ensures { result ≡ new_radio [] }
    {
        RadioQueue {
            lanes: Vec::new(alloc),
            networks: Vec::new(alloc),
        }
    }

    /// How many networks there are.
    pub fn networks(&self) -> usize
        ensures { result ≡ length self.now.networks }
    {
        self.networks.len()
    }

    /// A network more, at the next place, of a weight from 1 to [`MAX_WEIGHT`]. It owes nothing. After an error all is
    /// as it was. The laws [`fair`](crate::fair) and [`prompt`](crate::prompt) speak of calls between which none is
    /// added, so a caller adds all networks first.
    pub fn add(&mut self, weight: u8, network: NetworkQueue) -> Result<(), AllocError>
        requires { (1 ≤ weight) × (weight ≤ MAX_WEIGHT) }
        ensures ok { OnOk result (self.new ≡ with_network self.old weight network) }
        ensures err { OnErr result (self.new ≡ self.old) }
    {
        let waits = network.has_next();
        let scale = COMMON_MULTIPLE / u32::from(weight);
        self.lanes.push(Lane {
            debt: 0,
            scale,
            waits,
        })?;
        if let Err(refused) = self.networks.push(network) {
            self.lanes.pop();
            return Err(refused.into());
        }
        Ok(())
    }

    /// Whether a frame may go, of any network.
    pub fn has_next(&self) -> bool
        ensures { result ≡ is_some (chosen self.now.lanes) }
    {
        choose(self.lanes.as_slice()).is_some()
    }

    /// The place of the network whose turn it is: of those of which a frame may go the one that owes least, and of
    /// several the one of lowest place. `None` where no frame may go (*profile*).
    pub fn turn_of(&self) -> Option<usize>
        ensures { result ≡ chosen self.now.lanes }
    {
        choose(self.lanes.as_slice())
    }

    /// A frame comes for a receiver of a network, and waits behind the others of that. It `is_unit` if it is an MSDU.
    /// The last time at which it may go is `until`, and the time is `now`, both by one clock of the caller. If too many
    /// wait by it, the oldest of them is dropped and answered. `NoReceiver` comes exactly if there is no such receiver,
    /// and `NoMemory` if memory ran out. After an error all is as it was (*profile*).
    pub fn comes(
        &mut self,
        network: usize,
        receiver: usize,
        ticket: u64,
        is_unit: bool,
        until: u64,
        now: u64,
    ) -> Result<Option<NetworkAnswer>, Refusal>
        ensures after { OnOk result
            (self.new ≡ radio_step self.old (Of network receiver (Comes ticket is_unit until now))) }
        ensures answer { IfOk result (λ dropped. dropped ≡ option_map network_answer_of
            (radio_answer self.old (Of network receiver (Comes ticket is_unit until now)))) }
        ensures there { IsErrOf result Refusal.NoReceiver ↔ (receiver_at self.old network receiver ≡ None) }
        ensures err { OnErr result (self.new ≡ self.old) }
    {
        if network >= self.networks.len() {
            return Err(Refusal::NoReceiver);
        }
        let queue = &mut self.networks[network];
        let dropped = match queue.comes(receiver, ticket, is_unit, until, now) {
            Ok(dropped) => dropped,
            Err(refusal) => return Err(refusal),
        };
        let waits = queue.has_next();
        set_waits(self.lanes.as_mut_slice(), network, waits);
        Ok(answer_from(network, dropped))
    }

    /// The next frame goes, of the network whose turn it is, unless that frame is too late, and then it leaves. Of
    /// those of which a frame may go this network is the one that owes least, and of several the one of lowest place.
    /// `None` where no frame may go, and then nothing changes. It takes no memory.
    pub fn next(&mut self, now: u64) -> Option<NetworkAnswer>
        ensures after { self.new ≡ radio_step self.old (Next now) }
        ensures answer { result ≡ option_map network_answer_of (radio_answer self.old (Next now)) }
    {
        let network = choose(self.lanes.as_slice())?;
        let queue = &mut self.networks[network];
        let next = queue.turn(now);
        let waits = queue.has_next();
        take_turn(self.lanes.as_mut_slice(), network, is_sent(next), waits);
        answer_from(network, next)
    }

    /// The same as [`next`](RadioQueue::next), where the caller says which receiver of the network has the turn. The
    /// rule of shares still says which network: `None` where it isn't the turn of this one, and then nothing changes.
    /// `None` also where no frame of the receiver would go, or there is no such receiver (*profile*).
    pub fn next_of(&mut self, network: usize, receiver: usize, now: u64) -> Option<NetworkAnswer>
        ensures after { self.new ≡ radio_step self.old (NextOf network receiver now) }
        ensures answer { result ≡ option_map network_answer_of (radio_answer self.old (NextOf network receiver now)) }
    {
        let turn = choose(self.lanes.as_slice());
        if !is_turn_of(network, turn) {
            return None;
        }
        let queue = &mut self.networks[network];
        let next = queue.turn_to(receiver, now);
        let waits = queue.has_next();
        take_turn(self.lanes.as_mut_slice(), network, is_sent(next), waits);
        answer_from(network, next)
    }

    /// A network used so much air, in the unit of the caller's limits. `false` exactly if its debt would reach 2^64, or
    /// if there is no such network, and then nothing changes.
    pub fn used(&mut self, network: usize, units: u32) -> bool
        ensures fits { IsTrue result ↔ ((network < length self.old.lanes)
            × ((lane_at self.old.lanes network).debt + (lane_at self.old.lanes network).scale * units < 2 ^ 64)) }
        ensures after { OnTrue result (self.new ≡ radio_step self.old (Used network units)) }
        ensures refused { OnFalse result (self.new ≡ self.old) }
    {
        told(self.lanes.as_mut_slice(), network, units)
    }

    /// The first frame of a receiver with this ticket that went was acknowledged, or nobody acknowledged it. `None`
    /// where none is out, or there is no such receiver, and then nothing changes.
    pub fn told(
        &mut self,
        network: usize,
        receiver: usize,
        ticket: u64,
        is_acknowledged: bool,
    ) -> Option<NetworkAnswer>
        ensures after { self.new ≡ radio_step self.old (Of network receiver (Told ticket is_acknowledged)) }
        ensures answer { result ≡ option_map network_answer_of
            (radio_answer self.old (Of network receiver (Told ticket is_acknowledged))) }
    {
        if network >= self.networks.len() {
            return None;
        }
        let queue = &mut self.networks[network];
        let answer = queue.told(receiver, ticket, is_acknowledged);
        let waits = queue.has_next();
        set_waits(self.lanes.as_mut_slice(), network, waits);
        answer_from(network, answer)
    }

    /// The next frame of a receiver leaves that won't go. `None` where there is none, or no such receiver, and then
    /// nothing changes.
    pub fn returns(&mut self, network: usize, receiver: usize) -> Option<NetworkAnswer>
        ensures after { self.new ≡ radio_step self.old (Of network receiver Returns) }
        ensures answer { result ≡ option_map network_answer_of (radio_answer self.old (Of network receiver Returns)) }
    {
        if network >= self.networks.len() {
            return None;
        }
        let queue = &mut self.networks[network];
        let answer = queue.returns(receiver);
        let waits = queue.has_next();
        set_waits(self.lanes.as_mut_slice(), network, waits);
        answer_from(network, answer)
    }

    /// The next frame of a receiver that would go leaves without going: its caller gives it up. `None` where none
    /// would go, or there is no such receiver, and then nothing changes (*profile*).
    pub fn gives_up(&mut self, network: usize, receiver: usize) -> Option<NetworkAnswer>
        ensures after { self.new ≡ radio_step self.old (Of network receiver GivesUp) }
        ensures answer { result ≡ option_map network_answer_of (radio_answer self.old (Of network receiver GivesUp)) }
    {
        if network >= self.networks.len() {
            return None;
        }
        let queue = &mut self.networks[network];
        let answer = queue.gives_up(receiver);
        let waits = queue.has_next();
        set_waits(self.lanes.as_mut_slice(), network, waits);
        answer_from(network, answer)
    }

    /// A network is paused, or it isn't any more. While it is, it has no turn, and to the rule of shares it doesn't
    /// wait for one. `false` exactly where there is no such network, and then nothing changes (*profile*).
    pub fn pauses(&mut self, network: usize, is_paused: bool) -> bool
        ensures after { self.new ≡ radio_step self.old (Pauses network is_paused) }
        ensures there { IsTrue result ↔ (network < length self.old.networks) }
    {
        if network >= self.networks.len() {
            return false;
        }
        let queue = &mut self.networks[network];
        queue.pauses(is_paused);
        let waits = queue.has_next();
        set_waits(self.lanes.as_mut_slice(), network, waits);
        true
    }

    /// Whether polls of the station at a place of a network are ignored now: the answer to an earlier one hasn't
    /// succeeded yet, nor failed (IEEE Std 802.11-2016, 11.2.3.6). `false` where there is no such receiver.
    pub fn ignores_polls(&self, network: usize, receiver: usize) -> bool
        ensures { result ≡ are_ignored (receiver_at self.now network receiver) }
    {
        match self.networks.get(network) {
            Some(queue) => queue.ignores_polls(receiver),
            None => false,
        }
    }

    /// The station at a place of a network does this. `false` where there is no such receiver, and then nothing
    /// changes.
    pub fn change(&mut self, network: usize, receiver: usize, change: StationChange) -> bool
        ensures after { self.new ≡ radio_step self.old (Of network receiver (call_of change)) }
        ensures there { IsTrue result ↔ IsSome (receiver_at self.old network receiver) }
    {
        if network >= self.networks.len() {
            return false;
        }
        let queue = &mut self.networks[network];
        let is_there = queue.change(receiver, change);
        let waits = queue.has_next();
        set_waits(self.lanes.as_mut_slice(), network, waits);
        is_there
    }
}

/// From now on the network at a place has a frame that may go, or none.
fn set_waits(lanes: &mut [Lane], network: usize, waits: bool)
    requires { network < length lanes.old }
    ensures { lanes.new ≡ lane_step lanes.old (Waits network waits) }
{
    let lane = &mut lanes[network];
    lane.waits = waits;
}

/// The network whose turn it is has it, if a frame went. From then on it has a frame that may go, or none.
fn take_turn(lanes: &mut [Lane], network: usize, is_sent: bool, waits: bool)
    requires turn { chosen lanes.old ≡ Some network }
    requires within { network < length lanes.old }
    ensures { lanes.new ≡ lanes_after lanes.old (turn_if is_sent ++ Waits network waits ∷ []) }
{
    if is_sent {
        serve_chosen(lanes, network, 0);
    }
    set_waits(lanes, network, waits);
}

/// Whether the turn is that of the network at a place.
fn is_turn_of(network: usize, turn: Option<usize>) -> bool
    ensures { result ≡ is_turn_of network turn }
{
    match turn {
        Some(turn) => turn == network,
        None => false,
    }
}

/// Whether a frame went.
fn is_sent(next: Option<ReceiverAnswer>) -> bool
    ensures { MatchOption next (result ≡ false) (λ told. result ≡ is_sending told.answer.fate) }
{
    match next {
        Some(told) => told.answer.fate.is_sending(),
        None => false,
    }
}

/// An answer of a frame of the network at a place.
fn answer_from(network: usize, answer: Option<ReceiverAnswer>) -> Option<NetworkAnswer>
    ensures { result ≡ option_map (answer_from network) answer }
{
    answer.map(|answer| NetworkAnswer { network, answer })
}
