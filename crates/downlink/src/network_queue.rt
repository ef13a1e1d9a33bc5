//! The queue of a network: its receivers, and whose turn it is among them.

ghost use Rattle.std.specs.Prelude.{◌≡◌, ◌↔◌, ◌+◌, ◌^◌, ◌<◌, ◌≤◌, length, IfSome, IfOk, OnOk, OnErr, IsErrOf, IsTrue};
ghost use Rattle.std.specs.Prelude.{slice_get};
ghost use Rattle.std.specs.Option.{option_map};
ghost use Rattle.downlink.specs.Receiver.{are_ignored};
ghost use Rattle.downlink.specs.Calls.{Comes, Turn, Told, Returns, GivesUp, call_of};
ghost use Rattle.downlink.specs.Networks.{new_network, from_after, turn_of, has_next};
ghost use Rattle.downlink.specs.Networks.{To, TurnOfOne, Pauses, network_step, network_answer, receiver_answer};

use crate::answer::Answer;
use crate::ready::ReadySet;
use crate::receiver::ReceiverQueue;
use crate::station_change::StationChange;
use std::alloc::{AllocError, AllocFailed, Global};
use std::marker::Model;

/// Why a frame isn't taken. The caller has it still.
#[derive(Clone, Copy, Debug, PartialEq, Eq)]
pub enum Refusal {
    /// There is no such receiver.
    NoReceiver,
    /// Memory ran out.
    NoMemory,
}

impl From<AllocError> for Refusal {
    ghost use Rattle.std.specs.Prelude.{◌≡◌};
    ghost use Rattle.downlink.specs.declared.network_queue.Refusal.TheVariants.{NoMemory};

    ghost from_gives = { λ _ refusal. refusal ≡ NoMemory };

    fn from(_refused: AllocError) -> Refusal {
        Refusal::NoMemory
    }
}

/// What a call answers of a frame of a network.
#[derive(Clone, Copy, Debug, PartialEq, Eq)]
pub struct ReceiverAnswer {
    /// The place of the frame's receiver.
    pub receiver: usize,
    /// The frame, and what became of it.
    pub answer: Answer,
}

/// The receivers of a network, each at a place, with the turns that they take. Contracts see it as the record
/// `Network`. A call answers what became of one frame, and of no other one. Turns and bounds are *profile*.
#[derive(Debug, Drop)]
pub struct NetworkQueue {
    receivers: Vec<ReceiverQueue>,
    from: usize,
    is_paused: bool,
    // a call tells it of the receiver that it may have changed
    ready: ReadySet,
}

impl Model for NetworkQueue {
    ghost use Rattle.downlink.specs.Networks.{Network};
    ghost use Rattle.downlink.specs.Ready.{IsReady};

    ghost Value = { Network };

    ghost view = { λ n. record { receivers = n.receivers.items; from = n.from; is_paused = n.is_paused } };

    ghost invariant = { λ n. IsReady n.ready.words.items n.receivers.items };
}

impl NetworkQueue {
    /// A network with a receiver for each of these numbers: of the frames that may wait for it. Nothing waits, and no
    /// station is associated.
    pub fn new(alloc: Global, mosts: &[usize]) -> Result<NetworkQueue, AllocError>
        ensures { IfOk result (λ network. network ≡ new_network mosts.now) }
    {
        let ready = ReadySet::new(alloc, mosts.len())?;
        let mut receivers = Vec::with_capacity(alloc, mosts.len())?;
        for most in mosts {
            receivers.push(ReceiverQueue::new(alloc, *most))?;
        }
        Ok(NetworkQueue {
            receivers,
            from: 0,
            is_paused: false,
            ready,
        })
    }

    /// How many receivers there are.
    pub fn receivers(&self) -> usize
        ensures { result ≡ length self.now.receivers }
    {
        self.receivers.len()
    }

    /// Whether a frame may go, of any receiver. None may while the network is paused.
    pub fn has_next(&self) -> bool
        ensures { result ≡ has_next self.now }
    {
        !self.is_paused && self.ready.first_from(0).is_some()
    }

    /// A frame comes for a receiver, and waits behind the others of that. It `is_unit` if it is an MSDU. The last time
    /// at which it may go is `until`, and the time is `now`, both by one clock of the caller. If too many wait by it,
    /// the oldest of them is dropped and answered. `NoReceiver` comes exactly if there is no such receiver, and
    /// `NoMemory` if memory ran out. After an error all is as it was (*profile*).
    pub fn comes(
        &mut self,
        receiver: usize,
        ticket: u64,
        is_unit: bool,
        until: u64,
        now: u64,
    ) -> Result<Option<ReceiverAnswer>, Refusal>
        ensures after { OnOk result (self.new ≡ network_step self.old (To receiver (Comes ticket is_unit until now))) }
        ensures answer { IfOk result (λ dropped. dropped
            ≡ option_map receiver_answer (network_answer self.old (To receiver (Comes ticket is_unit until now)))) }
        ensures there { IsErrOf result Refusal.NoReceiver ↔ (length self.old.receivers ≤ receiver) }
        ensures err { OnErr result (self.new ≡ self.old) }
    {
        if receiver >= self.receivers.len() {
            return Err(Refusal::NoReceiver);
        }
        let queue = &mut self.receivers[receiver];
        let dropped = queue.comes(ticket, is_unit, until, now)?;
        self.ready.set(receiver, queue.may_go());
        Ok(told_of(receiver, dropped))
    }

    /// It is the network's turn: the next frame goes of the receiver whose turn it is, unless that frame is too late,
    /// and then it leaves. `None` where no frame may go, and then nothing changes. It takes no memory.
    pub fn turn(&mut self, now: u64) -> Option<ReceiverAnswer>
        ensures after { self.new ≡ network_step self.old (TurnOfOne now) }
        ensures answer { result ≡ option_map receiver_answer (network_answer self.old (TurnOfOne now)) }
    {
        let receiver = self.next_receiver()?;
        let queue = &mut self.receivers[receiver];
        let next = queue.turn(now);
        self.ready.set(receiver, queue.may_go());
        self.from = from_after(self.from, receiver, next);
        told_of(receiver, next)
    }

    /// It is the turn of a receiver that the caller chose: its next frame goes, unless that is too late, and then it
    /// leaves. The next turn of the network is looked for where it was before, and a pause doesn't hold this up. `None`
    /// where no frame of it would go, or there is no such receiver, and then nothing changes. It takes no memory
    /// (*profile*).
    pub fn turn_to(&mut self, receiver: usize, now: u64) -> Option<ReceiverAnswer>
        ensures after { self.new ≡ network_step self.old (To receiver (Turn now)) }
        ensures answer { result ≡ option_map receiver_answer (network_answer self.old (To receiver (Turn now))) }
    {
        if receiver >= self.receivers.len() {
            return None;
        }
        let queue = &mut self.receivers[receiver];
        let next = queue.turn(now);
        self.ready.set(receiver, queue.may_go());
        told_of(receiver, next)
    }

    /// The first frame of a receiver with this ticket that went was acknowledged, or nobody acknowledged it. `None`
    /// where none is out, or there is no such receiver, and then nothing changes.
    pub fn told(
        &mut self,
        receiver: usize,
        ticket: u64,
        is_acknowledged: bool,
    ) -> Option<ReceiverAnswer>
        ensures after { self.new ≡ network_step self.old (To receiver (Told ticket is_acknowledged)) }
        ensures answer { result
            ≡ option_map receiver_answer (network_answer self.old (To receiver (Told ticket is_acknowledged))) }
    {
        if receiver >= self.receivers.len() {
            return None;
        }
        let queue = &mut self.receivers[receiver];
        let answer = queue.told(ticket, is_acknowledged);
        self.ready.set(receiver, queue.may_go());
        told_of(receiver, answer)
    }

    /// The next frame of a receiver leaves that won't go. `None` where there is none, or no such receiver, and then
    /// nothing changes.
    pub fn returns(&mut self, receiver: usize) -> Option<ReceiverAnswer>
        ensures after { self.new ≡ network_step self.old (To receiver Returns) }
        ensures answer { result ≡ option_map receiver_answer (network_answer self.old (To receiver Returns)) }
    {
        if receiver >= self.receivers.len() {
            return None;
        }
        let queue = &mut self.receivers[receiver];
        let answer = queue.returns();
        self.ready.set(receiver, queue.may_go());
        told_of(receiver, answer)
    }

    /// The next frame of a receiver that would go leaves without going: its caller gives it up. `None` where none
    /// would go, or there is no such receiver, and then nothing changes (*profile*).
    pub fn gives_up(&mut self, receiver: usize) -> Option<ReceiverAnswer>
        ensures after { self.new ≡ network_step self.old (To receiver GivesUp) }
        ensures answer { result ≡ option_map receiver_answer (network_answer self.old (To receiver GivesUp)) }
    {
        if receiver >= self.receivers.len() {
            return None;
        }
        let queue = &mut self.receivers[receiver];
        let answer = queue.gives_up();
        self.ready.set(receiver, queue.may_go());
        told_of(receiver, answer)
    }

    /// The network is paused, or it isn't any more. While it is, it has no turn, and nothing else changes: frames come,
    /// are told of and leave as ever. A caller pauses it that waits for what became of all that went (*profile*).
    pub fn pauses(&mut self, is_paused: bool)
        ensures { self.new ≡ network_step self.old (Pauses is_paused) }
    {
        self.is_paused = is_paused;
    }

    /// The station at a place does this. `false` where there is no such receiver, and then nothing changes.
    pub fn change(&mut self, receiver: usize, change: StationChange) -> bool
        ensures after { self.new ≡ network_step self.old (To receiver (call_of change)) }
        ensures there { IsTrue result ↔ (receiver < length self.old.receivers) }
    {
        if receiver >= self.receivers.len() {
            return false;
        }
        let queue = &mut self.receivers[receiver];
        queue.change(change);
        self.ready.set(receiver, queue.may_go());
        true
    }

    /// Whether polls of the station at a place are ignored now ([`ReceiverQueue::ignores_polls`]). `false` where there
    /// is no such receiver.
    pub fn ignores_polls(&self, receiver: usize) -> bool
        ensures { result ≡ are_ignored (slice_get self.now.receivers receiver) }
    {
        match self.receivers.get(receiver) {
            Some(queue) => queue.ignores_polls(),
            None => false,
        }
    }

    /// The place of the receiver whose turn it is. There is none while the network is paused.
    fn next_receiver(&self) -> Option<usize>
        ensures turn { result ≡ turn_of self.now }
        ensures there { IfSome result (λ receiver. receiver < length self.now.receivers) }
    {
        if self.is_paused {
            return None;
        }
        match self.ready.first_from(self.from) {
            Some(receiver) => Some(receiver),
            None => self.ready.first_from(0),
        }
    }
}

/// From where on the next turn is looked for, after this became of a frame of a receiver: behind it, if the frame went.
fn from_after(from: usize, receiver: usize, next: Option<Answer>) -> usize
    requires { receiver + 1 < 2 ^ 64 }
    ensures { result ≡ from_after from (option_map (λ a. (receiver, a)) next) }
{
    match next {
        Some(answer) if answer.fate.is_sending() => receiver + 1,
        _ => from,
    }
}

/// An answer of a frame of the receiver at a place.
fn told_of(receiver: usize, answer: Option<Answer>) -> Option<ReceiverAnswer>
    ensures { result ≡ option_map (λ a. receiver_answer (receiver, a)) answer }
{
    answer.map(|answer| ReceiverAnswer { receiver, answer })
}
