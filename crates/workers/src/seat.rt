//! What stands under a network's lock (*profile*).

ghost use Rattle.std.specs.Prelude.{◌≡◌, ◌≤◌, ◌+◌, [], true, length};
ghost use Rattle.std.specs.Fn.{FnOnceTakesAt, FnOnceReturnsAt};
ghost use Rattle.air_queue.specs.Passes.{NetPassView};
ghost use Rattle.network.specs.BssView.{BssView};
ghost use Rattle.workers.specs.Seats.{IsSeated, IsNetworkOf, AnswersEvent, HandsFrame, ToldView};

use crate::name::ApName;
use crate::outcome::Outcome;
use crate::waiting::{Told, Waiting};
use air_queue::{AirQueue, NetPass};
use events::{AirItem, Event, Handed};
use network::Bss;
use std::marker::{Model, PhantomData};
use std::sync::Wait;

/// A network of the access point N with its pass to the air queue, as they stand under one lock (*profile*). What was
/// pushed and then what waits is all that the network alone sends for its history: no frame is lost, doubled or
/// overtaken. If it told last that none waits, none does: so it tells before its lock is let go, and of its own place.
#[derive(Drop)]
pub struct Seat<N: ApName> {
    bss: Bss,
    pass: NetPass,
    told: Told,
    of: PhantomData<N>,
}

impl<N: ApName> Model for Seat<N> {
    ghost use Rattle.std.specs.Prelude.{◌≡◌, [], false};
    ghost use Rattle.workers.specs.Seats.{SeatView, IsSeated};

    ghost Value = { SeatView };

    ghost view = { λ s. record { network = s.bss; pass = s.pass } };

    ghost invariant = { λ s.
        IsSeated N.config N.queue s.bss s.pass
        × (s.told.place ≡ s.pass.place)
        × (s.told.waits ≡ false → s.bss.waiting ≡ []) };
}

impl<N: ApName> Seat<N> {
    /// The seat of a network that took no event, with what was told of it: that its frames may wait.
    pub(crate) fn new(bss: Bss, pass: NetPass, told: Told) -> Seat<N>
        requires seated { IsSeated N.config N.queue bss pass }
        requires fresh { bss.history ≡ [] }
        requires told { told ≡ record { place = pass.place; waits = true } }
        ensures { result ≡ record { network = bss; pass = pass } }
    {
        Seat {
            bss,
            pass,
            told,
            of: PhantomData,
        }
    }

    /// Offers the network an event, and tells whether frames wait then.
    pub(crate) fn take(&mut self, event: Event, waiting: &Waiting) -> Outcome
        ensures answer { AnswersEvent event self.old.network self.new.network result }
        ensures setting { self.new.network.setting ≡ self.old.network.setting }
        ensures bounded { length self.new.network.history ≤ self.new.network.setting.network.max_events }
        ensures pass { self.new.pass ≡ self.old.pass }
    {
        let outcome = Outcome::from(self.bss.take(event));
        let waits = self.bss.waiting_len() > 0;
        waiting.tell(&mut self.told, waits);
        outcome
    }

    /// Pushes the first frame that waits, which goes on waiting if it comes back.
    pub(crate) fn hand<R: Wait>(&mut self, rt: &R, queue: &AirQueue) -> Handed
        requires { queue.now.name ≡ N.queue }
        ensures answer { HandsFrame self.old self.new result }
        ensures history { self.new.network.history ≡ self.old.network.history }
    {
        let Some(octets) = self.bss.take_front() else {
            return Handed::Nothing;
        };
        let place = self.pass.place();
        match queue.push(rt, &mut self.pass, AirItem { place, octets }) {
            Ok(()) => Handed::Moved,
            Err(AirItem { place: _, octets }) => {
                self.bss.give_back(octets);
                Handed::QueueFull
            }
        }
    }

    /// Pushes the frames that wait, the first of them first, until none waits, which it tells, or one comes back.
    /// Answers how many it pushed.
    pub(crate) fn hand_all<R: Wait>(&mut self, rt: &R, queue: &AirQueue, waiting: &Waiting) -> u32
        requires { queue.now.name ≡ N.queue }
        ensures history { self.new.network.history ≡ self.old.network.history }
        ensures count { result + length self.new.network.waiting ≡ length self.old.network.waiting }
    {
        for count in 0..u32::MAX {
            match self.hand(rt, queue) {
                Handed::Moved => {}
                Handed::Nothing => {
                    waiting.tell(&mut self.told, false);
                    return count;
                }
                Handed::QueueFull => return count,
            }
        }
        u32::MAX
    }

    /// What `f` answers of the network.
    pub(crate) fn show<T, F: FnOnce(&Bss) -> T>(&self, f: F) -> T
        requires { (network : BssView) → IsNetworkOf N.config network → FnOnceTakesAt F.FnOnce f network }
        ensures { (network : BssView) × IsNetworkOf N.config network × FnOnceReturnsAt F.FnOnce f network result }
    {
        f(&self.bss)
    }

    /// The network and its pass.
    pub(crate) fn into_parts(self) -> (Bss, NetPass)
        ensures parts { (result.0 ≡ self.network) × (result.1 ≡ self.pass) }
        ensures seated { IsSeated N.config N.queue result.0 result.1 }
    {
        let Seat {
            bss,
            pass,
            told: _,
            of: _,
        } = self;
        (bss, pass)
    }
}
