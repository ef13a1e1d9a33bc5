//! What stands under a network's lock.

ghost use Rattle.std.specs.Prelude.{◌≡◌, ◌≢◌, ◌<◌, ◌++◌, List, [], ℕ, OnOk, IfOk, IfErr, drop, length, map, vec_len, slice_index_or, false, true};
ghost use Rattle.ap_config.specs.Places.{setting_at};
ghost use Rattle.ap_config.specs.declared.setting.Setting.{Setting};
ghost use Rattle.events.specs.Lines.{taken_of};
ghost use Rattle.events.specs.declared.event.Event.{Event};
ghost use Rattle.networks.specs.WithFrames.{after_events, sent_after};
ghost use Rattle.play.specs.Faults.{IsPlayFault};
ghost use Rattle.play.specs.Kept.{IsWholeAt};
ghost use Rattle.play.specs.Lines.{lines_of};
ghost use Rattle.play.specs.Sources.{lists_of};

use crate::batch::{Batch, ReadLine};
use crate::kept::{Given, PlayedNetwork};
use crate::name::PlayName;
use crate::sources::Sources;
use crate::spares::Spares;
use crate::{FinishFault, PlayFault};
use air_queue::{AirQueue, NetPass};
use events::AirItem;
use mac_frame::{NoMemory, Octets};
use networks::{NetworkWithFrames, SendingNetwork};
use std::alloc::Global;
use std::collections::VecDeque;
use std::marker::{Model, PhantomData};
use std::sync::Wait;

/// What became of the frames of a network.
#[derive(Clone, Copy, Debug)]
pub(crate) struct Handing {
    /// How many went to the air queue.
    pub(crate) count: u32,
    /// Whether some wait still, since the queue was full.
    pub(crate) waits: bool,
}

/// A network of the play N with its pass to the air queue, and how far each source has come with it, as they stand under
/// one lock. Unless memory ran out, the network is the one that the lines up to there made of it: what was pushed, and
/// then what waits, is all that it sent.
#[derive(Drop)]
pub(crate) struct Seat<N: PlayName> {
    network: SendingNetwork,
    /// Whether it is kept who gave each event.
    keeps: bool,
    /// Who gave each event that the network took, where that is kept.
    given: Vec<Given>,
    pass: NetPass,
    /// For each source the number of the next line that it gives to this network.
    next: Vec<usize>,
    /// Memory ran out as the network took an event. It takes no other one.
    failed: bool,
    of: PhantomData<N>,
}

impl<N: PlayName> Model for Seat<N> {
    ghost use Rattle.std.specs.Prelude.{◌≡◌, ◌<◌, false, length, vec_len};
    ghost use Rattle.networks.specs.WithFrames.{sent_after};
    ghost use Rattle.play.specs.Kept.{IsKeptAt, heard_up_to};

    ghost Value = { Unit {0} };

    ghost view = { λ _. tt };

    ghost invariant = { λ s.
        (s.pass.name ≡ N.play.queue)
        × (s.pass.place < length N.play.config.networks)
        × (vec_len s.next ≡ length N.play.sources)
        × (s.keeps ≡ N.play.keeps)
        × (s.failed ≡ false
        → IsKeptAt N.play s.pass.place (heard_up_to N.play s.pass.place s.next.items)
        (sent_after s.pass.pushed s.network) s.given.items) };
}

impl<N: PlayName> Seat<N> {
    /// The seat of a network that took no event, with its pass, by which nothing was pushed, for this number of sources.
    pub(crate) fn new(
        alloc: Global,
        network: NetworkWithFrames,
        pass: NetPass,
        sources: usize,
        keeps: bool,
    ) -> Result<Seat<N>, NoMemory>
        requires named { pass.name ≡ N.play.queue }
        requires place { pass.place < length N.play.config.networks }
        requires pushed { pass.pushed ≡ [] }
        requires network { network ≡ after_events (setting_at N.play.config pass.place) [] }
        requires sources { sources ≡ length N.play.sources }
        requires keeps { keeps ≡ N.play.keeps }
    {
        let next = vec![in alloc; 0; sources]?;
        Ok(Seat {
            network: SendingNetwork::of(alloc, network),
            keeps,
            given: Vec::new(alloc),
            pass,
            next,
            failed: false,
            of: PhantomData,
        })
    }

    /// Has the network take what it hears of some lines, if these are the next of their source, and hands on the frames
    /// that it sends. `NoMemory` where memory ran out.
    pub(crate) fn take<R: Wait>(
        &mut self,
        rt: &R,
        queue: &AirQueue,
        batch: &Batch<'_, N>,
        spares: &mut Spares,
    ) -> Result<Handing, NoMemory>
        requires { queue.now.name ≡ N.play.queue }
    {
        let mut count = 0u32;
        let mut waits = false;
        for place in 0..batch.lines.len() {
            self.take_line(batch, place, spares)?;
            if !waits {
                let handing = self.hand_all(rt, queue);
                count = count.saturating_add(handing.count);
                waits = handing.waits;
            }
        }
        Ok(Handing { count, waits })
    }

    /// Has the network take the line at a place of a batch if it hears it, where the line is the next of its source.
    #[inline(always)]
    fn take_line(
        &mut self,
        batch: &Batch<'_, N>,
        place: usize,
        spares: &mut Spares,
    ) -> Result<(), NoMemory>
        requires { place < vec_len batch.now.lines }
    {
        let source = batch.source;
        let number = batch.first + place;
        if self.failed || self.next[source] != number {
            return Ok(());
        }
        let line = &batch.lines[place];
        let by = Given {
            source,
            line: number,
        };
        let at = self.pass.place();
        match take_by(
            &mut self.network,
            &mut self.given,
            self.keeps,
            at,
            line,
            by,
            spares,
        ) {
            Ok(()) => {
                self.next[source] = number + 1;
                Ok(())
            }
            Err(e) => {
                self.failed = true;
                Err(e)
            }
        }
    }

    /// Hands the frames that wait to the air queue, the first of them first, until none waits or the queue is full.
    #[inline]
    pub(crate) fn hand_all<R: Wait>(&mut self, rt: &R, queue: &AirQueue) -> Handing
        requires { queue.now.name ≡ N.play.queue }
    {
        for count in 0..u32::MAX {
            if self.network.waiting.is_empty() {
                return Handing {
                    count,
                    waits: false,
                };
            }
            if !self.hand(rt, queue) {
                return Handing { count, waits: true };
            }
        }
        Handing {
            count: u32::MAX,
            waits: true,
        }
    }

    /// Hands the first frame that waits to the air queue, which goes on waiting where the queue is full. Whether it went
    /// there.
    #[inline(always)]
    fn hand<R: Wait>(&mut self, rt: &R, queue: &AirQueue) -> bool
        requires { queue.now.name ≡ N.play.queue }
    {
        hand_first(rt, queue, &mut self.pass, &mut self.network.waiting)
    }

    /// The network and its pass, where they are those at a place, it was given all lines of each source, and none of its
    /// frames waits.
    pub(crate) fn into_parts(
        self,
        place: usize,
        sources: Sources<'_>,
    ) -> Result<(PlayedNetwork, NetPass), PlayFault>
        requires { lists_of sources ≡ N.play.sources }
        ensures err { IfErr result IsPlayFault }
        ensures pass { IfOk result (λ r. (r.1.name ≡ N.play.queue) × (r.1.place ≡ place)) }
        ensures sent { IfOk result (λ r. IsWholeAt N.play place r.1.pushed r.0) }
    {
        if self.failed {
            return Err(PlayFault::NoMemory);
        }
        if !self.network.waiting.is_empty() {
            return Err(PlayFault::Finish(FinishFault::Uncovered));
        }
        if self.pass.place() != place || !are_ends(self.next.as_slice(), sources) {
            return Err(PlayFault::Finish(FinishFault::Uncovered));
        }
        let Seat {
            network,
            keeps: _,
            given,
            pass,
            next: _,
            failed: _,
            of: _,
        } = self;
        let SendingNetwork {
            network,
            waiting: _,
            wire,
        } = network;
        Ok((
            PlayedNetwork {
                network,
                wire,
                given,
            },
            pass,
        ))
    }
}

/// Hands the first of the frames that wait to the air queue by a pass. Where the queue is full, it goes on waiting. Whether
/// it went there.
#[inline(always)]
fn hand_first<R: Wait>(
    rt: &R,
    queue: &AirQueue,
    pass: &mut NetPass,
    waiting: &mut VecDeque<Octets>,
) -> bool
    requires { queue.now.name ≡ pass.old.name }
    ensures pass { (pass.new.name ≡ pass.old.name) × (pass.new.place ≡ pass.old.place) }
    ensures sent { pass.new.pushed ++ waiting.new.items ≡ pass.old.pushed ++ waiting.old.items }
    ensures went { result ≡ true → waiting.new.items ≡ drop 1 waiting.old.items }
    ensures full { result ≡ false → (waiting.new.items ≡ waiting.old.items) × (waiting.old.items ≢ []) }
{
    let Some(octets) = waiting.pop_front() else {
        return true;
    };
    let place = pass.place();
    match queue.push(rt, pass, AirItem { place, octets }) {
        Ok(()) => true,
        Err(AirItem { place: _, octets }) => {
            waiting.push_front_reserved(octets);
            false
        }
    }
}

/// Has the network at a place take a line, if it hears it, and keeps by whom the line was given, where that is kept and the
/// network took an event. `NoMemory` where memory ran out.
#[inline(always)]
fn take_by(
    network: &mut SendingNetwork,
    given: &mut Vec<Given>,
    keeps: bool,
    place: usize,
    line: &ReadLine<'_>,
    by: Given,
    spares: &mut Spares,
) -> Result<(), NoMemory>
    ensures taken { (s : Setting) (es : List Event) (gone : List (List ℕ)) → sent_after gone network.old ≡ after_events s es
        → OnOk result (sent_after gone network.new ≡ after_events s (es ++ taken_of place s.network es line.now)) }
    ensures given { (s : Setting) (es : List Event) (gone : List (List ℕ)) → sent_after gone network.old ≡ after_events s es
        → keeps ≡ true
        → OnOk result (given.new.items ≡ given.old.items ++ map (λ _. by) (taken_of place s.network es line.now)) }
{
    let before = network.network.events();
    take_heard(network, place, line, spares)?;
    let took = network.network.events() > before;
    if keeps && took {
        given.push(by)?;
    }
    Ok(())
}

/// Has the network at a place take a line, if it hears it. Where it sent a frame, memory for the next is made ready.
#[inline(always)]
fn take_heard(
    network: &mut SendingNetwork,
    place: usize,
    line: &ReadLine<'_>,
    spares: &mut Spares,
) -> Result<(), NoMemory>
    ensures { (s : Setting) (es : List Event) (gone : List (List ℕ)) → sent_after gone network.old ≡ after_events s es
        → OnOk result (sent_after gone network.new ≡ after_events s (es ++ taken_of place s.network es line.now)) }
{
    if !line.is_heard_by(place, network.network.setting().network.bssid) {
        return Ok(());
    }
    let waiting = network.waiting.len();
    network.take(line.event(), &mut spares.next)?;
    if network.waiting.len() > waiting {
        spares.refill();
    }
    Ok(())
}

/// Whether the next line of each source is past its last.
fn are_ends(next: &[usize], sources: Sources<'_>) -> bool
    requires { length next.now ≡ length (lists_of sources) }
    ensures { result ≡ true → (i : ℕ) → i < length (lists_of sources.entry)
        → slice_index_or next.now i 0 ≡ length (lines_of (lists_of sources.entry) i) }
{
    for source in 0..sources.len() {
        if next[source] != sources.lines(source) {
            return false;
        }
    }
    true
}
