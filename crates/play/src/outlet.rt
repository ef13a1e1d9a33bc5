//! By what frames leave the air queue while sources give their lines.

ghost use Rattle.std.specs.Prelude.{◌≡◌, ◌<◌, ◌++◌, ◌∷◌, ℕ, [], List, IfOk, OnOk, Some, length, slice_index_or, vec_len};
ghost use Rattle.std.specs.FinMap as finite;
ghost use Rattle.air_queue.specs.Passes.{AllThere, fresh_pass, fresh_radio};
ghost use Rattle.events.specs.declared.air_item.AirItem.{AirItem};
ghost use Rattle.play.specs.Kept.{IsLeft};

use crate::name::PlayName;
use crate::spares::Spares;
use air_queue::{AirQueue, ClosedQueue, NetPass, PopPass, RadioPass};
use events::AirItem;
use mac_frame::NoMemory;
use networks::SentFrames;
use std::alloc::Global;
use std::marker::{Model, PhantomData};
use std::sync::Wait;

/// What left.
#[derive(Drop)]
pub(crate) struct Left {
    /// For each network, in order of place, the frames of it that left.
    pub(crate) logs: Vec<SentFrames>,
    /// Whether the frames are kept in their order, too.
    keeps: bool,
    /// All frames, the first of them first, where they are kept so.
    pub(crate) items: Vec<AirItem>,
}

impl Left {
    /// Nothing, of this number of networks.
    fn new(alloc: Global, networks: usize, keeps: bool) -> Result<Left, NoMemory>
        ensures count { IfOk result (λ left. vec_len left.logs ≡ networks) }
        ensures keeps { IfOk result (λ left. left.keeps ≡ keeps) }
        ensures none { IfOk result (λ left. IsLeft networks keeps [] left.logs.items left.items.items) }
    {
        let mut logs = Vec::with_capacity(alloc, networks)?;
        for _ in 0..networks {
            logs.push_reserved(SentFrames::new(alloc));
        }
        Ok(Left {
            logs,
            keeps,
            items: Vec::new(alloc),
        })
    }

    /// Keeps a frame that left after those before. Its memory is spare then, where the frames are not kept in their order.
    #[inline(always)]
    fn keep(&mut self, item: AirItem, spares: &mut Spares) -> Result<(), NoMemory>
        requires { item.place < vec_len self.old.logs }
        ensures count { vec_len self.new.logs ≡ vec_len self.old.logs }
        ensures keeps { self.new.keeps ≡ self.old.keeps }
        ensures kept { (before : List AirItem)
            → IsLeft (vec_len self.old.logs) self.old.keeps before self.old.logs.items self.old.items.items
            → OnOk result (IsLeft (vec_len self.old.logs) self.old.keeps (before ++ item ∷ [])
            self.new.logs.items self.new.items.items) }
    {
        let AirItem { place, octets } = item;
        self.logs[place].push(octets.as_slice())?;
        if self.keeps {
            self.items.push(AirItem { place, octets })?;
        } else {
            spares.keep(octets);
        }
        Ok(())
    }
}

/// The radio's pass of the play N, and what left by it, as they stand under one lock. Unless memory ran out, this is all
/// that left.
#[derive(Drop)]
pub(crate) struct Outlet<N: PlayName> {
    pass: PopPass,
    left: Left,
    /// Memory ran out as a frame left, which is not kept.
    failed: bool,
    of: PhantomData<N>,
}

impl<N: PlayName> Model for Outlet<N> {
    ghost use Rattle.std.specs.Prelude.{◌≡◌, false, length, vec_len};
    ghost use Rattle.std.specs.FinMap as finite;
    ghost use Rattle.play.specs.Kept.{IsLeft};

    ghost Value = { Unit {0} };

    ghost view = { λ _. tt };

    ghost invariant = { λ o.
        (o.pass.name ≡ N.play.queue)
        × (o.pass.networks ≡ length N.play.config.networks)
        × (o.pass.taken_in ≡ finite.empty)
        × (vec_len o.left.logs ≡ length N.play.config.networks)
        × (o.left.keeps ≡ N.play.keeps)
        × (o.failed ≡ false
        → IsLeft (length N.play.config.networks) N.play.keeps o.pass.left o.left.logs.items o.left.items.items) };
}

impl<N: PlayName> Outlet<N> {
    /// That of a queue by which nothing left, for this number of networks. It keeps the frames in their order or not.
    pub(crate) fn new(
        alloc: Global,
        pass: RadioPass,
        networks: usize,
        keeps: bool,
    ) -> Result<Outlet<N>, NoMemory>
        requires networks { networks ≡ length N.play.config.networks }
        requires keeps { keeps ≡ N.play.keeps }
        requires pass { pass ≡ fresh_radio N.play.queue networks pass.spare }
    {
        Ok(Outlet {
            pass: pass.into_pop_pass(),
            left: Left::new(alloc, networks, keeps)?,
            failed: false,
            of: PhantomData,
        })
    }

    /// Lets frames leave, at most this many, and keeps them. `NoMemory` where memory ran out.
    pub(crate) fn leave<R: Wait>(
        &mut self,
        rt: &R,
        queue: &AirQueue,
        most: u16,
        spares: &mut Spares,
    ) -> Result<(), NoMemory>
        requires { queue.now.name ≡ N.play.queue }
    {
        for _ in 0..most {
            if !self.leave_first(rt, queue, spares)? {
                break;
            }
        }
        Ok(())
    }

    /// Lets the first frame of the queue leave, if there is one. Whether there was one.
    #[inline(always)]
    fn leave_first<R: Wait>(
        &mut self,
        rt: &R,
        queue: &AirQueue,
        spares: &mut Spares,
    ) -> Result<bool, NoMemory>
        requires { queue.now.name ≡ N.play.queue }
    {
        let Some(item) = queue.pop_item(rt, &mut self.pass) else {
            return Ok(false);
        };
        match self.left.keep(item, spares) {
            Ok(()) => Ok(true),
            Err(e) => {
                self.failed = true;
                Err(e)
            }
        }
    }

    /// All that left, which is for each network what it pushed, once all passes to the queue are back.
    pub(crate) fn end<R: Wait>(
        self,
        rt: &R,
        alloc: Global,
        queue: AirQueue,
        nets: Vec<NetPass>,
    ) -> Result<Left, NoMemory>
        requires queue { queue.name ≡ N.play.queue }
        requires nets { AllThere N.play.queue (length N.play.config.networks) nets.items }
        ensures count { IfOk result (λ left. vec_len left.logs ≡ length N.play.config.networks) }
        ensures pushed { IfOk result (λ left. (place : ℕ) → place < length N.play.config.networks
            → slice_index_or left.logs.items place [] ≡ (slice_index_or nets.items place (fresh_pass N.play.queue 0)).pushed) }
        ensures left { IfOk result (λ left. (items : List AirItem)
            × IsLeft (length N.play.config.networks) N.play.keeps items left.logs.items left.items.items) }
    {
        if self.failed {
            return Err(NoMemory);
        }
        let Outlet {
            pass,
            left,
            failed: _,
            of: _,
        } = self;
        let left = empty(rt, Spares::new(alloc), queue.close(pass, nets), left)?;
        Ok(left)
    }
}

/// Lets all frames leave that a queue holds, to which nobody pushes: what left of each network is what was pushed.
fn empty<R: Wait>(
    rt: &R,
    mut spares: Spares,
    mut queue: ClosedQueue,
    mut left: Left,
) -> Result<Left, NoMemory>
    requires count { queue.networks ≡ vec_len left.logs }
    requires left { IsLeft queue.networks left.keeps queue.left left.logs.items left.items.items }
    ensures count { IfOk result (λ all. vec_len all.logs ≡ vec_len left.logs) }
    ensures pushed { IfOk result (λ all. (place : ℕ) (pushed : List (List ℕ)) → place < length all.logs.items
        → finite.get queue.taken_in place ≡ Some pushed → slice_index_or all.logs.items place [] ≡ pushed) }
    ensures left { IfOk result (λ all. (items : List AirItem)
        × IsLeft queue.networks left.keeps items all.logs.items all.items.items) }
{
    for _ in rt.forever() {
        let Some(item) = queue.pop(rt) else {
            return Ok(left);
        };
        left.keep(item, &mut spares)?;
    }
    unreachable!()
}
