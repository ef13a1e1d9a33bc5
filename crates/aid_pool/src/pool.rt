//! A pool of association identifiers (IEEE Std 802.11-2016, 9.4.1.8): which are out, and which is handed out next.

ghost use Rattle.std.specs.Prelude.{◌≡◌, ◌+◌, ◌<◌, ◌≤◌, ◌↔◌, ℕ, List, Bool, false, length, IsTrue, IsNone, IfSome, IfNone};
ghost use Rattle.std.specs.FinSet as set;
ghost use Rattle.aid_pool.specs.LeastFree.{IsLeastFree, least_free, is_among};
ghost use Rattle.aid_pool.specs.Taking.{MayBeTaken};

use crate::marks::Marks;
use mac_frame::MAX_AID;
use std::marker::Model;

/// The association identifiers of a network, numbers from 1 to [`MAX_AID`] (9.4.1.8): each is out or free. Contracts
/// see how many are out at most, and the set of those that are out. None of its methods takes memory.
#[derive(Drop)]
pub struct AidPool {
    most: u16,
    count: u16,
    out: Marks,
}

impl Model for AidPool {
    ghost use Rattle.std.specs.Prelude.{◌≡◌, ◌≤◌};
    ghost use Rattle.std.specs.FinSet as set;
    ghost use Rattle.aid_pool.specs.Pool.{Pool, pool_code};
    ghost use Rattle.mac_frame.specs.declared.management.TheConstants.{MAX_AID};

    ghost Value = { Pool };

    ghost coded = { pool_code };

    ghost view = { λ p. record { most = p.most; out = p.out } };

    ghost invariant = { λ p. record {
      count : p.count ≡ set.len p.out;
      few : p.count ≤ p.most;
      most : p.most ≤ MAX_AID;
    } };
}

impl AidPool {
    /// A pool that hands out at most `most` numbers at a time, 1 to [`MAX_AID`]. None is out.
    pub fn new(most: u16) -> AidPool
        requires some { 1 ≤ most }
        requires few { most ≤ MAX_AID }
        ensures { result ≡ record { most = most; out = set.empty } }
    {
        AidPool {
            most,
            count: 0,
            out: Marks::new(),
        }
    }

    /// Whether a number is out. One that is no identifier never is.
    pub fn is_out(&self, aid: u16) -> bool
        ensures value { result ≡ set.contains self.now.out aid }
        ensures first { IsTrue result → 1 ≤ aid }
        ensures last { IsTrue result → aid ≤ MAX_AID }
    {
        self.out.has(aid)
    }

    /// How many numbers are out: never more than the pool hands out at most.
    pub fn out_count(&self) -> u16
        ensures count { result ≡ set.len self.now.out }
        ensures few { result ≤ self.now.most }
        ensures limit { self.now.most ≤ MAX_AID }
    {
        self.count
    }

    /// The number that [`AidPool::take`] gives next: the least that is free (*profile*). `None` exactly if as many
    /// are out as the pool hands out at most.
    pub fn least(&self) -> Option<u16>
        ensures none { IsNone result ↔ (set.len self.now.out ≡ self.now.most) }
        ensures least { IfSome result (IsLeastFree (set.contains self.now.out)) }
        ensures number { IfSome result (λ aid. aid ≡ least_free (set.contains self.now.out)) }
    {
        if self.count == self.most {
            return None;
        }
        self.out.least_absent()
    }

    /// Takes the least number that is free (*profile*), which is out from then on. `None` exactly if as many are out
    /// as the pool hands out at most: then nothing changes.
    pub fn take(&mut self) -> Option<u16>
        ensures none { IsNone result ↔ (set.len self.old.out ≡ self.old.most) }
        ensures least { IfSome result (IsLeastFree (set.contains self.old.out)) }
        ensures number { IfSome result (λ aid. aid ≡ least_free (set.contains self.old.out)) }
        ensures taken { IfSome result (λ aid. self.new ≡ record self.old { out = set.insert self.old.out aid }) }
        ensures unchanged { IfNone result (self.new ≡ self.old) }
    {
        // The prover opens what the pool keeps, of which no more is out than may be, where a field is read.
        let _ = &self.out;
        let aid = self.least()?;
        self.put_out(aid);
        Some(aid)
    }

    /// Takes this number, which is out from then on, and answers whether it did. It takes none exactly if the number is
    /// no identifier (9.4.1.8) or is out, or if as many are out as the pool hands out at most (*profile*): then nothing
    /// changes.
    pub fn take_this(&mut self, aid: u16) -> bool
        ensures may { IsTrue result ↔ MayBeTaken aid self.old }
        ensures taken { IsTrue result → self.new ≡ record self.old { out = set.insert self.old.out aid } }
        ensures unchanged { result ≡ false → self.new ≡ self.old }
    {
        if aid == 0 || aid > MAX_AID || self.out_count() == self.most || self.is_out(aid) {
            return false;
        }
        self.put_out(aid);
        true
    }

    /// A number is out from then on. The others stay as they were.
    fn put_out(&mut self, aid: u16)
        requires { MayBeTaken aid self.old }
        ensures { self.new ≡ record self.old { out = set.insert self.old.out aid } }
    {
        self.count += 1;
        self.out.set(aid);
    }

    /// Takes a number back that is out: it is free from then on. The others stay as they were.
    pub fn give(&mut self, aid: u16)
        requires { IsTrue (set.contains self.old.out aid) }
        ensures { self.new ≡ record self.old { out = set.remove self.old.out aid } }
    {
        self.count -= 1;
        self.out.clear(aid);
    }
}

/// There is one least free number at most, which [`AidPool::least`] tells. Fewer than [`MAX_AID`] numbers leave one
/// free, of which the least is at most one more than there are of them (9.4.1.8; that the least is given is *profile*).
pub fn least_is_free()
    ensures only { (is_out : ℕ → Bool) (n : ℕ) → IsLeastFree is_out n → n ≡ least_free is_out }
    ensures some { (numbers : List ℕ) → length numbers < MAX_AID
        → IsLeastFree (is_among numbers) (least_free (is_among numbers)) }
    ensures bound { (numbers : List ℕ) → length numbers < MAX_AID
        → least_free (is_among numbers) ≤ length numbers + 1 }
{}
