//! Records: where one ends, and what came of one that is not whole.

ghost use Rattle.std.specs.Prelude.{◌≡◌, ◌↔◌, ◌+◌, ◌≤◌, ◌++◌, [], length, None, IfOk, IfSome, IsTrue};
ghost use Rattle.live_rules.specs.Records.{IsPartialRecord, IsRecord, lacking, record_len};

use mac_frame::NoMemory;
use std::alloc::Global;
use std::marker::Model;

/// How many octets stand before those of a record: its kind, a BSSID, and how many follow.
pub const HEADER_LEN: usize = 9;

/// The most octets of a record, those before them too.
const MAX_RECORD: usize = HEADER_LEN + 65_535;

/// How many octets a record has that begins so, once those are there that say it.
#[inline]
fn record_len(octets: &[u8]) -> Option<usize>
    ensures value { result ≡ record_len octets.now }
    ensures bounds { IfSome result (λ len. (9 ≤ len) × (len ≤ 65544)) }
{
    if octets.len() < HEADER_LEN {
        return None;
    }
    Some(HEADER_LEN + (usize::from(octets[7]) + 256 * usize::from(octets[8])))
}

/// The record at the front of these octets, and what follows it. `None` exactly if they are less than a record.
#[inline]
pub fn first_record(octets: &[u8]) -> Option<(&[u8], &[u8])>
    ensures whole { IfSome result (λ r. IsRecord r.0.now × (octets.now ≡ r.0.now ++ r.1.now)) }
    ensures some { IfSome result (λ r. 9 ≤ length r.0.now) }
    ensures none { (result ≡ None) ↔ IsPartialRecord octets.now }
{
    let len = record_len(octets)?;
    if octets.len() < len {
        return None;
    }
    Some(octets.split_at(len))
}

/// What came of a record, in memory that was taken when it was made. Contracts see its octets.
#[derive(Drop)]
pub struct PartialRecord {
    octets: Vec<u8>,
}

impl Model for PartialRecord {
    ghost use Rattle.std.specs.Prelude.{ℕ, ◌≤◌, List, vec_capacity};

    ghost Value = { List ℕ };

    ghost view = { λ r. r.octets.items };

    ghost invariant = { λ r. 65544 ≤ vec_capacity r.octets };
}

impl PartialRecord {
    /// A record of which nothing came. `NoMemory` if memory ran out.
    pub fn new(alloc: Global) -> Result<PartialRecord, NoMemory>
        ensures { IfOk result (λ partial. partial ≡ []) }
    {
        Ok(PartialRecord {
            octets: Vec::with_capacity(alloc, MAX_RECORD)?,
        })
    }

    /// Whether nothing came of it.
    pub fn is_empty(&self) -> bool
        ensures { IsTrue result ↔ (self.now ≡ []) }
    {
        self.octets.is_empty()
    }

    /// Its octets.
    pub fn as_slice(&self) -> &[u8]
        ensures { result.now ≡ self.now }
    {
        self.octets.as_slice()
    }

    /// How many octets it lacks, as far as that is known: those that say it, or the rest.
    pub fn lacking(&self) -> usize
        requires { IsPartialRecord self.now }
        ensures value { result ≡ lacking self.now }
        ensures some { 1 ≤ result }
        ensures most { length self.now + result ≤ 65544 }
    {
        match record_len(self.octets.as_slice()) {
            Some(len) => len - self.octets.len(),
            None => HEADER_LEN - self.octets.len(),
        }
    }

    /// More octets came of it. It takes no memory.
    pub fn add(&mut self, octets: &[u8])
        requires { length self.old + length octets.now ≤ 65544 }
        ensures { self.new ≡ self.old ++ octets.now }
    {
        self.octets.extend_from_slice(octets).unwrap();
    }

    /// Whether it is whole.
    pub fn is_whole(&self) -> bool
        ensures { IsTrue result ↔ IsRecord self.now }
    {
        record_len(self.octets.as_slice()) == Some(self.octets.len())
    }

    /// The next record begins, of which nothing came.
    pub fn begin(&mut self)
        ensures { self.new ≡ [] }
    {
        self.octets.clear();
    }
}
