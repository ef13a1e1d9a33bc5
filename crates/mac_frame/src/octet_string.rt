//! A string of octets that can grow.

ghost use Rattle.std.specs.Prelude.{◌≡◌, ℕ, List, [], ◌++◌, take, OnOk, OnErr, IfOk};

use crate::memory::NoMemory;
use std::alloc::Global;
use std::marker::Model;

/// A string of octets. Contracts see it as a list.
#[derive(Debug, Drop)]
pub struct Octets {
    octets: Vec<u8>,
}

impl Model for Octets {
    ghost Value = { List ℕ };

    ghost view = { λ o. o.octets.items };
}

impl Octets {
    /// The empty string, which takes no memory.
    pub fn new(alloc: Global) -> Octets
        ensures { result ≡ [] }
    {
        Octets {
            octets: Vec::new(alloc),
        }
    }

    /// The octets of a vector, which it takes over.
    pub fn from_vec(octets: Vec<u8>) -> Octets
        ensures { result ≡ octets.items }
    {
        Octets { octets }
    }

    /// A copy of the octets. `NoMemory` if memory ran out.
    pub fn from_slice(alloc: Global, octets: &[u8]) -> Result<Octets, NoMemory>
        ensures { IfOk result (λ string. string ≡ octets.now) }
    {
        Ok(Octets {
            octets: Vec::from_slice(alloc, octets)?,
        })
    }

    /// Makes room for `count` octets more, so that a writer grows the string once. `NoMemory` if memory ran out;
    /// the string is as it was either way.
    #[inline(always)]
    pub fn reserve(&mut self, count: usize) -> Result<(), NoMemory>
        ensures { self.new ≡ self.old }
    {
        self.octets.reserve(count)?;
        Ok(())
    }

    /// Appends the octets. After `NoMemory` the string is as it was.
    #[inline(always)]
    pub fn append(&mut self, octets: &[u8]) -> Result<(), NoMemory>
        ensures ok { OnOk result (self.new ≡ self.old ++ octets.now) }
        ensures err { OnErr result (self.new ≡ self.old) }
    {
        self.octets.extend_from_slice(octets)?;
        Ok(())
    }

    /// Appends two parts, one after the other, or neither of them. After `NoMemory` the string is as it was.
    #[inline(always)]
    pub fn append_both(&mut self, first: &[u8], second: &[u8]) -> Result<(), NoMemory>
        ensures ok { OnOk result (self.new ≡ self.old ++ first.now ++ second.now) }
        ensures err { OnErr result (self.new ≡ self.old) }
    {
        let len = self.as_slice().len();
        self.reserve(first.len() + second.len())?;
        self.append(first)?;
        let written = self.append(second);
        self.roll_back(len, written)
    }

    /// Keeps the first `len` octets: all of them if there are fewer.
    pub fn truncate(&mut self, len: usize)
        ensures { self.new ≡ take len self.old }
    {
        self.octets.truncate(len);
    }

    /// What a writer answers that began at `len` octets: on `NoMemory` it takes back what it appended.
    #[inline(always)]
    pub fn roll_back(&mut self, len: usize, written: Result<(), NoMemory>) -> Result<(), NoMemory>
        ensures answer { result ≡ written }
        ensures ok { OnOk result (self.new ≡ self.old) }
        ensures err { OnErr result (self.new ≡ take len self.old) }
    {
        if written.is_err() {
            self.truncate(len);
        }
        written
    }

    /// A second string of the same octets. `NoMemory` if memory ran out.
    pub fn copy(&self, alloc: Global) -> Result<Octets, NoMemory>
        ensures { IfOk result (λ string. string ≡ self.now) }
    {
        Octets::from_slice(alloc, self.as_slice())
    }

    /// The octets.
    pub fn as_slice(&self) -> &[u8]
        ensures { result.now ≡ self.now }
    {
        self.octets.as_slice()
    }
}
