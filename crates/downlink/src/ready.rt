//! Which receivers have a frame that may go, so that none is looked for among all of a network.

ghost use Rattle.std.specs.Prelude.{◌≡◌, ◌*◌, ◌/◌, ◌^◌, ◌<◌, ◌≤◌, ◌+◌, ℕ, false, nat_eq, length, IfSome, IfNone, IfOk};
ghost use Rattle.std.specs.Prelude.{if◌then◌else◌};
ghost use Rattle.std.specs.Int.{bit_at};
ghost use Rattle.downlink.specs.Ready.{has_bit, IsFirstFrom};

use std::alloc::{AllocError, Global};

/// The places of the receivers of which a frame may go.
#[derive(Debug, Drop)]
pub(crate) struct ReadySet {
    // bit n mod 64 of word n / 64 tells of the receiver at place n
    words: Vec<u64>,
}

impl ReadySet {
    /// None of so many receivers.
    pub(crate) fn new(alloc: Global, receivers: usize) -> Result<ReadySet, AllocError>
        ensures room { IfOk result (λ set. length set.words.items ≡ receivers / 64 + 1) }
        ensures none { IfOk result (λ set. (place : ℕ) → has_bit set.words.items place ≡ false) }
    {
        let words = vec![in alloc; 0; receivers / 64 + 1]?;
        Ok(ReadySet { words })
    }

    /// Of the receiver at a place a frame may go from now on, or none.
    pub(crate) fn set(&mut self, place: usize, may_go: bool)
        requires { place / 64 < length self.old.words.items }
        ensures room { length self.new.words.items ≡ length self.old.words.items }
        ensures bits { (p : ℕ) → has_bit self.new.words.items p
            ≡ (if nat_eq p place then may_go else has_bit self.old.words.items p) }
    {
        let word = self.words[place / 64];
        self.words[place / 64] = with_bit(word, place % 64, may_go);
    }

    /// From a place on the first receiver of which a frame may go.
    pub(crate) fn first_from(&self, from: usize) -> Option<usize>
        requires { 64 * length self.now.words.items < 2 ^ 64 }
        ensures found { IfSome result (IsFirstFrom from (has_bit self.now.words.items)) }
        ensures none { IfNone result ((place : ℕ) → from ≤ place → has_bit self.now.words.items place ≡ false) }
    {
        first_set(self.words.as_slice(), from)
    }
}

/// From a place on the first bit that is set.
fn first_set(words: &[u64], from: usize) -> Option<usize>
    requires { 64 * length words.now < 2 ^ 64 }
    ensures found { IfSome result (IsFirstFrom from (has_bit words.now)) }
    ensures none { IfNone result ((place : ℕ) → from ≤ place → has_bit words.now place ≡ false) }
{
    let start = from / 64;
    if start >= words.len() {
        return None;
    }
    let rest = words[start] >> (from % 64);
    if rest != 0 {
        return Some(from + lowest_bit(rest));
    }
    for place in start + 1..words.len() {
        let word = words[place];
        if word != 0 {
            return Some(64 * place + lowest_bit(word));
        }
    }
    None
}

/// A word with one bit set or cleared. The others stay.
fn with_bit(word: u64, bit: usize, is_set: bool) -> u64
    requires { bit < 64 }
    ensures this { bit_at result bit ≡ (if is_set then 1 else 0) }
    ensures others { (i : ℕ) → i < 64 → (i ≡ bit → ⊥) → bit_at result i ≡ bit_at word i }
{
    if is_set {
        word | 1 << bit
    } else {
        word & !(1 << bit)
    }
}

/// The lowest bit of a word that is set.
fn lowest_bit(word: u64) -> usize
    requires { 0 < word }
    ensures within { result < 64 }
    ensures this { bit_at word result ≡ 1 }
    ensures lower { (i : ℕ) → i < result → bit_at word i ≡ 0 }
{
    word.trailing_zeros() as usize
}
