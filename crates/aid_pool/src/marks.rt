//! The numbers of a pool that are out: a bit for each association identifier (IEEE Std 802.11-2016, 9.4.1.8), 64 to a
//! word.

ghost use Rattle.std.specs.Prelude.{◌≡◌, ◌*◌, ◌<◌, ◌≤◌, ℕ, true, false, position, IsTrue, IfSome, IfNone};
ghost use Rattle.std.specs.Int.{bit_at};
ghost use Rattle.std.specs.FinSet as set;
ghost use Rattle.aid_pool.specs.Marks.{has_mark, has_clear_mark, IsFirstClear};

use mac_frame::MAX_AID;
use std::marker::Model;

/// How many words there are. The last has the marks of the numbers from 1984 on.
const WORDS: usize = MAX_AID as usize / 64 + 1;

/// A set of association identifiers, 1 to [`MAX_AID`]. None of its methods takes memory.
#[derive(Drop)]
pub struct Marks {
    // bit n mod 64 of word n / 64 is the mark of number n; that of 0, which is no identifier, is always set, so that 0
    // is never found free
    words: [u64; WORDS],
}

impl Model for Marks {
    ghost use Rattle.std.specs.Prelude.{◌≡◌, true};
    ghost use Rattle.std.specs.Ordering.{nat_cmp};
    ghost use Rattle.std.specs.Coded.{coded_ℕ};
    ghost use Rattle.std.specs.FinSet as set;
    ghost use Rattle.aid_pool.specs.Marks.{has_mark, numbers_of};

    ghost Value = { set.FinSet nat_cmp };

    ghost coded = { set.code coded_ℕ };

    ghost view = { λ m. numbers_of m.words };

    ghost invariant = { λ m. has_mark m.words 0 ≡ true };
}

impl Marks {
    /// The empty set.
    pub fn new() -> Marks
        ensures { result ≡ set.empty }
    {
        Marks { words: no_marks() }
    }

    /// Whether the set has a number. It never has one that is no identifier.
    pub fn has(&self, aid: u16) -> bool
        ensures value { result ≡ set.contains self.now aid }
        ensures first { IsTrue result → 1 ≤ aid }
        ensures last { IsTrue result → aid ≤ MAX_AID }
    {
        let words = &self.words;
        if aid == 0 || aid > MAX_AID {
            return false;
        }
        has_mark(words, aid)
    }

    /// Puts an identifier into the set. The others stay.
    pub fn set(&mut self, aid: u16)
        requires first { 1 ≤ aid }
        requires last { aid ≤ MAX_AID }
        ensures { self.new ≡ set.insert self.old aid }
    {
        self.words[usize::from(aid / 64)] |= 1 << (aid % 64);
    }

    /// Takes a number that the set has out of it. The others stay.
    pub fn clear(&mut self, aid: u16)
        requires { IsTrue (set.contains self.old aid) }
        ensures { self.new ≡ set.remove self.old aid }
    {
        self.words[usize::from(aid / 64)] &= !(1 << (aid % 64));
    }

    /// The least number from 1 on that the set hasn't. `None` only if it has each identifier.
    pub fn least_absent(&self) -> Option<u16>
        ensures first { IfSome result (λ n. 1 ≤ n) }
        ensures absent { IfSome result (λ n. set.contains self.now n ≡ false) }
        ensures least { IfSome result (λ n. (m : ℕ) → 1 ≤ m → m ≤ MAX_AID → m < n → set.contains self.now m ≡ true) }
        ensures none { IfNone result ((m : ℕ) → 1 ≤ m → m ≤ MAX_AID → set.contains self.now m ≡ true) }
    {
        let number = first_clear(&self.words)?;
        Some(number as u16)
    }
}

/// Words of which no mark is set but that of number 0.
fn no_marks() -> [u64; WORDS]
    ensures reserved { has_mark result 0 ≡ true }
    ensures others { (n : ℕ) → 1 ≤ n → has_mark result n ≡ false }
{
    let mut words = [0; WORDS];
    words[0] = 1;
    words
}

/// Whether the mark of a number is set.
fn has_mark(words: &[u64; WORDS], n: u16) -> bool
    requires { n ≤ MAX_AID }
    ensures { result ≡ has_mark words.now n }
{
    words[usize::from(n / 64)] >> (n % 64) & 1 == 1
}

/// The number of the first mark that isn't set.
fn first_clear(words: &[u64; WORDS]) -> Option<usize>
    ensures first { IfSome result (IsFirstClear words.now) }
    ensures none { IfNone result ((n : ℕ) → n < 64 * WORDS → has_mark words.now n ≡ true) }
{
    let place = first_not_full(words)?;
    Some(64 * place + ones(words[place]) as usize)
}

/// The place of the first word that has a mark that isn't set.
fn first_not_full(words: &[u64]) -> Option<usize>
    ensures { result ≡ position has_clear_mark words.now }
{
    words.iter().position(|word| *word != u64::MAX)
}

/// How many marks of a word are set before the first that isn't.
fn ones(word: u64) -> u32
    requires { word < u64.MAX }
    ensures within { result < 64 }
    ensures clear { bit_at word result ≡ 0 }
    ensures before { (k : ℕ) → k < result → bit_at word k ≡ 1 }
{
    word.trailing_ones()
}
