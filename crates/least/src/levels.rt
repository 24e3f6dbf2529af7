ghost use Rattle.std.specs.Prelude.{◌≡◌, ◌≢◌, ℕ, ◌/◌, ◌<◌, ◌≤◌, ◌==◌, length, [], ◌∷◌, ◌++◌, true, false, replicate};
ghost use Rattle.std.specs.Prelude.{slice_set, Some, slice_get, IfOk, IfSome, OnOk, OnErr};
ghost use Rattle.std.specs.Int.{bit_at};
ghost use Rattle.least.specs.Bits.{bit};
ghost use Rattle.least.specs.From.{IsLeastFrom};
ghost use Rattle.least.specs.Levels.{SumsUp};
ghost use Rattle.least.specs.Taken.{is_free_within, is_taken, least_free, taken_count};

use crate::NUMBERS_MAX;
use crate::words::{
    add_word, clear, filled, low_bits, lowest, lowest_from, lowest_in, next_clear, rest_of_word,
    set, with_bit, without_bit,
};
use std::alloc::{AllocError, Global};
use std::marker::Model;

/// A set of numbers, of which each is taken or free, in levels of words. From the outside it is the list that says of
/// each number below its length whether it is taken; the numbers from there on are free.
// Bit n of the leaves is set where n is free and below the length. A bit of the middle level is set where a word of the
// leaves has a bit, and a bit of the top word where a word of the middle level has one.
#[derive(Drop)]
pub struct Levels {
    top: u64,
    middle: Vec<u64>,
    leaves: Vec<u64>,
    len: usize,
    // How many numbers are taken.
    count: usize,
}

/// Sets bit `n` of the middle level, and gives the top word for it. Words that had no bit are rare, so it stays apart.
#[inline(never)]
fn raised(top: u64, middle: &mut Vec<u64>, n: usize) -> u64
    requires within { n / 64 < length middle.old.items }
    requires at_most { length middle.old.items ≤ 16 }
    ensures bit_is { bit middle.new.items n ≡ 1 }
    ensures others { (k : ℕ) → k ≢ n → bit middle.new.items k ≡ bit middle.old.items k }
    ensures len { length middle.new.items ≡ length middle.old.items }
    ensures above { SumsUp (bit_at top) middle.old.items → SumsUp (bit_at result) middle.new.items }
{
    if !set(middle, n) {
        return top;
    }
    with_bit(top, n / 64)
}

/// Clears bit `n` of the middle level, and gives the top word for it. Words that lose their last bit are rare, so it
/// stays apart.
#[inline(never)]
fn lowered(top: u64, middle: &mut Vec<u64>, n: usize) -> u64
    requires within { n / 64 < length middle.old.items }
    requires at_most { length middle.old.items ≤ 16 }
    requires had { bit middle.old.items n ≡ 1 }
    ensures bit_is { bit middle.new.items n ≡ 0 }
    ensures others { (k : ℕ) → k ≢ n → bit middle.new.items k ≡ bit middle.old.items k }
    ensures len { length middle.new.items ≡ length middle.old.items }
    ensures above { SumsUp (bit_at top) middle.old.items → SumsUp (bit_at result) middle.new.items }
{
    if !clear(middle, n) {
        return top;
    }
    without_bit(top, n / 64)
}

/// The least bit of the middle level, from one on.
fn next_word(top: u64, middle: &Vec<u64>, from: usize) -> Option<usize>
    requires at_most { length middle.now.items ≤ 16 }
    requires summed { SumsUp (bit_at top) middle.now.items }
    ensures { IsLeastFrom from (λ w. bit middle.now.items w == 1) result }
{
    if let Some(w) = rest_of_word(middle, from) {
        return Some(w);
    }
    let m = lowest_from(top, from / 64 + 1)?;
    Some(lowest_in(middle, m))
}

impl Model for Levels {
    ghost use Rattle.std.specs.Prelude.{List, Bool};
    ghost use Rattle.least.specs.Levels.{taken_in, IsSummedUp};

    ghost Value = { List Bool };

    ghost view = { λ s. taken_in s.leaves.items s.len };

    ghost invariant = { λ s. IsSummedUp s.top s.middle.items s.leaves.items s.len s.count };
}

impl Levels {
    /// A set of no length: every number is free.
    pub fn new(alloc: Global) -> Levels
        ensures { result ≡ [] }
    {
        Levels {
            top: 0,
            middle: Vec::new(alloc),
            leaves: Vec::new(alloc),
            len: 0,
            count: 0,
        }
    }

    /// The length.
    #[tactic(auto, using(crate::proofs::LevelLemmas::length_taken_in))]
    pub(crate) fn len(&self) -> usize
        ensures value { result ≡ length self.now }
        ensures bound { result ≤ NUMBERS_MAX }
    {
        self.len
    }

    /// How many numbers are taken.
    #[tactic(auto, using(crate::proofs::CountLemmas::few_in))]
    pub fn taken_count(&self) -> usize
        ensures value { result ≡ taken_count self.now }
        ensures bound { result ≤ NUMBERS_MAX }
    {
        self.count
    }

    /// A set of length `n` in which every number is taken.
    #[tactic(auto, using(crate::proofs::LevelLemmas::no_word, crate::proofs::LevelLemmas::all_taken, crate::proofs::LevelLemmas::no_bit, crate::proofs::CountLemmas::all_in))]
    pub fn with_taken(alloc: Global, n: usize) -> Result<Levels, AllocError>
        requires { n ≤ NUMBERS_MAX }
        ensures { IfOk result (λ s. s ≡ replicate n true) }
    {
        let leaves = Vec::from_elem(alloc, 0u64, n.div_ceil(64))?;
        let middle = Vec::from_elem(alloc, 0u64, n.div_ceil(64 * 64))?;
        Ok(Levels {
            top: 0,
            middle,
            leaves,
            len: n,
            count: n,
        })
    }

    /// A set of length `n` in which every number is free. Taking these takes no memory.
    #[tactic(auto, using(crate::proofs::LevelLemmas::all_free))]
    pub fn with_free(alloc: Global, n: usize) -> Result<Levels, AllocError>
        requires { n ≤ NUMBERS_MAX }
        ensures { IfOk result (λ s. s ≡ replicate n false) }
    {
        let leaves = filled(alloc, n)?;
        let middle = filled(alloc, leaves.len())?;
        Ok(Levels {
            top: low_bits(middle.len()),
            middle,
            leaves,
            len: n,
            count: 0,
        })
    }

    /// The least free number: one that was given back, or the length.
    #[inline(always)]
    #[tactic(auto, using(crate::proofs::LevelLemmas::least_none, crate::proofs::LevelLemmas::length_taken_in))]
    pub fn least(&self) -> usize
        ensures value { result ≡ least_free self.now }
        ensures bound { result ≤ length self.now }
    {
        if self.top == 0 {
            return self.len;
        }
        let m = lowest(self.top);
        let w = lowest_in(&self.middle, m);
        lowest_in(&self.leaves, w)
    }

    /// The least free number from `from` on, of those below the length, found in a few word operations.
    pub fn next_free(&self, from: u32) -> Option<u32>
        ensures { IsLeastFrom from (is_free_within self.now) result }
    {
        if let Some(n) = rest_of_word(&self.leaves, from as usize) {
            return Some(n as u32);
        }
        let w = next_word(self.top, &self.middle, from as usize / 64 + 1)?;
        Some(lowest_in(&self.leaves, w) as u32)
    }

    /// The least number that is taken, from `from` on. It looks at 64 numbers at a time, one after another.
    #[tactic(auto, using(crate::proofs::NextLemmas::taken_test))]
    pub fn next_taken(&self, from: u32) -> Option<u32>
        ensures least { IsLeastFrom from (is_taken self.now) result }
        ensures within { IfSome result (λ n. n < NUMBERS_MAX) }
    {
        next_clear(&self.leaves, from, self.len)
    }

    /// Takes a free number below the length.
    #[inline]
    #[tactic(auto, using(crate::proofs::LevelLemmas::free_bit, crate::proofs::LevelLemmas::taken_cleared, crate::proofs::CountLemmas::few_in))]
    pub fn take(&mut self, n: usize)
        requires { slice_get self.old n ≡ Some false }
        ensures { self.new ≡ slice_set self.old n true }
    {
        self.count += 1;
        if !clear(&mut self.leaves, n) {
            return;
        }
        self.top = lowered(self.top, &mut self.middle, n / 64);
    }

    /// Makes a number free that is taken.
    #[inline]
    #[tactic(auto, using(crate::proofs::LevelLemmas::taken_freed, crate::proofs::CountLemmas::some_in, crate::proofs::CountLemmas::taken_within))]
    pub fn give_back(&mut self, n: usize)
        requires { slice_get self.old n ≡ Some true }
        ensures { self.new ≡ slice_set self.old n false }
    {
        self.count -= 1;
        if !set(&mut self.leaves, n) {
            return;
        }
        self.top = raised(self.top, &mut self.middle, n / 64);
    }

    /// Takes the number at the length, which is one more then. This is the one call that takes memory of a set that
    /// stands, and a set that lacks it stays as it was.
    #[tactic(auto, using(crate::proofs::LevelLemmas::taken_more, crate::proofs::LevelLemmas::length_taken_in, crate::proofs::LevelLemmas::pushed_bit, crate::proofs::CountLemmas::few_in))]
    pub fn grow(&mut self) -> Result<(), AllocError>
        requires { length self.old < NUMBERS_MAX }
        ensures ok { OnOk result (self.new ≡ self.old ++ true ∷ []) }
        ensures err { OnErr result (self.new ≡ self.old) }
    {
        if self.len < 64 * self.leaves.len() {
            self.len += 1;
            self.count += 1;
            return Ok(());
        }
        add_word(&mut self.middle, &mut self.leaves)?;
        self.len += 1;
        self.count += 1;
        Ok(())
    }
}
