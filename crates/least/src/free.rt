ghost use Rattle.std.specs.Prelude.{◌≡◌, ◌<◌, ◌≤◌, ℕ, length, List, [], ◌∷◌, ◌++◌, true, false, replicate, slice_set};
ghost use Rattle.std.specs.Prelude.{Some, slice_get, IfOk, OnOk, OnErr};
ghost use Rattle.least.specs.Taken.{is_taken, least_free, taken_count};

use crate::levels::Levels;
use std::alloc::{AllocError, Global};
use std::marker::Model;

/// The greatest length of a set.
pub const NUMBERS_MAX: usize = 65_536;

/// A set of numbers as [`Levels`], with a spare.
// The spare is a free number that the levels still have as taken, so that a number that is given back and taken again
// changes no level.
#[derive(Drop)]
pub struct LeastFree {
    levels: Levels,
    spare: Option<usize>,
}

impl Model for LeastFree {
    ghost use Rattle.std.specs.Prelude.{List, Bool};
    ghost use Rattle.least.specs.Spare.{with_spare, IsSpare};

    ghost Value = { List Bool };

    ghost view = { λ s. with_spare s.levels s.spare };

    ghost invariant = { λ s. IsSpare s.levels s.spare };
}

impl LeastFree {
    /// A set of no length: every number is free.
    pub fn new(alloc: Global) -> LeastFree
        ensures { result ≡ [] }
    {
        LeastFree {
            levels: Levels::new(alloc),
            spare: None,
        }
    }

    /// A set of length `n` in which every number is taken.
    pub fn with_taken(alloc: Global, n: usize) -> Result<LeastFree, AllocError>
        requires { n ≤ NUMBERS_MAX }
        ensures { IfOk result (λ s. s ≡ replicate n true) }
    {
        let levels = Levels::with_taken(alloc, n)?;
        Ok(LeastFree {
            levels,
            spare: None,
        })
    }

    /// The length.
    fn len(&self) -> usize
        ensures { result ≡ length self.now }
    {
        self.levels.len()
    }

    /// How many numbers are taken.
    #[tactic(auto, using(crate::proofs::CountLemmas::one_fewer))]
    pub fn taken_count(&self) -> usize
        ensures value { result ≡ taken_count self.now }
        ensures bound { result ≤ NUMBERS_MAX }
    {
        let count = self.levels.taken_count();
        match self.spare {
            Some(_) => count - 1,
            None => count,
        }
    }

    /// The least free number: one that was given back, or the length.
    #[inline(always)]
    pub fn least(&self) -> usize
        ensures value { result ≡ least_free self.now }
        ensures bound { result ≤ length self.now }
    {
        let least = self.levels.least();
        match self.spare {
            Some(spare) if spare < least => spare,
            _ => least,
        }
    }

    /// Takes a free number below the length.
    #[inline]
    #[tactic(auto, using(crate::proofs::SpareLemmas::spare_taken, crate::proofs::SpareLemmas::free_in_levels, crate::proofs::SpareLemmas::still_spare, crate::proofs::SpareLemmas::with_spare_set))]
    pub fn take(&mut self, n: usize)
        requires { slice_get self.old n ≡ Some false }
        ensures { self.new ≡ slice_set self.old n true }
    {
        if self.spare == Some(n) {
            self.spare = None;
            return;
        }
        self.levels.take(n);
    }

    /// Makes a number free that is taken.
    #[inline]
    #[tactic(auto, using(crate::proofs::SpareLemmas::with_spare_set, crate::proofs::SpareLemmas::taken_in_levels))]
    pub fn give_back(&mut self, n: usize)
        requires { slice_get self.old n ≡ Some true }
        ensures { self.new ≡ slice_set self.old n false }
    {
        let Some(spare) = self.spare else {
            self.spare = Some(n);
            return;
        };
        if n < spare {
            self.spare = Some(n);
            self.levels.give_back(spare);
            return;
        }
        self.levels.give_back(n);
    }

    /// Takes the number at the length, which is one more then. This and [`make_room`](LeastFree::make_room)
    /// are the calls that take memory of a set that stands, and a set that lacks it stays as it was.
    #[tactic(auto, using(crate::proofs::SpareLemmas::with_spare_grown))]
    pub fn grow(&mut self) -> Result<(), AllocError>
        requires { length self.old < NUMBERS_MAX }
        ensures ok { OnOk result (self.new ≡ self.old ++ true ∷ []) }
        ensures err { OnErr result (self.new ≡ self.old) }
    {
        self.levels.grow()
    }
    /// Makes the set longer than a number, by numbers that are free, so that taking it takes no memory. Where memory is
    /// wanting no number is taken that wasn't.
    pub fn make_room(&mut self, n: usize) -> Result<(), AllocError>
        requires { n < NUMBERS_MAX }
        ensures room { OnOk result (n < length self.new) }
        ensures same { (k : ℕ) → is_taken self.new k ≡ is_taken self.old k }
        ensures longer { length self.old ≤ length self.new }
    {
        while self.len() <= n {
            let last = self.len();
            self.grow()?;
            self.give_back(last);
        }
        Ok(())
    }
}
