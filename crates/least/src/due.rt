ghost use Rattle.std.specs.Prelude.{◌≡◌, ℕ, ◌<◌, ◌≤◌, length, [], None, false, true, replicate, slice_set};
ghost use Rattle.std.specs.Prelude.{IfOk, IfSome, IfNone, OnOk};
ghost use Rattle.least.specs.Dues.{due_at, is_by, IsLeast, IsLeastSince};

use crate::best::{least_since, moment_at, place_of_least, raise, reach_both, reserve_both};
use std::alloc::{AllocError, Global};
use std::marker::Model;

/// Due moments by place: from the outside the list that has for each place its moment or none.
// The places are a tree too, in which places 2 * n + 1 and 2 * n + 2 stand below place n. For each the least moment at
// or below it is kept. A new place is a leaf, so the tree grows as the list does. There is room for `len` places in
// both, which are written up to the highest one that ever had a moment.
#[derive(Drop)]
pub struct Dues {
    dues: Vec<Option<u64>>,
    best: Vec<Option<u64>>,
    len: usize,
}

impl Model for Dues {
    ghost use Rattle.std.specs.Prelude.{◌≤◌, List, Option, None, ℕ, length, vec_capacity};
    ghost use Rattle.least.specs.Best.{IsWhole};
    ghost use Rattle.least.specs.Padded.{padded};

    ghost Value = { List (Option ℕ) };

    ghost view = { λ s. padded None s.len s.dues.items };

    ghost invariant = { λ s. IsWhole s.dues.items s.best.items
        × (length s.dues.items ≤ s.len) × (s.len ≤ vec_capacity s.dues) × (s.len ≤ vec_capacity s.best) };
}

impl Dues {
    /// A list with no place.
    pub fn new(alloc: Global) -> Dues
        ensures { result ≡ [] }
    {
        Dues {
            dues: Vec::new(alloc),
            best: Vec::new(alloc),
            len: 0,
        }
    }

    /// A list of so many places, of which none has a moment. Room for all of them is taken at once, 32 bytes each, so
    /// setting their moments takes no memory; pages are touched only up to the highest place that had a moment.
    pub fn with_places(alloc: Global, n: u32) -> Result<Dues, AllocError>
        ensures { IfOk result (λ dues. dues ≡ replicate n None) }
    {
        Ok(Dues {
            dues: Vec::with_capacity(alloc, n as usize)?,
            best: Vec::with_capacity(alloc, n as usize)?,
            len: n as usize,
        })
    }

    /// Adds places without a moment, up to this one. This is the one call that takes memory of a list that stands, and
    /// where that is wanting no moment changes.
    #[inline]
    pub fn make_room(&mut self, place: u32) -> Result<(), AllocError>
        ensures room { OnOk result (place < length self.new) }
        ensures same { (k : ℕ) → due_at self.new k ≡ due_at self.old k }
        ensures longer { length self.old ≤ length self.new }
    {
        if (place as usize) < self.len {
            return Ok(());
        }
        reserve_both(&mut self.dues, &mut self.best, place as usize + 1)?;
        self.len = place as usize + 1;
        Ok(())
    }

    /// The moment at a place, or none past the end.
    pub fn get(&self, place: u32) -> Option<u64>
        ensures { result ≡ due_at self.now place }
    {
        moment_at(&self.dues, place as usize)
    }

    /// The least moment, or none where no place has one.
    #[inline]
    pub fn least(&self) -> Option<u64>
        ensures { IsLeast self.now result }
    {
        moment_at(&self.best, 0)
    }

    /// The least moment from one on, or none where no place has one. It is read in constant time where no place has an
    /// earlier one; else each place is looked at.
    pub fn least_since(&self, from: u64) -> Option<u64>
        ensures { IsLeastSince from self.now result }
    {
        let least = self.least()?;
        if least >= from {
            return Some(least);
        }
        least_since(self.dues.as_slice(), from)
    }

    /// A place whose moment is the least, where that isn't after `now`. Where none is, that is known at once.
    pub fn due_by(&self, now: u64) -> Option<u32>
        ensures found { IfSome result (λ place. is_by now (due_at self.now place) ≡ true) }
        ensures least { IfSome result (λ place. IsLeast self.now (due_at self.now place)) }
        ensures none { IfNone result ((place : ℕ) → is_by now (due_at self.now place) ≡ false) }
    {
        let due = moment_at(&self.best, 0)?;
        if due > now {
            return None;
        }
        Some(place_of_least(&self.dues, &self.best) as u32)
    }

    /// Writes the moment at a place, or takes it away.
    pub fn set(&mut self, place: u32, due: Option<u64>)
        requires { place < length self.old }
        ensures { self.new ≡ slice_set self.old place due }
    {
        reach_both(&mut self.dues, &mut self.best, place as usize);
        self.dues[place as usize] = due;
        raise(&self.dues, &mut self.best, place as usize);
    }

    /// The same, where it is known what stands there: no more is done where that stays.
    #[inline(always)]
    pub fn moved(&mut self, place: u32, before: Option<u64>, after: Option<u64>)
        requires within { place < length self.old }
        requires before { due_at self.old place ≡ before }
        ensures { self.new ≡ slice_set self.old place after }
    {
        if before != after {
            self.set(place, after);
        }
    }

    /// Takes the moment at a place away, if there is such a place.
    pub fn clear(&mut self, place: u32)
        ensures { self.new ≡ slice_set self.old place None }
    {
        if (place as usize) < self.dues.len() {
            self.set(place, None);
        }
    }
}
