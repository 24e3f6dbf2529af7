ghost use Rattle.std.specs.Prelude.{◌≡◌, ◌<◌, ◌≤◌, ◌+◌, ◌-◌, ℕ, IfOk, IsTrue, length, replicate, slice_index_or};
ghost use Rattle.std.specs.Prelude.{slice_set};
ghost use Rattle.ob_store.specs.Owners.{owned_came, owned_left, owned_moved};

use crate::links::Links;
use crate::reserved::put_at;
use std::alloc::{AllocError, Global};
use std::marker::Model;

/// How many mutexes each thread below a limit owns, and a hint of where they are.
#[derive(Drop)]
pub(crate) struct Owners {
    // There is room for each thread below the limit; written are those up to the highest that owned a mutex.
    counts: Vec<u32>,
    links: Links,
}

impl Model for Owners {
    ghost use Rattle.std.specs.Prelude.{List, ℕ, vec_capacity};
    ghost use Rattle.least.specs.Padded.{padded};

    ghost Value = { List ℕ };

    ghost view = { λ o. padded 0 (vec_capacity o.counts) o.counts.items };
}

impl Owners {
    pub(crate) fn new(alloc: Global, slots: u32, threads: u32) -> Result<Owners, AllocError>
        ensures { IfOk result (λ owners. owners ≡ replicate threads 0) }
    {
        Ok(Owners {
            counts: Vec::with_capacity(alloc, threads as usize)?,
            links: Links::new(alloc, slots, threads)?,
        })
    }

    /// Whether a thread is counted, and owns none.
    pub(crate) fn has_none(&self, thread: u32) -> bool
        ensures none { IsTrue result → slice_index_or self.now thread 0 ≡ 0 }
        ensures within { IsTrue result → thread < length self.now }
    {
        (thread as usize) < self.counts.capacity() && self.count(thread) == 0
    }

    /// How many mutexes a thread owns; 0 for a thread whose mutexes aren't counted.
    pub(crate) fn count(&self, thread: u32) -> u32
        ensures { result ≡ slice_index_or self.now thread 0 }
    {
        self.counts.get(thread as usize).copied().unwrap_or(0)
    }

    /// The slot that is listed first for a thread, or a number past all slots.
    pub(crate) fn first(&self, thread: u32) -> u32 {
        self.links.first(thread)
    }

    #[inline(never)]
    fn fewer(&mut self, slot: u32, thread: u32)
        ensures { self.new ≡ slice_set self.old thread (slice_index_or self.old thread 0 - 1) }
    {
        let at = thread as usize;
        if at < self.counts.len() {
            self.counts[at] = self.counts[at].saturating_sub(1);
        }
        self.links.remove(thread, slot);
    }

    #[inline(never)]
    fn more(&mut self, slot: u32, thread: u32)
        requires { (t : ℕ) → slice_index_or self.old t 0 ≤ 65536 }
        ensures { self.new ≡ slice_set self.old thread (slice_index_or self.old thread 0 + 1) }
    {
        let count = self.count(thread);
        put_at(&mut self.counts, thread, count + 1, 0);
        self.links.add(thread, slot);
    }

    /// Takes the mutex of a slot from the thread that owned it, if any did.
    #[inline(always)]
    pub(crate) fn left(&mut self, slot: u32, owner: Option<u32>)
        ensures { self.new ≡ owned_left self.old owner }
    {
        if let Some(thread) = owner {
            self.fewer(slot, thread);
        }
    }

    /// Gives the mutex of a slot to the thread that owns it now, if any does.
    #[inline(always)]
    pub(crate) fn came(&mut self, slot: u32, owner: Option<u32>)
        requires { (t : ℕ) → slice_index_or self.old t 0 ≤ 65536 }
        ensures { self.new ≡ owned_came self.old owner }
    {
        if let Some(thread) = owner {
            self.more(slot, thread);
        }
    }

    /// The mutex of a slot passes from one owner to another.
    #[inline(always)]
    #[tactic(auto, using(crate::proofs::OwnerLaws::few_left))]
    pub(crate) fn moved(&mut self, slot: u32, before: Option<u32>, after: Option<u32>)
        requires { (t : ℕ) → slice_index_or self.old t 0 ≤ 65536 }
        ensures { self.new ≡ owned_moved self.old before after }
    {
        self.left(slot, before);
        self.came(slot, after);
    }
}
