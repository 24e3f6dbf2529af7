ghost use Rattle.std.specs.Prelude.{◌≡◌, ◌<◌, ◌≤◌, true, length, map, replicate, None, Some, is_some, slice_index_or};
ghost use Rattle.std.specs.Prelude.{IsSome, IfOk};
ghost use Rattle.std.specs.Borrow.{sem};
ghost use Rattle.least.specs.From.{IsLeastFrom};
ghost use Rattle.ob_arena.specs.Phases.{is_in_use, is_occupied};
ghost use Rattle.ob_arena.specs.Slots.{body_at, is_vacant_at, least_vacant, vacant_count, vacant_slots, with_body};
ghost use Rattle.ob_arena.specs.Slots.{with_retired, without_body};

use crate::phase::Phase;
use crate::storage::{Front, Storage, Title, allocate, deallocate, fits};
use least::Levels;
use std::alloc::{AllocError, Global};
use std::marker::Model;

/// The greatest number of slots (*profile*).
pub const SLOTS_MAX: u32 = 65_536;

/// Slots for bodies, numbered from 0: each is vacant, has a body, or is retired and never given again.
// A number of `free` is taken where the phase of the slot isn't vacant, so the least free number is the least vacant
// slot.
pub struct Arena<B> {
    front: Front<B>,
    storage: Storage<B>,
    title: Title<B, Global>,
    phases: Vec<Phase>,
    free: Levels,
    alloc: Global,
}

/// The least slot that is occupied, from one on.
fn next_body(free: &Levels, phases: &Vec<Phase>, from: u32) -> Option<u32>
    requires { free.now ≡ map is_in_use phases.now.items }
    ensures { IsLeastFrom from (λ k. is_occupied (slice_index_or phases.now.items k Phase.Vacant)) result }
{
    let mut at = from;
    while let Some(slot) = free.next_taken(at) {
        if phases[slot as usize].is_occupied() {
            return Some(slot);
        }
        at = slot + 1;
    }
    None
}

impl<B> Model for Arena<B> {
    ghost use Rattle.ob_arena.specs.Slots.{Slots, slots_code};

    ghost Value = { Slots B };

    ghost coded = { slots_code B.code };

    ghost use Rattle.ob_arena.specs.Arena.{slots_of, IsArena};

    ghost view = { slots_of };

    ghost invariant = { IsArena };
}

impl<B> Arena<B> {
    ghost use Rattle.ob_arena.specs.ArenaLends.{lends_body};

    /// An arena of `slots` slots, at most 65,536, which are all vacant.
    #[tactic(auto, using(crate::proofs::Phasing::shown_new))]
    pub fn new(alloc: Global, slots: u32) -> Result<Arena<B>, AllocError>
        requires { slots ≤ SLOTS_MAX }
        ensures { IfOk result (λ arena. arena ≡ vacant_slots slots) }
    {
        let len = slots as usize;
        if !fits::<B>(len) {
            return Err(AllocError);
        }
        let phases = Vec::from_elem(alloc, Phase::Vacant, len)?;
        let free = Levels::with_free(alloc, len)?;
        let (front, storage, title) = allocate(&alloc, len)?;
        Ok(Arena {
            front,
            storage,
            title,
            phases,
            free,
            alloc,
        })
    }

    /// Puts a body into a vacant slot.
    #[inline(always)]
    pub fn put(&mut self, slot: u32, body: B)
        requires { is_vacant_at self.old slot ≡ true }
        ensures { self.new ≡ with_body self.old slot body }
    {
        let at = slot as usize;
        self.storage.fill(self.front, at, body);
        self.phases[at] = Phase::Occupied;
        self.free.take(at);
    }

    /// How many slots there are.
    pub fn len(&self) -> u32
        ensures value { result ≡ length self.now.bodies }
        ensures bound { result ≤ SLOTS_MAX }
    {
        self.phases.len() as u32
    }

    /// Whether a slot has a body, as [`get`](Arena::get), [`get_mut`](Arena::get_mut) and [`take`](Arena::take) want
    /// it. A number past the slots names none.
    #[inline]
    #[tactic(auto, using(crate::proofs::Phasing::occupied_within))]
    pub fn is_occupied(&self, slot: u32) -> bool
        ensures { result ≡ is_some (body_at self.now slot) }
    {
        let at = slot as usize;
        at < self.phases.len() && self.phases[at].is_occupied()
    }

    /// The least slot with a body, from one on. It looks at 64 slots at a time from there to the one that it finds, and
    /// at each that is retired.
    pub fn next_occupied(&self, from: u32) -> Option<u32>
        ensures { IsLeastFrom from (λ slot. is_some (body_at self.now slot)) result }
    {
        next_body(&self.free, &self.phases, from)
    }

    /// The body of a slot that has one.
    #[inline]
    pub fn get(&self, slot: u32) -> &B
        requires { IsSome (body_at self.now slot) }
        ensures { body_at self.now slot ≡ Some result.now }
    {
        self.storage.show(self.front, slot as usize)
    }

    /// The body of a slot that has one, to change.
    pub fn get_mut(&mut self, slot: u32) -> &mut B
        requires { IsSome (body_at self.old slot) }
        ensures* writes_back { sem 𝓛 (lends_body B.row self.entry slot result) }
        ensures value { body_at self.old slot ≡ Some result.now }
    {
        self.storage.lend(self.front, slot as usize)
    }

    /// Takes the body out of a slot that has one. The slot is vacant then.
    #[inline(always)]
    pub fn take(&mut self, slot: u32) -> B
        requires { IsSome (body_at self.old slot) }
        ensures body { body_at self.old slot ≡ Some result }
        ensures after { self.new ≡ without_body self.old slot }
        ensures vacant { is_vacant_at self.new slot ≡ true }
    {
        let at = slot as usize;
        let body = self.storage.empty(self.front, at);
        self.phases[at] = Phase::Vacant;
        self.free.give_back(at);
        body
    }

    /// Whether a slot is vacant. A number past the slots names none, and a retired slot isn't vacant, so a slot that
    /// isn't vacant need not have a body: [`is_occupied`](Arena::is_occupied) tells that.
    #[tactic(auto, using(crate::proofs::Phasing::vacant_within))]
    pub fn is_vacant(&self, slot: u32) -> bool
        ensures { result ≡ is_vacant_at self.now slot }
    {
        let at = slot as usize;
        at < self.phases.len() && self.phases[at].is_vacant()
    }

    /// Retires a vacant slot.
    pub fn retire(&mut self, slot: u32)
        requires { is_vacant_at self.old slot ≡ true }
        ensures { self.new ≡ with_retired self.old slot }
    {
        let at = slot as usize;
        self.phases[at] = Phase::Retired;
        self.free.take(at);
    }

    /// The least vacant slot.
    #[inline(always)]
    #[tactic(auto, using(crate::proofs::Phasing::least_found, crate::proofs::Phasing::length_phases, crate::proofs::Phasing::none_found))]
    pub fn least_vacant(&self) -> Option<u32>
        ensures { result ≡ least_vacant self.now }
    {
        let at = self.free.least();
        if at < self.phases.len() {
            return Some(at as u32);
        }
        None
    }

    /// How many slots are vacant.
    #[tactic(auto, using(crate::proofs::Phasing::taken_few, crate::proofs::Phasing::vacant_counted))]
    pub fn vacant_count(&self) -> u32
        ensures { result ≡ vacant_count self.now }
    {
        self.len() - self.free.taken_count() as u32
    }

    /// Drops each body.
    fn clear(&mut self)
    where
        B: Drop,
        ensures { self.new.bodies ≡ replicate (length self.old.bodies) None }
    {
        for slot in 0..self.len() {
            if self.is_occupied(slot) {
                drop(self.take(slot));
            }
        }
    }

    /// Gives the memory of an arena without a body back.
    #[tactic(auto, using(crate::proofs::Phasing::length_phases))]
    fn destroy(self)
        requires { self.bodies ≡ replicate (length self.bodies) None }
    {
        let Arena {
            front,
            storage,
            title,
            phases,
            free: _,
            alloc,
        } = self;
        deallocate(&alloc, front, phases.len(), storage, title);
    }
}

impl<B: Drop> Drop for Arena<B> {
    /// Drops each body once, and gives the memory back.
    fn drop(mut self) {
        self.clear();
        self.destroy();
    }
}
