ghost use Rattle.std.specs.Prelude.{◌≡◌, ℕ, ◌+◌, ◌<◌, ◌≤◌, ◌==◌, false, true, IfOk, IfErr, IfSome, IsSome, IsTrue};
ghost use Rattle.std.specs.Prelude.{None, Some, length, slice_index_or};
ghost use Rattle.std.specs.Option.{option_map};
ghost use Rattle.pin_words.specs.Keepers.{IsFresh};
ghost use Rattle.pin_words.specs.Views.{id_of};
ghost use Rattle.pin_core.specs.Descrs.{IsGiven};
ghost use Rattle.ob_arena.specs.Slots.{is_vacant_at, least_vacant};
ghost use Rattle.ob_waits.specs.Waits.{nowhere};
ghost use Rattle.ob_store.specs.Owners.{owns_at};
ghost use Rattle.ob_store.specs.Objects.{changed_at, kept_rest, name_in, object_of, tag_of, places_in, with_keeper};
ghost use Rattle.ob_store.specs.Objects.{vacant_places, vacancy, with_object, with_handle_of, with_handle_at};
ghost use Rattle.ob_store.specs.Objects.{with_handles_of, without_handle_of, with_block_of, with_blocks_of};
ghost use Rattle.ob_store.specs.Agreement.{ObjectsInvariant, Reclaimed};
ghost use Rattle.ob_store.specs.Ends.{slot_left_by};
ghost use Rattle.ob_store.specs.Ticks.{slot_fired};

use crate::found::Found;
use crate::object_headers::ObjectHeaders;
use ob_arena::SLOTS_MAX;
use ob_body::Body;
use ob_name::Name;
use ob_rights::{Kind, Rights};
use ob_tables::Entry;
use ob_waits::{Bodies, LAST_MOMENT};
use pin_core::{Descr, Id};
use pin_words::{PinKeeper, Reclaim};
use std::alloc::Global;
use std::marker::Model;

/// The objects in their slots, and the keeper of the slots.
///
/// An object's body goes with the last reference to it, and its slot closes then.
#[derive(Drop)]
pub struct Objects<K: PinKeeper> {
    pub(crate) headers: ObjectHeaders,
    pub(crate) births: u64,
    pub(crate) keeper: K,
}

impl<K: PinKeeper> Model for Objects<K> {
    ghost use Rattle.ob_store.specs.Objects.{ObjectsState, with_keeper};
    ghost use Rattle.ob_store.specs.Agreement.{ObjectsInvariant};

    ghost Value = { ObjectsState };

    ghost view = { λ o. with_keeper o.headers o.births (K.kept o.keeper) };

    ghost invariant = { λ o. ObjectsInvariant (with_keeper o.headers o.births (K.kept o.keeper)) };
}

impl<K: PinKeeper> Objects<K> {
    /// As many slots as the keeper has, and no object. The keeper comes back where memory is wanting. The mutexes of
    /// threads below `threads` are counted and listed, so that the end of a thread looks only at what it has. That
    /// takes 8 bytes for each slot and 8 for each of these threads.
    pub fn new(alloc: Global, slots: u32, threads: u32, keeper: K) -> Result<Objects<K>, K>
        requires fresh { IsFresh (K.kept keeper) (K.kept keeper).shape }
        requires slots { slots ≡ (K.kept keeper).shape.slots }
        requires most { slots ≤ SLOTS_MAX }
        requires first { 1 ≤ (K.kept keeper).shape.max_gen }
        requires last { (K.kept keeper).shape.max_gen ≤ 4294967295 }
        ensures ok { IfOk result (λ o. o ≡ with_keeper (vacant_places slots) 0 (K.kept keeper)) }
        ensures err { IfErr result (λ k. k ≡ keeper) }
    {
        match ObjectHeaders::new(alloc, slots, threads) {
            Ok(headers) => Ok(Objects {
                headers,
                births: 0,
                keeper,
            }),
            Err(_) => Err(keeper),
        }
    }

    /// How many slots there are.
    pub fn slots(&self) -> u32
        ensures { result ≡ self.now.keeper.shape.slots }
    {
        self.headers.len()
    }

    /// What holds of the objects and their keeper whenever no call is under way. It does nothing when it runs: callers
    /// call it where their proofs need the fact.
    pub fn kept(&self)
        ensures { ObjectsInvariant self.now }
    {
        let _ = &self.headers;
    }

    /// The least vacant slot.
    #[inline(always)]
    pub fn least_vacant(&self) -> Option<u32>
        ensures value { result ≡ least_vacant (vacancy (places_in self.now)) }
        ensures vacant { IfSome result (λ slot. is_vacant_at (vacancy (places_in self.now)) slot ≡ true) }
    {
        self.headers.least_vacant()
    }

    /// The object in a slot.
    pub fn look(&self, slot: u32) -> Option<Found<'_>>
        ensures object { slice_index_or self.now.objects slot None
            ≡ option_map (λ found. object_of found.header.now (tag_of found.label.now found.name.now)) result }
        ensures body { IfSome result (λ found. slice_index_or self.now.seen.bodies slot None ≡ found.header.now.body) }
        ensures handles { IfSome result (λ found. slice_index_or self.now.seen.handles slot 0
            ≡ found.header.now.handles) }
        ensures blocks { IfSome result (λ found. slice_index_or self.now.seen.blocks slot 0 ≡ found.header.now.blocks) }
        ensures id { IfSome result (λ found. found.header.now.id.slot ≡ slot) }
    {
        self.headers.look(slot)
    }

    /// The name of the object in a slot, if it has one.
    pub fn name(&self, slot: u32) -> Option<&Name>
        requires { IsSome (slice_index_or self.now.objects slot None) }
        ensures { option_map (λ name. name.now) result ≡ name_in (slice_index_or self.now.objects slot None) }
    {
        self.headers.name(slot)
    }

    /// How many places of pending waits name the object of a slot, which has a body.
    pub fn blocks(&self, slot: u32) -> u64
        requires { IsSome (slice_index_or self.now.seen.bodies slot None) }
        ensures { result ≡ slice_index_or self.now.seen.blocks slot 0 }
    {
        self.headers.blocks(slot)
    }

    /// The Id of a slot at its present generation.
    pub fn id_at(&self, slot: u32) -> Id
        requires { slot < self.now.keeper.shape.slots }
        ensures { result ≡ id_of self.now.keeper.slots slot }
    {
        let generation = self.keeper.generation(slot);
        Id { slot, generation }
    }

    /// Puts a new object with one handle into a vacant slot, and answers its Id. Its number is how many objects were
    /// made before it.
    #[inline(always)]
    pub fn add(
        &mut self,
        slot: u32,
        descr: Descr,
        grant: Rights,
        name: Option<Name>,
        body: Body,
    ) -> Id
        requires vacant { is_vacant_at (vacancy (places_in self.old)) slot ≡ true }
        requires given { IsGiven descr }
        ensures id { result ≡ id_of self.old.keeper.slots slot }
        ensures added { self.new ≡ with_object self.old slot
            (record { descr = descr; grant = grant; name = name }) body }
    {
        let id = self.id_at(slot);
        self.headers
            .add(id, self.births, descr, grant, name, Some(body), 1);
        self.births += 1;
        self.keeper.store_descr(slot, descr);
        self.keeper.publish(slot);
        id
    }

    /// Counts a further handle of an object that has a body.
    pub fn handle_came(&mut self, slot: u32)
        requires live { IsSome (slice_index_or self.old.seen.bodies slot None) }
        requires room { slice_index_or self.old.seen.handles slot 0 < 4294967295 }
        ensures { self.new ≡ with_handle_of self.old slot }
    {
        self.headers.handle_came(slot);
    }

    /// Counts the handle in the place of a table, if an entry is there, which is of an object that has a body.
    fn handle_came_at(&mut self, place: Option<Entry>)
        requires live { IfSome place (λ entry. IsSome (slice_index_or self.old.seen.bodies entry.id.slot None)) }
        requires room { (k : ℕ) → slice_index_or self.old.seen.handles k 0 < 4294967295 }
        ensures value { self.new ≡ with_handle_at self.old place }
        ensures bodies { self.new.seen.bodies ≡ self.old.seen.bodies }
        ensures room { (k : ℕ) → slice_index_or self.new.seen.handles k 0 ≤ slice_index_or self.old.seen.handles k 0
            + 1 }
    {
        if let Some(entry) = place {
            self.handle_came(entry.id.slot);
        }
    }

    /// Counts a handle for each entry of a table. Its objects have bodies.
    pub fn handles_came(&mut self, places: &[Option<Entry>])
        requires live { (i : ℕ) → IfSome (slice_index_or places.now i None)
            (λ entry. IsSome (slice_index_or self.old.seen.bodies entry.id.slot None)) }
        requires short { length places.now ≤ 16384 }
        requires room { (k : ℕ) → slice_index_or self.old.seen.handles k 0 + 16384 ≤ 4294967295 }
        ensures { self.new ≡ with_handles_of self.old places.now }
    {
        for place in places {
            self.handle_came_at(*place);
        }
    }

    /// Counts one handle fewer, and answers whether it was the last one. The object ends where that was the last
    /// reference to it.
    #[inline(always)]
    pub fn handle_left(&mut self, slot: u32) -> bool
        requires handled { 0 < slice_index_or self.old.seen.handles slot 0 }
        ensures value { self.new ≡ without_handle_of self.old slot }
        ensures last { result ≡ slice_index_or self.old.seen.handles slot 0 == 1 }
    {
        if self.headers.handles(slot) > 1 {
            self.headers.drop_handle(slot);
            return false;
        }
        self.last_handle_left(slot);
        true
    }

    // Most handles aren't the last of their objects, so what ends an object stands apart.
    #[inline(never)]
    fn last_handle_left(&mut self, slot: u32)
        requires { slice_index_or self.old.seen.handles slot 0 ≡ 1 }
        ensures { self.new ≡ without_handle_of self.old slot }
    {
        if self.headers.last_handle_left(slot) {
            self.keeper.close_slot(slot);
        }
    }

    /// Counts a further place of a pending wait that names the object, which has a body.
    pub fn block_came(&mut self, slot: u32)
        requires live { IsSome (slice_index_or self.old.seen.bodies slot None) }
        requires room { slice_index_or self.old.seen.blocks slot 0 < 18446744073709551615 }
        ensures { self.new ≡ with_block_of self.old slot }
    {
        self.headers.block_came(slot);
    }

    /// Counts each place of a wait that became pending.
    pub fn blocks_came(&mut self, ids: &[Id])
        requires live { (i : ℕ) → i < length ids.now
            → IsSome (slice_index_or self.old.seen.bodies (slice_index_or ids.now i nowhere).slot None) }
        requires short { length ids.now ≤ 64 }
        requires room { (k : ℕ) → slice_index_or self.old.seen.blocks k 0 + 64 ≤ 18446744073709551615 }
        ensures { self.new ≡ with_blocks_of self.old ids.now }
    {
        for id in ids {
            self.block_came(id.slot);
        }
    }

    /// Abandons the mutex in a slot where the thread owns it, and answers whether it did.
    pub fn abandon_at(&mut self, slot: u32, thread: u32) -> bool
        ensures owned { result ≡ owns_at thread self.old.seen.bodies slot }
        ensures seen { self.new.seen ≡ changed_at self.old.seen slot (slot_left_by thread) }
        ensures rest { kept_rest self.new ≡ kept_rest self.old }
    {
        let Some(mut body) = self.headers.body(slot) else {
            return false;
        };
        if body.owner() != Some(thread) {
            return false;
        }
        body.abandon(thread);
        self.headers.put(slot, body);
        true
    }

    /// Whether it is known that a thread owns no mutex.
    pub fn owns_none(&self, thread: u32) -> bool
        ensures { IsTrue result → (k : ℕ) → owns_at thread self.now.seen.bodies k ≡ false }
    {
        self.headers.owns_none(thread)
    }

    /// Fires the timer in a slot, if it is due.
    #[tactic(auto, using(crate::proofs::TickLaws::fired_another))]
    pub(crate) fn fire_at(&mut self, slot: u32, now: u64)
        requires { now ≤ LAST_MOMENT }
        ensures seen { self.new.seen ≡ changed_at self.old.seen slot (slot_fired now) }
        ensures rest { kept_rest self.new ≡ kept_rest self.old }
    {
        let Some(mut body) = self.headers.body(slot) else {
            return;
        };
        if body.kind() != Kind::Timer {
            return;
        }
        body.fire(now);
        self.headers.put(slot, body);
    }

    /// Takes the slot of an ended object back, unless somebody holds it: the object leaves the slot, and a slot at its
    /// last generation is given up for good.
    pub fn reclaim(&mut self, slot: u32) -> Reclaim
        requires object { IsSome (slice_index_or self.old.objects slot None) }
        requires ended { slice_index_or self.old.seen.bodies slot None ≡ None }
        ensures kind { Reclaimed self.old slot result self.new }
        ensures exact { K.reclaims self.old.keeper slot result self.new.keeper }
    {
        match self.keeper.reclaim(slot) {
            Reclaim::Freed => {
                self.headers.remove(slot);
                return Reclaim::Freed;
            }
            Reclaim::Retired => {
                self.headers.remove(slot);
                self.headers.retire(slot);
                return Reclaim::Retired;
            }
            Reclaim::Held { pins } => return Reclaim::Held { pins },
        }
    }

    /// How many mutexes a thread owns; 0 for a thread that isn't counted.
    pub fn owned_count(&self, thread: u32) -> u32 {
        self.headers.owned_count(thread)
    }

    /// The slot that is listed first for a thread, or a number past all slots where none is listed. It is a hint: a
    /// mutex that the thread owns is likely to be there.
    pub fn first_owned(&self, thread: u32) -> u32 {
        self.headers.first_owned(thread)
    }
}

impl<K: PinKeeper> Bodies for Objects<K> {
    ghost use Rattle.ob_store.specs.Objects.{KeptRest, kept_rest};

    ghost objects = { λ o. o.seen };

    ghost Rest = { KeptRest };

    ghost rest = { kept_rest };

    #[inline(always)]
    fn body(&self, id: Id) -> Option<Body> {
        self.headers.body(id.slot)
    }

    #[inline(always)]
    fn put(&mut self, id: Id, body: Body) {
        self.headers.put(id.slot, body);
    }

    #[inline]
    #[tactic(auto, using(crate::proofs::BodyLaws::signaled_some))]
    fn acquire(&mut self, id: Id, thread: u32) -> bool {
        self.headers.acquire(id, thread)
    }

    #[inline(always)]
    fn block_left(&mut self, id: Id) {
        if self.headers.block_left(id) {
            self.keeper.close_slot(id.slot);
        }
    }
}
