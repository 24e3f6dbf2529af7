ghost use Rattle.std.specs.Prelude.{◌≡◌, ◌<◌, ◌≤◌, ◌&&◌, ℕ, false, true, IfNone, IfOk, IfSome, IsSome, IsTrue};
ghost use Rattle.std.specs.Prelude.{None, Err, Ok, Some, is_some, if◌then◌else◌, length, slice_get, slice_index_or};
ghost use Rattle.std.specs.Prelude.{◌+◌, min, slice_set, vec_capacity};
ghost use Rattle.std.specs.Option.{option_map};
ghost use Rattle.least.specs.From.{IsLeastFrom};
ghost use Rattle.least.specs.Padded.{padded};
ghost use Rattle.ob_waits.specs.Form.{slot_due, slot_owner};
ghost use Rattle.ob_arena.specs.Slots.{is_vacant_at, least_vacant, vacant_count};
ghost use Rattle.ob_waits.specs.CountedBodies.{body_of, slot_room, without_block};
ghost use Rattle.ob_waits.specs.Waits.{is_abandoned, is_signaled, with_acquired};
ghost use Rattle.ob_store.specs.Closing.{is_closing_in};
ghost use Rattle.ob_store.specs.Owners.{owns_at};
ghost use Rattle.ob_store.specs.Ticks.{slot_is_due};
ghost use Rattle.ob_store.specs.Timers.{due_left};
ghost use Rattle.ob_store.specs.Objects.{name_in, no_tag, object_of, tag_of, tags_in, rest_of, vacant_places, vacancy};
ghost use Rattle.ob_store.specs.Objects.{with_handle, without_handle, is_last_handle, with_block, is_last_block};
ghost use Rattle.ob_store.specs.Objects.{without_header, with_retired, with_header_of};
ghost use Rattle.ob_store.specs.Counting.{counting_one, may_count};
ghost use Rattle.ob_store.specs.SavedObjects.{are_bodied, is_bodied};
ghost use Rattle.ob_store.specs.SavedWaits.{object_blocks, with_blocks_at};
ghost use Rattle.ob_codec.specs.declared.fault.TextFault.TheVariants.{Value};

use crate::found::Found;
use crate::label::Label;
use crate::object_header::ObjectHeader;
use crate::owners::Owners;
use least::{Dues, Levels};
use ob_arena::{Arena, SLOTS_MAX};
use ob_body::{Body, RECURSION_MAX};
use ob_name::Name;
use ob_rights::Rights;
use ob_waits::Waits;
use pin_core::{Descr, Id, same_id};
use std::alloc::{AllocError, Global};
use std::marker::Model;

/// The objects in their slots. An object's body goes with the last reference to it.
#[derive(Drop)]
pub(crate) struct ObjectHeaders {
    arena: Arena<ObjectHeader>,
    // By slot, beside the headers. There is room for each slot; those are written up to the highest that was used.
    labels: Vec<Label>,
    // By slot, where the label says that there is a name. What an object had stays until a name comes to its slot. They
    // are as many as the labels.
    names: Vec<Option<Name>>,
    owners: Owners,
    // By slot, when its timer is due.
    pub(crate) timers: Dues,
    // The slots whose objects ended are the free numbers.
    closing: Levels,
}

impl Model for ObjectHeaders {
    ghost use Rattle.ob_store.specs.Objects.{Places, places_of, tags_in};

    ghost Value = { Places };

    ghost view = { λ s. places_of s.arena (tags_in s.labels.items s.names.items) };

    ghost use Rattle.std.specs.Prelude.{min, vec_capacity};
    ghost use Rattle.ob_store.specs.Timers.{AreNoted};

    // Hidden from the value: how many mutexes each thread owns, when the timer in each slot is due, in which slots an
    // object ended, and that there are labels and places for names.
    ghost invariant = { λ s. AreNoted s.arena.bodies s.owners s.timers s.closing s.labels.items s.names.items
        (min (vec_capacity s.labels) (vec_capacity s.names)) };
}

/// The thread that owns a mutex; none for other objects and where nobody does.
pub(crate) fn owner_of(body: Option<Body>) -> Option<u32>
    ensures { result ≡ slot_owner body }
{
    match body {
        Some(body) => body.owner(),
        None => None,
    }
}

/// When a timer is due; none for other objects and for a timer that isn't set.
fn due_of(body: Option<Body>) -> Option<u64>
    ensures { result ≡ slot_due body }
{
    match body {
        Some(body) => body.due(),
        None => None,
    }
}

/// Forgets the timer of a slot whose body went, if it was set.
#[inline]
fn due_left(timers: &mut Dues, slot: u32, due: Option<u64>)
    requires { slot < length timers.old }
    ensures { timers.new ≡ due_left timers.old slot due }
{
    if due.is_some() {
        timers.set(slot, None);
    }
}

/// Adds the slot of an object, if that has ended.
#[inline(always)]
fn close(closing: &mut Levels, slot: u32, ended: bool)
    requires { ended ≡ true → slice_get closing.old slot ≡ Some true }
    ensures { closing.new ≡ if ended then slice_set closing.old slot false else closing.old }
{
    if ended {
        closing.give_back(slot as usize);
    }
}

/// Writes labels and places for names, each with nothing, up to those of a slot.
#[inline(always)]
fn reach_label(labels: &mut Vec<Label>, names: &mut Vec<Option<Name>>, slot: usize)
    requires room { slot < min (vec_capacity labels.old) (vec_capacity names.old) }
    requires named { length names.old.items ≡ length labels.old.items }
    ensures value { tags_in labels.new.items names.new.items
        ≡ padded no_tag (slot + 1) (tags_in labels.old.items names.old.items) }
    ensures there { slot < length labels.new.items }
    ensures more { length labels.old.items ≤ length labels.new.items }
    ensures named { length names.new.items ≡ length labels.new.items }
    ensures room { min (vec_capacity labels.new) (vec_capacity names.new)
        ≡ min (vec_capacity labels.old) (vec_capacity names.old) }
{
    while labels.len() <= slot {
        labels.push_reserved(Label::none());
        names.push_reserved(None);
    }
}

/// Gives a slot a label and a name, if there is one. The name that stood there is let go.
#[inline(always)]
fn relabel(
    labels: &mut Vec<Label>,
    names: &mut Vec<Option<Name>>,
    slot: u32,
    birth: u64,
    descr: Descr,
    name: Option<Name>,
)
    requires labelled { slot < length labels.old.items }
    requires named { slot < length names.old.items }
    ensures value { tags_in labels.new.items names.new.items
        ≡ slice_set (tags_in labels.old.items names.old.items) slot
        (record { birth = birth; descr = descr; name = name }) }
    ensures labels { length labels.new.items ≡ length labels.old.items }
    ensures names { length names.new.items ≡ length names.old.items }
    ensures room { min (vec_capacity labels.new) (vec_capacity names.new)
        ≡ min (vec_capacity labels.old) (vec_capacity names.old) }
{
    let Some(name) = name else {
        labels[slot as usize] = Label {
            birth,
            descr,
            is_named: false,
        };
        return;
    };
    labels[slot as usize] = Label {
        birth,
        descr,
        is_named: true,
    };
    names[slot as usize] = Some(name);
}

impl ObjectHeaders {
    /// Slots without an object. The mutexes of threads below `threads` are counted and listed.
    pub(crate) fn new(alloc: Global, slots: u32, threads: u32) -> Result<ObjectHeaders, AllocError>
        requires { slots ≤ SLOTS_MAX }
        ensures { IfOk result (λ headers. headers ≡ vacant_places slots) }
    {
        Ok(ObjectHeaders {
            arena: Arena::new(alloc, slots)?,
            labels: Vec::with_capacity(alloc, slots as usize)?,
            names: Vec::with_capacity(alloc, slots as usize)?,
            owners: Owners::new(alloc, slots, threads)?,
            timers: Dues::with_places(alloc, slots)?,
            closing: Levels::with_taken(alloc, slots as usize)?,
        })
    }

    /// Whether it is known that a thread owns no mutex.
    pub(crate) fn owns_none(&self, thread: u32) -> bool
        ensures { IsTrue result → (k : ℕ) → owns_at thread self.now.seen.bodies k ≡ false }
    {
        self.owners.has_none(thread)
    }

    /// How many mutexes a thread owns; 0 for a thread that isn't counted.
    pub(crate) fn owned_count(&self, thread: u32) -> u32 {
        self.owners.count(thread)
    }

    /// The slot that is listed first for a thread, or a number past all slots.
    pub(crate) fn first_owned(&self, thread: u32) -> u32 {
        self.owners.first(thread)
    }

    /// A slot whose timer is due. Where none is, that is known at once.
    pub(crate) fn next_due(&self, now: u64) -> Option<u32>
        ensures found { IfSome result (λ slot. slot_is_due now (slice_index_or self.now.seen.bodies slot None) ≡ true) }
        ensures none { IfNone result ((k : ℕ) → slot_is_due now (slice_index_or self.now.seen.bodies k None) ≡ false) }
    {
        self.timers.due_by(now)
    }

    /// The least slot whose object ended, from `from` on.
    pub(crate) fn next_closing(&self, from: u32) -> Option<u32>
        ensures { IsLeastFrom from (is_closing_in self.now.objects self.now.seen.bodies) result }
    {
        self.closing.next_free(from)
    }

    /// The least slot with an object, from `from` on.
    pub(crate) fn next_object(&self, from: u32) -> Option<u32>
        ensures { IsLeastFrom from (λ slot. is_some (slice_index_or self.now.objects slot None)) result }
    {
        self.arena.next_occupied(from)
    }

    /// How many slots there are.
    pub(crate) fn len(&self) -> u32
        ensures { result ≡ length self.now.objects }
    {
        self.arena.len()
    }

    /// The least vacant slot.
    #[inline(always)]
    pub(crate) fn least_vacant(&self) -> Option<u32>
        ensures value { result ≡ least_vacant (vacancy self.now) }
        ensures vacant { IfSome result (λ slot. is_vacant_at (vacancy self.now) slot ≡ true) }
    {
        self.arena.least_vacant()
    }

    /// How many slots are vacant.
    pub(crate) fn vacant_count(&self) -> u32
        ensures { result ≡ vacant_count (vacancy self.now) }
    {
        self.arena.vacant_count()
    }

    /// The object in a slot.
    pub(crate) fn look(&self, slot: u32) -> Option<Found<'_>>
        ensures object { slice_index_or self.now.objects slot None
            ≡ option_map (λ found. object_of found.header.now (tag_of found.label.now found.name.now)) result }
        ensures body { IfSome result (λ found. slice_index_or self.now.seen.bodies slot None ≡ found.header.now.body) }
        ensures handles { IfSome result (λ found. slice_index_or self.now.seen.handles slot 0
            ≡ found.header.now.handles) }
        ensures blocks { IfSome result (λ found. slice_index_or self.now.seen.blocks slot 0 ≡ found.header.now.blocks) }
    {
        if !self.arena.is_occupied(slot) {
            return None;
        }
        Some(Found {
            header: self.arena.get(slot),
            label: &self.labels[slot as usize],
            name: &self.names[slot as usize],
        })
    }

    /// The name of the object in a slot, if it has one.
    pub(crate) fn name(&self, slot: u32) -> Option<&Name>
        requires { IsSome (slice_index_or self.now.objects slot None) }
        ensures { option_map (λ name. name.now) result ≡ name_in (slice_index_or self.now.objects slot None) }
    {
        let name = &self.names[slot as usize];
        if self.labels[slot as usize].is_named {
            name.as_ref()
        } else {
            None
        }
    }

    /// How many places of pending waits name the object in a slot.
    pub(crate) fn blocks(&self, slot: u32) -> u64
        requires { IsSome (slice_index_or self.now.objects slot None) }
        ensures { result ≡ slice_index_or self.now.seen.blocks slot 0 }
    {
        self.arena.get(slot).blocks
    }

    /// Puts an object with so many handles and no block into the vacant slot of its Id.
    #[inline(always)]
    pub(crate) fn add(
        &mut self,
        id: Id,
        birth: u64,
        descr: Descr,
        grant: Rights,
        name: Option<Name>,
        body: Option<Body>,
        handles: u32,
    )
        requires { is_vacant_at (vacancy self.old) id.slot ≡ true }
        ensures value { self.new ≡ with_header_of self.old id.slot
            (record { id = id; birth = birth; descr = descr; grant = grant; name = name }) body handles }
        ensures handles { slice_index_or self.new.seen.handles id.slot 0 ≡ handles }
    {
        let header = ObjectHeader {
            id,
            handles,
            grant,
            blocks: 0,
            body,
        };
        self.arena.put(id.slot, header);
        reach_label(&mut self.labels, &mut self.names, id.slot as usize);
        relabel(
            &mut self.labels,
            &mut self.names,
            id.slot,
            birth,
            descr,
            name,
        );
        self.owners.came(id.slot, owner_of(body));
        self.timers.moved(id.slot, None, due_of(body));
        close(&mut self.closing, id.slot, body.is_none());
    }

    /// Counts a further handle.
    pub(crate) fn handle_came(&mut self, slot: u32)
        requires object { IsSome (slice_index_or self.old.objects slot None) }
        requires room { slice_index_or self.old.seen.handles slot 0 < 4294967295 }
        ensures { self.new ≡ with_handle self.old slot }
    {
        self.arena.get_mut(slot).handles += 1;
    }

    // Whether the object of an Id is there, and its count has room.
    fn may_count(&self, id: Id) -> bool
        ensures { result ≡ may_count self.now id }
    {
        match self.look(id.slot) {
            Some(found) => same_id(found.header.id, id) && found.header.handles < u32::MAX,
            None => false,
        }
    }

    /// Counts a further handle of the object of an Id, and answers whether the object is there and its count had room.
    pub(crate) fn count_handle(&mut self, id: Id) -> bool
        ensures counted { IsTrue result → counting_one self.old id ≡ Ok self.new }
        ensures refused { result ≡ false → counting_one self.old id ≡ Err Value }
    {
        if !self.may_count(id) {
            return false;
        }
        self.handle_came(id.slot);
        true
    }

    // Whether a slot has a body exactly where something refers to its object.
    fn is_bodied(&self, slot: u32) -> bool
        ensures { result ≡ is_bodied self.now.seen slot }
    {
        if !self.arena.is_occupied(slot) {
            return true;
        }
        let header = self.arena.get(slot);
        if header.handles > 0 || header.blocks > 0 {
            return header.body.is_some();
        }
        header.body.is_none()
    }

    /// Whether each slot has a body exactly where something refers to its object.
    pub(crate) fn are_bodied(&self) -> bool
        ensures { result ≡ are_bodied self.now.seen (length self.now.objects) }
    {
        (0..self.len()).all(|slot| self.is_bodied(slot))
    }

    /// How many handles name the object in a slot.
    pub(crate) fn handles(&self, slot: u32) -> u32
        requires { IsSome (slice_index_or self.now.objects slot None) }
        ensures { result ≡ slice_index_or self.now.seen.handles slot 0 }
    {
        self.arena.get(slot).handles
    }

    /// Counts one handle fewer, where there are more.
    pub(crate) fn drop_handle(&mut self, slot: u32)
        requires object { IsSome (slice_index_or self.old.objects slot None) }
        requires more { 1 < slice_index_or self.old.seen.handles slot 0 }
        ensures { self.new ≡ without_handle self.old slot }
    {
        self.arena.get_mut(slot).handles -= 1;
    }

    /// Counts the last handle no longer, and answers whether the object ended.
    #[inline]
    pub(crate) fn last_handle_left(&mut self, slot: u32) -> bool
        requires object { IsSome (slice_index_or self.old.objects slot None) }
        requires handled { 0 < slice_index_or self.old.seen.handles slot 0 }
        ensures value { self.new ≡ without_handle self.old slot }
        ensures ended { result ≡ is_some (slice_index_or self.old.seen.bodies slot None)
            && is_last_handle self.old slot }
    {
        let gone = self.arena.get_mut(slot).handle_left();
        self.owners.left(slot, owner_of(gone));
        due_left(&mut self.timers, slot, due_of(gone));
        close(&mut self.closing, slot, gone.is_some());
        gone.is_some()
    }

    /// Counts a further place of a pending wait that names the object.
    pub(crate) fn block_came(&mut self, slot: u32)
        requires object { IsSome (slice_index_or self.old.objects slot None) }
        requires room { slice_index_or self.old.seen.blocks slot 0 < 18446744073709551615 }
        ensures { self.new ≡ with_block self.old slot }
    {
        self.arena.get_mut(slot).blocks += 1;
    }

    /// Counts the blocks of the object in a slot, if there is one.
    pub(crate) fn count_blocks(&mut self, slot: u32, waits: &Waits)
        ensures { self.new ≡ with_blocks_at self.old slot
            (object_blocks waits.now.waits (slice_index_or self.old.objects slot None)) }
    {
        if !self.arena.is_occupied(slot) {
            return;
        }
        let blocks = waits.blocks_of(self.arena.get(slot).id);
        self.arena.get_mut(slot).blocks = blocks;
    }

    /// Removes an object without a body from its slot, which is vacant then.
    pub(crate) fn remove(&mut self, slot: u32)
        requires object { IsSome (slice_index_or self.old.objects slot None) }
        requires ended { slice_index_or self.old.seen.bodies slot None ≡ None }
        ensures value { self.new ≡ without_header self.old slot }
        ensures vacant { is_vacant_at (vacancy self.new) slot ≡ true }
    {
        let _ = self.arena.take(slot);
        self.closing.take(slot as usize);
    }

    /// Gives a vacant slot up: it never gets an object again.
    pub(crate) fn retire(&mut self, slot: u32)
        requires { is_vacant_at (vacancy self.old) slot ≡ true }
        ensures { self.new ≡ with_retired self.old slot }
    {
        self.arena.retire(slot);
    }

    /// The body of an object.
    #[inline(always)]
    pub(crate) fn body(&self, slot: u32) -> Option<Body>
        ensures { result ≡ slice_index_or self.now.seen.bodies slot None }
    {
        if self.arena.is_occupied(slot) {
            return self.arena.get(slot).body;
        }
        None
    }

    /// Changes the body of an object that has one.
    #[inline(always)]
    pub(crate) fn put(&mut self, slot: u32, body: Body)
        requires { IsSome (slice_index_or self.old.seen.bodies slot None) }
        ensures objects { self.new.seen ≡ record self.old.seen {
          bodies = slice_set self.old.seen.bodies slot
              (Some body);
        } }
        ensures rest { rest_of self.new ≡ rest_of self.old }
    {
        let owner = body.owner();
        let due = body.due();
        let was = self.arena.get_mut(slot).put(body);
        self.owners.moved(slot, was.owner, owner);
        self.timers.moved(slot, was.due, due);
    }

    /// Has a thread acquire an object that is signaled for it, and answers whether that was an abandoned mutex.
    #[inline(always)]
    pub(crate) fn acquire(&mut self, id: Id, thread: u32) -> bool
        requires bodied { IsSome (body_of self.old.seen.bodies id) }
        requires signaled { is_signaled thread self.old.seen.bodies id ≡ true }
        requires room { slot_room RECURSION_MAX thread (body_of self.old.seen.bodies id) ≡ true }
        ensures was_abandoned { result ≡ is_abandoned self.old.seen.bodies id }
        ensures objects { self.new.seen
            ≡ record self.old.seen { bodies = with_acquired thread self.old.seen.bodies id } }
        ensures rest { rest_of self.new ≡ rest_of self.old }
    {
        let acquired = self.arena.get_mut(id.slot).acquire(thread);
        self.owners.moved(id.slot, acquired.before, acquired.after);
        acquired.was_abandoned
    }

    /// Counts one block fewer, where there is one, and answers whether the object ended.
    #[inline(always)]
    pub(crate) fn block_left(&mut self, id: Id) -> bool
        ensures objects { self.new.seen ≡ without_block self.old.seen id }
        ensures rest { rest_of self.new ≡ rest_of self.old }
        ensures ended { result ≡ is_some (body_of self.old.seen.bodies id) && is_last_block self.old id.slot }
    {
        if !self.arena.is_occupied(id.slot) {
            return false;
        }
        let gone = self.arena.get_mut(id.slot).block_left();
        self.owners.left(id.slot, owner_of(gone));
        due_left(&mut self.timers, id.slot, due_of(gone));
        close(&mut self.closing, id.slot, gone.is_some());
        gone.is_some()
    }
}
