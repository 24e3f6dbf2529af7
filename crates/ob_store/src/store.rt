ghost use Rattle.std.specs.Prelude.{◌≡◌, ◌<◌, ◌≤◌, ℕ, false, true, IfOk, IfErr, IfSome, IsSome, IsTrue, OnSome, None};
ghost use Rattle.std.specs.Prelude.{is_some, length, slice_get, slice_index_or};
ghost use Rattle.std.specs.Option.{option_map};
ghost use Rattle.pin_words.specs.Keepers.{IsFresh};
ghost use Rattle.ob_arena.specs.Slots.{is_vacant_at, least_vacant};
ghost use Rattle.ob_name.specs.Listing.{find_name};
ghost use Rattle.ob_name.specs.Refs.{name_at, row_at};
ghost use Rattle.ob_tables.specs.Table.{entry_at};
ghost use Rattle.ob_tables.specs.Tables.{table_of};
ghost use Rattle.ob_waits.specs.Waits.{number_of};
ghost use Rattle.ob_store.specs.Objects.{object_of, tag_of};
ghost use Rattle.ob_store.specs.Owners.{owns_at};
ghost use Rattle.ob_store.specs.State.{handles_of, blocks_of, id_at, is_full, next_process, next_thread, opening, shape_of, vacancy};
ghost use Rattle.ob_store.specs.Consistent.{IsConsistent};
ghost use Rattle.ob_store.specs.Directory.{directory_of};

use crate::found::Found;
use crate::objects::Objects;
use crate::parts::Parts;
use crate::signaled::SignaledSlots;
use ob_body::Body;
use ob_name::{Directory, NameRef, Rows};
use ob_tables::{Entry, Limits, Processes, Tables};
use ob_waits::{Bodies, LAST_MOMENT, Waits};
use pin_core::Id;
use pin_words::PinKeeper;
use std::alloc::Global;
use std::marker::Model;

/// The state of a manager, with all that it counts and finds by name, and the small changes of which calls are made.
#[derive(Drop)]
pub struct Store<K: PinKeeper> {
    pub(crate) parts: Parts<K>,
    pub(crate) alloc: Global,
}

impl<K: PinKeeper> Model for Store<K> {
    ghost use Rattle.ob_store.specs.State.{Whole};
    ghost use Rattle.ob_store.specs.Parts.{parts_of, whole_of};
    ghost use Rattle.ob_store.specs.Kept.{StoreInvariant};

    ghost Value = { Whole };

    ghost view = { λ s. whole_of (parts_of s.parts) };

    ghost invariant = { λ s. StoreInvariant (parts_of s.parts) };
}

impl<K: PinKeeper> Store<K> {
    /// A store without a process or an object. The keeper comes back where memory is wanting.
    pub fn new(alloc: Global, limits: Limits, keeper: K) -> Result<Store<K>, K>
        requires { IsFresh (K.kept keeper) (shape_of limits) }
        ensures ok { IfOk result (λ store. store ≡ record { state = opening limits; keeper = K.kept keeper }) }
        ensures err { IfErr result (λ k. k ≡ keeper) }
    {
        let Ok(processes) = Processes::new(alloc) else {
            return Err(keeper);
        };
        let Ok(tables) = Tables::new(alloc, limits.processes, limits.handles) else {
            return Err(keeper);
        };
        let Ok(signaled) = SignaledSlots::new(alloc, limits.slots) else {
            return Err(keeper);
        };
        match Objects::new(alloc, limits.slots, limits.threads + 1, keeper) {
            Ok(objects) => {
                let parts = Parts {
                    limits,
                    processes,
                    tables,
                    objects,
                    waits: Waits::new(alloc, limits.last_wait()),
                    names: Directory::new(alloc),
                    signaled,
                };
                return Ok(Store { parts, alloc });
            }
            Err(keeper) => return Err(keeper),
        }
    }

    /// What holds of the state and the keeper whenever no call is under way. It does nothing when it runs: callers call
    /// it where their proofs need the fact.
    pub fn kept(&self)
        ensures { IsConsistent self.now }
    {
        self.parts.objects.kept();
        let _ = (self.parts.waits.wait_of(0), self.parts.waits.clock());
    }

    /// The moment that it is, in units of 100 ns, from 0.
    pub fn now(&self) -> u64
        ensures moment { result ≡ self.now.state.clock }
        ensures last { result ≤ LAST_MOMENT }
    {
        self.parts.waits.clock()
    }

    /// What it may hold at most.
    pub fn limits(&self) -> Limits
        ensures { result ≡ self.now.state.limits }
    {
        self.parts.limits
    }

    /// The next process number.
    pub fn next_process(&self) -> u32
        ensures { result ≡ next_process self.now.state }
    {
        self.parts.processes.next_process(self.parts.limits.reuse)
    }

    /// The next thread number.
    pub fn next_thread(&self) -> u32
        ensures { result ≡ next_thread self.now.state }
    {
        self.parts.processes.next_thread(self.parts.limits.reuse)
    }

    /// The session of a live process. Such a process has a handle table.
    pub fn session(&self, process: u32) -> Option<u32>
        ensures value { result ≡ slice_index_or self.now.state.processes process None }
        ensures table { OnSome result (process < length self.now.state.tables) }
    {
        self.parts.processes.session(process)
    }

    /// The process of a live thread. That process has a handle table.
    pub fn process(&self, thread: u32) -> Option<u32>
        ensures value { result ≡ slice_index_or self.now.state.threads thread None }
        ensures live { IfSome result (λ process. IsSome (slice_index_or self.now.state.processes process None)) }
        ensures table { IfSome result (λ process. process < length self.now.state.tables) }
    {
        self.parts.processes.process(thread)
    }

    /// Whether the thread has a wait.
    pub fn is_busy(&self, thread: u32) -> bool
        ensures { result ≡ is_some (number_of thread self.now.state.waits) }
    {
        self.parts.waits.wait_of(thread).is_some()
    }

    /// The places of a process's table, in each of which an entry is or none.
    #[inline(always)]
    pub fn places(&self, process: u32) -> &[Option<Entry>]
        requires { process < length self.now.state.tables }
        ensures { result.now ≡ table_of self.now.state.tables process }
    {
        self.parts.tables.places(process)
    }

    /// The entry of a handle, in the table of a process.
    pub fn look(&self, process: u32, handle: u32) -> Option<Entry>
        requires { process < length self.now.state.tables }
        ensures { result ≡ entry_at (table_of self.now.state.tables process) handle }
    {
        self.parts.tables.entry(process, handle)
    }

    /// Whether a process has as many handles as it may.
    #[inline(always)]
    pub fn is_full(&self, process: u32) -> bool
        requires { process < length self.now.state.tables }
        ensures { result ≡ is_full self.now.state process }
    {
        self.parts.tables.is_full(process)
    }

    /// The least slot that has no object and may have one.
    #[inline(always)]
    pub fn vacant(&self) -> Option<u32>
        ensures value { result ≡ least_vacant (vacancy self.now.state) }
        ensures vacant { IfSome result (λ slot. is_vacant_at (vacancy self.now.state) slot ≡ true) }
    {
        self.parts.objects.least_vacant()
    }

    /// The Id that the next object of a slot will have.
    pub fn id_at(&self, slot: u32) -> Id
        requires { is_vacant_at (vacancy self.now.state) slot ≡ true }
        ensures { result ≡ id_at self.now.state slot }
    {
        self.parts.objects.kept();
        self.parts.objects.id_at(slot)
    }

    /// The object in a slot, with all that refers to it counted.
    pub fn object(&self, slot: u32) -> Option<Found<'_>>
        ensures object { slice_index_or self.now.state.objects slot None
            ≡ option_map (λ found. object_of found.header.now (tag_of found.label.now found.name.now)) result }
        ensures body { IfSome result (λ found. slice_index_or self.now.state.bodies slot None ≡ found.header.now.body) }
        ensures handles { IfSome result (λ found. found.header.now.handles
            ≡ handles_of self.now.state found.header.now.id) }
        ensures blocks { IfSome result (λ found. found.header.now.blocks
            ≡ blocks_of self.now.state found.header.now.id) }
        ensures id { IfSome result (λ found. found.header.now.id.slot ≡ slot) }
        ensures within { IfSome result (λ found. slot < self.now.state.limits.slots) }
    {
        self.parts.objects.kept();
        self.parts.objects.look(slot)
    }

    /// The body of an object, or none where it has ended.
    #[inline(always)]
    pub fn body(&self, id: Id) -> Option<Body>
        ensures { result ≡ slice_index_or self.now.state.bodies id.slot None }
    {
        self.parts.objects.body(id)
    }

    /// Whether it is known that a thread owns no mutex.
    pub fn owns_none(&self, thread: u32) -> bool
        ensures { IsTrue result → (k : ℕ) → owns_at thread self.now.state.bodies k ≡ false }
    {
        self.parts.objects.owns_none(thread)
    }

    /// The object of a name. It has a handle.
    pub fn find(&self, name: &NameRef<'_>) -> Option<Id>
        ensures value { result ≡ find_name (name_at name.now) (directory_of self.now.state) }
        ensures handled { IfSome result (λ id. 0 < handles_of self.now.state id) }
    {
        self.parts.objects.kept();
        self.parts.names.find(name)
    }

    /// How many names there are.
    pub fn names(&self) -> usize
        ensures { result ≡ length (directory_of self.now.state) }
    {
        self.parts.names.len()
    }

    /// The name at a place of the directory, with its Id.
    pub fn name_at(&self, at: usize) -> Option<(NameRef<'_>, Id)>
        ensures { option_map row_at result ≡ slice_get (directory_of self.now.state) at }
    {
        self.parts.names.row(at)
    }

    /// Closes the holes that removed names left in the directory, so that [`name_at`](Store::name_at) takes constant
    /// time until the next name goes.
    pub fn close_holes(&mut self)
        ensures { self.new ≡ self.old }
    {
        self.parts.names.close_holes();
    }

    /// The names with their Ids, in the order in which the objects were made.
    pub fn rows(&self) -> Rows<'_>
        ensures { result ≡ directory_of self.now.state }
    {
        self.parts.names.rows()
    }
}
