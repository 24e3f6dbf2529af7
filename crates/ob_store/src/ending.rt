ghost use Rattle.std.specs.Prelude.{false, ◌≡◌, ◌+◌, ◌<◌, ℕ, Option, IsSome, None, Some, if◌then◌else◌, length};
ghost use Rattle.std.specs.Prelude.{slice_index_or, slice_set};
ghost use Rattle.ob_waits.specs.CountedBodies.{without_blocks};
ghost use Rattle.ob_waits.specs.Rules.{WaitsInvariant as AreWaits};
ghost use Rattle.ob_store.specs.Signaled.{KeepsEnough};
ghost use Rattle.ob_waits.specs.Waits.{thread_ids};
ghost use Rattle.ob_store.specs.Ends.{abandoned_by, after_thread_end, exited, process_ended, thread_ended};
ghost use Rattle.ob_store.specs.Ends.{threads_ended, unless_threads};
ghost use Rattle.ob_tables.specs.Processes.{is_of};
ghost use Rattle.ob_store.specs.Moves.{OnlyCloses};
ghost use Rattle.ob_store.specs.Objects.{kept_rest};
ghost use Rattle.ob_store.specs.Owners.{owns_at};
ghost use Rattle.ob_store.specs.Kept.{IsSound};
ghost use Rattle.ob_store.specs.Parts.{parts_of};
ghost use Rattle.ob_store.specs.State.{settled};
ghost use Rattle.ob_store.specs.UnderWay.{Carries, CarriesEntries, with_left};

use crate::entries::leave_directory;
use crate::objects::Objects;
use crate::parts::Parts;
use crate::signaled::SignaledSlots;
use crate::store::Store;
use ob_tables::Entry;
use ob_waits::{Bodies, Waits, leave_all};
use pin_words::PinKeeper;

/// Counts the places of a thread's wait no longer among what refers to its objects.
fn leave_wait<K: PinKeeper>(objects: &mut Objects<K>, waits: &Waits, thread: u32)
    ensures seen { objects.new.seen ≡ without_blocks objects.old.seen (thread_ids thread waits.now.waits) }
    ensures rest { kept_rest objects.new ≡ kept_rest objects.old }
    ensures waits { AreWaits waits.now.waits }
{
    let Some(number) = waits.wait_of(thread) else {
        return;
    };
    let Some((_, ids)) = waits.look(number) else {
        return;
    };
    leave_all(objects, ids);
}

/// Abandons the mutex in a slot and notes the slot, where the thread owns the mutex.
fn abandon_at<K: PinKeeper>(
    objects: &mut Objects<K>,
    signaled: &mut SignaledSlots,
    thread: u32,
    slot: u32,
)
    ensures seen { abandoned_by thread objects.new.seen ≡ abandoned_by thread objects.old.seen }
    ensures rest { kept_rest objects.new ≡ kept_rest objects.old }
    ensures enough { KeepsEnough signaled.old objects.old.seen.bodies signaled.new objects.new.seen.bodies }
    ensures gone { owns_at thread objects.new.seen.bodies slot ≡ false }
    ensures others { (k : ℕ) → owns_at thread objects.old.seen.bodies k ≡ false
        → owns_at thread objects.new.seen.bodies k ≡ false }
{
    if objects.abandon_at(slot, thread) {
        signaled.add(slot);
    }
}

/// Abandons the mutexes that are listed for a thread, and notes their slots.
fn abandon_listed<K: PinKeeper>(objects: &mut Objects<K>, signaled: &mut SignaledSlots, thread: u32)
    ensures seen { abandoned_by thread objects.new.seen ≡ abandoned_by thread objects.old.seen }
    ensures rest { kept_rest objects.new ≡ kept_rest objects.old }
    ensures enough { KeepsEnough signaled.old objects.old.seen.bodies signaled.new objects.new.seen.bodies }
{
    for _ in 0..objects.owned_count(thread) {
        let slot = objects.first_owned(thread);
        abandon_at(objects, signaled, thread, slot);
    }
}

/// Abandons the mutexes that a thread owns, and notes their slots. The thread's list says where they are, but nothing
/// is proved of that list: so as long as the thread is known to own more, or its mutexes aren't counted, slot after
/// slot is looked at.
fn abandon<K: PinKeeper>(objects: &mut Objects<K>, signaled: &mut SignaledSlots, thread: u32)
    ensures seen { objects.new.seen ≡ abandoned_by thread objects.old.seen }
    ensures rest { kept_rest objects.new ≡ kept_rest objects.old }
    ensures enough { KeepsEnough signaled.old objects.old.seen.bodies signaled.new objects.new.seen.bodies }
{
    abandon_listed(objects, signaled, thread);
    // There are as many bodies as slots.
    objects.kept();
    for slot in 0..objects.slots() {
        if objects.owns_none(thread) {
            return;
        }
        abandon_at(objects, signaled, thread, slot);
    }
}

impl<K: PinKeeper> Parts<K> {
    /// Ends a thread, without settling yet: its wait is dropped, then its mutexes are abandoned.
    fn end_one(&mut self, thread: u32)
        ensures carries { Carries self.old self.new (λ s. thread_ended s thread) }
        ensures threads { self.new.processes
            ≡ record self.old.processes { threads = slice_set self.old.processes.threads thread None } }
    {
        leave_wait(&mut self.objects, &self.waits, thread);
        self.waits.drop_thread(thread);
        abandon(&mut self.objects, &mut self.signaled, thread);
        self.objects.kept();
        self.processes.end_thread(thread);
    }

    /// Ends the live threads of a process, by rising number. It looks at no other thread.
    fn end_all(&mut self, process: u32)
        ensures carries { Carries self.old self.new (λ s. threads_ended s process (length self.old.processes.threads)) }
        ensures ended { (t : ℕ) → slice_index_or self.new.processes.threads t None ≡ Some process → ⊥ }
    {
        let mut from = 0;
        while let Some(thread) = self.processes.thread_from(process, from) {
            self.end_one(thread);
            from = thread + 1;
        }
    }

    /// Removes the entry of a place, if there is one. Those of the places before it have left.
    fn leave_at(&mut self, process: u32, places: &[Option<Entry>], place: usize)
        requires sound { IsSound (with_left (parts_of self.old) process places.now place) }
        requires table { process < length self.old.tables.tables }
        requires within { place < length places.now }
        ensures carries { CarriesEntries self.old self.new process places.now place (place + 1) }
        ensures sound { IsSound (with_left (parts_of self.new) process places.now (place + 1)) }
        ensures rest { self.new ≡ record self.old { objects = self.new.objects; names = self.new.names } }
    {
        self.objects.kept();
        let Some(entry) = places[place] else {
            return;
        };
        let slot = entry.id.slot;
        let was_last = self.objects.handle_left(slot);
        self.objects.kept();
        leave_directory(&mut self.names, &self.objects, slot, was_last);
    }

    /// Removes the entries that were taken out of the table of a process, by rising value.
    fn leave_entries(&mut self, process: u32, places: &[Option<Entry>])
        requires sound { IsSound (with_left (parts_of self.old) process places.now 0) }
        requires table { process < length self.old.tables.tables }
        ensures carries { CarriesEntries self.old self.new process places.now 0 (length places.now) }
        ensures rest { self.new ≡ record self.old { objects = self.new.objects; names = self.new.names } }
    {
        for place in 0..places.len() {
            self.leave_at(process, places, place);
        }
    }

    /// Ends a process whose threads have ended: its entries leave, and its number is gone.
    fn end_process(&mut self, process: u32)
        requires sound { IsSound (parts_of self.old) }
        requires table { process < length self.old.tables.tables }
        requires alone { (t : ℕ) → slice_index_or self.old.processes.threads t None ≡ Some process → ⊥ }
        ensures carries { Carries self.old self.new (λ s. process_ended s process) }
    {
        let places = self.tables.take_entries(process);
        self.leave_entries(process, places.as_slice());
        self.processes.end_process(process);
    }

    /// Ends a process, if it has no live thread left.
    fn leave_process(&mut self, process: u32)
        requires sound { IsSound (parts_of self.old) }
        requires table { process < length self.old.tables.tables }
        ensures carries { Carries self.old self.new (λ s. unless_threads s process) }
    {
        if self.processes.has_threads(process) {
            return;
        }
        self.end_process(process);
    }
}

impl<K: PinKeeper> Store<K> {
    /// Ends a live thread, and its process with its last thread: the thread's wait is dropped, its mutexes are
    /// abandoned, and the waits settle. It looks at no other thread, at no slot but those of its mutexes and of the
    /// handles that leave, and of the pending waits only at those for the abandoned mutexes.
    pub fn end_thread(&mut self, thread: u32, process: u32)
        requires live { slice_index_or self.old.state.threads thread None ≡ Some process }
        ensures state { self.new.state ≡ settled (after_thread_end self.old.state process thread) }
        ensures keeper { OnlyCloses self.old.keeper self.new.keeper }
    {
        self.parts.objects.kept();
        self.parts.signaled.clear();
        self.parts.end_one(thread);
        self.parts.leave_process(process);
        self.parts.settle();
    }

    /// Ends a live process: its threads end by rising number, then its entries leave by rising value, and the waits
    /// settle once. It looks at no other thread, at no slot but those of their mutexes and of the handles that leave, and
    /// of the pending waits only at those for the abandoned mutexes.
    pub fn exit(&mut self, process: u32)
        requires live { IsSome (slice_index_or self.old.state.processes process None) }
        ensures state { self.new.state ≡ settled (exited self.old.state process) }
        ensures keeper { OnlyCloses self.old.keeper self.new.keeper }
    {
        self.parts.objects.kept();
        self.parts.signaled.clear();
        self.parts.end_all(process);
        self.parts.end_process(process);
        self.parts.settle();
    }
}
