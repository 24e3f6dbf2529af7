ghost use Rattle.std.specs.Prelude.{◌≡◌, ◌+◌, IfSome, None, Some, is_some, slice_index_or};
ghost use Rattle.std.specs.Option.{option_map};
ghost use Rattle.least.specs.From.{IsLeastFrom};
ghost use Rattle.ob_tables.specs.Table.{entry_at};
ghost use Rattle.ob_tables.specs.Tables.{table_of};
ghost use Rattle.ob_waits.specs.Waits.{is_pending, new_wait, number_of};
ghost use Rattle.ob_store.specs.Closing.{is_closing_at};
ghost use Rattle.ob_store.specs.Kept.{IsThere};
ghost use Rattle.ob_store.specs.Waiting.{wait_name, wait_number};
ghost use Rattle.ob_store.specs.Walking.{is_object_at, is_process, is_thread_of, is_value_of};
ghost use Rattle.ob_name.specs.Refs.{name_at};
ghost use Rattle.ob_manager.specs.Counting.{name_held};
ghost use Rattle.ob_manager.specs.Creating.{find_named};
ghost use Rattle.ob_manager.specs.Handles.{entry_of};
ghost use Rattle.ob_manager.specs.States.{state_of};

use crate::handles;
use crate::manager::Manager;
use crate::object_state::{self, ObjectState};
use ob_name::{Name, NameRef, parse};
use ob_rights::Fault;
use ob_tables::Entry;
use ob_waits::Pending;
use pin_core::Id;
use pin_words::PinKeeper;

impl<K: PinKeeper> Manager<K> {
    /// The object that ended in the least slot with such an object, from slot `from` on: no handle and no pending wait
    /// names it, and its slot is taken back by [`reap`](Manager::reap), unless somebody has a pin there. A host that
    /// reaps begins at slot 0, and goes on behind each slot that is held. It takes a few word operations, however many
    /// slots there are.
    pub fn next_closing(&self, from: u32) -> Option<Id>
        ensures least { IsLeastFrom from (is_closing_at self.now.state) (option_map (λ id. id.slot) result) }
        ensures object { IfSome result (λ id. IsThere self.now.state.objects id) }
    {
        self.store.next_closing(from)
    }

    /// What state an object is in: none where no object of that Id is in its slot, as before it was made and once its
    /// slot was taken back. It changes nothing, where a wait takes what it is satisfied by. It says what NtQueryEvent,
    /// NtQueryMutant, NtQuerySemaphore and NtQueryTimer say; what the object was created as stands in its
    /// [`card`](Manager::card).
    pub fn state_of(&self, id: Id) -> Option<ObjectState>
        ensures { result ≡ state_of self.now.state id }
    {
        object_state::state_of(&self.store, id)
    }

    /// The object that has a name in a session, which no handle to it is made for. Whatever the names are, it takes a
    /// time that grows with the length of the name alone.
    ///
    /// Refused for the name as an open is, with 206, 87 or 3, and with 2 where no object has it.
    pub fn find(&self, session: u32, text: &[u8]) -> Result<Id, Fault>
        ensures { result ≡ find_named self.now.state session text.now }
    {
        let name = parse(text, session)?;
        self.store.find(&name).ok_or(Fault::NotFound)
    }

    /// The name of an object, with its namespace, as long as it has handles: with the last one it loses its name. It
    /// takes constant time.
    pub fn name_of(&self, id: Id) -> Option<NameRef<'_>>
        ensures { option_map name_at result ≡ name_held self.now.state id }
    {
        let found = self.store.object(id.slot)?;
        if found.header.id == id && found.header.handles > 0 && found.label.is_named {
            return found.name.as_ref().map(Name::borrowed);
        }
        None
    }

    /// The object in the least slot with one, from slot `from` on, whether it ended or not. It passes 64 slots at
    /// a time, from there to the one that it finds.
    pub fn next_object(&self, from: u32) -> Option<Id>
        ensures least { IsLeastFrom from (is_object_at self.now.state) (option_map (λ id. id.slot) result) }
        ensures object { IfSome result (λ id. IsThere self.now.state.objects id) }
    {
        self.store.next_object(from)
    }

    /// The least live process whose number is above `after`. It looks at each number that was given from there to the
    /// one that it finds.
    pub fn next_process(&self, after: u32) -> Option<u32>
        ensures { IsLeastFrom (after + 1) (is_process self.now.state) result }
    {
        self.store.next_live(after)
    }

    /// The least live thread of a process whose number is above `after`. Where `after` is 0 or a thread of the process,
    /// it looks at the threads that the process was given from there to the one that it finds.
    pub fn next_thread(&self, process: u32, after: u32) -> Option<u32>
        ensures { IsLeastFrom (after + 1) (is_thread_of self.now.state process) result }
    {
        self.store.next_live_of(process, after)
    }

    /// The handle of least value above `after` that a process has, with what it refers to: its object, its rights and
    /// its flags. It looks at the values from there to the one that it finds.
    pub fn next_handle(&self, process: u32, after: u32) -> Option<(u32, Entry)>
        ensures least { IsLeastFrom (after + 1) (is_value_of self.now.state process)
            (option_map (λ handle. handle.0) result) }
        ensures entry { IfSome result (λ handle. entry_at (table_of self.now.state.tables process) handle.0
            ≡ Some handle.1) }
    {
        self.store.next_entry(process, after)
    }

    /// The process of a live thread.
    pub fn process_of(&self, thread: u32) -> Option<u32>
        ensures { result ≡ slice_index_or self.now.state.threads thread None }
    {
        self.store.process(thread)
    }

    /// The session of a live process.
    pub fn session_of(&self, process: u32) -> Option<u32>
        ensures { result ≡ slice_index_or self.now.state.processes process None }
    {
        self.store.session(process)
    }

    /// What the thread's wait is called, whether it is pending or answered and not taken: its number or, where numbers
    /// come back, that of the thread.
    pub fn wait_of(&self, thread: u32) -> Option<u32>
        ensures { result ≡ option_map (wait_name self.now.state thread) (number_of thread self.now.state.waits) }
    {
        self.store.wait_of(thread)
    }

    /// A pending wait as its thread asked for it: the thread, whether one of the objects satisfies it or all together,
    /// until when, and the objects in the order of their handles. None where there is no pending wait of that number.
    pub fn objects_waited_for(&self, wait: u32) -> Option<Pending<'_>>
        ensures is_there { is_some result
            ≡ is_pending (slice_index_or self.now.state.waits (wait_number self.now.state wait) None) }
        ensures wait { IfSome result (λ p. slice_index_or self.now.state.waits (wait_number self.now.state wait) None
            ≡ Some (new_wait p.thread p.mode p.ids.now p.deadline)) }
    {
        self.store.pending(wait)
    }

    /// The moment that it is, in units of 100 ns: that of the last [`tick`](Manager::tick), and 0 before the first.
    pub fn now(&self) -> u64
        ensures { result ≡ self.now.state.clock }
    {
        self.store.now()
    }

    /// What a handle of a process has: what it names, the rights that it grants, and its flags.
    ///
    /// Refused with 87 where the process isn't live, and 6 where there is no such handle.
    pub fn handle(&self, process: u32, handle: u32) -> Result<Entry, Fault>
        ensures { result ≡ entry_of self.now.state process handle }
    {
        handles::entry(&self.store, process, handle)
    }
}
