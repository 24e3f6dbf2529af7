ghost use Rattle.std.specs.Prelude.{◌≡◌, ◌+◌, ◌≤◌, None, Some, IfSome, is_some, length, slice_index_or};
ghost use Rattle.std.specs.Option.{option_map};
ghost use Rattle.least.specs.From.{IsLeastFrom};
ghost use Rattle.ob_tables.specs.Table.{entry_at};
ghost use Rattle.ob_tables.specs.Tables.{table_of};
ghost use Rattle.ob_waits.specs.Waits.{is_pending, new_wait, number_of};
ghost use Rattle.ob_store.specs.Closing.{is_closing_at};
ghost use Rattle.ob_store.specs.Kept.{IsThere};
ghost use Rattle.ob_store.specs.Waiting.{wait_name, wait_number};
ghost use Rattle.ob_store.specs.Walking.{is_object_at, is_process, is_thread_of, is_value_in, is_value_of};

use crate::store::Store;
use least::next_place;
use ob_tables::Entry;
use ob_waits::Pending;
use pin_core::Id;
use pin_words::PinKeeper;

/// The entry of least value above `after`, with its value.
fn next_entry(places: &[Option<Entry>], after: u32) -> Option<(u32, Entry)>
    requires { length places.now ≤ 16384 }
    ensures least { IsLeastFrom (after + 1) (is_value_in places.now) (option_map (λ handle. handle.0) result) }
    ensures entry { IfSome result (λ handle. entry_at places.now handle.0 ≡ Some handle.1) }
{
    let place = next_place(places, after as usize / 4)?;
    let entry = places[place]?;
    Some((4 * (place as u32 + 1), entry))
}

impl<K: PinKeeper> Store<K> {
    /// The ended object in the least slot that has one, from `from` on.
    pub fn next_closing(&self, from: u32) -> Option<Id>
        ensures least { IsLeastFrom from (is_closing_at self.now.state) (option_map (λ id. id.slot) result) }
        ensures object { IfSome result (λ id. IsThere self.now.state.objects id) }
    {
        let slot = self.parts.objects.headers.next_closing(from)?;
        Some(self.parts.objects.look(slot)?.header.id)
    }

    /// The object in the least slot that has one, from `from` on.
    pub fn next_object(&self, from: u32) -> Option<Id>
        ensures least { IsLeastFrom from (is_object_at self.now.state) (option_map (λ id. id.slot) result) }
        ensures object { IfSome result (λ id. IsThere self.now.state.objects id) }
    {
        let slot = self.parts.objects.headers.next_object(from)?;
        Some(self.parts.objects.look(slot)?.header.id)
    }

    /// The least live process whose number is above `after`.
    pub fn next_live(&self, after: u32) -> Option<u32>
        ensures { IsLeastFrom (after + 1) (is_process self.now.state) result }
    {
        self.parts.processes.next_live(after)
    }

    /// The least live thread of a process whose number is above `after`.
    pub fn next_live_of(&self, process: u32, after: u32) -> Option<u32>
        ensures { IsLeastFrom (after + 1) (is_thread_of self.now.state process) result }
    {
        self.parts.processes.next_live_of(process, after)
    }

    /// The handle of a process of least value above `after`, with its entry.
    pub fn next_entry(&self, process: u32, after: u32) -> Option<(u32, Entry)>
        ensures least { IsLeastFrom (after + 1) (is_value_of self.now.state process)
            (option_map (λ handle. handle.0) result) }
        ensures entry { IfSome result (λ handle. entry_at (table_of self.now.state.tables process) handle.0
            ≡ Some handle.1) }
    {
        if !self.parts.tables.is_given(process) {
            return None;
        }
        next_entry(self.parts.tables.entries(process), after)
    }

    /// What the thread's wait is called, pending or answered.
    pub fn wait_of(&self, thread: u32) -> Option<u32>
        ensures { result ≡ option_map (wait_name self.now.state thread) (number_of thread self.now.state.waits) }
    {
        let number = self.parts.waits.wait_of(thread)?;
        if self.parts.limits.reuse {
            Some(thread)
        } else {
            Some(number)
        }
    }

    /// The wait that is called so, where it is pending.
    pub fn pending(&self, wait: u32) -> Option<Pending<'_>>
        ensures is_there { is_some result
            ≡ is_pending (slice_index_or self.now.state.waits (wait_number self.now.state wait) None) }
        ensures wait { IfSome result (λ p. slice_index_or self.now.state.waits (wait_number self.now.state wait) None
            ≡ Some (new_wait p.thread p.mode p.ids.now p.deadline)) }
    {
        self.parts.waits.pending(self.wait_number(wait))
    }
}
