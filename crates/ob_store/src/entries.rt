ghost use Rattle.std.specs.Prelude.{◌≡◌, ◌<◌, ◌↔◌, ◌⊎◌, Err, IfErr, IfOk, IsSome, None, OnErr, OnOk, Some};
ghost use Rattle.std.specs.Prelude.{slice_index_or, true};
ghost use Rattle.ob_rights.specs.declared.fault.Fault.TheVariants.{Limit, Memory};
ghost use Rattle.ob_tables.specs.Counts.{entries_in, handles_among};
ghost use Rattle.ob_tables.specs.Table.{entry_at, free_place, is_packed, value_of};
ghost use Rattle.ob_tables.specs.Tables.{table_of};
ghost use Rattle.ob_tables.specs.Processes.{IsLive};
ghost use Rattle.ob_store.specs.State.{settled, with_entry, with_flags, without_entry};
ghost use Rattle.ob_store.specs.Objects.{name_in};
ghost use Rattle.ob_store.specs.Moves.{OnlyCloses, rows_left};

use crate::objects::Objects;
use crate::store::Store;
use ob_name::Directory;
use ob_rights::{Fault, HandleFlags};
use ob_tables::Entry;
use pin_words::PinKeeper;

impl<K: PinKeeper> Store<K> {
    /// Gives a live process a further handle to an object; answers its value.
    #[inline(always)]
    #[tactic(auto, using(crate::proofs::PlacedLaws::live_tabled))]
    pub fn place_entry(&mut self, process: u32, entry: Entry) -> Result<u32, Fault>
        requires live { IsLive self.old.state.processes process }
        requires handled { 0 < handles_among entry.id self.old.state.tables }
        ensures value { IfOk result (λ value. value ≡ value_of (free_place (table_of self.old.state.tables process))) }
        ensures ok { OnOk result (self.new ≡ record self.old {
          state = settled
              (with_entry self.old.state process entry);
        }) }
        // And nothing settles by it.
        ensures plain { OnOk result (self.new.state ≡ with_entry self.old.state process entry) }
        ensures limit { (result ≡ Err Limit) ↔ (entries_in (table_of self.old.state.tables process)
            ≡ self.old.state.limits.handles) }
        ensures refusal { IfErr result (λ fault. (fault ≡ Limit) ⊎ (fault ≡ Memory)) }
        // A value that was given back is given again without memory.
        ensures reuses { IfErr result (λ fault. fault ≡ Memory
            → is_packed (table_of self.old.state.tables process) ≡ true) }
        ensures err { OnErr result (self.new ≡ self.old) }
    {
        self.parts.objects.kept();
        match self.parts.tables.place(process, entry) {
            Ok(value) => {
                self.parts.objects.handle_came(entry.id.slot);
                self.parts.objects.kept();
                return Ok(value);
            }
            Err(fault) => return Err(fault),
        }
    }

    /// Removes the entry of a handle. With its last handle an object's name leaves the directory, and with the last
    /// reference the object ends.
    pub fn remove_entry(&mut self, process: u32, handle: u32, entry: Entry)
        requires { entry_at (table_of self.old.state.tables process) handle ≡ Some entry }
        ensures state { self.new.state ≡ settled (without_entry self.old.state process handle) }
        ensures keeper { OnlyCloses self.old.keeper self.new.keeper }
    {
        self.parts.objects.kept();
        let _ = self.parts.tables.remove(process, handle);
        let slot = entry.id.slot;
        let was_last = self.parts.objects.handle_left(slot);
        self.parts.objects.kept();
        leave_directory(&mut self.parts.names, &self.parts.objects, slot, was_last);
    }

    /// Sets the flags of a handle's entry.
    pub fn set_flags(&mut self, process: u32, handle: u32, flags: HandleFlags)
        requires { IsSome (entry_at (table_of self.old.state.tables process) handle) }
        ensures { self.new ≡ record self.old { state = settled (with_flags self.old.state process handle flags) } }
    {
        self.parts.objects.kept();
        self.parts.tables.set_flags(process, handle, flags);
    }
}

/// Removes the name of the object in a slot from the directory, where the handle that left was its last one.
#[inline(always)]
pub(crate) fn leave_directory<K: PinKeeper>(
    names: &mut Directory,
    objects: &Objects<K>,
    slot: u32,
    was_last: bool,
)
    requires { IsSome (slice_index_or objects.now.objects slot None) }
    ensures { names.new.rows ≡ rows_left names.old.rows was_last
        (name_in (slice_index_or objects.now.objects slot None)) }
{
    if !was_last {
        return;
    }
    let Some(name) = objects.name(slot) else {
        return;
    };
    let _ = names.remove(&name.borrowed());
}
