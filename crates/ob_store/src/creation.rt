ghost use Rattle.std.specs.Prelude.{◌≡◌, ℕ, false, true, IfErr, IfOk, None, OnErr, OnOk, Some};
ghost use Rattle.ob_arena.specs.Slots.{is_vacant_at};
ghost use Rattle.ob_body.specs.Body as spec;
ghost use Rattle.ob_name.specs.Listing.{find_name};
ghost use Rattle.ob_name.specs.Refs.{name_at};
ghost use Rattle.ob_rights.specs.declared.fault.Fault.TheVariants.{Memory};
ghost use Rattle.ob_tables.specs.Table.{free_place, value_of};
ghost use Rattle.ob_tables.specs.Tables.{table_of};
ghost use Rattle.ob_waits.specs.Form.{form_of};
ghost use Rattle.pin_core.specs.Descrs.{IsGiven};
ghost use Rattle.pin_words.specs.Keepers.{published, stored};
ghost use Rattle.ob_store.specs.State.{id_at, is_full, settled, vacancy, with_entry, with_object};
ghost use Rattle.ob_store.specs.Directory.{directory_of};
ghost use Rattle.ob_tables.specs.Processes.{IsLive};
ghost use Rattle.ob_store.specs.Kept.{form_in};

use crate::store::Store;
use ob_body::Body;
use ob_name::{Name, NameRef};
use ob_rights::{Fault, HandleFlags, Rights};
use ob_tables::Entry;
use pin_core::Descr;
use pin_words::PinKeeper;

/// What a new object and its first handle are, but for the object's name.
#[derive(Clone, Copy, Debug)]
pub struct Creation {
    /// What the object is, for its whole life.
    pub descr: Descr,
    /// What state it begins in.
    pub body: Body,
    /// The rights that an open or a duplicate may get (*profile*).
    pub grant: Rights,
    /// The rights of the handle.
    pub rights: Rights,
    /// Whether a child inherits the handle, and whether it is protected from close.
    pub flags: HandleFlags,
}

impl<K: PinKeeper> Store<K> {
    /// Makes a new object without a name in a vacant slot, with a handle at the least free value of a live process,
    /// and answers the value.
    ///
    /// Refused with 8 for want of memory.
    #[inline(always)]
    #[tactic(auto, using(crate::proofs::PlacedLaws::live_tabled))]
    pub fn add_nameless(&mut self, process: u32, slot: u32, new: Creation) -> Result<u32, Fault>
        requires live { IsLive self.old.state.processes process }
        requires room { is_full self.old.state process ≡ false }
        requires vacant { is_vacant_at (vacancy self.old.state) slot ≡ true }
        requires given { IsGiven new.descr }
        requires formed { form_of new.body ≡ form_in new.descr }
        requires owned { (t : ℕ) → spec.owner_of new.body ≡ Some t → IsLive self.old.state.threads t }
        ensures value { IfOk result (λ value. value ≡ value_of (free_place (table_of self.old.state.tables process))) }
        ensures state { OnOk result (self.new.state
            ≡ settled (with_entry (with_object self.old.state slot
            (record { descr = new.descr; grant = new.grant; name = None }) new.body) process
            (record { id = id_at self.old.state slot; rights = new.rights; flags = new.flags }))) }
        ensures keeper { OnOk result (self.new.keeper ≡ published (stored self.old.keeper slot new.descr) slot) }
        ensures memory { IfErr result (λ fault. fault ≡ Memory) }
        ensures err { OnErr result (self.new ≡ self.old) }
    {
        self.parts.objects.kept();
        let entry = Entry {
            id: self.parts.objects.id_at(slot),
            rights: new.rights,
            flags: new.flags,
        };
        match self.parts.tables.place(process, entry) {
            Ok(value) => {
                self.parts
                    .objects
                    .add(slot, new.descr, new.grant, None, new.body);
                self.parts.objects.kept();
                return Ok(value);
            }
            Err(fault) => return Err(fault),
        }
    }

    /// Makes a new object with a name that no object has, as [`add_nameless`](Store::add_nameless) makes one without.
    #[inline(always)]
    #[tactic(auto, using(crate::proofs::PlacedLaws::live_tabled))]
    pub fn add_named(
        &mut self,
        process: u32,
        slot: u32,
        new: Creation,
        name: &NameRef<'_>,
    ) -> Result<u32, Fault>
        requires live { IsLive self.old.state.processes process }
        requires room { is_full self.old.state process ≡ false }
        requires vacant { is_vacant_at (vacancy self.old.state) slot ≡ true }
        requires given { IsGiven new.descr }
        requires formed { form_of new.body ≡ form_in new.descr }
        requires owned { (t : ℕ) → spec.owner_of new.body ≡ Some t → IsLive self.old.state.threads t }
        requires absent { find_name (name_at name.now) (directory_of self.old.state) ≡ None }
        ensures value { IfOk result (λ value. value ≡ value_of (free_place (table_of self.old.state.tables process))) }
        ensures state { OnOk result (self.new.state
            ≡ settled (with_entry (with_object self.old.state slot
            (record { descr = new.descr; grant = new.grant; name = Some (name_at name.now) }) new.body) process
            (record { id = id_at self.old.state slot; rights = new.rights; flags = new.flags }))) }
        ensures keeper { OnOk result (self.new.keeper ≡ published (stored self.old.keeper slot new.descr) slot) }
        ensures memory { IfErr result (λ fault. fault ≡ Memory) }
        ensures err { OnErr result (self.new ≡ self.old) }
    {
        let entered = self.parts.names.reserve(name)?;
        let kept = Name::new(self.alloc, name)?;
        self.parts.objects.kept();
        let entry = Entry {
            id: self.parts.objects.id_at(slot),
            rights: new.rights,
            flags: new.flags,
        };
        match self.parts.tables.place(process, entry) {
            Ok(value) => {
                let id = self
                    .parts
                    .objects
                    .add(slot, new.descr, new.grant, Some(kept), new.body);
                self.parts.names.enter(entered, id);
                self.parts.objects.kept();
                return Ok(value);
            }
            Err(fault) => return Err(fault),
        }
    }
}
