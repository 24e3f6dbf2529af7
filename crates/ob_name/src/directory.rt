ghost use Rattle.std.specs.Prelude.{◌≡◌, ◌+◌, ◌<◌, ◌≤◌, None, [], ◌∷◌, ◌++◌, length, slice_get, IfOk, IfErr, IsOk};
ghost use Rattle.std.specs.Prelude.{OnOk};
ghost use Rattle.std.specs.Option.{option_map};
ghost use Rattle.ob_rights.specs.declared.fault.Fault.TheVariants.{Memory};
ghost use Rattle.ob_name.specs.Listing.{AreDistinct, find_name, without_name};
ghost use Rattle.ob_name.specs.Refs.{name_at, row_at};

use crate::entered::Entered;
use crate::name::NameRef;
use crate::owned::{INLINE, Name};
use crate::places::{close_up, entry_of, renumber, row_on};
use crate::rows::Rows;
use indexmap::IndexMap;
use ob_rights::Fault;
use pin_core::Id;
use std::alloc::Global;
use std::marker::Model;

/// The names of objects with their Ids, in the order of entry. No name stands twice.
///
/// A name is found by its hash, in a time that doesn't grow with the number of names. The hash has no secret: names
/// that somebody chose to have one hash are found one after another. A name that goes leaves a hole in the order of
/// entry; where more than half are holes, [`remove`] closes them, in a time that grows with the number of names.
///
/// [`remove`]: Directory::remove
#[derive(Drop)]
pub struct Directory {
    ids: IndexMap<Name, Entered>,
    // For each place the number of an entry of `ids`; a hole, where that entry has another place.
    order: Vec<usize>,
    // How many names there are: places that aren't holes.
    count: usize,
}

impl Model for Directory {
    ghost use Rattle.std.specs.Prelude.{◌≡◌, ◌-◌, min, length, vec_capacity};
    ghost use Rattle.std.specs.HashMap.{spare};
    ghost use Rattle.ob_name.specs.Listing.{Listing};
    ghost use Rattle.ob_name.specs.Order.{IsOrdered, rows_of};

    ghost Value = { Listing };

    ghost view = { λ d. record {
      rows = rows_of d.ids.entries d.order.items;
      spare = min (spare d.ids) (vec_capacity d.order - length d.order.items);
    } };

    ghost invariant = { λ d. IsOrdered d.ids.entries d.order.items
        × (d.count ≡ length (rows_of d.ids.entries d.order.items)) };
}

impl Directory {
    /// A directory without names. It takes no memory before the first [`reserve`].
    ///
    /// [`reserve`]: Directory::reserve
    pub fn new(alloc: Global) -> Directory
        ensures { result.rows ≡ [] }
    {
        Directory {
            ids: IndexMap::new(alloc),
            order: Vec::new(alloc),
            count: 0,
        }
    }

    /// The Id that was entered with a name. Takes no memory.
    pub fn find(&self, name: &NameRef<'_>) -> Option<Id>
        ensures { result ≡ find_name (name_at name.now) self.now.rows }
    {
        let index = entry_of(&self.ids, name)?;
        Some(self.ids[index].id)
    }

    /// A copy of a name to enter, with room for one name more.
    ///
    /// Where memory is wanting the answer is `Fault::Memory` (8). In either case the names stay. Where there is room
    /// for one more a name of at most 16 bytes takes none.
    pub fn reserve(&mut self, name: &NameRef<'_>) -> Result<Name, Fault>
        ensures rows { self.new.rows ≡ self.old.rows }
        ensures spare { self.old.spare ≤ self.new.spare }
        ensures copy { IfOk result (λ copy. copy ≡ name_at name.now) }
        ensures room { OnOk result (0 < self.new.spare) }
        ensures succeeds { 0 < self.old.spare → length (name_at name.now).base ≤ INLINE → IsOk result }
        ensures refused { IfErr result (λ fault. fault ≡ Memory) }
    {
        if self.order.len() == self.order.capacity() && self.count <= self.order.len() / 2 {
            self.close_holes();
        }
        let copy = Name::new(*self.ids.allocator(), name)?;
        self.ids.reserve(1)?;
        self.order.reserve(1)?;
        Ok(copy)
    }

    /// Enters a name, which is the last one then. Takes no memory.
    #[tactic(auto, using(crate::proofs::Counted::few_rows))]
    pub fn enter(&mut self, name: Name, id: Id)
        requires absent { find_name name self.old.rows ≡ None }
        requires room { 0 < self.old.spare }
        ensures rows { self.new.rows ≡ self.old.rows ++ (name, id) ∷ [] }
        ensures spare { self.old.spare ≤ self.new.spare + 1 }
    {
        self.order.push_reserved(self.ids.len());
        let place = self.order.len() - 1;
        let _ = self.ids.insert(name, Entered { id, place });
        self.count += 1;
    }

    /// Takes a name out, and answers its Id. The names behind it close up. Takes no memory.
    pub fn remove(&mut self, name: &NameRef<'_>) -> Option<Id>
        ensures id { result ≡ find_name (name_at name.now) self.old.rows }
        ensures rows { self.new.rows ≡ without_name (name_at name.now) self.old.rows }
        ensures spare { self.old.spare ≤ self.new.spare }
    {
        let id = self.take_out(name);
        if self.count < self.order.len() / 2 {
            self.close_holes();
        }
        id
    }

    /// Takes a name out, and answers its Id. A hole is left at the name's place.
    #[tactic(auto, using(crate::proofs::Removed::stays, crate::proofs::Removed::looked_up, crate::proofs::Removed::some_counted))]
    fn take_out(&mut self, name: &NameRef<'_>) -> Option<Id>
        ensures id { result ≡ find_name (name_at name.now) self.old.rows }
        ensures rows { self.new.rows ≡ without_name (name_at name.now) self.old.rows }
        ensures spare { self.old.spare ≤ self.new.spare }
    {
        let index = entry_of(&self.ids, name)?;
        let (_name, entered) = self.ids.swap_remove_index(index).unwrap();
        renumber(&self.ids, &mut self.order, index);
        self.count -= 1;
        Some(entered.id)
    }

    /// Closes the holes that removed names left, so that [`row`] takes constant time until the next name goes. It takes
    /// no memory, and a time that grows with the number of names where there is a hole.
    ///
    /// [`row`]: Directory::row
    pub fn close_holes(&mut self)
        ensures rows { self.new.rows ≡ self.old.rows }
        ensures spare { self.old.spare ≤ self.new.spare }
    {
        if self.count < self.order.len() {
            close_up(&mut self.ids, &mut self.order);
        }
    }

    /// The number of names.
    #[tactic(auto, using(crate::proofs::Found::rows_distinct))]
    pub fn len(&self) -> usize
        ensures len { result ≡ length self.now.rows }
        ensures distinct { AreDistinct self.now.rows }
    {
        // Called for its clause: that no name stands twice.
        let _ = self.ids.len();
        self.count
    }

    /// The name at a place, with its Id. Places are numbers from 0, in the order of entry.
    ///
    /// After a removal it takes a time that grows with the number of names, until [`close_holes`]; [`rows`] walks over
    /// all of them in such a time.
    ///
    /// [`close_holes`]: Directory::close_holes
    /// [`rows`]: Directory::rows
    #[tactic(auto, using(crate::proofs::Walked::direct))]
    pub fn row(&self, at: usize) -> Option<(NameRef<'_>, Id)>
        ensures { option_map row_at result ≡ slice_get self.now.rows at }
    {
        if self.count == self.order.len() {
            return row_on(&self.ids, &self.order, at);
        }
        self.rows().nth(at)
    }

    /// The names with their Ids, in the order of entry.
    pub fn rows(&self) -> Rows<'_>
        ensures { result ≡ self.now.rows }
    {
        Rows::new(&self.ids, &self.order)
    }
}
