ghost use Rattle.std.specs.Prelude.{[], ◌∷◌, ◌++◌, ◌≡◌, ◌⊎◌, IfErr, Some, ◌+◌, ◌<◌, ◌≤◌, IfOk, OnOk, OnErr, IsSome};
ghost use Rattle.std.specs.Prelude.{length, slice_get, slice_set, true, is_some, nat_le};
ghost use Rattle.ob_rights.specs.declared.fault.Fault.TheVariants.{Limit, Memory};
ghost use Rattle.ob_tables.specs.Table.{at, entry_at, free_place, is_packed, place_of, value_of, with_entry};
ghost use Rattle.ob_tables.specs.Table.{without_entry, with_flags};
ghost use Rattle.ob_tables.specs.Counts.{entries_in};
ghost use Rattle.ob_tables.specs.Inheritance.{inheritable, inherited};
ghost use Rattle.ob_tables.specs.Spelling.{is_short};

use crate::entry::{Entry, inheritable};
use least::LeastFree;
use ob_rights::{Fault, HandleFlags, Rights};
use pin_core::Id;
use std::alloc::{AllocError, Global};
use std::marker::Model;

/// The greatest number of entries that the table of one process may have (*profile*).
pub const HANDLES_MAX: u32 = 16_384;

// The values of handles are this far apart, so that their two lowest bits are free.
const STEP: u32 = 4;

/// The value of a place: 4, 8, 12 and so on.
#[inline]
pub(crate) fn value_of(place: usize) -> u32
    requires { place < HANDLES_MAX }
    ensures { result ≡ value_of place }
{
    STEP * (place as u32 + 1)
}

/// The place of a value from 4 on, whose two lowest bits are ignored.
#[inline]
pub(crate) fn place_of(value: u32) -> usize
    requires { 4 ≤ value }
    ensures { result ≡ place_of value }
{
    (value / STEP) as usize - 1
}

/// The handle table of one process: from the outside, the list of its places.
// A number is taken where its place has an entry, so the least free one is the least free place.
#[derive(Drop)]
pub(crate) struct Table {
    places: Vec<Option<Entry>>,
    free: LeastFree,
}

impl Model for Table {
    ghost use Rattle.std.specs.Prelude.{List, Option};
    ghost use Rattle.ob_tables.specs.declared.entry.Entry.{Entry};
    ghost use Rattle.ob_tables.specs.Table.{TableInvariant};

    ghost Value = { List (Option Entry) };

    ghost view = { λ t. t.places.items };

    ghost invariant = { λ t. TableInvariant t.free t.places.items };
}

/// The entry of a handle value, whose two lowest bits are ignored, in the places of a table.
///
/// Its cost does not grow with the places.
#[inline]
pub fn entry_in(places: &[Option<Entry>], value: u32) -> Option<Entry>
    ensures { result ≡ entry_at places.now value }
{
    // One above its place.
    let above = (value / STEP) as usize;
    if above == 0 || above > places.len() {
        return None;
    }
    places[above - 1]
}

impl Table {
    pub(crate) fn new(alloc: Global) -> Table
        ensures { result ≡ [] }
    {
        Table {
            places: Vec::new(alloc),
            free: LeastFree::new(alloc),
        }
    }

    /// The places, each with its entry or with none.
    pub(crate) fn places(&self) -> &[Option<Entry>]
        ensures places { result.now ≡ self.now }
        ensures at_most { length result.now ≤ HANDLES_MAX }
    {
        self.places.as_slice()
    }

    /// Whether there are no more places than this.
    pub(crate) fn is_short(&self, limit: u32) -> bool
        ensures { result ≡ is_short limit self.now }
    {
        self.places.len() <= limit as usize
    }

    /// The places of a table that goes.
    pub(crate) fn into_places(self) -> Vec<Option<Entry>>
        ensures { result.items ≡ self }
    {
        self.places
    }

    /// The entry of a handle value, whose two lowest bits are ignored.
    #[inline]
    pub(crate) fn entry(&self, value: u32) -> Option<Entry>
        ensures { result ≡ entry_at self.now value }
    {
        entry_in(self.places.as_slice(), value)
    }

    /// How many entries there are.
    #[tactic(auto, using(crate::proofs::Places::entries_taken))]
    pub(crate) fn count(&self) -> u32
        ensures { result ≡ entries_in self.now }
    {
        self.free.taken_count() as u32
    }

    /// Whether there are as many entries as the limit lets.
    #[inline(always)]
    #[tactic(auto, using(crate::proofs::Places::least_place))]
    pub(crate) fn is_full(&self, limit: u32) -> bool
        ensures { result ≡ nat_le limit (free_place self.now) }
    {
        self.free.least() >= limit as usize
    }

    /// Places an entry at the least free place, which has to be below the limit, and gives its value.
    #[inline]
    pub(crate) fn place(&mut self, entry: Entry, limit: u32) -> Result<u32, Fault>
        requires { limit ≤ HANDLES_MAX }
        ensures value { IfOk result (λ value. value ≡ value_of (free_place self.old)) }
        ensures ok { OnOk result (self.new ≡ with_entry self.old entry) }
        ensures room { OnOk result (free_place self.old < limit) }
        ensures refusal { IfErr result (λ fault. ((fault ≡ Limit) × (limit ≤ free_place self.old))
            ⊎ ((fault ≡ Memory) × (free_place self.old < limit))) }
        ensures reuses { IfErr result (λ fault. fault ≡ Memory → is_packed self.old ≡ true) }
        ensures err { OnErr result (self.new ≡ self.old) }
    {
        let place = self.free.least();
        if place >= limit as usize {
            return Err(Fault::Limit);
        }
        if place < self.places.len() {
            self.free.take(place);
            self.places[place] = Some(entry);
            return Ok(value_of(place));
        }
        let Ok(()) = self.push(entry.id, entry.rights, entry.flags) else {
            return Err(Fault::Memory);
        };
        Ok(value_of(place))
    }

    /// Adds a place with an entry. It takes the entry in parts, so that its caller need not put it into memory first.
    #[inline(never)]
    fn push(&mut self, id: Id, rights: Rights, flags: HandleFlags) -> Result<(), AllocError>
        requires { length self.old < HANDLES_MAX }
        ensures ok { OnOk result (self.new ≡ self.old ++ Some (record { id = id; rights = rights; flags = flags })
            ∷ []) }
        ensures err { OnErr result (self.new ≡ self.old) }
    {
        self.places.reserve(1)?;
        self.free.grow()?;
        self.places.push(Some(Entry { id, rights, flags }))?;
        Ok(())
    }

    /// Removes the entry of a handle value.
    #[inline]
    pub(crate) fn remove(&mut self, value: u32) -> Option<Entry>
        ensures value { result ≡ entry_at self.old value }
        ensures after { self.new ≡ without_entry self.old value }
    {
        let entry = self.entry(value)?;
        let place = place_of(value);
        self.free.give_back(place);
        self.places[place] = None;
        Some(entry)
    }

    /// Changes the flags of an entry.
    pub(crate) fn set_flags(&mut self, value: u32, flags: HandleFlags)
        requires { IsSome (entry_at self.old value) }
        ensures { self.new ≡ with_flags self.old value flags }
    {
        let place = place_of(value);
        if let Some(entry) = self.places[place] {
            self.places[place] = Some(Entry { flags, ..entry });
        }
    }

    /// The table with these places.
    pub(crate) fn of_places(alloc: Global, places: Vec<Option<Entry>>) -> Result<Table, AllocError>
        requires { length places.items ≤ HANDLES_MAX }
        ensures { IfOk result (λ table. table ≡ places.items) }
    {
        let len = places.len();
        let mut free = LeastFree::with_taken(alloc, len)?;
        for i in 0..len {
            free_at(places.as_slice(), &mut free, i);
        }
        Ok(Table { places, free })
    }

    /// The table of a child of a process with these places: just the inheritable entries.
    #[tactic(auto, using(crate::proofs::Inheriting::copied_all))]
    pub(crate) fn inheriting(alloc: Global, places: &[Option<Entry>]) -> Result<Table, AllocError>
        requires { length places.now ≤ HANDLES_MAX }
        ensures { IfOk result (λ child. child ≡ inherited places.now) }
    {
        let len = inherited_len(places);
        let mut copies = Vec::from_slice(alloc, &places[..len])?;
        let mut free = LeastFree::with_taken(alloc, len)?;
        for i in 0..len {
            inherit_at(&mut copies, &mut free, i);
        }
        Ok(Table {
            places: copies,
            free,
        })
    }
}

/// How many places a child inherits: those up to the last inheritable entry.
#[tactic(auto, using(crate::proofs::Inheriting::inherited_end, crate::proofs::Inheriting::inherited_back))]
fn inherited_len(places: &[Option<Entry>]) -> usize
    ensures value { result ≡ length (inherited places.now) }
    ensures bound { result ≤ length places.now }
{
    for i in (0..places.len()).rev() {
        if inheritable(places[i]).is_some() {
            return i + 1;
        }
    }
    0
}

/// Gives the number of a place back where it has no entry.
#[tactic(auto, using(crate::proofs::Places::stays_taken))]
fn free_at(places: &[Option<Entry>], free: &mut LeastFree, place: usize)
    requires within { place < length places.now }
    requires held { slice_get free.old place ≡ Some true }
    ensures { free.new ≡ slice_set free.old place (is_some (at places.now place)) }
{
    let here = places[place];
    if here.is_none() {
        free.give_back(place);
    }
}

/// Leaves the entry of a place out where it isn't inheritable, and gives its number back.
#[tactic(auto, using(std::proofs::lemmas::List::get_or_read, crate::proofs::Places::stays_taken))]
fn inherit_at(copies: &mut Vec<Option<Entry>>, free: &mut LeastFree, place: usize)
    requires within { place < length copies.old.items }
    requires held { slice_get free.old place ≡ Some true }
    ensures entry { copies.new.items ≡ slice_set copies.old.items place (inheritable (at copies.old.items place)) }
    ensures number { free.new ≡ slice_set free.old place (is_some (inheritable (at copies.old.items place))) }
{
    if inheritable(copies[place]).is_some() {
        return;
    }
    copies[place] = None;
    free.give_back(place);
}
