ghost use Rattle.std.specs.Prelude.{[], ◌≡◌, ◌<◌, ◌≤◌, List, Option, None, OnOk, false, true};
ghost use Rattle.std.specs.Prelude.{drop, length, slice_index_or};
ghost use Rattle.ob_waits.specs.declared.wait.Wait.{Wait};
ghost use Rattle.ob_waits.specs.Waits.{is_pending};
ghost use Rattle.ob_waits.specs.RisingNumbers.{numbers_of, Thins};
ghost use Rattle.ob_waits.specs.PendingIndex.{IsRight, HasPlace, ThinsIndex};

use crate::index::Index;
use crate::live::Live;
use crate::rising_numbers::RisingNumbers;
use pin_core::Id;
use std::alloc::{AllocError, Global};
use std::marker::Model;

/// Finds waits in order, and by the slot of an object.
#[derive(Drop)]
pub(crate) struct PendingIndex {
    order: RisingNumbers,
    index: Index,
}

impl Model for PendingIndex {
    ghost use Rattle.ob_waits.specs.PendingIndex as spec;

    ghost Value = { spec.PendingIndex };

    ghost view = { λ r. record { order = r.order; index = r.index } };
}

impl PendingIndex {
    pub(crate) fn new(alloc: Global) -> PendingIndex
        ensures { result ≡ record { order = []; index = [] } }
    {
        PendingIndex {
            order: RisingNumbers::new(alloc),
            index: Index::new(alloc),
        }
    }

    /// Numbers, rising, among which are all of pending waits.
    pub(crate) fn order(&self) -> &[u32]
        ensures { result.now ≡ self.now.order }
    {
        self.order.as_slice()
    }

    /// Numbers, rising, among which are all of pending waits for an object in a slot.
    pub(crate) fn numbers(&self, slot: u32) -> &[u32]
        ensures { result.now ≡ numbers_of self.now.index slot }
    {
        self.index.numbers(slot)
    }

    /// Takes all memory that a wait for these objects needs here.
    #[tactic(auto, using(crate::proofs::PendingIndexLaws::right_grown))]
    pub(crate) fn make_room(
        &mut self,
        live: &Live,
        ids: &[Id],
        number: u32,
    ) -> Result<(), AllocError>
        requires right { IsRight live.now self.old }
        requires next { length live.now ≡ number }
        ensures right { IsRight live.now self.new }
        ensures place { OnOk result (HasPlace self.new ids.now number) }
    {
        let _ = self.order.enter(live, number, number)?;
        self.index.enter_all(live, ids, number)
    }

    /// Drops numbers of waits that are not pending.
    pub(crate) fn thin(&mut self, live: &Live)
        ensures { ThinsIndex live.now self.old self.new }
    {
        let count = self.order.as_slice().len();
        self.order.thin(live, count, false);
    }

    /// Drops the number of a wait that is not pending, where it is the last.
    pub(crate) fn forget(&mut self, number: u32)
        ensures { (waits : List (Option Wait)) → is_pending (slice_index_or waits number None) ≡ false
            → ThinsIndex waits self.old self.new }
    {
        self.order.forget(number);
    }

    /// Drops, of the first `count` numbers of a slot, those whose waits are not pending: all of them, where that is
    /// known.
    pub(crate) fn thin_slot(&mut self, live: &Live, slot: u32, count: usize, all: bool)
        requires bound { count ≤ length (numbers_of self.old.index slot) }
        requires all { all ≡ true
            → Thins live.now (numbers_of self.old.index slot) (drop count (numbers_of self.old.index slot)) }
        ensures { ThinsIndex live.now self.old self.new }
    {
        self.index.thin(live, slot, count, all);
    }

    /// Drops the first numbers, as far as their waits are not pending, at the slots of some objects.
    pub(crate) fn thin_slots(&mut self, live: &Live, ids: &[Id])
        ensures { ThinsIndex live.now self.old self.new }
    {
        self.index.thin_each(live, ids);
    }
}
