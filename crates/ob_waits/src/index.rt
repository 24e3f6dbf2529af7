ghost use Rattle.std.specs.Prelude.{◌≡◌, ◌<◌, ◌≤◌, ℕ, [], drop, false, length, slice_index_or, true, IfOk, None, OnOk};
ghost use Rattle.ob_waits.specs.Rules.{Within};
ghost use Rattle.ob_waits.specs.RisingNumbers.{numbers_of, AreOrdered, KeepsEach, Thins, ThinsEach};
ghost use Rattle.ob_waits.specs.Waits.{is_pending, nowhere};

use crate::live::Live;
use crate::rising_numbers::RisingNumbers;
use pin_core::Id;
use std::alloc::{AllocError, Global};
use std::marker::Model;

/// For each slot numbers of waits, among which are all that are pending for an object there.
#[derive(Drop)]
pub(crate) struct Index {
    lists: Vec<RisingNumbers>,
    alloc: Global,
}

impl Model for Index {
    ghost use Rattle.std.specs.Prelude.{List, ℕ};

    ghost Value = { List (List ℕ) };

    ghost view = { λ i. i.lists.items };
}

impl Index {
    pub(crate) fn new(alloc: Global) -> Index
        ensures { result ≡ [] }
    {
        Index {
            lists: Vec::new(alloc),
            alloc,
        }
    }

    /// The numbers of a slot.
    pub(crate) fn numbers(&self, slot: u32) -> &[u32]
        ensures { result.now ≡ numbers_of self.now slot }
    {
        let at = slot as usize;
        if at < self.lists.len() {
            let numbers = &self.lists[at];
            return numbers.as_slice();
        }
        &[]
    }

    /// Drops, of the first `count` numbers of a slot, those whose waits are not pending: all of them, where that is
    /// known.
    pub(crate) fn thin(&mut self, live: &Live, slot: u32, count: usize, all: bool)
        requires bound { count ≤ length (numbers_of self.old slot) }
        requires all { all ≡ true → Thins live.now (numbers_of self.old slot) (drop count (numbers_of self.old slot)) }
        ensures { ThinsEach live.now self.old self.new }
    {
        let at = slot as usize;
        if at < self.lists.len() {
            let numbers = &mut self.lists[at];
            numbers.thin(live, count, all);
        }
    }

    fn make_room(&mut self, slot: u32) -> Result<(), AllocError>
        ensures room { OnOk result (slot < length self.new) }
        ensures same { (s : ℕ) → numbers_of self.new s ≡ numbers_of self.old s }
    {
        let at = slot as usize;
        while self.lists.len() <= at {
            self.lists.push(RisingNumbers::new(self.alloc))?;
        }
        Ok(())
    }

    fn enter_there(
        &mut self,
        live: &Live,
        slot: u32,
        number: u32,
        over: u32,
    ) -> Result<u32, AllocError>
        requires room { slot < length self.old }
        requires ordered { AreOrdered number self.old }
        requires fresh { is_pending (slice_index_or live.now number None) ≡ false }
        requires over { is_pending (slice_index_or live.now over None) ≡ false }
        ensures over { IfOk result (λ n. is_pending (slice_index_or live.now n None) ≡ false) }
        ensures ordered { AreOrdered number self.new }
        ensures keeps { KeepsEach live.now self.old self.new }
        ensures stays { OnOk result ((s : ℕ) → Within number (numbers_of self.old s)
            → Within number (numbers_of self.new s)) }
        ensures entered { OnOk result (Within number (numbers_of self.new slot)) }
    {
        let numbers = &mut self.lists[slot as usize];
        numbers.enter(live, number, over)
    }

    fn enter(&mut self, live: &Live, slot: u32, number: u32, over: u32) -> Result<u32, AllocError>
        requires ordered { AreOrdered number self.old }
        requires fresh { is_pending (slice_index_or live.now number None) ≡ false }
        requires over { is_pending (slice_index_or live.now over None) ≡ false }
        ensures over { IfOk result (λ n. is_pending (slice_index_or live.now n None) ≡ false) }
        ensures ordered { AreOrdered number self.new }
        ensures keeps { KeepsEach live.now self.old self.new }
        ensures stays { OnOk result ((s : ℕ) → Within number (numbers_of self.old s)
            → Within number (numbers_of self.new s)) }
        ensures entered { OnOk result (Within number (numbers_of self.new slot)) }
    {
        self.make_room(slot)?;
        self.enter_there(live, slot, number, over)
    }

    /// Puts the number of a wait that is to come in at the slot of each of its objects.
    pub(crate) fn enter_all(
        &mut self,
        live: &Live,
        ids: &[Id],
        number: u32,
    ) -> Result<(), AllocError>
        requires ordered { AreOrdered number self.old }
        requires fresh { is_pending (slice_index_or live.now number None) ≡ false }
        ensures ordered { AreOrdered number self.new }
        ensures keeps { KeepsEach live.now self.old self.new }
        ensures entered { OnOk result ((i : ℕ) → i < length ids.now
            → Within number (numbers_of self.new (slice_index_or ids.now i nowhere).slot)) }
    {
        let mut over = number;
        for id in ids {
            over = self.enter(live, id.slot, number, over)?;
        }
        Ok(())
    }

    /// Drops the first numbers of a slot as far as their waits are not pending.
    fn advance(&mut self, live: &Live, slot: u32)
        ensures { ThinsEach live.now self.old self.new }
    {
        let at = slot as usize;
        if at < self.lists.len() {
            let numbers = &mut self.lists[at];
            numbers.advance(live);
        }
    }

    /// Drops the first numbers, as far as their waits are not pending, at the slot of each object.
    #[tactic(auto, using(crate::proofs::IndexLaws::thins_each_none, crate::proofs::IndexLaws::thins_each_both))]
    pub(crate) fn thin_each(&mut self, live: &Live, ids: &[Id])
        ensures { ThinsEach live.now self.old self.new }
    {
        for id in ids {
            self.advance(live, id.slot);
        }
    }
}
