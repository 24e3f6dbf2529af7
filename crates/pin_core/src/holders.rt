ghost use Rattle.std.specs.Prelude.{◌≡◌, count_by, position};
ghost use Rattle.pin_core.specs.Holds.{drop_first, is_copy, is_hold};

use crate::id::{Id, same_id};
use std::alloc::{AllocError, Global};
use std::marker::Model;

/// A copy of an Id that a reader holds.
#[derive(Clone, Copy, Debug, PartialEq, Eq, Hash, Default)]
pub struct Hold {
    /// The reader's number.
    pub reader: u32,
    /// The Id.
    pub id: Id,
    /// Which of the reader's copies of the Id it is, from 1.
    pub copy: u64,
}

// A set of holds, a list for each slot.
#[derive(Drop)]
pub(crate) struct Holders {
    by_slot: Vec<Vec<Hold>>,
}

impl Model for Holders {
    ghost use Rattle.std.specs.Prelude.{length};
    ghost use Rattle.pin_core.specs.Holds.{Holding};
    ghost use Rattle.pin_core.specs.Grouped.{all_of, AreGrouped};

    ghost Value = { Holding };

    ghost view = { λ h. record { slots = length h.by_slot.items; all = all_of h.by_slot.items } };

    ghost invariant = { λ h. AreGrouped 0 h.by_slot.items };
}

impl Holders {
    ghost use Rattle.std.specs.Prelude.{◌≡◌, ◌<◌, [], IfOk, OnOk, OnErr};
    ghost use Rattle.pin_core.specs.Holds.{tally, is_at_slot, is_copy, with_one, without};

    #[tactic(auto, using(crate::proofs::Groups::holding_empty))]
    pub(crate) fn new(alloc: Global, slots: u32) -> Result<Holders, AllocError>
        ensures { IfOk result (λ h. h ≡ record { slots = slots; all = [] }) }
    {
        let mut by_slot = Vec::new(alloc);
        for _ in 0..slots {
            by_slot.push(Vec::new(alloc))?;
        }
        Ok(Holders { by_slot })
    }

    #[tactic(auto, using(crate::proofs::Groups::pins_held))]
    pub(crate) fn pins(&self, slot: u32) -> usize
        requires { slot < self.now.slots }
        ensures { result ≡ tally (is_at_slot slot) self.now.all }
    {
        self.by_slot[slot as usize].len()
    }

    pub(crate) fn copies(&self, reader: u32, id: Id) -> usize
        requires { id.slot < self.now.slots }
        ensures { result ≡ tally (is_copy reader id) self.now.all }
    {
        copies_in(self.by_slot[id.slot as usize].as_slice(), reader, id)
    }

    #[tactic(auto, using(crate::proofs::Groups::grouped_same, crate::proofs::Groups::holding_same, crate::proofs::Groups::grouped_more, crate::proofs::Groups::holding_more))]
    pub(crate) fn add(&mut self, hold: Hold) -> Result<(), AllocError>
        requires { hold.id.slot < self.old.slots }
        ensures ok { OnOk result (self.new ≡ with_one self.old hold) }
        ensures err { OnErr result (self.new ≡ self.old) }
    {
        let here = &mut self.by_slot[hold.id.slot as usize];
        here.push(hold)?;
        Ok(())
    }

    #[tactic(auto, using(crate::proofs::Groups::grouped_less, crate::proofs::Groups::holding_less))]
    pub(crate) fn remove(&mut self, hold: Hold)
        requires { hold.id.slot < self.old.slots }
        ensures { self.new ≡ without self.old hold }
    {
        let here = &mut self.by_slot[hold.id.slot as usize];
        forget(here, hold);
    }
}

fn copies_in(holds: &[Hold], reader: u32, id: Id) -> usize
    ensures { result ≡ count_by (is_copy reader id) holds.now }
{
    holds
        .iter()
        .filter(|h| h.reader == reader && same_id(h.id, id))
        .count()
}

fn place_of(holds: &[Hold], hold: Hold) -> Option<usize>
    ensures { result ≡ position (is_hold hold) holds.now }
{
    holds.iter().position(|h| (h.reader == hold.reader && same_id(h.id, hold.id))
        && h.copy == hold.copy)
}

#[tactic(auto, using(crate::proofs::Counts::found_some))]
fn forget(holds: &mut Vec<Hold>, hold: Hold)
    ensures { holds.new.items ≡ drop_first (is_hold hold) holds.old.items }
{
    if let Some(place) = place_of(holds.as_slice(), hold) {
        holds.remove(place);
    }
}
