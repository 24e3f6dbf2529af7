ghost use Rattle.std.specs.Prelude.{◌≡◌, ◌↔◌, ◌+◌, [], IfNone, IfSome, IsTrue, Some};
ghost use Rattle.std.specs.List.{slice_get};
ghost use Rattle.ob_shared.specs.Closing.{DifferAt, IsPart};
ghost use Rattle.ob_shared.specs.Lanes.{part};

use crate::book::{Entry, Receipt};
use std::alloc::Global;
use std::marker::Model;

/// One caller of a [`Shared`](crate::Shared): the receipts of its calls, in their order. It is known by its number.
#[derive(Drop)]
pub struct Lane {
    pub(crate) number: u32,
    pub(crate) list: Vec<Receipt>,
}

impl Model for Lane {
    ghost use Rattle.ob_shared.specs.Lanes.{AreOf, LaneState};

    ghost Value = { LaneState };

    ghost view = { λ lane. record { number = lane.number; list = lane.list.items } };

    ghost invariant = { λ lane. AreOf lane.number lane.list.items };
}

impl Lane {
    pub(crate) fn new(alloc: Global, number: u32) -> Lane
        ensures { result ≡ record { number = number; list = [] } }
    {
        Lane {
            number,
            list: Vec::new(alloc),
        }
    }

    /// Its number, from 0.
    pub fn number(&self) -> u32
        ensures { result ≡ self.now.number }
    {
        self.number
    }

    /// The receipts of its calls, in the order in which it made them.
    pub fn receipts(&self) -> &[Receipt]
        ensures { result.now ≡ self.now.list }
    {
        self.list.as_slice()
    }

    /// The place behind `place`, where the entry stands at `place` in its list; none where it doesn't.
    pub(crate) fn next(&self, place: usize, entry: &Entry) -> Option<usize>
        ensures { IfSome result (λ next. (next ≡ place + 1) × (slice_get self.now.list place ≡ Some entry.now)) }
    {
        if has_at(self.list.as_slice(), place, entry) {
            return Some(place + 1);
        }
        None
    }

    /// The first place where the list differs from the lane's part of a journal.
    pub(crate) fn difference(&self, journal: &[Entry]) -> Option<usize>
        ensures none { IfNone result (IsPart journal.now self.now) }
        ensures found { IfSome result (λ place. DifferAt self.now.list (part self.now.number journal.now) place) }
    {
        difference(self.number, self.list.as_slice(), journal)
    }
}

/// Whether the entry stands at a place of the list.
fn has_at(list: &[Receipt], place: usize, entry: &Entry) -> bool
    ensures { IsTrue result ↔ (slice_get list.now place ≡ Some entry.now) }
{
    place < list.len() && list[place].entry().is_same(entry)
}

/// The first place where a list differs from a lane's part of a journal: the entries of the lane, in their order.
#[tactic(auto, using(crate::proofs::Parts::part_whole))]
fn difference(number: u32, list: &[Receipt], journal: &[Entry]) -> Option<usize>
    ensures none { IfNone result (list.now ≡ part number journal.now) }
    ensures found { IfSome result (λ place. DifferAt list.now (part number journal.now) place) }
{
    let mut place = 0;
    for entry in journal {
        if entry.lane == number {
            if !has_at(list, place, entry) {
                return Some(place);
            }
            place += 1;
        }
    }
    if place < list.len() {
        return Some(place);
    }
    None
}
