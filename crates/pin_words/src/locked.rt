ghost use Rattle.std.specs.Prelude.{◌≡◌, ◌≤◌, ◌<◌, ℕ, [], ◌∷◌, ◌++◌, length, count_by};
ghost use Rattle.pin_core.specs.declared.id.Id.{Id};
ghost use Rattle.pin_core.specs.Shapes.{IsWithinLimits};
ghost use Rattle.pin_core.specs.Holds.{tally, same_id};
ghost use Rattle.pin_core.specs.Opened.{shown_from};
ghost use Rattle.pin_words.specs.Views.{is_of_slot};

use crate::fault::{PinFault, Verdict, judge};
use crate::pin_keeper::{PinKeeper, Reclaim};
use crate::published::Published;
use crate::reader::{forget, is_among};
use arrayvec::ArrayVec;
use ob_rights::Fault;
use pin_core::{Descr, Id, Phase, Shape, Slot, Word};
use std::alloc::Global;
use std::marker::Model;

/// A keeper under a lock, with one holder of at most 16 copies.
#[derive(Drop)]
pub struct LockedPins {
    shape: Shape,
    slots: Vec<Slot>,
    published: Published,
    held: ArrayVec<Id, 16>,
    ghost within: { IsWithinLimits shape },
    ghost length_is: { length slots.items ≡ shape.slots },
    ghost room: { (s : ℕ) → tally (is_of_slot s) held.items ≤ shape.max_pins },
    ghost inside: { (x : Id) → 0 < tally (same_id x) held.items → x.slot < shape.slots },
}

impl Model for LockedPins {
    ghost use Rattle.pin_words.specs.Keepers.{KeeperState, locked};

    ghost Value = { KeeperState };

    ghost view = { λ p. locked p.shape p.slots.items p.published.list p.held.items };
}

fn pins_at(held: &[Id], slot: u32) -> usize
    ensures { result ≡ count_by (is_of_slot slot) held.now }
{
    held.iter().filter(|h| h.slot == slot).count()
}

/// What was published, and the Id of the slot where it is live or closing.
fn with_slot(published: Published, number: u32, slot: Slot) -> Published
    ensures { result.list ≡ published.list ++ shown_from number (slot ∷ []) }
{
    match slot.phase {
        Phase::Live | Phase::Closing => {
            let id = Id {
                slot: number,
                generation: slot.generation,
            };
            published.and(&id, &slot.descr)
        }
        Phase::Free | Phase::Retired => published,
    }
}

/// What is published of slots that nobody holds: the Id of each live or closing one, with its descriptor.
#[tactic(auto, using(crate::proofs::Showing::one_more_shown))]
fn shown(slots: &[Slot]) -> Published
    requires { length slots.now ≤ 65536 }
    ensures { result.list ≡ shown_from 0 slots.now }
{
    let mut published = Published::new();
    for i in 0..slots.len() {
        published = with_slot(published, i as u32, slots[i]);
    }
    published
}

impl LockedPins {
    ghost use Rattle.std.specs.Prelude.{◌≡◌, ◌<◌, ◌≤◌, ◌↔◌, [], ◌∷◌, ◌++◌, length, replicate, slice_set, false, IsTrue};
    ghost use Rattle.std.specs.Prelude.{OnOk, IfOk, IfErr};
    ghost use Rattle.ob_rights.specs.declared.fault.Fault.TheVariants.{Memory};
    ghost use Rattle.pin_core.specs.declared.word.Phase.TheVariants.{Free, Live, Closing};
    ghost use Rattle.pin_core.specs.Shapes.{IsWithinLimits};
    ghost use Rattle.pin_core.specs.Descrs.{IsGiven};
    ghost use Rattle.pin_core.specs.Holds.{tally, same_id};
    ghost use Rattle.pin_core.specs.Opened.{shown_from};
    ghost use Rattle.pin_core.specs.Worlds.{opening_slot, slot_of};
    ghost use Rattle.pin_words.specs.Views.{is_of_slot};
    ghost use Rattle.pin_words.specs.Keepers.{locked, with_slots, with_published, with_held, word_of, stored};
    ghost use Rattle.pin_words.specs.Keepers.{published, closed, released, TriesLocked, ReclaimsLocked};

    /// New pins: each slot is free at generation 1 with the descriptor of an event that is reset by itself, and nothing
    /// is held. [`Fault::Memory`] (8) where memory ran out.
    pub fn new(alloc: Global, shape: Shape) -> Result<LockedPins, Fault>
        requires { IsWithinLimits shape }
        ensures ok { IfOk result (λ p. p ≡ locked shape (replicate shape.slots opening_slot) [] []) }
        ensures err { IfErr result (λ e. e ≡ Memory) }
    {
        let Ok(slots) = vec![in alloc; Slot::opening(); shape.slots as usize] else {
            return Err(Fault::Memory);
        };
        Ok(LockedPins {
            shape,
            slots,
            published: Published::new(),
            held: ArrayVec::new(),
        })
    }

    /// Pins over given slots, which nobody holds. What is published is the Id of each live or closing slot, with its
    /// descriptor.
    pub fn with_slots(shape: Shape, slots: Vec<Slot>) -> LockedPins
        requires within { IsWithinLimits shape }
        requires length_is { length slots.items ≡ shape.slots }
        ensures { result ≡ locked shape slots.items (shown_from 0 slots.items) [] }
    {
        let published = shown(slots.as_slice());
        LockedPins {
            shape,
            slots,
            published,
            held: ArrayVec::new(),
        }
    }

    /// How many slots there are.
    pub fn slots(&self) -> u32
        ensures { result ≡ self.now.shape.slots }
    {
        self.shape.slots
    }

    /// The slots, for another keeper to begin with.
    pub fn as_slots(&self) -> &[Slot]
        ensures { result.now ≡ self.now.slots }
    {
        self.slots.as_slice()
    }

    /// The phase of a slot.
    pub fn phase(&self, slot: u32) -> Phase
        requires { slot < self.now.shape.slots }
        ensures { result ≡ (slot_of self.now.slots slot).phase }
    {
        self.slot(slot).phase
    }

    /// The generation of a slot, from 1.
    pub fn generation(&self, slot: u32) -> u32
        requires { slot < self.now.shape.slots }
        ensures { result ≡ (slot_of self.now.slots slot).generation }
    {
        self.slot(slot).generation
    }

    /// Pins the slot of an Id once more, by the slot as it is. It is refused as a reader is, and never with
    /// [`PinFault::Busy`].
    pub fn try_pin(&mut self, id: Id) -> Result<(), PinFault>
        ensures tries { TriesLocked self.old id result self.new }
        ensures rest { self.new ≡ with_held self.old self.new.held }
        ensures held { OnOk result (0 < tally (same_id id) self.new.held) }
    {
        if id.slot >= self.shape.slots {
            return Err(PinFault::NoSuchSlot);
        }
        if self.is_full() {
            return Err(PinFault::HeldFull);
        }
        match judge(self.shape.max_pins, id, self.word(id.slot)) {
            Verdict::Unborn => Err(PinFault::Unborn),
            Verdict::Stale => Err(PinFault::Stale),
            Verdict::PinsFull => Err(PinFault::PinsFull),
            Verdict::Go => {
                self.take(id);
                Ok(())
            }
        }
    }

    /// Lets one copy of a held Id go.
    pub fn release(&mut self, id: Id)
        requires { 0 < tally (same_id id) self.old.held }
        ensures released { self.new ≡ released self.old id }
        ensures rest { self.new ≡ with_held self.old self.new.held }
    {
        forget(&mut self.held, id);
    }

    /// The descriptor of the slot of a held Id.
    pub fn descr(&self, id: Id) -> Descr
        requires { 0 < tally (same_id id) self.now.held }
        ensures { result ≡ (slot_of self.now.slots id.slot).descr }
    {
        self.slots[id.slot as usize].descr
    }

    /// Whether the holder has a copy of the Id.
    pub fn holds(&self, id: Id) -> bool
        ensures { IsTrue result ↔ (0 < tally (same_id id) self.now.held) }
    {
        is_among(self.held.as_slice(), id)
    }

    /// Stores the descriptor of a free slot.
    pub fn store_descr(&mut self, slot: u32, descr: Descr)
        requires slot { slot < self.old.shape.slots }
        requires free { (slot_of self.old.slots slot).phase ≡ Free }
        requires given { IsGiven descr }
        ensures { self.new ≡ stored self.old slot descr }
    {
        let was = self.slot(slot);
        self.set_slot(slot, Slot { descr, ..was });
    }

    /// Publishes a free slot with its descriptor, so that it is live.
    pub fn publish(&mut self, slot: u32)
        requires slot { slot < self.old.shape.slots }
        requires free { (slot_of self.old.slots slot).phase ≡ Free }
        ensures { self.new ≡ published self.old slot }
    {
        let was = self.slot(slot);
        let id = Id {
            slot,
            generation: was.generation,
        };
        self.list(&id, &was.descr);
        self.set_slot(
            slot,
            Slot {
                phase: Phase::Live,
                ..was
            },
        );
    }

    /// Gives a live slot up, so that it is closing.
    pub fn close_slot(&mut self, slot: u32)
        requires slot { slot < self.old.shape.slots }
        requires live { (slot_of self.old.slots slot).phase ≡ Live }
        ensures { self.new ≡ closed self.old slot }
    {
        let was = self.slot(slot);
        self.set_slot(
            slot,
            Slot {
                phase: Phase::Closing,
                ..was
            },
        );
    }

    /// Takes a closing slot back: [`Reclaim::Held`] with their number exactly where copies are held.
    pub fn reclaim(&mut self, slot: u32) -> Reclaim
        requires slot { slot < self.old.shape.slots }
        requires closing { (slot_of self.old.slots slot).phase ≡ Closing }
        ensures { ReclaimsLocked self.old slot result self.new }
    {
        let pins = self.pins(slot);
        if pins > 0 {
            return Reclaim::Held { pins };
        }
        let was = self.slot(slot);
        let next = was.reclaimed(self.shape.max_gen);
        self.set_slot(slot, next);
        if was.generation < self.shape.max_gen {
            return Reclaim::Freed;
        }
        Reclaim::Retired
    }

    fn slot(&self, slot: u32) -> Slot
        requires { slot < self.now.shape.slots }
        ensures { result ≡ slot_of self.now.slots slot }
    {
        self.slots[slot as usize]
    }

    fn set_slot(&mut self, slot: u32, to: Slot)
        requires { slot < self.old.shape.slots }
        ensures { self.new ≡ with_slots self.old (slice_set self.old.slots slot to) }
    {
        self.slots[slot as usize] = to;
    }

    // Enters an Id as published; in proofs alone.
    #[inline(always)]
    fn list(&mut self, id: &Id, descr: &Descr)
        ensures { self.new ≡ with_published self.old (self.old.published ++ (id.now, descr.now) ∷ []) }
    {
        self.published = self.published.and(id, descr);
    }

    fn is_full(&self) -> bool
        ensures full { IsTrue result → 16 ≤ length self.now.held }
        ensures room { result ≡ false → length self.now.held < 16 }
    {
        self.held.is_full()
    }

    // The copies that are held of the slot.
    fn pins(&self, slot: u32) -> u32
        ensures count { result ≡ tally (is_of_slot slot) self.now.held }
        ensures room { result ≤ self.now.shape.max_pins }
    {
        let pins = pins_at(self.held.as_slice(), slot);
        let most = self.shape.max_pins as usize;
        prove!(pins <= most);
        pins as u32
    }

    fn word(&self, slot: u32) -> Word
        requires { slot < self.now.shape.slots }
        ensures word { result ≡ word_of self.now slot }
        ensures room { tally (is_of_slot slot) self.now.held ≤ self.now.shape.max_pins }
    {
        let was = self.slot(slot);
        Word {
            generation: was.generation,
            phase: was.phase,
            pins: self.pins(slot),
        }
    }

    fn take(&mut self, id: Id)
        requires slot { id.slot < self.old.shape.slots }
        requires at_most { tally (is_of_slot id.slot) self.old.held < self.old.shape.max_pins }
        requires room { length self.old.held < 16 }
        ensures { self.new ≡ with_held self.old (self.old.held ++ id ∷ []) }
    {
        self.held.push(id);
    }
}

impl PinKeeper for LockedPins {
    ghost use Rattle.pin_words.specs.Keepers.{ReclaimsLocked};

    ghost kept = { λ k. k };

    ghost reclaims = { ReclaimsLocked };

    fn phase(&self, slot: u32) -> Phase {
        LockedPins::phase(self, slot)
    }

    fn generation(&self, slot: u32) -> u32 {
        LockedPins::generation(self, slot)
    }

    fn store_descr(&mut self, slot: u32, descr: Descr) {
        LockedPins::store_descr(self, slot, descr);
    }

    fn publish(&mut self, slot: u32) {
        LockedPins::publish(self, slot);
    }

    fn close_slot(&mut self, slot: u32) {
        LockedPins::close_slot(self, slot);
    }

    fn reclaim(&mut self, slot: u32) -> Reclaim {
        LockedPins::reclaim(self, slot)
    }
}
