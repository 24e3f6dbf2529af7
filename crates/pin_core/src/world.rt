ghost use Rattle.std.specs.Prelude.{◌≡◌};

use crate::descr::Descr;
use crate::event::{Event, Reason};
use crate::holders::{Hold, Holders};
use crate::id::Id;
use crate::shape::Shape;
use crate::word::{Phase, Word};
use ob_rights::Kind;
use std::alloc::{AllocError, Global};
use std::marker::Model;

/// A slot, but for who holds it.
#[derive(Clone, Copy, Debug, PartialEq, Eq)]
pub struct Slot {
    /// The generation, from 1.
    pub generation: u32,
    /// The phase.
    pub phase: Phase,
    /// The descriptor, which is stored while the slot is free.
    pub descr: Descr,
}

impl Slot {
    ghost use Rattle.std.specs.Prelude.{◌≡◌};
    ghost use Rattle.pin_core.specs.Worlds.{opening_slot};
    ghost use Rattle.pin_core.specs.Events.{reclaimed};

    /// The slot of the opening world: free at generation 1, with the descriptor of an event that is reset by itself.
    pub fn opening() -> Slot
        ensures { result ≡ opening_slot }
    {
        Slot {
            generation: 1,
            phase: Phase::Free,
            descr: Descr {
                kind: Kind::Event,
                manual: false,
                max: 0,
            },
        }
    }

    /// The slot as it is once reclaimed: free at the next generation, or retired where it was at `max_gen`.
    pub fn reclaimed(self, max_gen: u32) -> Slot
        ensures { result ≡ reclaimed max_gen self }
    {
        if self.generation < max_gen {
            Slot {
                generation: self.generation + 1,
                phase: Phase::Free,
                ..self
            }
        } else {
            Slot {
                phase: Phase::Retired,
                ..self
            }
        }
    }
}

/// The slots, the list of what was published, and the set of holds. It keeps no counts: a slot has as many pins as
/// holds are about it.
#[derive(Drop)]
pub struct World {
    shape: Shape,
    slots: Vec<Slot>,
    published: Vec<(Id, Descr)>,
    holders: Holders,
}

impl Model for World {
    ghost use Rattle.std.specs.Prelude.{◌≡◌, length};
    ghost use Rattle.pin_core.specs.Worlds.{WorldState};

    ghost Value = { WorldState };

    ghost view = { λ w. record {
      shape = w.shape;
      slots = w.slots.items;
      published = w.published.items;
      holders = w.holders.all;
    } };

    ghost invariant = { λ w. (length w.slots.items ≡ w.shape.slots) × (w.holders.slots ≡ w.shape.slots) };
}

impl World {
    ghost use Rattle.std.specs.Prelude.{◌≡◌, ◌<◌, nat_lt, None, IfOk, OnOk, OnErr};
    ghost use Rattle.pin_core.specs.Worlds.{opening_of, at, pins, copies, word_at};
    ghost use Rattle.pin_core.specs.Events.{same_word, phase_refusal, held_refusal, pin_refusal, refusal, with_slot};
    ghost use Rattle.pin_core.specs.Events.{held_more, held_less, after};
    ghost use Rattle.pin_core.specs.declared.event.Event.TheVariants.{Publish};

    /// The opening world: each slot is free at generation 1 with the descriptor of an event that is reset by itself,
    /// nothing is published, and nothing is held.
    pub fn new(alloc: Global, shape: Shape) -> Result<World, AllocError>
        ensures { IfOk result (λ w. w ≡ opening_of shape) }
    {
        let slots = vec![in alloc; Slot::opening(); shape.slots as usize]?;
        let holders = Holders::new(alloc, shape.slots)?;
        Ok(World {
            shape,
            slots,
            published: Vec::new(alloc),
            holders,
        })
    }

    /// Whether there is such a slot.
    pub fn exists(&self, slot: u32) -> bool
        ensures { result ≡ nat_lt slot self.now.shape.slots }
    {
        slot < self.shape.slots
    }

    /// The slot, but for who holds it.
    pub fn slot(&self, slot: u32) -> Slot
        requires { slot < self.now.shape.slots }
        ensures { result ≡ at self.now slot }
    {
        self.slots[slot as usize]
    }

    /// How many holds are about the slot.
    pub fn pins(&self, slot: u32) -> usize
        requires { slot < self.now.shape.slots }
        ensures { result ≡ pins self.now slot }
    {
        self.holders.pins(slot)
    }

    /// How many copies of the Id the reader holds.
    pub fn copies(&self, reader: u32, id: Id) -> usize
        requires { id.slot < self.now.shape.slots }
        ensures { result ≡ copies self.now reader id }
    {
        self.holders.copies(reader, id)
    }

    /// What was published, in order.
    pub fn published(&self) -> &[(Id, Descr)]
        ensures { result.now ≡ self.now.published }
    {
        self.published.as_slice()
    }

    /// Why the event isn't possible: the first reason, tested in this order: no slot, not held, another descriptor,
    /// another word, wrong phase, pinned, pins full.
    pub fn refusal(&self, event: &Event) -> Option<Reason>
        ensures { result ≡ refusal self.now event.now }
    {
        match *event {
            Event::Load { reader: _, slot } => {
                if !self.exists(slot) {
                    return Some(Reason::NoSlot);
                }
                None
            }
            Event::Pin {
                reader: _,
                slot,
                expected,
            } => self.unless_open(slot, expected),
            Event::Release { reader, id } => self.unless_held(reader, id),
            Event::ReadDescr { reader, id, descr } => {
                let unheld = self.unless_held(reader, id);
                if unheld.is_none() && self.slot(id.slot).descr != descr {
                    return Some(Reason::DescrDiffers);
                }
                unheld
            }
            Event::StoreDescr { slot, descr: _ } => self.unless(slot, Phase::Free),
            Event::Publish { slot } => self.unless(slot, Phase::Free),
            Event::CloseSlot { slot } => self.unless(slot, Phase::Live),
            Event::Reclaim { slot } => {
                let other = self.unless(slot, Phase::Closing);
                if other.is_none() && self.pins(slot) != 0 {
                    return Some(Reason::Pinned);
                }
                other
            }
        }
    }

    pub(crate) fn enact(&mut self, event: &Event) -> Result<(), AllocError>
        requires { refusal self.old event.now ≡ None }
        ensures ok { OnOk result (self.new ≡ after self.old event.now) }
        ensures err { OnErr result (self.new ≡ self.old) }
    {
        match *event {
            Event::Load { reader: _, slot: _ }
            | Event::ReadDescr {
                reader: _,
                id: _,
                descr: _,
            } => {}
            Event::Pin {
                reader,
                slot,
                expected: _,
            } => self.hold(reader, slot)?,
            Event::Release { reader, id } => self.let_go(reader, id),
            Event::StoreDescr { slot, descr } => {
                let was = self.slot(slot);
                self.set_slot(slot, Slot { descr, ..was });
            }
            Event::Publish { slot } => self.publish(slot)?,
            Event::CloseSlot { slot } => {
                let was = self.slot(slot);
                self.set_slot(
                    slot,
                    Slot {
                        phase: Phase::Closing,
                        ..was
                    },
                );
            }
            Event::Reclaim { slot } => {
                let to = self.slot(slot).reclaimed(self.shape.max_gen);
                self.set_slot(slot, to);
            }
        }
        Ok(())
    }

    fn has_word(&self, slot: u32, expected: Word) -> bool
        requires { slot < self.now.shape.slots }
        ensures { result ≡ same_word (word_at self.now slot) expected }
    {
        let was = self.slot(slot);
        was.generation == expected.generation
            && (was.phase == expected.phase && self.pins(slot) == expected.pins as usize)
    }

    fn unless(&self, slot: u32, phase: Phase) -> Option<Reason>
        ensures { result ≡ phase_refusal self.now slot phase }
    {
        if !self.exists(slot) {
            Some(Reason::NoSlot)
        } else if self.slot(slot).phase != phase {
            Some(Reason::WrongPhase)
        } else {
            None
        }
    }

    // Why the slot can't be pinned at the expected word.
    fn unless_open(&self, slot: u32, expected: Word) -> Option<Reason>
        ensures { result ≡ pin_refusal self.now slot expected }
    {
        if !self.exists(slot) {
            return Some(Reason::NoSlot);
        }
        if !self.has_word(slot, expected) {
            return Some(Reason::WordDiffers);
        }
        let phase = self.unless(slot, Phase::Live);
        if phase.is_none() && self.pins(slot) >= self.shape.max_pins as usize {
            return Some(Reason::PinsFull);
        }
        phase
    }

    fn unless_held(&self, reader: u32, id: Id) -> Option<Reason>
        ensures { result ≡ held_refusal self.now reader id }
    {
        if !self.exists(id.slot) {
            Some(Reason::NoSlot)
        } else if self.copies(reader, id) == 0 {
            Some(Reason::NotHeld)
        } else {
            None
        }
    }

    fn publish(&mut self, slot: u32) -> Result<(), AllocError>
        requires { slot < self.old.shape.slots }
        ensures ok { OnOk result (self.new ≡ after self.old (Publish slot)) }
        ensures err { OnErr result (self.new ≡ self.old) }
    {
        let was = self.slot(slot);
        let id = Id {
            slot,
            generation: was.generation,
        };
        self.published.push((id, was.descr))?;
        self.set_slot(
            slot,
            Slot {
                phase: Phase::Live,
                ..was
            },
        );
        Ok(())
    }

    fn set_slot(&mut self, slot: u32, to: Slot)
        requires { slot < self.old.shape.slots }
        ensures { self.new ≡ with_slot self.old slot to }
    {
        self.slots[slot as usize] = to;
    }

    // The reader's next copy of the slot's Id.
    fn hold(&mut self, reader: u32, slot: u32) -> Result<(), AllocError>
        requires slot { slot < self.old.shape.slots }
        requires room { pins self.old slot < self.old.shape.max_pins }
        ensures ok { OnOk result (self.new ≡ held_more self.old reader slot) }
        ensures err { OnErr result (self.new ≡ self.old) }
    {
        let id = Id {
            slot,
            generation: self.slot(slot).generation,
        };
        let held = self.copies(reader, id);
        let most = self.shape.max_pins as usize;
        prove!(held < most);
        let copy = held as u64 + 1;
        self.holders.add(Hold { reader, id, copy })
    }

    // The reader's last copy of the Id goes.
    fn let_go(&mut self, reader: u32, id: Id)
        requires { id.slot < self.old.shape.slots }
        ensures { self.new ≡ held_less self.old reader id }
    {
        let copy = self.copies(reader, id) as u64;
        self.holders.remove(Hold { reader, id, copy });
    }
}
