ghost use Rattle.std.specs.Prelude.{◌≡◌};
ghost use Rattle.pin_core.specs.Reasons.{number_of};

use crate::descr::Descr;
use crate::id::Id;
use crate::word::Word;
use thiserror::Error;

/// One atomic step, on one word of one slot.
#[derive(Clone, Copy, Debug, PartialEq, Eq)]
pub enum Event {
    /// A reader reads the word of a slot. Possible where the slot exists; changes nothing. An exchange that fails is
    /// one of these.
    Load {
        /// The reader's number.
        reader: u32,
        /// The slot's number.
        slot: u32,
    },
    /// A reader exchanges the word of a slot for one with one more pin. Possible where the word is the expected one,
    /// the slot is live, and its pins are below the limit: the reader then holds one more copy of the slot's Id.
    Pin {
        /// The reader's number.
        reader: u32,
        /// The slot's number.
        slot: u32,
        /// The word that the slot must have.
        expected: Word,
    },
    /// A reader lets the copy of highest number go. Possible where it holds one.
    Release {
        /// The reader's number.
        reader: u32,
        /// The Id of which it holds a copy.
        id: Id,
    },
    /// A reader reads the descriptor word of a slot under a pin. Possible where it holds a copy of the Id and the slot
    /// has this descriptor; changes nothing.
    ReadDescr {
        /// The reader's number.
        reader: u32,
        /// The Id of which it holds a copy.
        id: Id,
        /// The descriptor that it reads.
        descr: Descr,
    },
    /// The descriptor of a free slot is stored.
    StoreDescr {
        /// The slot's number.
        slot: u32,
        /// The descriptor.
        descr: Descr,
    },
    /// A free slot becomes live, and its Id and descriptor join the published list.
    Publish {
        /// The slot's number.
        slot: u32,
    },
    /// A live slot becomes closing.
    CloseSlot {
        /// The slot's number.
        slot: u32,
    },
    /// A closing slot that nobody holds becomes free at the next generation, or retired at the last.
    Reclaim {
        /// The slot's number.
        slot: u32,
    },
}

/// Why an event isn't possible.
#[derive(Clone, Copy, Debug, PartialEq, Eq, Error)]
pub enum Reason {
    /// 1: there is no such slot.
    #[error("there is no such slot")]
    NoSlot,
    /// 2: the slot is in another phase.
    #[error("the slot is in another phase")]
    WrongPhase,
    /// 3: the slot has another word.
    #[error("the slot has another word")]
    WordDiffers,
    /// 4: the slot has as many pins as it may have.
    #[error("the slot has all its pins")]
    PinsFull,
    /// 5: the reader holds no copy.
    #[error("the reader holds no copy")]
    NotHeld,
    /// 6: somebody holds the slot.
    #[error("somebody holds the slot")]
    Pinned,
    /// 7: the slot has another descriptor.
    #[error("the slot has another descriptor")]
    DescrDiffers,
}

/// Why events can't be carried out.
#[derive(Clone, Copy, Debug, PartialEq, Eq, Error)]
pub enum ReplayFault {
    /// Memory ran out.
    #[error("memory ran out")]
    Memory,
    /// An event isn't possible where it stands.
    #[error("event {event} isn't possible: {reason}")]
    Refused {
        /// The first such event, counted from 1.
        event: u64,
        /// The first of its reasons, in the order 1, 5, 7, 3, 2, 6, 4.
        reason: Reason,
    },
}

impl Reason {
    /// The reason's number, from 1 to 7.
    pub fn number(self) -> u32
        ensures { result ≡ number_of self }
    {
        match self {
            Reason::NoSlot => 1,
            Reason::WrongPhase => 2,
            Reason::WordDiffers => 3,
            Reason::PinsFull => 4,
            Reason::NotHeld => 5,
            Reason::Pinned => 6,
            Reason::DescrDiffers => 7,
        }
    }
}
