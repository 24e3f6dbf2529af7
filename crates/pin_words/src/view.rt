use pin_core::{Descr, Id, Shape, Slot};
use std::collections::LinkedList;

/// A word that was found at a slot.
pub struct Look {
    /// The slot's number.
    pub slot: u32,
    /// The word, in its 64 bits.
    pub word: u64,
}

/// A descriptor that was read under a pin, beside the held Id.
pub struct Note {
    /// The Id, which is held.
    pub id: Id,
    /// What was read.
    pub descr: Descr,
}

/// What the keeper's seat at the table knows. Proofs speak of it; no value of it is made.
pub struct KeeperView {
    /// The shape of the table.
    pub shape: Shape,
    /// The slots as they are, but for who holds them.
    pub slots: LinkedList<Slot>,
    /// What was published, in order.
    pub published: LinkedList<(Id, Descr)>,
    /// The number of the next reader, from 1.
    pub next: u32,
    /// The words that it found, newest first.
    pub looks: LinkedList<Look>,
}

/// What a reader's seat at the table knows. Proofs speak of it; no value of it is made.
pub struct ReaderView {
    /// The shape of the table.
    pub shape: Shape,
    /// The reader's number, from 1.
    pub number: u32,
    /// The Ids that it holds, one for each copy.
    pub held: LinkedList<Id>,
    /// The descriptors that it read of Ids that it still holds.
    pub notes: LinkedList<Note>,
    /// The words that it found, newest first.
    pub looks: LinkedList<Look>,
}

/// What a seat knows: a joined one has both parts, a spent one none.
pub struct View {
    /// The keeper's part.
    pub keeper: Option<KeeperView>,
    /// A reader's part.
    pub reader: Option<ReaderView>,
}

/// What the words of a table begin with: its shape, and the slots, which nobody holds.
#[derive(Drop)]
pub(crate) struct Ground {
    pub(crate) shape: Shape,
    pub(crate) slots: Vec<Slot>,
}
