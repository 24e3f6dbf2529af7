use ob_manager::{Card, Reply};
use ob_name::NameRef;
use pin_core::{Descr, Id};
use pin_words::PinFault;

/// What a line of the output says.
#[derive(Clone, Copy)]
pub enum Answer<'a> {
    /// A call is answered.
    Replied(Reply),
    /// The line of this number is outside the grammar.
    BadLine(u128),
    /// So many objects have a name.
    NameCount(usize),
    /// A name of the directory, with its object.
    Named(NameRef<'a>, Id),
    /// An Id is pinned, or why not.
    Pinned(Id, Result<Descr, PinFault>),
    /// Whether a copy of an Id was let go.
    Unpinned(Id, bool),
    /// What the object of an Id was created as, where the Id is held.
    Shown(Option<Card>),
    /// A lane was to block, and left no wait pending to block on.
    NoWait,
    /// The answers of the lane of this number come next.
    Lane(u32),
    /// So many calls are in the journal of all lanes.
    Journaled(usize),
}
