use arrayvec::ArrayVec;
use ob_manager::{CallOf, Make};
use pin_core::Id;

/// What a line is.
#[derive(Clone, Copy)]
pub enum Command<'a> {
    /// An empty line or a comment, for which nothing is printed.
    Nothing,
    /// A line outside the grammar.
    Bad,
    /// The names of objects are asked for.
    ListNames,
    /// A call.
    Ask(LineCall<'a>),
    /// The reader is to hold one copy more of an Id.
    Pin(Id),
    /// The reader is to let one copy of an Id go.
    Unpin(Id),
    /// What the object of an Id that the reader holds was created as is asked for.
    ShowCard(Id),
}

/// A call with names as they stand in the line. The handles of a wait stand beside it, in a list ([`Handles`]).
pub type LineCall<'a> = CallOf<Make<'a>, &'a [u8], [u32; 0]>;

/// The handles of a wait; of more than 65 the first 65, since a wait for more than 64 is refused, whichever they are.
/// One list is lent for all lines: a new one for each would have to be cleared first.
pub type Handles = ArrayVec<u32, 65>;
