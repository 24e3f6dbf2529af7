use ob_manager::{Call, Card, Reply};
use pin_core::{Descr, Id};
use pin_words::PinFault;

/// What a member is to do.
#[derive(Drop)]
pub enum Act {
    /// Makes a call, as [`Shared::call`](crate::Shared::call) does. The member keeps the call, and a copy of it is
    /// made.
    Ask(Call),
    /// Pins an object, as [`Reader::pin`](pin_words::Reader::pin) does, and reads its descriptor.
    Pin(Id),
    /// Lets a copy of an Id go. Where the member doesn't hold it, nothing is done.
    Unpin(Id),
    /// Asks what an object was created as. Where the member doesn't hold it, nothing is done.
    ShowCard(Id),
    /// Waits, as [`Shared::block`](crate::Shared::block) does, for the last wait that an act of the member left pending
    /// and no `Block` has taken. A `Block` takes its wait, unless it answers 8. Where there is no such wait, nothing is
    /// done.
    Block,
}

/// What a member's act was answered with.
#[derive(Clone, Copy, Debug, PartialEq, Eq)]
pub enum Seen {
    /// [`Act::Ask`]: the reply. It is 8, and not listed in the lane, where memory was wanting.
    Reply(Reply),
    /// [`Act::Pin`]: the descriptor, or why there is no pin, which is never that the word was busy.
    Pinned(Result<Descr, PinFault>),
    /// [`Act::Unpin`]: whether the Id was held.
    Unpinned(bool),
    /// [`Act::ShowCard`]: the card, if the Id is held.
    Shown(Option<Card>),
    /// [`Act::Block`]: the result of the wait, if there was one. It is 8, and not listed in the lane, where memory was
    /// wanting.
    Blocked(Option<Reply>),
    /// The gate stopped the member before this act. Nothing comes after it.
    Stopped,
}
