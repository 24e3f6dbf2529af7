//! The running pins: two words a slot, one keeper, and readers that pin slots without a lock.
//!
//! A [`Reader`] pins an Id by one look at the slot's word and one exchange, so that the object stays where it is until
//! the reader releases it; the [`Keeper`] gives a slot up, and reclaims it once nobody holds it. Each of them has a
//! seat at the table of words: that is, for proofs, what this one party knows of the table.
//!
//! A try to pin is one look and at most one exchange, and [`Reader::pin`] makes as many tries as it needs.
//! [`Keeper::meet`] makes three loads, of which one is a look, a start two, [`Keeper::readers`] one step a reader, and
//! each other call is at most one atomic step. A step is one event of `pin_core`, or leaves the world as it is where it
//! only gives, joins or parts seats: [`law_of_atomic_steps`] ties them.
//!
//! [`LockedPins`] is the same for one holder under a lock, with plain counts, and [`PinKeeper`] what is said of both
//! keepers.
//!
//! Atomic steps are sequentially consistent. The words are changed only here, and pins are taken only through readers.
//! A reader that is dropped with pins keeps its slots out of use.
#![tactic(auto)]

mod fault;
mod keeper;
mod law;
mod locked;
mod pin_keeper;
mod pins;
mod places;
mod plays;
mod published;
mod reader;
mod view;

pub use fault::{PinFault, Verdict};
pub use keeper::Keeper;
pub use law::law_of_atomic_steps;
pub use locked::LockedPins;
pub use pin_keeper::{PinKeeper, Reclaim};
pub use pins::{Opening, Pins, Reopening};
pub use reader::Reader;
pub use view::{KeeperView, Look, Note, ReaderView, View};
