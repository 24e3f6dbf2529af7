//! The pure core of pins: slots that are given again and again, and readers that hold them meanwhile.
//!
//! A slot has a generation, a phase and a descriptor. A reader that pins a slot holds one more copy of the slot's
//! [`Id`]. [`step`] carries out one [`Event`] on a [`World`], and [`replay`] a list of them from the opening world.
//! [`law_of_schedules`] says what holds after every list of events, so in every interleaving of any number of readers:
//! a pinned slot is never given again, and a pin shows the object that was asked.
#![tactic(auto)]

mod descr;
mod event;
mod holders;
mod id;
mod law;
mod schedule;
mod shape;
mod spelling;
mod word;
mod world;

pub use descr::Descr;
pub use event::{Event, Reason, ReplayFault};
pub use holders::Hold;
pub use id::{Id, same_id};
pub use law::{law_of_codes, law_of_schedules, law_of_worlds};
pub use schedule::{replay, step};
pub use shape::Shape;
pub use spelling::{read_descr, write_descr};
pub use word::{CLOSING_BIT, LIVE_BIT, Phase, Word};
pub use world::{Slot, World};
