//! A manager whose calls are entered in a journal, one after another, by callers that have a lane each; and members
//! that make such calls by a script, each on a thread of its own.
//!
//! ```rust
//! # use {call_tables::*, ob_manager::{Call, Limits, Reply::Spawned}, ob_shared::*};
//! # let (limits, manager) = (Limits::default(), locked_manager(alloc, Limits::default())?);
//! let mut book = Book::new(alloc, manager);
//! let receipt = book.enact(0, Call::Spawn { session: 1 })?;
//! receipt.entry().reply;                               // Spawned { process: 1, thread: 1 }
//! book.journal();                                      // the one entry
//!
//! # let (pins, opening) = pins_for(alloc, limits)?;
//! # let (keeper, reader) = started(opening, &pins)?;
//! # let mut shared = Shared::new(alloc, manager_over(alloc, limits, keeper)?);
//! # let (lane, script) = (shared.lane()?, vec![in alloc; Act::Ask(Call::Spawn { session: 1 })]?);
//! # let mut members = vec![in alloc; Member { lane, reader, script, seen: Vec::new(alloc) }]?;
//! drive(&rt, &shared, &OpenGate, &mut members)?;       // each member's script
//! members[0].seen.as_slice();                          // what its acts were answered with
//! # assert!(rt; members[0].seen.as_slice() == [Seen::Reply(Spawned { process: 1, thread: 1 })].as_slice());
//! ```
#![tactic(auto)]

mod act;
mod book;
mod closing;
mod comparing;
mod driving;
mod gate;
mod lane;
mod member;
mod reading;
mod shared;

pub use act::{Act, Seen};
pub use book::{Book, Entry, Receipt};
pub use closing::CloseCause;
pub use driving::drive;
pub use gate::{Gate, OpenGate, Pass};
pub use lane::Lane;
pub use member::Member;
pub use shared::{Closed, NotClosed, Shared};
