//! The object manager: processes, threads and their handles, and the objects that the handles name.
//!
//! A call of a [`Manager`] is one step of a model (`specs/Steps.antt`): its reply, the state after it, and what the
//! keeper of the slots is told. Each call has a definition with a line for each refusal, in the order of the tests
//! (`specs/Creating.antt` and its neighbours), and a body of the same lines.
//!
//! ```rust
//! # use ob_manager::Reply::{Made, Spawned};
//! # use ob_manager::{Limits, Make, Manager};
//! # use {ob_rights::Fault, pin_core::Id, pin_words::LockedPins};
//! # let keeper = LockedPins::new(alloc, Limits::default().shape())?;
//! # let make = Make { name: None, inherit: false, access: None, grant: None };
//! let mut manager = Manager::new(alloc, Limits::default(), keeper).map_err(|_| Fault::Memory)?;
//! manager.spawn(1);                                  // Spawned { process: 1, thread: 1 }
//! manager.create_event(1, &make, false, false);      // Made { handle: 4, id: Id { slot: 0, generation: 1 } }
//! ```
#![tactic(auto)]

mod answers;
mod call;
mod card;
mod checks;
mod children;
mod copying;
mod counting;
mod creating;
mod door;
mod ending;
mod handles;
mod host_data;
mod law;
mod making;
mod manager;
mod meeting;
mod object_state;
mod pinning;
mod processes;
mod reaping;
mod reply;
mod savestate;
mod signaling;
mod timing;
mod waiting;
mod walking;

pub use call::{Ask, Call, CallOf};
pub use card::Card;
pub use host_data::{HostData, ObjectData};
pub use law::{law_of_savestates, law_of_steps};
pub use making::{AsMake, Make, Making, Text};
pub use manager::Manager;
pub use ob_codec::{ReadFault, TextFault};
pub use ob_store::{Found, Label, Limits, ObjectHeader, Room, Stored};
pub use ob_tables::Entry;
pub use ob_waits::{Answer, Mode, Pending};
pub use object_state::ObjectState;
pub use reply::Reply;
pub use waiting::{HandleList, Timeout};
