//! What a manager keeps: processes, threads and their handle tables, objects in their slots with their keeper, names
//! and waits.
//!
//! To its callers a [`Store`] is a plain state without counts (`specs/State.antt`), and what the keeper of the slots
//! says. It counts what refers to each object, finds objects by name, and keeps both right at each of its changes, of
//! which the calls of a manager are made.
//!
//! ```rust
//! # use {ob_body::Body, ob_rights::*, pin_core::Descr, pin_words::*};
//! # use ob_store::{Creation, Limits, Store};
//! # let (limits, grant, rights) = (Limits::default(), all_access(Kind::Event), Rights::SYNCHRONIZE);
//! # let keeper = LockedPins::new(alloc, limits.shape())?;
//! # let (descr, body) = (Descr { kind: Kind::Event, manual: false, max: 0 }, Body::new_event(false, false));
//! # let event = Creation { descr, body, grant, rights, flags: HandleFlags(0) };
//! let mut store = Store::new(alloc, limits, keeper).map_err(|_| Fault::Memory)?;
//! store.add_process(1)?;                              // process 1 of session 1, thread 1
//! let slot = store.vacant().unwrap();                 // 0
//! let handle = store.add_nameless(1, slot, event)?;   // 4
//! let entry = store.look(1, handle).unwrap();         // of the object s0.1
//! store.remove_entry(1, handle, entry);               // the object has ended
//! store.reclaim(slot);                                // Reclaim::Freed
//! ```
#![tactic(auto)]

mod answers;
mod births;
mod checking_waits;
mod counting;
mod creation;
mod dues;
mod ending;
mod entries;
mod found;
mod keepers;
mod label;
mod law;
mod links;
mod meeting;
mod naming;
mod object_header;
mod object_headers;
mod objects;
mod owners;
mod parts;
mod pinning;
mod pins;
mod reading_objects;
mod reclaiming;
mod reserved;
mod room;
mod saved_slot;
mod savestate;
mod settling;
mod signaled;
mod signaling;
mod starting;
mod store;
mod stored;
mod ticking;
mod waiting;
mod walking;
mod writing_objects;

pub use creation::Creation;
pub use found::Found;
pub use label::Label;
pub use law::law_of_saved_stores;
pub use ob_tables::Limits;
pub use ob_waits::LAST_MOMENT;
pub use object_header::ObjectHeader;
pub use objects::Objects;
pub use room::Room;
pub use store::Store;
pub use stored::Stored;
