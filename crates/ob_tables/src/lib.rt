//! The live processes and threads by their numbers, the limits of what a manager holds, and the handle tables of all
//! processes.
//!
//! A handle is a number that names an object in one process: its value says the place of an entry in the table of that
//! process, and the entry says the object, the rights that the handle grants, and its flags ([Handles and objects]).
//!
//! ```rust
//! # use ob_rights::{HandleFlags, Rights};
//! # use ob_tables::{Entry, Tables};
//! # let id = pin_core::Id { slot: 0, generation: 1 };
//! # let entry = Entry { id, rights: Rights::SYNCHRONIZE, flags: HandleFlags::INHERIT };
//! # let mut tables = Tables::new(alloc, 64, 1024)?;
//! let parent = tables.add_process()?;                  // 1
//! let handle = tables.place(parent, entry)?;           // 4
//! tables.look(parent, handle);                         // Some(entry)
//! let child = tables.copy_inheritable(parent)?;        // 2
//! tables.remove(parent, handle);                       // Some(entry)
//! ```
//!
//! [Handles and objects]: https://learn.microsoft.com/windows/win32/sysinfo/handles-and-objects
#![tactic(auto)]

mod entry;
mod law;
mod limits;
mod members;
mod numbers;
mod processes;
mod spelling;
mod table;
mod tables;

pub use entry::Entry;
pub use law::law_of_spelled_tables;
pub use limits::Limits;
pub use processes::Processes;
pub use table::{HANDLES_MAX, entry_in};
pub use tables::{PROCESSES_MAX, Tables};
