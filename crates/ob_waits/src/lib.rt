//! Waits: which thread waits for which objects, which wait is satisfied, with which code, and what it takes.
//!
//! [`is_satisfied`] says whether a wait is satisfied now, and [`try_now`] is a wait that may be satisfied at once.
//! [`Waits`] has those that are pending, and settles them after bodies changed. The objects stand behind [`Bodies`],
//! which the layer above implements. [`law_of_settling`] says what settling leaves as it is, [`law_of_ends`] when
//! objects end, and [`law_of_spelled_waits`] that waits are read as they were written.
#![tactic(auto)]

mod answer;
mod answer_queue;
mod answered_numbers;
mod blocks;
mod bodies;
mod by_thread;
mod codes;
mod ids;
mod index;
mod law;
mod live;
mod merge;
mod number_map;
mod numbered;
mod numbered_wait;
mod open;
mod overdue;
mod pass;
mod pending;
mod pending_index;
mod reading;
mod rising_numbers;
mod spelling;
mod take;
mod wait;
mod waits;
mod writing;

pub use answer::Answer;
pub use bodies::Bodies;
pub use codes::{MAXIMUM_WAIT_OBJECTS, WAIT_ABANDONED_0, WAIT_IO_COMPLETION, WAIT_TIMEOUT};
pub use law::{law_of_ends, law_of_settling, law_of_spelled_waits};
pub use ob_body::LAST_MOMENT;
pub use pass::leave_all;
pub use pending::Pending;
pub use take::{is_satisfied, try_now};
pub use wait::{Mode, WaitState};
pub use waits::Waits;
