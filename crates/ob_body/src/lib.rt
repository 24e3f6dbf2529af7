//! What an event, a mutex, a semaphore, a timer and an object of the host's own are to a thread that waits: when a body
//! is signaled, and what a wait takes.
//!
//! A [`Body`] is the part of an object that calls change. Each kind stands in a module of its own, and
//! [`Body`] is no more than the choice among them. No call takes memory.
#![tactic(auto)]

mod body;
mod event;
mod host_object;
mod mutex;
mod semaphore;
mod spelling;
mod timer;

pub use body::Body;
pub use event::Event;
pub use host_object::HostObject;
pub use mutex::{Mutex, RECURSION_MAX};
pub use semaphore::{COUNT_MAX, Semaphore};
pub use timer::{LAST_MOMENT, Timer};
