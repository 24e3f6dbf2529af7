//! Rows of calls with their replies, among them each call that takes memory, for tests of what answers calls: a
//! manager, or one behind its lock.
//!
//! A [`Line`] is a call, with its name or its handles borrowed, and the reply that is due, so that a table is a
//! constant: plain data, which costs a proof next to nothing however long it is. [`to_call`] makes the call that is
//! played, and [`asked`] plays it over a manager: the only function of the tests that calls a manager over any keeper,
//! since such a function takes long to prove.
//!
//! What tests make beforehand is here too. Each thing is asked for once more where memory was wanting.
#![tactic(auto)]

mod ask;
mod asking;
mod opening;
mod rows;

pub use ask::{Line, PLAIN, to_call};
pub use asking::asked;
pub use opening::{locked_manager, manager_over, pins_for, started};
pub use rows::ROWS;
