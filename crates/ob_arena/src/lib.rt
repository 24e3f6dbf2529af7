//! The arena that all processes share: slots in one block of memory, each vacant, with a body, or retired.
//!
//! A slot has no tag: a list of phases beside the block says what each slot is, and a set of numbers gives the least
//! vacant one in a few word operations. Bodies never move while they are in the arena.
//!
//! ```rust
//! # use ob_arena::Arena;
//! # let body = 7;
//! let mut arena = Arena::new(alloc, 64)?;
//! let slot = arena.least_vacant();          // Some(0)
//! arena.put(0, body);
//! let body = arena.take(0);
//! arena.retire(0);                          // slot 0 is never given again
//! # assert!(rt; body == 7 && arena.least_vacant() == Some(1));
//! ```
#![tactic(auto)]

mod arena;
mod phase;
mod storage;

pub use arena::{Arena, SLOTS_MAX};
