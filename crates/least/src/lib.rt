//! The least of many: the least free number of a set, and the least due moment of a list.
//!
//! [`LeastFree`] is a set of numbers that grows with use. Every number at or past its length is free, so a new set
//! takes no memory. Finding the least free number, taking it and giving it back are a few word operations at any length
//! up to 65,536, and how many are taken is known at once. It keeps a number that was given back apart, at one test a
//! call: fewest words change where one number goes and comes, again and again. [`Levels`] has no such number.
//!
//! ```rust
//! # use least::LeastFree;
//! let mut free = LeastFree::new(alloc);
//! free.grow()?;                 // takes 0
//! free.grow()?;                 // takes 1
//! free.give_back(0);
//! free.least();                 // 0
//! ```
//!
//! [`Dues`] has for each place of a list a moment at which something is due there, or none. The least moment is read in
//! constant time, and a moment is written in a time that grows with the logarithm of the list's length. Only room for
//! a place takes memory.
//!
//! ```rust
//! # use least::Dues;
//! let mut dues = Dues::new(alloc);
//! dues.make_room(1)?;           // places 0 and 1
//! dues.set(1, Some(50));
//! dues.least();                 // Some(50)
//! dues.due_by(50);              // Some(1)
//! ```
//!
//! [`reach`] writes a list up to a place, within the room that it was made with: so a list that must never want memory
//! has room for all of its places from the first, but costs pages of memory only up to the highest that was used.
#![tactic(auto)]

mod best;
mod due;
mod finding;
mod free;
mod levels;
mod reserved;
mod words;

pub use best::sooner;
pub use due::Dues;
pub use finding::next_place;
pub use free::{LeastFree, NUMBERS_MAX};
pub use levels::Levels;
pub use reserved::reach;
