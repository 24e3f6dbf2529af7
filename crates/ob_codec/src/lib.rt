//! Values as bytes, each with one spelling: what is written is read again, and what is read was written so.
//!
//! A type that is [`Spelled`] says how its values are written and how they are read from the front of some bytes, both
//! as functions on lists, with one law that ties them. Numbers go lowest byte first, an option is a flag and its value,
//! a list is its length in four bytes and its values; its reader says how many there may be at most. A sealed text has
//! its SHA-256 digest behind it.
//!
//! ```rust
//! # use ob_codec::{Cursor, read_list, seal, unseal, write_list};
//! # let owners = vec![in alloc; None, Some(7u32)]?;
//! let mut out = Vec::new(alloc);
//! write_list(&mut out, owners.as_slice())?;               // of [None, Some(7)]: 2 0 0 0, 0, 1 7 0 0 0
//! # assert!(rt; out.as_slice() == [2, 0, 0, 0, 0, 1, 7, 0, 0, 0].as_slice());
//! seal(&mut out)?;                                        // and 32 bytes of digest
//! # assert!(rt; out.len() == 10 + 32);
//! let mut from = Cursor::new(unseal(out.as_slice())?);    // refused where the digest is another one
//! let owners = read_list::<Option<u32>>(alloc, &mut from, 2)?;
//! from.end()?;                                            // refused where bytes are left
//! # assert!(rt; owners.as_slice() == [None, Some(7)].as_slice());
//! ```
#![tactic(auto)]

mod cursor;
mod fault;
mod law;
mod lists;
mod sealing;
mod spelled;
mod values;

pub use cursor::Cursor;
pub use fault::{ReadFault, TextFault};
pub use law::law_of_sealed_texts;
pub use lists::{read_list, write_list, write_string};
pub use sealing::{seal, unseal};
pub use spelled::Spelled;
