//! The names of objects: which text names what, and which object has a name.
//!
//! ```rust
//! # use ob_name::{Directory, Name, parse};
//! # let id = pin_core::Id { slot: 0, generation: 1 };
//! let name = parse(b"Global\\A", 1)?;               // "A" in the global namespace
//! let same = parse(b"A", 0)?;                       // the same name: session 0 is the global namespace
//! let mut directory = Directory::new(alloc);
//! let copy = directory.reserve(&name)?;             // takes memory, and changes no name
//! let kept = Name::new(alloc, &name)?;              // what the object keeps of its name
//! directory.enter(copy, id);                        // can't fail
//! directory.find(&same);                            // Some(id)
//! directory.remove(&kept.borrowed());               // Some(id), and the name is gone
//! # assert!(rt; directory.len() == 0);
//! ```
#![tactic(auto)]

mod bytes;
mod directory;
mod entered;
mod key;
mod law;
mod name;
mod owned;
mod parser;
mod places;
mod rows;
mod session;
mod space;

pub use directory::Directory;
pub use law::law_of_names;
pub use name::{NAME_MOST, NameRef};
pub use owned::Name;
pub use parser::parse;
pub use rows::Rows;
pub use session::Session;
pub use space::Space;
