//! What the parts of the C library share: what C's pointers lead to, the limits of a manager as C gives them, and
//! numbers that C is told.
#![tactic(auto)]

mod limits;
mod owned;
mod owner;
mod parts;
mod reader_owner;
mod status;

pub use limits::{CLimits, limits_of};
pub use owned::{OwnedManager, OwnedReader};
pub use owner::{ManagerOut, ManagerOwner, ManagerTaken};
pub use parts::BoxParts;
pub use reader_owner::{ReaderOut, ReaderOwner, ReaderTaken};
pub use status::{INVALID_DATA, SUCCESS, TOO_SMALL};
