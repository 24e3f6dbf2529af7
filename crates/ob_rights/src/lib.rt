//! What every layer of the object manager speaks of: access masks, handle flags, the kinds of objects, and why a call
//! is refused.
//!
//! ```rust
//! # use ob_rights::{Fault, Kind, Rights, all_access, code_of, within};
//! within(Rights::SYNCHRONIZE, all_access(Kind::Event));  // true: an event may be waited for
//! code_of(Fault::Access);                                // 5, ERROR_ACCESS_DENIED
//! ```
#![tactic(auto)]

mod fault;
mod handle_flags;
mod kind;
mod rights;
mod spelling;

pub use fault::{Fault, code_of};
pub use handle_flags::HandleFlags;
pub use kind::Kind;
pub use rights::{Rights, all_access, within};
