//! Scripts with lanes: reads a whole script, makes the calls of its prologue and then those of its lanes at once, each
//! by a member on a thread of its own, and prints the answers lane by lane.
//!
//! ```script
//! spawn 1
//! thread p1
//! event t1 auto clear
//! @1 wait t1 any inf h4
//! @1 block
//! @2 set t2 h4
//! ```
//!
//! Lines without a prefix before the first line that begins with `@` are the prologue, whose calls are made first. `@k
//! ` puts the line behind it into lane k.

mod calling;
mod fault;
mod line;
mod members;
mod printing;
mod reading;
mod running;
mod scripts;

pub use fault::LanesFault;
pub use running::run_lanes;
