//! The console: reads a script, makes the calls of its lines, pins what they ask for, and prints the answers.
//!
//! [`run`] has a manager of its own and one reader of the manager's pins. It works over any [`Source`] and [`Sink`],
//! whose bytes its contract names, and [`run_whole`] over a script in memory; [`Wired`] makes a reader or a writer of
//! std one. [`read_options`] reads the program's command line.
//!
//! ```rust
//! # use ob_console::{Wired, read_options, run};
//! # let args = Vec::new(alloc);
//! let options = read_options(rt.alloc(), args)?;
//! let mut source = Wired::new(rt.stdin());
//! let mut sink = Wired::new(rt.stdout());
//! run(rt.alloc(), options.more, options.limits, &mut source, &mut sink)?;
//! ```
//!
//! [`run_lanes`] reads a script with lanes, and makes the calls of each lane on a thread of its own. [`script_of`] tells a
//! journal as a script: what many threads asked of a manager, in the order in which it was answered, so that one thread
//! asks it again.
//!
//! ```rust
//! # use {call_tables::*, ob_manager::{Call, Limits}, ob_console::script_of, ob_shared::Shared};
//! # let (pins, opening) = pins_for(alloc, Limits::default())?;
//! # let (keeper, _reader) = started(opening, &pins)?;
//! # let mut shared = Shared::new(alloc, manager_over(alloc, Limits::default(), keeper)?);
//! # let mut lane = shared.lane()?;
//! # shared.call(&rt, &mut lane, Call::Spawn { session: 1 });
//! # let lanes = vec![in alloc; lane]?;
//! let closed = shared.close(lanes).map_err(|kept| kept.cause)?;
//! let script = script_of(alloc, closed.journal.as_slice())?;
//! script.as_slice();                                  // b"spawn 1\n# p1 t1\n"
//! ```
#![tactic(auto)]

mod asking;
mod console;
mod evaluator;
mod lanes;
mod law;
mod options;
mod pinning;
mod reaping;
mod retelling;
mod script;

pub use lanes::{LanesFault, run_lanes};
pub use law::law_of_replay;
pub use ob_script::{CALLS_MOST, DeviceError, IoTrace, Sink, Source, Wired};
pub use options::{NumberOption, Options, OptionsFault, read_options, without_its_number};
pub use retelling::script_of;
pub use script::{RunFault, run, run_bounded, run_over, run_whole};
