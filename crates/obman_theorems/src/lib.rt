//! What is proved of the object manager: five statements, and two that follow (`specs/Theorems.antt`).
//!
//! Each statement is a record over the definitions of the crates below. A law says it of every step, history, run or
//! world; and of the code a function has it as its contract, which makes a call of the library and nothing else.
//!
//! ```rust
//! # use {call_tables::*, ob_manager::{Call, Limits, Reply::Spawned}, ob_shared::Shared, obman_theorems::*};
//! # let mut manager = locked_manager(alloc, Limits::default())?;
//! made(&mut manager, &Call::Spawn { session: 1 });     // Spawned { process: 1, thread: 1 }: a step of the model
//! stored(&manager);                                    // what is stored, which matches the state
//! savestate(&manager, alloc)?;                         // the one savestate of that state
//!
//! # let (pins, opening) = pins_for(alloc, Limits::default())?;
//! # let (keeper, _reader) = started(opening, &pins)?;
//! # let mut shared = Shared::new(alloc, manager_over(alloc, Limits::default(), keeper)?);
//! let mut lane = shared.lane()?;
//! called(&shared, &rt, &mut lane, Call::Spawn { session: 1 });
//! let lanes = vec![in alloc; lane]?;
//! closed(shared, lanes).map_err(|kept| kept.cause)?;   // one history, of which each lane's list is its part
//! ```
#![tactic(auto)]

mod law;

pub use law::{
    called, closed, law_of_choices, law_of_lanes, law_of_pins, law_of_records, law_of_recounts,
    law_of_replay, law_of_runs, law_of_savestates, law_of_steps, law_of_total, made, parted,
    pinned, ran, recounted, savestate, stored,
};
