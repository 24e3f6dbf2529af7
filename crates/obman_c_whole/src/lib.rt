//! What C asks of a manager as a whole, beside the calls of `obman_c`: savestates, the answers to a script, and a dump.
//! `include/obman.h` declares it.
//!
//! It is a static library of its own since a load and a script have managers over other pins than those of a manager
//! that C holds: in one library with the calls, what both use would be called in each and inlined in none.
#![tactic(auto)]

mod dumping;
mod handing;
mod savestates;
mod script;
