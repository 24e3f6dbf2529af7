//! Tests of the manager and of the crates below it as a crate above uses them: spellings, rights and refusals, sets of
//! numbers, due moments, slots, bodies, handle tables, names, schedules of pins, the running words, waits, and calls
//! over both keepers. They stand in a crate of their own, so that what they test is proved once, and so that nothing is
//! tested that a program above can't reach.
#![tactic(auto)]

#[cfg(test)]
mod tests;
