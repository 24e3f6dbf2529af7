//! Tests of a manager behind its lock, with threads, of scripts, with lanes and without, and of the command line, as a
//! program above uses them. They stand in a crate of their own, so that what they test is proved once.
#![tactic(auto)]

#[cfg(test)]
mod tests;
