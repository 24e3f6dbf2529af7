ghost use Rattle.std.specs.Prelude.{◌≡◌, ◌≤◌, []};

use crate::tests::same;
use least::{LeastFree, Levels, NUMBERS_MAX};
use std::alloc::{AllocError, Global};
use std::process::Abort;
use std::test::Fail;

/// A set of numbers that are all taken, with a spare. What was given serves a second try.
fn taken(alloc: Global) -> Result<LeastFree, AllocError> {
    match LeastFree::with_taken(alloc, NUMBERS_MAX) {
        Ok(free) => Ok(free),
        Err(_) => LeastFree::with_taken(alloc, NUMBERS_MAX),
    }
}

/// The same, of numbers that are all free.
fn free(alloc: Global) -> Result<Levels, AllocError> {
    match Levels::with_free(alloc, NUMBERS_MAX) {
        Ok(free) => Ok(free),
        Err(_) => Levels::with_free(alloc, NUMBERS_MAX),
    }
}

#[test]
fn sets_are_made_after_want_of_memory(rt: HostRuntime) -> Result<(), Fail> {
    same(&rt, taken(rt.alloc())?.least(), NUMBERS_MAX);
    same(&rt, free(rt.alloc())?.next_free(0), Some(0));
    Ok(())
}

#[test]
fn grows_to_the_end_though_memory_fails(rt: HostRuntime) -> Result<(), Fail> {
    grows_to(&rt, &mut LeastFree::new(rt.alloc()), NUMBERS_MAX)
}

fn grows_to(rt: &impl Abort, free: &mut LeastFree, most: usize) -> Result<(), Fail>
    requires small { most ≤ NUMBERS_MAX }
    requires none { free.old ≡ [] }
{
    for n in 0..most {
        if free.grow().is_err() {
            same(rt, free.least(), n);
            free.grow()?;
        }
    }
    same(rt, free.least(), most);
    Ok(())
}
