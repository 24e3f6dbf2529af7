ghost use Rattle.std.specs.Prelude.{◌≡◌, true};

mod dues;
mod filling;
mod names;
mod numbers;
mod periods;
mod pinning;
mod pins;
mod playing;
mod reuse;
mod rights;
mod room;
mod saved;
mod schedules;
mod slots;
mod store;
mod waits;

use ob_manager::Make;
use pin_core::Id;
use std::alloc::{AllocError, Global};
use std::fmt::Debug;
use std::process::Abort;

/// Asserts that what is found is what is due.
// In place of `assert_eq!`, which each function that has it pays for in its proof.
fn same<T: Copy + PartialEq + Debug>(rt: &impl Abort, found: T, due: T) {
    assert_eq!(rt; found, due);
}

/// The same at a place of a table.
fn same_at<T: Copy + PartialEq + Debug>(rt: &impl Abort, found: T, due: T, place: usize) {
    assert_eq!(rt; found, due, "at place {place} of the table");
}

/// Asserts a condition, which is known from there on.
fn holds(rt: &impl Abort, condition: bool)
    ensures { condition ≡ true }
{
    assert!(rt; condition);
}

/// A list of so many bytes as no other has: while it lives no memory is asked for, which `checks/memory` sees. It is
/// asked for once more where memory was wanting.
fn marked(alloc: Global) -> Result<Vec<u8>, AllocError> {
    match Vec::with_capacity(alloc, 30_011) {
        Ok(mark) => Ok(mark),
        Err(_) => Vec::with_capacity(alloc, 30_011),
    }
}

/// Another number, without an order that matters.
fn next(seed: u32) -> u32 {
    seed.wrapping_mul(1_664_525).wrapping_add(1_013_904_223)
}

/// The first object of the first slot, and of the second and the third.
const FIRST: Id = Id {
    slot: 0,
    generation: 1,
};

const SECOND: Id = Id {
    slot: 1,
    generation: 1,
};

const THIRD: Id = Id {
    slot: 2,
    generation: 1,
};

const NAMED_A: Make<'static> = Make {
    name: Some(b"A"),
    inherit: false,
    access: None,
    grant: None,
};

const NAMED_E: Make<'static> = Make {
    name: Some(b"E"),
    inherit: false,
    access: None,
    grant: None,
};

const NAMED_S: Make<'static> = Make {
    name: Some(b"S"),
    inherit: false,
    access: None,
    grant: None,
};
