use crate::tests::same;
use least::Dues;
use std::alloc::{AllocError, Global};
use std::process::Abort;
use std::test::Fail;

/// Fewer than there may be, since so many take gigabytes.
const MANY: u32 = 5_000;

/// Makes room for a place, which has a moment then. What was given serves a second try.
fn grows_to(rt: &impl Abort, dues: &mut Dues, last: u32) -> Result<(), Fail> {
    let least = dues.least();
    if dues.make_room(last).is_err() {
        same(rt, dues.least(), least);
        dues.make_room(last)?;
    }
    dues.set(last, Some(7));
    same(rt, dues.due_by(7), Some(last));
    Ok(())
}

/// So many places from the first. What was given serves a second try.
fn made(alloc: Global, most: u32) -> Result<Dues, AllocError> {
    match Dues::with_places(alloc, most) {
        Ok(dues) => Ok(dues),
        Err(_) => Dues::with_places(alloc, most),
    }
}

#[test]
fn places_are_made_and_added_though_memory_fails(rt: HostRuntime) -> Result<(), Fail> {
    grows_to(&rt, &mut made(rt.alloc(), MANY)?, 2 * MANY)?;
    grows_to(&rt, &mut Dues::new(rt.alloc()), MANY)
}
