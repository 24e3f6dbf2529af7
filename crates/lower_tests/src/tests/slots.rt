ghost use Rattle.std.specs.Prelude.{◌≡◌, ◌≤◌, IfOk};
ghost use Rattle.ob_arena.specs.Slots.{vacant_slots};

use crate::tests::{holds, same};
use ob_arena::Arena;
use std::alloc::{AllocError, Global};
use std::process::Abort;
use std::rc::Rc;
use std::test::Fail;

/// An arena of vacant slots. What was given serves a second try.
fn vacant<B: Drop>(alloc: Global, slots: u32) -> Result<Arena<B>, AllocError>
    requires { slots ≤ 65536 }
    ensures { IfOk result (λ arena. arena ≡ vacant_slots slots) }
{
    match Arena::new(alloc, slots) {
        Ok(arena) => Ok(arena),
        Err(_) => Arena::new(alloc, slots),
    }
}

#[test]
fn slots_are_given_taken_and_retired(rt: HostRuntime) -> Result<(), Fail> {
    give_take_and_retire(&rt, &mut vacant(rt.alloc(), 3)?);
    Ok(())
}

fn give_take_and_retire(rt: &impl Abort, arena: &mut Arena<u32>)
    requires { arena.old ≡ vacant_slots 3 }
{
    same(rt, arena.vacant_count(), 3);
    same(rt, arena.least_vacant(), Some(0));
    holds(rt, arena.is_vacant(0));
    holds(rt, arena.is_vacant(2));
    holds(rt, !arena.is_vacant(3));
    arena.put(0, 70);
    arena.put(2, 72);
    same(rt, arena.vacant_count(), 1);
    same(rt, arena.least_vacant(), Some(1));
    holds(rt, arena.is_vacant(1));
    arena.retire(1);
    same(rt, arena.vacant_count(), 0);
    holds(rt, arena.least_vacant().is_none());
    holds(rt, !arena.is_vacant(1));
    same(rt, *arena.get(2), 72);
    *arena.get_mut(0) += 1;
    same(rt, arena.take(0), 71);
    same(rt, arena.vacant_count(), 1);
    same(rt, arena.least_vacant(), Some(0));
}

#[test]
fn a_drop_drops_each_body_once(rt: HostRuntime) -> Result<(), Fail> {
    let body = Rc::new(rt.alloc(), 7u32)?;
    put_and_drop(&rt, rt.alloc(), &body)?;
    same(&rt, Rc::strong_count(&body), 1);
    Ok(())
}

fn put_and_drop(rt: &impl Abort, alloc: Global, body: &Rc<u32>) -> Result<(), Fail> {
    let mut arena: Arena<Rc<u32>> = Arena::new(alloc, 4)?;
    put_two(rt, body, &mut arena)?;
    same(rt, Rc::strong_count(body), 3);
    drop(arena);
    Ok(())
}

fn put_two(rt: &impl Abort, body: &Rc<u32>, arena: &mut Arena<Rc<u32>>) -> Result<(), Fail> {
    holds(rt, arena.is_vacant(1));
    arena.put(1, body.clone()?);
    holds(rt, arena.is_vacant(3));
    arena.put(3, body.clone()?);
    Ok(())
}

#[test]
fn an_arena_is_made_after_want_of_memory(rt: HostRuntime) -> Result<(), Fail> {
    let arena: Arena<u64> = vacant(rt.alloc(), 65_536)?;
    same(&rt, arena.least_vacant(), Some(0));
    Ok(())
}
