ghost use Rattle.std.specs.Prelude.{◌≡◌, ◌<◌, ◌≤◌, true, IsTrue, IfOk, IfSome};
ghost use Rattle.pin_core.specs.Shapes.{IsWithinLimits};
ghost use Rattle.pin_core.specs.Worlds.{slot_of};
ghost use Rattle.pin_words.specs.Keepers.{IsFresh};

use crate::tests::{holds, marked, next, same};
use call_tables::{pins_for, started};
use ob_manager::Limits;
use ob_rights::{Fault, Kind};
use pin_core::{Descr, Id, Phase, Shape};
use pin_words::{Keeper, LockedPins, PinFault, PinKeeper, Reader, Reclaim};
use std::alloc::Global;
use std::process::Abort;
use std::sync::Wait;
use std::test::Fail;
use std::thread::{Threads, join};

const SEMAPHORE: Descr = Descr {
    kind: Kind::Semaphore,
    manual: false,
    max: 5,
};

const FIRST: Id = Id {
    slot: 0,
    generation: 1,
};

const SECOND: Id = Id {
    slot: 0,
    generation: 2,
};

const THIRD: Id = Id {
    slot: 0,
    generation: 3,
};

/// The first object of the next slot, where there is one.
const BESIDE: Id = Id {
    slot: 1,
    generation: 1,
};

const LAST: Id = Id {
    slot: 3,
    generation: 1,
};

trait Counted: PinKeeper {
    fn count(&self) -> u32
        ensures { result ≡ (Self.kept self.now).shape.slots };
}

impl Counted for Keeper {
    fn count(&self) -> u32 {
        self.slots()
    }
}

impl Counted for LockedPins {
    fn count(&self) -> u32 {
        self.slots()
    }
}

fn is_in<K: Counted>(keeper: &K, slot: u32, phase: Phase) -> bool
    ensures { IsTrue result → (slot < (K.kept keeper.now).shape.slots)
        × ((slot_of (K.kept keeper.now).slots slot).phase ≡ phase) }
{
    slot < keeper.count() && keeper.phase(slot) == phase
}

fn is_at<K: Counted>(keeper: &K, slot: u32, generation: u32) -> bool {
    slot < keeper.count() && keeper.generation(slot) == generation
}

fn publish<K: Counted>(keeper: &mut K, slot: u32) -> bool
    ensures { (K.kept keeper.new).table ≡ (K.kept keeper.old).table }
{
    if !is_in(keeper, slot, Phase::Free) || !SEMAPHORE.is_given() {
        return false;
    }
    keeper.store_descr(slot, SEMAPHORE);
    if !is_in(keeper, slot, Phase::Free) {
        return false;
    }
    keeper.publish(slot);
    true
}

fn close<K: Counted>(keeper: &mut K, slot: u32) -> bool {
    if !is_in(keeper, slot, Phase::Live) {
        return false;
    }
    keeper.close_slot(slot);
    true
}

// Only the keeper can answer what it counts.
fn reclaim<K: Counted>(keeper: &mut K, slot: u32) -> Option<Reclaim>
    ensures { IfSome result (λ r. K.reclaims (K.kept keeper.old) slot r (K.kept keeper.new)) }
{
    if !is_in(keeper, slot, Phase::Closing) {
        return None;
    }
    Some(keeper.reclaim(slot))
}

fn is_fresh<K: Counted>(keeper: &K, shape: Shape) -> bool
    requires { IsFresh (K.kept keeper.now) shape }
    ensures { result ≡ true }
{
    keeper.count() == shape.slots
}

// The slot of a held Id is one of the keeper's.
fn meet(keeper: &mut Keeper, reader: &mut Reader, id: Id) -> bool
    requires { reader.old.table ≡ keeper.old.table }
    ensures { (keeper.new.table ≡ keeper.old.table) × (reader.new.table ≡ reader.old.table) }
{
    if !reader.holds(id) {
        return false;
    }
    let slot = reader.slot_of_held(id);
    keeper.same_shape(reader);
    keeper.meet(reader, slot);
    keeper.generation(slot) == id.generation
}

fn release(reader: &mut Reader, id: Id) -> bool {
    if !reader.holds(id) {
        return false;
    }
    reader.release(id);
    true
}

fn descr(reader: &mut Reader, id: Id) -> Option<Descr> {
    if !reader.holds(id) {
        return None;
    }
    Some(reader.descr(id))
}

fn unlock(pins: &mut LockedPins, id: Id) -> bool {
    if !pins.holds(id) {
        return false;
    }
    pins.release(id);
    true
}

fn locked_descr(pins: &LockedPins, id: Id) -> Option<Descr> {
    if !pins.holds(id) {
        return None;
    }
    Some(pins.descr(id))
}

fn spin<R: Wait>(rt: &R, reader: &mut Reader, id: Id) -> u32 {
    let mut losses = 0u32;
    for _ in 0..1000 {
        if reader.pin(rt, id).is_err() || !release(reader, id) {
            losses = losses.saturating_add(1);
        }
    }
    losses
}

fn pin_and_close(rt: &impl Abort, keeper: &mut Keeper, a: &mut Reader, b: &mut Reader) {
    holds(rt, publish(keeper, 0));
    holds(rt, a.try_pin(FIRST).is_ok());
    holds(rt, b.try_pin(FIRST).is_ok());
    same(rt, a.try_pin(FIRST), Err(PinFault::PinsFull));
    same(rt, descr(a, FIRST), Some(SEMAPHORE));
    holds(rt, a.held() == &[FIRST][..]);
    holds(rt, close(keeper, 0));
    same(rt, b.try_pin(FIRST), Err(PinFault::Stale));
    same(rt, reclaim(keeper, 0), Some(Reclaim::Held { pins: 2 }));
    holds(rt, release(a, FIRST));
    same(rt, reclaim(keeper, 0), Some(Reclaim::Held { pins: 1 }));
    holds(rt, b.release_if_held(FIRST));
    holds(rt, !b.release_if_held(FIRST));
    holds(rt, !b.holds(FIRST));
    same(rt, reclaim(keeper, 0), Some(Reclaim::Freed));
    holds(rt, is_at(keeper, 0, 2));
    same(rt, a.try_pin(FIRST), Err(PinFault::Stale));
    same(rt, a.try_pin(SECOND), Err(PinFault::Unborn));
    pin_the_second(rt, keeper, a);
}

fn pin_the_second(rt: &impl Abort, keeper: &mut Keeper, a: &mut Reader) {
    holds(rt, publish(keeper, 0));
    holds(rt, a.try_pin(SECOND).is_ok());
    same(rt, a.try_pin(BESIDE), Err(PinFault::NoSuchSlot));
    holds(rt, release(a, SECOND));
    holds(rt, close(keeper, 0));
    same(rt, reclaim(keeper, 0), Some(Reclaim::Retired));
    holds(rt, is_at(keeper, 0, 2));
    same(rt, a.try_pin(SECOND), Err(PinFault::Stale));
    same(rt, a.try_pin(THIRD), Err(PinFault::Stale));
}

/// Two threads pin an object and let it go, each with a reader of its own. Then it ends.
fn spins<R: Abort + Wait + Threads + Sync>(
    rt: &R,
    keeper: &mut Keeper,
    a: &mut Reader,
    b: &mut Reader,
) {
    holds(rt, publish(keeper, 1));
    let (x, y) = join(rt, || spin(rt, a, BESIDE), || spin(rt, b, BESIDE));
    same(rt, x, 0);
    same(rt, y, 0);
    holds(rt, close(keeper, 1));
    same(rt, reclaim(keeper, 1), Some(Reclaim::Freed));
}

fn meet_twice(rt: &impl Abort, keeper: &mut Keeper, reader: &mut Reader)
    requires { reader.old.table ≡ keeper.old.table }
{
    if keeper.slots() == 4 {
        keeper.meet(reader, 3);
    }
    holds(rt, !meet(keeper, reader, LAST));
    holds(rt, publish(keeper, 3));
    holds(rt, reader.try_pin(LAST).is_ok());
    holds(rt, meet(keeper, reader, LAST));
}

/// One of the calls of a keeper and of a reader, about a slot's present Id, and whether it could be made.
fn call_any(keeper: &mut Keeper, reader: &mut Reader, slot: u32, pick: usize) -> bool {
    if slot >= keeper.slots() {
        return false;
    }
    let id = Id {
        slot,
        generation: keeper.generation(slot),
    };
    match pick {
        0 => publish(keeper, slot),
        1 => close(keeper, slot),
        2 => reclaim(keeper, slot).is_some(),
        3 => reader.try_pin(id).is_ok(),
        4 => release(reader, id),
        5 => descr(reader, id).is_some(),
        _ => drop_reader(keeper),
    }
}

/// A reader comes and goes.
fn drop_reader(keeper: &mut Keeper) -> bool {
    let Some(reader) = keeper.reader() else {
        return false;
    };
    let is_free = reader.held().is_empty();
    drop(reader);
    is_free
}

/// Calls each of them until it was made so often.
fn call_all(keeper: &mut Keeper, reader: &mut Reader, often: u32) -> bool {
    let mut made = [0u32; 7];
    let mut seed = 1;
    for _ in 0..1_000_000 {
        seed = next(seed);
        let pick = (seed >> 16) as usize % 7;
        if call_any(keeper, reader, seed >> 30, pick) {
            made[pick] = made[pick].saturating_add(1);
        }
        if made.iter().all(|count| *count >= often) {
            return true;
        }
    }
    false
}

/// What is done with a keeper of pins in words.
#[derive(Clone, Copy)]
enum Course {
    /// A slot that two readers have pinned is kept.
    Keeps,
    /// Two readers, each on a thread.
    Spins,
    /// All calls, of which none takes memory.
    Calls,
}

/// Goes a course with a second reader.
fn goes_with_two<R: Abort + Wait + Threads + Sync>(
    rt: &R,
    keeper: &mut Keeper,
    a: &mut Reader,
    course: Course,
) -> Result<(), Fault> {
    let Some(mut b) = keeper.reader() else {
        return Err(Fault::Memory);
    };
    match course {
        Course::Keeps => pin_and_close(rt, keeper, a, &mut b),
        _ => spins(rt, keeper, a, &mut b),
    }
    Ok(())
}

/// Makes all calls, marked as what takes no memory.
fn calls_marked(
    rt: &impl Abort,
    alloc: Global,
    keeper: &mut Keeper,
    reader: &mut Reader,
) -> Result<(), Fault>
    requires { reader.old.table ≡ keeper.old.table }
{
    let mark = marked(alloc)?;
    meet_twice(rt, keeper, reader);
    let is_done = call_all(keeper, reader, 10_000);
    drop(mark);
    holds(rt, is_done);
    Ok(())
}

/// Goes a course over a new keeper for so many slots, pins of one and generations of one.
fn over_words<R: Abort + Wait + Threads + Sync>(
    rt: &R,
    alloc: Global,
    most: [u32; 3],
    course: Course,
) -> Result<(), Fault> {
    let [slots, pins, generations] = most;
    let limits = Limits::checked(slots, 1, 1, 1, 1, pins, generations, 1)?;
    let (pins, opening) = pins_for(alloc, limits)?;
    let (mut keeper, mut reader) = started(opening, &pins)?;
    holds(rt, is_fresh(&keeper, limits.shape()));
    match course {
        Course::Calls => calls_marked(rt, alloc, &mut keeper, &mut reader),
        _ => goes_with_two(rt, &mut keeper, &mut reader, course),
    }
}

#[test]
fn a_pinned_slot_is_kept(rt: HostRuntime) -> Result<(), Fail> {
    over_words(&rt, rt.alloc(), [1, 2, 2], Course::Keeps)?;
    Ok(())
}

#[test]
fn two_threads_pin_and_release(rt: HostRuntime) -> Result<(), Fail> {
    over_words(&rt, rt.alloc(), [2, 1_073_741_823, 9], Course::Spins)?;
    Ok(())
}

#[test]
fn calls_take_no_memory(rt: HostRuntime) -> Result<(), Fail> {
    over_words(&rt, rt.alloc(), [4, 2, 1_000_000], Course::Calls)?;
    Ok(())
}

/// One of the calls of pins under a lock, about a slot's present Id, and whether it could be made.
fn lock_any(pins: &mut LockedPins, slot: u32, pick: usize) -> bool {
    if slot >= pins.slots() {
        return false;
    }
    let id = Id {
        slot,
        generation: pins.generation(slot),
    };
    match pick {
        0 => publish(pins, slot),
        1 => close(pins, slot),
        2 => reclaim(pins, slot).is_some(),
        3 => pins.try_pin(id).is_ok(),
        4 => unlock(pins, id),
        _ => locked_descr(pins, id).is_some(),
    }
}

/// Calls each of them until it was made so often.
fn lock_all(pins: &mut LockedPins, often: u32) -> bool {
    let mut made = [0u32; 6];
    let mut seed = 1;
    for _ in 0..1_000_000 {
        seed = next(seed);
        let pick = (seed >> 16) as usize % 6;
        if lock_any(pins, seed >> 30, pick) {
            made[pick] = made[pick].saturating_add(1);
        }
        if made.iter().all(|count| *count >= often) {
            return true;
        }
    }
    false
}

/// Pins under a lock. What was given serves a second try.
fn locked(alloc: Global, shape: Shape) -> Result<LockedPins, Fault>
    requires { IsWithinLimits shape }
    ensures { IfOk result (λ pins. IsFresh pins shape) }
{
    match LockedPins::new(alloc, shape) {
        Ok(locked) => Ok(locked),
        Err(_) => LockedPins::new(alloc, shape),
    }
}

#[test]
fn calls_under_a_lock_take_no_memory(rt: HostRuntime) -> Result<(), Fail> {
    let Some(shape) = Shape::checked(4, 2, 1_000_000) else {
        return Err(Fail::from(Fault::Parameter));
    };
    let mut pins = locked(rt.alloc(), shape)?;
    holds(&rt, is_fresh(&pins, shape));
    let mark = marked(rt.alloc())?;
    let is_done = lock_all(&mut pins, 10_000);
    drop(mark);
    holds(&rt, is_done);
    Ok(())
}
