//! The mutexes that are listed for a thread.
use crate::tests::holds;
use ob_body::{Body, RECURSION_MAX};
use ob_rights::{Fault, Kind, all_access};
use ob_store::Objects;
use ob_waits::Bodies;
use pin_core::{Descr, Id, Shape};
use pin_words::LockedPins;
use std::process::Abort;
use std::test::Fail;

const MUTEX: Descr = Descr {
    kind: Kind::Mutex,
    manual: false,
    max: 0,
};

/// The Id of a slot's first object.
fn first_of(slot: u32) -> Id {
    Id {
        slot,
        generation: 1,
    }
}

/// Whether the thread could take the mutex of the slot, and has.
fn has_taken(objects: &mut Objects<LockedPins>, thread: u32, slot: u32) -> bool {
    let id = first_of(slot);
    let Some(mut body) = objects.body(id) else {
        return false;
    };
    if !body.signaled_for(thread) || !body.has_room(thread, RECURSION_MAX) {
        return false;
    }
    body.acquire(thread);
    objects.put(id, body);
    true
}

/// Whether the thread owned the mutex of the slot, and has released it once.
fn has_released(objects: &mut Objects<LockedPins>, thread: u32, slot: u32) -> bool {
    let id = first_of(slot);
    let Some(mut body) = objects.body(id) else {
        return false;
    };
    if body.kind() != Kind::Mutex || body.unlock(thread).is_err() {
        return false;
    }
    objects.put(id, body);
    true
}

/// The mutexes that are listed for a thread are abandoned: as many as it owns.
fn abandon_listed(objects: &mut Objects<LockedPins>, thread: u32) {
    for _ in 0..objects.owned_count(thread) {
        let slot = objects.first_owned(thread);
        objects.abandon_at(slot, thread);
    }
}

/// So many mutexes, each with one handle.
fn makes(rt: &impl Abort, objects: &mut Objects<LockedPins>, many: u32) {
    let grant = all_access(Kind::Mutex);
    for _ in 0..many {
        if let Some(slot) = objects.least_vacant() {
            holds(rt, MUTEX.is_given());
            let _ = objects.add(slot, MUTEX, grant, None, Body::new_mutex(None));
        }
    }
}

/// Whether the object of the slot had a handle, which has left.
fn has_lost_a_handle(objects: &mut Objects<LockedPins>, slot: u32) -> bool {
    let Some(found) = objects.look(slot) else {
        return false;
    };
    if found.header.handles == 0 {
        return false;
    }
    objects.handle_left(slot);
    true
}

/// What is done with mutexes, or seen then.
#[derive(Clone, Copy)]
enum Act {
    /// A thread takes the mutex of a slot.
    Take(u32, u32),
    /// A thread releases the mutex of a slot.
    Release(u32, u32),
    /// The handle of the mutex in a slot leaves.
    HandleLeft(u32),
    /// The mutexes of a thread are abandoned.
    Abandon(u32),
    /// A thread owns no mutex.
    OwnsNone(u32),
}

/// Whether an act could be done.
fn is_done(objects: &mut Objects<LockedPins>, act: Act) -> bool {
    match act {
        Act::Take(thread, slot) => has_taken(objects, thread, slot),
        Act::Release(thread, slot) => has_released(objects, thread, slot),
        Act::HandleLeft(slot) => has_lost_a_handle(objects, slot),
        Act::Abandon(thread) => {
            let owns_some = !objects.owns_none(thread);
            abandon_listed(objects, thread);
            owns_some
        }
        Act::OwnsNone(thread) => objects.owns_none(thread),
    }
}

/// Before a lower thread owned a mutex or one of a lower slot was owned, thread 3 takes the last of seven and abandons
/// it. Thread 1 takes those of the slots 0 to 4, the last of them twice, and thread 2 that of 5. Then thread 1 loses
/// one from the middle of its list, its neighbour and the first, and takes another; thread 2 loses its last.
const TAKEN_AND_LOST: &[Act] = &[
    Act::OwnsNone(3),
    Act::Take(3, 6),
    Act::OwnsNone(2),
    Act::Abandon(3),
    Act::OwnsNone(3),
    Act::Take(1, 0),
    Act::Take(1, 1),
    Act::Take(1, 2),
    Act::Take(1, 3),
    Act::Take(1, 4),
    Act::Take(1, 4),
    Act::Take(2, 5),
    Act::Release(1, 2),
    Act::HandleLeft(1),
    Act::Release(1, 4),
    Act::Release(1, 4),
    Act::Take(1, 6),
    Act::Take(2, 2),
    Act::Release(2, 5),
    Act::Abandon(1),
    Act::OwnsNone(1),
    Act::Take(2, 3),
    Act::Abandon(2),
    Act::OwnsNone(2),
];

fn plays(rt: &impl Abort, objects: &mut Objects<LockedPins>) {
    makes(rt, objects, 7);
    for (place, act) in TAKEN_AND_LOST.iter().enumerate() {
        assert!(rt; is_done(objects, *act), "at place {place} of the table");
    }
}

#[test]
fn a_list_has_all_that_a_thread_owns(rt: HostRuntime) -> Result<(), Fail> {
    let Some(shape) = Shape::checked(7, 4, 2) else {
        return Err(Fail::from(Fault::Parameter));
    };
    let keeper = LockedPins::new(rt.alloc(), shape)?;
    let Ok(mut objects) = Objects::new(rt.alloc(), 7, 4, keeper) else {
        return Err(Fail::from(Fault::Memory));
    };
    plays(&rt, &mut objects);
    drop(objects);
    Ok(())
}
