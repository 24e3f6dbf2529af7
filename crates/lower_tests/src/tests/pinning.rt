//! Pins of the one holder under the lock.
use super::playing::{Scene, answers, over_locked};
use super::{FIRST, SECOND, holds, same};
use call_tables::{Line, PLAIN};
use ob_manager::CallOf::{CloseHandle, MakeEvent, Reap, Spawn};
use ob_manager::Reply::{Closed, Made, Reaped, Spawned};
use ob_manager::{Card, Limits, Manager};
use ob_rights::{Fault, Kind, Rights};
use pin_core::{Descr, Id};
use pin_words::{LockedPins, PinFault, Reclaim};
use std::alloc::Global;
use std::process::Abort;
use std::test::Fail;

#[rattlefmt::skip]
const EVENT: &[Line<'static>] = &[
    (Spawn { session: 1 }, Spawned { process: 1, thread: 1 }),
    (MakeEvent { thread: 1, make: PLAIN, manual: false, set: false }, Made { handle: 4, id: FIRST }),
];

#[rattlefmt::skip]
const ENDED: &[Line<'static>] = &[
    (CloseHandle { thread: 1, handle: 4 }, Closed),
    (Reap { slot: 0 }, Reaped { id: FIRST, outcome: Reclaim::Held { pins: 1 } }),
];

const FREED: &[Line<'static>] = &[(
    Reap { slot: 0 },
    Reaped {
        id: FIRST,
        outcome: Reclaim::Freed,
    },
)];

const CARD: Card = Card {
    id: FIRST,
    descr: Descr {
        kind: Kind::Event,
        manual: false,
        max: 0,
    },
    grant: Rights(0x001F_0003),
};

/// Ids that can't be pinned beside the first object, each with why.
#[rattlefmt::skip]
const REFUSED: &[(Id, PinFault)] = &[
    (Id { slot: 64, generation: 1 }, PinFault::NoSuchSlot),
    (Id { slot: 0, generation: 2 }, PinFault::Unborn),
    (SECOND, PinFault::Unborn),
];

/// Lets one copy go, where there is one: whether there was.
fn unpins(manager: &mut Manager<LockedPins>, id: Id) -> bool {
    if !manager.holds_locked(id) {
        return false;
    }
    manager.unpin_locked(id);
    true
}

/// The slot of an object that is pinned is held once it has ended, and freed behind the pin.
pub(super) fn holds_what_is_pinned(
    rt: &impl Abort,
    alloc: Global,
    manager: &mut Manager<LockedPins>,
) -> Result<(), Fault> {
    answers(rt, alloc, manager, EVENT)?;
    for (id, fault) in REFUSED {
        same(rt, manager.pin_locked(*id), Err(*fault));
    }
    same(rt, manager.pin_locked(FIRST), Ok(()));
    answers(rt, alloc, manager, ENDED)?;
    same(rt, manager.card(FIRST), Some(CARD));
    same(rt, manager.pin_locked(FIRST), Err(PinFault::Stale));
    holds(rt, unpins(manager, FIRST));
    holds(rt, !unpins(manager, FIRST));
    answers(rt, alloc, manager, FREED)?;
    same(rt, manager.card(FIRST), None);
    Ok(())
}

#[test]
fn a_pinned_slot_is_held(rt: HostRuntime) -> Result<(), Fail> {
    over_locked(&rt, rt.alloc(), Limits::default(), Scene::Holds)?;
    Ok(())
}
