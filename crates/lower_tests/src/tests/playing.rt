//! Tables of calls over both keepers.
ghost use Rattle.std.specs.Prelude.{◌≡◌};
ghost use Rattle.ob_store.specs.State.{shape_of};

use super::filling::{Fill, fills_all};
use super::pinning::holds_what_is_pinned;
use super::reuse::goes_round;
use super::room::{Left, leaves};
use super::saved::{Edit, all_go_on, goes_on_edited, tries_edits};
use super::{FIRST, same_at};
use call_tables::{
    Line, PLAIN, ROWS, asked, locked_manager, manager_over, pins_for, started, to_call,
};
use ob_manager::CallOf::{CloseHandle, Counts, MakeEvent, MakeMutex, Reap, Spawn};
use ob_manager::Reply::{Closed, CountsAre, Made, Reaped, Refused, Spawned};
use ob_manager::{Ask, Limits, Manager, Reply};
use ob_rights::Fault;
use pin_core::Id;
use pin_words::{LockedPins, Opening, PinKeeper, Pins, Reclaim};
use std::alloc::Global;
use std::process::Abort;
use std::test::Fail;

/// The reply to a call.
pub(super) fn reply_to<K: PinKeeper>(
    alloc: Global,
    manager: &mut Manager<K>,
    ask: &Ask<'_>,
) -> Result<Reply, Fault> {
    let call = to_call(ask, alloc)?;
    let reply = asked(manager, &call);
    drop(call);
    Ok(reply)
}

/// Makes the calls of a table, one after another. Each reply is the one that is due.
pub(super) fn answers<K: PinKeeper>(
    rt: &impl Abort,
    alloc: Global,
    manager: &mut Manager<K>,
    table: &[Line<'_>],
) -> Result<(), Fault> {
    for (place, (ask, due)) in table.iter().enumerate() {
        same_at(rt, reply_to(alloc, manager, ask)?, *due, place);
    }
    Ok(())
}

/// What is played over pins under a lock.
#[derive(Clone, Copy)]
pub(super) enum Scene<'a> {
    /// A table of calls.
    Calls(&'a [Line<'a>]),
    /// What is made until there is no more, and calls behind that.
    Fills(&'a [Fill], &'a [Line<'a>]),
    /// A slot is held by a pin.
    Holds,
    /// Threads and processes that begin and end, again and again.
    GoesRound,
    /// Calls in two parts, and what can still come behind them.
    Leaves(&'a [Left<'a>], &'a [Left<'a>]),
    /// Calls, and others that are made once more over what is saved between them.
    Saves(&'a [Line<'a>], &'a [Line<'a>]),
    /// Calls, and others that are made over what is saved between them, with an edit of it.
    SavesEdited(&'a [Line<'a>], &'a Edit<'a>, &'a [Line<'a>]),
    /// Calls, and how many bytes the text has that is saved behind them, with edits of it.
    Edits(&'a [Line<'a>], usize, &'a [Edit<'a>]),
}

fn plays(
    rt: &impl Abort,
    alloc: Global,
    manager: &mut Manager<LockedPins>,
    scene: Scene<'_>,
) -> Result<(), Fault> {
    match scene {
        Scene::Calls(table) => answers(rt, alloc, manager, table),
        Scene::Fills(fills, table) => fills_all(rt, alloc, manager, fills, table),
        Scene::Holds => holds_what_is_pinned(rt, alloc, manager),
        Scene::GoesRound => goes_round(rt, alloc, manager),
        Scene::Leaves(first, behind) => {
            leaves(rt, alloc, manager, first)?;
            leaves(rt, alloc, manager, behind)
        }
        Scene::Saves(first, calls) => all_go_on(rt, alloc, manager, first, calls),
        Scene::SavesEdited(first, edit, calls) => {
            goes_on_edited(rt, alloc, manager, first, edit, calls)
        }
        Scene::Edits(calls, len, edits) => tries_edits(rt, alloc, manager, calls, len, edits),
    }
}

/// Plays over pins under a lock.
pub(super) fn over_locked(
    rt: &impl Abort,
    alloc: Global,
    limits: Limits,
    scene: Scene<'_>,
) -> Result<(), Fault> {
    let mut manager = locked_manager(alloc, limits)?;
    let played = plays(rt, alloc, &mut manager, scene);
    drop(manager);
    played
}

/// Plays over the keeper of pins in words.
fn over_keeper(
    rt: &impl Abort,
    alloc: Global,
    limits: Limits,
    pins: &Pins,
    opening: Opening,
    table: &[Line<'_>],
) -> Result<(), Fault>
    requires opens { opening ≡ pins.now }
    requires shape { pins.now.shape ≡ shape_of limits }
{
    let (keeper, reader) = started(opening, pins)?;
    reader.finish();
    let mut manager = manager_over(alloc, limits, keeper)?;
    let played = answers(rt, alloc, &mut manager, table);
    drop(manager);
    played
}

/// Plays over pins in words.
fn over_words(
    rt: &impl Abort,
    alloc: Global,
    limits: Limits,
    table: &[Line<'_>],
) -> Result<(), Fault> {
    let (pins, opening) = pins_for(alloc, limits)?;
    over_keeper(rt, alloc, limits, &pins, opening, table)
}

#[test]
fn rows_are_answered_over_a_lock(rt: HostRuntime) -> Result<(), Fail> {
    for row in ROWS {
        over_locked(&rt, rt.alloc(), Limits::default(), Scene::Calls(row))?;
    }
    Ok(())
}

#[test]
fn rows_are_answered_over_words(rt: HostRuntime) -> Result<(), Fail> {
    for row in ROWS {
        over_words(&rt, rt.alloc(), Limits::default(), row)?;
    }
    Ok(())
}

/// The second object of the first slot.
const AGAIN: Id = Id {
    slot: 0,
    generation: 2,
};

/// One slot with two generations: it is given twice, and then never again.
#[rattlefmt::skip]
const TWO_GENERATIONS: &[Line<'static>] = &[
    (Spawn { session: 1 }, Spawned { process: 1, thread: 1 }),
    (MakeEvent { thread: 1, make: PLAIN, manual: false, set: false }, Made { handle: 4, id: FIRST }),
    (Reap { slot: 0 }, Refused(Fault::Handle)),
    (CloseHandle { thread: 1, handle: 4 }, Closed),
    (MakeEvent { thread: 1, make: PLAIN, manual: false, set: false }, Refused(Fault::Limit)),
    (Reap { slot: 0 }, Reaped { id: FIRST, outcome: Reclaim::Freed }),
    (Counts { id: FIRST }, Refused(Fault::Handle)),
    (MakeMutex { thread: 1, make: PLAIN, owned: false }, Made { handle: 4, id: AGAIN }),
    (Counts { id: FIRST }, Refused(Fault::Handle)),
    (Counts { id: AGAIN }, CountsAre { handles: 1, waits: 0, hold: 0 }),
    (CloseHandle { thread: 1, handle: 7 }, Closed),
    (Counts { id: AGAIN }, CountsAre { handles: 0, waits: 0, hold: 1 }),
    (Reap { slot: 0 }, Reaped { id: AGAIN, outcome: Reclaim::Retired }),
    (Reap { slot: 0 }, Refused(Fault::Handle)),
    (Reap { slot: 1 }, Refused(Fault::Parameter)),
    (MakeMutex { thread: 1, make: PLAIN, owned: false }, Refused(Fault::Limit)),
];

#[test]
fn a_slot_is_given_again_and_then_retired(rt: HostRuntime) -> Result<(), Fail> {
    let limits = Limits::checked(1, 4, 4, 8, 4, 4, 2, 4)?;
    over_locked(&rt, rt.alloc(), limits, Scene::Calls(TWO_GENERATIONS))?;
    over_words(&rt, rt.alloc(), limits, TWO_GENERATIONS)?;
    Ok(())
}
