//! Savestates: a manager that is saved and loaded goes on as it was, and bytes that are none are refused.
ghost use Rattle.std.specs.Prelude.{IfOk};
ghost use Rattle.pin_words.specs.Keepers.{IsFreshWith, state_of};
ghost use Rattle.ob_store.specs.State.{shape_of};

use super::playing::{Scene, answers, over_locked};
use super::{FIRST, NAMED_A, NAMED_E, NAMED_S, SECOND, THIRD, holds, same, same_at};
use call_tables::{Line, PLAIN};
use ob_codec::{ReadFault, TextFault, seal, unseal};
use ob_manager::CallOf::{
    Child, CloseHandle, Counts, EndThread, Exit, Expire, GetFlags, MakeEvent, MakeHost, MakeMutex,
    MakeSemaphore, MakeTimer, OpenNamed, Reap, ReleaseMutex, SetEvent, SetFlags, SetTimer,
    SignalHost, Spawn, StartThread, Tick, WaitFor, WaitResult,
};
use ob_manager::Reply::{
    Closed, Code, CountsAre, Done, Ended, Exited, Expired, Flags, Made, Opened, Pending, Reaped,
    Refused, Spawned, Started, Ticked,
};
use ob_manager::Timeout::{Infinite, Millis, Zero};
use ob_manager::{Limits, Make, Manager, Mode};
use ob_rights::{Fault, Kind, Rights};
use pin_core::Id;
use pin_words::{Keeper, LockedPins, PinKeeper, Reclaim};
use std::alloc::{AllocError, Global};
use std::process::Abort;
use std::test::Fail;

const ANY: Mode = Mode::Any;

const ALL: Mode = Mode::All;

/// The fourth object to the ninth.
const FOURTH: Id = Id {
    slot: 3,
    generation: 1,
};

const FIFTH: Id = Id {
    slot: 4,
    generation: 1,
};

const SIXTH: Id = Id {
    slot: 5,
    generation: 1,
};

const SEVENTH: Id = Id {
    slot: 6,
    generation: 1,
};

const EIGHTH: Id = Id {
    slot: 7,
    generation: 1,
};

const NINTH: Id = Id {
    slot: 8,
    generation: 1,
};

/// The second object of the seventh slot, and of the eighth.
const SEVENTH_AGAIN: Id = Id {
    slot: 6,
    generation: 2,
};

const EIGHTH_AGAIN: Id = Id {
    slot: 7,
    generation: 2,
};

const INHERITED_M: Make<'static> = Make {
    name: Some(b"Global\\M"),
    inherit: true,
    access: None,
    grant: None,
};

/// Processes of two sessions, one of which ended, as did a thread; objects of each kind, named and nameless; a mutex
/// that is owned twice over, and an abandoned one; a timer that is set; a protected handle, and an inherited one; a
/// slot that waits to be taken back, one that was, and one that is given no more; a wait for all with a deadline, one
/// for any, and an answer that nobody took.
#[rattlefmt::skip]
const BEFORE: &[Line<'static>] = &[
    (Spawn { session: 1 }, Spawned { process: 1, thread: 1 }),
    (Spawn { session: 2 }, Spawned { process: 2, thread: 2 }),
    (Spawn { session: 1 }, Spawned { process: 3, thread: 3 }),
    (StartThread { process: 1 }, Started { thread: 4 }),
    (StartThread { process: 1 }, Started { thread: 5 }),
    (StartThread { process: 2 }, Started { thread: 6 }),
    (StartThread { process: 2 }, Started { thread: 7 }),
    (MakeEvent { thread: 1, make: NAMED_E, manual: false, set: false }, Made { handle: 4, id: FIRST }),
    (MakeEvent { thread: 1, make: PLAIN, manual: true, set: true }, Made { handle: 8, id: SECOND }),
    (SetFlags { thread: 1, handle: 8, mask: 2, flags: 2 }, Done),
    (MakeMutex { thread: 1, make: INHERITED_M, owned: true }, Made { handle: 12, id: THIRD }),
    (WaitFor { thread: 1, mode: ANY, timeout: Zero, handles: &[12] }, Code { code: 0 }),
    (MakeMutex { thread: 4, make: PLAIN, owned: true }, Made { handle: 16, id: FOURTH }),
    (EndThread { thread: 4 }, Ended { thread: 4 }),
    (MakeSemaphore { thread: 1, make: NAMED_S, initial: 1, max: 2 }, Made { handle: 20, id: FIFTH }),
    (Tick { now: 100 }, Ticked { now: 100 }),
    (MakeTimer { thread: 1, make: PLAIN, manual: false }, Made { handle: 24, id: SIXTH }),
    (SetTimer { thread: 1, handle: 24, due: -50_000 }, Done),
    (MakeEvent { thread: 2, make: PLAIN, manual: false, set: true }, Made { handle: 4, id: SEVENTH }),
    (MakeEvent { thread: 3, make: PLAIN, manual: false, set: false }, Made { handle: 4, id: EIGHTH }),
    (CloseHandle { thread: 2, handle: 4 }, Closed),
    (Exit { process: 3 }, Exited { process: 3 }),
    (Reap { slot: 7 }, Reaped { id: EIGHTH, outcome: Reclaim::Freed }),
    (MakeEvent { thread: 2, make: PLAIN, manual: false, set: false }, Made { handle: 4, id: EIGHTH_AGAIN }),
    (CloseHandle { thread: 2, handle: 4 }, Closed),
    (Reap { slot: 7 }, Reaped { id: EIGHTH_AGAIN, outcome: Reclaim::Retired }),
    (MakeEvent { thread: 2, make: PLAIN, manual: false, set: false }, Made { handle: 4, id: NINTH }),
    (OpenNamed { thread: 2, kind: Kind::Mutex, mask: Rights::SYNCHRONIZE, inherit: false, text: b"Global\\M" },
        Opened { handle: 8, id: THIRD }),
    (WaitFor { thread: 5, mode: ALL, timeout: Millis(20), handles: &[4, 20] }, Pending { wait: 1 }),
    (WaitFor { thread: 6, mode: ANY, timeout: Infinite, handles: &[8] }, Pending { wait: 2 }),
    (WaitFor { thread: 7, mode: ANY, timeout: Infinite, handles: &[4] }, Pending { wait: 3 }),
    (SetEvent { thread: 2, handle: 4 }, Done),
    (WaitFor { thread: 2, mode: ANY, timeout: Millis(1), handles: &[4] }, Pending { wait: 4 }),
    (Expire { wait: 4 }, Expired { wait: 4 }),
    (WaitResult { wait: 4 }, Code { code: 258 }),
];

/// Calls whose replies depend on each of these.
#[rattlefmt::skip]
const BEHIND: &[Line<'static>] = &[
    (Counts { id: FIRST }, CountsAre { handles: 1, waits: 1, hold: 0 }),
    (Counts { id: THIRD }, CountsAre { handles: 2, waits: 1, hold: 0 }),
    (Counts { id: SEVENTH }, CountsAre { handles: 0, waits: 0, hold: 1 }),
    (WaitResult { wait: 3 }, Code { code: 0 }),
    (WaitResult { wait: 3 }, Refused(Fault::Parameter)),
    (WaitResult { wait: 1 }, Pending { wait: 1 }),
    (SetEvent { thread: 5, handle: 4 }, Refused(Fault::Busy)),
    (SetEvent { thread: 3, handle: 4 }, Refused(Fault::Parameter)),
    (GetFlags { thread: 1, handle: 8 }, Flags { bits: 2 }),
    (GetFlags { thread: 1, handle: 12 }, Flags { bits: 1 }),
    (CloseHandle { thread: 1, handle: 8 }, Refused(Fault::Handle)),
    (WaitFor { thread: 1, mode: ANY, timeout: Zero, handles: &[8] }, Code { code: 0 }),
    (ReleaseMutex { thread: 1, handle: 12 }, Done),
    (WaitResult { wait: 2 }, Pending { wait: 2 }),
    (ReleaseMutex { thread: 1, handle: 12 }, Done),
    (WaitResult { wait: 2 }, Code { code: 0 }),
    (WaitFor { thread: 1, mode: ANY, timeout: Zero, handles: &[16] }, Code { code: 128 }),
    (WaitFor { thread: 7, mode: ANY, timeout: Infinite, handles: &[4] }, Pending { wait: 5 }),
    (WaitFor { thread: 1, mode: ANY, timeout: Zero, handles: &[24] }, Code { code: 258 }),
    (Tick { now: 99 }, Refused(Fault::Parameter)),
    (Tick { now: 50_100 }, Ticked { now: 50_100 }),
    (WaitFor { thread: 1, mode: ANY, timeout: Zero, handles: &[24] }, Code { code: 0 }),
    (Tick { now: 200_099 }, Ticked { now: 200_099 }),
    (WaitResult { wait: 1 }, Pending { wait: 1 }),
    (Tick { now: 200_100 }, Ticked { now: 200_100 }),
    (WaitResult { wait: 1 }, Code { code: 258 }),
    (SetEvent { thread: 1, handle: 4 }, Done),
    (WaitFor { thread: 5, mode: ALL, timeout: Zero, handles: &[4, 20] }, Code { code: 0 }),
    (WaitFor { thread: 5, mode: ANY, timeout: Zero, handles: &[20] }, Code { code: 258 }),
    (Reap { slot: 6 }, Reaped { id: SEVENTH, outcome: Reclaim::Freed }),
    (Reap { slot: 7 }, Refused(Fault::Handle)),
    (MakeMutex { thread: 1, make: NAMED_E, owned: false }, Refused(Fault::Handle)),
    (MakeEvent { thread: 1, make: PLAIN, manual: false, set: false }, Made { handle: 28, id: SEVENTH_AGAIN }),
    (OpenNamed { thread: 2, kind: Kind::Event, mask: Rights::SYNCHRONIZE, inherit: false, text: b"E" },
        Refused(Fault::NotFound)),
    (Child { thread: 1, inherit: true }, Spawned { process: 4, thread: 8 }),
    (GetFlags { thread: 8, handle: 12 }, Flags { bits: 1 }),
    (Spawn { session: 1 }, Refused(Fault::Limit)),
];

/// What a manager is saved as. Asked for again where memory was wanting.
fn saved<K: PinKeeper>(alloc: Global, manager: &Manager<K>) -> Result<Vec<u8>, AllocError> {
    match manager.save(alloc) {
        Ok(bytes) => Ok(bytes),
        Err(_) => manager.save(alloc),
    }
}

/// The manager of a savestate. Asked for again where memory was wanting.
fn loaded(alloc: Global, bytes: &[u8]) -> Result<Manager<LockedPins>, ReadFault> {
    match Manager::load(alloc, bytes) {
        Ok(manager) => Ok(manager),
        Err(ReadFault::Memory) => Manager::load(alloc, bytes),
        Err(fault) => Err(fault),
    }
}

/// The manager of a savestate, which can be refused for want of memory alone.
fn loaded_again(
    rt: &impl Abort,
    alloc: Global,
    bytes: &[u8],
) -> Result<Manager<LockedPins>, Fault> {
    match loaded(alloc, bytes) {
        Ok(manager) => Ok(manager),
        Err(fault) => {
            same(rt, fault, ReadFault::Memory);
            Err(Fault::Memory)
        }
    }
}

/// Asserts that a manager is saved as these bytes.
fn is_saved_as<K: PinKeeper>(
    rt: &impl Abort,
    alloc: Global,
    manager: &Manager<K>,
    bytes: &[u8],
) -> Result<(), AllocError> {
    let again = saved(alloc, manager)?;
    holds(rt, again.as_slice() == bytes);
    Ok(())
}

/// Some calls, what a manager is saved as before them, and what behind.
#[derive(Drop)]
struct Course<'a> {
    before: &'a [u8],
    calls: &'a [Line<'a>],
    behind: &'a [u8],
}

/// Asserts that a manager that was loaded goes the same course as the one that was saved.
fn goes_on<K: PinKeeper>(
    rt: &impl Abort,
    alloc: Global,
    manager: &mut Manager<K>,
    course: &Course<'_>,
) -> Result<(), Fault> {
    is_saved_as(rt, alloc, manager, course.before)?;
    answers(rt, alloc, manager, course.calls)?;
    is_saved_as(rt, alloc, manager, course.behind)?;
    Ok(())
}

/// The same over the keeper under a lock with which it was loaded.
fn goes_on_locked(rt: &impl Abort, alloc: Global, course: &Course<'_>) -> Result<(), Fault> {
    let mut manager = loaded_again(rt, alloc, course.before)?;
    let gone = goes_on(rt, alloc, &mut manager, course);
    drop(manager);
    gone
}

/// A keeper without a lock that begins with the slots of a manager, asked for again where memory was wanting.
fn keeper_for(alloc: Global, manager: &Manager<LockedPins>) -> Result<Keeper, Fault>
    ensures { IfOk result (λ keeper. IsFreshWith (state_of keeper) (shape_of manager.now.state.limits)
        manager.now.keeper.slots) }
{
    let (keeper, _) = match manager.words(alloc) {
        Ok(parts) => parts,
        Err(_) => manager.words(alloc)?,
    };
    Ok(keeper)
}

/// The manager of a savestate over a keeper without a lock.
fn loaded_in_words(rt: &impl Abort, alloc: Global, bytes: &[u8]) -> Result<Manager<Keeper>, Fault> {
    let manager = loaded_again(rt, alloc, bytes)?;
    match keeper_for(alloc, &manager) {
        Ok(keeper) => Ok(manager.over(keeper)),
        Err(fault) => {
            drop(manager);
            Err(fault)
        }
    }
}

/// The same over a keeper without a lock.
fn goes_on_in_words(rt: &impl Abort, alloc: Global, course: &Course<'_>) -> Result<(), Fault> {
    let mut manager = loaded_in_words(rt, alloc, course.before)?;
    let gone = goes_on(rt, alloc, &mut manager, course);
    drop(manager);
    gone
}

/// Plays calls, saves the manager, and plays further calls over it and over those that were loaded.
pub(super) fn all_go_on(
    rt: &impl Abort,
    alloc: Global,
    manager: &mut Manager<LockedPins>,
    first: &[Line<'_>],
    calls: &[Line<'_>],
) -> Result<(), Fault> {
    answers(rt, alloc, manager, first)?;
    let before = saved(alloc, manager)?;
    answers(rt, alloc, manager, calls)?;
    let behind = saved(alloc, manager)?;
    let course = Course {
        before: before.as_slice(),
        calls,
        behind: behind.as_slice(),
    };
    goes_on_locked(rt, alloc, &course)?;
    goes_on_in_words(rt, alloc, &course)
}

/// Plays calls, saves the manager, and plays further calls over what is loaded of that with an edit.
pub(super) fn goes_on_edited(
    rt: &impl Abort,
    alloc: Global,
    manager: &mut Manager<LockedPins>,
    first: &[Line<'_>],
    edit: &Edit<'_>,
    calls: &[Line<'_>],
) -> Result<(), Fault> {
    answers(rt, alloc, manager, first)?;
    let bytes = saved(alloc, manager)?;
    let Ok(text) = unseal(bytes.as_slice()) else {
        panic!(rt; "no savestate")
    };
    let bytes = edited(rt, alloc, text, edit)?;
    let mut loaded = loaded_again(rt, alloc, bytes.as_slice())?;
    let gone = answers(rt, alloc, &mut loaded, calls);
    drop(loaded);
    gone
}

#[test]
fn a_manager_is_saved_and_loaded(rt: HostRuntime) -> Result<(), Fail> {
    let limits = Limits::checked(16, 4, 8, 8, 8, 4, 2, 4)?;
    over_locked(&rt, rt.alloc(), limits, Scene::Saves(BEFORE, BEHIND))?;
    Ok(())
}

#[test]
fn an_empty_manager_is_saved_and_loaded(rt: HostRuntime) -> Result<(), Fail> {
    let limits = Limits::checked(16, 4, 8, 8, 8, 4, 2, 4)?;
    over_locked(&rt, rt.alloc(), limits, Scene::Saves(&[], BEFORE))?;
    Ok(())
}

/// A mutex that thread 1 owns, an event that thread 2 waits for, and a slot that is free.
#[rattlefmt::skip]
const SMALL: &[Line<'static>] = &[
    (Spawn { session: 1 }, Spawned { process: 1, thread: 1 }),
    (StartThread { process: 1 }, Started { thread: 2 }),
    (MakeMutex { thread: 1, make: NAMED_A, owned: true }, Made { handle: 4, id: FIRST }),
    (MakeEvent { thread: 1, make: NAMED_E, manual: false, set: false }, Made { handle: 8, id: SECOND }),
    (WaitFor { thread: 2, mode: ANY, timeout: Infinite, handles: &[8] }, Pending { wait: 1 }),
];

/// A place of a text, the bytes that stand there, other bytes for them, and the fault of the text with these, if it
/// has one.
pub(super) type Edit<'a> = (usize, &'a [u8], &'a [u8], Option<TextFault>);

/// What the text has of that wait behind its deadline.
const PENDING: &[u8] = &[0, 1, 0, 0, 0, 1, 0, 0, 0, 1, 0, 0, 0];

/// Edits of what was saved behind these calls.
#[rattlefmt::skip]
const EDITS: &[Edit<'static>] = &[
    // another mark, another version, no slot, and a moment after the last
    (0, b"OBJS", b"OBJT", Some(TextFault::Value)),
    (4, &[1, 0], &[2, 0], Some(TextFault::Value)),
    (8, &[3, 0], &[0, 0], Some(TextFault::Value)),
    (46, &[0, 0], &[0, 255], Some(TextFault::Value)),
    // counts of more than may stand there, before what they count: process and thread numbers, tables, places, waits,
    // and the objects of one
    (48, &[2, 0, 0, 0], &[6, 0, 0, 0], Some(TextFault::Value)),
    (58, &[3, 0, 0, 0], &[6, 0, 0, 0], Some(TextFault::Value)),
    (73, &[2, 0, 0, 0], &[255, 255, 255, 255], Some(TextFault::Value)),
    (81, &[2, 0, 0, 0], &[1, 64, 0, 0], Some(TextFault::Value)),
    (123, &[1, 0, 0, 0], &[4, 0, 0, 0], Some(TextFault::Value)),
    (137, &[1, 0, 0, 0], &[65, 0, 0, 0], Some(TextFault::Value)),
    // number 0 of a process, and a list without it
    (52, &[0], &[1, 0, 0, 0, 0], Some(TextFault::Value)),
    (48, &[2, 0, 0, 0, 0, 1, 1, 0, 0, 0], &[0, 0, 0, 0], Some(TextFault::Value)),
    // thread 2 of a process that isn't there
    (69, &[1, 0], &[2, 0], Some(TextFault::Value)),
    // a table too many, and one too few
    (73, &[2, 0, 0, 0], &[3, 0, 0, 0, 0, 0, 0, 0], Some(TextFault::Value)),
    (73, &[2, 0, 0, 0, 0, 0, 0, 0], &[1, 0, 0, 0], Some(TextFault::Value)),
    // entries of a free slot, and of a generation that isn't there
    (86, &[0, 0, 0, 0, 1, 0, 0, 0], &[2, 0, 0, 0, 1, 0, 0, 0], Some(TextFault::Value)),
    (86, &[0, 0, 0, 0, 1, 0, 0, 0], &[0, 0, 0, 0, 2, 0, 0, 0], Some(TextFault::Value)),
    // more wait numbers than the limit lets, and one past the last
    (119, &[1, 0, 0, 0], &[5, 0, 0, 0], Some(TextFault::Value)),
    (127, &[1, 0, 0, 0], &[2, 0, 0, 0], Some(TextFault::Value)),
    // a wait of a thread that isn't there, and for an object that isn't
    (131, &[2, 0], &[3, 0], Some(TextFault::Value)),
    (141, &[1, 0, 0, 0, 1, 0, 0, 0], &[1, 0, 0, 0, 2, 0, 0, 0], Some(TextFault::Value)),
    // answers: an index, that of an abandoned mutex, that an alert came, and that the time was up, each beside codes
    // that are none
    (136, PENDING, &[2, 63, 0, 0, 0], None),
    (136, PENDING, &[2, 64, 0, 0, 0], Some(TextFault::Value)),
    (136, PENDING, &[2, 127, 0, 0, 0], Some(TextFault::Value)),
    (136, PENDING, &[2, 128, 0, 0, 0], None),
    (136, PENDING, &[2, 191, 0, 0, 0], None),
    (136, PENDING, &[2, 192, 0, 0, 0], None),
    (136, PENDING, &[2, 193, 0, 0, 0], Some(TextFault::Value)),
    (136, PENDING, &[2, 1, 1, 0, 0], Some(TextFault::Value)),
    (136, PENDING, &[2, 2, 1, 0, 0], None),
    (136, PENDING, &[2, 3, 1, 0, 0], Some(TextFault::Value)),
    // owners: one that isn't live, and another that is
    (177, &[1, 1, 0], &[1, 3, 0], Some(TextFault::Value)),
    (177, &[1, 1, 0], &[1, 2, 0], None),
    // names: one that two have, and another
    (196, b"A", b"E", Some(TextFault::Value)),
    (196, b"A", b"B", None),
    // bytes that no name has, each beside one that names have, a name without bytes, and a count of too many
    (196, b"A", &[31], Some(TextFault::Value)),
    (196, b"A", b" ", None),
    (196, b"A", b"~", None),
    (196, b"A", &[127], Some(TextFault::Value)),
    (196, b"A", b"\\", Some(TextFault::Value)),
    (192, &[1, 0, 0, 0, 65], &[0, 0, 0, 0], Some(TextFault::Value)),
    (192, &[1, 0, 0, 0], &[0, 1, 0, 0], Some(TextFault::Short)),
    // the event is set, so that the wait for it is satisfied
    (224, &[0, 0, 0], &[0, 0, 1], Some(TextFault::Value)),
    // the free slot: of generation 0, past the last, of another, and retired before the last
    (237, &[1, 0, 0, 0], &[0, 0, 0, 0], Some(TextFault::Value)),
    (237, &[1, 0, 0, 0], &[5, 0, 0, 0], Some(TextFault::Value)),
    (237, &[1, 0, 0, 0], &[2, 0, 0, 0], None),
    (237, &[1, 0, 0, 0, 0], &[1, 0, 0, 0, 1], Some(TextFault::Value)),
    (237, &[1, 0, 0, 0, 0], &[4, 0, 0, 0, 1], None),
    // a flag that says nothing, a byte too few, and one too many
    (241, &[0, 0], &[2, 0], Some(TextFault::Tag)),
    (241, &[0, 0], &[0], Some(TextFault::Short)),
    (241, &[0, 0], &[0, 0, 0], Some(TextFault::Trailing)),
];

/// A timer that is set, a mutex that thread 1 owns, a semaphore, and a process that is gone.
#[rattlefmt::skip]
const KINDS: &[Line<'static>] = &[
    (Spawn { session: 1 }, Spawned { process: 1, thread: 1 }),
    (Spawn { session: 1 }, Spawned { process: 2, thread: 2 }),
    (MakeTimer { thread: 1, make: PLAIN, manual: false }, Made { handle: 4, id: FIRST }),
    (SetTimer { thread: 1, handle: 4, due: -50_000 }, Done),
    (MakeMutex { thread: 1, make: PLAIN, owned: true }, Made { handle: 8, id: SECOND }),
    (MakeSemaphore { thread: 1, make: PLAIN, initial: 1, max: 2 }, Made { handle: 12, id: THIRD }),
    (Exit { process: 2 }, Exited { process: 2 }),
];

/// Edits of what was saved behind these.
#[rattlefmt::skip]
const EDITS_OF_KINDS: &[Edit<'static>] = &[
    // the timer: signaled while it is set, with a period too, signaled and set no longer, due already, and of the other
    // kind
    (174, &[0, 1], &[1, 1], Some(TextFault::Value)),
    (172, &[3, 0, 0, 1, 80, 195, 0, 0, 0, 0, 0, 0], &[5, 0, 1, 1, 80, 195, 0, 0, 0, 0, 0, 0, 1, 0, 0, 0], None),
    (174, &[0, 1, 80, 195, 0, 0, 0, 0, 0, 0], &[1, 0], None),
    (176, &[80, 195], &[0, 0], Some(TextFault::Value)),
    (173, &[0], &[1], Some(TextFault::Value)),
    // the mutex: owned no times, owned and abandoned, nobody's but owned once, and nobody's and abandoned
    (218, &[1, 0, 0, 0], &[0, 0, 0, 0], Some(TextFault::Value)),
    (222, &[0], &[1], Some(TextFault::Value)),
    (213, &[1, 1, 0, 0, 0, 1, 0, 0, 0, 0], &[0, 1, 0, 0, 0, 0], Some(TextFault::Value)),
    (213, &[1, 1, 0, 0, 0, 1, 0, 0, 0, 0], &[0, 0, 0, 0, 0, 1], None),
    // a process without a thread, and the same with one
    (58, &[0], &[1, 1, 0, 0, 0], Some(TextFault::Value)),
    (58, &[0, 3, 0, 0, 0, 0, 1, 1, 0, 0, 0, 0], &[1, 1, 0, 0, 0, 3, 0, 0, 0, 0, 1, 1, 0, 0, 0, 1, 2, 0, 0, 0], None),
    // a handle of the process that is gone, and a place that has none
    (133, &[0, 0, 0, 0], &[1, 0, 0, 0, 1, 0, 0, 0, 0, 1, 0, 0, 0, 3, 0, 31, 0, 0, 0, 0, 0], Some(TextFault::Value)),
    (133, &[0, 0, 0, 0], &[1, 0, 0, 0, 0], Some(TextFault::Value)),
    // the same of number 0
    (74, &[0, 0, 0, 0], &[1, 0, 0, 0, 0], Some(TextFault::Value)),
    // the semaphore: past its maximum, at it, and without one, in its descriptor too
    (252, &[1], &[3], Some(TextFault::Value)),
    (252, &[1], &[2], None),
    (252, &[1, 0, 0, 0, 2], &[0, 0, 0, 0, 0], Some(TextFault::Value)),
    (238, &[18], &[2], Some(TextFault::Value)),
];

/// An object of the host's own, by a name.
#[rattlefmt::skip]
const HOSTED: &[Line<'static>] = &[
    (Spawn { session: 1 }, Spawned { process: 1, thread: 1 }),
    (MakeHost { thread: 1, make: NAMED_A, object_type: 7, manual: false, signaled: true }, Made { handle: 4, id: FIRST }),
];

/// Calls whose replies depend on each of its parts.
#[rattlefmt::skip]
const BEHIND_HOSTED: &[Line<'static>] = &[
    (OpenNamed { thread: 1, kind: Kind::Host(8), mask: Rights::SYNCHRONIZE, inherit: false, text: b"A" },
        Refused(Fault::Handle)),
    (OpenNamed { thread: 1, kind: Kind::Host(7), mask: Rights::SYNCHRONIZE, inherit: false, text: b"A" },
        Opened { handle: 8, id: FIRST }),
    (SetEvent { thread: 1, handle: 4 }, Refused(Fault::Handle)),
    (WaitFor { thread: 1, mode: ANY, timeout: Zero, handles: &[8] }, Code { code: 0 }),
    (WaitFor { thread: 1, mode: ANY, timeout: Zero, handles: &[4] }, Code { code: 258 }),
    (SignalHost { id: FIRST, signaled: true }, Done),
    (WaitFor { thread: 1, mode: ANY, timeout: Zero, handles: &[4] }, Code { code: 0 }),
];

/// Edits of what was saved before these.
#[rattlefmt::skip]
const EDITS_OF_HOSTED: &[Edit<'static>] = &[
    // the last type, and one past it
    (133, &[7, 0, 0, 0], &[255, 0, 0, 0], None),
    (133, &[7, 0, 0, 0], &[0, 1, 0, 0], Some(TextFault::Value)),
    // an event in its place, and a kind that is none
    (132, &[4, 7, 0, 0, 0, 0, 1], &[0, 0, 1], None),
    (132, &[4], &[6], Some(TextFault::Tag)),
    // reset by hand in its descriptor alone, and in both
    (119, &[0], &[4], Some(TextFault::Value)),
    (119, &[0, 0, 0, 0, 0, 0, 0, 0, 255, 255, 31, 0, 1, 4, 7, 0, 0, 0, 0],
        &[4, 0, 0, 0, 0, 0, 0, 0, 255, 255, 31, 0, 1, 4, 7, 0, 0, 0, 1], None),
];

/// A text with other bytes at a place, and behind it its digest.
fn edited(
    rt: &impl Abort,
    alloc: Global,
    text: &[u8],
    edit: &Edit<'_>,
) -> Result<Vec<u8>, AllocError> {
    let (at, old, new, _) = *edit;
    holds(rt, at <= text.len());
    let (front, rest) = text.split_at(at);
    holds(rt, old.len() <= rest.len());
    let (found, back) = rest.split_at(old.len());
    holds(rt, found == old);
    let mut bytes = Vec::from_slice(alloc, front)?;
    bytes.extend_from_slice(new)?;
    bytes.extend_from_slice(back)?;
    seal(&mut bytes)?;
    Ok(bytes)
}

/// Why bytes aren't loaded, if they aren't.
fn load_fault(alloc: Global, bytes: &[u8]) -> Option<ReadFault> {
    match loaded(alloc, bytes) {
        Ok(manager) => {
            drop(manager);
            None
        }
        Err(fault) => Some(fault),
    }
}

/// A fault of a text as that of a load.
fn due(fault: Option<TextFault>) -> Option<ReadFault> {
    Some(ReadFault::Text(fault?))
}

/// Asserts of each edit of a text that its fault is told.
fn edits_are_told(
    rt: &impl Abort,
    alloc: Global,
    text: &[u8],
    edits: &[Edit<'_>],
) -> Result<(), AllocError> {
    for (place, edit) in edits.iter().enumerate() {
        let bytes = edited(rt, alloc, text, edit)?;
        same_at(rt, load_fault(alloc, bytes.as_slice()), due(edit.3), place);
    }
    Ok(())
}

/// Asserts that bytes are refused in which one is another, and those before it alone.
fn changes_are_refused(rt: &impl Abort, alloc: Global, bytes: &mut Vec<u8>) {
    for at in 0..bytes.len() {
        let cut = if at < 32 {
            TextFault::Short
        } else {
            TextFault::Digest
        };
        same_at(rt, load_fault(alloc, &bytes[..at]), due(Some(cut)), at);
        bytes[at] ^= 1;
        same_at(
            rt,
            load_fault(alloc, bytes.as_slice()),
            due(Some(TextFault::Digest)),
            at,
        );
        bytes[at] ^= 1;
    }
}

/// The same of the text in a savestate, which has so many bytes.
fn edits_are_refused(
    rt: &impl Abort,
    alloc: Global,
    bytes: &[u8],
    len: usize,
    edits: &[Edit<'_>],
) -> Result<(), AllocError> {
    let Ok(text) = unseal(bytes) else {
        panic!(rt; "no savestate")
    };
    same(rt, text.len(), len);
    edits_are_told(rt, alloc, text, edits)
}

/// Tries what is saved, edited, cut, changed and with a byte more.
fn spoils(
    rt: &impl Abort,
    alloc: Global,
    bytes: &mut Vec<u8>,
    len: usize,
    edits: &[Edit<'_>],
) -> Result<(), AllocError> {
    edits_are_refused(rt, alloc, bytes.as_slice(), len, edits)?;
    changes_are_refused(rt, alloc, bytes);
    same(rt, load_fault(alloc, bytes.as_slice()), None);
    bytes.push(0)?;
    let digest = due(Some(TextFault::Digest));
    same(rt, load_fault(alloc, bytes.as_slice()), digest);
    Ok(())
}

/// Plays calls, and tries to spoil what is saved then.
pub(super) fn tries_edits(
    rt: &impl Abort,
    alloc: Global,
    manager: &mut Manager<LockedPins>,
    calls: &[Line<'_>],
    len: usize,
    edits: &[Edit<'_>],
) -> Result<(), Fault> {
    answers(rt, alloc, manager, calls)?;
    let mut bytes = saved(alloc, manager)?;
    spoils(rt, alloc, &mut bytes, len, edits)?;
    Ok(())
}

#[test]
fn what_is_no_savestate_is_refused(rt: HostRuntime) -> Result<(), Fail> {
    let limits = Limits::checked(3, 4, 4, 4, 4, 4, 4, 4)?;
    over_locked(&rt, rt.alloc(), limits, Scene::Edits(SMALL, 243, EDITS))?;
    Ok(())
}

#[test]
fn kinds_that_no_calls_make_are_refused(rt: HostRuntime) -> Result<(), Fail> {
    let limits = Limits::checked(5, 4, 4, 4, 4, 4, 4, 4)?;
    let scene = Scene::Edits(KINDS, 273, EDITS_OF_KINDS);
    over_locked(&rt, rt.alloc(), limits, scene)?;
    Ok(())
}

#[test]
fn an_object_of_the_host_s_own_is_saved_and_loaded(rt: HostRuntime) -> Result<(), Fail> {
    let limits = Limits::checked(1, 4, 4, 4, 4, 4, 4, 4)?;
    over_locked(&rt, rt.alloc(), limits, Scene::Saves(HOSTED, BEHIND_HOSTED))?;
    let scene = Scene::Edits(HOSTED, 149, EDITS_OF_HOSTED);
    over_locked(&rt, rt.alloc(), limits, scene)?;
    Ok(())
}
