//! Numbers that come back.
use super::playing::{Scene, answers, over_locked};
use super::saved::Edit;
use super::{FIRST, NAMED_A, NAMED_E, SECOND};
use call_tables::{Line, PLAIN};
use ob_codec::TextFault;
use ob_manager::CallOf::{
    Child, EndThread, Exit, Expire, MakeEvent, MakeMutex, ReleaseMutex, SetEvent, Spawn,
    StartThread, WaitFor, WaitResult,
};
use ob_manager::Reply::{
    Code, Done, Ended, Exited, Expired, Made, Pending, Refused, Spawned, Started,
};
use ob_manager::Timeout::{Infinite, Zero};
use ob_manager::{Limits, Make, Manager, Mode};
use ob_rights::Fault;
use pin_words::LockedPins;
use std::alloc::Global;
use std::process::Abort;
use std::test::Fail;

const INHERITED: Make<'static> = Make {
    name: None,
    inherit: true,
    access: None,
    grant: None,
};

/// At most two processes and three threads at a time. Each new one has the least number that no live one has, and nothing
/// of who had it before: no handle, no mutex.
#[rattlefmt::skip]
const BEFORE: &[Line<'static>] = &[
    (Spawn { session: 1 }, Spawned { process: 1, thread: 1 }),
    (Spawn { session: 2 }, Spawned { process: 2, thread: 2 }),
    (Spawn { session: 3 }, Refused(Fault::Limit)),
    (StartThread { process: 1 }, Started { thread: 3 }),
    (StartThread { process: 1 }, Refused(Fault::Limit)),
    (EndThread { thread: 1 }, Ended { thread: 1 }),
    (StartThread { process: 2 }, Started { thread: 1 }),
    (EndThread { thread: 1 }, Ended { thread: 1 }),
    (MakeEvent { thread: 3, make: INHERITED, manual: false, set: false }, Made { handle: 4, id: FIRST }),
    (Exit { process: 2 }, Exited { process: 2 }),
    (Child { thread: 3, inherit: true }, Spawned { process: 2, thread: 1 }),
    (SetEvent { thread: 1, handle: 4 }, Done),
    (MakeMutex { thread: 1, make: PLAIN, owned: true }, Made { handle: 8, id: SECOND }),
    (StartThread { process: 2 }, Started { thread: 2 }),
    (WaitFor { thread: 3, mode: Mode::Any, timeout: Infinite, handles: &[4] }, Code { code: 0 }),
    (WaitFor { thread: 3, mode: Mode::Any, timeout: Infinite, handles: &[4] }, Pending { wait: 3 }),
    (EndThread { thread: 1 }, Ended { thread: 1 }),
];

#[rattlefmt::skip]
const BEHIND: &[Line<'static>] = &[
    (StartThread { process: 2 }, Started { thread: 1 }),
    (StartThread { process: 2 }, Refused(Fault::Limit)),
    (WaitResult { wait: 1 }, Refused(Fault::Parameter)),
    (WaitResult { wait: 3 }, Pending { wait: 3 }),
    (Expire { wait: 3 }, Expired { wait: 3 }),
    (Expire { wait: 3 }, Refused(Fault::Parameter)),
    (WaitResult { wait: 3 }, Code { code: 258 }),
    (WaitResult { wait: 3 }, Refused(Fault::Parameter)),
    (WaitFor { thread: 1, mode: Mode::Any, timeout: Zero, handles: &[8] }, Code { code: 128 }),
    (EndThread { thread: 2 }, Ended { thread: 2 }),
    (EndThread { thread: 1 }, Ended { thread: 1 }),
    (StartThread { process: 2 }, Refused(Fault::Parameter)),
    (Spawn { session: 1 }, Spawned { process: 2, thread: 1 }),
    (SetEvent { thread: 1, handle: 4 }, Refused(Fault::Handle)),
    (SetEvent { thread: 3, handle: 4 }, Done),
];

/// A mutex that thread 1 owns, and an event that thread 2 waits for.
#[rattlefmt::skip]
const WAITED: &[Line<'static>] = &[
    (Spawn { session: 1 }, Spawned { process: 1, thread: 1 }),
    (StartThread { process: 1 }, Started { thread: 2 }),
    (MakeMutex { thread: 1, make: NAMED_A, owned: true }, Made { handle: 4, id: FIRST }),
    (MakeEvent { thread: 1, make: NAMED_E, manual: false, set: false }, Made { handle: 8, id: SECOND }),
    (WaitFor { thread: 2, mode: Mode::Any, timeout: Infinite, handles: &[8] }, Pending { wait: 2 }),
];

/// In what is saved then the number that was given to a wait last: 1, and the last one that there is.
const LAST_GIVEN: Edit<'static> = (119, &[1, 0, 0, 0], &[255, 255, 255, 255], None);

/// The next wait begins the numbers anew: who came first is first, and none is lost.
#[rattlefmt::skip]
const ANEW: &[Line<'static>] = &[
    (StartThread { process: 1 }, Started { thread: 3 }),
    (StartThread { process: 1 }, Started { thread: 4 }),
    (WaitFor { thread: 4, mode: Mode::Any, timeout: Infinite, handles: &[8] }, Pending { wait: 4 }),
    (WaitFor { thread: 3, mode: Mode::Any, timeout: Infinite, handles: &[8, 4] }, Pending { wait: 3 }),
    (SetEvent { thread: 1, handle: 8 }, Done),
    (WaitResult { wait: 3 }, Pending { wait: 3 }),
    (WaitResult { wait: 4 }, Pending { wait: 4 }),
    (WaitResult { wait: 2 }, Code { code: 0 }),
    (SetEvent { thread: 1, handle: 8 }, Done),
    (WaitResult { wait: 3 }, Pending { wait: 3 }),
    (WaitResult { wait: 4 }, Code { code: 0 }),
    (ReleaseMutex { thread: 1, handle: 4 }, Done),
    (WaitResult { wait: 3 }, Code { code: 1 }),
];

#[test]
fn numbers_of_waits_begin_anew(rt: HostRuntime) -> Result<(), Fail> {
    let limits = Limits::checked(3, 4, 4, 4, 4, 4, 4, 4)?;
    let scene = Scene::SavesEdited(WAITED, &LAST_GIVEN, ANEW);
    over_locked(&rt, rt.alloc(), limits.with_reuse(true), scene)?;
    Ok(())
}

/// An event in the first of five slots.
#[rattlefmt::skip]
const ONE: &[Line<'static>] = &[
    (Spawn { session: 1 }, Spawned { process: 1, thread: 1 }),
    (MakeEvent { thread: 1, make: PLAIN, manual: false, set: false }, Made { handle: 4, id: FIRST }),
];

/// What is saved of it: how many slots there are up to the last that ever had an object, and these.
#[rattlefmt::skip]
const ROWS: &[u8] = &[
    1, 0, 0, 0,
    1, 0, 0, 0, 0, 1, 0, 0, 0, 0, 0, 0, 0, 0, 0, 0, 0, 0, 0, 0, 0, 0, 3, 0, 31, 0, 1, 0, 0, 0, 0,
];

#[rattlefmt::skip]
const EDITS_OF_ROWS: &[Edit<'static>] = &[
    // more slots than there are, and none though an object is there
    (105, &[1, 0, 0, 0], &[6, 0, 0, 0], Some(TextFault::Value)),
    (105, ROWS, &[0, 0, 0, 0], Some(TextFault::Value)),
    // one behind it that had an object, and one that never had
    (105, ROWS, &[
        2, 0, 0, 0,
        1, 0, 0, 0, 0, 1, 0, 0, 0, 0, 0, 0, 0, 0, 0, 0, 0, 0, 0, 0, 0, 0, 3, 0, 31, 0, 1, 0, 0, 0, 0,
        2, 0, 0, 0, 0, 0,
    ], None),
    (105, ROWS, &[
        2, 0, 0, 0,
        1, 0, 0, 0, 0, 1, 0, 0, 0, 0, 0, 0, 0, 0, 0, 0, 0, 0, 0, 0, 0, 0, 3, 0, 31, 0, 1, 0, 0, 0, 0,
        1, 0, 0, 0, 0, 0,
    ], Some(TextFault::Value)),
];

#[test]
fn a_savestate_has_slots_up_to_the_last_that_was_used(rt: HostRuntime) -> Result<(), Fail> {
    let limits = Limits::checked(5, 4, 4, 4, 4, 4, 4, 4)?;
    let scene = Scene::Edits(ONE, 140, EDITS_OF_ROWS);
    over_locked(&rt, rt.alloc(), limits.with_reuse(true), scene)?;
    Ok(())
}

fn few() -> Result<Limits, Fault> {
    let limits = Limits::checked(8, 2, 3, 8, 8, 8, 8, 8)?;
    Ok(limits.with_reuse(true))
}

#[test]
fn numbers_come_back(rt: HostRuntime) -> Result<(), Fail> {
    over_locked(&rt, rt.alloc(), few()?, Scene::Saves(BEFORE, BEHIND))?;
    Ok(())
}

/// A thread that begins and ends, and a process that does.
#[rattlefmt::skip]
const ROUND: &[Line<'static>] = &[
    (StartThread { process: 1 }, Started { thread: 2 }),
    (EndThread { thread: 2 }, Ended { thread: 2 }),
    (Spawn { session: 1 }, Spawned { process: 2, thread: 2 }),
    (Exit { process: 2 }, Exited { process: 2 }),
];

/// More rounds than there are numbers.
pub(super) fn goes_round(
    rt: &impl Abort,
    alloc: Global,
    manager: &mut Manager<LockedPins>,
) -> Result<(), Fault> {
    answers(
        rt,
        alloc,
        manager,
        &[(
            Spawn { session: 1 },
            Spawned {
                process: 1,
                thread: 1,
            },
        )],
    )?;
    for _ in 0..70_000 {
        answers(rt, alloc, manager, ROUND)?;
    }
    Ok(())
}

#[test]
fn numbers_come_back_again_and_again(rt: HostRuntime) -> Result<(), Fail> {
    over_locked(&rt, rt.alloc(), few()?, Scene::GoesRound)?;
    Ok(())
}
