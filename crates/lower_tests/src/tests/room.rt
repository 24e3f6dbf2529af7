//! What can still come.
use super::playing::{Scene, answers, over_locked};
use super::{FIRST, SECOND, same_at};
use call_tables::{Line, PLAIN};
use ob_manager::CallOf::{CloseHandle, EndThread, Exit, MakeEvent, Reap, Spawn, StartThread};
use ob_manager::Reply::{Closed, Ended, Exited, Made, Reaped, Refused, Spawned, Started};
use ob_manager::{Limits, Manager, Room};
use ob_rights::Fault;
use pin_words::{LockedPins, Reclaim};
use std::alloc::Global;
use std::process::Abort;
use std::test::Fail;

/// Calls, and what can still come behind them, with the handles of a process.
pub(super) type Left<'a> = (&'a [Line<'a>], u32, Room);

/// At most two slots of one generation, two processes with two handles each, and three threads. All is used up, and a
/// slot is retired.
#[rattlefmt::skip]
const USED_UP: &[Left<'static>] = &[
    (&[], 0, Room { slots: 2, processes: 2, threads: 3, handles: 0, waits: 0 }),
    (&[(Spawn { session: 1 }, Spawned { process: 1, thread: 1 })],
     1, Room { slots: 2, processes: 1, threads: 2, handles: 2, waits: 0 }),
    (&[(MakeEvent { thread: 1, make: PLAIN, manual: false, set: false }, Made { handle: 4, id: FIRST })],
     1, Room { slots: 1, processes: 1, threads: 2, handles: 1, waits: 0 }),
    (&[(Spawn { session: 1 }, Spawned { process: 2, thread: 2 }),
       (StartThread { process: 1 }, Started { thread: 3 })],
     2, Room { slots: 1, processes: 0, threads: 0, handles: 2, waits: 0 }),
    (&[(MakeEvent { thread: 1, make: PLAIN, manual: false, set: false }, Made { handle: 8, id: SECOND })],
     1, Room { slots: 0, processes: 0, threads: 0, handles: 0, waits: 0 }),
    (&[(CloseHandle { thread: 1, handle: 4 }, Closed),
       (MakeEvent { thread: 1, make: PLAIN, manual: false, set: false }, Refused(Fault::Limit))],
     1, Room { slots: 0, processes: 0, threads: 0, handles: 1, waits: 0 }),
    (&[(Reap { slot: 0 }, Reaped { id: FIRST, outcome: Reclaim::Retired })],
     3, Room { slots: 0, processes: 0, threads: 0, handles: 0, waits: 0 }),
];

/// Then threads end, and a process, where numbers are given once.
#[rattlefmt::skip]
const FOR_GOOD: &[Left<'static>] = &[
    (&[(EndThread { thread: 3 }, Ended { thread: 3 }), (Exit { process: 2 }, Exited { process: 2 })],
     2, Room { slots: 0, processes: 0, threads: 0, handles: 0, waits: 0 }),
    (&[(StartThread { process: 1 }, Refused(Fault::Limit)), (Spawn { session: 1 }, Refused(Fault::Limit))],
     1, Room { slots: 0, processes: 0, threads: 0, handles: 1, waits: 0 }),
];

/// And where they come back.
#[rattlefmt::skip]
const COME_BACK: &[Left<'static>] = &[
    (&[(EndThread { thread: 3 }, Ended { thread: 3 })],
     2, Room { slots: 0, processes: 0, threads: 1, handles: 2, waits: 0 }),
    (&[(Exit { process: 2 }, Exited { process: 2 })],
     2, Room { slots: 0, processes: 1, threads: 2, handles: 0, waits: 0 }),
    (&[(StartThread { process: 1 }, Started { thread: 2 })],
     1, Room { slots: 0, processes: 1, threads: 1, handles: 1, waits: 0 }),
];

/// Makes the calls of each row, behind which there is as much left as is due.
pub(super) fn leaves(
    rt: &impl Abort,
    alloc: Global,
    manager: &mut Manager<LockedPins>,
    rows: &[Left<'_>],
) -> Result<(), Fault> {
    for (place, (table, process, due)) in rows.iter().enumerate() {
        answers(rt, alloc, manager, table)?;
        let room = manager.room(*process);
        same_at(rt, Room { waits: 0, ..room }, *due, place);
    }
    Ok(())
}

#[test]
fn what_can_still_come_is_told(rt: HostRuntime) -> Result<(), Fail> {
    let limits = Limits::checked(2, 2, 3, 2, 4, 4, 1, 4)?;
    over_locked(&rt, rt.alloc(), limits, Scene::Leaves(USED_UP, FOR_GOOD))?;
    let scene = Scene::Leaves(USED_UP, COME_BACK);
    over_locked(&rt, rt.alloc(), limits.with_reuse(true), scene)?;
    Ok(())
}
