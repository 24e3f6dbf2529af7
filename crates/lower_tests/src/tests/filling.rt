//! Limits at their ends: what is made until there is no more.
use super::playing::{Scene, answers, over_locked, reply_to};
use super::same;
use call_tables::{Line, PLAIN};
use ob_manager::CallOf::{Child, Duplicate, MakeEvent, Spawn, StartThread};
use ob_manager::Reply::{Made, Refused, Spawned, Started};
use ob_manager::{Limits, Manager};
use ob_rights::{Fault, Rights};
use pin_core::Id;
use pin_words::LockedPins;
use std::alloc::Global;
use std::process::Abort;
use std::test::Fail;

/// What is made again and again.
#[derive(Clone, Copy)]
pub(super) enum Fill {
    /// So many processes, from number 1 on, each with a thread of its number.
    Processes(u32),
    /// The threads after the first one, up to this one, of process 1.
    Threads(u32),
    /// So many events of a thread, in the slots from the second number on, with handles from 4 on.
    Events(u32, u32, u32),
}

/// The call that makes the next one behind so many, and its reply.
fn next(fill: Fill, made: u32) -> Line<'static> {
    match fill {
        Fill::Processes(_) => {
            let (process, thread) = (made.saturating_add(1), made.saturating_add(1));
            (Spawn { session: 1 }, Spawned { process, thread })
        }
        Fill::Threads(_) => {
            let thread = made.saturating_add(2);
            (StartThread { process: 1 }, Started { thread })
        }
        Fill::Events(thread, slot, _) => {
            let handle = made.saturating_mul(4).saturating_add(4);
            let id = Id {
                slot: slot.saturating_add(made),
                generation: 1,
            };
            let event = MakeEvent {
                thread,
                make: PLAIN,
                manual: false,
                set: false,
            };
            (event, Made { handle, id })
        }
    }
}

/// How many are made.
fn count(fill: Fill) -> u32 {
    match fill {
        Fill::Processes(many) | Fill::Events(_, _, many) => many,
        Fill::Threads(last) => last.saturating_sub(1),
    }
}

/// Makes all, each as it is due.
fn fills(
    rt: &impl Abort,
    alloc: Global,
    manager: &mut Manager<LockedPins>,
    fill: Fill,
) -> Result<(), Fault> {
    for made in 0..count(fill) {
        let (ask, due) = next(fill, made);
        same(rt, reply_to(alloc, manager, &ask)?, due);
    }
    Ok(())
}

/// Limits, what is made until there is no more, and what is refused then.
type Row<'a> = ([u32; 8], &'a [Fill], &'a [Line<'a>]);

#[rattlefmt::skip]
const ROWS: &[Row<'static>] = &[
    // all processes: with the last of them the last thread is given too
    ([1, 65_536, 65_536, 1, 1, 1, 1, 1], &[Fill::Processes(65_536)], &[
        (Spawn { session: 1 }, Refused(Fault::Limit)),
        (Child { thread: 65_536, inherit: true }, Refused(Fault::Limit)),
        (StartThread { process: 65_536 }, Refused(Fault::Limit)),
    ]),
    // all threads, of one process
    ([1, 65_536, 65_536, 1, 1, 1, 1, 1], &[Fill::Processes(1), Fill::Threads(65_536)], &[
        (StartThread { process: 1 }, Refused(Fault::Limit)),
        (Spawn { session: 1 }, Refused(Fault::Limit)),
    ]),
    // all slots, by four processes of which each has all handles that it may
    ([65_536, 8, 8, 16_384, 1, 1, 2, 1], &[
        Fill::Processes(5),
        Fill::Events(1, 0, 16_384),
        Fill::Events(2, 16_384, 16_384),
        Fill::Events(3, 32_768, 16_384),
        Fill::Events(4, 49_152, 16_384),
    ], &[
        (Duplicate {
            thread: 1, source: 1, handle: 65_536, target: Some(1), mask: Rights(0), inherit: false, options: 2,
        }, Refused(Fault::Limit)),
        (MakeEvent { thread: 5, make: PLAIN, manual: false, set: false }, Refused(Fault::Limit)),
    ]),
];

/// Makes all that there may be, and calls behind that.
pub(super) fn fills_all(
    rt: &impl Abort,
    alloc: Global,
    manager: &mut Manager<LockedPins>,
    all: &[Fill],
    table: &[Line<'_>],
) -> Result<(), Fault> {
    for fill in all {
        fills(rt, alloc, manager, *fill)?;
    }
    answers(rt, alloc, manager, table)
}

/// The limits of a row.
fn limits_of(row: &Row<'_>) -> Result<Limits, Fault> {
    let [
        slots,
        processes,
        threads,
        handles,
        waits,
        pins,
        generations,
        recursion,
    ] = row.0;
    Limits::checked(
        slots,
        processes,
        threads,
        handles,
        waits,
        pins,
        generations,
        recursion,
    )
}

#[test]
fn processes_threads_handles_and_slots_run_out(rt: HostRuntime) -> Result<(), Fail> {
    for row in ROWS {
        let scene = Scene::Fills(row.1, row.2);
        over_locked(&rt, rt.alloc(), limits_of(row)?, scene)?;
    }
    Ok(())
}
