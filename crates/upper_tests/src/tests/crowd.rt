//! Sixty-four members at once.
use super::holds;
use super::members::{Deed, Script};
use super::opening::{Scene, over_shared};
use super::playing::is_answered_at;
use call_tables::{Line, PLAIN};
use ob_manager::CallOf::{
    CloseHandle, Counts, Duplicate, MakeEvent, MakeMutex, MakeSemaphore, Reap, ReleaseMutex,
    ReleaseSemaphore, ResetEvent, SetEvent, Spawn, StartThread, WaitFor,
};
use ob_manager::Reply::{Made, Spawned, Started};
use ob_manager::{Limits, Make, Mode, Reply, Timeout};
use ob_rights::{Fault, Rights};
use ob_shared::{Lane, Member, Seen, Shared};
use pin_core::Id;
use std::alloc::Global;
use std::process::Abort;
use std::sync::Wait;
use std::test::Fail;

/// How many members there are.
const MEMBERS: usize = 64;

/// How many acts each of them does.
pub(super) const ACTS: usize = 1_000;

/// How many acts there are until they begin again.
const ROUND: usize = 22;

/// The process whose objects nobody closes.
const LASTING: u32 = 65;

/// An event by a name that all members of a session use.
const NAMED: Make<'static> = Make {
    name: Some(b"crowd"),
    inherit: false,
    access: None,
    grant: None,
};

/// The acts of a round, of a member that has one process with a thread that calls and a thread that waits. What it
/// pins, if it is there, is in an even slot, and those in odd slots are taken back, so that nobody holds what is taken
/// back. It waits for what it sees to before it blocks.
#[rattlefmt::skip]
fn acts_of(caller: u32, waiter: u32, id: Id, slot: u32) -> [Deed<'static>; ROUND] {
    [
        Deed::Ask(MakeEvent { thread: caller, make: PLAIN, manual: false, set: false }),
        Deed::Ask(MakeSemaphore { thread: caller, make: PLAIN, initial: 0, max: 9 }),
        Deed::Ask(WaitFor { thread: waiter, mode: Mode::Any, timeout: Timeout::Infinite, handles: &[4, 8] }),
        Deed::Pin(id),
        Deed::Ask(MakeEvent { thread: caller, make: NAMED, manual: true, set: false }),
        Deed::Ask(SetEvent { thread: caller, handle: 4 }),
        Deed::Ask(ReleaseSemaphore { thread: caller, handle: 8, count: 1 }),
        Deed::ShowCard(id),
        Deed::Block,
        Deed::Ask(WaitFor { thread: caller, mode: Mode::All, timeout: Timeout::Zero, handles: &[8] }),
        Deed::Ask(MakeMutex { thread: caller, make: PLAIN, owned: true }),
        Deed::Ask(Counts { id }),
        Deed::Ask(ReleaseMutex { thread: caller, handle: 16 }),
        Deed::Ask(Duplicate {
            thread: caller, source: caller, handle: 4, target: Some(caller),
            mask: Rights(0), inherit: false, options: 2,
        }),
        Deed::Unpin(id),
        Deed::Ask(CloseHandle { thread: caller, handle: 20 }),
        Deed::Ask(CloseHandle { thread: caller, handle: 16 }),
        Deed::Ask(CloseHandle { thread: caller, handle: 12 }),
        Deed::Ask(ResetEvent { thread: caller, handle: 4 }),
        Deed::Ask(CloseHandle { thread: caller, handle: 8 }),
        Deed::Ask(CloseHandle { thread: caller, handle: 4 }),
        Deed::Ask(Reap { slot }),
    ]
}

/// The act of a member at a place. It uses one process, with a thread that calls and a thread that waits: each of the
/// number of its lane.
pub(super) fn deed(number: u32, place: usize) -> Deed<'static> {
    let round = u32::try_from(place / ROUND).unwrap_or(0);
    let id = Id {
        slot: (number % 8 + round % 8) % 8 * 2,
        generation: 1,
    };
    let slot = number % 100 * 2 + round % 100 * 128 + 17;
    acts_of(number, number % 100 + LASTING, id, slot)[place % ROUND]
}

/// How many calls lane 0 makes: a process for each member, and the lasting one; a second thread for each member; and
/// eight objects that stay.
const BEGINNING: u32 = 2 * LASTING + 7;

/// The call of lane 0 at a place.
fn beginning(place: u32) -> Line<'static> {
    let number = place % LASTING + 1;
    if place < LASTING {
        let spawned = Spawned {
            process: number,
            thread: number,
        };
        return (
            Spawn {
                session: number % 3,
            },
            spawned,
        );
    }
    if place < 2 * LASTING - 1 {
        let thread = number + LASTING;
        return (StartThread { process: number }, Started { thread });
    }
    let slot = (place - (2 * LASTING - 1)) % LASTING;
    let event = MakeEvent {
        thread: LASTING,
        make: PLAIN,
        manual: false,
        set: false,
    };
    let id = Id {
        slot,
        generation: 1,
    };
    let handle = slot * 4 + 4;
    (event, Made { handle, id })
}

/// The calls of lane 0.
pub(super) fn begins<R: Abort + Wait>(
    rt: &R,
    alloc: Global,
    shared: &Shared,
    lanes: &mut Vec<Lane>,
) -> Result<(), Fault> {
    for place in 0..BEGINNING {
        let line = beginning(place);
        holds(rt, is_answered_at(rt, alloc, shared, lanes, 0, line)?);
    }
    Ok(())
}

/// Whether all waits of a member were answered, and it has pinned something.
pub(super) fn is_done(member: &Member) -> bool {
    let seen = member.seen.as_slice();
    let blocked = Seen::Blocked(Some(Reply::Code { code: 0 }));
    let waits = seen.iter().filter(|answer| **answer == blocked).count();
    let pins = seen
        .iter()
        .filter(|answer| matches!(**answer, Seen::Pinned(Ok(_))))
        .count();
    waits == 46 && pins > 0
}

#[test]
fn a_crowd_leaves_one_history(rt: HostRuntime) -> Result<(), Fail> {
    let limits = Limits::checked(16_384, 100, 200, 64, 10_000, 1_000, 4_294_967_295, 4)?;
    let scene = Scene::Members(Script::Crowd);
    over_shared(&rt, rt.alloc(), limits, MEMBERS, scene)?;
    Ok(())
}
