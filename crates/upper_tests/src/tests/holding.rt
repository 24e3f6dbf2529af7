//! Readers that hold an object.
use super::opening::{Scene, over_shared};
use super::playing::{answers, is_last};
use super::{FIRST, SECOND, holds};
use call_tables::{Line, PLAIN};
use ob_manager::CallOf::{CloseHandle, MakeEvent, Reap, SetEvent, Spawn, StartThread, WaitFor};
use ob_manager::Reply::{Closed, Code, Done, Made, Pending, Reaped, Refused, Spawned, Started};
use ob_manager::{Call, Card, Limits, Mode, Reply, Timeout};
use ob_rights::{Fault, Kind, Rights};
use ob_shared::{Lane, Shared};
use pin_core::{Descr, Id};
use pin_words::{Reader, Reclaim};
use std::alloc::Global;
use std::process::Abort;
use std::sync::Wait;
use std::test::Fail;

/// What is done with a manager behind its lock, and with a reader.
#[derive(Clone, Copy)]
pub(super) enum Move<'a> {
    /// Calls, one after another.
    Calls(&'a [Line<'a>]),
    /// The lane blocks until a wait is answered, and gets this.
    Blocks(u32, Reply),
    /// The reader pins an object.
    Pins(Id),
    /// The reader is shown what an object was created as, if it holds it.
    Shows(Id, Option<Card>),
    /// The reader lets a copy of an Id go, where there is one: whether there was.
    Unpins(Id, bool),
    /// The reader is dropped.
    Drops,
}

fn inspected<R: Wait>(rt: &R, shared: &Shared, reader: &Reader, id: Id) -> Option<Card> {
    if !reader.holds(id) {
        return None;
    }
    shared.inspect(rt, reader, id)
}

fn unpins(reader: &mut Reader, id: Id) -> bool {
    if !reader.holds(id) {
        return false;
    }
    reader.release(id);
    true
}

/// What a reader does. Whether it went as is due.
fn reads<R: Wait>(rt: &R, shared: &Shared, reader: &mut Reader, step: &Move<'_>) -> bool {
    match *step {
        Move::Pins(id) => reader.pin(rt, id).is_ok(),
        Move::Shows(id, due) => inspected(rt, shared, reader, id) == due,
        Move::Unpins(id, due) => unpins(reader, id) == due,
        Move::Calls(_) | Move::Blocks(..) | Move::Drops => true,
    }
}

/// The last reader does something. Whether it went as is due.
fn last_reads<R: Wait>(
    rt: &R,
    shared: &Shared,
    readers: &mut Vec<Reader>,
    step: &Move<'_>,
) -> bool {
    match readers.last_mut() {
        Some(reader) => reads(rt, shared, reader, step),
        None => false,
    }
}

/// Blocks, again where memory was wanting. Whether the answer is the one that is due, and the lane lists it.
fn blocks<R: Wait>(rt: &R, shared: &Shared, lane: &mut Lane, wait: u32, due: Reply) -> bool {
    let mut reply = shared.block(rt, lane, wait);
    if reply == Reply::Refused(Fault::Memory) {
        reply = shared.block(rt, lane, wait);
    }
    reply == due && is_last(lane, &Call::WaitResult { wait }, reply)
}

/// The first lane blocks.
fn first_blocks<R: Wait>(
    rt: &R,
    shared: &Shared,
    lanes: &mut Vec<Lane>,
    wait: u32,
    due: Reply,
) -> bool {
    match lanes.first_mut() {
        Some(lane) => blocks(rt, shared, lane, wait, due),
        None => false,
    }
}

fn makes<R: Abort + Wait>(
    rt: &R,
    alloc: Global,
    shared: &Shared,
    lanes: &mut Vec<Lane>,
    readers: &mut Vec<Reader>,
    step: &Move<'_>,
) -> Result<(), Fault> {
    match *step {
        Move::Calls(table) => answers(rt, alloc, shared, lanes, table)?,
        Move::Blocks(wait, due) => holds(rt, first_blocks(rt, shared, lanes, wait, due)),
        Move::Drops => drop(readers.pop()),
        _ => holds(rt, last_reads(rt, shared, readers, step)),
    }
    Ok(())
}

/// Makes all moves, one after another, with the one lane and the last reader.
pub(super) fn plays_moves<R: Abort + Wait>(
    rt: &R,
    alloc: Global,
    shared: &Shared,
    lanes: &mut Vec<Lane>,
    readers: &mut Vec<Reader>,
    moves: &[Move<'_>],
) -> Result<(), Fault> {
    for step in moves {
        makes(rt, alloc, shared, lanes, readers, step)?;
    }
    Ok(())
}

/// An event that is reset by itself, which any open may get.
const CARD: Card = Card {
    id: FIRST,
    descr: Descr {
        kind: Kind::Event,
        manual: false,
        max: 0,
    },
    grant: Rights(0x001F_0003),
};

#[rattlefmt::skip]
const MADE: &[Line<'static>] = &[
    (Spawn { session: 1 }, Spawned { process: 1, thread: 1 }),
    (MakeEvent { thread: 1, make: PLAIN, manual: false, set: false }, Made { handle: 4, id: FIRST }),
];

const CLOSED: &[Line<'static>] = &[(
    CloseHandle {
        thread: 1,
        handle: 4,
    },
    Closed,
)];

const IS_HELD: &[Line<'static>] = &[(
    Reap { slot: 0 },
    Reaped {
        id: FIRST,
        outcome: Reclaim::Held { pins: 1 },
    },
)];

const IS_FREED: &[Line<'static>] = &[(
    Reap { slot: 0 },
    Reaped {
        id: FIRST,
        outcome: Reclaim::Freed,
    },
)];

/// An object that a reader holds has its card after its last handle is closed, and isn't taken back.
const HELD: &[Move<'static>] = &[
    Move::Calls(MADE),
    Move::Shows(FIRST, None),
    Move::Pins(FIRST),
    Move::Calls(CLOSED),
    Move::Shows(FIRST, Some(CARD)),
    Move::Calls(IS_HELD),
    Move::Unpins(FIRST, true),
    Move::Unpins(FIRST, false),
    Move::Calls(IS_FREED),
];

#[test]
fn a_held_object_has_its_card(rt: HostRuntime) -> Result<(), Fail> {
    let limits = Limits::default();
    over_shared(&rt, rt.alloc(), limits, 1, Scene::Holds(HELD))?;
    Ok(())
}

/// A reader that goes while it holds leaves its slot out of use, and all else goes on.
#[rattlefmt::skip]
const DROPPED: &[Move<'static>] = &[
    Move::Calls(MADE),
    Move::Pins(FIRST),
    Move::Drops,
    Move::Calls(CLOSED),
    Move::Calls(IS_HELD),
    Move::Calls(&[
        (MakeEvent { thread: 1, make: PLAIN, manual: false, set: false }, Made { handle: 4, id: SECOND }),
        (MakeEvent { thread: 1, make: PLAIN, manual: false, set: false }, Refused(Fault::Limit)),
    ]),
    Move::Calls(IS_HELD),
    Move::Calls(&[
        (CloseHandle { thread: 1, handle: 4 }, Closed),
        (Reap { slot: 1 }, Reaped { id: SECOND, outcome: Reclaim::Freed }),
        (MakeEvent { thread: 1, make: PLAIN, manual: false, set: false },
            Made { handle: 4, id: Id { slot: 1, generation: 2 } }),
    ]),
    Move::Calls(IS_HELD),
];

#[test]
fn a_dropped_reader_leaves_its_slot_out_of_use(rt: HostRuntime) -> Result<(), Fail> {
    let limits = Limits::checked(2, 4, 4, 8, 4, 4, 8, 4)?;
    over_shared(&rt, rt.alloc(), limits, 1, Scene::Holds(DROPPED))?;
    Ok(())
}

/// A wait that is answered before its lane blocks.
#[rattlefmt::skip]
const BLOCKED: &[Move<'static>] = &[
    Move::Calls(MADE),
    Move::Calls(&[
        (StartThread { process: 1 }, Started { thread: 2 }),
        (WaitFor { thread: 2, mode: Mode::Any, timeout: Timeout::Infinite, handles: &[4] }, Pending { wait: 1 }),
        (SetEvent { thread: 1, handle: 4 }, Done),
    ]),
    Move::Blocks(1, Code { code: 0 }),
    Move::Blocks(1, Refused(Fault::Parameter)),
];

#[test]
fn a_block_gets_the_answer_of_a_wait(rt: HostRuntime) -> Result<(), Fail> {
    over_shared(&rt, rt.alloc(), Limits::default(), 1, Scene::Holds(BLOCKED))?;
    Ok(())
}
