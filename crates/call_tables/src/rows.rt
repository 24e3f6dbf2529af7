//! Rows of calls, among them each that takes memory.
use crate::ask::{Line, PLAIN};
use ob_manager::CallOf::{
    Alert, Child, CloseHandle, Counts, Duplicate, Expire, MakeEvent, MakeHost, MakeMutex,
    MakeSemaphore, MakeTimer, OpenNamed, PulseEvent, Reap, ReleaseMutex, ReleaseSemaphore,
    SetEvent, SetPeriodicTimer, SetTimer, SignalAndWait, SignalHost, Sleep, Spawn, StartThread,
    Tick, WaitFor, WaitResult,
};
use ob_manager::Reply::{
    Closed, Code, CountsAre, Done, Duplicated, Exists, Expired, Made, Opened, Pending, Previous,
    Reaped, Refused, Signaled, Spawned, Started, Ticked,
};
use ob_manager::{Make, Mode, Timeout};
use ob_rights::{Fault, Kind, Rights};
use pin_core::Id;
use pin_words::Reclaim;

const FIRST: Id = Id {
    slot: 0,
    generation: 1,
};

const SECOND: Id = Id {
    slot: 1,
    generation: 1,
};

const THIRD: Id = Id {
    slot: 2,
    generation: 1,
};

const NAMED_A: Make<'static> = Make {
    name: Some(b"A"),
    ..PLAIN
};

/// One event under a name, opened twice, set and waited for.
#[rattlefmt::skip]
const NAMED_EVENT_WAITS: &[Line<'static>] = &[
    (Spawn { session: 1 }, Spawned { process: 1, thread: 1 }),
    (MakeEvent { thread: 1, make: NAMED_A, manual: false, set: false }, Made { handle: 4, id: FIRST }),
    (MakeEvent { thread: 1, make: NAMED_A, manual: true, set: true }, Exists { handle: 8, id: FIRST }),
    (WaitFor { thread: 1, mode: Mode::Any, timeout: Timeout::Zero, handles: &[8] }, Code { code: 258 }),
    (SetEvent { thread: 1, handle: 4 }, Done),
    (WaitFor { thread: 1, mode: Mode::Any, timeout: Timeout::Zero, handles: &[8] }, Code { code: 0 }),
    (WaitFor { thread: 1, mode: Mode::Any, timeout: Timeout::Zero, handles: &[4] }, Code { code: 258 }),
    (Counts { id: FIRST }, CountsAre { handles: 2, waits: 0, hold: 0 }),
];

const LIMITED: Make<'static> = Make {
    access: Some(Rights::SYNCHRONIZE),
    grant: Some(Rights(0x10_0002)),
    ..PLAIN
};

/// Duplicates within the rights or the grant. A duplicate that is refused for a right closes its source all the same.
#[rattlefmt::skip]
const RIGHTS_OF_DUPLICATES: &[Line<'static>] = &[
    (Spawn { session: 1 }, Spawned { process: 1, thread: 1 }),
    (MakeEvent { thread: 1, make: LIMITED, manual: false, set: false }, Made { handle: 4, id: FIRST }),
    (SetEvent { thread: 1, handle: 4 }, Refused(Fault::Access)),
    (Duplicate {
        thread: 1, source: 1, handle: 4, target: Some(1), mask: Rights(0x10_0002), inherit: false, options: 0,
    }, Duplicated { handle: 8, id: FIRST }),
    (SetEvent { thread: 1, handle: 8 }, Done),
    (Duplicate {
        thread: 1, source: 1, handle: 4, target: Some(1), mask: Rights(0x12_0000), inherit: false, options: 1,
    }, Refused(Fault::Access)),
    (CloseHandle { thread: 1, handle: 4 }, Refused(Fault::Handle)),
    (Duplicate { thread: 1, source: 1, handle: 8, target: Some(1), mask: Rights(0), inherit: false, options: 3 },
        Duplicated { handle: 4, id: FIRST }),
    (Counts { id: FIRST }, CountsAre { handles: 1, waits: 0, hold: 0 }),
];

const INHERITABLE: Make<'static> = Make {
    inherit: true,
    ..PLAIN
};

/// A child gets the inheritable entries at the same values, and so does its child.
#[rattlefmt::skip]
const INHERITANCE: &[Line<'static>] = &[
    (Spawn { session: 1 }, Spawned { process: 1, thread: 1 }),
    (MakeEvent { thread: 1, make: PLAIN, manual: false, set: false }, Made { handle: 4, id: FIRST }),
    (MakeEvent { thread: 1, make: INHERITABLE, manual: false, set: false }, Made { handle: 8, id: SECOND }),
    (Child { thread: 1, inherit: true }, Spawned { process: 2, thread: 2 }),
    (CloseHandle { thread: 2, handle: 4 }, Refused(Fault::Handle)),
    (MakeEvent { thread: 2, make: PLAIN, manual: false, set: false }, Made { handle: 4, id: THIRD }),
    (Child { thread: 2, inherit: true }, Spawned { process: 3, thread: 3 }),
    (CloseHandle { thread: 3, handle: 4 }, Refused(Fault::Handle)),
    (SetEvent { thread: 3, handle: 8 }, Done),
    (WaitFor { thread: 1, mode: Mode::Any, timeout: Timeout::Zero, handles: &[4, 8] }, Code { code: 1 }),
    (Child { thread: 1, inherit: false }, Spawned { process: 4, thread: 4 }),
    (CloseHandle { thread: 4, handle: 8 }, Refused(Fault::Handle)),
    (Counts { id: SECOND }, CountsAre { handles: 3, waits: 0, hold: 0 }),
];

/// A pending wait keeps its object when the handles are closed, and its thread makes no other call.
#[rattlefmt::skip]
const KEPT_BY_A_WAIT: &[Line<'static>] = &[
    (Spawn { session: 1 }, Spawned { process: 1, thread: 1 }),
    (StartThread { process: 1 }, Started { thread: 2 }),
    (MakeEvent { thread: 1, make: NAMED_A, manual: false, set: false }, Made { handle: 4, id: FIRST }),
    (WaitFor { thread: 2, mode: Mode::Any, timeout: Timeout::Infinite, handles: &[4] }, Pending { wait: 1 }),
    (SetEvent { thread: 2, handle: 4 }, Refused(Fault::Busy)),
    (CloseHandle { thread: 1, handle: 4 }, Closed),
    (Counts { id: FIRST }, CountsAre { handles: 0, waits: 1, hold: 0 }),
    (MakeEvent { thread: 1, make: NAMED_A, manual: false, set: false }, Made { handle: 4, id: SECOND }),
    (Reap { slot: 0 }, Refused(Fault::Handle)),
    (Expire { wait: 1 }, Expired { wait: 1 }),
    (Counts { id: FIRST }, CountsAre { handles: 0, waits: 0, hold: 1 }),
    (Expire { wait: 1 }, Refused(Fault::Parameter)),
    (SetEvent { thread: 2, handle: 4 }, Refused(Fault::Busy)),
    (WaitResult { wait: 1 }, Code { code: 258 }),
    (WaitResult { wait: 1 }, Refused(Fault::Parameter)),
    (Reap { slot: 0 }, Reaped { id: FIRST, outcome: Reclaim::Freed }),
    (Counts { id: FIRST }, Refused(Fault::Handle)),
    (SetEvent { thread: 2, handle: 4 }, Done),
];

/// A wait for all takes nothing before each object is signaled.
#[rattlefmt::skip]
const WAIT_FOR_ALL: &[Line<'static>] = &[
    (Spawn { session: 1 }, Spawned { process: 1, thread: 1 }),
    (StartThread { process: 1 }, Started { thread: 2 }),
    (MakeSemaphore { thread: 1, make: PLAIN, initial: 0, max: 5 }, Made { handle: 4, id: FIRST }),
    (MakeEvent { thread: 1, make: PLAIN, manual: false, set: false }, Made { handle: 8, id: SECOND }),
    (WaitFor { thread: 2, mode: Mode::All, timeout: Timeout::Infinite, handles: &[4, 8] }, Pending { wait: 1 }),
    (ReleaseSemaphore { thread: 1, handle: 4, count: 1 }, Previous { count: 0 }),
    (WaitResult { wait: 1 }, Pending { wait: 1 }),
    (ReleaseSemaphore { thread: 1, handle: 4, count: 1 }, Previous { count: 1 }),
    (SetEvent { thread: 1, handle: 8 }, Done),
    (WaitResult { wait: 1 }, Code { code: 0 }),
    (WaitFor { thread: 1, mode: Mode::All, timeout: Timeout::Zero, handles: &[4, 8] }, Code { code: 258 }),
    (ReleaseSemaphore { thread: 1, handle: 4, count: 1 }, Previous { count: 1 }),
];

const GRANTED_M: Make<'static> = Make {
    name: Some(b"M"),
    grant: Some(Rights::SYNCHRONIZE),
    ..PLAIN
};

const NAMED_M: Make<'static> = Make {
    name: Some(b"M"),
    ..PLAIN
};

const ASKED_M: Make<'static> = Make {
    name: Some(b"M"),
    access: Some(Rights::SYNCHRONIZE),
    ..PLAIN
};

const BLIND: Make<'static> = Make {
    access: Some(Rights::MODIFY_STATE),
    ..PLAIN
};

/// Grants, kinds and rights from another process.
#[rattlefmt::skip]
const GRANTS_ACROSS_PROCESSES: &[Line<'static>] = &[
    (Spawn { session: 1 }, Spawned { process: 1, thread: 1 }),
    (Spawn { session: 1 }, Spawned { process: 2, thread: 2 }),
    (MakeMutex { thread: 1, make: GRANTED_M, owned: false }, Made { handle: 4, id: FIRST }),
    (MakeMutex { thread: 2, make: NAMED_M, owned: false }, Refused(Fault::Access)),
    (OpenNamed { thread: 2, kind: Kind::Mutex, mask: Rights::SYNCHRONIZE, inherit: false, text: b"M" },
        Opened { handle: 4, id: FIRST }),
    (MakeMutex { thread: 2, make: ASKED_M, owned: false }, Exists { handle: 8, id: FIRST }),
    (OpenNamed { thread: 2, kind: Kind::Event, mask: Rights::SYNCHRONIZE, inherit: false, text: b"M" },
        Refused(Fault::Handle)),
    (WaitFor { thread: 2, mode: Mode::Any, timeout: Timeout::Zero, handles: &[4] }, Code { code: 0 }),
    (ReleaseMutex { thread: 2, handle: 8 }, Done),
    (MakeEvent { thread: 2, make: BLIND, manual: false, set: false }, Made { handle: 12, id: SECOND }),
    (WaitFor { thread: 2, mode: Mode::Any, timeout: Timeout::Zero, handles: &[4, 12] }, Refused(Fault::Access)),
];

/// By a name that is too long to be kept without memory.
const LONG: Make<'static> = Make {
    name: Some(b"Global\\more than sixteen bytes"),
    ..PLAIN
};

/// A timer that fires, and a wait whose time is up.
#[rattlefmt::skip]
const TIMERS: &[Line<'static>] = &[
    (Spawn { session: 1 }, Spawned { process: 1, thread: 1 }),
    (MakeTimer { thread: 1, make: LONG, manual: false }, Made { handle: 4, id: FIRST }),
    (SetTimer { thread: 1, handle: 4, due: 5 }, Done),
    (WaitFor { thread: 1, mode: Mode::Any, timeout: Timeout::Millis(1), handles: &[4] }, Pending { wait: 1 }),
    (Tick { now: 5 }, Ticked { now: 5 }),
    (WaitResult { wait: 1 }, Code { code: 0 }),
    (WaitFor { thread: 1, mode: Mode::Any, timeout: Timeout::Millis(1), handles: &[4] }, Pending { wait: 2 }),
    (Tick { now: 10_005 }, Ticked { now: 10_005 }),
    (WaitResult { wait: 2 }, Code { code: 258 }),
];

/// Objects of the host's own, which are opened by their type alone, and which the host alone signals. A wait takes them
/// as it takes events.
#[rattlefmt::skip]
const HOST_OBJECTS: &[Line<'static>] = &[
    (Spawn { session: 1 }, Spawned { process: 1, thread: 1 }),
    (StartThread { process: 1 }, Started { thread: 2 }),
    (MakeHost { thread: 1, make: LONG, object_type: 7, manual: false, signaled: false }, Made { handle: 4, id: FIRST }),
    (MakeHost { thread: 1, make: LONG, object_type: 7, manual: true, signaled: true }, Exists { handle: 8, id: FIRST }),
    (MakeHost { thread: 1, make: LONG, object_type: 8, manual: false, signaled: false }, Refused(Fault::Handle)),
    (MakeEvent { thread: 1, make: LONG, manual: false, set: false }, Refused(Fault::Handle)),
    (OpenNamed {
        thread: 1, kind: Kind::Host(7), mask: Rights::SYNCHRONIZE, inherit: false,
        text: b"Global\\more than sixteen bytes",
    }, Opened { handle: 12, id: FIRST }),
    (SetEvent { thread: 1, handle: 4 }, Refused(Fault::Handle)),
    (WaitFor { thread: 2, mode: Mode::Any, timeout: Timeout::Infinite, handles: &[12] }, Pending { wait: 1 }),
    (SignalHost { id: FIRST, signaled: true }, Done),
    (WaitResult { wait: 1 }, Code { code: 0 }),
    (WaitFor { thread: 1, mode: Mode::Any, timeout: Timeout::Zero, handles: &[4] }, Code { code: 258 }),
    (MakeHost { thread: 1, make: PLAIN, object_type: 0, manual: true, signaled: true }, Made { handle: 16, id: SECOND }),
    (WaitFor { thread: 1, mode: Mode::Any, timeout: Timeout::Zero, handles: &[16] }, Code { code: 0 }),
    (WaitFor { thread: 1, mode: Mode::Any, timeout: Timeout::Zero, handles: &[16] }, Code { code: 0 }),
    (SignalHost { id: SECOND, signaled: false }, Done),
    (WaitFor { thread: 1, mode: Mode::Any, timeout: Timeout::Zero, handles: &[16] }, Code { code: 258 }),
    (MakeEvent { thread: 1, make: PLAIN, manual: false, set: false }, Made { handle: 20, id: THIRD }),
    (SignalHost { id: THIRD, signaled: true }, Refused(Fault::Handle)),
];

/// Waits for nothing, with a signal and until a moment, those that an alert ends, an event that is pulsed, and a timer
/// with a period.
#[rattlefmt::skip]
const TIMES: &[Line<'static>] = &[
    (Spawn { session: 1 }, Spawned { process: 1, thread: 1 }),
    (StartThread { process: 1 }, Started { thread: 2 }),
    (MakeEvent { thread: 1, make: LONG, manual: false, set: false }, Made { handle: 4, id: FIRST }),
    (MakeMutex { thread: 1, make: PLAIN, owned: true }, Made { handle: 8, id: SECOND }),
    (Sleep { thread: 1, timeout: Timeout::Zero }, Code { code: 258 }),
    (Sleep { thread: 2, timeout: Timeout::Until(-5) }, Pending { wait: 1 }),
    (Alert { wait: 1 }, Done),
    (Alert { wait: 1 }, Refused(Fault::Parameter)),
    (WaitResult { wait: 1 }, Code { code: 192 }),
    (WaitFor { thread: 2, mode: Mode::Any, timeout: Timeout::Until(7), handles: &[8] }, Pending { wait: 2 }),
    (SignalAndWait { thread: 1, signal: 8, timeout: Timeout::Zero, handle: 4 }, Code { code: 258 }),
    (WaitResult { wait: 2 }, Code { code: 0 }),
    (SignalAndWait { thread: 1, signal: 8, timeout: Timeout::Infinite, handle: 4 }, Refused(Fault::NotOwner)),
    (SignalAndWait { thread: 1, signal: 4, timeout: Timeout::Infinite, handle: 4 }, Code { code: 0 }),
    (SignalAndWait { thread: 2, signal: 8, timeout: Timeout::Millis(1), handle: 4 }, Signaled { wait: 5 }),
    (PulseEvent { thread: 1, handle: 4 }, Done),
    (WaitResult { wait: 5 }, Code { code: 0 }),
    (WaitFor { thread: 1, mode: Mode::Any, timeout: Timeout::Zero, handles: &[4] }, Code { code: 258 }),
    (MakeTimer { thread: 1, make: PLAIN, manual: false }, Made { handle: 12, id: THIRD }),
    (SetPeriodicTimer { thread: 1, handle: 12, due: 10, period: -1 }, Refused(Fault::Parameter)),
    (SetPeriodicTimer { thread: 1, handle: 12, due: 10, period: 1 }, Done),
    (Tick { now: 30_000 }, Ticked { now: 30_000 }),
    (WaitFor { thread: 1, mode: Mode::Any, timeout: Timeout::Zero, handles: &[12] }, Code { code: 0 }),
    (WaitFor { thread: 1, mode: Mode::Any, timeout: Timeout::Until(30_000), handles: &[12] }, Code { code: 258 }),
    (Tick { now: 30_010 }, Ticked { now: 30_010 }),
    (WaitFor { thread: 1, mode: Mode::Any, timeout: Timeout::Until(0), handles: &[12] }, Code { code: 0 }),
];

/// All rows.
pub const ROWS: &[&[Line<'static>]] = &[
    NAMED_EVENT_WAITS,
    RIGHTS_OF_DUPLICATES,
    INHERITANCE,
    KEPT_BY_A_WAIT,
    WAIT_FOR_ALL,
    GRANTS_ACROSS_PROCESSES,
    TIMERS,
    HOST_OBJECTS,
    TIMES,
];
