//! Lines that ask for calls.
use crate::tests::holds_at;
use ob_manager::CallOf::{
    Alert, CancelTimer, Child, CloseHandle, Counts, Duplicate, EndThread, Exit, Expire, GetFlags,
    MakeEvent, MakeHost, MakeMutex, MakeSemaphore, MakeTimer, OpenNamed, PulseEvent, Reap,
    ReleaseMutex, ReleaseSemaphore, ResetEvent, SetEvent, SetFlags, SetPeriodicTimer, SetTimer,
    SignalAndWait, SignalHost, Sleep, Spawn, StartThread, Tick, WaitFor, WaitResult,
};
use ob_manager::{CallOf, Make, Mode, Timeout};
use ob_rights::{Kind, Rights};
use ob_script::line_of;
use pin_core::Id;
use std::alloc::{AllocError, Global};
use std::test::Fail;

type Row = (
    CallOf<Make<'static>, &'static [u8], &'static [u32]>,
    Option<&'static [u8]>,
);

const PLAIN: Make<'static> = Make {
    name: None,
    inherit: false,
    access: None,
    grant: None,
};

const WHOLE: Make<'static> = Make {
    name: Some(b"A b"),
    inherit: true,
    access: Some(Rights::SYNCHRONIZE),
    grant: Some(Rights(0x1f_0003)),
};

const EMPTY: Make<'static> = Make {
    name: Some(b""),
    ..PLAIN
};

const TWO_LINES: Make<'static> = Make {
    name: Some(b"a\nb"),
    ..PLAIN
};

const RETURNS: Make<'static> = Make {
    name: Some(b"a\r"),
    ..PLAIN
};

const FAR: Id = Id {
    slot: 65_535,
    generation: 4_294_967_295,
};

const LAST: u32 = 4_294_967_295;

/// Each kind of call with the line that asks for it, and calls for which there is no line.
#[rattlefmt::skip]
const ROWS: &[Row] = &[
    (Spawn { session: 7 }, Some(b"spawn 7")),
    (Child { thread: 1, inherit: true }, Some(b"child t1 inherit")),
    (Child { thread: LAST, inherit: false }, Some(b"child t4294967295 plain")),
    (StartThread { process: 2 }, Some(b"thread p2")),
    (MakeEvent { thread: 1, make: PLAIN, manual: false, set: true }, Some(b"event t1 auto set")),
    (MakeEvent { thread: 1, make: WHOLE, manual: true, set: false },
        Some(b"event t1 manual clear inherit access 0x100000 grant 0x1f0003 name A b")),
    (MakeEvent { thread: 1, make: EMPTY, manual: true, set: false }, Some(b"event t1 manual clear name ")),
    (MakeEvent { thread: 1, make: TWO_LINES, manual: true, set: false }, None),
    (MakeMutex { thread: 1, make: PLAIN, owned: true }, Some(b"mutex t1 owned")),
    (MakeMutex { thread: 1, make: RETURNS, owned: false }, Some(b"mutex t1 free name a\r\r")),
    (MakeSemaphore { thread: 1, make: PLAIN, initial: -2_147_483_648, max: 2_147_483_647 },
        Some(b"semaphore t1 -2147483648 2147483647")),
    (MakeTimer { thread: 1, make: PLAIN, manual: true }, Some(b"timer t1 manual")),
    (MakeHost { thread: 1, make: PLAIN, object_type: 0, manual: false, signaled: true }, Some(b"host t1 k0 auto set")),
    (MakeHost { thread: 1, make: WHOLE, object_type: 255, manual: true, signaled: false },
        Some(b"host t1 k255 manual clear inherit access 0x100000 grant 0x1f0003 name A b")),
    (MakeHost { thread: 1, make: TWO_LINES, object_type: 7, manual: true, signaled: true }, None),
    (OpenNamed { thread: 1, kind: Kind::Semaphore, mask: Rights(0), inherit: true, text: b"name" },
        Some(b"open t1 semaphore 0x0 inherit name name")),
    (OpenNamed { thread: 1, kind: Kind::Timer, mask: Rights(LAST), inherit: false, text: b"\xff" },
        Some(b"open t1 timer 0xffffffff name \xff")),
    (OpenNamed { thread: 1, kind: Kind::Host(10), mask: Rights::SYNCHRONIZE, inherit: false, text: b"A" },
        Some(b"open t1 k10 0x100000 name A")),
    (Duplicate { thread: 1, source: 2, handle: 4, target: Some(3), mask: Rights(2), inherit: true, options: 1 },
        Some(b"dup t1 p2 h4 p3 0x2 inherit close")),
    (Duplicate { thread: 1, source: 2, handle: 4, target: None, mask: Rights(9), inherit: false, options: 3 },
        Some(b"dup t1 p2 h4 - same close")),
    (Duplicate { thread: 1, source: 2, handle: 4, target: Some(3), mask: Rights(2), inherit: false, options: 4 }, None),
    (CloseHandle { thread: 1, handle: 4 }, Some(b"close t1 h4")),
    (GetFlags { thread: 1, handle: 4 }, Some(b"flags t1 h4")),
    (SetFlags { thread: 1, handle: 4, mask: 3, flags: LAST }, Some(b"setflags t1 h4 3 4294967295")),
    (SetEvent { thread: 1, handle: 0 }, Some(b"set t1 h0")),
    (ResetEvent { thread: 1, handle: 4 }, Some(b"reset t1 h4")),
    (PulseEvent { thread: 1, handle: 4 }, Some(b"pulse t1 h4")),
    (ReleaseSemaphore { thread: 1, handle: 4, count: -1 }, Some(b"release t1 h4 -1")),
    (ReleaseMutex { thread: 1, handle: 4 }, Some(b"unlock t1 h4")),
    (SignalHost { id: FAR, signaled: true }, Some(b"signal s65535.4294967295 set")),
    (SignalHost { id: FAR, signaled: false }, Some(b"signal s65535.4294967295 clear")),
    (SetTimer { thread: 1, handle: 4, due: -9_223_372_036_854_775_808 }, Some(b"settimer t1 h4 -9223372036854775808")),
    (SetPeriodicTimer { thread: 1, handle: 4, due: -9_223_372_036_854_775_808, period: -2_147_483_648 },
        Some(b"setperiod t1 h4 -9223372036854775808 -2147483648")),
    (CancelTimer { thread: 1, handle: 4 }, Some(b"cancel t1 h4")),
    (Tick { now: 9_223_372_036_854_775_807 }, Some(b"tick 9223372036854775807")),
    (Tick { now: 9_223_372_036_854_775_808 }, None),
    (WaitFor { thread: 1, mode: Mode::Any, timeout: Timeout::Infinite, handles: &[4, 8] },
        Some(b"wait t1 any inf h4 h8")),
    (WaitFor { thread: 1, mode: Mode::All, timeout: Timeout::Zero, handles: &[] }, Some(b"wait t1 all 0")),
    (WaitFor { thread: 1, mode: Mode::All, timeout: Timeout::Millis(5), handles: &[4] }, Some(b"wait t1 all 5 h4")),
    (WaitFor { thread: 1, mode: Mode::Any, timeout: Timeout::Until(-9_223_372_036_854_775_808), handles: &[4] },
        Some(b"wait t1 any @-9223372036854775808 h4")),
    (SignalAndWait { thread: 1, signal: 4, timeout: Timeout::Until(9_223_372_036_854_775_807), handle: 8 },
        Some(b"signalwait t1 h4 @9223372036854775807 h8")),
    (SignalAndWait { thread: 1, signal: 4, timeout: Timeout::Zero, handle: 8 }, Some(b"signalwait t1 h4 0 h8")),
    (Sleep { thread: 1, timeout: Timeout::Infinite }, Some(b"sleep t1 inf")),
    (Sleep { thread: 1, timeout: Timeout::Zero }, Some(b"sleep t1 0")),
    (WaitResult { wait: 1 }, Some(b"result w1")),
    (Expire { wait: 1 }, Some(b"expire w1")),
    (Alert { wait: 1 }, Some(b"alert w1")),
    (EndThread { thread: 1 }, Some(b"endthread t1")),
    (Exit { process: 1 }, Some(b"exit p1")),
    (Reap { slot: 65_535 }, Some(b"reap s65535")),
    (Counts { id: FAR }, Some(b"count s65535.4294967295")),
];

/// Whether the line of a call is this one; made again where memory was wanting.
fn is_due(alloc: Global, row: &Row) -> bool {
    for _ in 0..64 {
        if let Ok(line) = line_of(alloc, &row.0) {
            return match (&line, row.1) {
                (Some(line), Some(due)) => line.as_slice() == due,
                (None, None) => true,
                _ => false,
            };
        }
    }
    false
}

#[test]
fn each_call_has_its_line(rt: HostRuntime) {
    let alloc = rt.alloc();
    for (place, row) in ROWS.iter().enumerate() {
        holds_at(&rt, is_due(alloc, row), place);
    }
}

/// A wait for so many handles, of which each takes three bytes of its line behind the first 15.
fn wait_for(alloc: Global, handles: &mut Vec<u32>, count: usize) -> Result<bool, AllocError> {
    handles.resize(count, 4)?;
    let call: CallOf<Make<'_>, &[u8], &[u32]> = WaitFor {
        thread: 1,
        mode: Mode::Any,
        timeout: Timeout::Infinite,
        handles: handles.as_slice(),
    };
    Ok(line_of(alloc, &call)?.is_some())
}

#[test]
fn a_line_has_4096_bytes_at_most(rt: HostRuntime) -> Result<(), Fail> {
    let alloc = rt.alloc();
    let mut handles = Vec::new(alloc);
    holds_at(&rt, wait_for(alloc, &mut handles, 1_360)?, 0);
    holds_at(&rt, !wait_for(alloc, &mut handles, 1_361)?, 1);
    Ok(())
}
