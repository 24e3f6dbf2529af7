//! Timers with a period.
use super::playing::{Scene, over_locked};
use super::saved::Edit;
use super::{FIRST, holds, same_at};
use call_tables::{Line, PLAIN};
use ob_body::{Body, LAST_MOMENT, RECURSION_MAX};
use ob_codec::{Cursor, ReadFault, Spelled, TextFault};
use ob_manager::CallOf::{CancelTimer, MakeTimer, SetTimer, Spawn, Tick, WaitFor, WaitResult};
use ob_manager::Reply::{Code, Done, Made, Pending, Spawned, Ticked};
use ob_manager::Timeout::{Infinite, Zero};
use ob_manager::{Limits, Mode};
use ob_rights::Kind;
use std::alloc::{AllocError, Global};
use std::process::Abort;
use std::test::Fail;

/// What is done with a timer.
#[derive(Clone, Copy)]
enum Act {
    /// It is set to a moment, at a moment, with a period.
    Arm(u64, u64, u32),
    /// It is a moment.
    Fire(u64),
    /// A wait takes it.
    Take,
    /// It is cancelled.
    Disarm,
}

/// Whether it could be done.
fn is_done(timer: &mut Body, act: Act) -> bool {
    if timer.kind() != Kind::Timer {
        return false;
    }
    match act {
        Act::Arm(due, now, period) if now <= LAST_MOMENT => timer.arm(due, now, period),
        Act::Fire(now) if now <= LAST_MOMENT => timer.fire(now),
        Act::Take if timer.signaled_for(1) && timer.has_room(1, RECURSION_MAX) => {
            timer.acquire(1);
        }
        Act::Disarm => timer.disarm(),
        _ => return false,
    }
    true
}

/// Whether a timer is signaled, when it is due, and its period.
type Seen = (bool, Option<u64>, u32);

fn seen(timer: &Body) -> Option<Seen> {
    match timer {
        Body::Timer(timer) => Some((timer.is_signaled(), timer.due(), timer.period())),
        _ => None,
    }
}

/// What is done with a synchronization timer, one after another, and what is seen then. A millisecond is 10,000 units.
#[rattlefmt::skip]
const ACTS: &[(Act, Seen)] = &[
    // it comes, is taken, and comes again, where no tick is at the moment too
    (Act::Arm(25_000, 100, 2), (false, Some(25_000), 2)),
    (Act::Fire(24_999), (false, Some(25_000), 2)),
    (Act::Fire(25_000), (true, Some(45_000), 2)),
    (Act::Take, (false, Some(45_000), 2)),
    (Act::Fire(44_999), (false, Some(45_000), 2)),
    (Act::Fire(45_001), (true, Some(65_000), 2)),
    (Act::Fire(45_001), (true, Some(65_000), 2)),
    // several periods pass at once, and it is late
    (Act::Fire(124_999), (true, Some(125_000), 2)),
    (Act::Take, (false, Some(125_000), 2)),
    (Act::Fire(165_000), (true, Some(185_000), 2)),
    // set anew it isn't signaled, and without a period it comes once
    (Act::Arm(200_000, 165_000, 0), (false, Some(200_000), 0)),
    (Act::Fire(200_000), (true, None, 0)),
    (Act::Fire(999_999), (true, None, 0)),
    // a moment that has passed comes at once
    (Act::Arm(200_000, 999_999, 0), (true, None, 0)),
    (Act::Arm(999_999, 999_999, 1), (true, Some(1_009_999), 1)),
    (Act::Arm(5, 999_999, 1), (true, Some(1_000_005), 1)),
    // cancelled it stays as signaled as it is
    (Act::Disarm, (true, None, 0)),
    (Act::Fire(2_000_000), (true, None, 0)),
    (Act::Take, (false, None, 0)),
    (Act::Disarm, (false, None, 0)),
    // the longest period, at the last moment
    (Act::Arm(0, LAST_MOMENT, u32::MAX), (true, Some(9_223_399_316_339_550_000), u32::MAX)),
];

/// Whether a body is read again as it was written.
fn goes_round(alloc: Global, body: &Body) -> Result<bool, ReadFault> {
    let mut out = Vec::new(alloc);
    body.write(&mut out)?;
    let mut from = Cursor::new(out.as_slice());
    let again = Body::read(alloc, &mut from)?;
    from.end()?;
    Ok(again == *body)
}

#[test]
fn a_timer_comes_by_its_period(rt: HostRuntime) {
    let mut timer = Body::new_timer(false);
    for (place, (act, due)) in ACTS.iter().enumerate() {
        holds(&rt, is_done(&mut timer, *act));
        same_at(&rt, seen(&timer), Some(*due), place);
        same_at(&rt, goes_round(rt.alloc(), &timer), Ok(true), place);
    }
}

/// Timers as bytes: which form it is, whether it is reset by hand, whether it is signaled, the moment, and the period;
/// and what is wrong, if something is.
#[rattlefmt::skip]
const TEXTS: &[(&[u8], Option<TextFault>)] = &[
    (&[3, 0, 0, 0], None),
    (&[3, 1, 1, 0], None),
    (&[3, 0, 0, 1, 232, 3, 0, 0, 0, 0, 0, 0], None),
    (&[3, 0, 1, 1, 232, 3, 0, 0, 0, 0, 0, 0], Some(TextFault::Value)),
    (&[5, 0, 0, 1, 232, 3, 0, 0, 0, 0, 0, 0, 7, 0, 0, 0], None),
    (&[5, 0, 1, 1, 232, 3, 0, 0, 0, 0, 0, 0, 255, 255, 255, 255], None),
    (&[5, 0, 0, 1, 232, 3, 0, 0, 0, 0, 0, 0, 0, 0, 0, 0], Some(TextFault::Value)),
    (&[5, 0, 0, 1, 232, 3, 0, 0, 0, 0, 0, 0, 7, 0, 0], Some(TextFault::Short)),
    (&[5, 0, 0, 0, 7, 0, 0, 0], Some(TextFault::Value)),
    (&[6, 0, 0, 0], Some(TextFault::Tag)),
];

/// Whether what is read of a text is written as the same text.
fn is_written_again(alloc: Global, text: &[u8]) -> Result<bool, ReadFault> {
    let mut from = Cursor::new(text);
    let body = Body::read(alloc, &mut from)?;
    from.end()?;
    Ok(is_written(alloc, &body, text)?)
}

fn is_written(alloc: Global, body: &Body, text: &[u8]) -> Result<bool, AllocError> {
    let mut out = Vec::new(alloc);
    body.write(&mut out)?;
    Ok(out.as_slice() == text)
}

#[test]
fn a_timer_has_one_text(rt: HostRuntime) {
    for (place, (text, fault)) in TEXTS.iter().enumerate() {
        let due = match *fault {
            None => Ok(true),
            Some(fault) => Err(ReadFault::Text(fault)),
        };
        same_at(&rt, is_written_again(rt.alloc(), text), due, place);
    }
}

const ANY: Mode = Mode::Any;

/// A timer that is set.
#[rattlefmt::skip]
const SET: &[Line<'static>] = &[
    (Spawn { session: 1 }, Spawned { process: 1, thread: 1 }),
    (MakeTimer { thread: 1, make: PLAIN, manual: false }, Made { handle: 4, id: FIRST }),
    (SetTimer { thread: 1, handle: 4, due: 50_000 }, Done),
];

/// In what is saved then the timer gets a period of two milliseconds.
const PERIODIC: Edit<'static> = (
    132,
    &[3, 0, 0, 1, 80, 195, 0, 0, 0, 0, 0, 0],
    &[5, 0, 0, 1, 80, 195, 0, 0, 0, 0, 0, 0, 2, 0, 0, 0],
    None,
);

/// It comes, again and again, once by each tick; a wait that is pending takes it as well; cancelled it stays signaled,
/// and comes no more.
#[rattlefmt::skip]
const TICKED: &[Line<'static>] = &[
    (Tick { now: 49_999 }, Ticked { now: 49_999 }),
    (WaitFor { thread: 1, mode: ANY, timeout: Zero, handles: &[4] }, Code { code: 258 }),
    (Tick { now: 50_000 }, Ticked { now: 50_000 }),
    (WaitFor { thread: 1, mode: ANY, timeout: Zero, handles: &[4] }, Code { code: 0 }),
    (WaitFor { thread: 1, mode: ANY, timeout: Zero, handles: &[4] }, Code { code: 258 }),
    (Tick { now: 135_000 }, Ticked { now: 135_000 }),
    (WaitFor { thread: 1, mode: ANY, timeout: Zero, handles: &[4] }, Code { code: 0 }),
    (WaitFor { thread: 1, mode: ANY, timeout: Infinite, handles: &[4] }, Pending { wait: 1 }),
    (Tick { now: 149_999 }, Ticked { now: 149_999 }),
    (WaitResult { wait: 1 }, Pending { wait: 1 }),
    (Tick { now: 150_000 }, Ticked { now: 150_000 }),
    (WaitResult { wait: 1 }, Code { code: 0 }),
    (Tick { now: 170_000 }, Ticked { now: 170_000 }),
    (CancelTimer { thread: 1, handle: 4 }, Done),
    (WaitFor { thread: 1, mode: ANY, timeout: Zero, handles: &[4] }, Code { code: 0 }),
    (Tick { now: 500_000 }, Ticked { now: 500_000 }),
    (WaitFor { thread: 1, mode: ANY, timeout: Zero, handles: &[4] }, Code { code: 258 }),
];

/// Set anew it comes once.
#[rattlefmt::skip]
const SET_ANEW: &[Line<'static>] = &[
    (Tick { now: 50_000 }, Ticked { now: 50_000 }),
    (SetTimer { thread: 1, handle: 4, due: 60_000 }, Done),
    (WaitFor { thread: 1, mode: ANY, timeout: Zero, handles: &[4] }, Code { code: 258 }),
    (Tick { now: 60_000 }, Ticked { now: 60_000 }),
    (WaitFor { thread: 1, mode: ANY, timeout: Zero, handles: &[4] }, Code { code: 0 }),
    (Tick { now: 500_000 }, Ticked { now: 500_000 }),
    (WaitFor { thread: 1, mode: ANY, timeout: Zero, handles: &[4] }, Code { code: 258 }),
];

#[test]
fn a_timer_that_was_saved_with_a_period_comes_by_it(rt: HostRuntime) -> Result<(), Fail> {
    let limits = Limits::checked(1, 4, 4, 4, 4, 4, 4, 4)?;
    for calls in [TICKED, SET_ANEW] {
        over_locked(
            &rt,
            rt.alloc(),
            limits,
            Scene::SavesEdited(SET, &PERIODIC, calls),
        )?;
    }
    Ok(())
}
