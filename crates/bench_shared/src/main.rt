//! Measures members that make calls behind a manager's lock at once, as bench/shared.rs does: with an argument it
//! prints the line `CASE: ROUNDS in NANOSECONDS` for each number of them, and without one only says so. Each run has a
//! manager and a journal of its own, and the middle one of the times of many short runs counts.
#![tactic(auto)]

ghost use Rattle.std.specs.Prelude.{◌≡◌};
ghost use Rattle.ob_store.specs.State.{shape_of};

mod members;

use members::{CALLS, driven, members_of, prepares};
use ob_manager::{Limits, Manager};
use ob_shared::Shared;
use pin_words::{Opening, Pins, Reader};
use std::alloc::Global;
use std::sync::Wait;
use std::thread::Threads;
use std::time::Clock;
use std::{env, io};

/// How many runs a case has.
const RUNS: usize = 61;

/// The most first: then the allocator keeps memory, and the others don't wait for pages of it.
const CASES: [(&str, usize); 4] = [
    ("eight members", 8),
    ("four members", 4),
    ("two members", 2),
    ("one member", 1),
];

/// The time of a run over a new manager.
fn over_shared<R: Threads + Wait + Clock + Sync>(
    rt: &R,
    alloc: Global,
    shared: &mut Shared,
    readers: &mut Vec<Reader>,
) -> Option<u128> {
    let mut lane = shared.lane().ok()?;
    prepares(rt, alloc, shared, &mut lane);
    drop(lane);
    let mut members = members_of(alloc, shared, readers)?;
    let time = driven(rt, shared, &mut members);
    drop(members);
    time
}

/// A manager behind its lock, and so many readers.
fn shared_with(
    alloc: Global,
    limits: Limits,
    opening: Opening,
    pins: &Pins,
    count: usize,
) -> Option<(Shared, Vec<Reader>)>
    requires opens { opening ≡ pins.now }
    requires shape { pins.now.shape ≡ shape_of limits }
{
    let Ok((mut keeper, first)) = opening.start(pins) else {
        return None;
    };
    let Ok(readers) = keeper.readers(alloc, first, count) else {
        return None;
    };
    match Manager::new(alloc, limits, keeper) {
        Ok(manager) => Some((Shared::new(alloc, manager), readers)),
        Err(_) => None,
    }
}

fn over_pins<R: Threads + Wait + Clock + Sync>(
    rt: &R,
    alloc: Global,
    limits: Limits,
    opening: Opening,
    pins: &Pins,
    count: usize,
) -> Option<u128>
    requires opens { opening ≡ pins.now }
    requires shape { pins.now.shape ≡ shape_of limits }
{
    let (mut shared, mut readers) = shared_with(alloc, limits, opening, pins, count)?;
    let time = over_shared(rt, alloc, &mut shared, &mut readers);
    drop(shared);
    drop(readers);
    time
}

fn run<R: Threads + Wait + Clock + Sync>(rt: &R, alloc: Global, count: usize) -> Option<u128> {
    let limits = Limits::default();
    let Ok((pins, opening)) = Pins::new(alloc, limits.shape()) else {
        return None;
    };
    over_pins(rt, alloc, limits, opening, &pins, count)
}

fn measure<R: Threads + Wait + Clock + Print + Sync>(
    rt: &R,
    alloc: Global,
    case: &str,
    count: usize,
) -> io::Result<()> {
    let mut times = [0u128; RUNS];
    for i in 0..RUNS {
        let time = run(rt, alloc, count);
        times[i] = time.ok_or(io::Error::from(io::ErrorKind::OutOfMemory))?;
    }
    times.sort_unstable();
    println!(rt;
        "{case}: {} in {}",
        count.saturating_mul(CALLS),
        times[RUNS / 2]
    )
}

fn main(rt: HostRuntime) -> io::Result<()> {
    if env::args(&rt)?.nth(1).is_none() {
        return println!(rt; "bench_shared measure: calls of members behind the lock");
    }
    for i in 0..4 {
        let (case, count) = CASES[i];
        measure(&rt, rt.alloc(), case, count)?;
    }
    Ok(())
}
