//! Lanes that are handed in, and why they may be refused.
ghost use Rattle.std.specs.Prelude.{◌≡◌};
ghost use Rattle.ob_store.specs.State.{shape_of};

use super::opening::{Scene, over_shared, shared_with};
use super::playing::{answers, is_answered};
use super::{FIRST, holds};
use call_tables::{Line, PLAIN, pins_for};
use ob_manager::CallOf::{Counts, MakeEvent, Spawn};
use ob_manager::Limits;
use ob_manager::Reply::{CountsAre, Made, Spawned};
use ob_rights::Fault;
use ob_shared::{CloseCause, Lane, NotClosed, Shared};
use pin_words::{Opening, Pins};
use std::alloc::Global;
use std::process::Abort;
use std::sync::Wait;
use std::test::Fail;

/// Which lanes are handed in.
#[derive(Clone, Copy)]
pub(super) enum Case {
    Whole,
    Twice,
    Alone,
    Stranger,
    CallOfStranger,
    AnotherLane,
}

impl Case {
    /// Why they are refused, if they are.
    pub(super) fn cause(self) -> Option<CloseCause> {
        match self {
            Case::Whole => None,
            Case::Twice => Some(CloseCause::LaneTwice),
            Case::Alone | Case::CallOfStranger => Some(CloseCause::LaneMissing),
            Case::Stranger => Some(CloseCause::LaneStranger),
            Case::AnotherLane => Some(CloseCause::LanesDiffer { lane: 1, place: 0 }),
        }
    }

    /// Whether what is refused is whole without the last lane.
    pub(super) fn is_mended(self) -> bool {
        matches!(self, Case::Twice | Case::Stranger)
    }
}

/// Closes again what was refused, without the last lane. Whether it is closed.
pub(super) fn closes_again(refused: NotClosed) -> bool {
    let NotClosed {
        shared,
        mut lanes,
        ..
    } = refused;
    drop(lanes.pop());
    match shared.close(lanes) {
        Ok(closed) => {
            drop(closed);
            true
        }
        Err(refused) => {
            drop(refused);
            false
        }
    }
}

/// The lane of a number, where none was given yet.
fn lane_of(shared: &mut Shared, number: u32) -> Result<Lane, Fault> {
    for _ in 0..number {
        let _ = shared.lane()?;
    }
    shared.lane()
}

fn lane_over(
    alloc: Global,
    limits: Limits,
    pins: &Pins,
    opening: Opening,
    number: u32,
) -> Result<Lane, Fault>
    requires opens { opening ≡ pins.now }
    requires shape { pins.now.shape ≡ shape_of limits }
{
    let (mut shared, readers) = shared_with(alloc, limits, opening, pins, 1)?;
    let lane = lane_of(&mut shared, number);
    drop(shared);
    drop(readers);
    lane
}

/// The lane of a number, of another manager behind its lock.
fn lane_of_another(alloc: Global, number: u32) -> Result<Lane, Fault> {
    let limits = Limits::default();
    let (pins, opening) = pins_for(alloc, limits)?;
    lane_over(alloc, limits, &pins, opening, number)
}

/// Calls of lane 0, lane 1 and lane 0 again.
#[rattlefmt::skip]
const THREE_CALLS: &[Line<'static>] = &[
    (Spawn { session: 1 }, Spawned { process: 1, thread: 1 }),
    (MakeEvent { thread: 1, make: PLAIN, manual: false, set: false }, Made { handle: 4, id: FIRST }),
    (Counts { id: FIRST }, CountsAre { handles: 1, waits: 0, hold: 0 }),
];

/// The lane of another manager makes the last of the three calls once more.
fn calls_strangely<R: Abort + Wait>(rt: &R, alloc: Global, shared: &Shared) -> Result<(), Fault> {
    let mut stranger = lane_of_another(alloc, 2)?;
    let is_good = is_answered(rt, alloc, shared, &mut stranger, THREE_CALLS[2]);
    drop(stranger);
    holds(rt, is_good?);
    Ok(())
}

/// Two lanes that made three calls are changed as a case says.
pub(super) fn plays_a_case<R: Abort + Wait>(
    rt: &R,
    alloc: Global,
    shared: &Shared,
    lanes: &mut Vec<Lane>,
    case: Case,
) -> Result<(), Fault> {
    answers(rt, alloc, shared, lanes, THREE_CALLS)?;
    match case {
        Case::Whole => {}
        Case::Twice => lanes.push(lane_of_another(alloc, 1)?)?,
        Case::Alone => drop(lanes.pop()),
        Case::Stranger => lanes.push(lane_of_another(alloc, 2)?)?,
        Case::CallOfStranger => calls_strangely(rt, alloc, shared)?,
        Case::AnotherLane => {
            drop(lanes.pop());
            lanes.push(lane_of_another(alloc, 1)?)?;
        }
    }
    Ok(())
}

#[rattlefmt::skip]
const CASES: &[Case] = &[
    Case::Whole, Case::Twice, Case::Alone, Case::CallOfStranger, Case::Stranger, Case::AnotherLane,
];

#[test]
fn it_closes_with_its_lanes_alone(rt: HostRuntime) -> Result<(), Fail> {
    for case in CASES {
        over_shared(&rt, rt.alloc(), Limits::default(), 1, Scene::Closes(*case))?;
    }
    Ok(())
}
