//! What owns a manager behind its lock, its readers and its lanes: all else is lent them.
ghost use Rattle.std.specs.Prelude.{◌≡◌};
ghost use Rattle.ob_store.specs.State.{shape_of};

use super::closing::{Case, closes_again, plays_a_case};
use super::holding::{Move, plays_moves};
use super::members::{Script, plays_members};
use super::replaying::replays;
use super::turns::is_in_turn;
use super::{all_lanes, holds, playing, same};
use call_tables::{Line, manager_over, pins_for, started};
use ob_manager::Limits;
use ob_rights::Fault;
use ob_shared::{CloseCause, Entry, Lane, Shared};
use pin_words::{Opening, Pins, Reader};
use std::alloc::Global;
use std::process::Abort;
use std::sync::Wait;
use std::thread::Threads;

/// What is played over a manager behind its lock, which is closed afterwards.
#[derive(Clone, Copy)]
pub(super) enum Scene<'a> {
    /// A table, in two lanes by turns.
    ByTurns(&'a [Line<'a>]),
    /// As many lanes as there may be, and many calls of the last.
    AllLanes,
    /// What a lane and a reader do.
    Holds(&'a [Move<'a>]),
    /// Lanes that may not be the ones that were given.
    Closes(Case),
    /// Members, and one lane more.
    Members(Script),
}

impl Scene<'_> {
    /// How many lanes there are at first.
    fn lanes(&self) -> usize {
        match *self {
            Scene::ByTurns(_) | Scene::Closes(_) => 2,
            Scene::AllLanes => 65_536,
            Scene::Holds(_) | Scene::Members(_) => 1,
        }
    }

    /// Why the manager isn't closed afterwards, if it isn't.
    fn cause(&self) -> Option<CloseCause> {
        match *self {
            Scene::Closes(case) => case.cause(),
            _ => None,
        }
    }

    /// Whether what isn't closed is closed without the last lane.
    fn is_mended(&self) -> bool {
        match *self {
            Scene::Closes(case) => case.is_mended(),
            _ => false,
        }
    }
}

/// A manager behind its lock, and so many readers.
pub(super) fn shared_with(
    alloc: Global,
    limits: Limits,
    opening: Opening,
    pins: &Pins,
    count: usize,
) -> Result<(Shared, Vec<Reader>), Fault>
    requires opens { opening ≡ pins.now }
    requires shape { pins.now.shape ≡ shape_of limits }
{
    let (mut keeper, first) = started(opening, pins)?;
    match keeper.readers(alloc, first, count) {
        Ok(readers) => match manager_over(alloc, limits, keeper) {
            Ok(manager) => Ok((Shared::new(alloc, manager), readers)),
            Err(fault) => {
                drop(readers);
                Err(fault)
            }
        },
        Err(fault) => {
            drop(keeper);
            Err(fault)
        }
    }
}

/// Adds so many lanes, with room for as many members.
fn add_lanes(shared: &mut Shared, lanes: &mut Vec<Lane>, count: usize) -> Result<(), Fault> {
    if lanes.reserve(count.saturating_add(64)).is_err() {
        lanes.reserve(count.saturating_add(64))?;
    }
    for _ in 0..count {
        lanes.push(shared.lane()?)?;
    }
    Ok(())
}

/// Plays a scene, with the lanes that are handed in at its end.
fn plays<R: Abort + Wait + Threads + Sync>(
    rt: &R,
    alloc: Global,
    shared: &mut Shared,
    lanes: &mut Vec<Lane>,
    readers: &mut Vec<Reader>,
    scene: Scene<'_>,
) -> Result<(), Fault> {
    add_lanes(shared, lanes, scene.lanes())?;
    match scene {
        Scene::ByTurns(table) => playing::answers(rt, alloc, shared, lanes, table),
        Scene::AllLanes => {
            all_lanes::calls_last(rt, shared, lanes);
            Ok(())
        }
        Scene::Holds(moves) => plays_moves(rt, alloc, shared, lanes, readers, moves),
        Scene::Closes(case) => plays_a_case(rt, alloc, shared, lanes, case),
        Scene::Members(script) => plays_members(rt, alloc, shared, lanes, readers, script),
    }
}

/// Closes, and is answered as is due. A refusal hands back all lanes and what was to be closed, which can be closed
/// again.
fn closes(
    rt: &impl Abort,
    alloc: Global,
    limits: Limits,
    shared: Shared,
    lanes: Vec<Lane>,
    scene: Scene<'_>,
) {
    let handed = lanes.len();
    let due = scene.cause();
    match shared.close(lanes) {
        Ok(closed) => {
            holds(rt, due.is_none());
            shows(rt, alloc, limits, closed.journal.as_slice(), scene);
            drop(closed);
        }
        Err(refused) => {
            same(rt, due, Some(refused.cause));
            same(rt, refused.lanes.len(), handed);
            same(rt, closes_again(refused), scene.is_mended());
        }
    }
}

/// What a journal shows: a run of its script prints the same, whatever the scene.
fn shows(rt: &impl Abort, alloc: Global, limits: Limits, journal: &[Entry], scene: Scene<'_>) {
    replays(rt, alloc, limits, journal);
    match scene {
        Scene::Members(Script::InTurn) => holds(rt, is_in_turn(journal)),
        _ => holds(rt, journal.len() >= 3),
    }
}

fn over_pins<R: Abort + Wait + Threads + Sync>(
    rt: &R,
    alloc: Global,
    limits: Limits,
    opening: Opening,
    pins: &Pins,
    count: usize,
    scene: Scene<'_>,
) -> Result<(), Fault>
    requires opens { opening ≡ pins.now }
    requires shape { pins.now.shape ≡ shape_of limits }
{
    let (mut shared, mut readers) = shared_with(alloc, limits, opening, pins, count)?;
    let mut lanes = Vec::new(alloc);
    let played = plays(rt, alloc, &mut shared, &mut lanes, &mut readers, scene);
    drop(readers);
    match played {
        Ok(()) => {
            closes(rt, alloc, limits, shared, lanes, scene);
            Ok(())
        }
        Err(fault) => {
            drop(shared);
            drop(lanes);
            Err(fault)
        }
    }
}

/// Plays a scene over a new manager behind its lock, with so many readers, and closes it.
pub(super) fn over_shared<R: Abort + Wait + Threads + Sync>(
    rt: &R,
    alloc: Global,
    limits: Limits,
    count: usize,
    scene: Scene<'_>,
) -> Result<(), Fault> {
    let (pins, opening) = pins_for(alloc, limits)?;
    over_pins(rt, alloc, limits, opening, &pins, count, scene)
}
