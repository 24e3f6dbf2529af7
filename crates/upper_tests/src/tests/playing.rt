//! Tables of calls, played in the lanes of a manager behind its lock.
use super::holds_at;
use super::opening::{Scene, over_shared};
use call_tables::{Line, ROWS, to_call};
use ob_manager::{Ask, Call, Limits, Reply};
use ob_rights::Fault;
use ob_shared::{Lane, Shared};
use std::alloc::Global;
use std::process::Abort;
use std::sync::Wait;
use std::test::Fail;

/// The reply to a call of a lane.
fn asked_once<R: Wait>(
    rt: &R,
    alloc: Global,
    shared: &Shared,
    lane: &mut Lane,
    ask: Ask<'_>,
) -> Result<Reply, Fault> {
    Ok(shared.call(rt, lane, to_call(&ask, alloc)?))
}

/// The reply to a call of a lane. It is made again where memory was wanting: nothing was changed then, but the lane may
/// list that the manager refused it.
fn asked<R: Wait>(
    rt: &R,
    alloc: Global,
    shared: &Shared,
    lane: &mut Lane,
    ask: Ask<'_>,
) -> Result<Reply, Fault> {
    let reply = asked_once(rt, alloc, shared, lane, ask)?;
    if reply != Reply::Refused(Fault::Memory) {
        return Ok(reply);
    }
    asked_once(rt, alloc, shared, lane, ask)
}

/// Whether the call with this reply is the last one that is listed in a lane.
pub(super) fn is_last(lane: &Lane, call: &Call, reply: Reply) -> bool {
    match lane.receipts().last() {
        Some(receipt) => {
            let entry = receipt.entry();
            entry.lane == lane.number() && entry.call.is_same(call) && entry.reply == reply
        }
        None => false,
    }
}

/// Makes a call in a lane. Whether its reply is the one that is due, and the lane lists it.
pub(super) fn is_answered<R: Wait>(
    rt: &R,
    alloc: Global,
    shared: &Shared,
    lane: &mut Lane,
    line: Line<'_>,
) -> Result<bool, Fault> {
    let (ask, due) = line;
    let listed = lane.receipts().len();
    let reply = asked(rt, alloc, shared, lane, ask)?;
    let call = to_call(&ask, alloc)?;
    let is_listed = is_last(lane, &call, reply);
    drop(call);
    Ok(is_listed && reply == due && lane.receipts().len() > listed)
}

/// The same in the lanes by turns.
pub(super) fn is_answered_at<R: Wait>(
    rt: &R,
    alloc: Global,
    shared: &Shared,
    lanes: &mut Vec<Lane>,
    place: usize,
    line: Line<'_>,
) -> Result<bool, Fault> {
    let count = lanes.len();
    if count == 0 {
        return Ok(false);
    }
    match lanes.get_mut(place % count) {
        Some(lane) => is_answered(rt, alloc, shared, lane, line),
        None => Ok(false),
    }
}

/// Makes the calls of a table, one after another, in the lanes by turns.
pub(super) fn answers<R: Abort + Wait>(
    rt: &R,
    alloc: Global,
    shared: &Shared,
    lanes: &mut Vec<Lane>,
    table: &[Line<'_>],
) -> Result<(), Fault> {
    for (place, line) in table.iter().enumerate() {
        let is_good = is_answered_at(rt, alloc, shared, lanes, place, *line)?;
        holds_at(rt, is_good, place);
    }
    Ok(())
}

#[test]
fn rows_are_answered_in_two_lanes(rt: HostRuntime) -> Result<(), Fail> {
    for row in ROWS {
        over_shared(&rt, rt.alloc(), Limits::default(), 1, Scene::ByTurns(row))?;
    }
    Ok(())
}
