//! As many lanes as there may be.
use super::opening::{Scene, over_shared};
use ob_manager::{Call, Limits};
use ob_shared::{Lane, Shared};
use std::sync::Wait;
use std::test::Fail;

/// How many calls are made in the last of all lanes.
const CALLS: usize = 20_000;

/// Makes calls in the last lane: so many that each lane beside each of them would take minutes to compare.
pub(super) fn calls_last<R: Wait>(rt: &R, shared: &Shared, lanes: &mut Vec<Lane>) {
    if let Some(lane) = lanes.last_mut() {
        for _ in 0..CALLS {
            let _ = shared.call(rt, lane, Call::Tick { now: 0 });
        }
    }
}

#[test]
fn all_lanes_are_compared_with_a_long_journal(rt: HostRuntime) -> Result<(), Fail> {
    over_shared(&rt, rt.alloc(), Limits::default(), 1, Scene::AllLanes)?;
    Ok(())
}
