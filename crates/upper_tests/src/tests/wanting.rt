use super::FIRST;
use super::members::{Deed, Script};
use super::opening::{Scene, over_shared};
use call_tables::{Line, PLAIN};
use ob_manager::CallOf::{MakeEvent, Spawn, WaitFor};
use ob_manager::Reply::{Made, Spawned};
use ob_manager::{Limits, Mode, Timeout};
use std::test::Fail;

/// How many acts a member does.
pub(super) const ACTS: usize = 40;

/// The member waits for an event, but not for long.
pub(super) const DEED: Deed<'static> = Deed::Ask(WaitFor {
    thread: 1,
    mode: Mode::Any,
    timeout: Timeout::Zero,
    handles: &[4],
});

/// A process, and an event.
#[rattlefmt::skip]
pub(super) const BEFORE: &[Line<'static>] = &[
    (Spawn { session: 1 }, Spawned { process: 1, thread: 1 }),
    (MakeEvent { thread: 1, make: PLAIN, manual: false, set: false }, Made { handle: 4, id: FIRST }),
];

#[test]
fn want_of_memory_leaves_members_as_they_were(rt: HostRuntime) -> Result<(), Fail> {
    let scene = Scene::Members(Script::Waits);
    over_shared(&rt, rt.alloc(), Limits::default(), 3, scene)?;
    Ok(())
}
