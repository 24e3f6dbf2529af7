//! Members, each of which sets an event of its own again and again, in a thread of its own.
ghost use Rattle.std.specs.Prelude.{All, IsTrue};
ghost use Rattle.ob_shared.specs.Members.{IsNew};

use ob_manager::{Call, Making};
use ob_shared::{Act, Lane, Member, OpenGate, Shared, drive};
use pin_words::Reader;
use std::alloc::Global;
use std::sync::Wait;
use std::thread::Threads;
use std::time::{Clock, Instant};

/// Calls of each member.
pub const CALLS: usize = 20_000;

/// How many events there are. Their slots' words take several cache lines.
const EVENTS: u32 = 64;

/// Threads 1 to 8 of one process, and the events, with one handle for each.
pub fn prepares<R: Wait>(rt: &R, alloc: Global, shared: &Shared, lane: &mut Lane) {
    shared.call(rt, lane, Call::Spawn { session: 1 });
    for _ in 0..7 {
        shared.call(rt, lane, Call::StartThread { process: 1 });
    }
    for _ in 0..EVENTS {
        shared.call(rt, lane, event(alloc));
    }
}

fn event(alloc: Global) -> Call {
    Call::MakeEvent {
        thread: 1,
        make: Making::unnamed(alloc, false, None, None),
        manual: true,
        set: false,
    }
}

/// The thread of a lane sets its event.
fn set(lane: u32) -> Call {
    Call::SetEvent {
        thread: lane % 8 + 1,
        handle: lane % 8 * 4 + 4,
    }
}

fn member(alloc: Global, lane: Lane, reader: Reader) -> Option<Member> {
    let mut member = Member {
        lane,
        reader,
        script: Vec::new(alloc),
        seen: Vec::new(alloc),
    };
    fill(&mut member)?;
    Some(member)
}

fn fill(member: &mut Member) -> Option<()> {
    let number = member.lane.number();
    for _ in 0..CALLS {
        member.script.push(Act::Ask(set(number))).ok()?;
    }
    Some(())
}

/// A member for each reader, in the lanes from the next one on.
pub fn members_of(
    alloc: Global,
    shared: &mut Shared,
    readers: &mut Vec<Reader>,
) -> Option<Vec<Member>> {
    let mut members = Vec::new(alloc);
    for _ in 0..readers.len() {
        let reader = readers.pop()?;
        let lane = shared.lane().ok()?;
        members.push(member(alloc, lane, reader)?).ok()?;
    }
    Some(members)
}

fn all_new(members: &[Member]) -> bool
    ensures { IsTrue result → All IsNew members.now }
{
    members.iter().all(|member| member.seen.is_empty())
}

/// Nanoseconds until all members are driven, their threads' start and end included.
pub fn driven<R: Threads + Wait + Clock + Sync>(
    rt: &R,
    shared: &Shared,
    members: &mut [Member],
) -> Option<u128> {
    if members.len() > 64 || !all_new(members) {
        return None;
    }
    let began = Instant::now(rt).ok()?;
    drive(rt, shared, &OpenGate, members).ok()?;
    Some(began.elapsed(rt).ok()?.as_nanos())
}
