use super::members::{Deed, Script};
use super::opening::{Scene, over_shared};
use super::{FIRST, SECOND};
use call_tables::{Line, PLAIN};
use ob_manager::CallOf::{MakeEvent, SetEvent, Spawn, StartThread};
use ob_manager::Reply::{Made, Spawned, Started};
use ob_manager::{Limits, Reply};
use ob_shared::{Entry, Gate, Member, Pass, Seen};
use std::sync::Wait;
use std::sync::atomic::{AtomicBool, AtomicUsize, Ordering};
use std::test::Fail;

/// How often a member looks whether it may go on, before it stops.
const TURNS: u32 = 1_000_000_000;

/// Lane 2 begins once lane 1 has asked to, and lane 1 once lane 2 was answered.
#[derive(Drop)]
pub(super) struct Turns {
    has_asked: AtomicBool,
    was_answered: AtomicBool,
}

impl Turns {
    pub(super) fn new() -> Turns {
        Turns {
            has_asked: AtomicBool::new(false),
            was_answered: AtomicBool::new(false),
        }
    }
}

fn comes(flag: &AtomicBool) -> Pass {
    for _ in 0..TURNS {
        if flag.load(Ordering::SeqCst) {
            return Pass::Go;
        }
    }
    Pass::Stop
}

impl Gate for Turns {
    fn enter<R: Wait>(&self, _rt: &R, lane: u32, _place: usize) -> Pass {
        if lane == 2 {
            return comes(&self.has_asked);
        }
        self.has_asked.store(true, Ordering::SeqCst);
        comes(&self.was_answered)
    }

    fn leave<R: Wait>(&self, _rt: &R, lane: u32, _place: usize) {
        if lane == 2 {
            self.was_answered.store(true, Ordering::SeqCst);
        }
    }
}

/// Lets acts pass up to a place, each once it was told of all before it, and of nothing else. It counts how often it is
/// asked.
#[derive(Drop)]
pub(super) struct Until {
    last: usize,
    asked: AtomicUsize,
    told: AtomicUsize,
    was_told_wrong: AtomicBool,
}

impl Until {
    pub(super) fn new(last: usize) -> Until {
        Until {
            last,
            asked: AtomicUsize::new(0),
            told: AtomicUsize::new(0),
            was_told_wrong: AtomicBool::new(false),
        }
    }

    /// Whether it was asked once at each place up to the last one, and told of each before that, in their order.
    pub(super) fn was_told_all(&self) -> bool {
        self.asked.load(Ordering::SeqCst) == self.last.saturating_add(1)
            && self.told.load(Ordering::SeqCst) == self.last
            && !self.was_told_wrong.load(Ordering::SeqCst)
    }
}

impl Gate for Until {
    fn enter<R: Wait>(&self, _rt: &R, _lane: u32, place: usize) -> Pass {
        self.asked.fetch_add(1, Ordering::SeqCst);
        if place < self.last && self.told.load(Ordering::SeqCst) == place {
            Pass::Go
        } else {
            Pass::Stop
        }
    }

    fn leave<R: Wait>(&self, _rt: &R, _lane: u32, place: usize) {
        if self.told.load(Ordering::SeqCst) == place && place < self.last {
            self.told.store(place + 1, Ordering::SeqCst);
        } else {
            self.was_told_wrong.store(true, Ordering::SeqCst);
        }
    }
}

/// A process with two threads, and an event.
#[rattlefmt::skip]
pub(super) const BEFORE: &[Line<'static>] = &[
    (Spawn { session: 1 }, Spawned { process: 1, thread: 1 }),
    (StartThread { process: 1 }, Started { thread: 2 }),
    (MakeEvent { thread: 1, make: PLAIN, manual: false, set: false }, Made { handle: 4, id: FIRST }),
];

const MAKES: Deed<'static> = Deed::Ask(MakeEvent {
    thread: 1,
    make: PLAIN,
    manual: false,
    set: false,
});

const SETS: Deed<'static> = Deed::Ask(SetEvent {
    thread: 2,
    handle: 4,
});

/// Lane 2 sets the event, and lane 1 makes another one.
pub(super) fn deed(number: u32) -> Deed<'static> {
    if number == 2 { SETS } else { MAKES }
}

/// Whether a member's only act was answered so.
fn has_seen(members: &[Member], place: usize, reply: Reply) -> bool {
    match members.get(place) {
        Some(member) => member.seen.as_slice() == [Seen::Reply(reply)].as_slice(),
        None => false,
    }
}

/// Whether both members were answered as is due.
pub(super) fn are_done(members: &[Member]) -> bool {
    let made = Reply::Made {
        handle: 8,
        id: SECOND,
    };
    has_seen(members, 0, made) && has_seen(members, 1, Reply::Done)
}

/// How many acts of the member that is stopped are let pass.
pub(super) const PASSED: usize = 3;

/// How many acts it has.
pub(super) const ACTS: usize = 5;

/// Whether a member saw three answers, and was stopped before the fourth act.
pub(super) fn is_stopped(members: &[Member]) -> bool {
    match members.get(0) {
        Some(member) => {
            let seen = member.seen.as_slice();
            seen.len() == PASSED + 1
                && seen[PASSED] == Seen::Stopped
                && !seen[..PASSED].contains(&Seen::Stopped)
        }
        None => false,
    }
}

/// Whether the journal has five entries, the one of lane 2 before the one of lane 1.
pub(super) fn is_in_turn(journal: &[Entry]) -> bool {
    journal.len() == 5 && journal[3].lane == 2 && journal[4].lane == 1
}

#[test]
fn members_pass_a_gate_in_turn(rt: HostRuntime) -> Result<(), Fail> {
    let scene = Scene::Members(Script::InTurn);
    over_shared(&rt, rt.alloc(), Limits::default(), 2, scene)?;
    Ok(())
}

#[test]
fn a_gate_stops_a_member_at_a_place(rt: HostRuntime) -> Result<(), Fail> {
    let scene = Scene::Members(Script::Stops);
    over_shared(&rt, rt.alloc(), Limits::default(), 1, scene)?;
    Ok(())
}
