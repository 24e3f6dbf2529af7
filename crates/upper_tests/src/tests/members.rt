//! Members that are driven, and what they show.
ghost use Rattle.std.specs.Prelude.{All, IsTrue};
ghost use Rattle.ob_shared.specs.Members.{IsNew};

use super::playing::answers;
use super::turns::{Turns, Until};
use super::{crowd, holds, turns, wanting};
use call_tables::{Line, to_call};
use ob_manager::Ask;
use ob_rights::Fault;
use ob_shared::{Act, Gate, Lane, Member, OpenGate, Shared, drive};
use pin_core::Id;
use pin_words::Reader;
use std::alloc::{AllocError, Global};
use std::process::Abort;
use std::sync::Wait;
use std::thread::Threads;

/// What members are to do.
#[derive(Clone, Copy)]
pub(super) enum Script {
    InTurn,
    Stops,
    Crowd,
    Waits,
}

/// An act, with the name or the handles of its call borrowed.
#[derive(Clone, Copy)]
pub(super) enum Deed<'a> {
    Ask(Ask<'a>),
    Pin(Id),
    Unpin(Id),
    ShowCard(Id),
    Block,
}

impl Deed<'_> {
    /// The act, with a name or handles of its own.
    fn to_act(self, alloc: Global) -> Result<Act, AllocError> {
        match self {
            Deed::Ask(ask) => Ok(Act::Ask(to_call(&ask, alloc)?)),
            Deed::Pin(id) => Ok(Act::Pin(id)),
            Deed::Unpin(id) => Ok(Act::Unpin(id)),
            Deed::ShowCard(id) => Ok(Act::ShowCard(id)),
            Deed::Block => Ok(Act::Block),
        }
    }
}

/// How many acts a member has.
fn acts_of(script: Script) -> usize {
    match script {
        Script::InTurn => 1,
        Script::Stops => turns::ACTS,
        Script::Crowd => crowd::ACTS,
        Script::Waits => wanting::ACTS,
    }
}

/// The act of the member of a lane, at a place of its script.
fn act_at(script: Script, number: u32, place: usize) -> Deed<'static> {
    match script {
        Script::InTurn => turns::deed(number),
        Script::Crowd => crowd::deed(number, place),
        Script::Stops | Script::Waits => wanting::DEED,
    }
}

/// Adds the acts of a member.
fn add_acts(
    alloc: Global,
    acts: &mut Vec<Act>,
    script: Script,
    number: u32,
) -> Result<(), AllocError> {
    let many = acts_of(script);
    if acts.reserve(many).is_err() {
        acts.reserve(many)?;
    }
    for place in 0..many {
        acts.push(act_at(script, number, place).to_act(alloc)?)?;
    }
    Ok(())
}

/// Adds a member with a reader and without acts, if there is a reader.
fn add_member(
    alloc: Global,
    shared: &mut Shared,
    readers: &mut Vec<Reader>,
    members: &mut Vec<Member>,
) -> Result<(), Fault> {
    if let Some(reader) = readers.pop() {
        members.push(Member {
            lane: shared.lane()?,
            reader,
            script: Vec::new(alloc),
            seen: Vec::new(alloc),
        })?;
    }
    Ok(())
}

/// Adds a member for each reader.
fn add_members(
    alloc: Global,
    shared: &mut Shared,
    readers: &mut Vec<Reader>,
    members: &mut Vec<Member>,
    script: Script,
) -> Result<(), Fault> {
    let many = readers.len();
    if members.reserve(many).is_err() {
        members.reserve(many)?;
    }
    for _ in 0..many {
        add_member(alloc, shared, readers, members)?;
        if let Some(member) = members.last_mut() {
            let number = member.lane.number();
            add_acts(alloc, &mut member.script, script, number)?;
        }
    }
    Ok(())
}

/// Whether no member has seen anything.
fn all_new(members: &[Member]) -> bool
    ensures { IsTrue result → All IsNew members.now }
{
    members.iter().all(|member| member.seen.is_empty())
}

/// Whether nothing was done in a member, which has so many acts.
fn is_untouched(member: &Member, acts: usize) -> bool {
    member.seen.is_empty()
        && member.script.len() == acts
        && member.lane.receipts().is_empty()
        && member.reader.held().is_empty()
}

fn tries<R: Abort + Wait + Threads + Sync, G: Gate + Sync>(
    rt: &R,
    shared: &Shared,
    gate: &G,
    members: &mut [Member],
) -> bool {
    holds(rt, all_new(members));
    holds(rt, members.len() <= 64);
    drive(rt, shared, gate, members).is_ok()
}

/// Drives, and where memory is wanting drives again what is untouched.
fn drives<R: Abort + Wait + Threads + Sync, G: Gate + Sync>(
    rt: &R,
    shared: &Shared,
    gate: &G,
    members: &mut [Member],
    acts: usize,
) {
    if !tries(rt, shared, gate, members) {
        holds(rt, members.iter().all(|member| is_untouched(member, acts)));
        holds(rt, tries(rt, shared, gate, members));
    }
}

/// Drives up to a place.
fn drives_until<R: Abort + Wait + Threads + Sync>(
    rt: &R,
    shared: &Shared,
    members: &mut [Member],
    acts: usize,
) {
    let gate = Until::new(turns::PASSED);
    drives(rt, shared, &gate, members, acts);
    holds(rt, gate.was_told_all());
}

/// Whether the members have seen what they should, and as much.
fn are_done(members: &[Member], script: Script) -> bool {
    let acts = acts_of(script);
    let is_whole = members.iter().all(|member| member.seen.len() == acts);
    match script {
        Script::Stops => turns::is_stopped(members),
        _ => is_whole && have_seen(members, script),
    }
}

/// Whether the members have seen what they should.
fn have_seen(members: &[Member], script: Script) -> bool {
    match script {
        Script::InTurn => turns::are_done(members),
        Script::Crowd => members.iter().all(|member| crowd::is_done(member)),
        Script::Stops | Script::Waits => true,
    }
}

/// Drives past a script's gate. The members have seen what they should.
fn drives_all<R: Abort + Wait + Threads + Sync>(
    rt: &R,
    shared: &Shared,
    members: &mut [Member],
    script: Script,
) {
    let acts = acts_of(script);
    match script {
        Script::InTurn => drives(rt, shared, &Turns::new(), members, acts),
        Script::Stops => drives_until(rt, shared, members, acts),
        _ => drives(rt, shared, &OpenGate, members, acts),
    }
    holds(rt, are_done(members, script));
}

/// The calls of a script's first lane.
fn before(script: Script) -> &'static [Line<'static>] {
    match script {
        Script::InTurn => turns::BEFORE,
        Script::Crowd => &[],
        Script::Stops | Script::Waits => wanting::BEFORE,
    }
}

/// Adds the lanes of all members.
fn add_lanes_of(lanes: &mut Vec<Lane>, members: Vec<Member>) -> Result<(), Fault> {
    for member in members {
        let Member { lane, .. } = member;
        lanes.push(lane)?;
    }
    Ok(())
}

/// The first lane and the members do all they do. Their lanes are added.
pub(super) fn plays_members<R: Abort + Wait + Threads + Sync>(
    rt: &R,
    alloc: Global,
    shared: &mut Shared,
    lanes: &mut Vec<Lane>,
    readers: &mut Vec<Reader>,
    script: Script,
) -> Result<(), Fault> {
    answers(rt, alloc, shared, lanes, before(script))?;
    if let Script::Crowd = script {
        crowd::begins(rt, alloc, shared, lanes)?;
    }
    let mut members = Vec::new(alloc);
    match add_members(alloc, shared, readers, &mut members, script) {
        Ok(()) => {
            drives_all(rt, shared, members.as_mut_slice(), script);
            add_lanes_of(lanes, members)
        }
        Err(fault) => {
            drop(members);
            Err(fault)
        }
    }
}
