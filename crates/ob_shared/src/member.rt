ghost use Rattle.std.specs.Prelude.{◌≡◌, ◌<◌, false, true, [], IfNone, IfSome, vec_len, vec_capacity};
ghost use Rattle.ob_manager.specs.Calls.{begins_wait};
ghost use Rattle.ob_shared.specs.declared.gate.Pass.TheVariants.{Go, Stop};
ghost use Rattle.ob_shared.specs.Lanes.{Lists};
ghost use Rattle.ob_shared.specs.Members.{ActAnswered, Blocks, IsDriven, IsReady, between, with_wait};

use crate::act::{Act, Seen};
use crate::gate::{Pass, Passage};
use crate::lane::Lane;
use crate::reading::{pin_descr, show, unpin};
use crate::shared::Shared;
use ob_manager::{Call, Reply};
use ob_rights::Fault;
use pin_words::Reader;
use std::sync::Wait;

/// A caller of a [`Shared`] that does the acts of a script on a thread of its own.
#[derive(Drop)]
pub struct Member {
    /// Where its calls are listed.
    pub lane: Lane,
    /// What it pins by.
    pub reader: Reader,
    /// What it is to do, in this order.
    pub script: Vec<Act>,
    /// What its acts were answered with, in their order.
    pub seen: Vec<Seen>,
}

/// Whether a call may leave its thread with a pending wait.
fn begins_wait(call: &Call) -> bool
    ensures { result ≡ begins_wait call.now }
{
    matches!(
        call,
        Call::WaitFor { .. } | Call::SignalAndWait { .. } | Call::Sleep { .. }
    )
}

/// Keeps a wait that is pending, so that it can be blocked on.
fn keep(waits: &mut Vec<u32>, waited: bool, reply: Reply)
    requires { vec_len waits.old < vec_capacity waits.old }
    ensures { waits.new.items ≡ with_wait waited reply waits.old.items }
{
    match reply {
        Reply::Pending { wait } | Reply::Signaled { wait } if waited => waits.push_reserved(wait),
        _ => {}
    }
}

/// Makes a copy of a call, and the call by that copy, and keeps the wait that it leaves pending, if any. Where memory
/// for this is wanting the answer is 8.
fn ask<R: Wait>(
    rt: &R,
    shared: &Shared,
    lane: &mut Lane,
    waits: &mut Vec<u32>,
    call: &Call,
) -> Reply
    ensures listed { Lists lane.old call.now result lane.new }
    ensures number { lane.new.number ≡ lane.old.number }
    ensures waits { waits.new.items ≡ with_wait (begins_wait call.now) result waits.old.items }
{
    let Ok(copy) = call.copy(shared.alloc()) else {
        return Reply::Refused(Fault::Memory);
    };
    if waits.reserve(1).is_err() {
        return Reply::Refused(Fault::Memory);
    }
    let reply = shared.call(rt, lane, copy);
    keep(waits, begins_wait(call), reply);
    reply
}

/// Waits for the last wait that is kept, if there is one, and takes it unless the answer is 8.
fn block<R: Wait>(rt: &R, shared: &Shared, lane: &mut Lane, waits: &mut Vec<u32>) -> Option<Reply>
    ensures none { IfNone result ((waits.old.items ≡ []) × (waits.new.items ≡ []) × (lane.new ≡ lane.old)) }
    ensures found { IfSome result (λ reply. Blocks reply lane.old waits.old.items lane.new waits.new.items) }
    ensures number { lane.new.number ≡ lane.old.number }
{
    let wait = waits.pop()?;
    let reply = shared.block(rt, lane, wait);
    if reply == Reply::Refused(Fault::Memory) {
        waits.push_reserved(wait);
    }
    Some(reply)
}

/// What an act is answered with.
fn answer<R: Wait>(
    rt: &R,
    shared: &Shared,
    lane: &mut Lane,
    reader: &mut Reader,
    waits: &mut Vec<u32>,
    act: &Act,
) -> Seen
    ensures answers { ActAnswered act.now result (between lane.old waits.old.items reader.old)
        (between lane.new waits.new.items reader.new) }
    ensures number { lane.new.number ≡ lane.old.number }
{
    match act {
        Act::Ask(call) => Seen::Reply(ask(rt, shared, lane, waits, call)),
        Act::Pin(id) => Seen::Pinned(pin_descr(rt, reader, *id)),
        Act::Unpin(id) => Seen::Unpinned(unpin(reader, *id)),
        Act::ShowCard(id) => Seen::Shown(show(rt, shared, reader, *id)),
        Act::Block => Seen::Blocked(block(rt, shared, lane, waits)),
    }
}

/// Whether the gate lets a member of the lane do its act at the place.
fn passes<R: Wait, G: Passage>(rt: &R, gate: &G, lane: u32, place: usize) -> bool
    ensures go { result ≡ true → G.may_answer gate.now lane place Go }
    ensures stop { result ≡ false → G.may_answer gate.now lane place Stop }
{
    gate.enter(rt, lane, place) == Pass::Go
}

/// Does a member's acts, as long as the gate lets it pass.
#[tactic(auto, using(crate::proofs::Going::run_laws))]
pub(crate) fn run<R: Wait, G: Passage>(rt: &R, shared: &Shared, gate: &G, member: &mut Member)
    requires { IsReady member.old }
    ensures { IsDriven (G.may_answer gate.now) (G.is_told gate.now) member.old member.new }
{
    let mut waits = Vec::new(shared.alloc());
    for place in 0..member.script.len() {
        if !passes(rt, gate, member.lane.number(), place) {
            member.seen.push_reserved(Seen::Stopped);
            return;
        }
        let seen = answer(
            rt,
            shared,
            &mut member.lane,
            &mut member.reader,
            &mut waits,
            &member.script[place],
        );
        gate.leave(rt, member.lane.number(), place, seen);
        member.seen.push_reserved(seen);
    }
}
