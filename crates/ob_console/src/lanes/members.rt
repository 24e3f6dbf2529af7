ghost use Rattle.std.specs.Prelude.{◌≡◌, ◌+◌, ◌<◌, ◌≤◌, All, IfOk, IfSome, length, vec_capacity, vec_len};
ghost use Rattle.ob_store.specs.State.{shape_of};
ghost use Rattle.ob_shared.specs.Members.{IsNew};

use crate::lanes::scripts::LaneScript;
use ob_manager::{Limits, Manager};
use ob_shared::{Lane, Member, OpenGate, Shared, drive};
use pin_words::{Opening, Pins, Reader};
use std::alloc::{AllocError, Global};
use std::sync::Wait;
use std::thread::Threads;

/// A manager behind its lock, of which nothing was asked, and so many readers of its pins; none where memory is
/// wanting.
pub fn started(
    alloc: Global,
    limits: Limits,
    pins: &Pins,
    opening: Opening,
    count: usize,
) -> Option<(Shared, Vec<Reader>)>
    requires opens { opening ≡ pins.now }
    requires shape { pins.now.shape ≡ shape_of limits }
    requires above_zero { 1 ≤ count }
    ensures lanes { IfSome result (λ parts. parts.0 ≡ 0) }
    ensures readers { IfSome result (λ parts. vec_len parts.1 ≡ count) }
{
    let Ok((mut keeper, first)) = opening.start(pins) else {
        return None;
    };
    let Ok(readers) = keeper.readers(alloc, first, count) else {
        return None;
    };
    match Manager::new(alloc, limits, keeper) {
        Ok(manager) => Some((Shared::new(alloc, manager), readers)),
        Err(_) => None,
    }
}

/// A member of the next lane, which does what the script says.
fn member(alloc: Global, shared: &mut Shared, reader: Reader, script: LaneScript) -> Member
    requires { shared.old < 65536 }
    ensures new { IsNew result }
    ensures number { result.lane.number ≡ shared.old }
    ensures acts { result.script.items ≡ script }
    ensures lanes { shared.new ≡ shared.old + 1 }
{
    let Ok(lane) = shared.lane() else {
        unreachable!();
    };
    Member {
        lane,
        reader,
        script: script.into_acts(),
        seen: Vec::new(alloc),
    }
}

/// A member for each script, in the lanes from the next one on. There are as many readers.
pub fn members_of(
    alloc: Global,
    shared: &mut Shared,
    mut readers: Vec<Reader>,
    scripts: Vec<LaneScript>,
) -> Result<Vec<Member>, AllocError>
    requires at_most { shared.old + vec_len scripts ≤ 65536 }
    requires readers { vec_len readers ≡ vec_len scripts }
    ensures new { IfOk result (λ members. All IsNew members.items) }
    ensures len { IfOk result (λ members. vec_len members ≡ vec_len scripts) }
{
    let mut members = Vec::new(alloc);
    for script in scripts {
        let Some(reader) = readers.pop() else {
            unreachable!();
        };
        members.push(member(alloc, shared, reader, script))?;
    }
    Ok(members)
}

/// Does the acts of the first member, and then those of the others at once.
pub fn drive_all<R: Threads + Wait + Sync>(
    rt: &R,
    shared: &Shared,
    members: &mut [Member],
) -> Result<(), AllocError>
    requires new { All IsNew members.old }
    requires not_empty { 1 ≤ length members.old }
    requires at_most { length members.old ≤ 65 }
{
    let (prologue, others) = members.split_at_mut(1);
    let Ok(()) = drive(rt, shared, &OpenGate, prologue) else {
        return Err(AllocError);
    };
    let Ok(()) = drive(rt, shared, &OpenGate, others) else {
        return Err(AllocError);
    };
    Ok(())
}

/// An empty list, with room for so many lanes.
pub fn room_for(alloc: Global, count: usize) -> Result<Vec<Lane>, AllocError>
    ensures none { IfOk result (λ lanes. vec_len lanes ≡ 0) }
    ensures room { IfOk result (λ lanes. count ≤ vec_capacity lanes) }
{
    let mut lanes = Vec::new(alloc);
    lanes.reserve(count)?;
    Ok(lanes)
}

/// The lanes of members, where there is room for them.
pub fn lanes_of(members: Vec<Member>, mut lanes: Vec<Lane>) -> Vec<Lane>
    requires none { vec_len lanes ≡ 0 }
    requires room { vec_len members ≤ vec_capacity lanes }
{
    for member in members {
        let Member { lane, .. } = member;
        lanes.push_reserved(lane);
    }
    lanes
}
