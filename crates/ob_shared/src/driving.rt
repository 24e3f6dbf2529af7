ghost use Rattle.std.specs.Prelude.{◌≡◌, ◌<◌, ◌≤◌, ℕ, All, IfOk, IfErr, length, slice_index_or};
ghost use Rattle.ob_rights.specs.declared.fault.Fault.TheVariants.{Memory};
ghost use Rattle.ob_shared.specs.declared.member.Member.{Member};
ghost use Rattle.ob_shared.specs.Members.{IsDriven, IsNew, IsReady, IsSame, of_places};

use crate::gate::Gate;
use crate::member::{Member, run};
use crate::shared::Shared;
use ob_rights::Fault;
use std::sync::Wait;
use std::thread;
use std::thread::Threads;

/// Makes room for each member's answers.
fn reserve(members: &mut [Member]) -> Result<(), Fault>
    requires { All IsNew members.old }
    ensures same { (i : ℕ) (d : Member) → i < length members.old
        → IsSame (slice_index_or members.old i d) (slice_index_or members.new i d) }
    ensures ok { IfOk result (λ _. All IsReady members.new) }
    ensures err { IfErr result (λ fault. fault ≡ Memory) }
{
    for i in 0..members.len() {
        let member = &mut members[i];
        let acts = member.script.len();
        member.seen.reserve(acts)?;
    }
    Ok(())
}

/// Does the acts of members that have room for their answers, as [`drive`] does.
fn drive_ready<R: Threads + Wait + Sync, G: Gate + Sync>(
    rt: &R,
    shared: &Shared,
    gate: &G,
    members: &mut [Member],
)
    requires { All IsReady members.old }
    ensures { (i : ℕ) (d : Member) → i < length members.old
        → IsDriven (G.may_answer gate.now) (of_places (G.is_told gate.now)) (slice_index_or members.old i d)
        (slice_index_or members.new i d) }
{
    if members.is_empty() {
        return;
    }
    let threads = members.len();
    thread::for_each_mut(
        rt,
        members,
        threads,
        &|_, member|
            requires { IsReady member.now }
            ensures { IsDriven (G.may_answer gate.entry.now)
                (of_places (G.is_told gate.entry.now)) member.entry.now member.exit.now }
        { run(rt, shared, gate, member) },
    );
}

/// Does the acts of each member on a thread of its own, or of one member after another where no thread can be made.
/// Each member's acts are answered in their order, as long as the gate lets it pass; how those of two members follow
/// each other isn't said. The room for the answers is made before the first act: where memory is wanting, nothing is
/// done (8).
///
/// There are at most 64 members, and none has seen anything.
pub fn drive<R: Threads + Wait + Sync, G: Gate + Sync>(
    rt: &R,
    shared: &Shared,
    gate: &G,
    members: &mut [Member],
) -> Result<(), Fault>
    requires new { All IsNew members.old }
    requires at_most { length members.old ≤ 64 }
    ensures driven { IfOk result (λ _. (i : ℕ) (d : Member) → i < length members.old
        → IsDriven (G.may_answer gate.now) (of_places (G.is_told gate.now)) (slice_index_or members.old i d)
        (slice_index_or members.new i d)) }
    ensures memory { IfErr result (λ fault. (fault ≡ Memory)
        × ((i : ℕ) (d : Member) → i < length members.old
        → IsSame (slice_index_or members.old i d) (slice_index_or members.new i d))) }
{
    reserve(members)?;
    drive_ready(rt, shared, gate, members);
    Ok(())
}
