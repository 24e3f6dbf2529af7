// The live threads of each process, in an ordered set.
ghost use Rattle.std.specs.Prelude.{List, Option, ℕ, ◌≡◌, ◌+◌, ◌<◌, ◌≤◌, IfOk, None, OnOk, length, slice_index_or, take};
ghost use Rattle.least.specs.From.{IsLeastFrom};
ghost use Rattle.ob_tables.specs.Members.{AreMembers, key};
ghost use Rattle.ob_tables.specs.Processes.{is_of};

use std::alloc::{AllocError, Global};
use std::collections::BTreeSet;

/// A thread of a process as one number: those of one process stand together, by rising number.
pub(crate) fn key(process: u32, thread: u32) -> u64
    ensures { result ≡ key process thread }
{
    u64::from(process) * 4_294_967_296 + u64::from(thread)
}

/// The least thread of a process, from `from` on. Its cost grows with the logarithm of the threads.
pub(crate) fn first_from(members: &BTreeSet<u64, Global>, process: u32, from: u32) -> Option<u32>
    ensures { (threads : List (Option ℕ)) → AreMembers threads members.now
        → IsLeastFrom from (λ thread. is_of process (slice_index_or threads thread None)) result }
{
    let mut range = members.range(key(process, from)..=key(process, u32::MAX));
    match range.next() {
        Some(member) => Some((*member % 4_294_967_296) as u32),
        None => None,
    }
}

/// Adds the thread of a number, if that is live.
fn add_live(
    members: &mut BTreeSet<u64, Global>,
    threads: &[Option<u32>],
    thread: usize,
) -> Result<(), AllocError>
    requires thread { thread < length threads.now }
    requires few { length threads.now ≤ 65537 }
    requires so_far { AreMembers (take thread threads.now) members.old }
    ensures { OnOk result (AreMembers (take (thread + 1) threads.now) members.new) }
{
    if let Some(process) = threads[thread] {
        let _ = members.insert(key(process, thread as u32))?;
    }
    Ok(())
}

/// The live threads of each process, from the process of each.
pub(crate) fn members_of(
    alloc: Global,
    threads: &[Option<u32>],
) -> Result<BTreeSet<u64, Global>, AllocError>
    requires { length threads.now ≤ 65537 }
    ensures { IfOk result (λ members. AreMembers threads.now members) }
{
    let mut members = BTreeSet::new(alloc);
    for thread in 0..threads.len() {
        add_live(&mut members, threads, thread)?;
    }
    Ok(members)
}
