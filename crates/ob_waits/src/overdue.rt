ghost use Rattle.std.specs.Prelude.{◌≡◌, ◌≢◌, ℕ, IfNone, IfSome, None, OnOk, Some, false, map, true, slice_index_or};
ghost use Rattle.least.specs.Dues.{IsLeast, due_at};
ghost use Rattle.ob_waits.specs.Deadlines.{AreListed, deadline_of, is_overdue};

use crate::live::Live;
use least::Dues;
use std::alloc::AllocError;

/// Lists the deadline of a wait that a thread begins, where it has one, as most haven't. One that is listed for an
/// earlier wait of the thread may stay else.
#[inline]
pub(crate) fn list_deadline(
    deadlines: &mut Dues,
    thread: u32,
    deadline: Option<u64>,
) -> Result<(), AllocError>
    ensures others { (t : ℕ) → t ≢ thread → due_at deadlines.new t ≡ due_at deadlines.old t }
    ensures listed { OnOk result ((due : ℕ) → deadline ≡ Some due → due_at deadlines.new thread ≡ Some due) }
{
    let Some(due) = deadline else {
        return Ok(());
    };
    deadlines.make_room(thread)?;
    deadlines.set(thread, Some(due));
    Ok(())
}

/// A pending wait whose deadline isn't after a moment. The deadlines of waits that were answered before are dropped on
/// the way.
pub(crate) fn next_overdue(live: &Live, deadlines: &mut Dues, now: u64) -> Option<u32>
    requires { AreListed live.now deadlines.old }
    ensures listed { AreListed live.now deadlines.new }
    ensures found { IfSome result (λ wait. is_overdue now (slice_index_or live.now wait None) ≡ true) }
    ensures none { IfNone result ((n : ℕ) → is_overdue now (slice_index_or live.now n None) ≡ false) }
{
    while let Some(thread) = deadlines.due_by(now) {
        if let Some(number) = live.overdue_of(thread, now) {
            return Some(number);
        }
        deadlines.clear(thread);
    }
    None
}

/// The least deadline of the pending waits. Those of waits that were answered before are dropped on the way.
pub(crate) fn next_due(live: &Live, deadlines: &mut Dues) -> Option<u64>
    requires { AreListed live.now deadlines.old }
    ensures listed { AreListed live.now deadlines.new }
    ensures least { IsLeast (map deadline_of live.now) result }
{
    while let Some(due) = deadlines.least() {
        let Some(thread) = deadlines.due_by(due) else {
            unreachable!()
        };
        if live.overdue_of(thread, due).is_some() {
            return Some(due);
        }
        deadlines.clear(thread);
    }
    None
}
