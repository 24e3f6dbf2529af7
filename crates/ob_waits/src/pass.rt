ghost use Rattle.std.specs.Prelude.{[], ◌∷◌, ◌≡◌, ◌<◌, ◌≤◌, true, false, IfSome, None, Some, drop};
ghost use Rattle.std.specs.Prelude.{if◌then◌else◌, length, slice_index_or};
ghost use Rattle.ob_waits.specs.CountedBodies.{without_blocks};
ghost use Rattle.ob_waits.specs.RisingNumbers.{numbers_of, Thins};
ghost use Rattle.ob_waits.specs.PendingIndex.{IsRight};
ghost use Rattle.ob_waits.specs.Rules.{Covers, Fits, IsReadyAt, IsReadyAtOne, IsRising, IsSettled};
ghost use Rattle.ob_waits.specs.Waits.{is_pending, passed, settled};

use crate::bodies::Bodies;
use crate::live::Live;
use crate::merge::next_number;
use crate::open::is_open;
use crate::pending_index::PendingIndex;
use crate::take::try_at;
use crate::wait::State;
use ob_body::RECURSION_MAX;
use pin_core::Id;

/// Takes the wait block of each listed object away, as where a pending wait ends by its time or with its thread. An
/// object whose last block leaves so, and which has no handle, ends.
#[inline(always)]
pub fn leave_all<B: Bodies>(bodies: &mut B, ids: &[Id])
    ensures objects { B.objects bodies.new ≡ without_blocks (B.objects bodies.old) ids.now }
    ensures rest { B.rest bodies.new ≡ B.rest bodies.old }
{
    if let [id] = ids {
        bodies.block_left(*id);
        return;
    }
    leave_each(bodies, ids);
}

/// The same of several, apart since most waits are for one.
#[inline(never)]
fn leave_each<B: Bodies>(bodies: &mut B, ids: &[Id])
    ensures objects { B.objects bodies.new ≡ without_blocks (B.objects bodies.old) ids.now }
    ensures rest { B.rest bodies.new ≡ B.rest bodies.old }
{
    for id in ids {
        bodies.block_left(*id);
    }
}

/// The wait of a number takes effect, if it is ready: by the slot, where one is given. Answers whether it is still
/// pending.
#[inline(always)]
#[tactic(auto, using(crate::proofs::PassLaws::answered_not_pending))]
fn take_effect<B: Bodies>(live: &mut Live, bodies: &mut B, number: u32, slot: Option<u32>) -> bool
    requires fits { Fits RECURSION_MAX (B.objects bodies.old).bodies live.old }
    requires ready { IfSome slot (λ s. IsReadyAt s (B.objects bodies.old).bodies live.old) }
    ensures pending { result ≡ is_pending (slice_index_or live.new number None) }
    ensures rest { B.rest bodies.new ≡ B.rest bodies.old }
    ensures scene { record { objects = B.objects bodies.new; waits = live.new }
        ≡ passed (number ∷ []) (record { objects = B.objects bodies.old; waits = live.old }) }
{
    let Some(wait) = live.get(number) else {
        return false;
    };
    let State::Pending(mode, ids) = &wait.state else {
        return false;
    };
    let (thread, ids) = (wait.thread, ids.as_slice());
    let Some(code) = try_at(bodies, thread, *mode, ids, slot) else {
        return true;
    };
    leave_all(bodies, ids);
    live.answer(thread, number, code);
    false
}

/// The waits of these numbers take effect, in this order, where they are ready when their turn comes.
#[tactic(auto, using(crate::proofs::PassLaws::covered_all))]
pub(crate) fn pass<B: Bodies>(live: &mut Live, bodies: &mut B, numbers: &[u32])
    requires fits { Fits RECURSION_MAX (B.objects bodies.old).bodies live.old }
    requires rising { IsRising numbers.now }
    requires covers { Covers numbers.now (record { objects = B.objects bodies.old; waits = live.old }) }
    ensures rest { B.rest bodies.new ≡ B.rest bodies.old }
    ensures scene { record { objects = B.objects bodies.new; waits = live.new }
        ≡ settled (record { objects = B.objects bodies.old; waits = live.old }) }
{
    for number in numbers {
        let _ = take_effect(live, bodies, *number, None);
    }
}

/// The later of two counts, where it is there.
#[inline(always)]
fn latest(is_there: bool, later: usize, earlier: usize) -> usize
    ensures { result ≡ if is_there then later else earlier }
{
    if is_there { later } else { earlier }
}

/// The waits for an object in the slot take effect where they are ready, in the order of their numbers, until nobody
/// who waits can have the object any more. Answers how many come up to the last one that isn't pending then, and whether
/// none of these is.
pub(crate) fn pass_slot<B: Bodies>(
    live: &mut Live,
    bodies: &mut B,
    pending_index: &PendingIndex,
    id: Id,
) -> (usize, bool)
    requires fits { Fits RECURSION_MAX (B.objects bodies.old).bodies live.old }
    requires right { IsRight live.old pending_index.now }
    requires ready { IsReadyAt id.slot (B.objects bodies.old).bodies live.old }
    ensures rest { B.rest bodies.new ≡ B.rest bodies.old }
    ensures scene { record { objects = B.objects bodies.new; waits = live.new }
        ≡ settled (record { objects = B.objects bodies.old; waits = live.old }) }
    ensures bound { result.0 ≤ length (numbers_of pending_index.now.index id.slot) }
    ensures all { result.1 ≡ true → Thins live.new (numbers_of pending_index.now.index id.slot)
        (drop result.0 (numbers_of pending_index.now.index id.slot)) }
{
    let (mut over, mut all) = (0, true);
    for (at, number) in pending_index.numbers(id.slot).iter().enumerate() {
        // Whether it is open is asked before the second, and again behind each wait that is over.
        if at > 0 && (at == 1 || over == at) && !is_open(live, bodies, id) {
            return (over, all);
        }
        let is_over = !take_effect(live, bodies, *number, Some(id.slot));
        all = is_over & all;
        over = latest(is_over, at + 1, over);
    }
    (over, all)
}

/// The waits for an object in the slots of these take effect where they are ready, in the order of their numbers over
/// all these slots together, until so many were looked at. Answers whether no more is ready.
fn pass_some<B: Bodies>(
    live: &mut Live,
    bodies: &mut B,
    pending_index: &PendingIndex,
    ids: &[Id],
    count: usize,
) -> bool
    requires fits { Fits RECURSION_MAX (B.objects bodies.old).bodies live.old }
    requires right { IsRight live.old pending_index.now }
    requires zero { slice_index_or live.old 0 None ≡ None }
    requires ready { IsReadyAtOne ids.now (B.objects bodies.old).bodies live.old }
    ensures rest { B.rest bodies.new ≡ B.rest bodies.old }
    ensures fits { Fits RECURSION_MAX (B.objects bodies.new).bodies live.new }
    ensures covers { Covers pending_index.now.order (record { objects = B.objects bodies.new; waits = live.new }) }
    ensures same { settled (record { objects = B.objects bodies.new; waits = live.new })
        ≡ settled (record { objects = B.objects bodies.old; waits = live.old }) }
    ensures all { result ≡ true → IsSettled (B.objects bodies.new).bodies live.new }
{
    let mut last = 0;
    for _ in 0..count {
        let Some(number) = next_number(live, bodies, pending_index, ids, last) else {
            return true;
        };
        let _ = take_effect(live, bodies, number, None);
        last = number;
    }
    false
}

/// Settles, where only waits for objects in the slots of these can be ready. Where that would look at more numbers than
/// there are waits, the rest settles by the waits of all slots.
pub(crate) fn pass_each<B: Bodies>(
    live: &mut Live,
    bodies: &mut B,
    pending_index: &PendingIndex,
    ids: &[Id],
)
    requires fits { Fits RECURSION_MAX (B.objects bodies.old).bodies live.old }
    requires right { IsRight live.old pending_index.now }
    requires zero { slice_index_or live.old 0 None ≡ None }
    requires ready { IsReadyAtOne ids.now (B.objects bodies.old).bodies live.old }
    ensures rest { B.rest bodies.new ≡ B.rest bodies.old }
    ensures scene { record { objects = B.objects bodies.new; waits = live.new }
        ≡ settled (record { objects = B.objects bodies.old; waits = live.old }) }
{
    let order = pending_index.order();
    if order.is_empty() {
        return;
    }
    if !pass_some(
        live,
        bodies,
        pending_index,
        ids,
        order.len() / ids.len().max(1),
    ) {
        pass(live, bodies, order);
    }
}
