ghost use Rattle.std.specs.Prelude.{◌≡◌, ◌⊎◌, ◌<◌, ℕ, IfSome};
ghost use Rattle.least.specs.From.{IsAtMost};
ghost use Rattle.ob_waits.specs.RisingNumbers.{IsNext, IsNextOf, numbers_of};
ghost use Rattle.ob_waits.specs.PendingIndex.{IsRight};
ghost use Rattle.ob_waits.specs.Rules.{IsRising, IsSpent, Within};

use crate::bodies::Bodies;
use crate::live::Live;
use crate::open::is_open;
use crate::pending_index::PendingIndex;
use pin_core::Id;

/// The least number above the last one, of numbers that rise.
pub(crate) fn next_of(numbers: &[u32], last: u32) -> Option<u32>
    requires { IsRising numbers.now }
    ensures { IsNext last numbers.now result }
{
    let at = numbers.partition_point(|number| *number <= last);
    if at < numbers.len() {
        return Some(numbers[at]);
    }
    None
}

/// The lesser of two numbers, or the one that is there.
pub(crate) fn lesser(first: Option<u32>, second: Option<u32>) -> Option<u32>
    ensures either { (result ≡ first) ⊎ (result ≡ second) }
    ensures first { (k : ℕ) → IsAtMost first k → IsAtMost result k }
    ensures second { (k : ℕ) → IsAtMost second k → IsAtMost result k }
{
    match (first, second) {
        (Some(a), Some(b)) if b < a => Some(b),
        (Some(a), _) => Some(a),
        (None, second) => second,
    }
}

/// The least number above the last one, of the numbers of an object's slot: none where nobody who waits could have the
/// object.
fn next_open<B: Bodies>(
    live: &Live,
    bodies: &B,
    pending_index: &PendingIndex,
    id: Id,
    last: u32,
) -> Option<u32>
    requires right { IsRight live.now pending_index.now }
    ensures above { IfSome result (λ n. last < n) }
    ensures least { (k : ℕ) → Within k (numbers_of pending_index.now.index id.slot) → last < k
        → IsAtMost result k ⊎ IsSpent (B.objects bodies.now).bodies live.now id.slot }
{
    if !is_open(live, bodies, id) {
        return None;
    }
    next_of(pending_index.numbers(id.slot), last)
}

/// The least such number over the slots of several objects.
pub(crate) fn next_number<B: Bodies>(
    live: &Live,
    bodies: &B,
    pending_index: &PendingIndex,
    ids: &[Id],
    last: u32,
) -> Option<u32>
    requires { IsRight live.now pending_index.now }
    ensures { IsNextOf last pending_index.now.index
        (record { objects = B.objects bodies.now; waits = live.now }) ids.now result }
{
    let mut least = None;
    for id in ids {
        least = lesser(least, next_open(live, bodies, pending_index, *id, last));
    }
    least
}
