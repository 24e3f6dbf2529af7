ghost use Rattle.std.specs.Prelude.{◌≡◌, false};
ghost use Rattle.ob_waits.specs.Rules.{IsSpent};

use crate::bodies::Bodies;
use crate::live::Live;
use pin_core::Id;

/// Whether an object may be signaled for a thread whose wait is pending.
pub(crate) fn is_open<B: Bodies>(live: &Live, bodies: &B, id: Id) -> bool
    ensures { result ≡ false → IsSpent (B.objects bodies.now).bodies live.now id.slot }
{
    let Some(body) = bodies.body(id) else {
        return false;
    };
    match body.owner() {
        Some(owner) => match live.number_of(owner) {
            Some(number) => live.is_pending(number),
            None => false,
        },
        None => body.signaled_for(0),
    }
}
