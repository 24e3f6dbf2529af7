ghost use Rattle.std.specs.Prelude.{◌≡◌, ◌≤◌, ℕ, IfNone, IfSome, None, Option, false, map, slice_index_or, true};
ghost use Rattle.ob_waits.specs.Deadlines.{is_overdue};
ghost use Rattle.ob_store.specs.Signaled.{KeepsEnough};
ghost use Rattle.ob_store.specs.Moves.{OnlyCloses};
ghost use Rattle.ob_store.specs.Objects.{kept_rest};
ghost use Rattle.ob_store.specs.State.{settled};
ghost use Rattle.ob_store.specs.Ticks.{timed_out, slot_fired, slot_is_due, ticked, timers_fired};

use crate::objects::Objects;
use crate::signaled::SignaledSlots;
use crate::store::Store;
use ob_waits::{LAST_MOMENT, WAIT_TIMEOUT};
use pin_words::PinKeeper;

/// Fires the timers that are due, and notes their slots. It looks at no other slot.
fn fire_all<K: PinKeeper>(objects: &mut Objects<K>, signaled: &mut SignaledSlots, now: u64)
    requires { now ≤ LAST_MOMENT }
    ensures seen { objects.new.seen ≡ timers_fired now objects.old.seen }
    ensures rest { kept_rest objects.new ≡ kept_rest objects.old }
    ensures enough { KeepsEnough signaled.old objects.old.seen.bodies signaled.new objects.new.seen.bodies }
    ensures undue { (k : ℕ) → slot_is_due now (slice_index_or objects.new.seen.bodies k None) ≡ false }
{
    while let Some(slot) = objects.headers.next_due(now) {
        signaled.add(slot);
        objects.fire_at(slot, now);
    }
}

impl<K: PinKeeper> Store<K> {
    /// Fires the timers that are due, and settles the waits.
    fn fire(&mut self, now: u64)
        requires later { self.old.state.clock ≤ now }
        requires last { now ≤ LAST_MOMENT }
        ensures state { self.new.state ≡ settled
            (record self.old.state { bodies = map (slot_fired now) self.old.state.bodies }) }
        ensures keeper { OnlyCloses self.old.keeper self.new.keeper }
        ensures undue { (k : ℕ) → slot_is_due now (slice_index_or self.new.state.bodies k None) ≡ false }
    {
        self.parts.signaled.clear();
        fire_all(&mut self.parts.objects, &mut self.parts.signaled, now);
        self.parts.objects.kept();
        self.parts.settle();
    }

    /// A pending wait whose deadline isn't after a moment.
    fn overdue(&mut self, now: u64) -> Option<u32>
        ensures found { IfSome result (λ wait. is_overdue now (slice_index_or self.old.state.waits wait None) ≡ true) }
        ensures none { IfNone result ((n : ℕ) → is_overdue now (slice_index_or self.old.state.waits n None) ≡ false) }
        ensures same { self.new ≡ self.old }
    {
        self.parts.waits.overdue(now)
    }

    /// Sets the clock to a moment at which no timer is due and no pending wait's deadline has come.
    fn pass_to(&mut self, now: u64)
        requires later { self.old.state.clock ≤ now }
        requires last { now ≤ LAST_MOMENT }
        requires undue { (k : ℕ) → slot_is_due now (slice_index_or self.old.state.bodies k None) ≡ false }
        requires none { (n : ℕ) → is_overdue now (slice_index_or self.old.state.waits n None) ≡ false }
        ensures { self.new ≡ record self.old { state = record self.old.state { clock = now } } }
    {
        self.parts.waits.pass_to(now);
    }

    /// Answers each pending wait whose deadline isn't after a moment with 258, `WAIT_TIMEOUT`. No timer is due at the
    /// moment.
    fn time_out(&mut self, now: u64)
        requires later { self.old.state.clock ≤ now }
        requires last { now ≤ LAST_MOMENT }
        requires undue { (k : ℕ) → slot_is_due now (slice_index_or self.old.state.bodies k None) ≡ false }
        ensures state { self.new.state ≡ settled (timed_out now self.old.state) }
        ensures keeper { OnlyCloses self.old.keeper self.new.keeper }
    {
        self.kept();
        while let Some(wait) = self.overdue(now) {
            self.end_wait_at(wait, WAIT_TIMEOUT);
            self.kept();
        }
        self.pass_to(now);
    }

    /// Sets the clock to a moment: timers that are due fire, each once, however many of its periods have passed, the
    /// waits settle, and then each wait whose time is up is answered. Where nothing is due and no time is up, it looks
    /// at no timer and at no pending wait; otherwise it takes a time that grows with the number of those that are, times
    /// a logarithm. The deadline of a wait that was answered before it came is dropped by the first tick behind it,
    /// once.
    pub fn tick(&mut self, now: u64)
        requires later { self.old.state.clock ≤ now }
        requires last { now ≤ LAST_MOMENT }
        ensures state { self.new.state ≡ ticked now self.old.state }
        ensures keeper { OnlyCloses self.old.keeper self.new.keeper }
    {
        self.fire(now);
        self.time_out(now);
    }
}
