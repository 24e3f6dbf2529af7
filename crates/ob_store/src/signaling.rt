ghost use Rattle.std.specs.Prelude.{◌≡◌, ℕ, true, None, Some, OnErr, OnOk, slice_index_or};
ghost use Rattle.ob_body.specs.Body as spec;
ghost use Rattle.ob_rights.specs.declared.kind.Kind.TheVariants.{Semaphore, Timer};
ghost use Rattle.ob_store.specs.State.{settled, with_body};
ghost use Rattle.ob_store.specs.Kept.{Yields};
ghost use Rattle.ob_store.specs.Moves.{OnlyCloses};

use crate::store::Store;
use ob_body::Body;
use ob_rights::Fault;
use ob_waits::Bodies;
use pin_core::Id;
use pin_words::PinKeeper;

impl<K: PinKeeper> Store<K> {
    /// Gives an object another body, and settles the waits for it.
    #[inline(always)]
    pub(crate) fn put(&mut self, id: Id, old: Body, new: Body)
        requires bodied { slice_index_or self.old.state.bodies id.slot None ≡ Some old }
        requires yields { Yields self.old.state.clock old new }
        ensures state { self.new.state ≡ settled (with_body self.old.state id new) }
        ensures keeper { OnlyCloses self.old.keeper self.new.keeper }
    {
        self.parts.objects.kept();
        let blocks = self.parts.objects.blocks(id.slot);
        self.parts.objects.put(id, new);
        self.parts.objects.kept();
        if blocks == 0 {
            return;
        }
        self.parts.settle_after(id);
    }

    /// Sets an event, or signals an object of the host's own.
    #[inline(always)]
    #[tactic(auto, using(crate::proofs::Yielding::set_yields))]
    pub fn set(&mut self, id: Id, event: Body)
        requires bodied { slice_index_or self.old.state.bodies id.slot None ≡ Some event }
        requires settable { spec.is_settable event ≡ true }
        ensures state { self.new.state ≡ settled (with_body self.old.state id (spec.after_set event)) }
        ensures keeper { OnlyCloses self.old.keeper self.new.keeper }
    {
        let mut after = event;
        after.set();
        self.put(id, event, after);
    }

    /// Gives an object another body, by which nothing becomes signaled: so nothing settles.
    #[inline(always)]
    fn put_less(&mut self, id: Id, old: Body, new: Body)
        requires bodied { slice_index_or self.old.state.bodies id.slot None ≡ Some old }
        requires yields { Yields self.old.state.clock old new }
        requires less { (t : ℕ) → spec.is_signaled t new ≡ true → spec.is_signaled t old ≡ true }
        ensures state { self.new.state ≡ settled (with_body self.old.state id new) }
        ensures keeper { OnlyCloses self.old.keeper self.new.keeper }
    {
        self.parts.objects.kept();
        self.parts.objects.put(id, new);
        self.parts.objects.kept();
    }

    /// Resets an event, or an object of the host's own. Nothing becomes signaled by that, so nothing settles.
    #[inline(always)]
    #[tactic(auto, using(crate::proofs::Yielding::reset_less, crate::proofs::Yielding::reset_yields))]
    pub fn reset(&mut self, id: Id, event: Body)
        requires bodied { slice_index_or self.old.state.bodies id.slot None ≡ Some event }
        requires settable { spec.is_settable event ≡ true }
        ensures state { self.new.state ≡ settled (with_body self.old.state id (spec.after_reset event)) }
        ensures keeper { OnlyCloses self.old.keeper self.new.keeper }
    {
        let mut after = event;
        after.reset();
        self.put_less(id, event, after);
    }

    /// Raises a semaphore's count, and answers the count before.
    ///
    /// Refused with 298 where the count would pass the maximum.
    #[tactic(auto, using(crate::proofs::Yielding::post_yields))]
    pub fn post(&mut self, id: Id, semaphore: Body, count: u32) -> Result<u32, Fault>
        requires bodied { slice_index_or self.old.state.bodies id.slot None ≡ Some semaphore }
        requires semaphore { spec.kind_of semaphore ≡ Semaphore }
        ensures answer { result ≡ spec.post_answer count semaphore }
        ensures ok { OnOk result (self.new.state
            ≡ settled (with_body self.old.state id (spec.after_post count semaphore))) }
        ensures err { OnErr result (self.new ≡ self.old) }
        ensures keeper { OnlyCloses self.old.keeper self.new.keeper }
    {
        let mut after = semaphore;
        let previous = after.post(count)?;
        self.put(id, semaphore, after);
        Ok(previous)
    }

    /// Releases a mutex once.
    ///
    /// Refused with 6 where the body is no mutex, and with 288 where the thread doesn't own it.
    #[tactic(auto, using(crate::proofs::Yielding::unlock_yields))]
    pub fn unlock(&mut self, id: Id, mutex: Body, thread: u32) -> Result<(), Fault>
        requires bodied { slice_index_or self.old.state.bodies id.slot None ≡ Some mutex }
        ensures answer { result ≡ spec.unlock_answer thread mutex }
        ensures ok { OnOk result (self.new.state
            ≡ settled (with_body self.old.state id (spec.after_unlock thread mutex))) }
        ensures err { OnErr result (self.new ≡ self.old) }
        ensures keeper { OnlyCloses self.old.keeper self.new.keeper }
    {
        let after = mutex.unlocked(thread)?;
        self.put(id, mutex, after);
        Ok(())
    }

    /// Sets a timer to a moment, in units of 100 ns, and to a period, in milliseconds, 0 for none. A moment that isn't
    /// after now signals it at once, and the waits for it settle; otherwise it is nonsignaled until then, and nothing
    /// settles.
    #[tactic(auto, using(crate::proofs::Yielding::arm_yields))]
    pub fn arm(&mut self, id: Id, timer: Body, due: u64, period: u32)
        requires bodied { slice_index_or self.old.state.bodies id.slot None ≡ Some timer }
        requires timer { spec.kind_of timer ≡ Timer }
        ensures state { self.new.state ≡ settled (with_body self.old.state id
            (spec.after_arm due self.old.state.clock period timer)) }
        ensures keeper { OnlyCloses self.old.keeper self.new.keeper }
    {
        let mut after = timer;
        after.arm(due, self.now(), period);
        self.put(id, timer, after);
    }

    /// Takes a timer's due moment and its period away. Nothing becomes signaled by that, so nothing settles.
    #[tactic(auto, using(crate::proofs::Yielding::disarm_less, crate::proofs::Yielding::disarm_yields))]
    pub fn disarm(&mut self, id: Id, timer: Body)
        requires bodied { slice_index_or self.old.state.bodies id.slot None ≡ Some timer }
        requires timer { spec.kind_of timer ≡ Timer }
        ensures state { self.new.state ≡ settled (with_body self.old.state id (spec.after_disarm timer)) }
        ensures keeper { OnlyCloses self.old.keeper self.new.keeper }
    {
        let mut after = timer;
        after.disarm();
        self.put_less(id, timer, after);
    }
}
