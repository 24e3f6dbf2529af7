ghost use Rattle.std.specs.Prelude.{[], ◌∷◌, ℕ, ◌≡◌, ◌<◌, ◌≤◌, ◌↔◌, true, false, Err, IfErr, IfOk, IsSome, None, OnErr, OnOk, Some};
ghost use Rattle.std.specs.Prelude.{if◌then◌else◌, length, slice_index_or};
ghost use Rattle.std.specs.Option.{IfNone, OnSome};
ghost use Rattle.ob_rights.specs.declared.fault.Fault.TheVariants.{Limit, Memory};
ghost use Rattle.ob_waits.specs.Form.{IsAfter};
ghost use Rattle.ob_waits.specs.Rules.{HasRoom, IsWaitable};
ghost use Rattle.ob_waits.specs.Waits.{code_now, is_answer, is_code, is_pending, list_ready, nowhere, number_of, state_at};
ghost use Rattle.ob_store.specs.Kept.{Yields};
ghost use Rattle.ob_store.specs.State.{handles_of, settled};
ghost use Rattle.ob_waits.specs.Rules.{WaitsInvariant};
ghost use Rattle.ob_waits.specs.Waits.{is_full, with_wait as list_with_wait};
ghost use Rattle.ob_store.specs.Waiting.{are_waits_given, cut_short, met, open_waits, opened, taken_at, wait_name, wait_number};
ghost use Rattle.ob_store.specs.Waiting.{with_answer, with_taken, with_wait, without_wait};
ghost use Rattle.ob_store.specs.Moves.{OnlyCloses};

use crate::store::Store;
use ob_body::Body;
use ob_rights::Fault;
use ob_waits::{Bodies, Mode, WAIT_TIMEOUT, WaitState, Waits, leave_all, try_now};
use pin_core::Id;
use pin_words::PinKeeper;

/// Adds a pending wait, for which the numbers begin anew where they come back and each is given.
#[inline(always)]
fn add_open(
    waits: &mut Waits,
    reuse: bool,
    thread: u32,
    mode: Mode,
    ids: &[Id],
    deadline: Option<u64>,
) -> Result<u32, Fault>
    requires ahead { IsAfter waits.old.clock deadline }
    requires waitable { IsWaitable mode ids.now }
    requires alone { number_of thread waits.old.waits ≡ None }
    ensures number { IfOk result (λ number. number ≡ length (opened reuse waits.old).waits) }
    ensures added { OnOk result (waits.new ≡ list_with_wait (opened reuse waits.old) thread mode ids.now deadline) }
    ensures err { OnErr result (waits.new ≡ waits.old) }
    ensures full { result ≡ Err Limit → is_full (opened reuse waits.old) ≡ true }
    ensures once { reuse ≡ false → is_full waits.old ≡ true → result ≡ Err Limit }
    ensures memory { IfErr result (λ fault. is_full (opened reuse waits.old) ≡ false → fault ≡ Memory) }
    ensures kept { WaitsInvariant waits.old.waits }
    ensures at_most { length waits.old.waits ≤ 4294967296 }
{
    match waits.add(thread, mode, ids, deadline) {
        Err(Fault::Limit) if reuse => waits.add_renewed(thread, mode, ids, deadline),
        added => added,
    }
}

impl<K: PinKeeper> Store<K> {
    /// The number of the wait that is called so; 0, which no wait has, where numbers come back and the thread has none.
    #[inline]
    pub(crate) fn wait_number(&self, wait: u32) -> u32
        ensures { result ≡ wait_number self.now.state wait }
    {
        if self.parts.limits.reuse {
            self.parts.waits.wait_of(wait).unwrap_or(0)
        } else {
            wait
        }
    }

    /// Where a wait stands: none where no wait is called so.
    pub fn wait_state(&self, wait: u32) -> Option<WaitState>
        ensures { result ≡ state_at (slice_index_or self.now.state.waits (wait_number self.now.state wait) None) }
    {
        let number = self.wait_number(wait);
        self.parts.waits.look(number).map(|(state, _)| state)
    }

    /// Has a thread take at once what satisfies its wait for these objects, and answers the wait's code. Where the wait
    /// isn't satisfied now, nothing changes.
    #[inline(always)]
    pub fn take_now(&mut self, thread: u32, mode: Mode, ids: &[Id]) -> Option<u32>
        requires waitable { IsWaitable mode ids.now }
        requires room { HasRoom self.old.state.limits.max_recursion thread self.old.state.bodies ids.now }
        requires alone { number_of thread self.old.state.waits ≡ None }
        requires live { IsSome (slice_index_or self.old.state.threads thread None) }
        ensures code { result ≡ code_now mode thread self.old.state.bodies ids.now }
        ensures taken { OnSome result (self.new.state ≡ settled (with_taken self.old.state thread mode ids.now)) }
        ensures none { IfNone result (self.new ≡ self.old) }
        ensures keeper { OnlyCloses self.old.keeper self.new.keeper }
    {
        self.parts.objects.kept();
        let code = try_now(&mut self.parts.objects, thread, mode, ids);
        self.parts.objects.kept();
        code
    }

    /// Makes the wait of a thread, which isn't satisfied now, pending until a moment after now or without end, and
    /// answers what it is called. It counts among what refers to its objects.
    ///
    /// Refused with 1450 where each wait number was given and they don't come back, and else with 8 for want of memory.
    /// One wait in 4,294,967,295 begins the numbers anew where they come back, which takes a time that grows with the
    /// waits that aren't over.
    #[inline(always)]
    pub fn add_wait(
        &mut self,
        thread: u32,
        mode: Mode,
        ids: &[Id],
        deadline: Option<u64>,
    ) -> Result<u32, Fault>
        requires ahead { IsAfter self.old.state.clock deadline }
        requires waitable { IsWaitable mode ids.now }
        requires room { HasRoom self.old.state.limits.max_recursion thread self.old.state.bodies ids.now }
        requires alone { number_of thread self.old.state.waits ≡ None }
        requires live { IsSome (slice_index_or self.old.state.threads thread None) }
        requires unready { list_ready mode thread self.old.state.bodies ids.now ≡ false }
        requires handled { (i : ℕ) → i < length ids.now → 0 < handles_of self.old.state
            (slice_index_or ids.now i nowhere) }
        ensures name { IfOk result (λ name. name
            ≡ wait_name self.old.state thread (length (open_waits self.old.state))) }
        ensures ok { OnOk result (self.new ≡ record self.old {
          state = settled
              (with_wait self.old.state thread mode ids.now deadline);
        }) }
        ensures limit { (result ≡ Err Limit) ↔ (are_waits_given self.old.state ≡ true) }
        ensures memory { IfErr result (λ fault. are_waits_given self.old.state ≡ false → fault ≡ Memory) }
        ensures err { OnErr result (self.new ≡ self.old) }
    {
        self.parts.objects.kept();
        let reuse = self.parts.limits.reuse;
        match add_open(&mut self.parts.waits, reuse, thread, mode, ids, deadline) {
            Ok(number) => {
                self.parts.objects.blocks_came(ids);
                self.parts.objects.kept();
                return Ok(if reuse { thread } else { number });
            }
            Err(fault) => return Err(fault),
        }
    }

    /// Makes the wait of a thread for an object pending, gives an object, perhaps the same, another body, and settles
    /// the waits: so what comes to be signaled goes to those who waited before. Answers the number of the wait.
    ///
    /// Refused as [`add_wait`](Store::add_wait) is.
    fn wait_and_put(
        &mut self,
        thread: u32,
        waited: Id,
        deadline: Option<u64>,
        id: Id,
        old: Body,
        new: Body,
    ) -> Result<u32, Fault>
        requires ahead { IsAfter self.old.state.clock deadline }
        requires room { HasRoom self.old.state.limits.max_recursion thread self.old.state.bodies (waited ∷ []) }
        requires alone { number_of thread self.old.state.waits ≡ None }
        requires live { IsSome (slice_index_or self.old.state.threads thread None) }
        requires handled { 0 < handles_of self.old.state waited }
        requires bodied { slice_index_or self.old.state.bodies id.slot None ≡ Some old }
        requires yields { Yields self.old.state.clock old new }
        ensures number { IfOk result (λ number. number ≡ length (open_waits self.old.state)) }
        ensures ok { OnOk result (self.new.state ≡ met self.old.state thread waited deadline id new) }
        ensures limit { (result ≡ Err Limit) ↔ (are_waits_given self.old.state ≡ true) }
        ensures memory { IfErr result (λ fault. are_waits_given self.old.state ≡ false → fault ≡ Memory) }
        ensures err { OnErr result (self.new ≡ self.old) }
        ensures keeper { OnlyCloses self.old.keeper self.new.keeper }
    {
        self.parts.objects.kept();
        let reuse = self.parts.limits.reuse;
        let number = match add_open(
            &mut self.parts.waits,
            reuse,
            thread,
            Mode::Any,
            &[waited],
            deadline,
        ) {
            Ok(number) => number,
            Err(fault) => return Err(fault),
        };
        self.parts.objects.blocks_came(&[waited]);
        self.parts.objects.put(id, new);
        self.parts.objects.kept();
        self.parts.signaled.clear();
        self.parts.signaled.add(waited.slot);
        self.parts.signaled.add(id.slot);
        self.parts.settle();
        Ok(number)
    }

    /// Has a thread wait for an object as an object, perhaps the same, gets another body, by which it is signaled: the
    /// wait stands behind those that stood before. Answers what the wait is called, and where it stands: where it is
    /// answered it is over, as is one that may not last.
    ///
    /// Refused as [`add_wait`](Store::add_wait) is; then nothing changes.
    pub fn signal_and_wait(
        &mut self,
        thread: u32,
        waited: Id,
        at_once: bool,
        deadline: Option<u64>,
        id: Id,
        old: Body,
        new: Body,
    ) -> Result<(u32, Option<WaitState>), Fault>
        requires ahead { IsAfter self.old.state.clock deadline }
        requires room { HasRoom self.old.state.limits.max_recursion thread self.old.state.bodies (waited ∷ []) }
        requires alone { number_of thread self.old.state.waits ≡ None }
        requires live { IsSome (slice_index_or self.old.state.threads thread None) }
        requires handled { 0 < handles_of self.old.state waited }
        requires bodied { slice_index_or self.old.state.bodies id.slot None ≡ Some old }
        requires yields { Yields self.old.state.clock old new }
        ensures name { IfOk result (λ r. r.0 ≡ wait_name self.old.state thread (length (open_waits self.old.state))) }
        ensures stands { IfOk result (λ r. r.1 ≡ state_at (slice_index_or
            (cut_short at_once (met self.old.state thread waited deadline id new) (length (open_waits self.old.state))).waits
            (length (open_waits self.old.state)) None)) }
        ensures ok { OnOk result (self.new.state ≡ taken_at
            (cut_short at_once (met self.old.state thread waited deadline id new) (length (open_waits self.old.state)))
            (length (open_waits self.old.state))) }
        ensures limit { (result ≡ Err Limit) ↔ (are_waits_given self.old.state ≡ true) }
        ensures memory { IfErr result (λ fault. are_waits_given self.old.state ≡ false → fault ≡ Memory) }
        ensures err { OnErr result (self.new ≡ self.old) }
        ensures keeper { OnlyCloses self.old.keeper self.new.keeper }
    {
        let reuse = self.parts.limits.reuse;
        let number = self.wait_and_put(thread, waited, deadline, id, old, new)?;
        if at_once {
            self.end_if_pending(number);
        }
        let stands = self.take_at(number);
        Ok((if reuse { thread } else { number }, stands))
    }

    /// Answers a wait with 258, `WAIT_TIMEOUT`, where it is pending.
    fn end_if_pending(&mut self, wait: u32)
        ensures state { self.new.state ≡ cut_short true self.old.state wait }
        ensures keeper { OnlyCloses self.old.keeper self.new.keeper }
    {
        if let Some((WaitState::Pending, _)) = self.parts.waits.look(wait) {
            self.end_wait_at(wait, WAIT_TIMEOUT);
        }
    }

    /// Answers a pending wait with a code that can be: 258, `WAIT_TIMEOUT`, or 192, `WAIT_IO_COMPLETION`. It no longer
    /// refers to its objects.
    pub fn end_wait(&mut self, wait: u32, code: u32)
        requires pending { is_pending (slice_index_or self.old.state.waits (wait_number self.old.state wait) None) ≡ true }
        requires coded { is_code code ≡ true }
        ensures state { self.new.state
            ≡ settled (with_answer self.old.state (wait_number self.old.state wait) code) }
        ensures keeper { OnlyCloses self.old.keeper self.new.keeper }
    {
        let number = self.wait_number(wait);
        self.end_wait_at(number, code);
    }

    /// The same for the wait of a number.
    pub(crate) fn end_wait_at(&mut self, wait: u32, code: u32)
        requires pending { is_pending (slice_index_or self.old.state.waits wait None) ≡ true }
        requires coded { is_code code ≡ true }
        ensures state { self.new.state ≡ settled (with_answer self.old.state wait code) }
        ensures keeper { OnlyCloses self.old.keeper self.new.keeper }
    {
        self.parts.objects.kept();
        let Some((_, ids)) = self.parts.waits.look(wait) else {
            unreachable!()
        };
        leave_all(&mut self.parts.objects, ids);
        self.parts.objects.kept();
        self.parts.waits.end(wait, code);
    }

    /// Where a wait stands: none where no wait is called so. One that is answered is then over, and its thread may wait
    /// again.
    #[inline]
    pub fn take_if_answered(&mut self, wait: u32) -> Option<WaitState>
        ensures state { result ≡ state_at (slice_index_or self.old.state.waits (wait_number self.old.state wait) None) }
        ensures over { self.new ≡ (if is_answer result then record self.old {
          state = settled (without_wait self.old.state (wait_number self.old.state wait));
        } else self.old) }
    {
        let number = self.wait_number(wait);
        self.take_at(number)
    }

    /// The same for the wait of a number.
    #[inline(always)]
    fn take_at(&mut self, wait: u32) -> Option<WaitState>
        ensures state { result ≡ state_at (slice_index_or self.old.state.waits wait None) }
        ensures over { self.new ≡ (if is_answer result
            then record self.old { state = settled (without_wait self.old.state wait) } else self.old) }
    {
        self.parts.objects.kept();
        self.parts.waits.take_if_answered(wait)
    }
}
