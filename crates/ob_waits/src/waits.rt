ghost use Rattle.std.specs.Prelude.{[], ◌∷◌, ◌++◌, ◌≡◌, false, Err, IfNone, ◌+◌, ◌<◌, ◌≤◌, ◌↔◌, ℕ, true, None};
ghost use Rattle.std.specs.Prelude.{Some, length, map, slice_index_or, OnOk, OnErr, IfOk, IfErr, IfSome, IsSome};
ghost use Rattle.std.specs.Prelude.{◌⊎◌, if◌then◌else◌, is_some};
ghost use Rattle.std.specs.Option.{option_map};
ghost use Rattle.ob_waits.specs.Waits.{settled, blocks_among, number_of, with_wait, with_answer};
ghost use Rattle.ob_waits.specs.Waits.{without_wait, without_thread, code_at};
ghost use Rattle.ob_waits.specs.Waits.{is_answer, is_pending, state_at, ids_of, is_full};
ghost use Rattle.ob_codec.specs.Reading.{Gives};
ghost use Rattle.ob_waits.specs.Spelling.{WaitsFit, are_within, can_be, waits_at, waits_text};
ghost use Rattle.ob_waits.specs.Waits.{is_code, new_wait, renewed, skipped, with_answered, with_renewed};
ghost use Rattle.least.specs.Dues.{IsLeast};
ghost use Rattle.least.specs.From.{IsLeastFrom};
ghost use Rattle.ob_waits.specs.Answers.{answer_of, is_answered};
ghost use Rattle.ob_waits.specs.Deadlines.{AreAhead, deadline_of, is_overdue};
ghost use Rattle.ob_waits.specs.Form.{IsAfter};
ghost use Rattle.ob_waits.specs.Rules.{WaitsInvariant, IsWaitable, WaitsHaveRoom, IsSettled, IsReadyAt, IsReadyAtOne};

use crate::answer::Answer;
use crate::blocks::blocks_of;
use crate::bodies::Bodies;
use crate::ids::Ids;
use crate::live::Live;
use crate::overdue::{list_deadline, next_due, next_overdue};
use crate::pass::{pass, pass_each, pass_slot};
use crate::pending::Pending;
use crate::pending_index::PendingIndex;
use crate::reading::{copy_all, put_all, read_rows, rows_within};
use crate::wait::{Mode, State, Wait, WaitState};
use crate::writing::write_rows;
use least::Dues;
use ob_body::{LAST_MOMENT, RECURSION_MAX};
use ob_codec::{Cursor, ReadFault, Spelled, TextFault};
use ob_rights::Fault;
use pin_core::Id;
use std::alloc::{AllocError, Global};
use std::marker::Model;

/// The waits of all threads, by their numbers.
///
/// Numbers rise from 1 and none is given twice, until [`add_renewed`](Waits::add_renewed) begins them anew; a wait
/// that is over takes no room. A thread has one wait at a time, from [`add`](Waits::add) until its answer is taken.
///
/// A thread's wait and the wait of a number are found in constant time. [`wait_of`](Waits::wait_of),
/// [`look`](Waits::look) and [`pending`](Waits::pending) do no more; [`end`](Waits::end),
/// [`drop_thread`](Waits::drop_thread) and [`take_if_answered`](Waits::take_if_answered) also keep the list of answers,
/// which costs a logarithm of the threads where waits weren't answered in the order of their numbers.
///
/// Beside these there is a list of wait numbers for each slot, and one for all. Such a list has the numbers of all
/// pending waits for its objects, and may have others, until a settling that looks at them drops them, or an `add`: the
/// last one, and all where it finds eight more than twice as many as were left the last time. So `add` costs constant
/// time for each object that it lists, amortised over all calls, beside the growth of the tables to the greatest thread
/// number and slot that a wait had. [`settle_after`](Waits::settle_after) looks at the list of one slot up to the last
/// wait that it satisfies, and [`blocks_of`](Waits::blocks_of) goes over all of it, [`settle`](Waits::settle) over the
/// list for all.
#[derive(Drop)]
pub struct Waits {
    limit: u32,
    clock: u64,
    alloc: Global,
    live: Live,
    pending_index: PendingIndex,
    // For each thread the deadline of its wait.
    deadlines: Dues,
}

impl Model for Waits {
    ghost use Rattle.ob_waits.specs.Waits.{WaitList};
    ghost use Rattle.ob_waits.specs.Deadlines.{AreTimely};
    ghost use Rattle.ob_waits.specs.PendingIndex.{IsTracked};

    ghost Value = { WaitList };

    ghost view = { λ w. record { limit = w.limit; waits = w.live; clock = w.clock } };

    ghost invariant = { λ w. IsTracked w.limit w.live w.pending_index × AreTimely w.clock w.live w.deadlines };
}

impl Waits {
    /// No waits yet; at most `waits` numbers may be given. Takes no memory.
    pub fn new(alloc: Global, waits: u32) -> Waits
        ensures { result ≡ record { limit = waits; waits = None ∷ []; clock = 0 } }
    {
        Waits {
            limit: waits,
            clock: 0,
            alloc,
            live: Live::new(alloc),
            pending_index: PendingIndex::new(alloc),
            deadlines: Dues::new(alloc),
        }
    }

    /// Writes the waits behind some bytes: the last number given, and each wait that isn't over, by rising number, but
    /// neither how many numbers may be given nor the moment. It takes as much memory beside as the waits have bytes.
    ///
    /// Its cost grows with the waits, and for each that is answered with the threads where answers came out of the
    /// order of the waits' numbers, as that of [`next_answered`](Waits::next_answered).
    pub fn write(&self, out: &mut Vec<u8>) -> Result<(), AllocError>
        ensures text { OnOk result (out.new.items ≡ out.old.items ++ waits_text self.now.waits) }
        ensures fits { OnOk result (WaitsFit self.now) }
    {
        let mut rows = Vec::new(self.alloc);
        let count = write_rows(&self.live, self.pending_index.order(), &mut rows)?;
        self.live.given().write(out)?;
        count.write(out)?;
        out.extend_from_slice(rows.as_slice())
    }

    /// Reads waits of which at most `waits` numbers may be given, as they are at a moment, from the front of what is
    /// left. [`TextFault::Value`] where a number is above that, or above the last one given, or doesn't rise; where a
    /// thread has two waits; where a pending one lists more than 64 objects or, to wait for all, none or one slot twice,
    /// or its time is up; and where an answered one has a code that can't be. The text is refused so too where a thread
    /// isn't below `threads`, or an object's slot below `slots`, and before any wait is read where there are more than
    /// `threads`, or any object where a wait lists more than 64: so no more memory is asked for than these and the text
    /// account for.
    pub fn read(
        alloc: Global,
        waits: u32,
        clock: u64,
        threads: u32,
        slots: u32,
        from: &mut Cursor<'_>,
    ) -> Result<Waits, ReadFault>
        requires { clock ≤ LAST_MOMENT }
        ensures read { Gives (λ read. read) result (waits_at waits clock threads slots from.old) from.new }
        ensures limit { IfOk result (λ read. read.limit ≡ waits) }
        ensures clock { IfOk result (λ read. read.clock ≡ clock) }
        ensures within { IfOk result (λ read. are_within threads slots read.waits ≡ true) }
    {
        let last = from.four()?;
        let rows = read_rows(alloc, from, threads)?;
        if last > waits {
            return Err(ReadFault::Text(TextFault::Value));
        }
        if !rows_within(rows.as_slice(), threads, slots) {
            return Err(ReadFault::Text(TextFault::Value));
        }
        let mut read = Waits::new(alloc, waits);
        read.pass_to(clock);
        put_all(&mut read, rows.as_slice(), last)?;
        Ok(read)
    }

    /// The moment that it is, in units of 100 ns.
    pub fn clock(&self) -> u64
        ensures moment { result ≡ self.now.clock }
        ensures last { result ≤ LAST_MOMENT }
        // Whatever the waits are: each deadline of one that is pending is after now.
        ensures ahead { AreAhead self.now.clock self.now.waits }
    {
        self.clock
    }

    /// The last number given, or 0.
    pub fn given(&self) -> u32
        ensures { length self.now.waits ≡ result + 1 }
    {
        self.live.given()
    }

    /// The number of the thread's wait, pending or answered.
    pub fn wait_of(&self, thread: u32) -> Option<u32>
        ensures number { result ≡ number_of thread self.now.waits }
        // Whatever the waits are: each thread has one, and each that is pending may be waited for.
        ensures kept { WaitsInvariant self.now.waits }
        ensures at_most { length self.now.waits ≤ 4294967296 }
    {
        self.live.number_of(thread)
    }

    /// How many places of pending waits name the object. It goes over the list of its slot.
    pub fn blocks_of(&self, id: Id) -> u64
        ensures { result ≡ blocks_among id self.now.waits }
    {
        blocks_of(&self.live, self.pending_index.numbers(id.slot), id)
    }

    /// Where the wait of a number stands, and which objects it is for: none once it is answered.
    pub fn look(&self, wait: u32) -> Option<(WaitState, &[Id])>
        ensures state { option_map (λ r. r.0) result ≡ state_at (slice_index_or self.now.waits wait None) }
        ensures ids { IfSome result (λ r. r.1.now ≡ ids_of (slice_index_or self.now.waits wait None)) }
    {
        match self.live.get(wait) {
            Some(wait) => match &wait.state {
                State::Pending(_, ids) => Some((WaitState::Pending, ids.as_slice())),
                State::Answered(code) => Some((WaitState::Answered(*code), &[])),
            },
            None => None,
        }
    }

    /// The wait of a number, where that is pending.
    pub fn pending(&self, wait: u32) -> Option<Pending<'_>>
        ensures is_there { is_some result ≡ is_pending (slice_index_or self.now.waits wait None) }
        ensures wait { IfSome result (λ p. slice_index_or self.now.waits wait None
            ≡ Some (new_wait p.thread p.mode p.ids.now p.deadline)) }
    {
        let Some(wait) = self.live.get(wait) else {
            return None;
        };
        match &wait.state {
            State::Pending(mode, ids) => Some(Pending {
                thread: wait.thread,
                mode: *mode,
                deadline: wait.deadline,
                ids: ids.as_slice(),
            }),
            State::Answered(_) => None,
        }
    }

    /// The answer of the least wait number above one, of the waits that are answered and not over: so, from 0 on, one
    /// after another.
    ///
    /// Its cost does not grow with the waits that are pending. It is found in constant time where waits were answered
    /// in the order of their numbers, or each answer was taken before the next came; else by halving. Answers that came
    /// out of that order are looked for thread by thread where one of them has a number up to `after`.
    pub fn next_answered(&self, after: u32) -> Option<Answer>
        ensures least { IsLeastFrom (after + 1) (λ n. is_answered (slice_index_or self.now.waits n None))
            (option_map (λ a. a.wait) result) }
        ensures answer { IfSome result (λ a. answer_of a.wait (slice_index_or self.now.waits a.wait None) ≡ Some a) }
    {
        self.live.next_answered(after)
    }

    /// Gives the next number to a pending wait, where one is left.
    pub(crate) fn admit(
        &mut self,
        thread: u32,
        mode: Mode,
        ids: &[Id],
        deadline: Option<u64>,
    ) -> Result<u32, AllocError>
        requires ahead { IsAfter self.old.clock deadline }
        requires waitable { IsWaitable mode ids.now }
        requires alone { number_of thread self.old.waits ≡ None }
        requires below_limit { is_full self.old ≡ false }
        ensures number { IfOk result (λ number. number ≡ length self.old.waits) }
        ensures added { OnOk result (self.new ≡ with_wait self.old thread mode ids.now deadline) }
        ensures err { OnErr result (self.new ≡ self.old) }
    {
        let number = self.live.given() + 1;
        let list = Ids::new(self.alloc, ids)?;
        self.pending_index.make_room(&self.live, ids, number)?;
        list_deadline(&mut self.deadlines, thread, deadline)?;
        self.live.push(Wait {
            thread,
            deadline,
            state: State::Pending(mode, list),
        })?;
        Ok(number)
    }

    /// Gives the next number to a wait of a thread that is answered with a code that can be.
    pub(crate) fn add_answered(
        &mut self,
        thread: u32,
        deadline: Option<u64>,
        code: u32,
    ) -> Result<u32, AllocError>
        requires coded { is_code code ≡ true }
        requires alone { number_of thread self.old.waits ≡ None }
        requires below_limit { is_full self.old ≡ false }
        ensures number { IfOk result (λ number. number ≡ length self.old.waits) }
        ensures added { OnOk result (self.new ≡ with_answered self.old thread deadline code) }
        ensures err { OnErr result (self.new ≡ self.old) }
    {
        let number = self.live.given() + 1;
        self.live.push_answered(Wait {
            thread,
            deadline,
            state: State::Answered(code),
        })?;
        Ok(number)
    }

    /// Gives the next numbers, up to this one, to nobody.
    pub(crate) fn skip_to(&mut self, last: u32)
        requires next { length self.old.waits ≤ last + 1 }
        requires most { last ≤ self.old.limit }
        ensures value { self.new ≡ record self.old { waits = skipped last self.old.waits } }
        // Whatever the waits are.
        ensures can_be { can_be self.new.limit self.new.clock self.new.waits ≡ true }
    {
        self.live.skip_to(last);
    }

    /// Gives the next number to a pending wait of a thread for at most 64 objects, until a moment or for good. A wait for
    /// any of none lasts until it is ended.
    ///
    /// [`Fault::Limit`] (1450) exactly where all numbers are given, and else [`Fault::Memory`] (8) where
    /// memory runs out; then nothing changes.
    pub fn add(
        &mut self,
        thread: u32,
        mode: Mode,
        ids: &[Id],
        deadline: Option<u64>,
    ) -> Result<u32, Fault>
        requires ahead { IsAfter self.old.clock deadline }
        requires waitable { IsWaitable mode ids.now }
        requires alone { number_of thread self.old.waits ≡ None }
        ensures number { IfOk result (λ number. number ≡ length self.old.waits) }
        ensures added { OnOk result (self.new ≡ with_wait self.old thread mode ids.now deadline) }
        ensures err { OnErr result (self.new ≡ self.old) }
        ensures full { (result ≡ Err Fault.Limit) ↔ (is_full self.old ≡ true) }
        ensures memory { IfErr result (λ fault. is_full self.old ≡ false → fault ≡ Fault.Memory) }
        // Whatever the waits are: each that is pending may be waited for, and their numbers fit in 32 bits.
        ensures kept { WaitsInvariant self.old.waits }
        ensures at_most { length self.old.waits ≤ 4294967296 }
    {
        if self.live.given() >= self.limit {
            return Err(Fault::Limit);
        }
        match self.admit(thread, mode, ids, deadline) {
            Ok(number) => Ok(number),
            Err(_) => Err(Fault::Memory),
        }
    }

    /// Begins the numbers anew, and adds a wait as [`add`](Waits::add) does: the waits that aren't over have the
    /// numbers from 1 on, in their order, and the new one has the next. A number that was told before may be another
    /// wait's then; who finds waits by their threads, or goes over them in order, sees no change but the new one.
    ///
    /// [`Fault::Limit`] (1450) where as many waits aren't over as numbers may be given, and [`Fault::Memory`] (8) where
    /// memory runs out; then nothing changes. It costs what [`write`](Waits::write) costs and an `add` for each wait,
    /// and meanwhile the waits take their memory twice.
    pub fn add_renewed(
        &mut self,
        thread: u32,
        mode: Mode,
        ids: &[Id],
        deadline: Option<u64>,
    ) -> Result<u32, Fault>
        requires ahead { IsAfter self.old.clock deadline }
        requires waitable { IsWaitable mode ids.now }
        requires alone { number_of thread self.old.waits ≡ None }
        ensures number { IfOk result (λ number. number ≡ length (renewed self.old.waits)) }
        ensures added { OnOk result (self.new ≡ with_wait (with_renewed self.old) thread mode ids.now deadline) }
        ensures err { OnErr result (self.new ≡ self.old) }
        ensures fault { IfErr result (λ fault. (fault ≡ Fault.Memory)
            ⊎ ((fault ≡ Fault.Limit) × (is_full (with_renewed self.old) ≡ true))) }
    {
        let mut copy = Waits::new(self.alloc, self.limit);
        copy.pass_to(self.clock);
        copy_all(&mut copy, &self.live, &self.pending_index)?;
        let number = copy.add(thread, mode, ids, deadline)?;
        *self = copy;
        Ok(number)
    }

    /// As long as a pending wait is satisfied, the one of least number takes effect (*profile*): it acquires what
    /// satisfies it, is answered with its code, and its blocks leave. An object whose last block leaves so, and which
    /// has no handle, ends.
    pub fn settle<B: Bodies>(&mut self, bodies: &mut B)
        requires { WaitsHaveRoom RECURSION_MAX (B.objects bodies.old).bodies self.old.waits }
        ensures value { record { objects = B.objects bodies.new; waits = self.new.waits }
            ≡ settled (record { objects = B.objects bodies.old; waits = self.old.waits }) }
        ensures limit { self.new.limit ≡ self.old.limit }
        ensures clock { self.new.clock ≡ self.old.clock }
        ensures rest { B.rest bodies.new ≡ B.rest bodies.old }
        // Nothing is left to settle, and no pending wait lost its room, below any limit.
        ensures settled { IsSettled (B.objects bodies.new).bodies self.new.waits }
        ensures room { (limit : ℕ) → WaitsHaveRoom limit (B.objects bodies.old).bodies self.old.waits
            → WaitsHaveRoom limit (B.objects bodies.new).bodies self.new.waits }
    {
        pass(&mut self.live, bodies, self.pending_index.order());
        self.pending_index.thin(&self.live);
    }

    /// Settles, as [`settle`](Waits::settle) does, where only waits for this object can be ready, as after a change of
    /// its body in a settled state. It looks at the waits for this object alone, by their numbers, until nobody who
    /// waits could have the object any more.
    #[inline(never)]
    pub fn settle_after<B: Bodies>(&mut self, bodies: &mut B, id: Id)
        requires room { WaitsHaveRoom RECURSION_MAX (B.objects bodies.old).bodies self.old.waits }
        requires ready { IsReadyAt id.slot (B.objects bodies.old).bodies self.old.waits }
        ensures value { record { objects = B.objects bodies.new; waits = self.new.waits }
            ≡ settled (record { objects = B.objects bodies.old; waits = self.old.waits }) }
        ensures limit { self.new.limit ≡ self.old.limit }
        ensures clock { self.new.clock ≡ self.old.clock }
        ensures rest { B.rest bodies.new ≡ B.rest bodies.old }
        ensures settled { IsSettled (B.objects bodies.new).bodies self.new.waits }
        ensures room { (limit : ℕ) → WaitsHaveRoom limit (B.objects bodies.old).bodies self.old.waits
            → WaitsHaveRoom limit (B.objects bodies.new).bodies self.new.waits }
    {
        let (looked, all) = pass_slot(&mut self.live, bodies, &self.pending_index, id);
        self.pending_index
            .thin_slot(&self.live, id.slot, looked, all);
    }

    /// Settles, as [`settle`](Waits::settle) does, where only waits for one of these objects can be ready, as after
    /// changes of their bodies in a settled state. The waits take effect in the order of their numbers over all these
    /// slots together: to settle after one object and then after the next would be another order.
    ///
    /// It takes no memory. For each wait that it looks at it finds the next number among `k` slots, by halving in the
    /// lists of those whose object somebody who waits could still have; where it has looked at a `k`th of the list for
    /// all it goes over that one.
    pub fn settle_after_each<B: Bodies>(&mut self, bodies: &mut B, ids: &[Id])
        requires room { WaitsHaveRoom RECURSION_MAX (B.objects bodies.old).bodies self.old.waits }
        requires ready { IsReadyAtOne ids.now (B.objects bodies.old).bodies self.old.waits }
        ensures value { record { objects = B.objects bodies.new; waits = self.new.waits }
            ≡ settled (record { objects = B.objects bodies.old; waits = self.old.waits }) }
        ensures limit { self.new.limit ≡ self.old.limit }
        ensures clock { self.new.clock ≡ self.old.clock }
        ensures rest { B.rest bodies.new ≡ B.rest bodies.old }
        ensures settled { IsSettled (B.objects bodies.new).bodies self.new.waits }
        ensures room { (limit : ℕ) → WaitsHaveRoom limit (B.objects bodies.old).bodies self.old.waits
            → WaitsHaveRoom limit (B.objects bodies.new).bodies self.new.waits }
    {
        pass_each(&mut self.live, bodies, &self.pending_index, ids);
        self.pending_index.thin_slots(&self.live, ids);
    }

    /// Ends a pending wait without satisfying it, with a code that can be: 258, `WAIT_TIMEOUT`, or 192,
    /// `WAIT_IO_COMPLETION` ([Wait Functions]). The caller tells its blocks by [`leave_all`](crate::leave_all), of the
    /// objects that [`look`](Waits::look) gives before.
    ///
    /// [Wait Functions]: https://learn.microsoft.com/windows/win32/sync/wait-functions
    pub fn end(&mut self, wait: u32, code: u32)
        requires pending { is_pending (slice_index_or self.old.waits wait None) ≡ true }
        requires coded { is_code code ≡ true }
        ensures { self.new ≡ with_answer self.old wait code }
    {
        let Some(Wait { thread, .. }) = self.live.get(wait) else {
            unreachable!()
        };
        let thread = *thread;
        self.live.answer(thread, wait, code);
    }

    /// A pending wait whose deadline isn't after a moment. Where there is none, and none was answered before its time,
    /// that is known at once.
    pub fn overdue(&mut self, now: u64) -> Option<u32>
        ensures found { IfSome result (λ wait. is_overdue now (slice_index_or self.old.waits wait None) ≡ true) }
        ensures none { IfNone result ((n : ℕ) → is_overdue now (slice_index_or self.old.waits n None) ≡ false) }
        ensures same { self.new ≡ self.old }
    {
        next_overdue(&self.live, &mut self.deadlines, now)
    }

    /// The least deadline of the pending waits. That of a wait that was answered before is dropped here, once, in a
    /// time that grows with the logarithm of the threads; else it is known at once.
    pub fn next_due(&mut self) -> Option<u64>
        ensures least { IsLeast (map deadline_of self.old.waits) result }
        ensures same { self.new ≡ self.old }
    {
        next_due(&self.live, &mut self.deadlines)
    }

    /// Sets the clock to a later moment, at which no deadline has come.
    pub fn pass_to(&mut self, now: u64)
        requires later { self.old.clock ≤ now }
        requires last { now ≤ LAST_MOMENT }
        requires none { (n : ℕ) → is_overdue now (slice_index_or self.old.waits n None) ≡ false }
        ensures { self.new ≡ record self.old { clock = now } }
    {
        self.clock = now;
    }

    /// Takes the wait of a thread away, pending or answered, if it has one. The caller tells the blocks of a pending
    /// one as for [`end`](Waits::end).
    #[tactic(auto, using(crate::proofs::Counted::dropped_missing, crate::proofs::Counted::dropped_found))]
    pub fn drop_thread(&mut self, thread: u32)
        ensures { self.new ≡ without_thread self.old thread }
    {
        let Some(number) = self.live.number_of(thread) else {
            return;
        };
        self.live.remove(thread, number);
    }

    /// Where the wait of a number stands. One that is answered is then over, and its thread may wait again.
    #[inline(always)]
    pub fn take_if_answered(&mut self, wait: u32) -> Option<WaitState>
        ensures state { result ≡ state_at (slice_index_or self.old.waits wait None) }
        ensures over { self.new ≡ (if is_answer result then without_wait self.old wait else self.old) }
    {
        let Some(Wait { thread, state, .. }) = self.live.get(wait) else {
            return None;
        };
        let State::Answered(code) = state else {
            return Some(WaitState::Pending);
        };
        let (thread, code) = (*thread, *code);
        self.live.remove(thread, wait);
        self.pending_index.forget(wait);
        Some(WaitState::Answered(code))
    }

    /// Takes the code of an answered wait. The wait is then over, and its thread may wait again.
    pub fn take_result(&mut self, wait: u32) -> u32
        requires { IsSome (code_at (slice_index_or self.old.waits wait None)) }
        ensures code { code_at (slice_index_or self.old.waits wait None) ≡ Some result }
        ensures over { self.new ≡ without_wait self.old wait }
    {
        let Some(WaitState::Answered(code)) = self.take_if_answered(wait) else {
            unreachable!()
        };
        code
    }
}
