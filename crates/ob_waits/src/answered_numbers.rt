ghost use Rattle.std.specs.Prelude.{[], ◌≡◌, ◌<◌, ◌≤◌, ◌+◌, ℕ, IfSome, List, None, Option, Some, OnOk, false, true};
ghost use Rattle.std.specs.Prelude.{length, slice_index_or, slice_set};
ghost use Rattle.least.specs.From.{IsAtMost, IsLeastFrom};
ghost use Rattle.ob_waits.specs.declared.wait.Wait.{Wait};
ghost use Rattle.ob_waits.specs.Answers.{is_answered, AreTold, AreToldBut};
ghost use Rattle.ob_waits.specs.Rules.{thread_of};

use crate::answer_queue::AnswerQueue;
use crate::merge::lesser;
use crate::numbered::Numbered;
use least::Dues;
use std::alloc::{AllocError, Global};
use std::marker::Model;

/// The numbers of the waits that are answered and not over.
///
/// A wait that is answered after those of lesser numbers, as most are, has its number at the end of a list. One that is
/// answered later than a wait of a greater number has it at its thread.
#[derive(Drop)]
pub(crate) struct AnsweredNumbers {
    queue: AnswerQueue,
    out_of_order: Dues,
}

impl Model for AnsweredNumbers {
    ghost use Rattle.ob_waits.specs.Answers as spec;

    ghost Value = { spec.AnsweredNumbers };

    ghost view = { λ u. record { queue = u.queue; out_of_order = u.out_of_order } };
}

impl AnsweredNumbers {
    pub(crate) fn new(alloc: Global) -> AnsweredNumbers
        ensures { result ≡ record { queue = []; out_of_order = [] } }
    {
        AnsweredNumbers {
            queue: AnswerQueue::new(alloc),
            out_of_order: Dues::new(alloc),
        }
    }

    /// Takes the memory that the answer of a thread's wait needs.
    pub(crate) fn make_room(&mut self, thread: u32) -> Result<(), AllocError>
        ensures room { OnOk result (thread < length self.new.out_of_order) }
        ensures queue { self.new.queue ≡ self.old.queue }
        ensures out_of_order { (t : ℕ) → slice_index_or self.new.out_of_order t None
            ≡ slice_index_or self.old.out_of_order t None }
        ensures longer { length self.old.out_of_order ≤ length self.new.out_of_order }
        // So what was told still is, whatever the waits are.
        ensures told { (waits : List (Option Wait)) → AreTold waits self.old → AreTold waits self.new }
    {
        self.queue.make_room(thread)?;
        self.out_of_order.make_room(thread)
    }

    #[cold]
    fn come_out_of_order(&mut self, waits: &Numbered, number: u32)
        requires answered { is_answered (slice_index_or waits.now number None) ≡ true }
        requires told { AreToldBut (Some number) waits.now self.old }
        ensures { AreTold waits.now self.new }
    {
        let Some(wait) = waits.get(number) else {
            unreachable!()
        };
        let _number = waits.number_of(wait.thread);
        self.out_of_order.set(wait.thread, Some(u64::from(number)));
    }

    /// The wait of a number is answered.
    pub(crate) fn came(&mut self, waits: &Numbered, number: u32)
        requires answered { is_answered (slice_index_or waits.now number None) ≡ true }
        requires told { AreToldBut (Some number) waits.now self.old }
        ensures { AreTold waits.now self.new }
    {
        if self.queue.enter(number) {
            return;
        }
        self.come_out_of_order(waits, number);
    }

    /// A thread's wait is over.
    pub(crate) fn forget(&mut self, thread: u32, number: u32)
        ensures { (waits : List (Option Wait)) → thread_of (slice_index_or waits number None) ≡ Some thread
            → AreTold waits self.old → AreTold (slice_set waits number None) self.new }
    {
        if self.out_of_order.get(thread) == Some(u64::from(number)) {
            self.out_of_order.clear(thread);
        }
    }

    /// The number of a wait that is over needs no place in the list any more.
    pub(crate) fn drop_first(&mut self, waits: &Numbered, number: u32)
        requires { is_answered (slice_index_or waits.now number None) ≡ false }
        ensures { AreTold waits.now self.old → AreTold waits.now self.new }
    {
        self.queue.leave(waits, number);
    }

    fn out_of_order_above(&self, waits: &Numbered, after: u32) -> Option<u32>
        requires { AreTold waits.now self.now }
        ensures answered { IfSome result (λ n. is_answered (slice_index_or waits.now n None) ≡ true) }
        ensures above { IfSome result (λ n. after < n) }
        ensures least { (t n : ℕ) → slice_index_or self.now.out_of_order t None ≡ Some n → after < n
            → IsAtMost result n }
    {
        let _given = waits.given();
        let number = self.out_of_order.least_since(u64::from(after) + 1)?;
        Some(number as u32)
    }

    /// The least number above one whose wait is answered.
    pub(crate) fn least_above(&self, waits: &Numbered, after: u32) -> Option<u32>
        requires { AreTold waits.now self.now }
        ensures { IsLeastFrom (after + 1) (λ n. is_answered (slice_index_or waits.now n None)) result }
    {
        lesser(
            self.queue.next_above(waits, after),
            self.out_of_order_above(waits, after),
        )
    }
}
