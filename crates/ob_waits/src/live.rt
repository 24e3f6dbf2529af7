ghost use Rattle.std.specs.Prelude.{◌≡◌, ◌+◌, ◌<◌, ◌≤◌, ℕ, true, false, Some, None, [], ◌∷◌, ◌++◌, IfNone, IfSome};
ghost use Rattle.std.specs.Prelude.{length, slice_index_or, slice_set, OnOk, OnErr};
ghost use Rattle.std.specs.Option.{option_copied, option_map};
ghost use Rattle.least.specs.From.{IsLeastFrom};
ghost use Rattle.ob_waits.specs.Answers.{answer_of, is_answered};
ghost use Rattle.ob_waits.specs.Deadlines.{is_overdue};
ghost use Rattle.ob_waits.specs.Rules.{thread_of};
ghost use Rattle.ob_waits.specs.Waits.{answered, is_pending, number_of, skipped};

use crate::answer::Answer;
use crate::answered_numbers::AnsweredNumbers;
use crate::numbered::Numbered;
use crate::wait::{State, Wait};
use std::alloc::{AllocError, Global};
use std::marker::Model;

/// The waits by their numbers, of which those that are answered are found in order.
#[derive(Drop)]
pub(crate) struct Live {
    waits: Numbered,
    answered_numbers: AnsweredNumbers,
}

impl Model for Live {
    ghost use Rattle.std.specs.Prelude.{List, Option};
    ghost use Rattle.ob_waits.specs.declared.wait.Wait.{Wait};
    ghost use Rattle.ob_waits.specs.Answers.{AreTold};

    ghost Value = { List (Option Wait) };

    ghost view = { λ l. l.waits };

    ghost invariant = { λ l. AreTold l.waits l.answered_numbers };
}

impl Live {
    pub(crate) fn new(alloc: Global) -> Live
        ensures { result ≡ None ∷ [] }
    {
        Live {
            waits: Numbered::new(alloc),
            answered_numbers: AnsweredNumbers::new(alloc),
        }
    }

    /// The last number given, or 0.
    pub(crate) fn given(&self) -> u32
        ensures { length self.now ≡ result + 1 }
    {
        self.waits.given()
    }

    /// The wait of a number.
    pub(crate) fn get(&self, number: u32) -> Option<&Wait>
        ensures { option_copied result ≡ slice_index_or self.now number None }
    {
        self.waits.get(number)
    }

    /// Whether the wait of a number is pending.
    pub(crate) fn is_pending(&self, number: u32) -> bool
        ensures { result ≡ is_pending (slice_index_or self.now number None) }
    {
        self.waits.is_pending(number)
    }

    /// The number of a thread's wait.
    pub(crate) fn number_of(&self, thread: u32) -> Option<u32>
        ensures number { result ≡ number_of thread self.now }
        ensures own { (n : ℕ) → thread_of (slice_index_or self.now n None) ≡ Some thread → result ≡ Some n }
    {
        self.waits.number_of(thread)
    }

    /// The number of a thread's wait, where that is pending and its time is up at a moment.
    pub(crate) fn overdue_of(&self, thread: u32, now: u64) -> Option<u32>
        ensures found { IfSome result (λ n. is_overdue now (slice_index_or self.now n None) ≡ true) }
        ensures none { IfNone result ((n : ℕ) → thread_of (slice_index_or self.now n None) ≡ Some thread
            → is_overdue now (slice_index_or self.now n None) ≡ false) }
    {
        let Some(number) = self.waits.number_of(thread) else {
            return None;
        };
        if self.waits.is_overdue(number, now) {
            return Some(number);
        }
        None
    }

    /// The answer of the least number above one.
    pub(crate) fn next_answered(&self, after: u32) -> Option<Answer>
        ensures least { IsLeastFrom (after + 1) (λ n. is_answered (slice_index_or self.now n None))
            (option_map (λ a. a.wait) result) }
        ensures answer { IfSome result (λ a. answer_of a.wait (slice_index_or self.now a.wait None) ≡ Some a) }
    {
        let number = self.answered_numbers.least_above(&self.waits, after)?;
        self.waits.answer_of(number)
    }

    /// Gives the next number to a pending wait, of a thread that has none.
    #[inline(always)]
    pub(crate) fn push(&mut self, wait: Wait) -> Result<(), AllocError>
        requires at_most { length self.old < 4294967296 }
        requires alone { number_of wait.thread self.old ≡ None }
        requires pending { is_pending (Some wait) ≡ true }
        ensures ok { OnOk result (self.new ≡ self.old ++ Some wait ∷ []) }
        ensures err { OnErr result (self.new ≡ self.old) }
    {
        self.answered_numbers.make_room(wait.thread)?;
        self.waits.push(wait)?;
        Ok(())
    }

    /// Gives the next number to a wait that is answered, of a thread that has none.
    pub(crate) fn push_answered(&mut self, wait: Wait) -> Result<(), AllocError>
        requires at_most { length self.old < 4294967296 }
        requires alone { number_of wait.thread self.old ≡ None }
        requires answered { is_answered (Some wait) ≡ true }
        ensures ok { OnOk result (self.new ≡ self.old ++ Some wait ∷ []) }
        ensures err { OnErr result (self.new ≡ self.old) }
    {
        self.answered_numbers.make_room(wait.thread)?;
        self.waits.push(wait)?;
        let number = self.waits.given();
        self.answered_numbers.came(&self.waits, number);
        Ok(())
    }

    /// Gives the next numbers, up to this one, to nobody.
    pub(crate) fn skip_to(&mut self, last: u32)
        requires { length self.old ≤ last + 1 }
        ensures { self.new ≡ skipped last self.old }
    {
        self.waits.skip_to(last);
    }

    /// Answers a thread's wait, of this number.
    pub(crate) fn answer(&mut self, thread: u32, number: u32, code: u32)
        requires own { thread_of (slice_index_or self.old number None) ≡ Some thread }
        requires pending { is_pending (slice_index_or self.old number None) ≡ true }
        ensures { self.new ≡ slice_set self.old number (answered (slice_index_or self.old number None) code) }
    {
        self.waits.answer(thread, code);
        self.answered_numbers.came(&self.waits, number);
    }

    /// Takes a thread's wait away, of this number.
    #[inline(always)]
    pub(crate) fn remove(&mut self, thread: u32, number: u32)
        requires { thread_of (slice_index_or self.old number None) ≡ Some thread }
        ensures { self.new ≡ slice_set self.old number None }
    {
        self.waits.remove(thread, number);
        self.answered_numbers.forget(thread, number);
        self.answered_numbers.drop_first(&self.waits, number);
    }
}
