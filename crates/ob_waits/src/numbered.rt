ghost use Rattle.std.specs.Prelude.{◌≡◌, ◌+◌, ◌<◌, ◌≤◌, ℕ, true, Some, None, [], ◌∷◌, ◌++◌, length, slice_index_or};
ghost use Rattle.std.specs.Prelude.{slice_set, OnOk, OnErr};
ghost use Rattle.std.specs.Option.{option_copied};
ghost use Rattle.ob_waits.specs.Answers.{answer_of, is_answered};
ghost use Rattle.ob_waits.specs.Deadlines.{is_overdue};
ghost use Rattle.ob_waits.specs.Rules.{thread_of};
ghost use Rattle.ob_waits.specs.Waits.{answered, is_pending, number_of, skipped};

use crate::answer::Answer;
use crate::by_thread;
use crate::number_map::{NumberMap, NumberedThread};
use crate::numbered_wait::NumberedWait;
use crate::wait::{State, Wait};
use std::alloc::{AllocError, Global};
use std::marker::Model;

/// The waits by their numbers, from 1 on. Each stands at its thread, which the number finds.
#[derive(Drop)]
pub(crate) struct Numbered {
    given: u32,
    by_thread: Vec<Option<NumberedWait>>,
    number_map: NumberMap,
}

impl Model for Numbered {
    ghost use Rattle.std.specs.Prelude.{List, Option, suc};
    ghost use Rattle.ob_waits.specs.declared.wait.Wait.{Wait};
    ghost use Rattle.ob_waits.specs.Listed.{listed};
    ghost use Rattle.ob_waits.specs.ByThread.{found, thread_at, AreByThread, IsNumberMap};

    ghost Value = { List (Option Wait) };

    ghost view = { λ l. listed (suc l.given) (found l.by_thread.items (thread_at l.number_map)) };

    ghost invariant = { λ l. AreByThread l.given l.by_thread.items (thread_at l.number_map)
        × IsNumberMap l.number_map };
}

impl Numbered {
    pub(crate) fn new(alloc: Global) -> Numbered
        ensures { result ≡ None ∷ [] }
    {
        Numbered {
            given: 0,
            by_thread: Vec::new(alloc),
            number_map: NumberMap::new(alloc),
        }
    }

    /// The last number given, or 0.
    #[tactic(auto, using(crate::proofs::ListedLaws::length_listed))]
    pub(crate) fn given(&self) -> u32
        ensures { length self.now ≡ result + 1 }
    {
        self.given
    }

    /// The wait of a number.
    #[tactic(auto, using(crate::proofs::ByThreadLaws::number_reads))]
    pub(crate) fn get(&self, number: u32) -> Option<&Wait>
        ensures { option_copied result ≡ slice_index_or self.now number None }
    {
        let Some(thread) = self.number_map.get(number) else {
            return None;
        };
        by_thread::wait_at(self.by_thread.as_slice(), thread)
    }

    /// The number of a thread's wait.
    #[tactic(auto, using(crate::proofs::ByThreadLaws::number_held_is, crate::proofs::ByThreadLaws::number_held))]
    pub(crate) fn number_of(&self, thread: u32) -> Option<u32>
        ensures number { result ≡ number_of thread self.now }
        ensures own { (n : ℕ) → thread_of (slice_index_or self.now n None) ≡ Some thread → result ≡ Some n }
    {
        by_thread::number_at(self.by_thread.as_slice(), thread)
    }

    /// Whether the wait of a number is pending.
    pub(crate) fn is_pending(&self, number: u32) -> bool
        ensures { result ≡ is_pending (slice_index_or self.now number None) }
    {
        match self.get(number) {
            Some(wait) => match &wait.state {
                State::Pending(_, _) => true,
                State::Answered(_) => false,
            },
            None => false,
        }
    }

    /// Whether the wait of a number is answered.
    pub(crate) fn is_answered(&self, number: u32) -> bool
        ensures { result ≡ is_answered (slice_index_or self.now number None) }
    {
        match self.get(number) {
            Some(wait) => match &wait.state {
                State::Pending(_, _) => false,
                State::Answered(_) => true,
            },
            None => false,
        }
    }

    /// The answer of the wait of a number, if it has one.
    pub(crate) fn answer_of(&self, number: u32) -> Option<Answer>
        ensures { result ≡ answer_of number (slice_index_or self.now number None) }
    {
        let wait = self.get(number)?;
        match &wait.state {
            State::Pending(_, _) => None,
            State::Answered(code) => Some(Answer {
                wait: number,
                thread: wait.thread,
                code: *code,
            }),
        }
    }

    /// Whether the wait of a number is pending, and its time is up at a moment.
    pub(crate) fn is_overdue(&self, number: u32, now: u64) -> bool
        ensures { result ≡ is_overdue now (slice_index_or self.now number None) }
    {
        match self.get(number) {
            Some(wait) => match (&wait.state, wait.deadline) {
                (State::Pending(_, _), Some(deadline)) => deadline <= now,
                _ => false,
            },
            None => false,
        }
    }

    /// Gives the next number to the wait of a thread that has none.
    #[inline(always)]
    pub(crate) fn push(&mut self, wait: Wait) -> Result<(), AllocError>
        requires at_most { length self.old < 4294967296 }
        requires alone { number_of wait.thread self.old ≡ None }
        ensures ok { OnOk result (self.new ≡ self.old ++ Some wait ∷ []) }
        ensures err { OnErr result (self.new ≡ self.old) }
    {
        let number = self.given + 1;
        let thread = wait.thread;
        by_thread::make_room(&mut self.by_thread, thread)?;
        self.number_map.put(NumberedThread { number, thread })?;
        self.by_thread[thread as usize] = Some(NumberedWait { number, wait });
        self.given = number;
        Ok(())
    }

    /// Gives the next numbers, up to this one, to nobody.
    pub(crate) fn skip_to(&mut self, last: u32)
        requires { length self.old ≤ last + 1 }
        ensures { self.new ≡ skipped last self.old }
    {
        self.given = last;
    }

    /// Answers a thread's wait.
    pub(crate) fn answer(&mut self, thread: u32, code: u32)
        ensures { (n : ℕ) → thread_of (slice_index_or self.old n None) ≡ Some thread
            → self.new ≡ slice_set self.old n (answered (slice_index_or self.old n None) code) }
    {
        by_thread::answer(&mut self.by_thread, thread, code);
    }

    /// Takes a thread's wait away, of this number.
    #[inline(always)]
    pub(crate) fn remove(&mut self, thread: u32, number: u32)
        requires { thread_of (slice_index_or self.old number None) ≡ Some thread }
        ensures { self.new ≡ slice_set self.old number None }
    {
        self.number_map.remove(number);
        by_thread::clear(&mut self.by_thread, thread);
    }
}
