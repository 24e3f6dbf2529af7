ghost use Rattle.std.specs.Prelude.{[], ◌≡◌, ◌<◌, ◌++◌, ◌∷◌, ℕ, IfSome, None, false, true, if◌then◌else◌};
ghost use Rattle.std.specs.Prelude.{slice_index_or};
ghost use Rattle.least.specs.From.{IsAtMost};
ghost use Rattle.ob_waits.specs.Answers.{is_answered, ThinsAnswered};
ghost use Rattle.ob_waits.specs.Rules.{IsRising, Within};

use crate::merge::next_of;
use crate::numbered::Numbered;
use std::alloc::{AllocError, Global};
use std::marker::Model;

/// Numbers of waits, rising, put in as the waits were answered. Those whose waits are over are dropped from the front.
#[derive(Drop)]
pub(crate) struct AnswerQueue {
    numbers: Vec<u32>,
    start: usize,
}

impl Model for AnswerQueue {
    ghost use Rattle.std.specs.Prelude.{List, ℕ, drop, length, ◌≤◌};

    ghost Value = { List ℕ };

    ghost view = { λ f. drop f.start f.numbers.items };

    ghost invariant = { λ f. f.start ≤ length f.numbers.items };
}

fn is_above(numbers: &[u32], number: u32) -> bool
    ensures { IsRising numbers.now → result ≡ true → (k : ℕ) → Within k numbers.now → k < number }
{
    match numbers.last() {
        Some(last) => *last < number,
        None => true,
    }
}

/// The least number above one whose wait is answered, by halving.
#[inline(never)]
fn search_above(numbers: &[u32], waits: &Numbered, after: u32) -> Option<u32>
    requires { IsRising numbers.now }
    ensures answered { IfSome result (λ n. is_answered (slice_index_or waits.now n None) ≡ true) }
    ensures above { IfSome result (λ n. after < n) }
    ensures least { (k : ℕ) → Within k numbers.now → after < k → is_answered (slice_index_or waits.now k None) ≡ true
        → IsAtMost result k }
{
    let mut last = after;
    while let Some(number) = next_of(numbers, last) {
        if waits.is_answered(number) {
            return Some(number);
        }
        last = number;
    }
    None
}

impl AnswerQueue {
    pub(crate) fn new(alloc: Global) -> AnswerQueue
        ensures { result ≡ [] }
    {
        AnswerQueue {
            numbers: Vec::new(alloc),
            start: 0,
        }
    }

    fn as_slice(&self) -> &[u32]
        ensures { result.now ≡ self.now }
    {
        &self.numbers.as_slice()[self.start..]
    }

    /// Makes room for as many numbers as there are threads up to this one.
    pub(crate) fn make_room(&mut self, thread: u32) -> Result<(), AllocError>
        ensures { self.new ≡ self.old }
    {
        let places = thread as usize + 1;
        if self.numbers.capacity() < places {
            let more = places.saturating_sub(self.numbers.len());
            self.numbers.reserve(more)?;
        }
        Ok(())
    }

    /// Puts a number in that is above all that are there, where there is room; whether it did. It takes no memory.
    pub(crate) fn enter(&mut self, number: u32) -> bool
        ensures value { self.new ≡ (if result then self.old ++ number ∷ [] else self.old) }
        ensures rising { IsRising self.old → IsRising self.new }
    {
        if self.numbers.len() >= self.numbers.capacity() || !is_above(self.as_slice(), number) {
            return false;
        }
        self.numbers.push_reserved(number);
        true
    }

    /// Drops a number whose wait is over, where it is the first, and those behind it whose waits are over.
    pub(crate) fn leave(&mut self, waits: &Numbered, number: u32)
        requires { is_answered (slice_index_or waits.now number None) ≡ false }
        ensures { ThinsAnswered waits.now self.old self.new }
    {
        if self.start == self.numbers.len() || self.numbers[self.start] != number {
            return;
        }
        self.start += 1;
        while self.start < self.numbers.len() && !waits.is_answered(self.numbers[self.start]) {
            self.start += 1;
        }
        if self.start == self.numbers.len() {
            self.numbers.clear();
            self.start = 0;
        }
    }

    /// The least number above one whose wait is answered. Mostly there is none, or it is the first.
    #[inline]
    #[tactic(auto, using(crate::proofs::AnswerLaws::first_least))]
    pub(crate) fn next_above(&self, waits: &Numbered, after: u32) -> Option<u32>
        requires { IsRising self.now }
        ensures answered { IfSome result (λ n. is_answered (slice_index_or waits.now n None) ≡ true) }
        ensures above { IfSome result (λ n. after < n) }
        ensures least { (k : ℕ) → Within k self.now → after < k → is_answered (slice_index_or waits.now k None) ≡ true
            → IsAtMost result k }
    {
        let numbers = self.as_slice();
        if numbers.is_empty() {
            return None;
        }
        let first = numbers[0];
        if first > after && waits.is_answered(first) {
            return Some(first);
        }
        search_above(numbers, waits, after)
    }
}
