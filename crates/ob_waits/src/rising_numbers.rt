ghost use Rattle.std.specs.Prelude.{[], ◌≡◌, ◌≤◌, ◌<◌, ◌-◌, ◌++◌, ℕ, List, Option, None, drop, false, filter, length};
ghost use Rattle.std.specs.Prelude.{not, slice_index_or, take, true, IfNone, IfOk, IfSome, OnOk};
ghost use Rattle.std.specs.Option.{OnSome};
ghost use Rattle.ob_waits.specs.declared.wait.Wait.{Wait};
ghost use Rattle.ob_waits.specs.Waits.{is_pending};
ghost use Rattle.ob_waits.specs.RisingNumbers.{IsOrdered, KeepsPending, ends_with, has_pending, Thins};
ghost use Rattle.ob_waits.specs.Rules.{Within};

use crate::live::Live;
use std::alloc::{AllocError, Global};
use std::marker::Model;

/// Numbers of waits, rising, among which are all of some that are pending.
///
/// Waits for one object are mostly answered from the front, so the numbers begin at a place that moves.
#[derive(Drop)]
pub(crate) struct RisingNumbers {
    numbers: Vec<u32>,
    start: usize,
    due: usize,
}

impl Model for RisingNumbers {
    ghost use Rattle.std.specs.Prelude.{List, ℕ, drop, length, ◌≤◌};

    ghost Value = { List ℕ };

    ghost view = { λ r. drop r.start r.numbers.items };

    ghost invariant = { λ r. r.start ≤ length r.numbers.items };
}

fn ends_with(numbers: &[u32], number: u32) -> bool
    ensures { result ≡ ends_with number numbers.now }
{
    match numbers.last() {
        Some(last) => *last == number,
        None => false,
    }
}

/// Whether the wait of a number is not pending, as that of `over` is not.
#[inline(always)]
fn is_over(live: &Live, number: u32, over: u32) -> bool
    requires { is_pending (slice_index_or live.now over None) ≡ false }
    ensures { is_pending (slice_index_or live.now number None) ≡ not result }
{
    number == over || !live.is_pending(number)
}

/// Moves the numbers of pending waits to the end of a range; answers where they begin.
#[tactic(auto, using(std::proofs::lemmas::List::get_or_default, crate::proofs::NumberLaws::sift_left))]
fn sift(numbers: &mut Vec<u32>, live: &Live, start: usize, end: usize) -> usize
    requires in_order { start ≤ end }
    requires within { end ≤ length numbers.old.items }
    ensures length_is { length numbers.new.items ≡ length numbers.old.items }
    ensures bound { result ≤ length numbers.old.items }
    ensures sifted { drop result numbers.new.items ≡ filter (has_pending live.now)
        (take (end - start) (drop start numbers.old.items)) ++ drop end numbers.old.items }
{
    let mut to = end;
    let mut at = end;
    while at > start {
        at -= 1;
        let number = numbers[at];
        if live.is_pending(number) {
            to -= 1;
            numbers[to] = number;
        }
    }
    to
}

impl RisingNumbers {
    pub(crate) fn new(alloc: Global) -> RisingNumbers
        ensures { result ≡ [] }
    {
        RisingNumbers {
            numbers: Vec::new(alloc),
            start: 0,
            due: 8,
        }
    }

    /// The numbers.
    pub(crate) fn as_slice(&self) -> &[u32]
        ensures { result.now ≡ self.now }
    {
        &self.numbers.as_slice()[self.start..]
    }

    /// Puts a number in the place of the last one, where the wait of that is not pending, and answers the last one.
    #[inline(always)]
    fn replace(&mut self, live: &Live, number: u32, over: u32) -> Option<u32>
        requires ordered { IsOrdered number self.old }
        requires fresh { is_pending (slice_index_or live.now number None) ≡ false }
        requires over { is_pending (slice_index_or live.now over None) ≡ false }
        ensures over { IfSome result (λ n. is_pending (slice_index_or live.now n None) ≡ false) }
        ensures ordered { IsOrdered number self.new }
        ensures keeps { KeepsPending live.now self.old self.new }
        ensures entered { OnSome result (Within number self.new) }
        ensures above { IfNone result ((k : ℕ) → Within k self.new → k < number) }
    {
        let end = self.numbers.len();
        if self.start == end {
            return None;
        }
        let last = self.numbers[end - 1];
        if !is_over(live, last, over) {
            return None;
        }
        self.numbers[end - 1] = number;
        Some(last)
    }

    /// Puts a number in that is above all that are there.
    #[inline(always)]
    fn append(&mut self, number: u32) -> Result<(), AllocError>
        requires ordered { IsOrdered number self.old }
        requires above { (k : ℕ) → Within k self.old → k < number }
        ensures ordered { IsOrdered number self.new }
        ensures keeps { (k : ℕ) → Within k self.old → Within k self.new }
        ensures entered { OnOk result (Within number self.new) }
    {
        self.numbers.push(number)?;
        Ok(())
    }

    /// Puts a number in that is not below any that is there, of a wait that is to come; where the last one is of a wait
    /// that is over, in its place. Given and answered is a number of a wait that is not pending.
    #[inline(always)]
    pub(crate) fn enter(&mut self, live: &Live, number: u32, over: u32) -> Result<u32, AllocError>
        requires ordered { IsOrdered number self.old }
        requires fresh { is_pending (slice_index_or live.now number None) ≡ false }
        requires over { is_pending (slice_index_or live.now over None) ≡ false }
        ensures over { IfOk result (λ n. is_pending (slice_index_or live.now n None) ≡ false) }
        ensures ordered { IsOrdered number self.new }
        ensures keeps { KeepsPending live.now self.old self.new }
        ensures entered { OnOk result (Within number self.new) }
    {
        if let Some(last) = self.replace(live, number, over) {
            return Ok(last);
        }
        self.thin_if_due(live);
        self.append(number)?;
        Ok(over)
    }

    /// Drops the number of a wait that is not pending, where it is the last, as of a wait that was short.
    pub(crate) fn forget(&mut self, number: u32)
        ensures { (waits : List (Option Wait)) → is_pending (slice_index_or waits number None) ≡ false
            → Thins waits self.old self.new }
    {
        if !ends_with(self.as_slice(), number) {
            return;
        }
        let _ = self.numbers.pop();
    }

    /// Drops so many of the first numbers.
    fn skip(&mut self, count: usize)
        requires { count ≤ length self.old }
        ensures { self.new ≡ drop count self.old }
    {
        self.start += count;
        if self.start == self.numbers.len() {
            self.numbers.clear();
            self.start = 0;
        }
    }

    fn drop_others(&mut self, live: &Live, count: usize)
        requires { count ≤ length self.old }
        ensures { self.new ≡ filter (has_pending live.now) (take count self.old) ++ drop count self.old }
    {
        let start = self.start;
        self.start = sift(&mut self.numbers, live, start, start + count);
        if self.start == self.numbers.len() {
            self.numbers.clear();
            self.start = 0;
        }
    }

    /// Drops, of the first `count` numbers, those of waits that are not pending: all of them, where that is known.
    #[inline(always)]
    #[tactic(auto, using(crate::proofs::NumberLaws::thins_front))]
    pub(crate) fn thin(&mut self, live: &Live, count: usize, all: bool)
        requires bound { count ≤ length self.old }
        requires all { all ≡ true → Thins live.now self.old (drop count self.old) }
        ensures { Thins live.now self.old self.new }
    {
        if all {
            self.skip(count);
            return;
        }
        self.drop_others(live, count);
    }

    /// Drops the first numbers as far as their waits are not pending.
    #[tactic(auto, using(std::proofs::lemmas::List::get_or_default, crate::proofs::NumberLaws::thins_both, crate::proofs::NumberLaws::thins_first))]
    pub(crate) fn advance(&mut self, live: &Live)
        ensures { Thins live.now self.old self.new }
    {
        while self.start < self.numbers.len() && !live.is_pending(self.numbers[self.start]) {
            self.start += 1;
        }
    }

    /// Moves the numbers to the first place.
    fn pack(&mut self)
        ensures { self.new ≡ self.old }
    {
        let start = self.start;
        let left = self.numbers.len() - start;
        self.numbers.rotate_left(start);
        self.numbers.truncate(left);
        self.start = 0;
    }

    /// Drops all numbers of waits that are not pending.
    #[inline(never)]
    fn thin_all(&mut self, live: &Live)
        ensures { Thins live.now self.old self.new }
    {
        let count = self.numbers.len() - self.start;
        self.thin(live, count, false);
        self.pack();
        self.due = self.numbers.len().saturating_mul(2).saturating_add(8);
    }

    /// Drops all numbers of waits that are not pending, where it is due: once there are eight more than twice as many
    /// as were left the last time, so that it costs constant time for each number, over all calls.
    #[inline]
    #[tactic(auto, using(crate::proofs::NumberLaws::thins_none))]
    fn thin_if_due(&mut self, live: &Live)
        ensures { Thins live.now self.old self.new }
    {
        if self.numbers.len() >= self.due {
            self.thin_all(live);
        }
    }
}
